//! Where the links of a frame's records lead.

ghost use Rattle.std.specs.Prelude.{◌≡◌, ◌<◌, [], All, None, Some, length, slice_get, slice_index_or};
ghost use Rattle.std.specs.Prelude.{slice_range, drop, IfSome};
ghost use Rattle.rooted_graph.specs.Rooted.{links_of};
ghost use Rattle.link_graph.specs.Table.{start_of, AreEnds, IsWithin};

use rooted_graph::LinkedNodes;
use std::marker::Model;

/// The targets of all links, those of one record after another, and the roots. Contracts see them as a graph.
#[derive(Drop)]
pub struct Targets<'a> {
    pub targets: &'a [Option<u32>],
    /// Where the targets of each record end.
    pub ends: &'a [usize],
    pub roots: &'a [u32],
}

impl<'a> Model for Targets<'a> {
    ghost use Rattle.rooted_graph.specs.Rooted.{Rooted};
    ghost use Rattle.link_graph.specs.Table.{rows_from, IsTable};

    ghost Value = { Rooted };

    ghost view = { λ t. record { links = rows_from 0 t.ends.now t.targets.now; roots = t.roots.now } };

    ghost invariant = { λ t. IsTable t.targets.now t.ends.now t.roots.now };
}

/// The links of a record that a walk still has before it.
#[derive(Drop)]
pub struct Row {
    node: u32,
    next: usize,
}

impl<'a> LinkedNodes for Targets<'a> {
    type Walk = Row;

    ghost graph = { λ t. t };

    ghost is_walk = { λ t walk. walk.node < length t.links };

    ghost ahead = { λ t walk. drop walk.next (links_of t walk.node) };

    fn node_count(&self) -> u32 {
        self.ends.len() as u32
    }

    fn root_count(&self) -> usize {
        self.roots.len()
    }

    fn root(&self, place: usize) -> u32 {
        let roots = self.roots;
        roots[place]
    }

    fn links(&self, node: u32) -> Row {
        Row { node, next: 0 }
    }

    fn next_link(&self, walk: &mut Row) -> Option<Option<u32>> {
        let row = self.row(walk.node);
        if walk.next >= row.len() {
            return None;
        }
        let link = row[walk.next];
        walk.next += 1;
        Some(link)
    }
}

impl Targets<'_> {
    /// The targets of a record's links.
    fn row(&self, node: u32) -> &[Option<u32>]
        requires { node < length self.now.links }
        ensures row { result.now ≡ links_of self.now node }
        ensures whole { All (IsWithin (length self.now.links)) result.now }
    {
        row_of(self.targets, self.ends, node as usize)
    }
}

/// The row of a record, by where the rows end.
fn row_of<'a>(targets: &'a [Option<u32>], ends: &[usize], node: usize) -> &'a [Option<u32>]
    requires node { node < length ends.now }
    requires ends { AreEnds 0 ends.now (length targets.now) }
    ensures { result.now
        ≡ slice_range targets.now (start_of 0 ends.now node) (slice_index_or ends.now node 0) }
{
    let to = ends[node];
    let from = start(ends, node);
    &targets[from..to]
}

/// Where the row of a record begins.
fn start(ends: &[usize], node: usize) -> usize
    requires { node < length ends.now }
    ensures { result ≡ start_of 0 ends.now node }
{
    if node == 0 { 0 } else { ends[node - 1] }
}
