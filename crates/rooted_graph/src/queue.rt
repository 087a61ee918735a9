//! The queue of a breadth-first walk: the nodes met so far, each once, and by node its place there.

ghost use Rattle.std.specs.Prelude.{◌≡◌, ℕ, ◌<◌, ◌≤◌, ◌^◌, [], None, OnOk, fold, length, count_by, is_some};
ghost use Rattle.std.specs.Prelude.{slice_index_or};
ghost use Rattle.rooted_graph.specs.BreadthOrder.{added, number_of, targets};

use crate::linked_nodes::LinkedNodes;
use std::alloc::{AllocError, Global};

/// The nodes met so far.
#[derive(Drop)]
pub(crate) struct Queue {
    /// In the order in which they were met.
    pub(crate) nodes: Vec<u32>,
    /// By node, its place among them.
    pub(crate) numbers: Vec<Option<u32>>,
    ghost few: { length numbers.items < 2 ^ 32 },
    ghost numbered: { (n : ℕ) → slice_index_or numbers.items n None ≡ number_of nodes.items n },
    ghost counted: { count_by is_some numbers.items ≡ length nodes.items },
}

impl Queue {
    /// With no node yet, for none. It takes no memory yet.
    pub(crate) fn new(alloc: Global) -> Queue
        ensures { result.nodes.items ≡ [] }
    {
        Queue {
            nodes: Vec::new(alloc),
            numbers: Vec::new(alloc),
        }
    }

    /// Leaves no node, and makes room for nodes below a number.
    pub(crate) fn renew(&mut self, node_count: u32) -> Result<(), AllocError>
        ensures empty { self.new.nodes.items ≡ [] }
        ensures size { OnOk result (length self.new.numbers.items ≡ node_count) }
    {
        self.clear();
        self.numbers.resize(node_count as usize, None)
    }

    /// Leaves no node, and room for none. Keeps the memory.
    pub(crate) fn clear(&mut self)
        ensures nodes { self.new.nodes.items ≡ [] }
        ensures numbers { self.new.numbers.items ≡ [] }
    {
        self.nodes.clear();
        self.numbers.clear();
    }

    /// Puts a node at the end, unless it was met before.
    pub(crate) fn add(&mut self, node: u32) -> Result<(), AllocError>
        requires { node < length self.old.numbers.items }
        ensures nodes { OnOk result (self.new.nodes.items ≡ added self.old.nodes.items node) }
        ensures size { length self.new.numbers.items ≡ length self.old.numbers.items }
    {
        if self.numbers[node as usize].is_none() {
            let number = self.nodes.len() as u32;
            self.nodes.push(node)?;
            self.numbers[node as usize] = Some(number);
        }
        Ok(())
    }

    /// Puts the roots at the end, in their order, each unless it was met before.
    pub(crate) fn add_roots<G: LinkedNodes>(&mut self, graph: &G) -> Result<(), AllocError>
        requires { length self.old.numbers.items ≡ length (G.graph graph.now).links }
        ensures nodes { OnOk result (self.new.nodes.items ≡ fold added self.old.nodes.items (G.graph graph.now).roots) }
        ensures size { length self.new.numbers.items ≡ length self.old.numbers.items }
    {
        for place in 0..graph.root_count() {
            self.add(graph.root(place))?;
        }
        Ok(())
    }

    /// Puts the targets of a node's links at the end, in their order, each unless it was met before.
    pub(crate) fn add_targets<G: LinkedNodes>(
        &mut self,
        graph: &G,
        node: u32,
    ) -> Result<(), AllocError>
        requires node { node < length (G.graph graph.now).links }
        requires size { length self.old.numbers.items ≡ length (G.graph graph.now).links }
        ensures nodes { OnOk result
            (self.new.nodes.items ≡ fold added self.old.nodes.items (targets (G.graph graph.now) node)) }
        ensures size { length self.new.numbers.items ≡ length self.old.numbers.items }
    {
        let mut walk = graph.links(node);
        while let Some(link) = graph.next_link(&mut walk) {
            if let Some(target) = link {
                self.add(target)?;
            }
        }
        Ok(())
    }
}
