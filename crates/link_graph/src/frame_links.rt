//! The links of a frame's records, read while the records come.

ghost use Rattle.std.specs.Prelude.{◌≡◌, ◌≤◌, ◌<◌, ◌↔◌, ◌++◌, ◌∷◌, [], ℕ, All, None, Some, Err, IsOk, IfOk, OnOk};
ghost use Rattle.std.specs.Prelude.{IfErr, OnErr, IsSome, length};
ghost use Rattle.layout_plan.specs.Body.{HasBody, IsMeasured};
ghost use Rattle.layout_plan.specs.Reading.{fault_of};
ghost use Rattle.rooted_graph.specs.BreadthOrder.{IsBreadthOrder, number_of};
ghost use Rattle.rooted_graph.specs.Rooted.{IsReached};
ghost use Rattle.link_graph.specs.Graph.{links_by};
ghost use Rattle.link_graph.specs.Table.{loose_row, graph_by};

use crate::closing::CloseFault;
use crate::nodes::Root;
use crate::rows::{put_roots, put_targets};
use crate::segment::Segment;
use crate::targets::Targets;
use layout_plan::{BodyFault, Measured, Plan, measure_links};
use rooted_graph::Numbering;
use scalar_types::Order;
use std::alloc::{AllocError, Global};
use std::marker::Model;
use type_text::Link;

/// The links of records, and room for their targets, which is used again for each frame. Contracts see the
/// links, row by row: a row for each record.
#[derive(Drop)]
pub struct FrameLinks {
    links: Vec<Link>,
    /// Where the links of each record end.
    ends: Vec<usize>,
    targets: Vec<Option<u32>>,
    roots: Vec<u32>,
}

impl Model for FrameLinks {
    ghost use Rattle.std.specs.Prelude.{List, length};
    ghost use Rattle.type_text.specs.declared.types.Link.{Link};
    ghost use Rattle.link_graph.specs.Table.{rows_from, AreEnds};

    ghost Value = { List (List Link) };

    ghost view = { λ f. rows_from 0 f.ends.items f.links.items };

    ghost invariant = { λ f. AreEnds 0 f.ends.items (length f.links.items) };
}

impl FrameLinks {
    /// No row. It takes no memory yet.
    pub fn new(alloc: Global) -> FrameLinks
        ensures { result ≡ [] }
    {
        FrameLinks {
            links: Vec::new(alloc),
            ends: Vec::new(alloc),
            targets: Vec::new(alloc),
            roots: Vec::new(alloc),
        }
    }

    /// Measures a body by a plan, and puts its links as a row behind the others. Where the body does not
    /// spell the layout, and after a refusal, no row is put.
    pub fn add(
        &mut self,
        plan: &Plan,
        order: Order,
        body: &[u8],
    ) -> Result<Result<Measured, BodyFault>, AllocError>
        ensures ok { IfOk result (λ answer. IsOk answer ↔ HasBody order plan.now body.now) }
        ensures measured { IfOk result (λ answer. IfOk answer (λ m. IsMeasured order plan.now body.now m.links
            m.zero_texts)) }
        ensures fault { IfOk result (λ answer. IfErr answer (λ fault. fault_of order plan.now body.now
            ≡ Some fault)) }
        ensures row { IfOk result (λ answer. OnOk answer
            (self.new ≡ self.old ++ links_by order plan.now body.now ∷ [])) }
        ensures kept { IfOk result (λ answer. OnErr answer (self.new ≡ self.old)) }
        ensures err { OnErr result (self.new ≡ self.old) }
    {
        // What is known of a plan's fields makes the links the only ones.
        let _fields = plan.fields();
        let start = self.links.len();
        let measured = match measure_links(plan, order, body, &mut self.links)? {
            Ok(measured) => measured,
            Err(fault) => return Ok(Err(fault)),
        };
        if self.ends.push(self.links.len()).is_err() {
            self.links.truncate(start);
            return Err(AllocError);
        }
        Ok(Ok(measured))
    }

    /// Leaves no row. Takes no memory, and keeps what it has.
    pub fn clear(&mut self)
        ensures { self.new ≡ [] }
    {
        self.links.clear();
        self.ends.clear();
    }

    /// Numbers the records of a segment, of which these are the links, or names the first that is loose.
    pub(crate) fn number(
        &mut self,
        segment: &Segment,
        numbering: &mut Numbering,
    ) -> Result<(), CloseFault>
        requires { length self.old ≡ length segment.now.nodes }
        ensures kept { self.new ≡ self.old }
        ensures loose { (node link : ℕ) → result ≡ Err (CloseFault.LooseLink node link)
            → loose_row segment.now.nodes 0 self.old ≡ Some (node, link) }
        ensures linked { OnOk result (loose_row segment.now.nodes 0 self.old ≡ None) }
        ensures order { OnOk result (IsBreadthOrder (graph_by segment.now.nodes self.old) numbering.new) }
        ensures in_range { OnOk result (All (λ node. node < length segment.now.nodes) numbering.new) }
        ensures reached { OnOk result ((n : ℕ)
            → IsSome (number_of numbering.new n) ↔ IsReached (graph_by segment.now.nodes self.old) n) }
    {
        put_targets(
            segment,
            self.links.as_slice(),
            self.ends.as_slice(),
            &mut self.targets,
        )?;
        self.roots.clear();
        put_roots(segment, Root::Head, &mut self.roots)?;
        put_roots(segment, Root::Stat, &mut self.roots)?;
        let graph = Targets {
            targets: self.targets.as_slice(),
            ends: self.ends.as_slice(),
            roots: self.roots.as_slice(),
        };
        numbering.renew(&graph)?;
        Ok(())
    }
}
