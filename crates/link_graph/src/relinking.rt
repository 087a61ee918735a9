//! Links of a record made null, and plain links led elsewhere.
ghost use Rattle.std.specs.Prelude.{◌≡◌, ◌+◌, ◌<◌, ◌≤◌, ℕ, length, slice_get, IfOk, IfSome, OnOk, OnErr};
ghost use Rattle.link_graph.specs.Graph.{ReadsBy};
ghost use Rattle.link_graph.specs.Relinked.{SetsLink, IsLinkOf};
ghost use Rattle.link_graph.specs.Unlinked.{ClearsLinks, KeepsLink, HasPlainLinkBy, IsNumberOf};
ghost use Rattle.link_graph.specs.Unlinked.{IsClearedBody};

use crate::links::link_bytes;
use crate::segment::Segment;
use layout_plan::{Plans, plain_link_start, without_links};
use std::alloc::{AllocError, Global};
use type_text::Link;

impl Segment {
    /// Makes all links of a record null. The record reads by its plan. It takes time by the body's length, and for a
    /// while as much memory. After a refusal nothing has changed.
    pub fn clear_links(&mut self, alloc: Global, plans: &Plans, node: u32) -> Result<(), AllocError>
        requires node { node < length self.old.nodes }
        requires reads { IfSome (slice_get self.old.nodes node) (ReadsBy plans.now self.old.order) }
        ensures ok { OnOk result (ClearsLinks plans.now node self.old self.new) }
        ensures err { OnErr result (self.new ≡ self.old) }
    {
        let body = self.cleared_body(alloc, plans, node)?;
        self.write_body(node, 0, body.as_slice());
        Ok(())
    }

    /// Makes the link of a field without dimension lead elsewhere. The record reads by its plan, in which the field is
    /// such a link. Takes no memory.
    pub fn set_plain_link(&mut self, plans: &Plans, node: u32, field: u32, to: Link)
        requires node { node < length self.old.nodes }
        requires link { IfSome (slice_get self.old.nodes node)
            (HasPlainLinkBy plans.now self.old.order field) }
        ensures { (k : ℕ)
            → IfSome (slice_get self.old.nodes node) (IsNumberOf plans.now self.old.order field k)
            → SetsLink plans.now node k to self.old self.new }
    {
        let at = self.plain_link_place(plans, node, field);
        self.write_body(node, at, &link_bytes(self.order(), to));
    }

    /// Makes the link of a field without dimension lead elsewhere, and all other links of the record null. The record
    /// reads by its plan, in which the field is such a link. It takes time by the body's length, and for a while as
    /// much memory. After a refusal nothing has changed.
    pub fn keep_link(
        &mut self,
        alloc: Global,
        plans: &Plans,
        node: u32,
        field: u32,
        to: Link,
    ) -> Result<(), AllocError>
        requires node { node < length self.old.nodes }
        requires link { IfSome (slice_get self.old.nodes node)
            (HasPlainLinkBy plans.now self.old.order field) }
        ensures ok { OnOk result ((k : ℕ)
            → IfSome (slice_get self.old.nodes node) (IsNumberOf plans.now self.old.order field k)
            → KeepsLink plans.now node k to self.old self.new) }
        ensures err { OnErr result (self.new ≡ self.old) }
    {
        self.clear_links(alloc, plans, node)?;
        self.set_plain_link(plans, node, field, to);
        Ok(())
    }

    /// The body of a record with each link null.
    fn cleared_body(&self, alloc: Global, plans: &Plans, node: u32) -> Result<Vec<u8>, AllocError>
        requires node { node < length self.now.nodes }
        requires reads { IfSome (slice_get self.now.nodes node) (ReadsBy plans.now self.now.order) }
        ensures { IfOk result (λ body. IfSome (slice_get self.now.nodes node)
            (IsClearedBody plans.now self.now.order body.items)) }
    {
        match plans.plan(self.node(node).class) {
            Some(plan) => without_links(alloc, plan, self.order(), self.body(node)),
            None => unreachable!(),
        }
    }

    /// Where the link of a field without dimension begins in the body of a record.
    fn plain_link_place(&self, plans: &Plans, node: u32, field: u32) -> u32
        requires node { node < length self.now.nodes }
        requires link { IfSome (slice_get self.now.nodes node)
            (HasPlainLinkBy plans.now self.now.order field) }
        ensures within { IfSome (slice_get self.now.nodes node) (λ r. result + 6 ≤ length r.body) }
        ensures place { (k : ℕ)
            → IfSome (slice_get self.now.nodes node) (IsNumberOf plans.now self.now.order field k)
            → IfSome (slice_get self.now.nodes node) (IsLinkOf plans.now self.now.order k result) }
    {
        match plans.plan(self.node(node).class) {
            Some(plan) => plain_link_start(plan, self.order(), self.body(node), field) as u32,
            None => unreachable!(),
        }
    }
}
