//! A frame that is complete: every link leads somewhere, and its records have a breadth-first order.

ghost use Rattle.std.specs.Prelude.{◌≡◌, ◌<◌, ◌++◌, ◌∷◌, [], ℕ, All, None, Some, Err, length, slice_get, ◌↔◌};
ghost use Rattle.std.specs.Prelude.{IfOk, OnOk, OnErr, IfSome, IsSome};
ghost use Rattle.rooted_graph.specs.BreadthOrder.{IsBreadthOrder, number_of};
ghost use Rattle.rooted_graph.specs.Rooted.{IsReached};
ghost use Rattle.link_graph.specs.Graph.{Layouts, ReadsBy, links_of, all_links, first_loose, graph_of};

use crate::frame_links::FrameLinks;
use crate::segment::Segment;
use layout_plan::Plans;
use rooted_graph::Numbering;
use std::alloc::{AllocError, Global};
use thiserror::Error;

/// Why a frame has no numbering.
#[derive(Clone, Copy, Debug, PartialEq, Eq, Error)]
pub enum CloseFault {
    /// A link that is not null and has no target: the first such of the first record that has one, both
    /// from 0.
    #[error("LooseLink")]
    LooseLink { node: u32, link: u64 },
    /// There was no memory.
    #[error("NoMemory")]
    NoMemory,
}

impl From<AllocError> for CloseFault {
    ghost use Rattle.std.specs.Prelude.{◌≡◌};
    ghost use Rattle.link_graph.specs.declared.closing.CloseFault.TheVariants as fault;

    ghost from_gives = { λ _ result. result ≡ fault.NoMemory };

    fn from(_error: AllocError) -> CloseFault {
        CloseFault::NoMemory
    }
}

impl Segment {
    /// The breadth-first order of the frame's records, or its first loose link. Every body reads by its
    /// plan. In the numbering a record has a number exactly where some path from a root ends in it.
    ///
    /// # Errors
    ///
    /// [`CloseFault::LooseLink`] names the first record in file order, and its first link, that is not null
    /// and has no target. Where there is one it is the answer, want of memory aside.
    pub fn close(&self, alloc: Global, plans: &Plans) -> Result<Numbering, CloseFault>
        requires { All (ReadsBy plans.now self.now.order) self.now.nodes }
        ensures loose { (node link : ℕ) → result ≡ Err (CloseFault.LooseLink node link)
            → first_loose plans.now self.now ≡ Some (node, link) }
        ensures linked { OnOk result (first_loose plans.now self.now ≡ None) }
        ensures order { IfOk result (IsBreadthOrder (graph_of plans.now self.now)) }
        ensures in_range { IfOk result (All (λ node. node < length self.now.nodes)) }
        ensures reached { IfOk result (λ order. (n : ℕ)
            → IsSome (number_of order n) ↔ IsReached (graph_of plans.now self.now) n) }
    {
        let mut links = FrameLinks::new(alloc);
        self.read_links(plans, &mut links)?;
        let mut numbering = Numbering::new(alloc);
        self.close_by(&mut links, &mut numbering)?;
        Ok(numbering)
    }

    /// The same, where the links of the records were read as they came, into a numbering that is used again.
    /// Of each record there is a row of links. What is said holds for all plans by which these are its links.
    /// After a refusal the numbering is of no record.
    ///
    /// # Errors
    ///
    /// As those of `close`.
    pub fn close_by(
        &self,
        links: &mut FrameLinks,
        numbering: &mut Numbering,
    ) -> Result<(), CloseFault>
        requires { length links.old ≡ length self.now.nodes }
        ensures kept { links.new ≡ links.old }
        ensures loose { (plans : Layouts) → links.old ≡ all_links plans self.now → (node link : ℕ)
            → result ≡ Err (CloseFault.LooseLink node link) → first_loose plans self.now ≡ Some (node, link) }
        ensures linked { (plans : Layouts) → links.old ≡ all_links plans self.now
            → OnOk result (first_loose plans self.now ≡ None) }
        ensures order { (plans : Layouts) → links.old ≡ all_links plans self.now
            → OnOk result (IsBreadthOrder (graph_of plans self.now) numbering.new) }
        ensures in_range { OnOk result (All (λ node. node < length self.now.nodes) numbering.new) }
        ensures reached { (plans : Layouts) → links.old ≡ all_links plans self.now → OnOk result ((n : ℕ)
            → IsSome (number_of numbering.new n) ↔ IsReached (graph_of plans self.now) n) }
        ensures err { OnErr result (numbering.new ≡ []) }
    {
        let done = links.number(self, numbering);
        if done.is_err() {
            numbering.clear();
        }
        done
    }

    /// Reads the links of the records by the plans of their classes, in place of those read before. Every body
    /// reads by its plan.
    pub fn read_links(&self, plans: &Plans, links: &mut FrameLinks) -> Result<(), AllocError>
        requires { All (ReadsBy plans.now self.now.order) self.now.nodes }
        ensures { OnOk result (links.new ≡ all_links plans.now self.now) }
    {
        links.clear();
        for k in 0..self.len() {
            self.add_links(plans, k, links)?;
        }
        Ok(())
    }

    /// Puts the links of a record as a row behind the others.
    fn add_links(&self, plans: &Plans, k: u32, links: &mut FrameLinks) -> Result<(), AllocError>
        requires node { k < length self.now.nodes }
        requires reads { All (ReadsBy plans.now self.now.order) self.now.nodes }
        ensures { OnOk result (IfSome (slice_get self.now.nodes k)
            (λ r. links.new ≡ links.old ++ links_of plans.now self.now.order r ∷ [])) }
    {
        let Some(plan) = plans.plan(self.node(k).class) else {
            unreachable!()
        };
        match links.add(plan, self.order(), self.body(k))? {
            Ok(_) => Ok(()),
            Err(_) => unreachable!(),
        }
    }
}
