//! The breadth-first order of a frame that has ended, in memory that is used again for each frame.

ghost use Rattle.std.specs.Prelude.{◌≡◌, ℕ, None, Some, Err, length, is_some, IfSome, IsSome, OnOk, OnErr};
ghost use Rattle.std.specs.Option.{option_copied};
ghost use Rattle.link_graph.specs.Graph.{Layouts, all_links, first_loose, graph_of};
ghost use Rattle.rooted_graph.specs.BreadthOrder.{IsBreadthOrder};
ghost use Rattle.item_reader.specs.Judged.{HasOrder};

use link_graph::{CloseFault, FrameLinks, Numbering, Segment};
use std::alloc::Global;
use std::marker::Model;

/// The order of the frame that has ended. Contracts see none where a frame is open.
#[derive(Drop)]
pub struct EndedOrder {
    numbering: Numbering,
    /// Whether the numbering is that of a frame that has ended.
    ended: bool,
}

impl Model for EndedOrder {
    ghost use Rattle.std.specs.Prelude.{ℕ, List, Option, Some, None, if◌then◌else◌};

    ghost Value = { Option (List ℕ) };

    ghost view = { λ o. if o.ended then Some o.numbering else None };
}

impl EndedOrder {
    /// None. It takes no memory yet.
    pub fn new(alloc: Global) -> EndedOrder
        ensures { result ≡ None }
    {
        EndedOrder {
            numbering: Numbering::new(alloc),
            ended: false,
        }
    }

    /// The order, where a frame has ended.
    pub fn numbering(&self) -> Option<&Numbering>
        ensures { option_copied result ≡ self.now }
    {
        if self.ended {
            Some(&self.numbering)
        } else {
            None
        }
    }

    /// Whether a frame has ended.
    pub fn is_some(&self) -> bool
        ensures { result ≡ is_some self.now }
    {
        self.ended
    }

    /// Leaves none. Takes no memory.
    pub fn forget(&mut self)
        ensures { self.new ≡ None }
    {
        self.ended = false;
    }

    /// Becomes the order of a frame, of whose records these are the links; or leaves none, where a link of it
    /// is loose or there is no memory.
    pub fn close(&mut self, segment: &Segment, links: &mut FrameLinks) -> Result<(), CloseFault>
        requires { length links.old ≡ length segment.now.nodes }
        ensures kept { links.new ≡ links.old }
        ensures loose { (plans : Layouts) → links.old ≡ all_links plans segment.now → (node link : ℕ)
            → result ≡ Err (CloseFault.LooseLink node link)
            → first_loose plans segment.now ≡ Some (node, link) }
        ensures linked { (plans : Layouts) → links.old ≡ all_links plans segment.now
            → OnOk result (first_loose plans segment.now ≡ None) }
        ensures order { (plans : Layouts) → links.old ≡ all_links plans segment.now
            → OnOk result (HasOrder (graph_of plans segment.now) self.new) }
        ensures err { OnErr result (self.new ≡ None) }
    {
        let done = segment.close_by(links, &mut self.numbering);
        self.ended = done.is_ok();
        done
    }
}
