//! What stands before a place of a file, as far as it decides what may stand there.

ghost use Rattle.std.specs.Prelude.{◌≡◌, [], IfOk, None};
ghost use Rattle.layout_plan.specs.BuiltIn.{structure_fields, element_fields};
ghost use Rattle.link_graph.specs.Collected.{nothing_in};
ghost use Rattle.file_grammar.specs.Item.{nothing_yet};
ghost use Rattle.item_reader.specs.State.{IsSound, KeepsRows, before_of};

use crate::ended::EndedOrder;
use crate::roles::Classes;
use layout_plan::{Plan, Plans, element_plan, structure_plan};
use link_graph::Segment;
use scalar_types::Order;
use std::alloc::{AllocError, Global};

/// The plans of FrSH and FrSE, which no entry describes.
#[derive(Drop)]
pub struct BuiltIn {
    pub structure: Plan,
    pub element: Plan,
}

/// What stands before the place reached.
#[derive(Drop)]
pub struct State {
    /// The place, in bytes from the beginning of the file.
    pub at: u64,
    pub dictionary: Classes,
    /// The plans of the dictionary's entries.
    pub plans: Plans,
    pub built_in: BuiltIn,
    /// The frame that is open, or, where there is a numbering, the one that has just ended.
    pub segment: Segment,
    /// The breadth-first order of the frame that has just ended.
    pub numbering: EndedOrder,
    /// Whether the open frame has a FrameH.
    pub header: bool,
    /// The weights of the open frame's records together.
    pub load: u64,
    /// The frames that have ended.
    pub frames: u64,
    /// The records of all frames, end records among them.
    pub records: u64,
    /// Whether a contents table stands.
    pub table: bool,
    /// Whether the end of the file stands.
    pub closed: bool,
}

impl State {
    /// What stands before the first item: the header.
    pub fn new(alloc: Global, order: Order) -> Result<State, AllocError>
        ensures sound { IfOk result IsSound }
        ensures order { IfOk result (λ state. state.segment.order ≡ order) }
        ensures before { IfOk result (λ state. before_of state ≡ nothing_yet) }
        ensures open { IfOk result (λ state. (state.numbering ≡ None) × (state.segment ≡ nothing_in order)) }
    {
        Ok(State {
            at: frame_head::HEADER_SIZE as u64,
            dictionary: Classes::new(alloc),
            plans: Plans::new(alloc),
            built_in: BuiltIn {
                structure: structure_plan(alloc)?,
                element: element_plan(alloc)?,
            },
            segment: Segment::new(alloc, order),
            numbering: EndedOrder::new(alloc),
            header: false,
            load: 0,
            frames: 0,
            records: 0,
            table: false,
            closed: false,
        })
    }

    /// The byte order of the file's numbers.
    pub fn order(&self) -> Order
        ensures { result ≡ self.now.segment.order }
    {
        self.segment.order()
    }

    /// Gives up a frame that has ended.
    pub fn open_frame(&mut self)
        requires { IsSound self.old }
        ensures sound { IsSound self.new }
        ensures before { before_of self.new ≡ before_of self.old }
        ensures open { self.new.numbering ≡ None }
        ensures pending { self.old.segment.pending ≡ [] → self.new.segment.pending ≡ [] }
        ensures order { self.new.segment.order ≡ self.old.segment.order }
        ensures rows { KeepsRows self.old self.new }
    {
        if self.numbering.is_some() {
            self.numbering.forget();
            self.segment.clear();
        }
    }
}
