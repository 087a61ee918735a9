//! The frame that is open: a record that joins it, and its end.

ghost use Rattle.std.specs.Prelude.{◌≡◌, ◌<◌, ℕ, List, true, None, Some, Err, OnOk};
ghost use Rattle.link_graph.specs.Graph.{all_links, first_loose, graph_of};
ghost use Rattle.file_grammar.specs.declared.kind.Kind.TheVariants as variant;
ghost use Rattle.file_grammar.specs.Kind.{kind_of, is_target_kind};
ghost use Rattle.file_grammar.specs.declared.reason.Reason.TheVariants as reason;
ghost use Rattle.file_grammar.specs.MayStand.{frames_limit};
ghost use Rattle.file_grammar.specs.Record.{first_loose as first_loose_of};
ghost use Rattle.file_grammar.specs.Fault.{first_of};
ghost use Rattle.item_reader.specs.Placed.{IsStructureAt};
ghost use Rattle.item_reader.specs.State.{IsSound, frame_of};
ghost use Rattle.item_reader.specs.Judged.{InEachFile, HasOrder, later_record_reasons, frame_end_reasons};

use crate::item::ReadError;
use crate::state::State;
use crate::structure::Placed;
use file_grammar::{FRAMES_LIMIT, Fault, Kind, Reason};
use layout_plan::link_field;
use link_graph::{CloseFault, FrameLinks};

impl State {
    /// Why a record that is no end record and has no twin in the open frame may not stand in it.
    pub fn record_fault(&self, placed: Placed, kind: Kind) -> Option<Fault>
        requires sound { IsSound self.now }
        requires open { self.now.numbering ≡ None }
        requires here { IsStructureAt self.now.at placed }
        requires kind { kind ≡ kind_of self.now.dictionary placed.class }
        requires target { is_target_kind kind ≡ true }
        ensures { (body : List ℕ) → InEachFile self.now placed body
            (λ h. first_of later_record_reasons h ≡ result) }
    {
        if kind == Kind::FrameH && self.header {
            return Some(self.fault(Reason::FrameHTwice));
        }
        self.place_fault(placed)
    }

    /// Ends the open frame, where it may end here: its breadth-first order is kept from then on.
    pub fn close_frame(&mut self, links: &mut FrameLinks, placed: Placed) -> Result<(), ReadError>
        requires sound { IsSound self.old }
        requires rows { links.old ≡ all_links self.old.plans self.old.segment }
        requires open { self.old.numbering ≡ None }
        requires here { IsStructureAt self.old.at placed }
        requires kind { kind_of self.old.dictionary placed.class ≡ variant.FrEndOfFrame }
        ensures none { (body : List ℕ) → OnOk result (InEachFile self.old placed body (λ h.
            first_of frame_end_reasons h ≡ None)) }
        ensures fault { (body : List ℕ) (fault : Fault) → result ≡ Err (ReadError.Fault fault)
            → InEachFile self.old placed body (λ h. first_of frame_end_reasons h ≡ Some fault) }
        ensures no_device { result ≡ Err ReadError.Device → ⊥ }
        ensures order { OnOk result (HasOrder (graph_of self.old.plans self.old.segment) self.new.numbering) }
        ensures few { OnOk result (self.old.frames < frames_limit) }
        ensures rest { self.new ≡ record self.old { numbering = self.new.numbering } }
    {
        if !self.header {
            return Err(self.fault(Reason::NoFrameH).into());
        }
        // Judged while the frame is open, and told after its loose link.
        let later = self.place_fault(placed);
        match self.numbering.close(&self.segment, links) {
            Ok(()) => {}
            Err(CloseFault::LooseLink { node, link }) => {
                return Err(self.loose_fault(node, link).into());
            }
            Err(CloseFault::NoMemory) => return Err(ReadError::NoMemory),
        }
        if let Some(fault) = later {
            return Err(fault.into());
        }
        if self.frames >= FRAMES_LIMIT {
            return Err(self.fault(Reason::FramesLimit).into());
        }
        Ok(())
    }

    /// The fault of the frame's first loose link.
    fn loose_fault(&self, node: u32, link: u64) -> Fault
        requires sound { IsSound self.now }
        requires open { self.now.numbering ≡ None }
        requires loose { first_loose self.now.plans self.now.segment ≡ Some (node, link) }
        ensures place { first_loose_of self.now.segment.order self.now.dictionary (frame_of self.now)
            (frame_of self.now) ≡ Some (result.at, result.field) }
        ensures reason { result.reason ≡ reason.LooseLink }
    {
        let record = self.segment.node(node);
        let field = match self.plans.plan(record.class) {
            Some(plan) => link_field(plan, self.order(), self.segment.body(node), link),
            None => unreachable!(),
        };
        Fault {
            at: record.at,
            field,
            reason: Reason::LooseLink,
        }
    }
}
