//! What may stand at the place reached: the first reason for which a whole structure may not.
//!
//! Nothing here reads the file. What is said holds of every file in which this structure, with this body, stands at
//! the place.

ghost use Rattle.std.specs.Prelude.{◌≡◌, ◌+◌, ◌^◌, ◌≤◌, ◌<◌, ◌||◌, ℕ, List, [], None, Some, true, false, not};
ghost use Rattle.std.specs.Prelude.{nat_lt, codes};
ghost use Rattle.std.specs.Prelude.{length, IfOk, IfErr, IfSome, OnOk, IsSome, Err, ◌++◌, ◌∷◌};
ghost use Rattle.std.specs.Option.{option_map_or};
ghost use Rattle.dictionary.specs.Dictionary.{entry_of, IsDictionary};
ghost use Rattle.layout_plan.specs.Body.{HasBody};
ghost use Rattle.link_graph.specs.Graph.{links_of};
ghost use Rattle.file_grammar.specs.declared.kind.Kind.TheVariants as variant;
ghost use Rattle.file_grammar.specs.Structure.{record_limit, file_limit};
ghost use Rattle.file_grammar.specs.Kind.{kind_of, is_frame_kind, is_table_kind};
ghost use Rattle.file_grammar.specs.Record.{layout_in, reading_of, reading_by};
ghost use Rattle.file_grammar.specs.Closing.{closes, has_named, is_count, field_named};
ghost use Rattle.file_grammar.specs.Fault.{is_empty, fields, elements, number, place, length_there, fault_at, first_of};
ghost use Rattle.file_grammar.specs.Fault.{fault_here};
ghost use Rattle.file_grammar.specs.Steps.{reason_of};
ghost use Rattle.item_reader.specs.Placed.{IsStructureAt, structure_by};
ghost use Rattle.item_reader.specs.State.{IsSound, frame_of};
ghost use Rattle.item_reader.specs.Judged.{InEachFile, ReadsHere, is_read_kind, body_reasons, reading_reasons};
ghost use Rattle.item_reader.specs.Judged.{weighing_reasons, place_reasons, table_reasons, count_reasons};
ghost use Rattle.item_reader.specs.Judged.{closing_reasons, IsReadBy, IsRead, IsWeighed, pending_record};

use crate::item::ReadError;
use crate::state::State;
use crate::structure::Placed;
use dictionary::{Element, first_named};
use file_grammar::closing::{BYTES, FRAMES, TABLE, closes};
use file_grammar::{FILE_LIMIT, Fault, RECORD_LIMIT, Reason};
use layout_plan::{BodyFault, BodyReason, Measured, Plan, measure, num_at};
use link_graph::FrameLinks;

impl State {
    /// Whether a record's length alone passes what the open frame may weigh.
    pub fn is_overfull(&self, placed: Placed) -> bool
        requires sound { IsSound self.now }
        requires small { placed.length ≤ record_limit }
        ensures { result ≡ nat_lt record_limit (self.now.load + placed.length) }
    {
        self.load + placed.length > RECORD_LIMIT
    }

    /// The weight of a record whose body is pending, where it may stand here by its body and its weight.
    #[inline(always)]
    pub fn weigh(&self, placed: Placed) -> Result<u64, Fault>
        requires sound { IsSound self.now }
        requires here { IsStructureAt self.now.at placed }
        requires size { placed.length ≡ 14 + length self.now.segment.pending }
        requires kind { is_frame_kind (kind_of self.now.dictionary placed.class) ≡ true }
        requires fits { self.now.load + placed.length ≤ record_limit }
        ensures ok { IfOk result (λ weight. InEachFile self.now placed self.now.segment.pending
            (λ h. IsWeighed h weight)) }
        ensures fault { IfErr result (λ fault. InEachFile self.now placed self.now.segment.pending
            (λ h. first_of weighing_reasons h ≡ Some fault)) }
        ensures reads { OnOk result (IsSome (reading_of self.now.segment.order self.now.dictionary
            (structure_by placed self.now.segment.pending))) }
        ensures within { IfOk result (λ weight. (placed.length ≤ weight)
            × (self.now.load + weight ≤ record_limit)) }
    {
        let measured = self.read(placed, self.segment.pending())?;
        self.weight(placed, measured.zero_texts)
    }

    /// The same, where the links of the record are put as a row behind the others.
    #[inline(always)]
    pub fn weigh_links(&self, links: &mut FrameLinks, placed: Placed) -> Result<u64, ReadError>
        requires sound { IsSound self.now }
        requires here { IsStructureAt self.now.at placed }
        requires size { placed.length ≡ 14 + length self.now.segment.pending }
        requires kind { is_frame_kind (kind_of self.now.dictionary placed.class) ≡ true }
        requires fits { self.now.load + placed.length ≤ record_limit }
        ensures ok { IfOk result (λ weight. InEachFile self.now placed self.now.segment.pending
            (λ h. IsWeighed h weight)) }
        ensures fault { (fault : Fault) → result ≡ Err (ReadError.Fault fault)
            → InEachFile self.now placed self.now.segment.pending (λ h. first_of weighing_reasons h ≡ Some fault) }
        ensures no_device { result ≡ Err ReadError.Device → ⊥ }
        ensures reads { OnOk result (IsSome (reading_of self.now.segment.order self.now.dictionary
            (structure_by placed self.now.segment.pending))) }
        ensures within { IfOk result (λ weight. (placed.length ≤ weight)
            × (self.now.load + weight ≤ record_limit)) }
        ensures row { OnOk result (links.new ≡ links.old ++ links_of self.now.plans self.now.segment.order
            (pending_record self.now placed) ∷ []) }
    {
        let measured = self.read_links(links, placed)?;
        Ok(self.weight(placed, measured.zero_texts)?)
    }

    /// What is measured of the pending body, where it reads by the layout of its class; its links are put as a
    /// row behind the others.
    #[inline(always)]
    fn read_links(&self, links: &mut FrameLinks, placed: Placed) -> Result<Measured, ReadError>
        requires sound { IsSound self.now }
        requires here { IsStructureAt self.now.at placed }
        requires size { placed.length ≡ 14 + length self.now.segment.pending }
        requires kind { is_read_kind (kind_of self.now.dictionary placed.class) ≡ true }
        ensures ok { IfOk result (λ m. InEachFile self.now placed self.now.segment.pending
            (λ h. IsRead h m.zero_texts)) }
        ensures fault { (fault : Fault) → result ≡ Err (ReadError.Fault fault)
            → InEachFile self.now placed self.now.segment.pending (λ h. first_of reading_reasons h ≡ Some fault) }
        ensures no_device { result ≡ Err ReadError.Device → ⊥ }
        ensures reads { OnOk result (IsSome (reading_of self.now.segment.order self.now.dictionary
            (structure_by placed self.now.segment.pending))) }
        ensures row { OnOk result (links.new ≡ links.old ++ links_of self.now.plans self.now.segment.order
            (pending_record self.now placed) ∷ []) }
    {
        let Some(plan) = self.plans.plan(placed.class) else {
            return Err(self.unread_fault(placed).into());
        };
        match links.add(plan, self.order(), self.segment.pending())? {
            Ok(measured) => Ok(measured),
            Err(fault) => Err(self.body_fault(fault).into()),
        }
    }

    /// The weight of a record that has so many texts spelled by a length of 0 alone, where it may stand here by
    /// its weight.
    fn weight(&self, placed: Placed, zero_texts: u64) -> Result<u64, Fault>
        requires sound { IsSound self.now }
        requires here { IsStructureAt self.now.at placed }
        requires kind { is_frame_kind (kind_of self.now.dictionary placed.class) ≡ true }
        requires fits { self.now.load + placed.length ≤ record_limit }
        ensures ok { IfOk result (λ weight. (body : List ℕ) → InEachFile self.now placed body
            (λ h. IsRead h zero_texts → IsWeighed h weight)) }
        ensures fault { IfErr result (λ fault. (body : List ℕ) → InEachFile self.now placed body
            (λ h. IsRead h zero_texts → first_of weighing_reasons h ≡ Some fault)) }
        ensures within { IfOk result (λ weight. (placed.length ≤ weight)
            × (self.now.load + weight ≤ record_limit)) }
    {
        let weight = placed.length.saturating_add(zero_texts);
        if weight > RECORD_LIMIT {
            return Err(self.fault(Reason::RecordLimit));
        }
        if self.load + weight > RECORD_LIMIT {
            return Err(self.fault(Reason::FrameLimit));
        }
        Ok(weight)
    }

    /// Why an FrSE that is in no entry's run may not stand here.
    pub fn stray_fault(&self, element: Placed, body: &[u8]) -> Fault
        requires sound { IsSound self.now }
        requires open { self.now.closed ≡ false }
        requires here { IsStructureAt self.now.at element }
        requires size { element.length ≡ 14 + length body.now }
        requires kind { kind_of self.now.dictionary element.class ≡ variant.FrSE }
        ensures { InEachFile self.now element body.now (λ h. fault_here h ≡ Some result) }
    {
        match self.read_by(&self.built_in.element, element, body) {
            Ok(_) => self.fault(Reason::StrayElement),
            Err(fault) => fault,
        }
    }

    /// Why a contents table may not stand here. Its body is not asked for.
    pub fn table_fault(&self, table: Placed) -> Option<Fault>
        requires sound { IsSound self.now }
        requires open { self.now.numbering ≡ None }
        requires here { IsStructureAt self.now.at table }
        requires kind { kind_of self.now.dictionary table.class ≡ variant.FrTOC }
        ensures fault { (body : List ℕ) → InEachFile self.now table body (λ h. first_of table_reasons h ≡ result) }
        ensures below { result ≡ None → table.at + table.length ≤ file_limit }
    {
        if self.has_records() {
            return Some(self.fault(Reason::OpenFrame));
        }
        self.place_fault(table)
    }

    /// Why a file may not end with an FrEndOfFile whose body reads.
    pub fn closing_fault(&self, end: Placed, body: &[u8]) -> Option<Fault>
        requires sound { IsSound self.now }
        requires open { self.now.numbering ≡ None }
        requires here { IsStructureAt self.now.at end }
        requires kind { kind_of self.now.dictionary end.class ≡ variant.FrEndOfFile }
        requires reads { IsSome (reading_of self.now.segment.order self.now.dictionary
            (structure_by end body.now)) }
        ensures { InEachFile self.now end body.now (λ h. first_of closing_reasons h ≡ result) }
    {
        if self.has_records() {
            return Some(self.fault(Reason::OpenFrame));
        }
        if !closes(self.elements(end.class)) {
            return Some(self.fault(Reason::BadClosing));
        }
        self.count_fault(end, body)
    }

    /// Whether the open frame has records.
    fn has_records(&self) -> bool
        requires { self.now.numbering ≡ None }
        ensures { result ≡ not (is_empty (frame_of self.now)) }
    {
        self.segment.len() > 0
    }

    /// Why what the end of the file tells is not so.
    fn count_fault(&self, end: Placed, body: &[u8]) -> Option<Fault>
        requires sound { IsSound self.now }
        requires here { IsStructureAt self.now.at end }
        requires kind { kind_of self.now.dictionary end.class ≡ variant.FrEndOfFile }
        requires reads { IsSome (reading_of self.now.segment.order self.now.dictionary
            (structure_by end body.now)) }
        requires layout { closes (option_map_or (λ e. e.elements) (entry_of self.now.dictionary end.class) [])
            ≡ true }
        ensures { InEachFile self.now end body.now (λ h. first_of count_reasons h ≡ result) }
    {
        let (field, frames) = self.number(end, body, FRAMES);
        if frames != self.frames {
            return Some(self.field_fault(field, Reason::FrameCount));
        }
        let (field, bytes) = self.number(end, body, BYTES);
        if bytes != 0 && bytes != end.at + end.length {
            return Some(self.field_fault(field, Reason::ByteCount));
        }
        self.is_beyond(end).then_some(self.fault(Reason::FileLimit))
    }

    /// How many bytes before its end the file's contents table begins, as that end tells it, or 0.
    pub fn table_seek(&self, end: Placed, body: &[u8]) -> u64
        requires sound { IsSound self.now }
        requires reads { IsSome (reading_of self.now.segment.order self.now.dictionary
            (structure_by end body.now)) }
        requires layout { closes (option_map_or (λ e. e.elements) (entry_of self.now.dictionary end.class) [])
            ≡ true }
        ensures { InEachFile self.now end body.now (λ h. number h (codes "seekTOC") ≡ result) }
    {
        self.number(end, body, TABLE).1
    }

    /// What is measured of a body that reads by the layout of its class.
    #[inline(always)]
    pub fn read(&self, structure: Placed, body: &[u8]) -> Result<Measured, Fault>
        requires sound { IsSound self.now }
        requires here { IsStructureAt self.now.at structure }
        requires size { structure.length ≡ 14 + length body.now }
        requires kind { is_read_kind (kind_of self.now.dictionary structure.class) ≡ true }
        ensures ok { IfOk result (λ m. InEachFile self.now structure body.now (λ h. IsRead h m.zero_texts)) }
        ensures fault { IfErr result (λ fault. InEachFile self.now structure body.now
            (λ h. first_of reading_reasons h ≡ Some fault)) }
        ensures reads { OnOk result (IsSome (reading_of self.now.segment.order self.now.dictionary
            (structure_by structure body.now))) }
    {
        match self.plans.plan(structure.class) {
            Some(plan) => self.read_by(plan, structure, body),
            None => Err(self.unread_fault(structure)),
        }
    }

    /// Why a body has no layout by which it could be read.
    fn unread_fault(&self, structure: Placed) -> Fault
        requires sound { IsSound self.now }
        requires here { IsStructureAt self.now.at structure }
        requires kind { is_read_kind (kind_of self.now.dictionary structure.class) ≡ true }
        requires unread { layout_in self.now.dictionary structure.class ≡ None }
        ensures { (body : List ℕ) → InEachFile self.now structure body
            (λ h. first_of reading_reasons h ≡ Some result) }
    {
        if self.dictionary.get(structure.class).is_none() {
            self.fault(Reason::NoLayout)
        } else {
            self.fault(Reason::UnreadLayout)
        }
    }

    /// What is measured of a body that reads by a plan.
    pub fn read_by(&self, plan: &Plan, structure: Placed, body: &[u8]) -> Result<Measured, Fault>
        requires here { IsStructureAt self.now.at structure }
        requires size { structure.length ≡ 14 + length body.now }
        ensures ok { IfOk result (λ m. InEachFile self.now structure body.now
            (λ h. fields h ≡ Some plan.now → IsReadBy h plan.now m.zero_texts)) }
        ensures fault { IfErr result (λ fault. InEachFile self.now structure body.now
            (λ h. fields h ≡ Some plan.now → first_of body_reasons h ≡ Some fault)) }
        ensures reads { OnOk result (HasBody self.now.segment.order plan.now body.now) }
    {
        match measure(plan, self.order(), body) {
            Ok(measured) => Ok(measured),
            Err(fault) => Err(self.body_fault(fault)),
        }
    }

    /// The elements that the dictionary has for a class.
    fn elements(&self, class: u8) -> &[Element]
        ensures elements { result.now
            ≡ option_map_or (λ e. e.elements) (entry_of self.now.dictionary class) [] }
        ensures sound { IsDictionary self.now.dictionary }
    {
        match self.dictionary.get(class) {
            Some(entry) => entry.elements.as_slice(),
            None => &[],
        }
    }

    /// The first element of a name, and the number that the end of the file has there.
    fn number(&self, end: Placed, body: &[u8], name: &[u8]) -> (u32, u64)
        requires sound { IsSound self.now }
        requires reads { IsSome (reading_of self.now.segment.order self.now.dictionary
            (structure_by end body.now)) }
        requires named { has_named (option_map_or (λ e. e.elements)
            (entry_of self.now.dictionary end.class) []) name.now is_count ≡ true }
        ensures { InEachFile self.now end body.now
            (λ h. result ≡ (field_named (elements h) name.now, number h name.now)) }
    {
        let Some(plan) = self.plans.plan(end.class) else {
            return (0, 0);
        };
        let Some((field, _)) = first_named(self.elements(end.class), name) else {
            return (0, 0);
        };
        let field = field as u32;
        (field, num_at(plan, self.order(), body, field))
    }

    /// AfterTable and FileLimit, which hold of structures of several kinds.
    pub fn place_fault(&self, structure: Placed) -> Option<Fault>
        requires sound { IsSound self.now }
        requires here { IsStructureAt self.now.at structure }
        requires kind { (is_frame_kind (kind_of self.now.dictionary structure.class)
            || is_table_kind (kind_of self.now.dictionary structure.class)) ≡ true }
        ensures fault { (body : List ℕ) → InEachFile self.now structure body
            (λ h. first_of place_reasons h ≡ result) }
        ensures below { result ≡ None → structure.at + structure.length ≤ file_limit }
    {
        if self.table {
            Some(self.fault(Reason::AfterTable))
        } else if self.is_beyond(structure) {
            Some(self.fault(Reason::FileLimit))
        } else {
            None
        }
    }

    /// Whether a structure ends beyond the limit of files.
    pub fn is_beyond(&self, structure: Placed) -> bool
        requires low { self.now.at ≤ file_limit }
        requires here { IsStructureAt self.now.at structure }
        ensures { result ≡ nat_lt file_limit (structure.at + structure.length) }
    {
        structure.at + structure.length > FILE_LIMIT
    }

    /// The fault of a reason at the place reached.
    pub fn fault(&self, reason: Reason) -> Fault
        ensures { result ≡ fault_at reason (self.now.at, 0) }
    {
        self.field_fault(0, reason)
    }

    fn field_fault(&self, field: u32, reason: Reason) -> Fault
        ensures { result ≡ fault_at reason (self.now.at, field) }
    {
        Fault {
            at: self.at,
            field,
            reason,
        }
    }

    fn body_fault(&self, fault: BodyFault) -> Fault
        ensures { result ≡ fault_at (reason_of fault.reason) (self.now.at, fault.field) }
    {
        self.field_fault(fault.field, reason_of(fault.reason))
    }
}

/// The reason of a body's fault.
pub fn reason_of(reason: BodyReason) -> Reason
    ensures { result ≡ reason_of reason }
{
    match reason {
        BodyReason::BodyShort => Reason::BodyShort,
        BodyReason::BodyLong => Reason::BodyLong,
        BodyReason::BadText => Reason::BadText,
    }
}
