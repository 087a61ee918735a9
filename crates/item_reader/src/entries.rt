//! The entries of a dictionary as a file has them: an FrSH, and the run of FrSEs right after it, read one
//! structure at a time.
//!
//! The structure after a run is looked at, and what is known of it is handed on.

ghost use Rattle.std.specs.Prelude.{◌≡◌, ◌≢◌, ◌+◌, ◌≤◌, ◌==◌, ◌&&◌, ℕ, max, nat_le, length, [], Some, Err};
ghost use Rattle.std.specs.Prelude.{IfOk};
ghost use Rattle.frame_outside.specs.Counts.{Rose};
ghost use Rattle.frame_outside.specs.Shelf.{Told, reading_at};
ghost use Rattle.structure_source.specs.Source.{Stands, GoesOn, bytes_drawn};
ghost use Rattle.dictionary.specs.Same.{IsRead, AreRead};
ghost use Rattle.layout_plan.specs.Body.{HasBody};
ghost use Rattle.layout_plan.specs.BuiltIn.{structure_fields, element_fields};
ghost use Rattle.file_grammar.specs.declared.fault.Fault.{Fault};
ghost use Rattle.file_grammar.specs.Structure.{file_limit, record_limit};
ghost use Rattle.file_grammar.specs.Fault.{fault_at};
ghost use Rattle.item_reader.specs.Looked.{ReadsTo, look};
ghost use Rattle.item_reader.specs.Entries.{IsNext, MovesTo, HasReadElement, IsRun, Begins, Elements};
ghost use Rattle.item_reader.specs.Entries.{may_be_element, end_from};

use crate::item::ReadError;
use crate::looked::Looked;
use crate::rules::reason_of;
use dictionary::{Element, ElementList, Entry};
use file_grammar::{FILE_LIMIT, Fault, Reason, size_reason};
use frame_head::{Common, HEAD_SIZE};
use frame_outside::Shelf;
use layout_plan::{Plan, measure, num_at, text_at};
use scalar_types::Order;
use std::alloc::{AllocError, Global};
use structure_source::{Head, StructureSource};
use type_text::Name;

/// The class of FrSE.
const ELEMENT_CLASS: u8 = 2;

/// The most elements that are kept of an entry: one more than an entry may have.
const KEPT_ELEMENTS: usize = 4097;

/// What stands after an FrSH or after an FrSE of its run.
#[derive(Drop)]
pub enum Next {
    /// An FrSE that belongs to the run.
    Element(Element),
    /// None: the run has ended, and this was looked at.
    Ended(Looked),
}

/// The run of FrSEs from a place on.
#[derive(Drop)]
pub struct Run {
    /// The elements, of more than 4,096 the first 4,097.
    pub elements: ElementList,
    /// The place after the run, in bytes from the beginning of the file.
    pub end: u64,
    pub looked: Looked,
}

/// Reads the run of FrSEs from the source's place on. Their bodies go through `own`.
pub fn read_run<S: Shelf>(
    alloc: Global,
    source: &mut StructureSource,
    shelf: &mut S,
    order: Order,
    plan: &Plan,
    own: &mut Vec<u8>,
) -> Result<Run, ReadError>
    requires plan { plan.now ≡ element_fields }
    requires stands { Stands (S.outside shelf.old) source.old }
    requires low { source.old.at ≤ file_limit + record_limit }
    ensures run { IfOk result (λ run. Told (reading_at (S.outside shelf.old).slots source.old.slot)
        (λ reading. IsRun order reading.opened source.old.at run source.new.at)) }
    ensures end { IfOk result (λ run. (source.old.at ≤ run.end)
        × (run.end ≤ max source.old.at file_limit)) }
    ensures place { IfOk result (λ run. ReadsTo run.end run.looked source.new.at) }
    ensures read { IfOk result (λ run. AreRead run.elements) }
    ensures no_fault { (fault : Fault) → result ≢ Err (ReadError.Fault fault) }
    ensures device { result ≡ Err ReadError.Device
        → Rose (S.outside shelf.old).faults (S.outside shelf.new).faults }
    ensures stands { Stands (S.outside shelf.new) source.new }
    ensures on { GoesOn (S.outside shelf.old) (S.outside shelf.new) source.old source.new }
    ensures bounded { Told (reading_at (S.outside shelf.old).slots source.old.slot)
        (λ reading. bytes_drawn source.new
        ≤ look order reading.opened (end_from order reading.opened source.old.at)) }
{
    let mut elements = ElementList::new(alloc);
    loop {
        let end = source.place();
        match next_element(alloc, source, shelf, order, plan, own)? {
            Next::Element(element) if elements.len() < KEPT_ELEMENTS => elements.push(element)?,
            Next::Element(_) => {}
            Next::Ended(looked) => {
                return Ok(Run {
                    elements,
                    end,
                    looked,
                });
            }
        }
    }
}

/// Reads what stands at the source's place, if it is an FrSE that belongs to a run.
fn next_element<S: Shelf>(
    alloc: Global,
    source: &mut StructureSource,
    shelf: &mut S,
    order: Order,
    plan: &Plan,
    own: &mut Vec<u8>,
) -> Result<Next, ReadError>
    requires plan { plan.now ≡ element_fields }
    requires stands { Stands (S.outside shelf.old) source.old }
    requires low { source.old.at ≤ file_limit + record_limit }
    ensures found { IfOk result (λ next. Told (reading_at (S.outside shelf.old).slots source.old.slot)
        (λ reading. IsNext order reading.opened source.old.at next source.new.at)) }
    ensures moves { IfOk result (λ next. MovesTo source.old.at next source.new.at) }
    ensures read { IfOk result HasReadElement }
    ensures no_fault { (fault : Fault) → result ≢ Err (ReadError.Fault fault) }
    ensures device { result ≡ Err ReadError.Device
        → Rose (S.outside shelf.old).faults (S.outside shelf.new).faults }
    ensures stands { Stands (S.outside shelf.new) source.new }
    ensures on { GoesOn (S.outside shelf.old) (S.outside shelf.new) source.old source.new }
    ensures bounded { Told (reading_at (S.outside shelf.old).slots source.old.slot)
        (λ reading. bytes_drawn source.new ≤ look order reading.opened source.old.at) }
{
    let at = source.place();
    let common = match source.head(shelf, order)? {
        Head::Whole(common) => common,
        Head::End => return Ok(Next::Ended(Looked::Nothing)),
        Head::Cut => return Ok(wrong(at, 0, Reason::CutRecord)),
    };
    if !may_be_element(at, common) {
        return Ok(Next::Ended(Looked::Seen(common)));
    }
    own.clear();
    if !source.bring_bytes(shelf, own, (common.length - HEAD_SIZE as u64) as u32)? {
        return Ok(wrong(at, 0, Reason::CutRecord));
    }
    match measure(plan, order, own.as_slice()) {
        Ok(_) => Ok(Next::Element(element_in(alloc, order, plan, own.as_slice())?)),
        Err(fault) => Ok(wrong(at, fault.field, reason_of(fault.reason))),
    }
}

/// Whether the 14 bytes at a place are those of an FrSE within the limits.
fn may_be_element(at: u64, common: Common) -> bool
    requires { at ≤ file_limit + record_limit }
    ensures { result ≡ may_be_element at common }
{
    common.class == ELEMENT_CLASS
        && size_reason(common.length).is_none()
        && at + common.length <= FILE_LIMIT
}

fn wrong(at: u64, field: u32, reason: Reason) -> Next
    ensures { result ≡ Next.Ended (Looked.Wrong (fault_at reason (at, field))) }
{
    Next::Ended(Looked::Wrong(Fault { at, field, reason }))
}

/// The element that a body spells.
fn element_in(alloc: Global, order: Order, plan: &Plan, body: &[u8]) -> Result<Element, AllocError>
    requires plan { plan.now ≡ element_fields }
    requires reads { HasBody order element_fields body.now }
    ensures spelled { IfOk result (λ element. Elements order body.now (Some element)) }
    ensures read { IfOk result IsRead }
{
    let name = Name::new(alloc, text_at(plan, order, body, 0))?;
    let text = Name::new(alloc, text_at(plan, order, body, 1))?;
    let comment = Name::new(alloc, text_at(plan, order, body, 2))?;
    Element::new(alloc, name, text, comment)
}

/// The entry that begins with an FrSH of this body, without its elements.
pub fn begun_entry(
    alloc: Global,
    order: Order,
    plan: &Plan,
    body: &[u8],
) -> Result<Entry, AllocError>
    requires plan { plan.now ≡ structure_fields }
    requires reads { HasBody order structure_fields body.now }
    ensures begins { IfOk result (λ entry. Begins order body.now entry) }
    ensures elements { IfOk result (λ entry. entry.elements ≡ []) }
{
    let name = Name::new(alloc, text_at(plan, order, body, 0))?;
    let class = num_at(plan, order, body, 1) as u16;
    let comment = Name::new(alloc, text_at(plan, order, body, 2))?;
    Ok(Entry {
        class,
        name,
        comment,
        elements: ElementList::new(alloc),
    })
}
