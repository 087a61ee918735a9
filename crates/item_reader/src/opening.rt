//! The header of a file, read from its beginning.

ghost use Rattle.std.specs.Prelude.{◌≡◌, ◌+◌, ◌≤◌, ℕ, Ok, Err, [], take, length, IfOk};
ghost use Rattle.frame_outside.specs.Counts.{Rose};
ghost use Rattle.frame_outside.specs.Shelf.{Told, reading_at};
ghost use Rattle.structure_source.specs.Source.{Stands, GoesOn, bytes_drawn};
ghost use Rattle.frame_head.specs.Header.{header_of};
ghost use Rattle.file_grammar.specs.declared.fault.Fault.{Fault};
ghost use Rattle.file_grammar.specs.Fault.{IsHeaderFault, fault_at};

use crate::item::ReadError;
use file_grammar::{Fault, Reason};
use frame_head::{HEADER_SIZE, read_header};
use frame_outside::Shelf;
use scalar_types::Order;
use structure_source::StructureSource;

/// The byte order that the header tells, or the fault of the header. The source stands at the beginning of
/// its file.
pub fn read_order<S: Shelf>(source: &mut StructureSource, shelf: &mut S) -> Result<Order, ReadError>
    requires stands { Stands (S.outside shelf.old) source.old }
    requires beginning { source.old.at ≡ 0 }
    requires none { source.old.ahead ≡ [] }
    ensures order { IfOk result (λ order. Told (reading_at (S.outside shelf.old).slots source.old.slot)
        (λ reading. (40 ≤ length reading.opened) × (header_of (take 40 reading.opened) ≡ Ok order))) }
    ensures fault { (fault : Fault) → result ≡ Err (ReadError.Fault fault)
        → Told (reading_at (S.outside shelf.old).slots source.old.slot)
        (λ reading. IsHeaderFault reading.opened fault) }
    ensures place { IfOk result (λ order. source.new.at ≡ 40) }
    ensures device { result ≡ Err ReadError.Device
        → Rose (S.outside shelf.old).faults (S.outside shelf.new).faults }
    ensures stands { Stands (S.outside shelf.new) source.new }
    ensures on { GoesOn (S.outside shelf.old) (S.outside shelf.new) source.old source.new }
    ensures few { bytes_drawn source.new ≤ 65576 }
{
    let mut header = [0; HEADER_SIZE];
    let read = source.fill(shelf, &mut header)?;
    if read < HEADER_SIZE {
        return Err(header_fault(read as u64, Reason::CutHeader));
    }
    match read_header(&header) {
        Ok(order) => Ok(order),
        Err(fault) => Err(header_fault(fault.at.into(), Reason::BadHeader)),
    }
}

fn header_fault(at: u64, reason: Reason) -> ReadError
    ensures { result ≡ ReadError.Fault (fault_at reason (at, 0)) }
{
    ReadError::Fault(Fault {
        at,
        field: 0,
        reason,
    })
}
