//! The walk of a file: its header, and then every structure by itself. Bodies are passed over.

ghost use Rattle.std.specs.Prelude.{◌≡◌, ◌+◌, ◌≤◌, ℕ, min, IfOk, OnErr, None, IsErrOf, IfSome};
ghost use Rattle.frame_outside.specs.Counts.{Rose};
ghost use Rattle.frame_outside.specs.Shelf.{Told, IsSource};
ghost use Rattle.frame_outside.specs.SlotReader.{Draws, to_come};
ghost use Rattle.frame_tool.specs.Walk.{IsVerdict, file_limit};
ghost use Rattle.frame_tool.specs.WalkSteps.{IsFound, Moves, Judges, body_size_of, FindsOn};
ghost use Rattle.dumper.specs.Due.{ReadsOneFile};

use crate::verdict::Verdict;
use file_grammar::{FILE_LIMIT, Reason, size_reason};
use frame_head::{HEAD_SIZE, HEADER_SIZE, read_common, read_header};
use frame_outside::{Failed, Shelf, ShelfError, SlotReader};
use scalar_types::Order;
use std::alloc::Global;

/// What stands at a place after the header.
enum Found {
    /// Nothing: the end of the file.
    End,
    /// A structure of so many bytes.
    Structure(u64),
    /// Bytes that are no structure that may stand there.
    Fault(Reason),
}

/// The verdict on the file of that name.
pub fn walk_file<S: Shelf>(alloc: Global, shelf: &mut S, name: &str) -> Result<Verdict, ShelfError>
    ensures verdict { IfOk result
        (λ verdict. Told (S.outside shelf.old).files
        (λ held. Told (held name.now) (λ file. IsVerdict file verdict))) }
    ensures missing { Told (S.outside shelf.old).files (λ held. held name.now ≡ None
        → IsErrOf result ShelfError.Failed) }
    ensures shelf { ReadsOneFile (S.outside shelf.old) (S.outside shelf.new) name.now }
    ensures failed { IsErrOf result ShelfError.Failed
        → Rose (S.outside shelf.old).faults (S.outside shelf.new).faults }
{
    let slot = shelf.source(alloc, name)?;
    let Ok(mut reader) = SlotReader::new(alloc, slot) else {
        return Err(ShelfError::NoMemory);
    };
    match walk(shelf, &mut reader) {
        Ok(verdict) => Ok(verdict),
        Err(Failed) => Err(ShelfError::Failed),
    }
}

/// The verdict on the bytes that are still to come.
fn walk<S: Shelf>(shelf: &mut S, reader: &mut SlotReader) -> Result<Verdict, Failed>
    requires { IsSource (S.outside shelf.old).slots reader.old.slot }
    ensures verdict { IfOk result
        (λ verdict. Told (to_come (S.outside shelf.old) reader.old) (λ file. IsVerdict file verdict)) }
    ensures draws { Draws (S.outside shelf.old) (S.outside shelf.new) reader.old.slot }
    ensures failed { OnErr result (Rose (S.outside shelf.old).faults (S.outside shelf.new).faults) }
{
    let mut header = [0; HEADER_SIZE];
    let read = reader.read(shelf, &mut header)?;
    if read < HEADER_SIZE {
        return Ok(Verdict::Wrong {
            at: read as u64,
            reason: Reason::CutHeader,
        });
    }
    match read_header(&header) {
        Ok(order) => walk_structures(shelf, reader, order),
        Err(fault) => Ok(Verdict::Wrong {
            at: fault.at.into(),
            reason: Reason::BadHeader,
        }),
    }
}

/// The verdict on what stands after the header.
fn walk_structures<S: Shelf>(
    shelf: &mut S,
    reader: &mut SlotReader,
    order: Order,
) -> Result<Verdict, Failed>
    requires { IsSource (S.outside shelf.old).slots reader.old.slot }
    ensures verdict { IfOk result
        (λ verdict. Told (to_come (S.outside shelf.old) reader.old) (λ rest. FindsOn order rest verdict)) }
    ensures draws { Draws (S.outside shelf.old) (S.outside shelf.new) reader.old.slot }
    ensures failed { OnErr result (Rose (S.outside shelf.old).faults (S.outside shelf.new).faults) }
{
    let mut at = HEADER_SIZE as u64;
    let mut structures = 0;
    'structures: loop {
        match find_structure(shelf, reader, order, at)? {
            Found::Structure(length) => {
                at += length;
                structures += 1;
            }
            Found::End => return Ok(Verdict::Sound { order, structures }),
            Found::Fault(reason) => return Ok(Verdict::Wrong { at, reason }),
        }
    }
}

/// What stands at a place; the reader passes over a structure that may stand there.
fn find_structure<S: Shelf>(
    shelf: &mut S,
    reader: &mut SlotReader,
    order: Order,
    at: u64,
) -> Result<Found, Failed>
    requires source { IsSource (S.outside shelf.old).slots reader.old.slot }
    requires within { at ≤ file_limit }
    ensures found { IfOk result
        (λ found. Told (to_come (S.outside shelf.old) reader.old) (λ rest. IsFound order at rest found)) }
    ensures moves { IfOk result
        (λ found. Moves (S.outside shelf.old) (S.outside shelf.new) reader.old reader.new at found) }
    ensures refused { OnErr result (Draws (S.outside shelf.old) (S.outside shelf.new) reader.old.slot) }
    ensures failed { OnErr result (Rose (S.outside shelf.old).faults (S.outside shelf.new).faults) }
{
    let mut head = [0; HEAD_SIZE];
    let read = reader.read(shelf, &mut head)?;
    let length = read_common(order, &head).length;
    let passed = reader.skip(shelf, body_size(length))?;
    Ok(judge(at, read as u64 + passed, length))
}

/// The bytes to pass over before a structure of this length is judged.
fn body_size(length: u64) -> u64
    ensures { result ≡ body_size_of length }
{
    match size_reason(length) {
        None => length - HEAD_SIZE as u64,
        Some(_) => 0,
    }
}

/// Judges what stands at a place by the bytes that were seen there and the length that they tell.
fn judge(at: u64, seen: u64, length: u64) -> Found
    requires { at ≤ file_limit }
    ensures { (left told : ℕ) → seen ≡ min left (14 + body_size_of length) → (14 ≤ left → told ≡ length)
        → Judges at left told result }
{
    if seen == 0 {
        Found::End
    } else if seen < HEAD_SIZE as u64 {
        Found::Fault(Reason::CutRecord)
    } else if let Some(reason) = size_reason(length) {
        Found::Fault(reason)
    } else if seen < length {
        Found::Fault(Reason::CutRecord)
    } else if at + length > FILE_LIMIT {
        Found::Fault(Reason::FileLimit)
    } else {
        Found::Structure(length)
    }
}
