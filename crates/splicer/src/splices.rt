//! Splices: the frames of files in one canonical file, with the closing of the first.

ghost use Rattle.std.specs.Prelude.{◌≡◌, ◌≢◌, ◌<◌, ◌≤◌, ◌^◌, ℕ, List, [], All, map, length, None, Err};
ghost use Rattle.std.specs.Prelude.{OnOk, OnErr, IfErr, IsSome};
ghost use Rattle.std.specs.String.{string_bytes};
ghost use Rattle.frame_outside.specs.Counts.{Rose};
ghost use Rattle.frame_outside.specs.Shelf.{Outside, Files, Told, IsSource, IsTarget, reading_at};
ghost use Rattle.frame_reader.specs.Gives.{HoldBytes};
ghost use Rattle.splicer.specs.Due.{Due, IsDue, IsDueFrom, IsAnswer, Leaves, answer_of};
ghost use Rattle.splicer.specs.Drawn.{DrawsInAll};
ghost use Rattle.splicer.specs.Errors.{IsOfInputs};
ghost use Rattle.splicer.specs.Made.{IsMade, WritesOneFile};
ghost use Rattle.splicer.specs.Spliced.{HasOpened, Ends, PutsInputs, LeavesShelf, KeepsShelf};

use crate::errors::SpliceError;
use crate::inputs::put_input;
use canonical_writer::{CanonWriter, Summary};
use frame_outside::Shelf;
use std::alloc::Global;

/// Writes the canonical file of the frames of all inputs, one input after another, with the closing of the first, to
/// the file of a name, and tells its frames and bytes (LIGO-T970130 v8, the structures of a file). A copy is the
/// splice of one file.
///
/// The first input is opened, then the file is made or emptied, then reading begins; each further input is opened at
/// its turn. Each frame is written as it is read, so the answer is what comes first, by input and then by byte. It
/// takes the memory of one frame, of the entries used, and of the names and places of all channels.
///
/// # Errors
///
/// `Fault` at the item that shows the first fault of an input; at the end of a frame `FramesLimit` where it would be
/// frame 1,000,001, then `Clash` at the first class of its records whose entry is not the one used before, comments
/// aside, or whose structure name is used under another class, then `OutputLimit` where there would be more than
/// 2^62 bytes; `OutputLimit` also at the end. The file then holds the canonical head of the frames before. `Device`
/// at an input that is not held, or where the shelf could not do a call: the file is then as it was, or holds a part
/// of what was due.
///
/// Of the input in which the answer comes no byte is drawn beyond the look of the place there, or of the place after
/// the entry that stands there. A look goes at most 65,550 bytes beyond its place, or 65,536 beyond the structure that
/// stands there. Of the inputs after it no byte is drawn.
pub fn splice<S: Shelf>(
    alloc: Global,
    shelf: &mut S,
    to: &str,
    from: &[String],
) -> Result<Summary, SpliceError>
    requires some { 0 < length from.now }
    requires few { length from.now < 2 ^ 32 }
    requires apart { All (λ name. string_bytes name ≢ to.now) from.now }
    ensures answer { Told (S.outside shelf.old).files (λ files. (due : Due)
        → IsDue files (map string_bytes from.now) due → IsAnswer result due) }
    ensures leaves { Told (S.outside shelf.old).files (λ files. (due : Due)
        → IsDue files (map string_bytes from.now) due
        → Leaves files (S.outside shelf.new).files to.now result due) }
    ensures misses { Told (S.outside shelf.old).files
        (λ files. (S.outside shelf.old).misses < (S.outside shelf.new).misses → (due : Due)
        → IsDue files (map string_bytes from.now) due → answer_of due ≡ Err SpliceError.Device) }
    ensures taken { Told (S.outside shelf.old).files (λ files. HoldBytes files
        → DrawsInAll files (map string_bytes from.now) (S.outside shelf.old) (S.outside shelf.new)) }
    ensures inputs { IfErr result (IsOfInputs (length from.now)) }
    ensures shelf { WritesOneFile (S.outside shelf.old) (S.outside shelf.new) to.now (length from.now) }
    ensures device { result ≡ Err SpliceError.Device
        → Rose (S.outside shelf.old).faults (S.outside shelf.new).faults }
{
    let slot = shelf.source(alloc, from[0].as_str())?;
    let writer = CanonWriter::begin(alloc, shelf, to)?;
    splice_into(alloc, shelf, writer, slot, from)
}

/// Writes all inputs, the first of which was opened, and ends the file.
fn splice_into<S: Shelf>(
    alloc: Global,
    shelf: &mut S,
    mut writer: CanonWriter,
    slot: u32,
    from: &[String],
) -> Result<Summary, SpliceError>
    requires some { 0 < length from.now }
    requires few { length from.now < 2 ^ 32 }
    requires source { IsSource (S.outside shelf.old).slots slot }
    requires beginning { Told (reading_at (S.outside shelf.old).slots slot) (λ reading. reading.at ≡ 0) }
    requires target { IsTarget (S.outside shelf.old).slots writer.slot }
    requires error { writer.error ≡ None }
    ensures ends { (old : Outside) (to : List ℕ) (files : Files)
        → HasOpened files (map string_bytes from.now) old (S.outside shelf.old) to 0 slot writer → (due : Due)
        → IsDueFrom files None [] 0 (map string_bytes from.now) due
        → Ends files old (S.outside shelf.new) to due result }
    ensures taken { (old : Outside) (to : List ℕ) (files : Files)
        → HasOpened files (map string_bytes from.now) old (S.outside shelf.old) to 0 slot writer
        → DrawsInAll files (map string_bytes from.now) old (S.outside shelf.new) }
    ensures leaves { (old : Outside) (to : List ℕ) → length old.slots ≤ slot
        → IsMade old (S.outside shelf.old) to 1 writer.slot
        → LeavesShelf old (S.outside shelf.new) to (length from.now) result }
    ensures inputs { IfErr result (IsOfInputs (length from.now)) }
{
    put_inputs(alloc, shelf, &mut writer, slot, from)?;
    Ok(writer.close(shelf)?)
}

/// Writes all inputs, the first of which was opened. Each further one is opened at its turn.
fn put_inputs<S: Shelf>(
    alloc: Global,
    shelf: &mut S,
    writer: &mut CanonWriter,
    slot: u32,
    from: &[String],
) -> Result<(), SpliceError>
    requires some { 0 < length from.now }
    requires few { length from.now < 2 ^ 32 }
    requires source { IsSource (S.outside shelf.old).slots slot }
    requires beginning { Told (reading_at (S.outside shelf.old).slots slot) (λ reading. reading.at ≡ 0) }
    requires target { IsTarget (S.outside shelf.old).slots writer.old.slot }
    requires error { writer.old.error ≡ None }
    ensures puts { (old : Outside) (to : List ℕ) (files : Files)
        → HasOpened files (map string_bytes from.now) old (S.outside shelf.old) to 0 slot writer.old
        → PutsInputs files (map string_bytes from.now) old (S.outside shelf.new) to writer.new result }
    ensures taken { OnErr result ((old : Outside) (to : List ℕ) (files : Files)
        → HasOpened files (map string_bytes from.now) old (S.outside shelf.old) to 0 slot writer.old
        → DrawsInAll files (map string_bytes from.now) old (S.outside shelf.new)) }
    ensures made { (old : Outside) (to : List ℕ) → length old.slots ≤ slot
        → IsMade old (S.outside shelf.old) to 1 writer.old.slot
        → KeepsShelf old (S.outside shelf.new) to (length from.now) writer.new.slot result }
    ensures inputs { IfErr result (IsOfInputs (length from.now)) }
    ensures target { OnOk result (IsTarget (S.outside shelf.new).slots writer.new.slot) }
    ensures no_error { OnOk result (writer.new.error ≡ None) }
    ensures holds { OnOk result (IsSome writer.new.closing) }
{
    if let Err(error) = put_input(alloc, shelf, writer, slot, true) {
        return Err(error.of_input(0));
    }
    'inputs: for number in 1..from.len() {
        let slot = shelf.source(alloc, from[number].as_str())?;
        if let Err(error) = put_input(alloc, shelf, writer, slot, false) {
            return Err(error.of_input(number as u32));
        }
    }
    Ok(())
}
