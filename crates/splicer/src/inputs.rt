//! One input, written frame after frame.

ghost use Rattle.std.specs.Prelude.{◌≡◌, ◌⊎◌, ◌≤◌, ℕ, List, length, Option, None, Some, Err, OnOk, IsSome, IsTrue};
ghost use Rattle.std.specs.Prelude.{is_none, false};
ghost use Rattle.frame_outside.specs.Counts.{Rose};
ghost use Rattle.frame_outside.specs.Shelf.{Outside, Told, IsSource, IsTarget, reading_at};
ghost use Rattle.item_reader.specs.Reader.{Reads, file_of};
ghost use Rattle.frame_content.specs.Frames.{Frame};
ghost use Rattle.canonical_file.specs.declared.closing.Closing.{Closing};
ghost use Rattle.canonical_file.specs.Ranges.{AreBytes};
ghost use Rattle.splicer.specs.Made.{IsMade};
ghost use Rattle.splicer.specs.Put.{HasPut, Comes, IsEnded, Puts, PutsFrame, PutsFrames, PutsNext, OnlyWrites};
ghost use Rattle.splicer.specs.Drawn.{DrawsInput, HasRead};

use crate::errors::InputError;
use canonical_writer::{CanonWriter, WriteError};
use file_grammar::Fault;
use frame_outside::Shelf;
use frame_reader::FrameReader;
use std::alloc::Global;

/// Writes the frames of the file that a source slot was opened on, each as it is read, up to its end or its first
/// fault. The closing of the first input is held.
pub fn put_input<S: Shelf>(
    alloc: Global,
    shelf: &mut S,
    writer: &mut CanonWriter,
    slot: u32,
    is_first: bool,
) -> Result<(), InputError>
    requires source { IsSource (S.outside shelf.old).slots slot }
    requires beginning { Told (reading_at (S.outside shelf.old).slots slot) (λ reading. reading.at ≡ 0) }
    requires target { IsTarget (S.outside shelf.old).slots writer.old.slot }
    requires error { writer.old.error ≡ None }
    ensures puts { (old : Outside) (name : List ℕ) (inputs : ℕ) (stood : List Frame) (file : List ℕ)
        → file_of (S.outside shelf.old) slot ≡ Some file → length old.slots ≤ slot
        → Comes file stood old (S.outside shelf.old) name inputs is_first writer.old
        → Puts file writer.old.closing stood old (S.outside shelf.new) name inputs writer.new result }
    ensures draws { (old : Outside) (name : List ℕ) (inputs : ℕ) (stood : List Frame) (file : List ℕ)
        → file_of (S.outside shelf.old) slot ≡ Some file → length old.slots ≤ slot
        → Comes file stood old (S.outside shelf.old) name inputs is_first writer.old
        → DrawsInput file writer.old.closing stood (S.outside shelf.old) (S.outside shelf.new) result }
    ensures made { (old : Outside) (name : List ℕ) (inputs : ℕ) → length old.slots ≤ slot
        → IsMade old (S.outside shelf.old) name inputs writer.old.slot
        → IsMade old (S.outside shelf.new) name inputs writer.new.slot }
    ensures slot { writer.new.slot ≡ writer.old.slot }
    ensures target { OnOk result (IsTarget (S.outside shelf.new).slots writer.new.slot) }
    ensures no_error { OnOk result (writer.new.error ≡ None) }
    ensures holds { OnOk result (IsTrue is_first ⊎ IsSome writer.old.closing → IsSome writer.new.closing) }
    ensures device { result ≡ Err (InputError.Write WriteError.Device)
        → Rose (S.outside shelf.old).faults (S.outside shelf.new).faults }
{
    let mut frames = FrameReader::begin(alloc, shelf, slot)?;
    writer.begin_source();
    put_frames(shelf, &mut frames, writer)?;
    end_input(alloc, &frames, writer, is_first)
}

/// Writes the frames that a reader gives.
fn put_frames<S: Shelf>(
    shelf: &mut S,
    frames: &mut FrameReader,
    writer: &mut CanonWriter,
) -> Result<(), InputError>
    requires reads { Reads (S.outside shelf.old) frames.old.reader }
    requires open { (frames.old.reader.error ≡ None) × (frames.old.reader.before.closed ≡ false) }
    requires target { IsTarget (S.outside shelf.old).slots writer.old.slot }
    requires error { writer.old.error ≡ None }
    ensures puts { (old : Outside) (name : List ℕ) (inputs : ℕ) (stood : List Frame) (file : List ℕ)
        → file_of (S.outside shelf.old) frames.old.reader.position.slot ≡ Some file
        → length old.slots ≤ frames.old.reader.position.slot → AreBytes file
        → HasPut file frames.old writer.old.closing stood old (S.outside shelf.old) name inputs writer.old
        → PutsFrames file frames.new writer.old.closing stood old (S.outside shelf.new) name inputs writer.new
        result }
    ensures draws { (old : Outside) (name : List ℕ) (inputs : ℕ) (stood : List Frame) (file : List ℕ)
        → file_of (S.outside shelf.old) frames.old.reader.position.slot ≡ Some file
        → length old.slots ≤ frames.old.reader.position.slot → AreBytes file
        → HasPut file frames.old writer.old.closing stood old (S.outside shelf.old) name inputs writer.old
        → (first : Outside) → HasRead file first (S.outside shelf.old) frames.old.reader
        → DrawsInput file writer.old.closing stood first (S.outside shelf.new) result }
    ensures made { (old : Outside) (name : List ℕ) (inputs : ℕ) → length old.slots ≤ frames.old.reader.position.slot
        → IsMade old (S.outside shelf.old) name inputs writer.old.slot
        → IsMade old (S.outside shelf.new) name inputs writer.new.slot }
    ensures kept { (writer.new.slot ≡ writer.old.slot) × (writer.new.closing ≡ writer.old.closing) }
    ensures target { OnOk result (IsTarget (S.outside shelf.new).slots writer.new.slot) }
    ensures no_error { OnOk result (writer.new.error ≡ None) }
    ensures device { result ≡ Err (InputError.Write WriteError.Device)
        → Rose (S.outside shelf.old).faults (S.outside shelf.new).faults }
{
    'frames: loop {
        if !frames.next(shelf)? {
            return Ok(());
        }
        put_frame(shelf, frames, writer)?;
    }
}

/// Writes the frame that a reader lends.
fn put_frame<S: Shelf>(
    shelf: &mut S,
    frames: &FrameReader,
    writer: &mut CanonWriter,
) -> Result<(), WriteError>
    requires reader { frames.now.reader.error ≡ None }
    requires target { IsTarget (S.outside shelf.old).slots writer.old.slot }
    requires error { writer.old.error ≡ None }
    ensures puts { (old : Outside) (name : List ℕ) (inputs : ℕ) (stood : List Frame) (file : List ℕ)
        (frame : Frame)
        → PutsNext file frame frames.now writer.old.closing stood old (S.outside shelf.old) name inputs writer.old
        → PutsFrame file frames.now writer.old.closing stood old (S.outside shelf.new) name inputs writer.new
        result }
    ensures made { (old : Outside) (name : List ℕ) (inputs : ℕ)
        → IsMade old (S.outside shelf.old) name inputs writer.old.slot
        → IsMade old (S.outside shelf.new) name inputs writer.new.slot }
    ensures only { OnlyWrites (S.outside shelf.old) (S.outside shelf.new) }
    ensures kept { (writer.new.slot ≡ writer.old.slot) × (writer.new.closing ≡ writer.old.closing) }
    ensures no_error { OnOk result (writer.new.error ≡ None) }
    ensures device { result ≡ Err WriteError.Device
        → Rose (S.outside shelf.old).faults (S.outside shelf.new).faults }
{
    let items = frames.items();
    let Some(numbering) = items.numbering() else {
        return Ok(());
    };
    writer.frame(
        shelf,
        items.segment(),
        items.plans(),
        items.dictionary(),
        frames.layouts(),
        numbering,
    )
}

/// Holds the closing of a file that has ended, where it is the first.
fn end_input(
    alloc: Global,
    frames: &FrameReader,
    writer: &mut CanonWriter,
    is_first: bool,
) -> Result<(), InputError>
    requires error { writer.old.error ≡ None }
    ensures ended { (file : List ℕ) (closing : Option Closing) (stood : List Frame)
        (old now : Outside) (name : List ℕ) (inputs : ℕ) → AreBytes file → IsEnded file frames.now
        → is_first ≡ is_none closing → HasPut file frames.now closing stood old now name inputs writer.old
        → Puts file closing stood old now name inputs writer.new result }
    ensures rest { (writer.new.slot ≡ writer.old.slot) × (writer.new.error ≡ writer.old.error) }
    ensures holds { OnOk result (IsTrue is_first ⊎ IsSome writer.old.closing → IsSome writer.new.closing) }
    ensures fault { (file : List ℕ) (fault : Fault) → result ≡ Err (InputError.Fault fault) → AreBytes file
        → IsEnded file frames.now → ⊥ }
    ensures device { result ≡ Err (InputError.Write WriteError.Device) → ⊥ }
{
    if !is_first {
        return Ok(());
    }
    let closing = frames.closing(alloc)?;
    Ok(writer.hold_closing(&closing)?)
}
