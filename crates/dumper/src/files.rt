//! A whole file as it is printed.

ghost use Rattle.std.specs.Prelude.{◌≡◌, ◌⊎◌, ◌≤◌, [], None, Err};
ghost use Rattle.frame_outside.specs.Counts.{Rose};
ghost use Rattle.frame_outside.specs.Shelf.{Told, IsSource, reading_at};
ghost use Rattle.frame_outside.specs.SlotReader.{Draws};
ghost use Rattle.frame_outside.specs.Sink.{Appends};
ghost use Rattle.file_grammar.specs.Item.{nothing_yet};
ghost use Rattle.item_reader.specs.Reader.{file_of, Reads};
ghost use Rattle.dumper.specs.Due.{Dumps, ReadsOneFile};
ghost use Rattle.dumper.specs.Printing.{PrintsLines, Finishes};

use crate::items::print_item;
use crate::lines::push_heading;
use crate::page::Page;
use file_grammar::Fault;
use frame_outside::{Shelf, ShelfError, Sink};
use item_reader::{Item, ItemReader, ReadError};
use std::alloc::Global;
use thiserror::Error;

/// Why a file is not printed whole.
#[derive(Clone, Copy, Debug, PartialEq, Eq, Error)]
pub enum DumpError {
    /// The file is not well-formed, and this is its first fault.
    #[error("Fault")]
    Fault(Fault),
    /// The shelf or the sink could not do a call.
    #[error("Device")]
    Device,
    #[error("NoMemory")]
    NoMemory,
}

impl From<ReadError> for DumpError {
    ghost use Rattle.std.specs.Prelude.{◌≡◌};
    ghost use Rattle.dumper.specs.Errors.{read_error};

    ghost from_gives = { λ error result. result ≡ read_error error };

    fn from(error: ReadError) -> DumpError {
        match error {
            ReadError::Fault(fault) => DumpError::Fault(fault),
            ReadError::Device => DumpError::Device,
            ReadError::NoMemory => DumpError::NoMemory,
        }
    }
}

impl From<ShelfError> for DumpError {
    ghost use Rattle.std.specs.Prelude.{◌≡◌};
    ghost use Rattle.dumper.specs.Errors.{shelf_error};

    ghost from_gives = { λ error result. result ≡ shelf_error error };

    fn from(error: ShelfError) -> DumpError {
        match error {
            ShelfError::Failed => DumpError::Device,
            ShelfError::NoMemory => DumpError::NoMemory,
        }
    }
}

/// Prints the lines of the file of a name: its byte order, and those of all its items; of one that is not well-formed
/// those of the items before the one that shows the first fault, and none where its header is wrong. The line of the
/// fault is left to the caller. It takes the memory of one frame and of about 65,536 bytes of text, or of one text of
/// the file as it is printed, where that is more; and of less than a million bytes for what stands before values.
///
/// # Errors
///
/// A `Fault` is the file's first. `Device` comes where the shelf or the sink could not do a call, which is so of a name
/// that is not held. After `Device` and `NoMemory` the sink has got a prefix of the lines.
pub fn dump_file<S: Shelf, O: Sink>(
    alloc: Global,
    shelf: &mut S,
    from: &str,
    out: &mut O,
) -> Result<(), DumpError>
    ensures answer { Told (S.outside shelf.old).files (λ held. Told (held from.now) (λ file.
        Dumps file (O.output out.old) (O.output out.new) result)) }
    ensures missing { Told (S.outside shelf.old).files (λ held. held from.now ≡ None
        → ((result ≡ Err DumpError.Device) ⊎ (result ≡ Err DumpError.NoMemory))
        × Appends (O.output out.old) (O.output out.new) []) }
    ensures shelf { ReadsOneFile (S.outside shelf.old) (S.outside shelf.new) from.now }
    ensures sink { (O.output out.old).faults ≤ (O.output out.new).faults }
    ensures device { result ≡ Err DumpError.Device
        → Rose (S.outside shelf.old).faults (S.outside shelf.new).faults
        ⊎ Rose (O.output out.old).faults (O.output out.new).faults }
{
    let slot = shelf.source(alloc, from)?;
    dump_slot(alloc, shelf, slot, out)
}

/// Prints the lines of the file that a source slot was opened on.
fn dump_slot<S: Shelf, O: Sink>(
    alloc: Global,
    shelf: &mut S,
    slot: u32,
    out: &mut O,
) -> Result<(), DumpError>
    requires source { IsSource (S.outside shelf.old).slots slot }
    requires beginning { Told (reading_at (S.outside shelf.old).slots slot) (λ reading. reading.at ≡ 0) }
    ensures answer { Told (file_of (S.outside shelf.old) slot) (λ file.
        Dumps file (O.output out.old) (O.output out.new) result) }
    ensures draws { Draws (S.outside shelf.old) (S.outside shelf.new) slot }
    ensures sink { (O.output out.old).faults ≤ (O.output out.new).faults }
    ensures device { result ≡ Err DumpError.Device
        → Rose (S.outside shelf.old).faults (S.outside shelf.new).faults
        ⊎ Rose (O.output out.old).faults (O.output out.new).faults }
{
    let mut reader = ItemReader::begin(alloc, shelf, slot)?;
    let mut page = Page::new(alloc);
    let printed = print_lines(&mut page, shelf, out, &mut reader);
    finish(&mut page, out, printed)
}

/// Puts what is still pending of the lines, unless a call was refused.
fn finish<O: Sink>(
    page: &mut Page,
    out: &mut O,
    printed: Result<(), DumpError>,
) -> Result<(), DumpError>
    ensures answer { Finishes (O.output out.old) (O.output out.new) page.old printed result }
    ensures sink { (O.output out.old).faults ≤ (O.output out.new).faults }
    ensures device { result ≡ Err DumpError.Device
        → (printed ≡ Err DumpError.Device) ⊎ Rose (O.output out.old).faults (O.output out.new).faults }
{
    match printed {
        Ok(()) => {
            page.flush(out)?;
            Ok(())
        }
        Err(DumpError::Fault(fault)) => {
            page.flush(out)?;
            Err(DumpError::Fault(fault))
        }
        Err(DumpError::Device) => Err(DumpError::Device),
        Err(DumpError::NoMemory) => Err(DumpError::NoMemory),
    }
}

/// Prints the lines of a file of which the header was read, up to its end or its first fault.
fn print_lines<S: Shelf, O: Sink>(
    page: &mut Page,
    shelf: &mut S,
    out: &mut O,
    reader: &mut ItemReader,
) -> Result<(), DumpError>
    requires reads { Reads (S.outside shelf.old) reader.old }
    requires error { reader.old.error ≡ None }
    requires begun { reader.old.before ≡ nothing_yet }
    ensures lines { Told (file_of (S.outside shelf.old) reader.old.position.slot) (λ file.
        PrintsLines file reader.old.order (O.output out.old) (O.output out.new) page.old page.new result) }
    ensures draws { Draws (S.outside shelf.old) (S.outside shelf.new) reader.old.position.slot }
    ensures sink { (O.output out.old).faults ≤ (O.output out.new).faults }
    ensures device { result ≡ Err DumpError.Device
        → Rose (S.outside shelf.old).faults (S.outside shelf.new).faults
        ⊎ Rose (O.output out.old).faults (O.output out.new).faults }
{
    let composed = push_heading(&mut page.text, reader.order());
    page.settle(out, composed)?;
    'items: loop {
        let item = reader.next(shelf)?;
        print_item(page, out, reader, item)?;
        if let Item::FileEnd { .. } = item {
            return Ok(());
        }
    }
}
