//! A file read to its end, for what it holds.

ghost use Rattle.std.specs.Prelude.{◌≡◌, ℕ, List, false, None, Some, IfOk, Err};
ghost use Rattle.frame_outside.specs.Counts.{Rose};
ghost use Rattle.frame_outside.specs.Shelf.{Told, IsSource, reading_at};
ghost use Rattle.frame_outside.specs.SlotReader.{Draws};
ghost use Rattle.file_grammar.specs.Fault.{IsFirstFault};
ghost use Rattle.file_grammar.specs.declared.fault.Fault.{Fault};
ghost use Rattle.item_reader.specs.Reader.{file_of, Reads, HasEnded};
ghost use Rattle.item_reader.specs.declared.item.Item.TheVariants.{FileEnd};
ghost use Rattle.file_content.specs.Contents.{AreContents};
ghost use Rattle.file_content.specs.Scanned.{HasScanned};

use crate::scan::Scan;
use crate::state::TableState;
use contents_table::TableBuilder;
use frame_outside::Shelf;
use item_reader::{Item, ItemReader, ReadError};
use scalar_types::Order;
use std::alloc::Global;

/// What a well-formed file holds.
#[derive(Drop)]
pub struct Contents {
    pub order: Order,
    pub frames: u64,
    /// The records of all frames, end records among them.
    pub records: u64,
    /// The file's length.
    pub bytes: u64,
    pub table: TableState,
    /// The places of the frames, and the names of their channels with their places.
    pub channels: TableBuilder,
}

/// What the file holds that a source slot was opened on, at its beginning. Nothing but this slot is drawn from, up to
/// the file's end or its first fault; it takes the memory of one frame and of the names and places of all channels.
///
/// # Errors
///
/// A `Fault` is the file's first. `Device` comes where the shelf could not do a call.
pub fn read_contents<S: Shelf>(
    alloc: Global,
    shelf: &mut S,
    slot: u32,
) -> Result<Contents, ReadError>
    requires source { IsSource (S.outside shelf.old).slots slot }
    requires beginning { Told (reading_at (S.outside shelf.old).slots slot) (λ reading. reading.at ≡ 0) }
    ensures contents { IfOk result
        (λ c. Told (file_of (S.outside shelf.old) slot) (λ file. AreContents file c)) }
    ensures fault { (fault : Fault) → result ≡ Err (ReadError.Fault fault)
        → Told (file_of (S.outside shelf.old) slot) (λ file. IsFirstFault file fault) }
    ensures device { result ≡ Err ReadError.Device
        → Rose (S.outside shelf.old).faults (S.outside shelf.new).faults }
    ensures draws { Draws (S.outside shelf.old) (S.outside shelf.new) slot }
{
    let mut reader = ItemReader::begin(alloc, shelf, slot)?;
    let mut scan = Scan::new(alloc, reader.dictionary());
    let seek = take_items(alloc, shelf, &mut reader, &mut scan)?;
    Ok(contents_of(scan, &reader, seek))
}

/// Takes the items of a file up to its end, and answers by how many bytes that leads back.
fn take_items<S: Shelf>(
    alloc: Global,
    shelf: &mut S,
    reader: &mut ItemReader,
    scan: &mut Scan,
) -> Result<u64, ReadError>
    requires reads { Reads (S.outside shelf.old) reader.old }
    requires error { reader.old.error ≡ None }
    requires unclosed { reader.old.before.closed ≡ false }
    ensures scanned { IfOk result (λ seek. Told (file_of (S.outside shelf.old) reader.old.position.slot)
        (λ file. HasScanned file reader.old scan.old → HasScanned file reader.new scan.new)) }
    ensures end { IfOk result (λ seek. Told (file_of (S.outside shelf.old) reader.old.position.slot)
        (λ file. HasEnded file reader.new)) }
    ensures last { IfOk result (λ seek. (at class length : ℕ)
        × (reader.new.last ≡ Some (FileEnd at class length seek))) }
    ensures fault { (fault : Fault) → result ≡ Err (ReadError.Fault fault)
        → Told (file_of (S.outside shelf.old) reader.old.position.slot) (λ file. IsFirstFault file fault) }
    ensures device { result ≡ Err ReadError.Device
        → Rose (S.outside shelf.old).faults (S.outside shelf.new).faults }
    ensures draws { Draws (S.outside shelf.old) (S.outside shelf.new) reader.old.position.slot }
{
    'items: loop {
        let item = reader.next(shelf)?;
        scan.take(alloc, reader, item)?;
        if let Item::FileEnd { seek, .. } = item {
            return Ok(seek);
        }
    }
}

/// What a file holds of which all items were taken, where its end leads back by so many bytes.
fn contents_of(scan: Scan, reader: &ItemReader, seek: u64) -> Contents
    ensures { (file : List ℕ) → HasScanned file reader.now scan → HasEnded file reader.now
        → ((at class length : ℕ) × (reader.now.last ≡ Some (FileEnd at class length seek)))
        → AreContents file result }
{
    Contents {
        order: reader.order(),
        frames: reader.frames(),
        records: reader.records(),
        bytes: reader.place(),
        table: scan.state(seek, reader.place()),
        channels: scan.channels,
    }
}
