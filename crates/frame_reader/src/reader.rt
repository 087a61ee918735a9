//! The reader of a file's frames.

ghost use Rattle.std.specs.Prelude.{◌≡◌, ◌<◌, ◌≤◌, ℕ, List, [], true, false, None, Some, Ok, Err};
ghost use Rattle.std.specs.Prelude.{IfOk, IfErr, OnOk, OnErr, IsSome, IsTrue};
ghost use Rattle.frame_outside.specs.Counts.{Rose};
ghost use Rattle.frame_outside.specs.Shelf.{Told, IsSource, reading_at};
ghost use Rattle.frame_outside.specs.SlotReader.{DrawsAtMost};
ghost use Rattle.structure_source.specs.Source.{GoesOn as Passes, bytes_drawn};
ghost use Rattle.file_grammar.specs.Structure.{file_limit};
ghost use Rattle.file_grammar.specs.Fault.{IsHeaderFault};
ghost use Rattle.link_graph.specs.Collected.{Becomes, nothing_in};
ghost use Rattle.frame_content.specs.Frames.{Frame};
ghost use Rattle.item_reader.specs.Reader.{file_of, Reads, IsFrameEnd};
ghost use Rattle.canonical_file.specs.Ranges.{AreBytes};
ghost use Rattle.canonical_laws.specs.Content.{closing_by};
ghost use Rattle.canonical_writer.specs.Parts.{IsUsableClosing, printed_closing};
ghost use Rattle.frame_reader.specs.Given.{HasGiven, GivesAll, GoesOn, Keeps, HasLooked, LayoutsFollow};

use crate::closings::closing_of;
use canonical_file::Closing;
use contents_table::ChannelLayouts;
use file_grammar::{Fault, Reason};
use frame_outside::Shelf;
use item_reader::{Item, ItemReader, ReadError};
use link_graph::Segment;
use std::alloc::Global;
use std::marker::Model;

/// A reader of the frames of one file, from one source slot of a shelf, in the memory of one frame.
#[derive(Drop)]
pub struct FrameReader {
    items: ItemReader,
    layouts: ChannelLayouts,
}

impl Model for FrameReader {
    ghost use Rattle.std.specs.Prelude.{◌≡◌, true, None};
    ghost use Rattle.frame_reader.specs.Given.{Frames, EndsFile};

    ghost Value = { Frames };

    ghost view = { λ r. record { reader = r.items; layouts = r.layouts } };

    ghost invariant = { λ r. r.items.error ≡ None → r.items.before.closed ≡ true → EndsFile r.items.last };
}

impl FrameReader {
    /// A reader at the place after the header of the file that a source slot was opened on. Nothing of the slot was
    /// taken yet. At most 65,576 bytes are drawn.
    ///
    /// # Errors
    ///
    /// A `Fault` is that of the header: CutHeader, or BadHeader at its first wrong part. `Device` comes where the shelf
    /// could not do a call.
    pub fn begin<S: Shelf>(
        alloc: Global,
        shelf: &mut S,
        slot: u32,
    ) -> Result<FrameReader, ReadError>
        requires source { IsSource (S.outside shelf.old).slots slot }
        requires beginning { Told (reading_at (S.outside shelf.old).slots slot) (λ reading. reading.at ≡ 0) }
        ensures reads { IfOk result (λ r. Reads (S.outside shelf.new) r.reader) }
        ensures begun { IfOk result (λ r. (r.reader.position.slot ≡ slot) × (r.reader.error ≡ None)
            × (r.reader.before.closed ≡ false) × (r.reader.before.dictionary ≡ [])) }
        ensures given { IfOk result
            (λ r. Told (file_of (S.outside shelf.old) slot) (λ file. HasGiven file [] r)) }
        ensures fault { (fault : Fault) → result ≡ Err (ReadError.Fault fault)
            → Told (file_of (S.outside shelf.old) slot) (λ file. IsHeaderFault file fault) }
        ensures device { result ≡ Err ReadError.Device
            → Rose (S.outside shelf.old).faults (S.outside shelf.new).faults }
        ensures draws { DrawsAtMost (S.outside shelf.old) (S.outside shelf.new) slot 65576 }
    {
        let items = ItemReader::begin(alloc, shelf, slot)?;
        let layouts = ChannelLayouts::of(items.dictionary());
        Ok(FrameReader { items, layouts })
    }

    /// Reads to the end of the next frame: `true` where there is one, `false` at the end of the file, and then
    /// again. What is drawn of the slot reaches no further than the look of the place reached. The byte order stays
    /// the same, after an error too.
    ///
    /// # Errors
    ///
    /// The file's first fault, at its place; `Device` where the shelf could not do a call. It is not called again after
    /// an error.
    pub fn next<S: Shelf>(&mut self, shelf: &mut S) -> Result<bool, ReadError>
        requires reads { Reads (S.outside shelf.old) self.old.reader }
        requires error { self.old.reader.error ≡ None }
        ensures reads { Reads (S.outside shelf.new) self.new.reader }
        ensures order { self.new.reader.order ≡ self.old.reader.order }
        ensures goes { (file : List ℕ) (frames : List Frame)
            → file_of (S.outside shelf.old) self.old.reader.position.slot ≡ Some file → AreBytes file
            → self.old.reader.before.closed ≡ false → HasGiven file frames self.old
            → GoesOn file frames self.new result }
        ensures keeps { OnOk result (Told (file_of (S.outside shelf.old) self.old.reader.position.slot)
            (λ file. Keeps self.old.reader.before.dictionary self.new.reader.before.dictionary)) }
        ensures ahead { OnErr result ((file : List ℕ) (frames : List Frame)
            → file_of (S.outside shelf.old) self.old.reader.position.slot ≡ Some file
            → self.old.reader.before.closed ≡ false → HasGiven file frames self.old
            → HasLooked file frames (bytes_drawn self.new.reader.position)) }
        ensures on { IfOk result (λ more. IsTrue more → (self.old.reader.before.place < self.new.reader.before.place)
            × (self.new.reader.before.place ≤ file_limit) × (self.new.reader.before.closed ≡ false)) }
        ensures last { result ≡ Ok true → (item : Item) → self.new.reader.last ≡ Some item → IsFrameEnd item }
        ensures end { result ≡ Ok false → self.new.reader.before.closed ≡ true }
        ensures end_again { self.old.reader.before.closed ≡ true → (result ≡ Ok false) × (self.new ≡ self.old) }
        ensures no_error { OnOk result (self.new.reader.error ≡ None) }
        ensures draws { Passes (S.outside shelf.old) (S.outside shelf.new) self.old.reader.position
            self.new.reader.position }
        ensures device { result ≡ Err ReadError.Device
            → Rose (S.outside shelf.old).faults (S.outside shelf.new).faults }
    {
        'items: loop {
            let item = self.items.next(shelf)?;
            if let Item::FrameEnd { .. } = item {
                return Ok(true);
            }
            if let Item::FileEnd { .. } = item {
                return Ok(false);
            }
            self.follow(item);
        }
    }

    /// Finds the layouts of channels again where an item has brought an entry.
    fn follow(&mut self, item: Item)
        ensures reader { self.new.reader ≡ self.old.reader }
        ensures layouts { LayoutsFollow self.new.reader.before.dictionary item self.old.layouts self.new.layouts }
    {
        if let Item::Entry { changed: true, .. } = item {
            self.layouts = ChannelLayouts::of(self.items.dictionary());
        }
    }

    /// Hands out the frame that has ended, with its end record, and keeps `empty` for the next one. Until the next call
    /// of `next`, the reader lends the empty one, and neither a numbering nor a body. Takes no memory.
    pub fn lift(&mut self, empty: Segment) -> Segment
        requires error { self.old.reader.error ≡ None }
        requires last { (item : Item) → self.old.reader.last ≡ Some item → IsFrameEnd item }
        requires ended { IsSome self.old.reader.numbering }
        requires empty { Becomes empty (nothing_in self.old.reader.order) }
        ensures lifted { result ≡ self.old.reader.segment }
        ensures order { result.order ≡ self.old.reader.order }
        ensures rest { self.new ≡ record self.old {
          reader = record self.old.reader { segment = empty; numbering = None; body = [] };
        } }
    {
        self.items.lift(empty)
    }

    /// What the file is closed with, once it has ended.
    ///
    /// # Errors
    ///
    /// BadClosing where the dictionary holds no FrEndOfFile of the layout that it has to have, which is not so at
    /// the end of a file.
    pub fn closing(&self, alloc: Global) -> Result<Closing, ReadError>
        ensures closing { IfOk result (λ closing. IsUsableClosing closing
            × (printed_closing closing ≡ closing_by self.now.reader.before.dictionary)) }
        ensures fault { (fault : Fault) → result ≡ Err (ReadError.Fault fault) → (file : List ℕ)
            (frames : List Frame) → AreBytes file → GivesAll file frames self.now → ⊥ }
        ensures device { result ≡ Err ReadError.Device → ⊥ }
    {
        match closing_of(alloc, self.items.dictionary())? {
            Some(closing) => Ok(closing),
            None => Err(ReadError::Fault(Fault {
                at: self.items.place(),
                field: 0,
                reason: Reason::BadClosing,
            })),
        }
    }

    /// The reader of the items, which lends the frame after each `true`.
    pub fn items(&self) -> &ItemReader
        ensures { result.now ≡ self.now.reader }
    {
        &self.items
    }

    /// Where the layouts of the dictionary have the links to channels, and their names.
    pub fn layouts(&self) -> &ChannelLayouts
        ensures { result.now ≡ self.now.layouts }
    {
        &self.layouts
    }
}
