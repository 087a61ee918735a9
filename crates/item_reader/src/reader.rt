//! The reader of a file's items.

ghost use Rattle.std.specs.Prelude.{◌≡◌, ◌≢◌, ◌+◌, ◌<◌, ◌≤◌, ℕ, [], false, true, None, Some, Ok, Err, IsSome};
ghost use Rattle.std.specs.Prelude.{All, IfOk, OnOk, IfErr, OnErr, if◌then◌else◌, ◌↔◌, IsSomeAnd, IfSome, slice_get};
ghost use Rattle.std.specs.Option.{option_copied};
ghost use Rattle.frame_outside.specs.Counts.{Rose};
ghost use Rattle.frame_outside.specs.Shelf.{Told, IsSource, reading_at};
ghost use Rattle.frame_outside.specs.SlotReader.{DrawsAtMost};
ghost use Rattle.structure_source.specs.Source.{GoesOn, bytes_drawn};
ghost use Rattle.layout_plan.specs.Plans.{plan_of};
ghost use Rattle.link_graph.specs.Collected.{Becomes, nothing_in};
ghost use Rattle.link_graph.specs.Graph.{Layouts, ReadsBy};
ghost use Rattle.file_grammar.specs.Record.{layout_in};
ghost use Rattle.file_grammar.specs.Structure.{file_limit};
ghost use Rattle.file_grammar.specs.Item.{nothing_yet};
ghost use Rattle.file_grammar.specs.Fault.{IsFirstFault, IsHeaderFault};
ghost use Rattle.item_reader.specs.Looked.{IsWithinLook};
ghost use Rattle.item_reader.specs.Reader.{file_of, Reads, Goes, HasEnded, IsFileEnd, IsFrameEnd, IsEntry, Faults};

use crate::cursor::Cursor;
use crate::item::{Item, ReadError};
use crate::looked::Looked;
use crate::opening::read_order;
use crate::state::State;
use crate::steps::held;
use dictionary::{Dictionary, Entry};
use file_grammar::Fault;
use frame_outside::Shelf;
use layout_plan::Plans;
use link_graph::{FrameLinks, Numbering, Segment};
use scalar_types::Order;
use std::alloc::Global;
use std::marker::Model;
use std::mem::replace;
use structure_source::StructureSource;

/// A reader of the items of one file, from one source slot of a shelf.
///
/// It gives the items of the grammar one after another (LIGO-T970130, version 8: the structures in the order
/// of the file), up to the end of the file, or else the file's first fault. It holds the dictionary, one
/// frame, and the last entry that did not change the dictionary, and reads at most 65,536 bytes ahead.
#[derive(Drop)]
pub struct ItemReader {
    cursor: Cursor,
    last: Option<Item>,
    error: Option<ReadError>,
}

impl Model for ItemReader {
    ghost use Rattle.std.specs.Prelude.{◌≡◌, None};
    ghost use Rattle.item_reader.specs.State.{before_of};
    ghost use Rattle.item_reader.specs.Given.{entry_in};
    ghost use Rattle.item_reader.specs.Reader.{Reader};
    ghost use Rattle.item_reader.specs.Cursor.{Keeps, body_in};

    ghost Value = { Reader };

    ghost view = { λ r. record {
      position = r.cursor.source;
      order = r.cursor.state.segment.order;
      before = before_of r.cursor.state;
      segment = r.cursor.state.segment;
      numbering = r.cursor.state.numbering;
      body = body_in r.last r.cursor.own.items r.cursor.state.segment;
      last = r.last;
      entry = entry_in r.last r.cursor.kept r.cursor.state.dictionary;
      instance = r.cursor.instance;
      looked = r.cursor.looked;
      error = r.error;
    } };

    ghost invariant = { λ r. r.error ≡ None → Keeps r.cursor r.last };
}

impl ItemReader {
    /// A reader at the place after the header of the file that a source slot was opened on. Nothing of the
    /// slot was taken yet. At most 65,576 bytes are drawn.
    ///
    /// # Errors
    ///
    /// A `Fault` is that of the header: CutHeader, or BadHeader at its first wrong part. `Device` comes where
    /// the shelf could not do a call.
    pub fn begin<S: Shelf>(alloc: Global, shelf: &mut S, slot: u32) -> Result<ItemReader, ReadError>
        requires source { IsSource (S.outside shelf.old).slots slot }
        requires beginning { Told (reading_at (S.outside shelf.old).slots slot) (λ reading. reading.at ≡ 0) }
        ensures reads { IfOk result (λ reader. Reads (S.outside shelf.new) reader) }
        ensures slot { IfOk result (λ reader. reader.position.slot ≡ slot) }
        ensures begun { IfOk result (λ reader. (reader.before ≡ nothing_yet) × (reader.body ≡ [])
            × (reader.last ≡ None) × (reader.error ≡ None) × (reader.entry ≡ None) × (reader.instance ≡ 0)) }
        ensures frame { IfOk result (λ reader. (reader.segment ≡ nothing_in reader.order)
            × (reader.numbering ≡ None)) }
        ensures fault { (fault : Fault) → result ≡ Err (ReadError.Fault fault)
            → Told (file_of (S.outside shelf.old) slot) (λ file. IsFirstFault file fault) }
        ensures header { (fault : Fault) → result ≡ Err (ReadError.Fault fault)
            → Told (file_of (S.outside shelf.old) slot) (λ file. IsHeaderFault file fault) }
        ensures device { result ≡ Err ReadError.Device
            → Rose (S.outside shelf.old).faults (S.outside shelf.new).faults }
        ensures draws { DrawsAtMost (S.outside shelf.old) (S.outside shelf.new) slot 65576 }
    {
        let mut source = StructureSource::new(alloc, slot)?;
        let order = read_order(&mut source, shelf)?;
        let cursor = Cursor {
            source,
            state: State::new(alloc, order)?,
            links: FrameLinks::new(alloc),
            own: Vec::new(alloc),
            looked: Looked::Nothing,
            kept: None,
            instance: 0,
        };
        Ok(ItemReader {
            cursor,
            last: None,
            error: None,
        })
    }

    /// The next item, or the file's first fault, which stands at the place reached (Trailing: at the end of
    /// the FrEndOfFile that may stand there). The end of the file is given only after no byte was found after
    /// it, and again by every later call. After an error every later call gives the same error, and nothing
    /// is said of the other calls.
    ///
    /// The shelf and its slot are those of `begin`. What is drawn of the slot reaches no further than the
    /// look of the place reached; after an error, of the place before it or of that after the entry there.
    pub fn next<S: Shelf>(&mut self, shelf: &mut S) -> Result<Item, ReadError>
        requires reads { Reads (S.outside shelf.old) self.old }
        ensures reads { Reads (S.outside shelf.new) self.new }
        ensures order { self.new.order ≡ self.old.order }
        ensures item { IfOk result (λ item. self.old.before.closed ≡ false
            → Told (file_of (S.outside shelf.old) self.old.position.slot)
            (λ file. Goes file self.old item self.new)) }
        ensures on { IfOk result (λ item. self.old.before.closed ≡ false
            → self.old.before.place < self.new.before.place) }
        ensures within { IfOk result (λ item. self.old.before.closed ≡ false
            → self.new.before.place ≤ file_limit) }
        ensures end { IfOk result (λ item. IsFileEnd item
            → Told (file_of (S.outside shelf.old) self.old.position.slot) (λ file. HasEnded file self.new)) }
        ensures fault { (fault : Fault) → result ≡ Err (ReadError.Fault fault) → self.old.error ≡ None
            → Told (file_of (S.outside shelf.old) self.old.position.slot) (λ file. IsFirstFault file fault) }
        ensures at { (fault : Fault) → result ≡ Err (ReadError.Fault fault) → self.old.error ≡ None
            → Told (file_of (S.outside shelf.old) self.old.position.slot) (λ file.
            Faults (record { order = self.old.order; file = file; before = self.old.before }) fault) }
        ensures device { result ≡ Err ReadError.Device → self.old.error ≡ None
            → Rose (S.outside shelf.old).faults (S.outside shelf.new).faults }
        ensures draws { GoesOn (S.outside shelf.old) (S.outside shelf.new) self.old.position
            self.new.position }
        ensures ahead { OnErr result (self.old.error ≡ None
            → Told (file_of (S.outside shelf.old) self.old.position.slot) (λ file.
            IsWithinLook self.old.order file self.old.before.place (bytes_drawn self.new.position))) }

        // What is given again, and from when on.
        ensures error_again { (error : ReadError) → self.old.error ≡ Some error → (result ≡ Err error)
            × (self.new ≡ self.old) }
        ensures end_again { (item : Item) → self.old.error ≡ None → self.old.last ≡ Some item → IsFileEnd item
            → (result ≡ Ok item) × (self.new ≡ self.old) }
        ensures error { IfErr result (λ error. self.new.error ≡ Some error) }
        ensures no_error { OnOk result (self.new.error ≡ None) }
        ensures last { IfOk result (λ item. self.new.last ≡ Some item) }
        ensures closed { IfOk result (λ item. (IsFileEnd item → self.new.before.closed ≡ true)
            × (self.new.before.closed ≡ true → IsFileEnd item)) }
    {
        if let Some(error) = self.error {
            return Err(error);
        }
        if let Some(item) = self.end_given() {
            return Ok(item);
        }
        match self.cursor.advance(shelf) {
            Ok(item) => {
                self.last = Some(item);
                Ok(item)
            }
            Err(error) => {
                self.error = Some(error);
                Err(error)
            }
        }
    }

    /// The end of the file, once it was given.
    fn end_given(&self) -> Option<Item>
        ensures { result ≡ (if self.now.before.closed then self.now.last else None) }
    {
        if self.cursor.state.closed {
            self.last
        } else {
            None
        }
    }

    /// Hands out the frame that has ended, with its end record, and keeps `empty` for the next one. Until the
    /// next call of `next`, `segment` gives the empty one, `numbering` gives None and `body` is empty. Takes
    /// no memory.
    pub fn lift(&mut self, empty: Segment) -> Segment
        requires error { self.old.error ≡ None }
        requires last { (item : Item) → self.old.last ≡ Some item → IsFrameEnd item }
        requires ended { IsSome self.old.numbering }
        requires empty { Becomes empty (nothing_in self.old.order) }
        ensures lifted { result ≡ self.old.segment }
        ensures order { result.order ≡ self.old.order }
        ensures rest { self.new ≡ record self.old { segment = empty; numbering = None; body = [] } }
    {
        self.cursor.state.numbering.forget();
        replace(&mut self.cursor.state.segment, empty)
    }

    /// The byte order of the file's numbers.
    pub fn order(&self) -> Order
        ensures { result ≡ self.now.order }
    {
        self.cursor.state.order()
    }

    /// The dictionary after the last item.
    pub fn dictionary(&self) -> &Dictionary
        ensures { result.now ≡ self.now.before.dictionary }
    {
        self.cursor.state.dictionary.dictionary()
    }

    /// The plans of the dictionary's entries: a class has one where it is held and its layout is readable.
    pub fn plans(&self) -> &Plans
        ensures { self.now.error ≡ None → (class : ℕ)
            → plan_of result.now class ≡ layout_in self.now.before.dictionary class }
    {
        &self.cursor.state.plans
    }

    /// The place reached, in bytes from the beginning of the file.
    pub fn place(&self) -> u64
        ensures { result ≡ self.now.before.place }
    {
        self.cursor.state.at
    }

    /// The frames that have ended.
    pub fn frames(&self) -> u64
        ensures { result ≡ self.now.before.frames }
    {
        self.cursor.state.frames
    }

    /// The records of all frames up to here, end records among them.
    pub fn records(&self) -> u64
        ensures { result ≡ self.now.before.records }
    {
        self.cursor.state.records
    }

    /// The frame: after its end record the whole of it, until the next call of `next`; else as far as it is
    /// read. Each body reads by the plan of its class.
    pub fn segment(&self) -> &Segment
        ensures segment { result.now ≡ self.now.segment }
        ensures order { result.now.order ≡ self.now.order }
        ensures bodies { self.now.error ≡ None → (plans : Layouts)
            → ((class : ℕ) → plan_of plans class ≡ layout_in self.now.before.dictionary class)
            → All (ReadsBy plans result.now.order) result.now.nodes }
    {
        &self.cursor.state.segment
    }

    /// The breadth-first order of the frame that the last item has ended. None after any other item, and once
    /// the frame was lifted.
    pub fn numbering(&self) -> Option<&Numbering>
        ensures { option_copied result ≡ self.now.numbering }
    {
        self.cursor.state.numbering.numbering()
    }

    /// The body of the last structure. Empty before the first item, after an entry, after a contents table
    /// whose layout is not readable, and after the frame was lifted. A record's is that of its node.
    pub fn body(&self) -> &[u8]
        ensures body { result.now ≡ self.now.body }
        ensures node { (at class instance node : ℕ) → self.now.last ≡ Some (Item.Plain at class instance node)
            → IfSome (slice_get self.now.segment.nodes node) (λ r. r.body ≡ result.now) }
    {
        match self.last {
            Some(Item::Plain { node, .. }) if node < self.cursor.state.segment.len() => {
                self.cursor.state.segment.body(node)
            }
            Some(Item::FrameEnd { .. }) => self.cursor.state.segment.end_body(),
            Some(Item::Table { .. } | Item::FileEnd { .. }) => self.cursor.own.as_slice(),
            _ => &[],
        }
    }

    /// The entry that the last item is, as it was read, with its own texts and comments: also one that was
    /// repeated, or is of class 1 or 2. None before the first item, and after any item that is no entry. Takes
    /// no memory.
    pub fn entry(&self) -> Option<&Entry>
        ensures entry { option_copied result ≡ self.now.entry }
        ensures kind { self.now.error ≡ None → (IsSome result ↔ IsSomeAnd self.now.last IsEntry) }
    {
        match self.last {
            Some(
                Item::Entry {
                    class,
                    changed: true,
                    ..
                },
            ) => held(&self.cursor.state.dictionary, class),
            Some(Item::Entry { .. }) => self.cursor.kept.as_ref(),
            _ => None,
        }
    }

    /// The instance of the last item's structure. 0 before the first item, and after an entry.
    pub fn instance(&self) -> u32
        ensures { result ≡ self.now.instance }
    {
        self.cursor.instance
    }
}
