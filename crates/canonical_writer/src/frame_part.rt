//! The part of a frame: its records in their order, and then its end record, each class with its entry before its first
//! use.

ghost use Rattle.std.specs.Prelude.{◌≡◌, ◌⊎◌, ◌<◌, ◌≤◌, ◌+◌, ℕ, [], All, Some, Err, IfSome, IsErrOf, OnOk, OnErr};
ghost use Rattle.std.specs.Prelude.{length, slice_set, true};
ghost use Rattle.std.specs.Option.{option_copied};
ghost use Rattle.dictionary.specs.declared.entries.Entry.{Entry};
ghost use Rattle.dictionary.specs.Dictionary.{IsDictionary, entry_of};
ghost use Rattle.link_graph.specs.Graph.{ReadsBy};
ghost use Rattle.file_grammar.specs.Structure.{file_limit};
ghost use Rattle.frame_content.specs.Labels.{printed_entry};
ghost use Rattle.canonical_file.specs.Ranges.{AreBytes};
ghost use Rattle.canonical_file.specs.Splices.{clashes, clash_of, entries_used};
ghost use Rattle.canonical_writer.specs.Writer.{none_met};
ghost use Rattle.canonical_writer.specs.Parts.{IsReady, IsShortEntry, IsUsableClosing};
ghost use Rattle.canonical_writer.specs.Filled.{frame_of, IsSource, IsFilled, IsPlacedAt, Uses, UsesRecord};
ghost use Rattle.canonical_writer.specs.Filled.{record_at, last_record, place_after};

use crate::errors::WriteError;
use crate::instances::NewLinks;
use crate::records::LinkRoom;
use crate::used::UsedEntries;
use canonical_file::Closing;
use dictionary::Dictionary;
use layout_plan::{Plans, measure};
use link_graph::Segment;
use std::alloc::Global;

/// A frame to be written: its records with their plans and entries, and their order.
#[derive(Clone, Copy)]
pub struct FrameSource<'a> {
    pub segment: &'a Segment,
    pub plans: &'a Plans,
    pub dictionary: &'a Dictionary,
    pub order: &'a [u32],
}

/// What is needed beside the entries used to write a frame's part, kept from frame to frame.
#[derive(Drop)]
pub struct FramePart {
    alloc: Global,
    /// The bytes of the part.
    pub bytes: Vec<u8>,
    /// Where each record is written, by its number in the frame, in bytes from the beginning of the file; 0 for one
    /// that is not.
    pub places: Vec<u64>,
    /// The classes of which an entry was used for the same source.
    met: [bool; 256],
    links: NewLinks,
    room: LinkRoom,
}

impl FramePart {
    pub fn new(alloc: Global) -> FramePart
        ensures { result.met ≡ none_met }
    {
        FramePart {
            alloc,
            bytes: Vec::new(alloc),
            places: Vec::new(alloc),
            met: [false; 256],
            links: NewLinks::new(alloc),
            room: LinkRoom::new(alloc),
        }
    }

    /// Forgets which classes were met: the next frame may be of another dictionary.
    pub fn begin_source(&mut self)
        ensures { self.new ≡ record self.old { met = none_met } }
    {
        self.met = [false; 256];
    }

    /// Makes this the part of a frame, from this place on.
    pub fn fill(
        &mut self,
        at: u64,
        used: &mut UsedEntries,
        closing: Option<&Closing>,
        frame: &FrameSource<'_>,
    ) -> Result<(), WriteError>
        requires at { at ≤ file_limit }
        requires closing { IfSome closing (λ c. IsUsableClosing c.now) }
        requires bodies { All (ReadsBy frame.now.plans.now frame.now.segment.now.order)
            frame.now.segment.now.nodes }
        ensures filled { OnOk result (IsSource frame.now
            → IsReady self.old.met (option_copied closing.entry) used.old frame.now.dictionary.now
            → IsFilled at (option_copied closing.entry) used.old used.new frame.now self.new) }
        ensures clash { (class : ℕ) → result ≡ Err (WriteError.Clash class) → IsSource frame.now
            → IsReady self.old.met (option_copied closing.entry) used.old frame.now.dictionary.now
            → clash_of (option_copied closing.entry) used.old (frame_of frame.now) ≡ Some class }
        ensures errors { OnErr result (IsErrOf result WriteError.NoMemory
            ⊎ ((class : ℕ) × (result ≡ Err (WriteError.Clash class)))) }
    {
        self.bytes.clear();
        self.places.clear();
        self.places.resize(frame.segment.len() as usize, 0)?;
        self.links.number(frame.segment, frame.order)?;
        for node in frame.order {
            if *node < frame.segment.len() {
                self.push_record(at, used, closing, frame, *node)?;
            }
        }
        self.push_end(used, closing, frame)
    }

    fn push_record(
        &mut self,
        at: u64,
        used: &mut UsedEntries,
        closing: Option<&Closing>,
        frame: &FrameSource<'_>,
        node: u32,
    ) -> Result<(), WriteError>
        requires at { at ≤ file_limit }
        requires node { node < length frame.now.segment.now.nodes }
        requires closing { IfSome closing (λ c. IsUsableClosing c.now) }
        requires bodies { All (ReadsBy frame.now.plans.now frame.now.segment.now.order)
            frame.now.segment.now.nodes }
        ensures links { self.new.links ≡ self.old.links }
        ensures places { OnOk result ((k : ℕ) → IsPlacedAt frame.now self.old.links node k
            → IsReady self.old.met (option_copied closing.entry) used.old frame.now.dictionary.now
            → self.new.places.items ≡ slice_set self.old.places.items node
            (place_after at used.old (record_at frame.now k) self.old)) }
        ensures used { OnOk result ((k : ℕ) → IsPlacedAt frame.now self.old.links node k
            → IsReady self.old.met (option_copied closing.entry) used.old frame.now.dictionary.now
            → UsesRecord (option_copied closing.entry) used.old used.new frame.now.dictionary.now
            (record_at frame.now k) self.old self.new) }
        ensures clash { (class k : ℕ) → result ≡ Err (WriteError.Clash class)
            → IsPlacedAt frame.now self.old.links node k
            → IsReady self.old.met (option_copied closing.entry) used.old frame.now.dictionary.now
            → (class ≡ (record_at frame.now k).entry.class)
            × (clashes (entries_used used.old (option_copied closing.entry))
            (record_at frame.now k).entry ≡ true) }
        ensures errors { OnErr result (IsErrOf result WriteError.NoMemory
            ⊎ ((class : ℕ) × (result ≡ Err (WriteError.Clash class)))) }
    {
        let class = frame.segment.node(node).class;
        self.push_entry(used, closing, frame.dictionary, class)?;
        self.note_place(at, node);
        let Some(plan) = frame.plans.plan(class) else {
            unreachable!();
        };
        self.room
            .push_record(frame.segment, plan, node, &self.links, &mut self.bytes)?;
        are_bytes(self.bytes.as_slice());
        Ok(())
    }

    /// Notes that a record stands after the bytes so far.
    fn note_place(&mut self, at: u64, node: u32)
        requires { at ≤ file_limit }
        ensures place { self.new.places.items
            ≡ slice_set self.old.places.items node (at + length self.old.bytes.items) }
        ensures kept { (self.new.bytes ≡ self.old.bytes) × (self.new.met ≡ self.old.met)
            × (self.new.links ≡ self.old.links) }
    {
        let place = at.saturating_add(self.bytes.len() as u64);
        if let Some(noted) = self.places.get_mut(node as usize) {
            *noted = place;
        }
    }

    fn push_end(
        &mut self,
        used: &mut UsedEntries,
        closing: Option<&Closing>,
        frame: &FrameSource<'_>,
    ) -> Result<(), WriteError>
        requires closing { IfSome closing (λ c. IsUsableClosing c.now) }
        ensures places { self.new.places ≡ self.old.places }
        ensures used { OnOk result (IsSource frame.now
            → IsReady self.old.met (option_copied closing.entry) used.old frame.now.dictionary.now
            → UsesRecord (option_copied closing.entry) used.old used.new frame.now.dictionary.now
            (last_record frame.now) self.old self.new) }
        ensures clash { (class : ℕ) → result ≡ Err (WriteError.Clash class) → IsSource frame.now
            → IsReady self.old.met (option_copied closing.entry) used.old frame.now.dictionary.now
            → (class ≡ (last_record frame.now).entry.class)
            × (clashes (entries_used used.old (option_copied closing.entry))
            (last_record frame.now).entry ≡ true) }
        ensures errors { OnErr result (IsErrOf result WriteError.NoMemory
            ⊎ ((class : ℕ) × (result ≡ Err (WriteError.Clash class)))) }
    {
        let Some(node) = frame.segment.end_node() else {
            return Ok(());
        };
        self.push_entry(used, closing, frame.dictionary, node.class)?;
        let Some(plan) = frame.plans.plan(node.class) else {
            return Ok(());
        };
        let order = frame.segment.order();
        let body = frame.segment.end_body();
        if measure(plan, order, body).is_err() {
            return Ok(());
        }
        self.room
            .push_end(plan, order, node.class, body, &mut self.bytes)?;
        are_bytes(self.bytes.as_slice());
        Ok(())
    }

    /// Appends the entry of a class, where none of it stands yet.
    fn push_entry(
        &mut self,
        used: &mut UsedEntries,
        closing: Option<&Closing>,
        dictionary: &Dictionary,
        class: u8,
    ) -> Result<(), WriteError>
        requires closing { IfSome closing (λ c. IsUsableClosing c.now) }
        ensures kept { (self.new.places ≡ self.old.places) × (self.new.links ≡ self.old.links) }
        ensures used { OnOk result (IsDictionary dictionary.now → (e : Entry)
            → entry_of dictionary.now class ≡ Some e → IsShortEntry e
            → IsReady self.old.met (option_copied closing.entry) used.old dictionary.now
            → Uses (option_copied closing.entry) used.old used.new dictionary.now (printed_entry e) []
            self.old self.new) }
        ensures clash { (other : ℕ) (e : Entry) → result ≡ Err (WriteError.Clash other)
            → entry_of dictionary.now class ≡ Some e
            → IsReady self.old.met (option_copied closing.entry) used.old dictionary.now
            → (other ≡ e.class)
            × (clashes (entries_used used.old (option_copied closing.entry)) (printed_entry e) ≡ true) }
        ensures errors { OnErr result (IsErrOf result WriteError.NoMemory
            ⊎ ((other : ℕ) × (result ≡ Err (WriteError.Clash other)))) }
    {
        if self.met[class as usize] {
            return Ok(());
        }
        if let Some(entry) = dictionary.get(class) {
            used.push(self.alloc, closing, class, entry, &mut self.bytes)?;
            self.met[class as usize] = true;
        }
        Ok(())
    }
}

/// The items of a slice of bytes are bytes. It is for proofs, and does nothing.
pub fn are_bytes(bytes: &[u8])
    ensures { AreBytes bytes.now }
{}
