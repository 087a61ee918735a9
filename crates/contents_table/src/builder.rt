//! What a contents table is built from: the places of the frames, and the names and places of their channels.

ghost use Rattle.std.specs.Prelude.{◌≡◌, ◌≢◌, ◌<◌, ◌≤◌, [], List, All, Contains, OnOk, OnErr, length};
ghost use Rattle.std.specs.Prelude.{Some, option_map, slice_get};
ghost use Rattle.dictionary.specs.declared.entries.Entry.{Entry};
ghost use Rattle.link_graph.specs.Graph.{Layouts, ReadsBy};
ghost use Rattle.frame_content.specs.Frames.{frame_of};
ghost use Rattle.contents_table.specs.Built.{nothing_built, with_frame, with_channel, with_channels};
ghost use Rattle.contents_table.specs.Built.{with_frame_of, with_frame_at, with_record, listed_of};
ghost use Rattle.contents_table.specs.Built.{place_of, places_in};
ghost use Rattle.contents_table.specs.Built.{AreNames};
ghost use Rattle.contents_table.specs.Channels.{header_of, channels};
ghost use Rattle.contents_table.specs.Layouts.{AreOf};

use crate::channel_lists::{channel_name, channels, header};
use crate::kind::Kind;
use crate::layouts::ChannelLayouts;
use crate::names::{Found, Names};
use crate::places::Places;
use layout_plan::Plans;
use link_graph::Segment;
use std::alloc::{AllocError, Global};
use std::marker::Model;

/// The places of frames, and by kind the names of their channels in the order in which they first came, with
/// the place of the first channel of each name in each frame.
///
/// It keeps each name twice, 8 bytes for each frame and 16 for each channel.
#[derive(Drop)]
pub struct TableBuilder {
    pub(crate) alloc: Global,
    /// The place of each frame's FrameH, in bytes from the beginning of the file.
    pub(crate) heads: Vec<u64>,
    adc: Names,
    proc: Names,
    sim: Names,
    ser: Names,
}

impl Model for TableBuilder {
    ghost use Rattle.std.specs.Prelude.{length};
    ghost use Rattle.contents_table.specs.Built.{Built, AreNames};

    ghost Value = { Built };

    ghost view = { λ b. record {
      heads = b.heads.items;
      adc = b.adc;
      proc = b.proc;
      sim = b.sim;
      ser = b.ser;
    } };

    ghost invariant = { λ b. AreNames (length b.heads.items) b.adc × AreNames (length b.heads.items) b.proc
        × AreNames (length b.heads.items) b.sim × AreNames (length b.heads.items) b.ser };
}

impl TableBuilder {
    /// No frame. It takes no memory yet.
    pub fn new(alloc: Global) -> TableBuilder
        ensures { result ≡ nothing_built }
    {
        TableBuilder {
            alloc,
            heads: Vec::new(alloc),
            adc: Names::new(alloc),
            proc: Names::new(alloc),
            sim: Names::new(alloc),
            ser: Names::new(alloc),
        }
    }

    /// Adds a frame whose FrameH stands at this place, in bytes from the beginning of the file. After a
    /// refusal nothing has changed.
    pub fn add_frame(&mut self, at: u64) -> Result<(), AllocError>
        ensures ok { OnOk result (self.new ≡ with_frame at self.old) }
        ensures err { OnErr result (self.new ≡ self.old) }
    {
        self.heads.push(at)?;
        Ok(())
    }

    /// Adds a channel of the frame that was added last; there is one. The name has at most 65,534 bytes. A
    /// name that the frame has already changes nothing. After a refusal nothing has changed.
    pub fn add_channel(&mut self, kind: Kind, name: &[u8], at: u64) -> Result<(), AllocError>
        requires frame { self.old.heads ≢ [] }
        requires short { length name.now ≤ 65534 }
        ensures ok { OnOk result (self.new ≡ with_channel kind name.now at self.old) }
        ensures err { OnErr result (self.new ≡ self.old) }
    {
        let alloc = self.alloc;
        let frame = self.heads.len() as u64 - 1;
        let found = Found { frame, at };
        match kind {
            Kind::Adc => self.adc.add(alloc, name, found),
            Kind::Proc => self.proc.add(alloc, name, found),
            Kind::Sim => self.sim.add(alloc, name, found),
            Kind::Ser => self.ser.add(alloc, name, found),
        }
    }

    /// Adds the frame of a segment, with the channels of all kinds where they stand in its file; its place is
    /// that of its FrameH, or 0 where it has none. Every body reads by the plans. What is added is what the
    /// definition says where the plans and the layouts are those of one dictionary. After a refusal a part of
    /// the frame may have been added.
    pub fn add_segment(
        &mut self,
        segment: &Segment,
        plans: &Plans,
        layouts: &ChannelLayouts,
    ) -> Result<(), AllocError>
        requires bodies { All (ReadsBy plans.now segment.now.order) segment.now.nodes }
        ensures { OnOk result ((held : List Entry) → AreOf held plans.now layouts.now
            → self.new ≡ with_frame_of segment.now.nodes (frame_of held segment.now) self.old) }
    {
        self.add_frame_with_channels(segment, plans, layouts, Places::OfSource)
    }

    /// Adds the frame of a segment as `add_segment` does, with its records at these places, by their numbers,
    /// in bytes from the beginning of the file that is written: 0 for a record that is not written, and for
    /// those behind the last place.
    pub fn add_segment_at(
        &mut self,
        segment: &Segment,
        plans: &Plans,
        layouts: &ChannelLayouts,
        places: &[u64],
    ) -> Result<(), AllocError>
        requires bodies { All (ReadsBy plans.now segment.now.order) segment.now.nodes }
        ensures { OnOk result ((held : List Entry) → AreOf held plans.now layouts.now
            → self.new ≡ with_frame_at places.now (frame_of held segment.now) self.old) }
    {
        self.add_frame_with_channels(segment, plans, layouts, Places::At(places))
    }

    /// Adds the frame of a segment whose records stand at these places, with the channels of all kinds.
    fn add_frame_with_channels(
        &mut self,
        segment: &Segment,
        plans: &Plans,
        layouts: &ChannelLayouts,
        places: Places<'_>,
    ) -> Result<(), AllocError>
        requires bodies { All (ReadsBy plans.now segment.now.order) segment.now.nodes }
        ensures { OnOk result ((held : List Entry) → AreOf held plans.now layouts.now
            → self.new
            ≡ with_frame_at (places_in segment.now.nodes places.entry) (frame_of held segment.now)
            self.old) }
    {
        let at = header_place(segment, layouts, places).unwrap_or(0);
        self.add_frame(at)?;
        self.add_channels(segment, plans, layouts, places, Kind::Adc)?;
        self.add_channels(segment, plans, layouts, places, Kind::Proc)?;
        self.add_channels(segment, plans, layouts, places, Kind::Sim)?;
        self.add_channels(segment, plans, layouts, places, Kind::Ser)
    }

    /// Adds the channels of a kind to the frame that was added last.
    fn add_channels(
        &mut self,
        segment: &Segment,
        plans: &Plans,
        layouts: &ChannelLayouts,
        places: Places<'_>,
        kind: Kind,
    ) -> Result<(), AllocError>
        requires bodies { All (ReadsBy plans.now segment.now.order) segment.now.nodes }
        requires frame { self.old.heads ≢ [] }
        ensures frame { self.new.heads ≡ self.old.heads }
        ensures ok { OnOk result ((held : List Entry) → AreOf held plans.now layouts.now
            → self.new
            ≡ with_channels (places_in segment.now.nodes places.entry) (frame_of held segment.now)
            self.old kind) }
    {
        let nodes = channels(self.alloc, segment, plans, layouts, kind)?;
        for node in nodes.as_slice() {
            self.add_record(segment, plans, layouts, places, kind, *node)?;
        }
        Ok(())
    }

    /// Adds one of the channels of a kind, where it has a name, to the frame that was added last.
    fn add_record(
        &mut self,
        segment: &Segment,
        plans: &Plans,
        layouts: &ChannelLayouts,
        places: Places<'_>,
        kind: Kind,
        node: u32,
    ) -> Result<(), AllocError>
        requires node { node < length segment.now.nodes }
        requires bodies { All (ReadsBy plans.now segment.now.order) segment.now.nodes }
        requires frame { self.old.heads ≢ [] }
        ensures frame { self.new.heads ≡ self.old.heads }
        ensures ok { OnOk result ((held : List Entry) → AreOf held plans.now layouts.now
            → Contains (channels (frame_of held segment.now) kind) node
            → self.new
            ≡ with_record (places_in segment.now.nodes places.entry) (frame_of held segment.now) kind
            self.old node) }
    {
        match channel_name(segment, plans, layouts, kind, node) {
            Some(name) => self.add_channel(kind, name, places.of(segment, node)),
            None => Ok(()),
        }
    }

    /// How many names of a kind there are. Takes no memory.
    pub fn count(&self, kind: Kind) -> usize
        ensures { result ≡ length (listed_of self.now kind) }
    {
        self.names(kind).len()
    }

    /// The name of number k of a kind, from 0 in the order in which the names first came. There are more than
    /// k. Takes no memory.
    pub fn name(&self, kind: Kind, k: usize) -> &[u8]
        requires { k < length (listed_of self.now kind) }
        ensures { option_map (λ listed. listed.name) (slice_get (listed_of self.now kind) k)
            ≡ Some result.now }
    {
        self.names(kind).listed(k).name.bytes()
    }

    /// How many frames have a channel of that name. Takes no memory.
    pub fn frames_with(&self, kind: Kind, k: usize) -> u64
        requires { k < length (listed_of self.now kind) }
        ensures { option_map (λ listed. length listed.found) (slice_get (listed_of self.now kind) k)
            ≡ Some result }
    {
        self.names(kind).listed(k).found.len() as u64
    }

    /// The names of a kind.
    pub(crate) fn names(&self, kind: Kind) -> &Names
        ensures names { result.now ≡ listed_of self.now kind }
        ensures kept { AreNames (length self.now.heads) result.now }
    {
        match kind {
            Kind::Adc => &self.adc,
            Kind::Proc => &self.proc,
            Kind::Sim => &self.sim,
            Kind::Ser => &self.ser,
        }
    }
}

/// The place of the record that describes the whole frame.
fn header_place(segment: &Segment, layouts: &ChannelLayouts, places: Places<'_>) -> Option<u64>
    ensures { (held : List Entry) (plans : Layouts) → AreOf held plans layouts.now
        → All (ReadsBy plans segment.now.order) segment.now.nodes
        → result
        ≡ option_map (place_of (places_in segment.now.nodes places.entry))
        (header_of (frame_of held segment.now)) }
{
    let node = header(segment, layouts.frame_header?)?;
    Some(places.of(segment, node))
}
