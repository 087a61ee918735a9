//! Frames of two files compared record by record, each record as it would be written. Records with one body need not be
//! written for that: they differ at most in where their links lead.

ghost use Rattle.std.specs.Prelude.{◌≡◌, ◌↔◌, ◌<◌, ℕ, All, IfOk, IfSome, IsTrue, OnOk, length, map, slice_get};
ghost use Rattle.link_graph.specs.Graph.{ReadsBy, links_of};
ghost use Rattle.dictionary.specs.Same.{AreRead};
ghost use Rattle.frame_content.specs.Labels.{printed_entry};
ghost use Rattle.canonical_writer.specs.Alike.{AreAlike, HaveOneBody, HaveOneEnd, HaveOneEntry, AreWrittenAlike};
ghost use Rattle.canonical_writer.specs.Alike.{IsWrittenAs, RecordsAreAlike};
ghost use Rattle.canonical_writer.specs.Filled.{frame_of, IsSource, IsPlacedAt, record_at, last_record};
ghost use Rattle.canonical_writer.specs.NewLinks.{LeadAlike};
ghost use Rattle.canonical_writer.specs.Parts.{IsUsableClosing, printed_closing};
ghost use Rattle.canonical_writer.specs.StandingAlike.{RowsAreAlike, StandAlike};
ghost use Rattle.canonical_writer.specs.Writer.{none_met};

use crate::frame_part::{FrameSource, are_bytes};
use crate::instances::NewLinks;
use crate::records::LinkRoom;
use crate::same_records::stand_alike;
use canonical_file::Closing;
use dictionary::{Dictionary, Element, Entry, same_entry};
use layout_plan::measure;
use link_graph::Segment;
use std::alloc::{AllocError, Global};
use std::marker::Model;

/// Tells whether frames of two files are the same but for their roots: they have the same records in their orders, with
/// equal labels and links, and end records with equal labels.
#[derive(Drop)]
pub struct FrameComparer {
    comparison: Comparison,
}

impl Model for FrameComparer {
    ghost use Rattle.std.specs.Prelude.{Bool, List};

    ghost Value = { List Bool };

    ghost view = { λ c. c.comparison.met };
}

impl FrameComparer {
    pub fn new(alloc: Global) -> FrameComparer
        ensures { result ≡ none_met }
    {
        FrameComparer {
            comparison: Comparison {
                met: [false; 256],
                first: RecordRoom::new(alloc),
                second: RecordRoom::new(alloc),
            },
        }
    }

    /// Whether the frames are written alike. The first is always one of the same file, and so is the second.
    pub fn are_same(
        &mut self,
        first: &FrameSource<'_>,
        second: &FrameSource<'_>,
    ) -> Result<bool, AllocError>
        requires first { All (ReadsBy first.now.plans.now first.now.segment.now.order)
            first.now.segment.now.nodes }
        requires second { All (ReadsBy second.now.plans.now second.now.segment.now.order)
            second.now.segment.now.nodes }
        ensures same { IfOk result (λ same. IsSource first.now → IsSource second.now
            → AreAlike self.old first.now.dictionary.now second.now.dictionary.now
            → IsTrue same ↔ AreWrittenAlike (frame_of first.now) (frame_of second.now)) }
        ensures alike { AreAlike self.old first.now.dictionary.now second.now.dictionary.now
            → AreAlike self.new first.now.dictionary.now second.now.dictionary.now }
    {
        if first.order.len() != second.order.len() {
            return Ok(false);
        }
        if !self.comparison.have_same_rows(first, second)? {
            return Ok(false);
        }
        self.comparison.are_same_ends(first, second)
    }
}

/// What is kept from frame to frame while those of two files are compared.
#[derive(Drop)]
struct Comparison {
    /// The classes of which both files were found to have the same entry.
    met: [bool; 256],
    first: RecordRoom,
    second: RecordRoom,
}

impl Comparison {
    /// Whether the records of two frames have the same entries, and are written as the same bytes.
    fn have_same_rows(
        &mut self,
        first: &FrameSource<'_>,
        second: &FrameSource<'_>,
    ) -> Result<bool, AllocError>
        requires size { length first.now.order.now ≡ length second.now.order.now }
        requires first { All (ReadsBy first.now.plans.now first.now.segment.now.order)
            first.now.segment.now.nodes }
        requires second { All (ReadsBy second.now.plans.now second.now.segment.now.order)
            second.now.segment.now.nodes }
        ensures same { IfOk result (λ same. IsSource first.now → IsSource second.now
            → AreAlike self.old.met first.now.dictionary.now second.now.dictionary.now
            → IsTrue same ↔ RowsAreAlike first.now second.now) }
        ensures alike { AreAlike self.old.met first.now.dictionary.now second.now.dictionary.now
            → AreAlike self.new.met first.now.dictionary.now second.now.dictionary.now }
    {
        if stand_alike(first, second) {
            return Ok(self.have_same_entries(first, second));
        }
        self.have_same_records(first, second)
    }

    /// Whether the records of frames that stand alike have the same entries.
    fn have_same_entries(&mut self, first: &FrameSource<'_>, second: &FrameSource<'_>) -> bool
        requires { StandAlike first.now second.now }
        ensures same { IsSource first.now → IsSource second.now
            → AreAlike self.old.met first.now.dictionary.now second.now.dictionary.now
            → IsTrue result ↔ RowsAreAlike first.now second.now }
        ensures alike { AreAlike self.old.met first.now.dictionary.now second.now.dictionary.now
            → AreAlike self.new.met first.now.dictionary.now second.now.dictionary.now }
    {
        for node in first.order {
            if first.segment.len() <= *node {
                return false;
            }
            let class = first.segment.node(*node).class;
            if !self.have_one_entry(first.dictionary, second.dictionary, class) {
                return false;
            }
        }
        true
    }

    /// The same, where every record of both frames is looked at.
    fn have_same_records(
        &mut self,
        first: &FrameSource<'_>,
        second: &FrameSource<'_>,
    ) -> Result<bool, AllocError>
        requires size { length first.now.order.now ≡ length second.now.order.now }
        requires first { All (ReadsBy first.now.plans.now first.now.segment.now.order)
            first.now.segment.now.nodes }
        requires second { All (ReadsBy second.now.plans.now second.now.segment.now.order)
            second.now.segment.now.nodes }
        ensures same { IfOk result (λ same. IsSource first.now → IsSource second.now
            → AreAlike self.old.met first.now.dictionary.now second.now.dictionary.now
            → IsTrue same ↔ RowsAreAlike first.now second.now) }
        ensures alike { AreAlike self.old.met first.now.dictionary.now second.now.dictionary.now
            → AreAlike self.new.met first.now.dictionary.now second.now.dictionary.now }
    {
        self.first.links.number(first.segment, first.order)?;
        self.second.links.number(second.segment, second.order)?;
        for (k, node) in first.order.iter().enumerate() {
            if !self.are_same_records(first, *node, second, second.order[k])? {
                return Ok(false);
            }
        }
        Ok(true)
    }

    /// Whether the records of two numbers have the same entry, and are written as the same bytes.
    fn are_same_records(
        &mut self,
        first: &FrameSource<'_>,
        node: u32,
        second: &FrameSource<'_>,
        other: u32,
    ) -> Result<bool, AllocError>
        requires first { All (ReadsBy first.now.plans.now first.now.segment.now.order)
            first.now.segment.now.nodes }
        requires second { All (ReadsBy second.now.plans.now second.now.segment.now.order)
            second.now.segment.now.nodes }
        ensures links { (self.new.first.links ≡ self.old.first.links)
            × (self.new.second.links ≡ self.old.second.links) }
        ensures same { IfOk result (λ same. (k : ℕ) → IsPlacedAt first.now self.old.first.links node k
            → IsPlacedAt second.now self.old.second.links other k
            → AreAlike self.old.met first.now.dictionary.now second.now.dictionary.now
            → IsTrue same ↔ RecordsAreAlike (record_at first.now k) (record_at second.now k)) }
        ensures alike { AreAlike self.old.met first.now.dictionary.now second.now.dictionary.now
            → AreAlike self.new.met first.now.dictionary.now second.now.dictionary.now }
    {
        if first.segment.len() <= node || second.segment.len() <= other {
            return Ok(false);
        }
        let class = first.segment.node(node).class;
        if class != second.segment.node(other).class {
            return Ok(false);
        }
        if !self.have_one_entry(first.dictionary, second.dictionary, class) {
            return Ok(false);
        }
        if self.have_one_body(first.segment, node, second.segment, other) {
            return self.lead_alike(first, node, second.segment);
        }
        self.first.write(first, node)?;
        self.second.write(second, other)?;
        Ok(self.first.bytes.as_slice() == self.second.bytes.as_slice())
    }

    /// Whether the end records have the same entry, and are written as the same bytes.
    fn are_same_ends(
        &mut self,
        first: &FrameSource<'_>,
        second: &FrameSource<'_>,
    ) -> Result<bool, AllocError>
        ensures same { IfOk result (λ same. IsSource first.now → IsSource second.now
            → AreAlike self.old.met first.now.dictionary.now second.now.dictionary.now
            → IsTrue same ↔ RecordsAreAlike (last_record first.now) (last_record second.now)) }
        ensures alike { AreAlike self.old.met first.now.dictionary.now second.now.dictionary.now
            → AreAlike self.new.met first.now.dictionary.now second.now.dictionary.now }
    {
        let (Some(node), Some(other)) = (first.segment.end_node(), second.segment.end_node()) else {
            return Ok(false);
        };
        let class = node.class;
        if class != other.class {
            return Ok(false);
        }
        if !self.have_one_entry(first.dictionary, second.dictionary, class) {
            return Ok(false);
        }
        if have_one_end(first.segment, second.segment) {
            return Ok(true);
        }
        self.first.write_end(first, class)?;
        self.second.write_end(second, class)?;
        Ok(self.first.bytes.as_slice() == self.second.bytes.as_slice())
    }

    /// Whether the records of two numbers have the same body, in one byte order, and are written with the same
    /// instance: by one entry they hold the same then, but for where their links lead.
    fn have_one_body(&self, first: &Segment, node: u32, second: &Segment, other: u32) -> bool
        requires node { node < length first.now.nodes }
        requires other { other < length second.now.nodes }
        ensures { IsTrue result
            ↔ HaveOneBody first.now self.now.first.links node second.now self.now.second.links other }
    {
        first.order() == second.order()
            && self.first.links.link_of(node).instance == self.second.links.link_of(other).instance
            && first.body(node) == second.body(other)
    }

    /// Whether the links of the record of a number, if they were read in the second frame too, are written alike.
    fn lead_alike(
        &mut self,
        first: &FrameSource<'_>,
        node: u32,
        second: &Segment,
    ) -> Result<bool, AllocError>
        requires node { node < length first.now.segment.now.nodes }
        requires bodies { All (ReadsBy first.now.plans.now first.now.segment.now.order)
            first.now.segment.now.nodes }
        ensures links { (self.new.first.links ≡ self.old.first.links)
            × (self.new.second.links ≡ self.old.second.links) }
        ensures met { self.new.met ≡ self.old.met }
        ensures same { IfOk result (λ same. IfSome (slice_get first.now.segment.now.nodes node) (λ r. IsTrue same
            ↔ LeadAlike first.now.segment.now.nodes self.old.first.links second.now.nodes self.old.second.links
            (links_of first.now.plans.now first.now.segment.now.order r))) }
    {
        let class = first.segment.node(node).class;
        let Some(plan) = first.plans.plan(class) else {
            unreachable!();
        };
        let body = first.segment.body(node);
        self.first
            .room
            .read_links(plan, first.segment.order(), body)?;
        Ok(
            self.first.links.lead_alike(
                first.segment,
                &self.second.links,
                second,
                self.first.room.read.as_slice(),
            ),
        )
    }

    /// Whether both dictionaries have one entry of the class, as it is written.
    fn have_one_entry(&mut self, first: &Dictionary, second: &Dictionary, class: u8) -> bool
        ensures one { AreAlike self.old.met first.now second.now
            → IsTrue result ↔ HaveOneEntry first.now second.now class }
        ensures alike { AreAlike self.old.met first.now second.now → AreAlike self.new.met first.now second.now }
        ensures rooms { (self.new.first ≡ self.old.first) × (self.new.second ≡ self.old.second) }
    {
        if self.met[class as usize] {
            return true;
        }
        match (first.get(class), second.get(class)) {
            (Some(entry), Some(other)) if are_alike(entry, other) => {
                self.met[class as usize] = true;
                true
            }
            _ => false,
        }
    }
}

/// Room for the records of one frame, each as it is written.
#[derive(Drop)]
struct RecordRoom {
    links: NewLinks,
    room: LinkRoom,
    bytes: Vec<u8>,
}

impl RecordRoom {
    fn new(alloc: Global) -> RecordRoom {
        RecordRoom {
            links: NewLinks::new(alloc),
            room: LinkRoom::new(alloc),
            bytes: Vec::new(alloc),
        }
    }

    /// Writes the record of a number in place of what was written.
    fn write(&mut self, frame: &FrameSource<'_>, node: u32) -> Result<(), AllocError>
        requires node { node < length frame.now.segment.now.nodes }
        requires bodies { All (ReadsBy frame.now.plans.now frame.now.segment.now.order)
            frame.now.segment.now.nodes }
        ensures links { self.new.links ≡ self.old.links }
        ensures written { OnOk result ((k : ℕ) → IsPlacedAt frame.now self.old.links node k
            → IsWrittenAs (record_at frame.now k) self.new.bytes.items) }
    {
        let class = frame.segment.node(node).class;
        let Some(plan) = frame.plans.plan(class) else {
            unreachable!();
        };
        self.bytes.clear();
        self.room
            .push_record(frame.segment, plan, node, &self.links, &mut self.bytes)?;
        are_bytes(self.bytes.as_slice());
        Ok(())
    }

    /// Writes the end record, which is of this class, in place of what was written.
    fn write_end(&mut self, frame: &FrameSource<'_>, class: u8) -> Result<(), AllocError>
        requires { IfSome frame.now.segment.now.end_record (λ r. r.node.class ≡ class) }
        ensures links { self.new.links ≡ self.old.links }
        ensures written { OnOk result (IsSource frame.now
            → IsWrittenAs (last_record frame.now) self.new.bytes.items) }
    {
        self.bytes.clear();
        let Some(plan) = frame.plans.plan(class) else {
            return Ok(());
        };
        let order = frame.segment.order();
        let body = frame.segment.end_body();
        if measure(plan, order, body).is_err() {
            return Ok(());
        }
        self.room
            .push_end(plan, order, class, body, &mut self.bytes)?;
        are_bytes(self.bytes.as_slice());
        Ok(())
    }
}

/// Whether the end records have the same body, in one byte order: by one entry they hold the same then, but for their
/// links, which are written null.
fn have_one_end(first: &Segment, second: &Segment) -> bool
    ensures { IsTrue result ↔ HaveOneEnd first.now second.now }
{
    first.order() == second.order() && first.end_body() == second.end_body()
}

/// Whether two entries are written alike: they are the same, comments too.
fn are_alike(first: &Entry, second: &Entry) -> bool
    requires first { AreRead first.now.elements }
    requires second { AreRead second.now.elements }
    ensures { IsTrue result ↔ (printed_entry first.now ≡ printed_entry second.now) }
{
    same_entry(first, second)
        && first.comment.bytes() == second.comment.bytes()
        && have_same_comments(first.elements.as_slice(), second.elements.as_slice())
}

/// Whether the elements have the same comments, one by one.
fn have_same_comments(first: &[Element], second: &[Element]) -> bool
    ensures { IsTrue result ↔ (map (λ e. e.comment) first.now ≡ map (λ e. e.comment) second.now) }
{
    if first.len() != second.len() {
        return false;
    }
    for (k, element) in first.iter().enumerate() {
        if element.comment.bytes() != second[k].comment.bytes() {
            return false;
        }
    }
    true
}

/// Whether two closings are written alike.
pub fn are_closed_alike(first: &Closing, second: &Closing) -> bool
    requires first { IsUsableClosing first.now }
    requires second { IsUsableClosing second.now }
    ensures { IsTrue result ↔ (printed_closing first.now ≡ printed_closing second.now) }
{
    if !are_alike(&first.end, &second.end) {
        return false;
    }
    match (&first.table, &second.table) {
        (Some(table), Some(other)) => are_alike(table, other),
        (None, None) => true,
        _ => false,
    }
}
