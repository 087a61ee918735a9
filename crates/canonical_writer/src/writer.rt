//! The writer of a canonical file.

ghost use Rattle.std.specs.Prelude.{◌≡◌, ◌⊎◌, ℕ, List, All, None, Some, Ok, Err, IfOk, IfErr, IfSome, IsSome, OnOk};
ghost use Rattle.std.specs.Prelude.{OnErr};
ghost use Rattle.std.specs.Prelude.{IsErrOf};
ghost use Rattle.frame_outside.specs.Counts.{Rose};
ghost use Rattle.frame_outside.specs.Shelf.{IsTarget};
ghost use Rattle.link_graph.specs.Graph.{ReadsBy};
ghost use Rattle.contents_table.specs.Layouts.{AreOf};
ghost use Rattle.canonical_file.specs.Written.{frame_part, after_frame, closing_part};
ghost use Rattle.canonical_writer.specs.Parts.{CanBeWritten, IsReady, IsUsableClosing, IsShortClosing};
ghost use Rattle.canonical_writer.specs.Parts.{AreConsistent, frame_in_order, printed_closing};
ghost use Rattle.canonical_writer.specs.Writer.{fresh, none_met, BeginsFile, BeginsInPart, frame_due, closing_due};
ghost use Rattle.canonical_writer.specs.Writer.{IsAnswer, Puts, Stays};
ghost use Rattle.canonical_writer.specs.Filled.{frame_of, IsSource};

use crate::closing_part::FileSoFar;
use crate::entries::printed;
use crate::errors::WriteError;
use crate::frame_part::{FramePart, FrameSource};
use crate::used::UsedEntries;
use canonical_file::Closing;
use contents_table::{ChannelLayouts, TableBuilder};
use dictionary::Dictionary;
use file_grammar::{FILE_LIMIT, FRAMES_LIMIT};
use frame_head::{HEADER_SIZE, write_header};
use frame_outside::Shelf;
use layout_plan::Plans;
use link_graph::{Numbering, Segment};
use std::alloc::{AllocError, Global};
use std::marker::Model;

/// What was written: the frames and the bytes of the file.
#[derive(Clone, Copy, Debug, PartialEq, Eq)]
pub struct Summary {
    pub frames: u64,
    pub bytes: u64,
}

/// Writes the canonical file of frames that come one after another, through a target slot of a shelf.
#[derive(Drop)]
pub struct CanonWriter {
    alloc: Global,
    slot: u32,
    /// The bytes written.
    size: u64,
    frames: u64,
    used: UsedEntries,
    built: TableBuilder,
    closing: Option<Closing>,
    part: FramePart,
    error: Option<WriteError>,
}

impl Model for CanonWriter {
    ghost use Rattle.std.specs.Prelude.{◌≤◌, IfSome};
    ghost use Rattle.file_grammar.specs.Structure.{file_limit};
    ghost use Rattle.file_grammar.specs.MayStand.{frames_limit};
    ghost use Rattle.canonical_writer.specs.Parts.{IsUsableClosing};
    ghost use Rattle.canonical_writer.specs.Writer.{Writer};

    ghost Value = { Writer };

    ghost view = { λ w. record {
      slot = w.slot;
      written = record { size = w.size; entries = w.used; built = w.built; frames = w.frames };
      closing = w.closing;
      met = w.part.met;
      error = w.error;
    } };

    ghost invariant = { λ w. (w.size ≤ file_limit) × (w.frames ≤ frames_limit)
        × IfSome w.closing IsUsableClosing };
}

impl CanonWriter {
    /// Makes the file of a name, and writes its header.
    pub fn begin<S: Shelf>(
        alloc: Global,
        shelf: &mut S,
        name: &str,
    ) -> Result<CanonWriter, WriteError>
        ensures begun { IfOk result (λ w. w ≡ fresh w.slot) }
        ensures made { IfOk result
            (λ w. BeginsFile (S.outside shelf.old) (S.outside shelf.new) name.now w.slot) }
        ensures refused { OnErr result (Stays (S.outside shelf.old) (S.outside shelf.new)
            ⊎ BeginsInPart (S.outside shelf.old) (S.outside shelf.new) name.now) }
        ensures errors { OnErr result (IsErrOf result WriteError.Device ⊎ IsErrOf result WriteError.NoMemory) }
        ensures device { IsErrOf result WriteError.Device
            → Rose (S.outside shelf.old).faults (S.outside shelf.new).faults }
    {
        let slot = shelf.target(alloc, name)?;
        let mut header = [0; HEADER_SIZE];
        write_header(&mut header);
        shelf.put(alloc, slot, &header)?;
        Ok(CanonWriter {
            alloc,
            slot,
            size: HEADER_SIZE as u64,
            frames: 0,
            used: UsedEntries::new(alloc),
            built: TableBuilder::new(alloc),
            closing: None,
            part: FramePart::new(alloc),
            error: None,
        })
    }

    /// Says that the next frames may be of another dictionary than those before.
    pub fn begin_source(&mut self)
        ensures { self.new ≡ record self.old { met = none_met } }
    {
        self.part.begin_source();
    }

    /// Writes the part of a frame.
    pub fn frame<S: Shelf>(
        &mut self,
        shelf: &mut S,
        segment: &Segment,
        plans: &Plans,
        dictionary: &Dictionary,
        layouts: &ChannelLayouts,
        numbering: &Numbering,
    ) -> Result<(), WriteError>
        requires slot { IsTarget (S.outside shelf.old).slots self.old.slot }
        requires bodies { All (ReadsBy plans.now segment.now.order) segment.now.nodes }
        ensures answer { self.old.error ≡ None → AreOf dictionary.now plans.now layouts.now
            → CanBeWritten dictionary.now plans.now segment.now numbering.now
            → IsReady self.old.met self.old.closing self.old.written.entries dictionary.now
            → IsAnswer result (frame_due self.old.closing self.old.written
            (frame_in_order dictionary.now segment.now numbering.now)) }
        ensures puts { self.old.error ≡ None → (bytes : List ℕ)
            × Puts (S.outside shelf.old) (S.outside shelf.new) self.old.slot bytes result
            × (AreOf dictionary.now plans.now layouts.now
            → CanBeWritten dictionary.now plans.now segment.now numbering.now
            → IsReady self.old.met self.old.closing self.old.written.entries dictionary.now
            → bytes ≡ frame_part self.old.written (frame_in_order dictionary.now segment.now numbering.now)) }
        ensures written { OnOk result (AreOf dictionary.now plans.now layouts.now
            → CanBeWritten dictionary.now plans.now segment.now numbering.now
            → IsReady self.old.met self.old.closing self.old.written.entries dictionary.now
            → (self.new.written ≡ after_frame self.old.written
            (frame_in_order dictionary.now segment.now numbering.now))
            × IsReady self.new.met self.new.closing self.new.written.entries dictionary.now) }
        ensures kept { (self.new.slot ≡ self.old.slot) × (self.new.closing ≡ self.old.closing) }
        ensures device { IsErrOf result WriteError.Device → self.old.error ≡ None
            → Rose (S.outside shelf.old).faults (S.outside shelf.new).faults }

        // What is given again, and from when on.
        ensures error_again { (error : WriteError) → self.old.error ≡ Some error → (result ≡ Err error)
            × (self.new ≡ self.old) × (S.outside shelf.new ≡ S.outside shelf.old) }
        ensures error { IfErr result (λ error. self.new.error ≡ Some error) }
        ensures no_error { OnOk result (self.new.error ≡ None) }
    {
        if let Some(error) = self.error {
            return Err(error);
        }
        let frame = FrameSource {
            segment,
            plans,
            dictionary,
            order: numbering.sequence(),
        };
        let result = self.put_frame(shelf, layouts, &frame);
        if let Err(error) = result {
            self.error = Some(error);
        }
        result
    }

    fn put_frame<S: Shelf>(
        &mut self,
        shelf: &mut S,
        layouts: &ChannelLayouts,
        frame: &FrameSource<'_>,
    ) -> Result<(), WriteError>
        requires slot { IsTarget (S.outside shelf.old).slots self.old.slot }
        requires bodies { All (ReadsBy frame.now.plans.now frame.now.segment.now.order)
            frame.now.segment.now.nodes }
        ensures answer { AreOf frame.now.dictionary.now frame.now.plans.now layouts.now → IsSource frame.now
            → IsReady self.old.met self.old.closing self.old.written.entries frame.now.dictionary.now
            → IsAnswer result (frame_due self.old.closing self.old.written (frame_of frame.now)) }
        ensures puts { (bytes : List ℕ)
            × Puts (S.outside shelf.old) (S.outside shelf.new) self.old.slot bytes result
            × (IsSource frame.now
            → IsReady self.old.met self.old.closing self.old.written.entries frame.now.dictionary.now
            → bytes ≡ frame_part self.old.written (frame_of frame.now)) }
        ensures written { OnOk result (AreOf frame.now.dictionary.now frame.now.plans.now layouts.now
            → IsSource frame.now
            → IsReady self.old.met self.old.closing self.old.written.entries frame.now.dictionary.now
            → (self.new.written ≡ after_frame self.old.written (frame_of frame.now))
            × IsReady self.new.met self.new.closing self.new.written.entries frame.now.dictionary.now) }
        ensures kept { (self.new.slot ≡ self.old.slot) × (self.new.closing ≡ self.old.closing)
            × (self.new.error ≡ self.old.error) }
        ensures device { IsErrOf result WriteError.Device
            → Rose (S.outside shelf.old).faults (S.outside shelf.new).faults }
    {
        if self.frames >= FRAMES_LIMIT {
            return Err(WriteError::FramesLimit);
        }
        self.part
            .fill(self.size, &mut self.used, self.closing.as_ref(), frame)?;
        let size = self.size + self.part.bytes.len() as u64;
        if size > FILE_LIMIT {
            return Err(WriteError::OutputLimit);
        }
        self.built.add_segment_at(
            frame.segment,
            frame.plans,
            layouts,
            self.part.places.as_slice(),
        )?;
        shelf.put(self.alloc, self.slot, self.part.bytes.as_slice())?;
        self.size = size;
        self.frames += 1;
        Ok(())
    }

    /// Holds the closing, whose entries are used from now on.
    pub fn hold_closing(&mut self, closing: &Closing) -> Result<(), AllocError>
        requires { IsUsableClosing closing.now }
        ensures ok { OnOk result (self.new ≡ record self.old { closing = Some (printed_closing closing.now) }) }
        ensures err { OnErr result (self.new ≡ self.old) }
    {
        let table = match &closing.table {
            Some(entry) => Some(printed(self.alloc, entry)?),
            None => None,
        };
        self.closing = Some(Closing {
            end: printed(self.alloc, &closing.end)?,
            table,
        });
        Ok(())
    }

    /// Writes the closing part.
    pub fn close<S: Shelf>(mut self, shelf: &mut S) -> Result<Summary, WriteError>
        requires slot { IsTarget (S.outside shelf.old).slots self.slot }
        requires held { IsSome self.closing }
        ensures answer { self.error ≡ None → IfSome self.closing (λ closing. IsShortClosing closing
            → IsAnswer result (closing_due self.written closing)) }
        ensures puts { self.error ≡ None → (bytes : List ℕ)
            × Puts (S.outside shelf.old) (S.outside shelf.new) self.slot bytes result
            × IfSome self.closing (λ closing. IsShortClosing closing
            → bytes ≡ closing_part self.written closing) }
        ensures device { IsErrOf result WriteError.Device → self.error ≡ None
            → Rose (S.outside shelf.old).faults (S.outside shelf.new).faults }
        ensures error_again { (error : WriteError) → self.error ≡ Some error → (result ≡ Err error)
            × (S.outside shelf.new ≡ S.outside shelf.old) }
    {
        if let Some(error) = self.error {
            return Err(error);
        }
        self.put_closing(shelf)
    }

    fn put_closing<S: Shelf>(&mut self, shelf: &mut S) -> Result<Summary, WriteError>
        requires slot { IsTarget (S.outside shelf.old).slots self.old.slot }
        requires held { IsSome self.old.closing }
        ensures answer { IfSome self.old.closing (λ closing. IsShortClosing closing
            → IsAnswer result (closing_due self.old.written closing)) }
        ensures puts { (bytes : List ℕ)
            × Puts (S.outside shelf.old) (S.outside shelf.new) self.old.slot bytes result
            × IfSome self.old.closing (λ closing. IsShortClosing closing
            → bytes ≡ closing_part self.old.written closing) }
        ensures device { IsErrOf result WriteError.Device
            → Rose (S.outside shelf.old).faults (S.outside shelf.new).faults }
    {
        let Some(closing) = &self.closing else {
            unreachable!();
        };
        self.part.bytes.clear();
        let file = FileSoFar {
            used: &self.used,
            built: &self.built,
            frames: self.frames,
            size: self.size,
        };
        file.push_closing(self.alloc, closing, &mut self.part.bytes)?;
        let bytes = self.size + self.part.bytes.len() as u64;
        if bytes > FILE_LIMIT {
            return Err(WriteError::OutputLimit);
        }
        shelf.put(self.alloc, self.slot, self.part.bytes.as_slice())?;
        Ok(Summary {
            frames: self.frames,
            bytes,
        })
    }
}
