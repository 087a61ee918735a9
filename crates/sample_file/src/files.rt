//! The sample file, written frame by frame.

ghost use Rattle.std.specs.Prelude.{◌≡◌, ◌<◌, ◌≤◌, ℕ, List, IsErrOf, IfErr, OnOk};
ghost use Rattle.frame_outside.specs.Counts.{Rose};
ghost use Rattle.frame_outside.specs.Shelf.{Outside, Told, IsTarget};
ghost use Rattle.canonical_writer.specs.Errors.{error_of};
ghost use Rattle.sample_file.specs.Lent.{IsSampleRoom};
ghost use Rattle.sample_file.specs.Sample.{sample_closing};
ghost use Rattle.sample_file.specs.Made.{Makes, MakesOneFile};
ghost use Rattle.sample_file.specs.Put.{sample_head, HasMade, PutsFrames, HasWritten, IsPut, IsOutside, IsLeft};

use crate::entries::sample_closing;
use crate::frames::SampleFrame;
use canonical_file::Closing;
use canonical_writer::{CanonWriter, Summary, WriteError};
use frame_outside::{Shelf, ShelfError};
use std::alloc::Global;

/// The most frames of a sample file.
pub const FRAMES_AT_MOST: u32 = 100_000;

/// Writes the sample file of so many frames, 100,000 at most, to the file of a name, and tells its frames and bytes:
/// the canonical file of its content (LIGO-T970130 v8, the structures of a file).
///
/// # Errors
///
/// After a refusal the file is as it was, or holds a part of these bytes, perhaps all. `Failed` comes where the shelf
/// could not do a call.
pub fn make_file<S: Shelf>(
    alloc: Global,
    shelf: &mut S,
    frames: u32,
    to: &str,
) -> Result<Summary, ShelfError>
    requires { frames ≤ 100000 }
    ensures made { Told (S.outside shelf.old).files
        (λ files. Makes files (S.outside shelf.new).files to.now frames result) }
    ensures shelf { MakesOneFile (S.outside shelf.old) (S.outside shelf.new) to.now }
    ensures failed { IsErrOf result ShelfError.Failed
        → Rose (S.outside shelf.old).faults (S.outside shelf.new).faults }
{
    match write_file(alloc, shelf, frames, to) {
        Ok(summary) => Ok(summary),
        Err(error) => Err(refused(error)),
    }
}

/// What a writer says of the shelf or of memory, which is all that it can say of the sample file.
fn refused(error: WriteError) -> ShelfError
    requires { IsOutside error }
    ensures { error_of result ≡ error }
{
    match error {
        WriteError::Device => ShelfError::Failed,
        WriteError::NoMemory => ShelfError::NoMemory,
        WriteError::FramesLimit => unreachable!(),
        WriteError::Clash { .. } => unreachable!(),
        WriteError::OutputLimit => unreachable!(),
    }
}

/// Writes the file. What it takes memory for is made before the file is.
fn write_file<S: Shelf>(
    alloc: Global,
    shelf: &mut S,
    frames: u32,
    to: &str,
) -> Result<Summary, WriteError>
    requires { frames ≤ 100000 }
    ensures left { IsLeft (S.outside shelf.old) (S.outside shelf.new) to.now frames result }
    ensures device { IsErrOf result WriteError.Device
        → Rose (S.outside shelf.old).faults (S.outside shelf.new).faults }
{
    let mut sample = SampleFrame::new(alloc)?;
    let closing = sample_closing(alloc)?;
    let writer = CanonWriter::begin(alloc, shelf, to)?;
    write_frames(alloc, shelf, writer, &mut sample, &closing, frames)
}

/// Writes the frames, and then the end of the file.
fn write_frames<S: Shelf>(
    alloc: Global,
    shelf: &mut S,
    mut writer: CanonWriter,
    sample: &mut SampleFrame,
    closing: &Closing,
    frames: u32,
) -> Result<Summary, WriteError>
    requires few { frames ≤ 100000 }
    requires room { IsSampleRoom sample.old }
    requires closing { closing.now ≡ sample_closing }
    requires target { IsTarget (S.outside shelf.old).slots writer.slot }
    requires written { HasWritten 0 writer }
    ensures left { (old : Outside) (name : List ℕ)
        → HasMade old (S.outside shelf.old) name writer.slot (sample_head 0)
        → IsLeft old (S.outside shelf.new) name frames result }
    ensures device { IsErrOf result WriteError.Device
        → Rose (S.outside shelf.old).faults (S.outside shelf.new).faults }
{
    put_frames(alloc, shelf, &mut writer, sample, frames)?;
    writer.hold_closing(closing)?;
    writer.close(shelf)
}

/// Writes the frames, one after another.
fn put_frames<S: Shelf>(
    alloc: Global,
    shelf: &mut S,
    writer: &mut CanonWriter,
    sample: &mut SampleFrame,
    frames: u32,
) -> Result<(), WriteError>
    requires few { frames ≤ 100000 }
    requires room { IsSampleRoom sample.old }
    requires target { IsTarget (S.outside shelf.old).slots writer.old.slot }
    requires written { HasWritten 0 writer.old }
    ensures puts { (old : Outside) (name : List ℕ)
        → HasMade old (S.outside shelf.old) name writer.old.slot (sample_head 0)
        → PutsFrames old (S.outside shelf.new) name writer.old.slot frames result }
    ensures slot { writer.new.slot ≡ writer.old.slot }
    ensures target { OnOk result (IsTarget (S.outside shelf.new).slots writer.new.slot) }
    ensures written { OnOk result (HasWritten frames writer.new) }
    ensures outside { IfErr result IsOutside }
    ensures faults { (S.outside shelf.old).faults ≤ (S.outside shelf.new).faults }
    ensures device { IsErrOf result WriteError.Device
        → Rose (S.outside shelf.old).faults (S.outside shelf.new).faults }
{
    for k in 0..frames {
        put_frame(alloc, shelf, writer, sample, k)?;
    }
    Ok(())
}

/// Writes frame k after those before it.
fn put_frame<S: Shelf>(
    alloc: Global,
    shelf: &mut S,
    writer: &mut CanonWriter,
    sample: &mut SampleFrame,
    k: u32,
) -> Result<(), WriteError>
    requires few { k < 100000 }
    requires room { IsSampleRoom sample.old }
    requires target { IsTarget (S.outside shelf.old).slots writer.old.slot }
    requires written { HasWritten k writer.old }
    ensures put { IsPut k (S.outside shelf.old) (S.outside shelf.new) writer.old writer.new result }
    ensures slot { writer.new.slot ≡ writer.old.slot }
    ensures room { IsSampleRoom sample.new }
    ensures device { IsErrOf result WriteError.Device
        → Rose (S.outside shelf.old).faults (S.outside shelf.new).faults }
{
    let numbering = sample.fill(alloc, k)?;
    writer.frame(
        shelf,
        &sample.segment,
        &sample.plans,
        &sample.dictionary,
        &sample.layouts,
        &numbering,
    )
}
