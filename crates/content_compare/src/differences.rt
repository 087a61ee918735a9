//! The first frame in which two files differ.

ghost use Rattle.std.specs.Prelude.{◌≡◌, ◌≢◌, ◌↔◌, ◌<◌, ◌≤◌, ℕ, List, [], true, None, Some, Ok, Err};
ghost use Rattle.std.specs.Prelude.{IfOk, IfErr, OnOk, IsTrue};
ghost use Rattle.frame_outside.specs.Counts.{Rose};
ghost use Rattle.frame_outside.specs.Shelf.{Told};
ghost use Rattle.structure_source.specs.Source.{GoesOn};
ghost use Rattle.file_grammar.specs.Structure.{file_limit};
ghost use Rattle.frame_content.specs.Frames.{Frame};
ghost use Rattle.item_reader.specs.Reader.{Reads, file_of};
ghost use Rattle.canonical_file.specs.Ranges.{AreBytes};
ghost use Rattle.canonical_file.specs.Ordered.{SameFrame};
ghost use Rattle.canonical_writer.specs.Alike.{AreAlike};
ghost use Rattle.frame_reader.specs.Given.{GivesFrame, Keeps};
ghost use Rattle.content_compare.specs.Answers.{IsOfTwo};
ghost use Rattle.content_compare.specs.Sides.{IsSide, Finds, BothMove, EndsAs, ReadOn};

use crate::answers::CompareError;
use canonical_writer::{FrameComparer, FrameSource};
use file_grammar::Fault;
use frame_outside::Shelf;
use frame_reader::FrameReader;
use std::alloc::{AllocError, Global};

/// The number, from 1, of the first frame in which two files differ, or that only one of them has; None where both have
/// ended. The first fault of the first file comes before that of the second.
pub fn first_difference<S: Shelf>(
    alloc: Global,
    shelf: &mut S,
    first: &mut FrameReader,
    second: &mut FrameReader,
) -> Result<Option<u64>, CompareError>
    requires first { Reads (S.outside shelf.old) first.old.reader }
    requires second { Reads (S.outside shelf.old) second.old.reader }
    requires apart { first.old.reader.position.slot ≢ second.old.reader.position.slot }
    requires errors { (first.old.reader.error ≡ None) × (second.old.reader.error ≡ None) }
    ensures finds { (file other : List ℕ) → file_of (S.outside shelf.old) first.old.reader.position.slot ≡ Some file
        → file_of (S.outside shelf.old) second.old.reader.position.slot ≡ Some other → AreBytes file → AreBytes other
        → IsSide file [] first.old → IsSide other [] second.old
        → Finds file other first.new second.new result }
    ensures reads { ReadOn (S.outside shelf.old) (S.outside shelf.new) first.old.reader second.old.reader
        first.new.reader second.new.reader }
    ensures no_error { OnOk result ((first.new.reader.error ≡ None) × (second.new.reader.error ≡ None)) }
    ensures files { IfErr result IsOfTwo }
    ensures device { result ≡ Err CompareError.Device
        → Rose (S.outside shelf.old).faults (S.outside shelf.new).faults }
{
    let mut comparer = FrameComparer::new(alloc);
    'frames: loop {
        let (more, also) = next_of_both(shelf, first, second)?;
        if more != also {
            return Ok(Some(first.items().frames().max(second.items().frames())));
        }
        if !more {
            return Ok(None);
        }
        if !are_same(&mut comparer, first, second)? {
            return Ok(Some(first.items().frames()));
        }
    }
}

/// Reads on to the next frame of both files, or to their ends.
fn next_of_both<S: Shelf>(
    shelf: &mut S,
    first: &mut FrameReader,
    second: &mut FrameReader,
) -> Result<(bool, bool), CompareError>
    requires first { Reads (S.outside shelf.old) first.old.reader }
    requires second { Reads (S.outside shelf.old) second.old.reader }
    requires apart { first.old.reader.position.slot ≢ second.old.reader.position.slot }
    requires errors { (first.old.reader.error ≡ None) × (second.old.reader.error ≡ None) }
    ensures moves { (file other : List ℕ) (frames others : List Frame)
        → file_of (S.outside shelf.old) first.old.reader.position.slot ≡ Some file
        → file_of (S.outside shelf.old) second.old.reader.position.slot ≡ Some other → AreBytes file → AreBytes other
        → IsSide file frames first.old → IsSide other others second.old
        → BothMove file other frames others first.new second.new result }
    ensures keeps { OnOk result
        (Told (file_of (S.outside shelf.old) first.old.reader.position.slot)
        (λ file. Keeps first.old.reader.before.dictionary first.new.reader.before.dictionary)
        × Told (file_of (S.outside shelf.old) second.old.reader.position.slot)
        (λ file. Keeps second.old.reader.before.dictionary second.new.reader.before.dictionary)) }
    ensures on { IfOk result (λ more. IsTrue more.0 → (first.old.reader.before.place < first.new.reader.before.place)
        × (first.new.reader.before.place ≤ file_limit)) }
    ensures reads { ReadOn (S.outside shelf.old) (S.outside shelf.new) first.old.reader second.old.reader
        first.new.reader second.new.reader }
    ensures no_error { OnOk result ((first.new.reader.error ≡ None) × (second.new.reader.error ≡ None)) }
    ensures files { IfErr result IsOfTwo }
    ensures device { result ≡ Err CompareError.Device
        → Rose (S.outside shelf.old).faults (S.outside shelf.new).faults }
{
    let more = match first.next(shelf) {
        Ok(more) => more,
        Err(error) => return Err(CompareError::of_file(0, error)),
    };
    match second.next(shelf) {
        Ok(also) => Ok((more, also)),
        Err(error) => {
            read_to_end(shelf, first, 0)?;
            Err(CompareError::of_file(1, error))
        }
    }
}

/// Whether the frames that two readers lend are the same.
fn are_same(
    comparer: &mut FrameComparer,
    first: &FrameReader,
    second: &FrameReader,
) -> Result<bool, AllocError>
    requires { (first.now.reader.error ≡ None) × (second.now.reader.error ≡ None) }
    ensures same { IfOk result (λ same. (file other : List ℕ) (frames others : List Frame) (frame another : Frame)
        → AreBytes file → AreBytes other → GivesFrame file frames frame first.now
        → GivesFrame other others another second.now
        → AreAlike comparer.old first.now.reader.before.dictionary second.now.reader.before.dictionary
        → IsTrue same ↔ SameFrame frame another) }
    ensures alike { AreAlike comparer.old first.now.reader.before.dictionary second.now.reader.before.dictionary
        → AreAlike comparer.new first.now.reader.before.dictionary second.now.reader.before.dictionary }
{
    let (one, other) = (first.items(), second.items());
    let (Some(numbering), Some(others)) = (one.numbering(), other.numbering()) else {
        return Ok(false);
    };
    comparer.are_same(
        &FrameSource {
            segment: one.segment(),
            plans: one.plans(),
            dictionary: one.dictionary(),
            order: numbering.sequence(),
        },
        &FrameSource {
            segment: other.segment(),
            plans: other.plans(),
            dictionary: other.dictionary(),
            order: others.sequence(),
        },
    )
}

/// Reads the file of a number to its end.
pub fn read_to_end<S: Shelf>(
    shelf: &mut S,
    frames: &mut FrameReader,
    number: u32,
) -> Result<(), CompareError>
    requires reads { Reads (S.outside shelf.old) frames.old.reader }
    requires error { frames.old.reader.error ≡ None }
    ensures ends { (file : List ℕ) (given : List Frame)
        → file_of (S.outside shelf.old) frames.old.reader.position.slot ≡ Some file → AreBytes file
        → IsSide file given frames.old → EndsAs number file given frames.new result }
    ensures ended { OnOk result ((frames.new.reader.error ≡ None) × (frames.new.reader.before.closed ≡ true)) }
    ensures again { frames.old.reader.before.closed ≡ true → (result ≡ Ok tt) × (frames.new ≡ frames.old) }
    ensures reads { Reads (S.outside shelf.new) frames.new.reader }
    ensures draws { GoesOn (S.outside shelf.old) (S.outside shelf.new) frames.old.reader.position
        frames.new.reader.position }
    ensures named { (other : ℕ) (fault : Fault) → result ≡ Err (CompareError.Fault other fault) → other ≡ number }
    ensures device { result ≡ Err CompareError.Device
        → Rose (S.outside shelf.old).faults (S.outside shelf.new).faults }
{
    'frames: loop {
        match frames.next(shelf) {
            Ok(true) => {}
            Ok(false) => return Ok(()),
            Err(error) => return Err(CompareError::of_file(number, error)),
        }
    }
}
