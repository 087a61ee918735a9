//! Two files compared.

ghost use Rattle.std.specs.Prelude.{◌≡◌, ◌≢◌, ◌<◌, ◌≤◌, ℕ, List, [], None, Some, Err, IfErr};
ghost use Rattle.frame_outside.specs.Counts.{Rose};
ghost use Rattle.frame_outside.specs.Shelf.{Told, IsSource, reading_at};
ghost use Rattle.item_reader.specs.Reader.{Reads, file_of};
ghost use Rattle.canonical_file.specs.Ranges.{AreBytes};
ghost use Rattle.content_compare.specs.Answers.{IsOfTwo};
ghost use Rattle.content_compare.specs.Due.{Answer, IsDue, IsDueOf, IsAnswer};
ghost use Rattle.content_compare.specs.Sides.{IsSide, OnlyDraws, ReadOn, ReadsTwoFiles};

use crate::answers::{CompareError, Comparison};
use crate::closings::have_same_closings;
use crate::differences::{first_difference, read_to_end};
use frame_outside::Shelf;
use frame_reader::FrameReader;
use std::alloc::Global;

/// Tells whether the files of two names hold the same content, or else where they first differ: 0 where their closings
/// differ, else the number, from 1, of the first frame that differs or that one of them alone has.
///
/// Both files are opened first, and both are read to their ends before they are found different. Nothing is written. It
/// takes the memory of one frame of each file.
///
/// # Errors
///
/// `Fault` of the first file, and where that is well-formed of the second. `Device` where a file is not held, or the
/// shelf could not do a call.
pub fn compare_files<S: Shelf>(
    alloc: Global,
    shelf: &mut S,
    first: &str,
    second: &str,
) -> Result<Comparison, CompareError>
    ensures answer { Told (S.outside shelf.old).files (λ files. (due : Answer)
        → IsDue files first.now second.now due → IsAnswer result due) }
    ensures misses { Told (S.outside shelf.old).files
        (λ files. (S.outside shelf.old).misses < (S.outside shelf.new).misses → (due : Answer)
        → IsDue files first.now second.now due → due ≡ Err CompareError.Device) }
    ensures files { IfErr result IsOfTwo }
    ensures shelf { ReadsTwoFiles (S.outside shelf.old) (S.outside shelf.new) }
    ensures device { result ≡ Err CompareError.Device
        → Rose (S.outside shelf.old).faults (S.outside shelf.new).faults }
{
    let slot = shelf.source(alloc, first)?;
    let other = shelf.source(alloc, second)?;
    compare_slots(alloc, shelf, slot, other)
}

/// The same of the files that two source slots were opened on.
fn compare_slots<S: Shelf>(
    alloc: Global,
    shelf: &mut S,
    slot: u32,
    other: u32,
) -> Result<Comparison, CompareError>
    requires first { IsSource (S.outside shelf.old).slots slot }
    requires first_beginning { Told (reading_at (S.outside shelf.old).slots slot) (λ reading. reading.at ≡ 0) }
    requires second { IsSource (S.outside shelf.old).slots other }
    requires second_beginning { Told (reading_at (S.outside shelf.old).slots other) (λ reading. reading.at ≡ 0) }
    requires apart { slot ≢ other }
    ensures compares { (file second : List ℕ) → file_of (S.outside shelf.old) slot ≡ Some file
        → file_of (S.outside shelf.old) other ≡ Some second → AreBytes file → AreBytes second → (due : Answer)
        → IsDueOf file second due → IsAnswer result due }
    ensures draws { (from : ℕ) → from ≤ slot → from ≤ other
        → OnlyDraws (S.outside shelf.old) (S.outside shelf.new) from }
    ensures files { IfErr result IsOfTwo }
    ensures device { result ≡ Err CompareError.Device
        → Rose (S.outside shelf.old).faults (S.outside shelf.new).faults }
{
    let mut first = match FrameReader::begin(alloc, shelf, slot) {
        Ok(first) => first,
        Err(error) => return Err(CompareError::of_file(0, error)),
    };
    match FrameReader::begin(alloc, shelf, other) {
        Ok(mut second) => compare(alloc, shelf, &mut first, &mut second),
        Err(error) => {
            read_to_end(shelf, &mut first, 0)?;
            Err(CompareError::of_file(1, error))
        }
    }
}

/// The same of what two readers give from their beginnings on.
fn compare<S: Shelf>(
    alloc: Global,
    shelf: &mut S,
    first: &mut FrameReader,
    second: &mut FrameReader,
) -> Result<Comparison, CompareError>
    requires first { Reads (S.outside shelf.old) first.old.reader }
    requires second { Reads (S.outside shelf.old) second.old.reader }
    requires apart { first.old.reader.position.slot ≢ second.old.reader.position.slot }
    requires errors { (first.old.reader.error ≡ None) × (second.old.reader.error ≡ None) }
    ensures compares { (file other : List ℕ) → file_of (S.outside shelf.old) first.old.reader.position.slot ≡ Some file
        → file_of (S.outside shelf.old) second.old.reader.position.slot ≡ Some other → AreBytes file → AreBytes other
        → IsSide file [] first.old → IsSide other [] second.old → (due : Answer) → IsDueOf file other due
        → IsAnswer result due }
    ensures reads { ReadOn (S.outside shelf.old) (S.outside shelf.new) first.old.reader second.old.reader
        first.new.reader second.new.reader }
    ensures files { IfErr result IsOfTwo }
    ensures device { result ≡ Err CompareError.Device
        → Rose (S.outside shelf.old).faults (S.outside shelf.new).faults }
{
    let difference = first_difference(alloc, shelf, first, second)?;
    read_to_end(shelf, first, 0)?;
    read_to_end(shelf, second, 1)?;
    if !have_same_closings(alloc, first, second)? {
        return Ok(Comparison::Different { place: 0 });
    }
    Ok(match difference {
        Some(place) => Comparison::Different { place },
        None => Comparison::Same,
    })
}
