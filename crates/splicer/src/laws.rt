//! The laws of splices and copies. Each is the contract of a function that does nothing: a crate that calls the
//! function has the law.

ghost use Rattle.splicer.specs.Laws.{EachSpliceHasADue, NoSpliceHasTwoDues, CopiesAreCanonical, CopiesTellContents};
ghost use Rattle.splicer.specs.Laws.{CopiesAreDone, CopiesNameFaults};
ghost use Rattle.splicer.specs.Laws.{NoPartIsWhole, WholeSplicesAreRead};

/// Of files that hold bytes exactly one splice is due.
pub fn each_splice_has_one_due()
    ensures exists { EachSpliceHasADue }
    ensures unique { NoSpliceHasTwoDues }
{}

/// What a copy writes whole is the canonical file of what its source holds. So copies are equal bytes exactly where
/// their sources hold the same.
pub fn copies_tell_contents()
    ensures canonical { CopiesAreCanonical }
    ensures tell { CopiesTellContents }
{}

/// Within the limit of files, a copy of a well-formed file is due whole, and of any other file its first fault is due.
pub fn copies_are_done()
    ensures done { CopiesAreDone }
    ensures faults { CopiesNameFaults }
{}

/// What is written whole is well-formed and holds the closing of the first file and the frames of all files. What
/// stands of a splice that does not end is never taken for a whole file.
pub fn splices_are_whole_or_refused()
    ensures parts { NoPartIsWhole }
    ensures read { WholeSplicesAreRead }
{}
