//! The laws of cuts and scans. Each is the contract of a function that does nothing: a crate that calls the function
//! has the law.

ghost use Rattle.channel_extract.specs.Laws.{EachScanHasADue, NoScanHasTwoDues, OnlyBytesAreLimited};
ghost use Rattle.channel_extract.specs.Laws.{ScansAreCanonical, WholeScansAreRead, WholeScansKeepExtractions};
ghost use Rattle.channel_extract.specs.Laws.{NoPartOfAScanIsWhole};
ghost use Rattle.channel_extract.specs.Laws.{ScansTellContents, ScansOfCopiesAreScans};
ghost use Rattle.channel_extract.specs.CutLaws.{EqualFramesHaveEqualCuts};

/// Of files that hold bytes exactly one scan is due. Its cuts never clash, and are never too many.
pub fn each_scan_has_one_due()
    ensures exists { EachScanHasADue }
    ensures unique { NoScanHasTwoDues }
    ensures limited { OnlyBytesAreLimited }
{}

/// What a scan writes whole is the canonical file of the extraction of what its source holds: it is well-formed and
/// reads back as the cuts. What stands of a scan that does not end is never taken for a whole file.
pub fn scans_are_canonical()
    ensures canonical { ScansAreCanonical }
    ensures read { WholeScansAreRead }
    ensures keep { WholeScansKeepExtractions }
    ensures parts { NoPartOfAScanIsWhole }
{}

/// Equal frames have a channel alike, and equal cuts at it.
pub fn equal_frames_have_equal_cuts()
    ensures { EqualFramesHaveEqualCuts }
{}

/// Of files that hold the same one scan is due, so the scan of a copy is the scan of its source.
pub fn scans_tell_contents()
    ensures contents { ScansTellContents }
    ensures copies { ScansOfCopiesAreScans }
{}
