//! The laws of contents and canonical files. Each is the contract of a function that does nothing: a crate
//! that calls the function has the law.

ghost use Rattle.canonical_laws.specs.Laws.{WrittenFilesAreReadBack, UnwrittenTablesAreNone};
ghost use Rattle.canonical_laws.specs.Laws.{WrittenTablesAreGood};
ghost use Rattle.canonical_laws.specs.Laws.{NoCanonicalHeadIsWhole, NoPartOfAHeadIsWhole};
ghost use Rattle.canonical_laws.specs.Laws.{NoPartOfACanonicalFileIsWhole};
ghost use Rattle.canonical_laws.specs.Laws.{ContentsAreUnique};
ghost use Rattle.canonical_laws.specs.Laws.{CanonicalFilesAreUnique, CanonicalFilesKeepContents};
ghost use Rattle.canonical_laws.specs.Laws.{CanonicalFilesTellContents, CanonicalFilesStay, PartsTellFrames};
ghost use Rattle.canonical_laws.specs.Sources.{EntriesOfFilesAreWritable, FramesOfFilesAreWritable};
ghost use Rattle.canonical_laws.specs.Sources.{RelinkedFramesAreWritable, ClosingsOfFilesAreWritable};
ghost use Rattle.canonical_laws.specs.Spliced.{SplicedFramesAreWrittenTogether};
ghost use Rattle.canonical_laws.specs.Spliced.{NoPartOfASplicedHeadIsWhole, NoPartOfASplicedFileIsWhole};
ghost use Rattle.canonical_laws.specs.Spliced.{SplicedFilesAreReadBack, FramesOfFilesAreWritableSomewhere};
ghost use Rattle.canonical_laws.specs.Spliced.{FirstFilesAreSpliced, MoreFramesAreSpliced};
ghost use Rattle.canonical_laws.specs.Spliced.{SplicesAreCanonical, SplicesKeepContents, NoPartOfASpliceIsWhole};

/// A canonical file of frames and of a closing that can be written is well-formed and reads back as these.
pub fn written_files_are_read_back()
    ensures { WrittenFilesAreReadBack }
{}

/// What a file of bytes holds can be written: in each beginning of it the entries held and the frames that
/// have ended, each in its order, also with other links, and of a well-formed file the closing.
pub fn sources_can_be_written()
    ensures entries { EntriesOfFilesAreWritable }
    ensures frames { FramesOfFilesAreWritable }
    ensures relinked { RelinkedFramesAreWritable }
    ensures closings { ClosingsOfFilesAreWritable }
{}

/// The contents table of such a file is none where its record is not written.
pub fn unwritten_tables_are_none()
    ensures { UnwrittenTablesAreNone }
{}

/// The contents table of such a file is good where its record is written: it lists the frames, and the channels
/// of each kind, where they stand in this file.
pub fn canonical_tables_are_good()
    ensures { WrittenTablesAreGood }
{}

/// The canonical head of frames that can be written is no well-formed file, nor is any part of it from its
/// beginning on, nor any part of a canonical file that ends before the file does. So a file that was not
/// written to its end is never taken for a whole one.
pub fn no_canonical_head_is_whole()
    ensures heads { NoCanonicalHeadIsWhole }
    ensures parts { NoPartOfAHeadIsWhole }
    ensures files { NoPartOfACanonicalFileIsWhole }
{}

/// A file has one content, and a content has one canonical file.
pub fn canonical_files_are_unique()
    ensures contents { ContentsAreUnique }
    ensures files { CanonicalFilesAreUnique }
{}

/// The canonical file of a well-formed file's content has the same content. So canonical files are equal
/// exactly where the contents are the same, and the canonical file of a canonical file is that file.
pub fn canonical_files_tell_contents()
    ensures keep { CanonicalFilesKeepContents }
    ensures tell { CanonicalFilesTellContents }
    ensures stay { CanonicalFilesStay }
{}

/// The parts of two frames, each in its order and as the first frame of a file, are equal bytes exactly where
/// the frames are the same. So copies of a frame in several files are found by their parts.
pub fn equal_parts_are_of_equal_frames()
    ensures { PartsTellFrames }
{}

/// Frames of several files, none of which clashes with those before it, can be written by one dictionary with the
/// closing of the first file.
pub fn spliced_frames_are_written_together()
    ensures { SplicedFramesAreWrittenTogether }
{}

/// No part of the canonical head of such frames is a well-formed file, nor is any part of their canonical file
/// that ends before the file does.
pub fn no_spliced_head_is_whole()
    ensures heads { NoPartOfASplicedHeadIsWhole }
    ensures files { NoPartOfASplicedFileIsWhole }
{}

/// The canonical file of such frames and of the closing is well-formed and reads back as these.
pub fn spliced_files_are_read_back()
    ensures { SplicedFilesAreReadBack }
{}

/// The frames of files of bytes are such frames: those of a first file with its closing, and then more frames of
/// other files that do not clash.
pub fn files_can_be_spliced()
    ensures frames { FramesOfFilesAreWritableSomewhere }
    ensures first { FirstFilesAreSpliced }
    ensures more { MoreFramesAreSpliced }
{}

/// The canonical file of a splice of what files hold is well-formed, and its content is the splice. No part of it
/// that ends before it does is well-formed.
pub fn splices_keep_contents()
    ensures canonical { SplicesAreCanonical }
    ensures keep { SplicesKeepContents }
    ensures parts { NoPartOfASpliceIsWhole }
{}
