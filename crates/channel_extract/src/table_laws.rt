//! The laws of the extraction by the contents table. Each is the contract of a function that does nothing: a crate
//! that calls the function has the law.

ghost use Rattle.channel_extract.specs.TableLaws.{WellFormedFilesArePassed, PassesAreUnique, NoPassIsBoth, PlacesRise};
ghost use Rattle.channel_extract.specs.TableLaws.{TableAndReadingAgree, LiesAreKept, LiesAreNamed, ReadyFramesHaveNone};
ghost use Rattle.channel_extract.specs.TableLaws.{NoRecordHasAFault, ReadyFramesAreCut};
ghost use Rattle.channel_extract.specs.TableLaws.{AnswersAreDue, NoAnswerIsAFault, DueAnswersMayCome};
ghost use Rattle.channel_extract.specs.TableLaws.{EachExtractionHasOneAnswer, EachExtractionHasOneOutput};
ghost use Rattle.channel_extract.specs.TableLaws.{BothAnswerAlike, BothWriteAlike, TablesAreAsJudged};
ghost use Rattle.channel_extract.specs.TableLaws.{LyingTablesAreBad, TakenIsWithinBound};
ghost use Rattle.channel_extract.specs.TableLaws.{PassFaultsAreUnique, PassFaultsAreAnswered};
ghost use Rattle.channel_extract.specs.TableLaws.{PassedClosingsAreWritable, ScansAreDueByReading};

/// A well-formed file is passed to its end, by the same items.
pub fn well_formed_files_are_passed()
    ensures { WellFormedFilesArePassed }
{}

/// A file is passed in one way, and not where a fault is found in passing, which is one; and the places of a frame's
/// records rise.
pub fn passes_are_unique()
    ensures one { PassesAreUnique }
    ensures not_both { NoPassIsBoth }
    ensures fault { PassFaultsAreUnique }
    ensures rise { PlacesRise }
{}

/// On a well-formed file whose table is good and lists the kind, the extraction by the table is that by reading all.
pub fn table_and_reading_agree()
    ensures { TableAndReadingAgree }
{}

/// In a well-formed file no record of a frame has a fault, and a frame that is ready is written as its cut.
pub fn no_record_has_a_fault()
    ensures clear { NoRecordHasAFault }
    ensures ready { ReadyFramesAreCut }
{}

/// A place that is not right is one that the table has, in any frame; what shows that it is not right is what the
/// extraction names, and a frame that is ready has no such place.
pub fn lies_are_kept()
    ensures kept { LiesAreKept }
    ensures named { LiesAreNamed }
    ensures none { ReadyFramesHaveNone }
{}

/// On a well-formed file the answer that is due may come, and no other may: so it is never a fault. On a file with a
/// fault that is found in passing this is the answer.
pub fn answers_are_due()
    ensures due { AnswersAreDue }
    ensures no_fault { NoAnswerIsAFault }
    ensures come { DueAnswersMayCome }
    ensures fault { PassFaultsAreAnswered }
{}

/// Of each extraction one answer is due, and one output.
pub fn each_extraction_has_one_answer()
    ensures answer { EachExtractionHasOneAnswer }
    ensures output { EachExtractionHasOneOutput }
{}

/// On a well-formed file whose table is good and lists the kind, what is answered and written by the table is what is
/// answered and written by reading all.
pub fn both_answer_alike()
    ensures answer { BothAnswerAlike }
    ensures output { BothWriteAlike }
{}

/// What the contents table of a well-formed file lists is known where its state is good or bad.
pub fn tables_are_as_judged()
    ensures { TablesAreAsJudged }
{}

/// On a well-formed file a place that is not right is answered only where the table is not good, and the table has
/// that place.
pub fn lying_tables_are_bad()
    ensures { LyingTablesAreBad }
{}

/// On a well-formed file whose table is good and lists the kind, the bytes that the extraction by the table takes are
/// within the bound.
pub fn taken_is_within_bound()
    ensures { TakenIsWithinBound }
{}

/// The closing of a file of bytes that is passed to its end can be written.
pub fn passed_closings_are_writable()
    ensures { PassedClosingsAreWritable }
{}

/// On a well-formed file what is due of a scan is what is due by reading all.
pub fn scans_are_due_by_reading()
    ensures { ScansAreDueByReading }
{}
