//! The laws of comparisons. Each is the contract of a function that does nothing: a crate that calls the function
//! has the law.

ghost use Rattle.content_compare.specs.Laws.{EachComparisonHasADue, NoComparisonHasTwoDues};
ghost use Rattle.content_compare.specs.Laws.{SameIsDueOfSameContents};

/// Of files that hold bytes exactly one answer is due.
pub fn each_comparison_has_one_due()
    ensures exists { EachComparisonHasADue }
    ensures unique { NoComparisonHasTwoDues }
{}

/// Of well-formed files it is due that they are the same exactly where their contents are.
pub fn comparisons_tell_contents()
    ensures { SameIsDueOfSameContents }
{}
