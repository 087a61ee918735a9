//! The laws of well-formed files and first faults. Each is the contract of a function that does nothing: a crate that
//! calls the function has the law.

ghost use Rattle.file_grammar.specs.Laws.{EachFileIsJudged, NoFileIsBoth, FaultsAreUnique};
ghost use Rattle.file_grammar.specs.Laws.{ItemsAreUnique, NoPrefixIsWellFormed, ItemsBeforeFaultsAreUnique};
ghost use Rattle.file_grammar.specs.Laws.{NamesTheLeastReason, NoItemStandsAtAFault};

/// Each file is well-formed or has a first fault, and not both; and it has one first fault at most.
pub fn files_are_judged_once()
    ensures judged { EachFileIsJudged }
    ensures apart { NoFileIsBoth }
    ensures unique { FaultsAreUnique }
{}

/// A well-formed file has one list of items, and none of its proper prefixes is well-formed.
pub fn items_are_unique()
    ensures unique { ItemsAreUnique }
    ensures prefixes { NoPrefixIsWellFormed }
{}

/// A file has one list of items before its first fault: two lists of items that each begin the file, with a fault
/// at the place after them, are the same list.
pub fn items_before_faults_are_unique()
    ensures { ItemsBeforeFaultsAreUnique }
{}

/// Of the reasons that hold at a place the least is named, and no item may stand where one is.
pub fn reasons_are_least()
    ensures least { NamesTheLeastReason }
    ensures longest { NoItemStandsAtAFault }
{}
