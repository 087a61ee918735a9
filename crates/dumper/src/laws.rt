//! The laws of dumps. Each is the contract of a function that does nothing: a crate that calls the function has the
//! law.

ghost use Rattle.dumper.specs.Due.{EachFileHasADump, NoFileHasTwoDumps};

/// Of each file exactly one text is to be printed, with its first fault where it is not well-formed.
pub fn each_file_has_one_dump()
    ensures exists { EachFileHasADump }
    ensures unique { NoFileHasTwoDumps }
{}
