//! The check of a file: what it holds, or its first fault.

ghost use Rattle.std.specs.Prelude.{◌≡◌, IfOk, None, IsErrOf};
ghost use Rattle.frame_outside.specs.Counts.{Rose};
ghost use Rattle.frame_outside.specs.Shelf.{Told};
ghost use Rattle.frame_tool.specs.Check.{IsFinding};
ghost use Rattle.dumper.specs.Due.{ReadsOneFile};

use crate::judgement::Finding;
use file_content::read_contents;
use frame_outside::{Shelf, ShelfError};
use item_reader::ReadError;
use std::alloc::Global;

/// What is found of the file of that name.
pub fn check_file<S: Shelf>(alloc: Global, shelf: &mut S, name: &str) -> Result<Finding, ShelfError>
    ensures finding { IfOk result
        (λ finding. Told (S.outside shelf.old).files
        (λ held. Told (held name.now) (λ file. IsFinding file finding))) }
    ensures missing { Told (S.outside shelf.old).files (λ held. held name.now ≡ None
        → IsErrOf result ShelfError.Failed) }
    ensures shelf { ReadsOneFile (S.outside shelf.old) (S.outside shelf.new) name.now }
    ensures failed { IsErrOf result ShelfError.Failed
        → Rose (S.outside shelf.old).faults (S.outside shelf.new).faults }
{
    let slot = shelf.source(alloc, name)?;
    match read_contents(alloc, shelf, slot) {
        Ok(contents) => Ok(Finding::Accepted(contents)),
        Err(ReadError::Fault(fault)) => Ok(Finding::Refused(fault)),
        Err(ReadError::Device) => Err(ShelfError::Failed),
        Err(ReadError::NoMemory) => Err(ShelfError::NoMemory),
    }
}
