//! Copying from one slot of a shelf to another.

ghost use Rattle.std.specs.Prelude.{◌⊎◌, ◌≡◌, ◌<◌, length, None, IfOk, OnErr, IsErrOf};
ghost use Rattle.frame_outside.specs.Counts.{Rose};
ghost use Rattle.frame_outside.specs.Shelf.{Told, IsSource, IsTarget};
ghost use Rattle.outside_trial.specs.Copying.{CopiesAll, CopiesFront, CopiesTooMany};
ghost use Rattle.outside_trial.specs.Copying.{IsCopied, KeepsOthers, TakesTooMany};

use frame_outside::{Shelf, ShelfError};
use std::alloc::Global;

const PIECE: usize = 65_536;

/// Copies the file of one name to the file of another, and answers how many bytes it has.
///
/// After an error the other file is as it was, or holds a front of the one; `Failed` where no file of
/// the one name is held, for a fault of the outside, and for more than 2^64 - 1 bytes.
pub fn copy_file<S: Shelf>(
    alloc: Global,
    shelf: &mut S,
    from: &str,
    to: &str,
) -> Result<u64, ShelfError>
    ensures ok { IfOk result (λ count. Told (S.outside shelf.old).files
        (λ files. IsCopied files (S.outside shelf.new).files from.now to.now count)) }
    ensures err { OnErr result (KeepsOthers (S.outside shelf.old) (S.outside shelf.new) from.now
        to.now) }
    ensures missing { Told (S.outside shelf.old).files
        (λ files. files from.now ≡ None → IsErrOf result ShelfError.Failed) }
    ensures failed { IsErrOf result ShelfError.Failed →
        Rose (S.outside shelf.old).faults (S.outside shelf.new).faults
        ⊎ TakesTooMany (S.outside shelf.old) (S.outside shelf.new) from.now }
{
    let source = shelf.source(alloc, from)?;
    let target = shelf.target(alloc, to)?;
    copy(alloc, shelf, source, target)
}

/// Copies all that a source slot has left to a target slot, and answers how many bytes that was.
///
/// After an error a front of it was copied. More than 2^64 - 1 bytes are `Failed` too.
pub fn copy<S: Shelf>(alloc: Global, shelf: &mut S, from: u32, to: u32) -> Result<u64, ShelfError>
    requires source { IsSource (S.outside shelf.old).slots from }
    requires target { IsTarget (S.outside shelf.old).slots to }
    ensures all { IfOk result
        (λ count. CopiesAll (S.outside shelf.old) (S.outside shelf.new) from to count) }
    ensures front { OnErr result (CopiesFront (S.outside shelf.old) (S.outside shelf.new) from to) }
    ensures failed { IsErrOf result ShelfError.Failed →
        Rose (S.outside shelf.old).faults (S.outside shelf.new).faults
        ⊎ CopiesTooMany (S.outside shelf.old) (S.outside shelf.new) from to }
{
    let Ok(mut buffer) = vec![in alloc; 0; PIECE] else {
        return Err(ShelfError::NoMemory);
    };
    copy_through(alloc, shelf, from, to, buffer.as_mut_slice())
}

/// The same by pieces of at most the buffer's length.
fn copy_through<S: Shelf>(
    alloc: Global,
    shelf: &mut S,
    from: u32,
    to: u32,
    buffer: &mut [u8],
) -> Result<u64, ShelfError>
    requires room { 0 < length buffer.old }
    requires source { IsSource (S.outside shelf.old).slots from }
    requires target { IsTarget (S.outside shelf.old).slots to }
    ensures all { IfOk result
        (λ count. CopiesAll (S.outside shelf.old) (S.outside shelf.new) from to count) }
    ensures front { OnErr result (CopiesFront (S.outside shelf.old) (S.outside shelf.new) from to) }
    ensures failed { IsErrOf result ShelfError.Failed →
        Rose (S.outside shelf.old).faults (S.outside shelf.new).faults
        ⊎ CopiesTooMany (S.outside shelf.old) (S.outside shelf.new) from to }
{
    let mut copied: u64 = 0;
    'pieces: loop {
        let Ok(count) = shelf.take(from, buffer) else {
            return Err(ShelfError::Failed);
        };
        if count == 0 {
            return Ok(copied);
        }
        shelf.put(alloc, to, &buffer[..count])?;
        let Some(more) = copied.checked_add(count as u64) else {
            return Err(ShelfError::Failed);
        };
        copied = more;
    }
}
