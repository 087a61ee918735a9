//! What no clause says: that the calls succeed where memory is there.

ghost use Rattle.std.specs.Prelude.{◌≤◌};
ghost use Rattle.sample_file.specs.Lent.{IsSampleRoom};

use crate::entries::{sample_closing, sample_dictionary};
use crate::frames::SampleFrame;
use std::alloc::{AllocError, Global};
use std::test::Fail;

/// The bytes of the nine bodies of a frame: those of its records, of which each has 14 before its body.
const BODIES: u32 = 724 - 9 * 14;

/// Where the last sample stands in the body of a vector: 27 bytes and 63 samples come before it.
const LAST_SAMPLE: usize = 90;

#[test]
fn entries_are_made(rt: HostRuntime) -> Result<(), Fail> {
    let dictionary = sample_dictionary(rt.alloc())?;
    assert_eq!(rt; dictionary.named(b"FrVect"), Some(7));
    let closing = sample_closing(rt.alloc())?;
    assert_eq!(rt; closing.end.class, 11);
    Ok(())
}

#[test]
fn frames_are_filled(rt: HostRuntime) -> Result<(), Fail> {
    let mut frame = SampleFrame::new(rt.alloc())?;
    assert!(rt; is_filled(rt.alloc(), &mut frame, 0, 73)?);
    assert!(rt; is_filled(rt.alloc(), &mut frame, 7, 122)?);
    assert!(rt; is_filled(rt.alloc(), &mut frame, 100_000, 169)?);
    Ok(())
}

/// Fills frame k, and tells whether its order, the bytes of its bodies, and the last sample of its last vector are
/// these.
fn is_filled(alloc: Global, frame: &mut SampleFrame, k: u32, last: u8) -> Result<bool, AllocError>
    requires room { IsSampleRoom frame.old }
    requires small { k ≤ 100000 }
    ensures { IsSampleRoom frame.new }
{
    let numbering = frame.fill(alloc, k)?;
    if frame.segment.len() != 8 {
        return Ok(false);
    }
    let in_turn = numbering.sequence() == [0, 1, 2, 3, 4, 5, 6, 7].as_slice();
    let sample = frame.segment.body(7).get(LAST_SAMPLE).copied();
    Ok(in_turn && frame.segment.given() == BODIES && sample == Some(last))
}
