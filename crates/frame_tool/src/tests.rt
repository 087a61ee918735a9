//! Runs of `walk` over a shelf and a sink in memory: worked files with the text and the status that each gives, and
//! calls that fail in turn.

mod channels;
mod check;
mod copies;
mod dumps;
mod frames;
mod making;
mod reader;
mod same;
mod tables;

use crate::worked_files::{BIG, LITTLE, ONE_FRAME, Outside, WHOLE, changed, run_over};
use std::alloc::{AllocError, Global};
use std::test::Fail;

#[test]
fn walks_worked_files(rt: HostRuntime) -> Result<(), Fail> {
    let alloc = rt.alloc();
    let none: &[u8] = &[];
    let rows = [
        (LITTLE, 273, 0, none, 0, "order: little\nstructures: 6\n"),
        (BIG, 273, 0, none, 0, "order: big\nstructures: 6\n"),
        (
            ONE_FRAME,
            3637,
            0,
            none,
            0,
            "order: little\nstructures: 80\n",
        ),
        (
            LITTLE,
            39,
            0,
            none,
            1,
            "fault: file 0 at 39 field 0: 1 CutHeader\n",
        ),
        (
            LITTLE,
            0,
            0,
            none,
            1,
            "fault: file 0 at 0 field 0: 1 CutHeader\n",
        ),
        (LITTLE, 40, 0, none, 0, "order: little\nstructures: 0\n"),
        (
            LITTLE,
            273,
            12,
            b"\x12\x35",
            1,
            "fault: file 0 at 12 field 0: 2 BadHeader\n",
        ),
        (
            LITTLE,
            273,
            5,
            b"\x06",
            1,
            "fault: file 0 at 5 field 0: 2 BadHeader\n",
        ),
        (LITTLE, 273, 6, b"\x09", 0, "order: little\nstructures: 6\n"),
        (
            LITTLE,
            273,
            235,
            b"\x0d",
            1,
            "fault: file 0 at 235 field 0: 4 LengthSmall\n",
        ),
        (
            LITTLE,
            273,
            235,
            &[0xff; 8],
            1,
            "fault: file 0 at 235 field 0: 5 RecordLimit\n",
        ),
        (
            LITTLE,
            273,
            235,
            b"\x10\x27",
            1,
            "fault: file 0 at 235 field 0: 3 CutRecord\n",
        ),
    ];
    for (base, size, at, bytes, status, text) in rows {
        let file = changed(alloc, base, size, at, bytes)?;
        for most in [usize::MAX, 1] {
            let outside = Outside { most, ..WHOLE };
            let (got, printed) = run_over(alloc, outside, file.as_slice(), &["walk", "f"])?;
            assert_eq!(rt; got, status, "{text}");
            assert_eq!(rt; printed.as_slice(), text.as_bytes(), "{text}");
        }
    }
    Ok(())
}

#[test]
fn answers_words_and_failing_calls(rt: HostRuntime) -> Result<(), Fail> {
    let alloc = rt.alloc();
    let none: [&str; 0] = [];
    for words in [
        none.as_slice(),
        &["wlak", "f"],
        &["walk", "f", "f"],
        &["list"],
        &["list", "f", "f"],
    ] {
        let (status, printed) = run_over(alloc, WHOLE, LITTLE, words)?;
        assert_eq!(rt; status, 2);
        assert_eq!(rt; printed.as_slice(), b"usage\n".as_slice());
    }
    let (status, printed) = run_over(alloc, WHOLE, LITTLE, &["walk", "g"])?;
    assert_eq!(rt; status, 3);
    assert!(rt; printed.is_empty());

    // the slot is opened, 273 bytes are taken by seven, and once more at the end
    for call in 1..=42 {
        let outside = Outside {
            most: 7,
            shelf_call: call,
            ..WHOLE
        };
        let (status, printed) = run_over(alloc, outside, LITTLE, &["walk", "f"])?;
        assert_eq!(rt; status, if call < 42 { 3 } else { 0 }, "call {call}");
        assert_eq!(rt; printed.is_empty(), call < 42, "call {call}");
    }
    let outside = Outside {
        sink_call: 1,
        ..WHOLE
    };
    let (status, printed) = run_over(alloc, outside, LITTLE, &["walk", "f"])?;
    assert_eq!(rt; status, 3);
    assert!(rt; printed.is_empty());
    Ok(())
}
