//! Runs of `same` over a shelf in memory: pairs of worked files with the answer that each gives, also by one byte a
//! call, and calls that fail in turn.

use crate::pieces::Piece::{Bare, Bytes, End, Full, Rest};
use crate::pieces::{END_COMMENT, Piece, REVERSED, SHARED, joined};
use crate::worked_files::{BIG, ONE_FRAME, Outside, WHOLE, run_with, status_over};
use frame_outside::{MemShelf, MemSink};
use std::alloc::{AllocError, Global};
use std::process::Abort;
use std::test::Fail;

/// A name, the pieces of two files, and what `same` prints.
type Row = (
    &'static str,
    &'static [Piece],
    &'static [Piece],
    &'static str,
);

const NO_FRAME: &[Piece] = &[Bare(0, 273)];

const FRAME: &[Piece] = &[Full(0, 3637)];

const CUT: &[Piece] = &[Full(0, 3636)];

/// The file of one frame, where H1:B's vector has the values of H1:A's.
const EQUAL_VECTORS: &[Piece] = &[Full(0, 2290), Full(2151, 2227), Full(2366, 3637)];

/// The file without a frame, without the element and the field chkSum of FrEndOfFile.
const NO_SUM: &[Piece] = &[
    Bare(0, 196),
    Bytes(b"\"\0\0\0\0\0\0\0"),
    Bare(243, 253),
    Bytes(&[0; 8]),
    Bare(261, 269),
];

/// The file of one frame with the comment `v` of FrVect.
const VECT_COMMENT: &[Piece] = &[
    Full(0, 1534),
    Bytes(b"!"),
    Full(1535, 1559),
    Bytes(b"\x02\0v\0"),
    Rest(1562),
];

/// The same without its last byte.
const VECT_COMMENT_CUT: &[Piece] = &[
    Full(0, 1534),
    Bytes(b"!"),
    Full(1535, 1559),
    Bytes(b"\x02\0v\0"),
    Full(1562, 3636),
];

/// The same whole, with the comment `end` of FrEndOfFile.
const BOTH_COMMENTS: &[Piece] = &[
    Full(0, 1534),
    Bytes(b"!"),
    Full(1535, 1559),
    Bytes(b"\x02\0v\0"),
    Full(1562, 3404),
    Bytes(b"("),
    Full(3405, 3434),
    Bytes(b"\x04\0end\0"),
    Full(3437, 3617),
    End(0),
];

#[test]
fn compares_equal_contents(rt: HostRuntime) -> Result<(), Fail> {
    let rows: [Row; 5] = [
        ("no frame, big-endian", NO_FRAME, &[Bytes(BIG)], "same\n"),
        ("no frame, little-endian", &[Bytes(BIG)], NO_FRAME, "same\n"),
        ("one frame twice", FRAME, FRAME, "same\n"),
        ("reverse order, other instances", FRAME, REVERSED, "same\n"),
        ("file order", REVERSED, FRAME, "same\n"),
    ];
    compare_rows(&rt, rt.alloc(), rows.as_slice())?;
    Ok(())
}

#[test]
fn tells_frames_apart(rt: HostRuntime) -> Result<(), Fail> {
    let rows: [Row; 3] = [
        (
            "a shared vector and two equal ones",
            SHARED,
            EQUAL_VECTORS,
            "different at 1\n",
        ),
        (
            "two equal vectors and a shared one",
            EQUAL_VECTORS,
            SHARED,
            "different at 1\n",
        ),
        (
            "a structure's comment",
            FRAME,
            VECT_COMMENT,
            "different at 1\n",
        ),
    ];
    compare_rows(&rt, rt.alloc(), rows.as_slice())?;
    Ok(())
}

#[test]
fn tells_closings_apart(rt: HostRuntime) -> Result<(), Fail> {
    let rows: [Row; 4] = [
        ("no chkSum", NO_FRAME, NO_SUM, "different at 0\n"),
        ("a comment", NO_FRAME, END_COMMENT, "different at 0\n"),
        (
            "closings and numbers of frames",
            NO_FRAME,
            FRAME,
            "different at 0\n",
        ),
        (
            "closings and frames",
            FRAME,
            BOTH_COMMENTS,
            "different at 0\n",
        ),
    ];
    compare_rows(&rt, rt.alloc(), rows.as_slice())?;
    Ok(())
}

#[test]
fn names_the_first_fault(rt: HostRuntime) -> Result<(), Fail> {
    let rows: [Row; 4] = [
        (
            "the first is cut",
            CUT,
            FRAME,
            "fault: file 0 at 3599 field 0: 3 CutRecord\n",
        ),
        (
            "the second is cut",
            FRAME,
            CUT,
            "fault: file 1 at 3599 field 0: 3 CutRecord\n",
        ),
        (
            "both are, the second at an earlier place",
            CUT,
            &[Bare(0, 272)],
            "fault: file 0 at 3599 field 0: 3 CutRecord\n",
        ),
        (
            "the second is, and an earlier frame differs",
            FRAME,
            VECT_COMMENT_CUT,
            "fault: file 1 at 3600 field 0: 3 CutRecord\n",
        ),
    ];
    compare_rows(&rt, rt.alloc(), rows.as_slice())?;
    Ok(())
}

/// Compares the two files of each row.
fn compare_rows(rt: &impl Abort, alloc: Global, rows: &[Row]) -> Result<(), AllocError> {
    for (name, first, second, text) in rows {
        let first = joined(alloc, first)?;
        let second = joined(alloc, second)?;
        check_same(rt, alloc, name, first.as_slice(), second.as_slice(), text)?;
    }
    Ok(())
}

/// Compares two files, also by one byte a call.
fn check_same(
    rt: &impl Abort,
    alloc: Global,
    name: &str,
    first: &[u8],
    second: &[u8],
    text: &str,
) -> Result<(), AllocError> {
    let status = u8::from(!text.starts_with("same"));
    for most in [usize::MAX, 1] {
        let outside = Outside { most, ..WHOLE };
        let files = [("a", first), ("b", second)];
        let run = run_with(alloc, outside, &files, SAME, "a")?;
        assert_eq!(rt; run.printed.as_slice(), text.as_bytes(), "{name}");
        assert_eq!(rt; run.status, status, "{name}");
    }
    Ok(())
}

const SAME: &[&str] = &["same", "a", "b"];

const SPLICE: &[&str] = &["splice", "b", "a", "a"];

#[test]
fn compares_with_a_splice(rt: HostRuntime) -> Result<(), Fail> {
    let alloc = rt.alloc();
    let mut shelf = MemShelf::new(alloc);
    shelf.with_file("a", ONE_FRAME)?;
    let mut out = MemSink::new(alloc);
    let spliced = status_over(alloc, SPLICE, &mut shelf, &mut out)?;
    assert_eq!(rt; spliced, 0);
    let compared = status_over(alloc, SAME, &mut shelf, &mut out)?;
    assert_eq!(rt; compared, 1);
    assert_eq!(rt; out.bytes(), b"different at 2\n".as_slice());
    shelf.largest(1);
    let compared = status_over(alloc, SAME, &mut shelf, &mut out)?;
    assert_eq!(rt; compared, 1);
    assert_eq!(rt; out.bytes(), b"different at 2\ndifferent at 2\n".as_slice());
    Ok(())
}

/// The status of a comparison of the file of one frame with itself, after which nothing is printed but the answer.
fn status_of(
    rt: &impl Abort,
    alloc: Global,
    outside: Outside,
    second: &str,
) -> Result<u8, AllocError> {
    let files = [("a", ONE_FRAME), (second, ONE_FRAME)];
    let run = run_with(alloc, outside, &files, SAME, "a")?;
    let text = if run.status == 0 {
        b"same\n".as_slice()
    } else {
        &[]
    };
    assert_eq!(rt; run.printed.as_slice(), text);
    Ok(run.status)
}

#[test]
fn answers_failing_calls(rt: HostRuntime) -> Result<(), Fail> {
    let alloc = rt.alloc();
    let mut last = 3;
    for call in 1..=24 {
        let outside = Outside {
            shelf_call: call,
            ..WHOLE
        };
        let status = status_of(&rt, alloc, outside, "b")?;
        // Device until the number passes the calls of the run
        assert!(rt; status == last || call > 1 && status == 0);
        last = status;
    }
    assert_eq!(rt; last, 0);
    Ok(())
}

#[test]
fn answers_what_is_not_there(rt: HostRuntime) -> Result<(), Fail> {
    let alloc = rt.alloc();
    let missed = status_of(&rt, alloc, WHOLE, "c")?;
    assert_eq!(rt; missed, 3);
    let outside = Outside {
        sink_call: 1,
        ..WHOLE
    };
    let unprinted = status_of(&rt, alloc, outside, "b")?;
    assert_eq!(rt; unprinted, 3);
    Ok(())
}
