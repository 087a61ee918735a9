//! Runs of `copy` and `splice` over a shelf in memory: worked files with the file that each gives, and calls that
//! fail in turn.

use crate::pieces::Piece::{Bare, Bytes, End, Full, Rest, Times};
use crate::pieces::{END_COMMENT, Piece, REVERSED, SHARED, joined, range};
use crate::worked_files::{BIG, ONE_FRAME, Outside, WHOLE, run_over, run_with};
use std::alloc::{AllocError, Global};
use std::process::Abort;
use std::test::Fail;

/// A name, the pieces of a file, and those of its copy.
type Row = (&'static str, &'static [Piece], &'static [Piece]);

/// A name, the pieces of a file, and the bytes of its copy.
type SizedRow = (&'static str, &'static [Piece], usize);

const NO_FRAME: &[Piece] = &[Bare(0, 273)];

const FRAME: &[Piece] = &[Full(0, 3637)];

/// The file of one frame, where each unitY is of length 0.
const SHORT_TEXTS: &[Piece] = &[
    Full(0, 2137),
    Bytes(b"Y"),
    Full(2138, 2214),
    Bytes(b"\0\0"),
    Full(2217, 2276),
    Bytes(b"Y"),
    Full(2277, 2353),
    Bytes(b"\0\0"),
    Full(2356, 2415),
    Bytes(b"Y"),
    Full(2416, 2492),
    Bytes(b"\0\0"),
    Rest(2495),
];

#[test]
fn copies_to_worked_files(rt: HostRuntime) -> Result<(), Fail> {
    let rows: [Row; 6] = [
        ("no frame", NO_FRAME, NO_FRAME),
        ("no frame, big-endian", &[Bytes(BIG)], NO_FRAME),
        ("one frame", FRAME, FRAME),
        ("reverse order, other instances", REVERSED, FRAME),
        ("each unitY is of length 0", SHORT_TEXTS, FRAME),
        ("a comment in FrEndOfFile's entry", END_COMMENT, END_COMMENT),
    ];
    check_copies(&rt, rt.alloc(), rows.as_slice())?;
    Ok(())
}

#[test]
fn copies_to_sizes(rt: HostRuntime) -> Result<(), Fail> {
    let rows: [SizedRow; 6] = [
        ("H1:B's data leads to the vector of H1:A", SHARED, 3547),
        (
            "next of H1:A leads to H1:A",
            &[Full(0, 1526), Bytes(b"\0"), Full(1527, 3637)],
            3329,
        ),
        (
            "the same, and next of H1:C leads to H1:B",
            &[
                Full(0, 1526),
                Bytes(b"\0"),
                Full(1527, 2405),
                Bytes(b"\x05\0\x01\0\0\0"),
                Full(2411, 3637),
            ],
            3329,
        ),
        (
            "next of H1:A leads to H1:C",
            &[Full(0, 1526), Bytes(b"\x02"), Full(1527, 3637)],
            3483,
        ),
        (
            "FrameH of 65534 letters",
            &[
                Full(0, 569),
                Bytes(b"C\0\x01\0\0\0\0\0"),
                Full(577, 583),
                Bytes(b"\xff\xff"),
                Times(65534, b"a"),
                Full(587, 3617),
                End(0),
            ],
            69169,
        ),
        (
            "firstAdc is a list of one link",
            &[
                Full(0, 712),
                Bytes(
                    b"=\0\0\0\0\0\0\0\0\x02\x01\0\0\0\x09\0firstAdc\0\x1b\0PTR_STRUCT(FrAdcData *)[1]\0\x01\0\0\0\0\0\0",
                ),
                Full(770, 3617),
                End(0),
            ],
            3595,
        ),
    ];
    check_sizes(&rt, rt.alloc(), rows.as_slice())?;
    Ok(())
}

/// Copies the file of each row.
fn check_copies(rt: &impl Abort, alloc: Global, rows: &[Row]) -> Result<(), AllocError> {
    for (name, pieces, copied) in rows {
        let file = joined(alloc, pieces)?;
        let copy = joined(alloc, copied)?;
        check_copy(rt, alloc, name, file.as_slice(), copy.as_slice())?;
    }
    Ok(())
}

/// Copies the file of each row.
fn check_sizes(rt: &impl Abort, alloc: Global, rows: &[SizedRow]) -> Result<(), AllocError> {
    for (name, pieces, size) in rows {
        let file = joined(alloc, pieces)?;
        let copy = copy_of(alloc, usize::MAX, file.as_slice())?;
        assert_eq!(rt; copy.len(), *size, "{name}");
        check_copy(rt, alloc, name, file.as_slice(), copy.as_slice())?;
    }
    Ok(())
}

/// The copy of a file is this, also by one byte a call, and the copy of the copy too.
fn check_copy(
    rt: &impl Abort,
    alloc: Global,
    name: &str,
    file: &[u8],
    copy: &[u8],
) -> Result<(), AllocError> {
    let whole = copy_of(alloc, usize::MAX, file)?;
    assert_eq!(rt; whole.as_slice(), copy, "{name}");
    let bytewise = copy_of(alloc, 1, file)?;
    assert_eq!(rt; bytewise.as_slice(), copy, "{name}");
    let again = copy_of(alloc, usize::MAX, copy)?;
    assert_eq!(rt; again.as_slice(), copy, "{name}");
    Ok(())
}

const COPY: &[&str] = &["copy", "f", "o"];

/// What `copy` writes by so many bytes a call; nothing where it is not done or prints.
fn copy_of(alloc: Global, most: usize, file: &[u8]) -> Result<Vec<u8>, AllocError> {
    let outside = Outside { most, ..WHOLE };
    let run = run_with(alloc, outside, &[("f", file)], COPY, "o")?;
    let done = run.status == 0 && run.printed.is_empty();
    let output = run.output.unwrap_or(Vec::new(alloc));
    Ok(if done { output } else { Vec::new(alloc) })
}

#[test]
fn leaves_frames_where_a_fault_is_not_printed(rt: HostRuntime) -> Result<(), Fail> {
    let alloc = rt.alloc();
    let cut = joined(alloc, &[Full(0, 3636)])?;
    let outside = Outside {
        sink_call: 1,
        ..WHOLE
    };
    let run = run_with(alloc, outside, &[("f", cut.as_slice())], COPY, "o")?;
    assert_eq!(rt; run.status, 3);
    assert!(rt; run.printed.is_empty());
    let output = run.output.unwrap_or(Vec::new(alloc));
    assert_eq!(rt; output.as_slice(), range(ONE_FRAME, 0, 2682));
    Ok(())
}

/// The file of one frame without unitY in FrVect.
const NO_UNIT: &[Piece] = &[
    Full(0, 2009),
    Full(2047, 2137),
    Bytes(b"W"),
    Full(2138, 2214),
    Full(2217, 2276),
    Bytes(b"W"),
    Full(2277, 2353),
    Full(2356, 2415),
    Bytes(b"W"),
    Full(2416, 2492),
    Rest(2495),
];

/// The same file with class 12 for FrVect.
const OTHER_CLASS: &[Piece] = &[
    Full(0, 1518),
    Bytes(b"\x0c"),
    Full(1519, 1557),
    Bytes(b"\x0c"),
    Full(1558, 2146),
    Bytes(b"\x0c"),
    Full(2147, 2260),
    Bytes(b"\x0c"),
    Full(2261, 2285),
    Bytes(b"\x0c"),
    Full(2286, 2399),
    Bytes(b"\x0c"),
    Full(2400, 2424),
    Bytes(b"\x0c"),
    Full(2425, 3637),
];

#[test]
fn splices_worked_files(rt: HostRuntime) -> Result<(), Fail> {
    let alloc = rt.alloc();
    // the second file, what is printed, and the bytes that are written
    let rows: [(&[Piece], u8, &str, usize); 4] = [
        (&[Full(0, 3637)], 0, "", 4268),
        (NO_UNIT, 1, "clash: file 1 class 7\n", 2682),
        (OTHER_CLASS, 1, "clash: file 1 class 12\n", 2682),
        (
            &[Full(0, 3636)],
            1,
            "fault: file 1 at 3599 field 0: 3 CutRecord\n",
            3277,
        ),
    ];
    for (second, status, text, size) in rows {
        let file = joined(alloc, second)?;
        let files = [("u", ONE_FRAME), ("x", file.as_slice())];
        let run = run_with(alloc, WHOLE, &files, &["splice", "o", "u", "x"], "o")?;
        assert_eq!(rt; run.status, status, "{text}");
        assert_eq!(rt; run.printed.as_slice(), text.as_bytes(), "{text}");
        let output = run.output.unwrap_or(Vec::new(alloc));
        assert_eq!(rt; output.len(), size, "{text}");
        assert!(rt; output.starts_with(&ONE_FRAME[..2682]), "{text}");
        if status == 0 {
            // the second FrameH, and what the contents table tells of both
            assert_eq!(rt; output.get(2682..2753), ONE_FRAME.get(569..640), "{text}");
            let list = run_over(alloc, WHOLE, output.as_slice(), &["list", "f"])?;
            assert_eq!(rt;
                list.1.as_slice(),
                b"adc 2 H1:A\nadc 2 H1:B\nadc 2 H1:C\n".as_slice()
            );
            let check = run_over(alloc, WHOLE, output.as_slice(), &["check", "f"])?;
            let summary =
                b"accepted\norder: little\nframes: 2\nrecords: 20\ntable: good\nbytes: 4268\n";
            assert_eq!(rt; check.1.as_slice(), summary.as_slice());
        }
    }
    for words in [
        ["copy", "u", "u"].as_slice(),
        &["splice", "o"],
        &["splice", "o", "u", "o"],
    ] {
        let run = run_with(alloc, WHOLE, &[("u", ONE_FRAME)], words, "o")?;
        assert_eq!(rt; run.status, 2);
        assert!(rt; run.output.is_none());
    }
    Ok(())
}

#[test]
fn leaves_parts_where_calls_fail(rt: HostRuntime) -> Result<(), Fail> {
    let alloc = rt.alloc();
    for words in [["copy", "u", "o"].as_slice(), &["splice", "o", "u", "u"]] {
        let files = [("u", ONE_FRAME)];
        let whole = run_with(alloc, WHOLE, &files, words, "o")?;
        let whole = whole.output.unwrap_or(Vec::new(alloc));
        let mut last = 3;
        for call in 1..=24 {
            let outside = Outside {
                shelf_call: call,
                ..WHOLE
            };
            let run = run_with(alloc, outside, &files, words, "o")?;
            let part = run.output.unwrap_or(Vec::new(alloc));
            assert!(rt; run.printed.is_empty(), "call {call}");
            assert!(rt; whole.starts_with(part.as_slice()), "call {call}");
            assert_eq!(rt; part.len() < whole.len(), run.status == 3, "call {call}");
            last = run.status;
        }
        assert_eq!(rt; last, 0);
    }
    Ok(())
}
