//! Runs of `check` over a shelf and a sink in memory: worked files with the text that each gives, for each reason that
//! a file of this size can show and for neighbours in the table of reasons that hold at once; and calls that fail in
//! turn.
//!
//! No file here shows FileLimit, FrameLimit or a weight beyond the limit, which need files of 4 GB and more, or
//! FramesLimit, which needs 1,000,001 frames. Of two neighbours that are not here together, one is of another kind of
//! structure than the other, or they are of lengths, classes or layouts that exclude each other, or one of them needs
//! such a file.

use crate::pieces::Piece::{Bare, Bytes, Full, Rest, Times};
use crate::pieces::{Row, check_rows, range};
use crate::worked_files::{BIG, LITTLE, ONE_FRAME, Outside, WHOLE, run_over};
use std::alloc::{AllocError, Global};
use std::test::Fail;

#[test]
fn judges_headers_and_lengths(rt: HostRuntime) -> Result<(), Fail> {
    let rows: [Row; 15] = [
        (
            "no frame",
            &[Bare(0, 273)],
            "accepted\norder: little\nframes: 0\nrecords: 0\ntable: none\nbytes: 273\n",
        ),
        (
            "no frame, big-endian",
            &[Bytes(BIG)],
            "accepted\norder: big\nframes: 0\nrecords: 0\ntable: none\nbytes: 273\n",
        ),
        (
            "one frame",
            &[Full(0, 3637)],
            "accepted\norder: little\nframes: 1\nrecords: 10\ntable: good\nbytes: 3637\n",
        ),
        (
            "no frame, 39 bytes",
            &[Bare(0, 39)],
            "fault: file 0 at 39 field 0: 1 CutHeader\n",
        ),
        (
            "no frame, 40 bytes",
            &[Bare(0, 40)],
            "fault: file 0 at 40 field 0: 24 NoEnd\n",
        ),
        (
            "one frame, 3636 bytes",
            &[Full(0, 3636)],
            "fault: file 0 at 3599 field 0: 3 CutRecord\n",
        ),
        (
            "one frame, 3599 bytes",
            &[Full(0, 3599)],
            "fault: file 0 at 3599 field 0: 24 NoEnd\n",
        ),
        (
            "the byte order is neither",
            &[Bare(0, 12), Bytes(b"\x125"), Bare(14, 273)],
            "fault: file 0 at 12 field 0: 2 BadHeader\n",
        ),
        (
            "the version is 6",
            &[Bare(0, 5), Bytes(b"\x06"), Bare(6, 273)],
            "fault: file 0 at 5 field 0: 2 BadHeader\n",
        ),
        (
            "the minor version is not judged",
            &[Bare(0, 6), Bytes(b"\x09"), Bare(7, 273)],
            "accepted\norder: little\nframes: 0\nrecords: 0\ntable: none\nbytes: 273\n",
        ),
        (
            "a wrong header in a cut one: 1 before 2",
            &[Bare(0, 5), Bytes(b"\x06"), Bare(6, 20)],
            "fault: file 0 at 20 field 0: 1 CutHeader\n",
        ),
        (
            "a cut structure after a wrong header: 2 before 3",
            &[Bare(0, 5), Bytes(b"\x06"), Bare(6, 45)],
            "fault: file 0 at 5 field 0: 2 BadHeader\n",
        ),
        (
            "FrameH tells 10000 bytes",
            &[Full(0, 569), Bytes(b"\x10'\0\0\0\0\0\0"), Full(577, 3637)],
            "fault: file 0 at 569 field 0: 3 CutRecord\n",
        ),
        (
            "FrameH tells 13 bytes",
            &[Full(0, 569), Bytes(b"\x0d\0\0\0\0\0\0\0"), Full(577, 3637)],
            "fault: file 0 at 569 field 0: 4 LengthSmall\n",
        ),
        (
            "FrameH tells 2^64 - 1 bytes: 5 before 6",
            &[Full(0, 569), Bytes(&[255; 8]), Full(577, 3637)],
            "fault: file 0 at 569 field 0: 5 RecordLimit\n",
        ),
    ];
    check_rows(&rt, rt.alloc(), rows.as_slice())?;
    Ok(())
}

/// Where the structures of the file without a frame begin.
const PLACES: [usize; 6] = [40, 77, 117, 156, 196, 235];

/// The fault of the first bytes of that file, fewer than it has.
fn fault_of_cut(alloc: Global, size: usize) -> Result<String, AllocError> {
    let mut at = size;
    let mut reason = "1 CutHeader";
    for place in PLACES {
        if place <= size {
            at = place;
            reason = if place == size {
                "24 NoEnd"
            } else {
                "3 CutRecord"
            };
        }
    }
    format!(in alloc; "fault: file 0 at {at} field 0: {reason}\n")
}

#[test]
fn judges_each_cut(rt: HostRuntime) -> Result<(), Fail> {
    let alloc = rt.alloc();
    for size in 0..LITTLE.len() {
        let text = fault_of_cut(alloc, size)?;
        let (status, printed) = run_over(alloc, WHOLE, range(LITTLE, 0, size), &["check", "f"])?;
        assert_eq!(rt; printed.as_slice(), text.as_str().as_bytes());
        assert_eq!(rt; status, 1);
    }
    Ok(())
}

#[test]
fn judges_layouts_and_bodies(rt: HostRuntime) -> Result<(), Fail> {
    let rows: [Row; 9] = [
        (
            "FrVect has no entry",
            &[Full(0, 1534), Rest(2137)],
            "fault: file 0 at 1534 field 0: 7 NoLayout\n",
        ),
        (
            "the type of nx names no field",
            &[
                Full(0, 1838),
                Bytes(
                    b"*\0\0\0\0\0\0\0\0\x02\x07\0\0\0\x03\0nx\0\x0e\0INT_8U[nLate]\0\x01\0\0\0\0\0\0",
                ),
                Rest(1879),
            ],
            "fault: file 0 at 2138 field 0: 8 UnreadLayout\n",
        ),
        (
            "nBytes of a vector is 2^64 - 1",
            &[Full(0, 2170), Bytes(&[255; 8]), Full(2178, 3637)],
            "fault: file 0 at 2137 field 5: 9 BodyShort\n",
        ),
        (
            "nDim of a vector is 4294967295",
            &[Full(0, 2182), Bytes(&[255; 4]), Full(2186, 3637)],
            "fault: file 0 at 2137 field 7: 9 BodyShort\n",
        ),
        (
            "three bytes after the fields of FrEndOfFile",
            &[
                Bare(0, 235),
                Bytes(b")\0\0\0\0\0\0\0"),
                Bare(243, 253),
                Bytes(&[0; 8]),
                Bare(261, 273),
                Bytes(b"abc"),
            ],
            "fault: file 0 at 235 field 4: 10 BodyLong\n",
        ),
        (
            "four bytes after the fields of FrEndOfFile",
            &[
                Bare(0, 235),
                Bytes(b"*\0\0\0\0\0\0\0"),
                Bare(243, 253),
                Bytes(&[0; 8]),
                Bare(261, 273),
                Bytes(b"abcd"),
            ],
            "accepted\norder: little\nframes: 0\nrecords: 0\ntable: none\nbytes: 277\n",
        ),
        (
            "FrameH's name is not closed",
            &[Full(0, 587), Bytes(b"A"), Full(588, 3637)],
            "fault: file 0 at 569 field 0: 11 BadText\n",
        ),
        (
            "an FrSE's name is not closed: 11 before 12",
            &[Bare(0, 100), Bytes(b"A"), Bare(101, 273)],
            "fault: file 0 at 77 field 0: 11 BadText\n",
        ),
        (
            "each unitY is of length 0",
            &[
                Full(0, 2137),
                Bytes(b"Y\0\0\0\0\0\0\0"),
                Full(2145, 2214),
                Bytes(b"\0\0"),
                Full(2217, 2276),
                Bytes(b"Y\0\0\0\0\0\0\0"),
                Full(2284, 2353),
                Bytes(b"\0\0"),
                Full(2356, 2415),
                Bytes(b"Y\0\0\0\0\0\0\0"),
                Full(2423, 2492),
                Bytes(b"\0\0"),
                Rest(2495),
            ],
            "accepted\norder: little\nframes: 1\nrecords: 10\ntable: bad\nbytes: 3634\n",
        ),
    ];
    check_rows(&rt, rt.alloc(), rows.as_slice())?;
    Ok(())
}

#[test]
fn judges_entries(rt: HostRuntime) -> Result<(), Fail> {
    let rows: [Row; 8] = [
        (
            "an entry stands twice",
            &[Full(0, 839), Full(640, 809), Rest(839)],
            "accepted\norder: little\nframes: 1\nrecords: 10\ntable: bad\nbytes: 3806\n",
        ),
        (
            "an entry with another element name",
            &[
                Full(0, 839),
                Full(640, 712),
                Bytes(
                    b"7\0\0\0\0\0\0\0\0\x02\x01\0\0\0\x06\0other\0\x18\0PTR_STRUCT(FrAdcData *)\0\x01\0\0\0\0\0\0",
                ),
                Full(770, 809),
                Rest(839),
            ],
            "fault: file 0 at 839 field 0: 14 Redefined\n",
        ),
        (
            "a name that another class has",
            &[
                Full(0, 839),
                Bytes(b"#\0\0\0\0\0\0\0\0\x01\0\0\0\0\x0a\0FrRawData\0M\0\x01\0\0\0\0\0\0"),
                Rest(839),
            ],
            "fault: file 0 at 839 field 0: 15 NameTwice\n",
        ),
        (
            "an entry of class 256",
            &[
                Full(0, 839),
                Bytes(b"\x1b\0\0\0\0\0\0\0\0\x01\0\0\0\0\x02\0X\0\0\x01\x01\0\0\0\0\0\0"),
                Rest(839),
            ],
            "fault: file 0 at 839 field 0: 13 ClassRange\n",
        ),
        (
            "an entry of 4096 elements",
            &[
                Full(0, 839),
                Bytes(b"\x1b\0\0\0\0\0\0\0\0\x01\0\0\0\0\x02\0X\0M\0\x01\0\0\0\0\0\0"),
                Times(
                    4096,
                    b"\x1f\0\0\0\0\0\0\0\0\x02\0\0\0\0\x01\0\0\x05\0CHAR\0\x01\0\0\0\0\0\0",
                ),
                Rest(839),
            ],
            "accepted\norder: little\nframes: 1\nrecords: 10\ntable: bad\nbytes: 130640\n",
        ),
        (
            "an entry of 4097 elements",
            &[
                Full(0, 839),
                Bytes(b"\x1b\0\0\0\0\0\0\0\0\x01\0\0\0\0\x02\0X\0M\0\x01\0\0\0\0\0\0"),
                Times(
                    4097,
                    b"\x1f\0\0\0\0\0\0\0\0\x02\0\0\0\0\x01\0\0\x05\0CHAR\0\x01\0\0\0\0\0\0",
                ),
                Rest(839),
            ],
            "fault: file 0 at 839 field 0: 16 ElementLimit\n",
        ),
        (
            "4097 elements, and a name that another class has: 15 before 16",
            &[
                Full(0, 839),
                Bytes(b"#\0\0\0\0\0\0\0\0\x01\0\0\0\0\x0a\0FrRawData\0M\0\x01\0\0\0\0\0\0"),
                Times(
                    4097,
                    b"\x1f\0\0\0\0\0\0\0\0\x02\0\0\0\0\x01\0\0\x05\0CHAR\0\x01\0\0\0\0\0\0",
                ),
                Rest(839),
            ],
            "fault: file 0 at 839 field 0: 15 NameTwice\n",
        ),
        (
            "an FrSE after a record",
            &[
                Full(0, 640),
                Bytes(b"\"\0\0\0\0\0\0\0\0\x02\0\0\0\0\x02\0x\0\x07\0INT_4U\0\x01\0\0\0\0\0\0"),
                Rest(640),
            ],
            "fault: file 0 at 640 field 0: 12 StrayElement\n",
        ),
    ];
    check_rows(&rt, rt.alloc(), rows.as_slice())?;
    Ok(())
}

#[test]
fn answers_failing_calls(rt: HostRuntime) -> Result<(), Fail> {
    let alloc = rt.alloc();
    // the slot is opened, the bytes are taken, and once more at the end
    let runs = [
        (LITTLE, usize::MAX, 3),
        (LITTLE, 7, 41),
        (LITTLE, 1, 275),
        (ONE_FRAME, 7, 522),
    ];
    for (file, most, calls) in runs {
        for shelf_call in 1..=calls + 1 {
            let outside = Outside {
                most,
                shelf_call,
                ..WHOLE
            };
            for command in ["check", "list"] {
                let (status, printed) = run_over(alloc, outside, file, &[command, "f"])?;
                let fails = shelf_call <= calls;
                let message = format!(in alloc; "{command}, call {shelf_call} of {calls}")?;
                assert_eq!(rt; status, if fails { 3 } else { 0 }, "{message}");
                // the file without a frame has no channel
                let is_empty = fails || (command == "list" && file.len() == LITTLE.len());
                assert_eq!(rt; printed.is_empty(), is_empty, "{message}");
            }
        }
    }
    let outside = Outside {
        sink_call: 1,
        ..WHOLE
    };
    for (outside, name) in [(outside, "f"), (WHOLE, "g")] {
        for command in ["check", "list"] {
            let (status, printed) = run_over(alloc, outside, LITTLE, &[command, name])?;
            assert_eq!(rt; status, 3, "{command} {name}");
            assert!(rt; printed.is_empty(), "{command} {name}");
        }
    }
    Ok(())
}
