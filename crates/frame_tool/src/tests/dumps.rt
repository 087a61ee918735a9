//! Runs of `dump` over a shelf and a sink in memory: worked files with the text that each gives, and calls that fail in
//! turn.

use crate::pieces::Piece::{Bare, Bytes, End};
use crate::pieces::{Piece, joined};
use crate::worked_files::{BIG, ONE_FRAME, Outside, WHOLE, run_over};
use std::alloc::{AllocError, Global};
use std::process::Abort;
use std::test::Fail;

/// The entry of a FrameH with an element of each form.
const FORMS: &[u8] = b"\
    \x1c\0\0\0\0\0\0\0\0\x01\0\0\0\0\x07\0FrameH\0\x03\0\x01\0\0\
    \x1f\0\0\0\0\0\0\0\0\x02\0\0\0\0\x03\0s1\0\x07\0INT_1S\0\x01\0\0\
    \x1f\0\0\0\0\0\0\0\0\x02\x01\0\0\0\x03\0s2\0\x07\0INT_2S\0\x01\0\0\
    \x1f\0\0\0\0\0\0\0\0\x02\x02\0\0\0\x03\0s4\0\x07\0INT_4S\0\x01\0\0\
    \x1f\0\0\0\0\0\0\0\0\x02\x03\0\0\0\x03\0s8\0\x07\0INT_8S\0\x01\0\0\
    \x1c\0\0\0\0\0\0\0\0\x02\x04\0\0\0\x02\0c\0\x05\0CHAR\0\x01\0\0\
    \x1e\0\0\0\0\0\0\0\0\x02\x05\0\0\0\x02\0r\0\x07\0REAL_4\0\x01\0\0\
    \"\0\0\0\0\0\0\0\0\x02\x06\0\0\0\x03\0z8\0\x0a\0COMPLEX_8\0\x01\0\0\
    $\0\0\0\0\0\0\0\0\x02\x07\0\0\0\x04\0z16\0\x0b\0COMPLEX_16\0\x01\0\0\
    \x1f\0\0\0\0\0\0\0\0\x02\x08\0\0\0\x03\0t\"\0\x07\0STRING\0\x01\0\0\
    ,\0\0\0\0\0\0\0\0\x02\x09\0\0\0\x02\0p\0\x15\0PTR_STRUCT(FrameH *)\0\x01\0\0\
    \x1e\0\0\0\0\0\0\0\0\x02\x0a\0\0\0\x02\0n\0\x07\0INT_2U\0\x01\0\0\
    \"\0\0\0\0\0\0\0\0\x02\x0b\0\0\0\x02\0l\0\x0b\0INT_2S [n]\0\x01\0\0\
    $\0\0\0\0\0\0\0\0\x02\x0c\0\0\0\x02\0z\0\x0d\0COMPLEX_8[2]\0\x01\0\0\
    \"\0\0\0\0\0\0\0\0\x02\x0d\0\0\0\x03\0ts\0\x0a\0STRING[n]\0\x01\0\0\
    0\0\0\0\0\0\0\0\0\x02\x0e\0\0\0\x03\0ps\0\x18\0PTR_STRUCT(FrameH *)[n]\0\x01\0\0\
    !\0\0\0\0\0\0\0\0\x02\x0f\0\0\0\x02\0e\0\x0a\0INT_4U[0]\0\x01\0\0\
    \x1f\0\0\0\0\0\0\0\0\x02\x10\0\0\0\x02\0b\0\x08\0CHAR[n]\0\x01\0\0\
    \x20\0\0\0\0\0\0\0\0\x02\x11\0\0\0\x03\0b0\0\x08\0CHAR[0]\0\x01\0\0";

/// Its record, with four bytes after the fields.
const FORMS_RECORD: &[u8] = b"\
    w\0\0\0\0\0\0\0\0\x03\0\0\0\0\xff\xfe\xff\xfd\xff\xff\xff\0\0\0\0\0\0\0\x80\xff\0\0\x80?\0\0\x80?\0\0\0@\0\0\
    \0\0\0\0\xf0?\0\0\0\0\0\0\0@\x07\0a\"\\\0\x0a~\0\x03\0\0\0\0\0\x02\0\xff\xff\x05\0\0\0\x80?\0\0\0@\0\0@@\0\0\
    \x80@\0\0\x02\0x\0\x03\0\0\0\0\0\0\0\x07\0\0\0\xff\0tail";

/// The entry of an end record without elements, and that record.
const FRAME_END: &[u8] = b"\
    \"\0\0\0\0\0\0\0\0\x01\x01\0\0\0\x0d\0FrEndOfFrame\0\x09\0\x01\0\0\
    \x0e\0\0\0\0\0\0\0\0\x09\0\0\0\0";

/// An entry of a contents table that is not fit, whose record has a body of three bytes.
const TABLE: &[u8] = b"\
    \x1b\0\0\0\0\0\0\0\0\x01\x01\0\0\0\x06\0FrTOC\0\x0a\0\x01\0\0\
    \x1e\0\0\0\0\0\0\0\0\x02\0\0\0\0\x02\0n\0\x07\0INT_4U\0\x01\0\0\
    \x11\0\0\0\0\0\0\0\0\x0a\0\0\0\0abc";

/// What is printed of the entry.
const FORMS_LINES: &str = "\
    entry 3 FrameH elements 18\n\x20 s1 INT_1S\n\x20 s2 INT_2S\n\x20 s4 INT_4S\n\x20 s8 INT_8S\n\
    \x20 c CHAR\n\x20 r REAL_4\n\x20 z8 COMPLEX_8\n\x20 z16 COMPLEX_16\n\x20 t\\x22 STRING\n\
    \x20 p PTR_STRUCT(FrameH *)\n\x20 n INT_2U\n\x20 l INT_2S [n]\n\x20 z COMPLEX_8[2]\n\x20 ts STRING[n]\n\
    \x20 ps PTR_STRUCT(FrameH *)[n]\n\x20 e INT_4U[0]\n\x20 b CHAR[n]\n\x20 b0 CHAR[0]\n";

/// What is printed of the record.
const RECORD_LINES: &str = "\
    record at 673 FrameH class 3 instance 0 length 119\n\x20 s1 = -1\n\x20 s2 = -2\n\x20 s4 = -3\n\
    \x20 s8 = -9223372036854775808\n\x20 c = 255\n\x20 r = 0x3f800000\n\x20 z8 = 0x3f800000 0x40000000\n\
    \x20 z16 = 0x3ff0000000000000 0x4000000000000000\n\x20 t\\x22 = \"a\\x22\\x5c\\x00\\x0a~\"\n\x20 p = 3:0\n\
    \x20 n = 2\n\x20 l = [-1 5]\n\x20 z = [0x3f800000 0x40000000 0x40400000 0x40800000]\n\
    \x20 ts = [\"\" \"x\"]\n\x20 ps = [3:0 null]\n\x20 e = []\n\x20 b = #ff00\n\x20 b0 = #\n\x20 tail 4\n";

/// What is printed of the end record's entry and record.
const FRAME_END_LINES: &str = "\
    entry 9 FrEndOfFrame elements 0\nrecord at 826 FrEndOfFrame class 9 instance 0 length 14\n";

/// What is printed of FrEndOfFile's entry.
const END_LINES: &str = "\
    entry 11 FrEndOfFile elements 4\n\x20 nFrames INT_4U\n\x20 nBytes INT_8U\n\x20 seekTOC INT_8U\n\
    \x20 chkSum INT_4U\n";

/// A name, the pieces of a file, and the texts that `dump` prints, one after another.
type Row = (&'static str, &'static [Piece], &'static [&'static str]);

#[test]
fn dumps_files(rt: HostRuntime) -> Result<(), Fail> {
    let rows: [Row; 4] = [
        (
            "no frame",
            &[Bare(0, 273)],
            &["file order little\n", END_LINES, LAST_LINES],
        ),
        (
            "no frame, big-endian",
            &[Bytes(BIG)],
            &["file order big\n", END_LINES, LAST_LINES],
        ),
        (
            "each form of value, and a tail",
            &[
                Bare(0, 40),
                Bytes(FORMS),
                Bytes(FORMS_RECORD),
                Bytes(FRAME_END),
                Bare(40, 249),
                Bytes(b"\x01\0\0\0"),
                End(0),
            ],
            &[
                "file order little\n",
                FORMS_LINES,
                RECORD_LINES,
                FRAME_END_LINES,
                END_LINES,
                "record at 1035 FrEndOfFile class 11 instance 0 length 38\n\x20 nFrames = 1\n\x20 nBytes = 0\n\
                \x20 seekTOC = 0\n\x20 chkSum = 0\nend bytes 1073\n",
            ],
        ),
        (
            "a contents table that is not read",
            &[Bare(0, 40), Bytes(TABLE), Bare(40, 253), End(0)],
            &[
                "file order little\n",
                "entry 10 FrTOC elements 1\n\x20 n INT_4U\nrecord at 97 FrTOC class 10 instance 0 length 17\n\
                \x20 unread\n",
                END_LINES,
                "record at 309 FrEndOfFile class 11 instance 0 length 38\n\x20 nFrames = 0\n\x20 nBytes = 0\n\
                \x20 seekTOC = 0\n\x20 chkSum = 0\nend bytes 347\n",
            ],
        ),
    ];
    check_dumps(&rt, rt.alloc(), rows.as_slice())?;
    Ok(())
}

/// What is printed of the end of the file without a frame.
const LAST_LINES: &str = "\
    record at 235 FrEndOfFile class 11 instance 0 length 38\n\x20 nFrames = 0\n\x20 nBytes = 273\n\
    \x20 seekTOC = 0\n\x20 chkSum = 0\nend bytes 273\n";

#[test]
fn dumps_up_to_faults(rt: HostRuntime) -> Result<(), Fail> {
    let rows: [Row; 4] = [
        (
            "a cut header",
            &[Bare(0, 39)],
            &["fault: file 0 at 39 field 0: 1 CutHeader\n"],
        ),
        (
            "a cut entry",
            &[Bare(0, 50)],
            &[
                "file order little\n",
                "fault: file 0 at 40 field 0: 3 CutRecord\n",
            ],
        ),
        (
            "no end",
            &[Bare(0, 235)],
            &[
                "file order little\n",
                END_LINES,
                "fault: file 0 at 235 field 0: 24 NoEnd\n",
            ],
        ),
        (
            "a byte after the end",
            &[Bare(0, 273), Bytes(b"x")],
            &[
                "file order little\n",
                END_LINES,
                "fault: file 0 at 273 field 0: 27 Trailing\n",
            ],
        ),
    ];
    check_dumps(&rt, rt.alloc(), rows.as_slice())?;
    Ok(())
}

/// Runs `dump` over the file of each row, also by one byte a call, and with a sink that fails.
fn check_dumps(rt: &impl Abort, alloc: Global, rows: &[Row]) -> Result<(), AllocError> {
    for (name, pieces, texts) in rows {
        let file = joined(alloc, pieces)?;
        let mut text = String::new(alloc);
        let mut status = 0;
        for part in *texts {
            status = u8::from(part.starts_with("fault"));
            text.push_str(part)?;
        }
        for most in [usize::MAX, 1] {
            let outside = Outside { most, ..WHOLE };
            let (got, printed) = run_over(alloc, outside, file.as_slice(), &["dump", "f"])?;
            assert_eq!(rt; printed.as_slice(), text.as_bytes(), "{name}");
            assert_eq!(rt; got, status, "{name}");
        }
        let outside = Outside {
            sink_call: 1,
            ..WHOLE
        };
        let (got, printed) = run_over(alloc, outside, file.as_slice(), &["dump", "f"])?;
        assert!(rt; printed.is_empty(), "{name}");
        assert_eq!(rt; got, 3, "{name}");
    }
    Ok(())
}

#[test]
fn dumps_lines_of_a_frame(rt: HostRuntime) -> Result<(), Fail> {
    let (status, printed) = run_over(rt.alloc(), WHOLE, ONE_FRAME, &["dump", "f"])?;
    assert_eq!(rt; status, 0);
    for line in [
        "\n  data = #01020304\n",
        "\n  dx = [0x3ff0000000000000]\n",
        "\n  rawData = 4:0\n",
        "\n  procData = null\n",
        "\n  positionADC = [1485 2227 2366]\n",
        "\nend bytes 3637\n",
    ] {
        assert!(rt; has_line(printed.as_slice(), line.as_bytes()), "{line}");
    }
    Ok(())
}

/// Whether the bytes stand in the text.
fn has_line(text: &[u8], line: &[u8]) -> bool {
    text.windows(line.len().max(1)).any(|window| window == line)
}
