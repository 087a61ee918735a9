//! Runs of `check` and `list` over files with channels of each kind, and with contents tables that tell where
//! they stand, or do not.

use crate::pieces::Piece::{Bare, Bytes, End, Full, Numbers, Rest};
use crate::pieces::{
    BAD, GOOD, LOST, ListedRow, NO_TABLE, Piece, THREE, UNREAD, check_print, joined, joined_parts,
    listed_rows,
};
use crate::worked_files::BIG;
use std::alloc::{AllocError, Global};
use std::test::Fail;

#[test]
fn finds_tables(rt: HostRuntime) -> Result<(), Fail> {
    let rows: [ListedRow; 12] = [
        (
            "no frame",
            &[Bare(0, 273)],
            "accepted\norder: little\nframes: 0\nrecords: 0\ntable: none\nbytes: 273\n",
            "",
        ),
        (
            "no frame, big-endian",
            &[Bytes(BIG)],
            "accepted\norder: big\nframes: 0\nrecords: 0\ntable: none\nbytes: 273\n",
            "",
        ),
        ("one frame", &[Full(0, 3637)], GOOD, THREE),
        ("seekTOC is 0", &[Full(0, 3617), End(0)], NO_TABLE, THREE),
        (
            "seekTOC is one byte too large",
            &[Full(0, 3617), End(325)],
            LOST,
            THREE,
        ),
        (
            "seekTOC is one byte too small",
            &[Full(0, 3617), End(323)],
            LOST,
            THREE,
        ),
        (
            "seekTOC leads to the table's entry",
            &[Full(0, 3617), End(955)],
            LOST,
            THREE,
        ),
        (
            "seekTOC leads to the beginning of the file",
            &[Full(0, 3617), End(3637)],
            LOST,
            THREE,
        ),
        (
            "seekTOC leads before the beginning of the file",
            &[Full(0, 3617), End(3638)],
            LOST,
            THREE,
        ),
        (
            "seekTOC is 2^64 - 1",
            &[Full(0, 3617), End(u64::MAX)],
            LOST,
            THREE,
        ),
        (
            "seekTOC leads to a table that is not there",
            &[Full(0, 3313), Rest(3404)],
            "accepted\norder: little\nframes: 1\nrecords: 10\ntable: lost\nbytes: 3546\n",
            THREE,
        ),
        (
            "the table's entry stands once more after it",
            &[Full(0, 3404), Full(2682, 3313), Full(3404, 3617), End(955)],
            "accepted\norder: little\nframes: 1\nrecords: 10\ntable: good\nbytes: 4268\n",
            THREE,
        ),
    ];
    listed_rows(&rt, rt.alloc(), rows.as_slice())?;
    Ok(())
}

#[test]
fn judges_positions(rt: HostRuntime) -> Result<(), Fail> {
    let rows: [ListedRow; 12] = [
        (
            "H1:B's position is 2228",
            &[Full(0, 3376), Numbers(&[2228]), Full(3384, 3637)],
            BAD,
            THREE,
        ),
        (
            "the frame's position is 570",
            &[Full(0, 3335), Numbers(&[570]), Full(3343, 3637)],
            BAD,
            THREE,
        ),
        (
            "H1:A's position is 1486",
            &[Full(0, 3368), Numbers(&[1486]), Full(3376, 3637)],
            BAD,
            THREE,
        ),
        (
            "H1:A's position is that of its vector",
            &[Full(0, 3368), Numbers(&[2137]), Full(3376, 3637)],
            BAD,
            THREE,
        ),
        (
            "H1:A's position is that of H1:B",
            &[Full(0, 3368), Numbers(&[2227]), Full(3376, 3637)],
            BAD,
            THREE,
        ),
        (
            "H1:A's position is 2^64 - 1",
            &[Full(0, 3368), Numbers(&[u64::MAX]), Full(3376, 3637)],
            BAD,
            THREE,
        ),
        (
            "H1:A's position is 0",
            &[Full(0, 3368), Numbers(&[0]), Full(3376, 3637)],
            BAD,
            THREE,
        ),
        (
            "the first listed name is H1:B",
            &[Full(0, 3352), Bytes(b"B"), Full(3353, 3637)],
            BAD,
            THREE,
        ),
        (
            "the names are listed in another order",
            &[
                Full(0, 3352),
                Bytes(b"B"),
                Full(3353, 3359),
                Bytes(b"A"),
                Full(3360, 3368),
                Numbers(&[2227, 1485]),
                Full(3384, 3637),
            ],
            GOOD,
            THREE,
        ),
        (
            "H1:C is not listed",
            &[
                Full(0, 3313),
                Numbers(&[76]),
                Full(3321, 3343),
                Bytes(b"\x02\0\0\0"),
                Full(3347, 3361),
                Numbers(&[1485, 2227]),
                Full(3392, 3617),
                End(309),
            ],
            "accepted\norder: little\nframes: 1\nrecords: 10\ntable: bad\nbytes: 3622\n",
            THREE,
        ),
        (
            "a name is listed that no frame has, at 0",
            &[
                Full(0, 3313),
                Numbers(&[106]),
                Full(3321, 3343),
                Bytes(b"\x04\0\0\0"),
                Full(3347, 3368),
                Bytes(b"\x05\0H1:D\0"),
                Full(3368, 3392),
                Numbers(&[0]),
                Full(3392, 3617),
                End(339),
            ],
            "accepted\norder: little\nframes: 1\nrecords: 10\ntable: good\nbytes: 3652\n",
            THREE,
        ),
        (
            "a name is listed that no frame has, elsewhere",
            &[
                Full(0, 3313),
                Numbers(&[106]),
                Full(3321, 3343),
                Bytes(b"\x04\0\0\0"),
                Full(3347, 3368),
                Bytes(b"\x05\0H1:D\0"),
                Full(3368, 3392),
                Numbers(&[1485]),
                Full(3392, 3617),
                End(339),
            ],
            "accepted\norder: little\nframes: 1\nrecords: 10\ntable: bad\nbytes: 3652\n",
            THREE,
        ),
    ];
    listed_rows(&rt, rt.alloc(), rows.as_slice())?;
    Ok(())
}

#[test]
fn reads_tables(rt: HostRuntime) -> Result<(), Fail> {
    let rows: [ListedRow; 10] = [
        (
            "nProc is 4294967295",
            &[Full(0, 3392), Bytes(b"\xff\xff\xff\xff"), Full(3396, 3637)],
            UNREAD,
            THREE,
        ),
        (
            "the type of positionH is another",
            &[Full(0, 2832), Bytes(b"S"), Full(2833, 3637)],
            UNREAD,
            THREE,
        ),
        (
            "the type of positionH is none",
            &[Full(0, 2828), Bytes(b"M"), Full(2829, 3637)],
            UNREAD,
            THREE,
        ),
        (
            "the first name is not closed",
            &[Full(0, 3353), Bytes(b"A"), Full(3354, 3637)],
            UNREAD,
            THREE,
        ),
        (
            "three bytes stand after the fields",
            &[
                Full(0, 3313),
                Numbers(&[94]),
                Full(3321, 3404),
                Bytes(b"abc"),
                Full(3404, 3617),
                End(327),
            ],
            "accepted\norder: little\nframes: 1\nrecords: 10\ntable: unread\nbytes: 3640\n",
            THREE,
        ),
        (
            "four bytes stand after the fields",
            &[
                Full(0, 3313),
                Numbers(&[95]),
                Full(3321, 3404),
                Bytes(b"abcd"),
                Full(3404, 3617),
                End(328),
            ],
            "accepted\norder: little\nframes: 1\nrecords: 10\ntable: good\nbytes: 3641\n",
            THREE,
        ),
        (
            "nFrame and nADC of INT_8U",
            &[
                Full(0, 2742),
                Bytes(b"8"),
                Full(2743, 2876),
                Bytes(b"8"),
                Full(2877, 3313),
                Numbers(&[99]),
                Full(3321, 3327),
                Numbers(&[1]),
                Full(3331, 3343),
                Numbers(&[3]),
                Full(3347, 3617),
                End(332),
            ],
            "accepted\norder: little\nframes: 1\nrecords: 10\ntable: good\nbytes: 3645\n",
            THREE,
        ),
        (
            "nADC of INT_2U",
            &[
                Full(0, 2876),
                Bytes(b"2"),
                Full(2877, 3313),
                Numbers(&[89]),
                Full(3321, 3343),
                Bytes(b"\x03\0"),
                Full(3347, 3617),
                End(322),
            ],
            "accepted\norder: little\nframes: 1\nrecords: 10\ntable: unread\nbytes: 3635\n",
            THREE,
        ),
        (
            "the last element is nSer",
            &[
                Full(0, 3274),
                Bytes(b"%\0\0\0\0\0\0\0\0\x02\x0c\0\0\0\x05\0nSer\0\x07\0INT_4U\0\x01\0\0\0\0\0\0"),
                Full(3313, 3617),
                End(324),
            ],
            "accepted\norder: little\nframes: 1\nrecords: 10\ntable: unread\nbytes: 3635\n",
            THREE,
        ),
        (
            "the last element is mSer",
            &[
                Full(0, 3274),
                Bytes(b"%\0\0\0\0\0\0\0\0\x02\x0c\0\0\0\x05\0mSer\0\x07\0INT_4U\0\x01\0\0\0\0\0\0"),
                Full(3313, 3617),
                End(324),
            ],
            "accepted\norder: little\nframes: 1\nrecords: 10\ntable: good\nbytes: 3635\n",
            THREE,
        ),
    ];
    listed_rows(&rt, rt.alloc(), rows.as_slice())?;
    Ok(())
}

/// What `check` prints of a file of two frames like that of the file of one, by the state of its table.
const GOOD_OF_TWO: &str =
    "accepted\norder: little\nframes: 2\nrecords: 20\ntable: good\nbytes: 4268\n";

const BAD_OF_TWO: &str =
    "accepted\norder: little\nframes: 2\nrecords: 20\ntable: bad\nbytes: 4268\n";

/// The first of the two frames, with all before it: as it is, and without H1:B in its list.
const FIRST: &[Piece] = &[Full(0, 2682)];

const FIRST_OF_TWO_CHANNELS: &[Piece] = &[Full(0, 1526), Bytes(b"\x02"), Full(1527, 2682)];

/// The second of them alike, with no entries.
const SECOND: &[Piece] = &[
    Full(569, 640),
    Full(809, 839),
    Full(1129, 1180),
    Full(1485, 1534),
    Full(2137, 2505),
    Full(2656, 2682),
];

const SECOND_OF_TWO_CHANNELS: &[Piece] = &[
    Full(569, 640),
    Full(809, 839),
    Full(1129, 1180),
    Full(1485, 1526),
    Bytes(b"\x02"),
    Full(1527, 1534),
    Full(2137, 2505),
    Full(2656, 2682),
];

/// The entry of a table whose positions are of the type `INT_8U[nADC][nFrame]`, or `INT_8U[nFrame][nADC]`.
const BY_NAME: &[Piece] = &[Full(2682, 3313)];

const BY_FRAME: &[Piece] = &[Full(2682, 2965), Bytes(b"[nFrame][nADC]"), Full(2979, 3313)];

/// The file of two frames with a table of these positions.
fn two_frames(
    alloc: Global,
    parts: &[&'static [Piece]],
    positions: &'static [u64],
) -> Result<Vec<u8>, AllocError> {
    let mut file = joined_parts(alloc, parts)?;
    let closing = [
        Numbers(&[127]),
        Full(3321, 3327),
        Bytes(b"\x02\0\0\0\0\0\0\0\0\0\0\0"),
        Numbers(&[569, 2682]),
        Full(3343, 3368),
        Numbers(positions),
        Full(3392, 3613),
        Bytes(b"\x02\0\0\0"),
        End(360),
    ];
    file.extend_from_slice(joined(alloc, closing.as_slice())?.as_slice())?;
    Ok(file)
}

/// A name, the frames and the entry of the table, its positions, and the texts that `check` and `list` print.
type TwoFrames = (
    &'static str,
    [&'static [Piece]; 3],
    &'static [u64],
    &'static str,
    &'static str,
);

#[test]
fn counts_frames(rt: HostRuntime) -> Result<(), Fail> {
    let alloc = rt.alloc();
    let both = "adc 2 H1:A\nadc 2 H1:B\nadc 2 H1:C\n";
    let one = "adc 2 H1:A\nadc 1 H1:B\nadc 2 H1:C\n";
    let later = "adc 2 H1:A\nadc 2 H1:C\nadc 1 H1:B\n";
    let rows: [TwoFrames; 9] = [
        (
            "positions name by name",
            [FIRST, SECOND, BY_NAME],
            &[1485, 2834, 2227, 2973, 2366, 3112],
            GOOD_OF_TWO,
            both,
        ),
        (
            "told name by name, stored frame by frame",
            [FIRST, SECOND, BY_NAME],
            &[1485, 2227, 2366, 2834, 2973, 3112],
            BAD_OF_TWO,
            both,
        ),
        (
            "positions frame by frame",
            [FIRST, SECOND, BY_FRAME],
            &[1485, 2227, 2366, 2834, 2973, 3112],
            GOOD_OF_TWO,
            both,
        ),
        (
            "told frame by frame, stored name by name",
            [FIRST, SECOND, BY_FRAME],
            &[1485, 2834, 2227, 2973, 2366, 3112],
            BAD_OF_TWO,
            both,
        ),
        (
            "the second frame lacks H1:B",
            [FIRST, SECOND_OF_TWO_CHANNELS, BY_NAME],
            &[1485, 2834, 2227, 0, 2366, 3112],
            GOOD_OF_TWO,
            one,
        ),
        (
            "the same, frame by frame",
            [FIRST, SECOND_OF_TWO_CHANNELS, BY_FRAME],
            &[1485, 2227, 2366, 2834, 0, 3112],
            GOOD_OF_TWO,
            one,
        ),
        (
            "the second frame's H1:B is in no list",
            [FIRST, SECOND_OF_TWO_CHANNELS, BY_NAME],
            &[1485, 2834, 2227, 2973, 2366, 3112],
            BAD_OF_TWO,
            one,
        ),
        (
            "the first frame lacks H1:B",
            [FIRST_OF_TWO_CHANNELS, SECOND, BY_NAME],
            &[1485, 2834, 0, 2973, 2366, 3112],
            GOOD_OF_TWO,
            later,
        ),
        (
            "the first frame's position told for the second",
            [FIRST_OF_TWO_CHANNELS, SECOND, BY_NAME],
            &[1485, 1485, 0, 2973, 2366, 3112],
            BAD_OF_TWO,
            later,
        ),
    ];
    for (name, parts, positions, summary, channels) in rows {
        let file = two_frames(alloc, parts.as_slice(), positions)?;
        check_print(&rt, alloc, name, file.as_slice(), "check", summary)?;
        check_print(&rt, alloc, name, file.as_slice(), "list", channels)?;
    }
    Ok(())
}
