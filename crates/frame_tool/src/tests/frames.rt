//! Runs of `check` over frames and closings that may stand or may not.

use crate::pieces::Piece::{Bare, Bytes, Full, Rest, Times};
use crate::pieces::{Row, check_print, check_rows, range};
use crate::worked_files::{ONE_FRAME, changed};
use std::test::Fail;

#[test]
fn judges_frames(rt: HostRuntime) -> Result<(), Fail> {
    let rows: [Row; 13] = [
        (
            "FrameH twice with one instance: 17 before 18",
            &[Full(0, 640), Rest(569)],
            "fault: file 0 at 640 field 0: 17 InstanceTwice\n",
        ),
        (
            "FrameH twice",
            &[Full(0, 640), Full(569, 579), Bytes(b"\x01"), Rest(580)],
            "fault: file 0 at 640 field 0: 18 FrameHTwice\n",
        ),
        (
            "the frame has no FrameH",
            &[Full(0, 569), Rest(640)],
            "fault: file 0 at 2585 field 0: 19 NoFrameH\n",
        ),
        (
            "the frame has no FrameH and a loose link: 19 before 20",
            &[Full(0, 569), Full(640, 1520), Bytes(b"\x09"), Rest(1521)],
            "fault: file 0 at 2585 field 0: 19 NoFrameH\n",
        ),
        (
            "an end record after the table: 19 before 23",
            &[Full(0, 3404), Full(2656, 2682), Rest(3404)],
            "fault: file 0 at 3404 field 0: 19 NoFrameH\n",
        ),
        (
            "H1:A's data leads nowhere",
            &[Full(0, 1520), Bytes(b"\x09"), Full(1521, 3637)],
            "fault: file 0 at 1485 field 3: 20 LooseLink\n",
        ),
        (
            "procData leads to the end record",
            &[Full(0, 618), Bytes(b"\x09\0\0\0\0\0"), Full(624, 3637)],
            "fault: file 0 at 569 field 7: 20 LooseLink\n",
        ),
        (
            "next of H1:C leads to H1:A",
            &[Full(0, 2405), Bytes(b"\x05\0\0\0\0\0"), Full(2411, 3637)],
            "accepted\norder: little\nframes: 1\nrecords: 10\ntable: good\nbytes: 3637\n",
        ),
        (
            "two frames",
            &[
                Full(0, 2682),
                Full(569, 640),
                Full(809, 839),
                Full(1129, 1180),
                Full(1485, 1534),
                Full(2137, 2505),
                Full(2656, 3613),
                Bytes(b"\x02\0\0\0"),
                Rest(3617),
            ],
            "accepted\norder: little\nframes: 2\nrecords: 20\ntable: unread\nbytes: 4232\n",
        ),
        (
            "records in reverse order",
            &[
                Full(0, 40),
                Full(1534, 2137),
                Full(2415, 2505),
                Full(1180, 1485),
                Full(2366, 2415),
                Full(2276, 2366),
                Full(2227, 2276),
                Full(2137, 2227),
                Full(1485, 1534),
                Full(839, 1180),
                Full(640, 839),
                Full(40, 640),
                Rest(2505),
            ],
            "accepted\norder: little\nframes: 1\nrecords: 10\ntable: bad\nbytes: 3637\n",
        ),
        (
            "the frame has no end record",
            &[Full(0, 2505), Rest(2682)],
            "fault: file 0 at 3136 field 0: 21 OpenFrame\n",
        ),
        (
            "a wrong closing in an open frame: 21 before 22",
            &[
                Full(0, 2505),
                Full(3404, 3481),
                Bytes(
                    b"'\0\0\0\0\0\0\0\0\x02\x01\0\0\0\x07\0nBytes\0\x07\0INT_4U\0\x01\0\0\0\0\0\0",
                ),
                Full(3520, 3599),
                Bytes(b"\"\0\0\0\0\0\0\0\0\x0b\0\0\0\0\0\0\0\0\0\0\0\0\0\0\0\0\0\0\0\0\0\0\0\0"),
            ],
            "fault: file 0 at 2700 field 0: 21 OpenFrame\n",
        ),
        (
            "FrameH of 65534 letters",
            &[
                Full(0, 569),
                Bytes(b"C\0\x01\0\0\0\0\0"),
                Full(577, 583),
                Bytes(b"\xff\xff"),
                Times(65534, b"a"),
                Full(587, 3617),
                Bytes(b"1\x0e\x01\0\0\0\0\0"),
                Full(3625, 3637),
            ],
            "accepted\norder: little\nframes: 1\nrecords: 10\ntable: bad\nbytes: 69169\n",
        ),
    ];
    check_rows(&rt, rt.alloc(), rows.as_slice())?;
    Ok(())
}

/// An instance for each record before the end record of the file of one frame, and the places where its instance and
/// the one link to it stand. FrameH has no link to it.
const INSTANCES: [(u8, usize, usize); 9] = [
    (92, 579, 579),
    (93, 819, 614),
    (94, 1139, 632),
    (95, 1495, 831),
    (96, 2147, 1520),
    (97, 2237, 1526),
    (98, 2286, 2262),
    (99, 2376, 2268),
    (100, 2425, 2401),
];

/// The pieces of the file of one frame with these records in reverse order, each after its entry.
const REVERSED: [(usize, usize); 13] = [
    (0, 40),
    (1534, 2137),
    (2415, 2505),
    (1180, 1485),
    (2366, 2415),
    (2276, 2366),
    (2227, 2276),
    (2137, 2227),
    (1485, 1534),
    (839, 1180),
    (640, 839),
    (40, 640),
    (2505, 3637),
];

#[test]
fn accepts_other_instances_in_reverse_order(rt: HostRuntime) -> Result<(), Fail> {
    let alloc = rt.alloc();
    // nBytes and seekTOC are 0
    let mut whole = changed(alloc, ONE_FRAME, 3637, 3617, &[0; 16])?;
    for (instance, record, link) in INSTANCES {
        whole = changed(alloc, whole.as_slice(), 3637, record, &[instance])?;
        whole = changed(alloc, whole.as_slice(), 3637, link, &[instance])?;
    }
    let mut file = Vec::new(alloc);
    for (from, to) in REVERSED {
        file.extend_from_slice(range(whole.as_slice(), from, to))?;
    }
    let name = "other instances in reverse order";
    let summary = "accepted\norder: little\nframes: 1\nrecords: 10\ntable: none\nbytes: 3637\n";
    let channels = "adc 1 H1:A\nadc 1 H1:B\nadc 1 H1:C\n";
    check_print(&rt, alloc, name, file.as_slice(), "check", summary)?;
    check_print(&rt, alloc, name, file.as_slice(), "list", channels)?;
    Ok(())
}

/// An entry of class 12: the number of its members, and a link to each.
const GROUP: &[u8] = b"\
    \x1f\0\0\0\0\0\0\0\0\x01\x08\0\0\0\x06\0Group\0\x0c\0\x01\0\0\0\0\0\0\
    &\0\0\0\0\0\0\0\0\x02\0\0\0\0\x06\0count\0\x07\0INT_4U\0\x01\0\0\0\0\0\0\
    =\0\0\0\0\0\0\0\0\x02\x01\0\0\0\x08\0members\0\x1c\0PTR_STRUCT(FrVect *)[count]\0\x01\0\0\0\0\0\0";

/// The same where the number is a signed one of two bytes.
const SIGNED_GROUP: &[u8] = b"\
    \x1f\0\0\0\0\0\0\0\0\x01\x08\0\0\0\x06\0Group\0\x0c\0\x01\0\0\0\0\0\0\
    &\0\0\0\0\0\0\0\0\x02\0\0\0\0\x06\0count\0\x07\0INT_2S\0\x01\0\0\0\0\0\0\
    =\0\0\0\0\0\0\0\0\x02\x01\0\0\0\x08\0members\0\x1c\0PTR_STRUCT(FrVect *)[count]\0\x01\0\0\0\0\0\0";

#[test]
fn judges_lists_of_links(rt: HostRuntime) -> Result<(), Fail> {
    let rows: [Row; 6] = [
        (
            "the second member leads nowhere",
            &[
                Full(0, 2505),
                Bytes(GROUP),
                Bytes(b"\x1e\0\0\0\0\0\0\0\0\x0c\0\0\0\0\x02\0\0\0\x07\0\0\0\0\0\x07\0\x09\0\0\0"),
                Rest(2505),
            ],
            "fault: file 0 at 2635 field 1: 20 LooseLink\n",
        ),
        (
            "each member has its vector",
            &[
                Full(0, 2505),
                Bytes(GROUP),
                Bytes(b"\x1e\0\0\0\0\0\0\0\0\x0c\0\0\0\0\x02\0\0\0\x07\0\x02\0\0\0\x07\0\0\0\0\0"),
                Rest(2505),
            ],
            "accepted\norder: little\nframes: 1\nrecords: 11\ntable: good\nbytes: 3797\n",
        ),
        (
            "the first member is null",
            &[
                Full(0, 2505),
                Bytes(GROUP),
                Bytes(b"\x1e\0\0\0\0\0\0\0\0\x0c\0\0\0\0\x02\0\0\0\0\0\x09\0\0\0\x07\0\x01\0\0\0"),
                Rest(2505),
            ],
            "accepted\norder: little\nframes: 1\nrecords: 11\ntable: good\nbytes: 3797\n",
        ),
        (
            "two members by a signed number",
            &[
                Full(0, 2505),
                Bytes(SIGNED_GROUP),
                Bytes(b"\x1c\0\0\0\0\0\0\0\0\x0c\0\0\0\0\x02\0\x07\0\x02\0\0\0\x07\0\0\0\0\0"),
                Rest(2505),
            ],
            "accepted\norder: little\nframes: 1\nrecords: 11\ntable: good\nbytes: 3795\n",
        ),
        (
            "no member by a signed number below 0",
            &[
                Full(0, 2505),
                Bytes(SIGNED_GROUP),
                Bytes(b"\x10\0\0\0\0\0\0\0\0\x0c\0\0\0\0\xff\xff"),
                Rest(2505),
            ],
            "accepted\norder: little\nframes: 1\nrecords: 11\ntable: good\nbytes: 3783\n",
        ),
        (
            "one member where a signed number tells two",
            &[
                Full(0, 2505),
                Bytes(SIGNED_GROUP),
                Bytes(b"\x16\0\0\0\0\0\0\0\0\x0c\0\0\0\0\x02\0\x07\0\x02\0\0\0"),
                Rest(2505),
            ],
            "fault: file 0 at 2635 field 1: 9 BodyShort\n",
        ),
    ];
    check_rows(&rt, rt.alloc(), rows.as_slice())?;
    Ok(())
}

#[test]
fn judges_the_closing(rt: HostRuntime) -> Result<(), Fail> {
    let rows: [Row; 10] = [
        (
            "nBytes of INT_4U in layout and record",
            &[
                Full(0, 3481),
                Bytes(
                    b"'\0\0\0\0\0\0\0\0\x02\x01\0\0\0\x07\0nBytes\0\x07\0INT_4U\0\x01\0\0\0\0\0\0",
                ),
                Full(3520, 3599),
                Bytes(b"\"\0\0\0\0\0\0\0"),
                Full(3607, 3617),
                Bytes(&[0; 4]),
                Full(3625, 3637),
            ],
            "fault: file 0 at 3599 field 0: 22 BadClosing\n",
        ),
        (
            "FrameH after the table",
            &[Full(0, 3404), Full(569, 640), Rest(3404)],
            "fault: file 0 at 3404 field 0: 23 AfterTable\n",
        ),
        (
            "nProc is 4294967295",
            &[Full(0, 3392), Bytes(&[255; 4]), Full(3396, 3637)],
            "accepted\norder: little\nframes: 1\nrecords: 10\ntable: unread\nbytes: 3637\n",
        ),
        (
            "nFrames is 2",
            &[Full(0, 3613), Bytes(b"\x02"), Full(3614, 3637)],
            "fault: file 0 at 3599 field 0: 25 FrameCount\n",
        ),
        (
            "nBytes is 3636",
            &[Full(0, 3617), Bytes(b"4"), Full(3618, 3637)],
            "fault: file 0 at 3599 field 1: 26 ByteCount\n",
        ),
        (
            "nBytes is 0",
            &[Rest(0)],
            "accepted\norder: little\nframes: 1\nrecords: 10\ntable: good\nbytes: 3637\n",
        ),
        (
            "nFrames and nBytes are wrong: 25 before 26",
            &[
                Full(0, 3613),
                Bytes(b"\x02"),
                Full(3614, 3617),
                Bytes(b"4"),
                Full(3618, 3637),
            ],
            "fault: file 0 at 3599 field 0: 25 FrameCount\n",
        ),
        (
            "one byte more",
            &[Full(0, 3637), Bytes(b"\0")],
            "fault: file 0 at 3637 field 0: 27 Trailing\n",
        ),
        (
            "one byte more that nBytes counts: 26 before 27",
            &[Full(0, 3617), Bytes(b"6"), Full(3618, 3637), Bytes(b"\0")],
            "fault: file 0 at 3599 field 1: 26 ByteCount\n",
        ),
        (
            "FrEndOfFile twice",
            &[
                Bare(0, 253),
                Bytes(&[0; 8]),
                Bare(261, 273),
                Bare(235, 253),
                Bytes(&[0; 8]),
                Bare(261, 273),
            ],
            "fault: file 0 at 273 field 0: 27 Trailing\n",
        ),
    ];
    check_rows(&rt, rt.alloc(), rows.as_slice())?;
    Ok(())
}
