//! Runs of `check` and `list` over files with channels of each kind, in lists that end in each way, and with names of
//! any bytes.

use crate::pieces::Piece::{Bytes, End, Full, Numbers, Rest};
use crate::pieces::{BAD, GOOD, ListedRow, Piece, THREE, check_print, joined_parts, listed_rows};
use std::test::Fail;

#[test]
fn walks_over_lists(rt: HostRuntime) -> Result<(), Fail> {
    let rows: [ListedRow; 13] = [
        (
            "next of H1:C leads to H1:A",
            &[Full(0, 2405), Bytes(b"\x05\0\0\0\0\0"), Full(2411, 3637)],
            GOOD,
            THREE,
        ),
        (
            "next of H1:C leads to H1:B",
            &[Full(0, 2405), Bytes(b"\x05\0\x01\0\0\0"), Full(2411, 3637)],
            GOOD,
            THREE,
        ),
        (
            "next of H1:A leads to H1:A",
            &[Full(0, 1526), Bytes(b"\0"), Full(1527, 3637)],
            BAD,
            "adc 1 H1:A\n",
        ),
        (
            "the same, and next of H1:C leads to H1:B",
            &[
                Full(0, 1526),
                Bytes(b"\0"),
                Full(1527, 2405),
                Bytes(b"\x05\0\x01\0\0\0"),
                Full(2411, 3637),
            ],
            BAD,
            "adc 1 H1:A\n",
        ),
        (
            "next of H1:A is null",
            &[Full(0, 1524), Bytes(b"\0\0"), Full(1526, 3637)],
            BAD,
            "adc 1 H1:A\n",
        ),
        (
            "next of H1:A leads to a vector",
            &[Full(0, 1524), Bytes(b"\x07"), Full(1525, 3637)],
            BAD,
            "adc 1 H1:A\n",
        ),
        (
            "next of H1:A leads to H1:C",
            &[Full(0, 1526), Bytes(b"\x02"), Full(1527, 3637)],
            BAD,
            "adc 1 H1:A\nadc 1 H1:C\n",
        ),
        (
            "rawData leads to the detector",
            &[Full(0, 612), Bytes(b"\x08"), Full(613, 3637)],
            BAD,
            "",
        ),
        (
            "the channels have no element name",
            &[Full(0, 1233), Bytes(b"x"), Full(1234, 3637)],
            BAD,
            "",
        ),
        (
            "firstAdc is a list of one link",
            &[
                Full(0, 712),
                Bytes(
                    b"=\0\0\0\0\0\0\0\0\x02\x01\0\0\0\x09\0firstAdc\0\x1b\0PTR_STRUCT(FrAdcData *)[1]\0\x01\0\0\0\0\0\0",
                ),
                Full(770, 3617),
                End(0),
            ],
            "accepted\norder: little\nframes: 1\nrecords: 10\ntable: none\nbytes: 3640\n",
            "",
        ),
        (
            "each unitY is of length 0, so that H1:B stands a byte earlier than its position",
            &[
                Full(0, 2137),
                Numbers(&[89]),
                Full(2145, 2214),
                Bytes(b"\0\0"),
                Full(2217, 2276),
                Numbers(&[89]),
                Full(2284, 2353),
                Bytes(b"\0\0"),
                Full(2356, 2415),
                Numbers(&[89]),
                Full(2423, 2492),
                Bytes(b"\0\0"),
                Rest(2495),
            ],
            "accepted\norder: little\nframes: 1\nrecords: 10\ntable: bad\nbytes: 3634\n",
            THREE,
        ),
        (
            "H1:B is named H1:A",
            &[Full(0, 2246), Bytes(b"A"), Full(2247, 3637)],
            BAD,
            "adc 1 H1:A\nadc 1 H1:C\n",
        ),
        (
            "H1:B is named H1:A, and no position is told of H1:B",
            &[
                Full(0, 2246),
                Bytes(b"A"),
                Full(2247, 3376),
                Numbers(&[0]),
                Full(3384, 3637),
            ],
            GOOD,
            "adc 1 H1:A\nadc 1 H1:C\n",
        ),
    ];
    listed_rows(&rt, rt.alloc(), rows.as_slice())?;
    Ok(())
}

#[test]
fn prints_names(rt: HostRuntime) -> Result<(), Fail> {
    let rows: [ListedRow; 3] = [
        (
            "bytes that are no printable ones",
            &[
                Full(0, 2227),
                Numbers(&[55]),
                Full(2235, 2241),
                Bytes(b"\x0b\0\"\\\x1f ~\x7f\x80\xff\0a\0"),
                Full(2248, 3313),
                Numbers(&[97]),
                Full(3321, 3354),
                Bytes(b"\x0b\0\"\\\x1f ~\x7f\x80\xff\0a\0"),
                Full(3361, 3384),
                Numbers(&[2372]),
                Full(3392, 3617),
                End(330),
            ],
            "accepted\norder: little\nframes: 1\nrecords: 10\ntable: good\nbytes: 3649\n",
            "adc 1 H1:A\nadc 1 \\x22\\x5c\\x1f ~\\x7f\\x80\\xff\\x00a\nadc 1 H1:C\n",
        ),
        (
            "an empty name",
            &[
                Full(0, 2227),
                Numbers(&[45]),
                Full(2235, 2241),
                Bytes(b"\x01\0\0"),
                Full(2248, 3313),
                Numbers(&[87]),
                Full(3321, 3354),
                Bytes(b"\x01\0\0"),
                Full(3361, 3384),
                Numbers(&[2362]),
                Full(3392, 3617),
                End(320),
            ],
            "accepted\norder: little\nframes: 1\nrecords: 10\ntable: good\nbytes: 3629\n",
            "adc 1 H1:A\nadc 1 \nadc 1 H1:C\n",
        ),
        (
            "an empty name of length 0",
            &[
                Full(0, 2227),
                Numbers(&[44]),
                Full(2235, 2241),
                Bytes(b"\0\0"),
                Full(2248, 3313),
                Numbers(&[87]),
                Full(3321, 3354),
                Bytes(b"\x01\0\0"),
                Full(3361, 3384),
                Numbers(&[2361]),
                Full(3392, 3617),
                End(320),
            ],
            "accepted\norder: little\nframes: 1\nrecords: 10\ntable: good\nbytes: 3628\n",
            "adc 1 H1:A\nadc 1 \nadc 1 H1:C\n",
        ),
    ];
    listed_rows(&rt, rt.alloc(), rows.as_slice())?;
    Ok(())
}

/// Entries of FrProcData and FrSimData, each with a record, named P and Q.
const PROC: &[u8] = b"\
    $\0\0\0\0\0\0\0\0\x01\x08\0\0\0\x0b\0FrProcData\0\x0d\0\x01\0\0\0\0\0\0\
    %\0\0\0\0\0\0\0\0\x02\x00\0\0\0\x05\0name\0\x07\0STRING\0\x01\0\0\0\0\0\0\
    7\0\0\0\0\0\0\0\0\x02\x01\0\0\0\x05\0next\0\x19\0PTR_STRUCT(FrProcData *)\0\x01\0\0\0\0\0\0\
    \x18\0\0\0\0\0\0\0\0\x0d\0\0\0\0\x02\0P\0\0\0\0\0\0\0";

const SIM: &[u8] = b"\
    #\0\0\0\0\0\0\0\0\x01\x09\0\0\0\x0a\0FrSimData\0\x0e\0\x01\0\0\0\0\0\0\
    %\0\0\0\0\0\0\0\0\x02\x00\0\0\0\x05\0name\0\x07\0STRING\0\x01\0\0\0\0\0\0\
    6\0\0\0\0\0\0\0\0\x02\x01\0\0\0\x05\0next\0\x18\0PTR_STRUCT(FrSimData *)\0\x01\0\0\0\0\0\0\
    \x18\0\0\0\0\0\0\0\0\x0e\0\0\0\0\x02\0Q\0\0\0\0\0\0\0";

/// The entry of FrSerData as it stands after the detector in the file with a channel of that kind, and its record,
/// named H1:S.
const SER: &[u8] = b"\
    #\0\0\0\0\0\0\0\0\x01\x03\0\0\0\x0a\0FrSerData\0\x0c\0\x01\0\0\0\0\0\0\
    %\0\0\0\0\0\0\0\0\x02\x00\0\0\0\x05\0name\0\x07\0STRING\0\x01\0\0\0\0\0\0\
    6\0\0\0\0\0\0\0\0\x02\x01\0\0\0\x05\0next\0\x18\0PTR_STRUCT(FrSerData *)\0\x01\0\0\0\0\0\0\
    '\0\0\0\0\0\0\0\0\x02\x02\0\0\0\x07\0chkSum\0\x07\0INT_4U\0\x01\0\0\0\0\0\0\
    \x1f\0\0\0\0\0\0\0\0\x0c\0\0\0\0\x05\0H1:S\0\0\0\0\0\0\0\0\0\0\0";

/// The element firstSer, and FrRawData with a link to H1:S.
const FIRST_SER: &[u8] = b"\
    :\0\0\0\0\0\0\0\0\x02\x01\0\0\0\x09\0firstSer\0\x18\0PTR_STRUCT(FrSerData *)\0\x01\0\0\0\0\0\0";

const RAW_DATA: &[u8] =
    b"$\0\0\0\0\0\0\0\0\x04\0\0\0\0\x04\0raw\0\x0c\0\0\0\0\0\x05\0\0\0\0\0\0\0\0\0";

/// The elements of a table that lists the kind.
const LISTS_SER: &[u8] = b"\
    %\0\0\0\0\0\0\0\0\x02\x0c\0\0\0\x05\0nSer\0\x07\0INT_4U\0\x01\0\0\0\0\0\0\
    .\0\0\0\0\0\0\0\0\x02\x0d\0\0\0\x08\0nameSer\0\x0d\0STRING[nSer]\0\x01\0\0\0\0\0\0\
    :\0\0\0\0\0\0\0\0\x02\x0e\0\0\0\x0c\0positionSer\0\x15\0INT_8U[nSer][nFrame]\0\x01\0\0\0\0\0\0";

/// The file with the channels P and Q up to its contents table, and the one with the channel H1:S up to the entry of
/// that table. The instances of the entries are in order.
const WITH_PROC_AND_SIM: &[Piece] = &[
    Full(0, 618),
    Bytes(b"\x0d\0\0\0\0\0\x0e\0\0\0\0\0"),
    Full(630, 2505),
    Bytes(PROC),
    Bytes(SIM),
    Full(2505, 3313),
];

const WITH_SER: &[Piece] = &[
    Full(0, 712),
    Bytes(FIRST_SER),
    Full(712, 722),
    Bytes(b"\x02"),
    Full(723, 780),
    Bytes(b"\x03"),
    Full(781, 809),
    Bytes(RAW_DATA),
    Full(839, 1180),
    Bytes(SER),
    Full(1180, 1190),
    Bytes(b"\x04"),
    Full(1191, 1544),
    Bytes(b"\x05"),
    Full(1545, 2515),
    Bytes(b"\x06"),
    Full(2516, 2692),
    Bytes(b"\x07"),
];

/// The entry of a table that lists the kind, and that table up to the positions of H1:A, H1:B and H1:C, and from there
/// to the position of H1:S.
const SER_ENTRY: &[Piece] = &[
    Full(2693, 3274),
    Bytes(LISTS_SER),
    Full(3274, 3284),
    Bytes(b"\x0f"),
    Full(3285, 3313),
    Numbers(&[110]),
    Full(3321, 3368),
    Numbers(&[1745, 2487, 2626]),
    Full(3392, 3400),
    Bytes(b"\x01\0\0\0\x05\0H1:S\0"),
];

/// A name, the pieces of a file in three parts, and the texts that `check` and `list` print.
type PartsRow = (
    &'static str,
    [&'static [Piece]; 3],
    &'static str,
    &'static str,
);

#[test]
fn lists_kinds(rt: HostRuntime) -> Result<(), Fail> {
    let alloc = rt.alloc();
    let proc_and_sim = "adc 1 H1:A\nadc 1 H1:B\nadc 1 H1:C\nproc 1 P\nsim 1 Q\n";
    let ser = "adc 1 H1:A\nadc 1 H1:B\nadc 1 H1:C\nser 1 H1:S\n";
    let rows: [PartsRow; 6] = [
        (
            "proc and sim, which the table leaves out",
            [WITH_PROC_AND_SIM, &[], &[Rest(3313)]],
            "accepted\norder: little\nframes: 1\nrecords: 12\ntable: bad\nbytes: 3939\n",
            proc_and_sim,
        ),
        (
            "proc and sim",
            [
                WITH_PROC_AND_SIM,
                &[
                    Numbers(&[115]),
                    Full(3321, 3392),
                    Bytes(b"\x01\0\0\0\x02\0P\0"),
                    Numbers(&[2633]),
                ],
                &[
                    Bytes(b"\x01\0\0\0\x02\0Q\0"),
                    Numbers(&[2783]),
                    Full(3400, 3617),
                    End(348),
                ],
            ],
            "accepted\norder: little\nframes: 1\nrecords: 12\ntable: good\nbytes: 3963\n",
            proc_and_sim,
        ),
        (
            "proc and sim, each with the other's position",
            [
                WITH_PROC_AND_SIM,
                &[
                    Numbers(&[115]),
                    Full(3321, 3392),
                    Bytes(b"\x01\0\0\0\x02\0P\0"),
                    Numbers(&[2783]),
                ],
                &[
                    Bytes(b"\x01\0\0\0\x02\0Q\0"),
                    Numbers(&[2633]),
                    Full(3400, 3617),
                    End(348),
                ],
            ],
            "accepted\norder: little\nframes: 1\nrecords: 12\ntable: bad\nbytes: 3963\n",
            proc_and_sim,
        ),
        (
            "ser",
            [
                WITH_SER,
                SER_ENTRY,
                &[
                    Numbers(&[1409]),
                    Full(3400, 3414),
                    Bytes(b"\x08"),
                    Full(3415, 3617),
                    Numbers(&[4057, 343]),
                    Bytes(b"\0\0\0\0"),
                ],
            ],
            "accepted\norder: little\nframes: 1\nrecords: 11\ntable: good\nbytes: 4057\n",
            ser,
        ),
        (
            "ser, with a position of 0",
            [
                WITH_SER,
                SER_ENTRY,
                &[
                    Numbers(&[0]),
                    Full(3400, 3414),
                    Bytes(b"\x08"),
                    Full(3415, 3617),
                    End(343),
                ],
            ],
            "accepted\norder: little\nframes: 1\nrecords: 11\ntable: bad\nbytes: 4057\n",
            ser,
        ),
        (
            "ser, which the table does not list",
            [
                WITH_SER,
                &[Full(2693, 3368), Numbers(&[1745, 2487, 2626])],
                &[Full(3392, 3414), Bytes(b"\x08"), Full(3415, 3617), End(324)],
            ],
            "accepted\norder: little\nframes: 1\nrecords: 11\ntable: good\nbytes: 3897\n",
            ser,
        ),
    ];
    for (name, parts, summary, channels) in rows {
        let file = joined_parts(alloc, parts.as_slice())?;
        check_print(&rt, alloc, name, file.as_slice(), "check", summary)?;
        check_print(&rt, alloc, name, file.as_slice(), "list", channels)?;
    }
    Ok(())
}
