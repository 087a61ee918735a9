//! Files for the tests of `check` and `list`, put together from pieces of worked files.

use crate::worked_files::{LITTLE, ONE_FRAME, Outside, WHOLE, run_over};
use Piece::{Bare, Bytes, End, Full, Numbers, Rest, Times};
use std::alloc::{AllocError, Global};
use std::process::Abort;

/// A piece of a file.
#[derive(Clone, Copy)]
pub enum Piece {
    /// The bytes from a place to another of the file without a frame.
    Bare(usize, usize),
    /// Those of the file of one frame.
    Full(usize, usize),
    /// Those from a place to its end, with nBytes 0.
    Rest(usize),
    /// Its last 20 bytes, with nBytes 0 and this seekTOC.
    End(u64),
    /// Numbers of eight bytes.
    Numbers(&'static [u64]),
    Bytes(&'static [u8]),
    /// Bytes so many times.
    Times(usize, &'static [u8]),
}

/// What `list` prints of the file of one frame.
pub const THREE: &str = "adc 1 H1:A\nadc 1 H1:B\nadc 1 H1:C\n";

/// What `check` prints of a file of as many frames, records and bytes, by the state of its contents table.
pub const NO_TABLE: &str =
    "accepted\norder: little\nframes: 1\nrecords: 10\ntable: none\nbytes: 3637\n";

pub const LOST: &str =
    "accepted\norder: little\nframes: 1\nrecords: 10\ntable: lost\nbytes: 3637\n";

pub const UNREAD: &str =
    "accepted\norder: little\nframes: 1\nrecords: 10\ntable: unread\nbytes: 3637\n";

pub const GOOD: &str =
    "accepted\norder: little\nframes: 1\nrecords: 10\ntable: good\nbytes: 3637\n";

pub const BAD: &str = "accepted\norder: little\nframes: 1\nrecords: 10\ntable: bad\nbytes: 3637\n";

/// A name, the pieces of a file, and the text that `check` prints.
pub type Row = (&'static str, &'static [Piece], &'static str);

/// A name, the pieces of a file, and the texts that `check` and `list` print.
pub type ListedRow = (&'static str, &'static [Piece], &'static str, &'static str);

/// The file without a frame, with a comment in FrEndOfFile's entry.
pub const END_COMMENT: &[Piece] = &[
    Bare(0, 40),
    Bytes(b"("),
    Bare(41, 70),
    Bytes(b"\x04\0end\0"),
    Bare(73, 253),
    Bytes(b"\x14\x01\0\0\0\0\0\0"),
    Bare(261, 273),
];

/// The file of one frame, where H1:B's data leads to the vector of H1:A and the other vector is left out.
pub const SHARED: &[Piece] = &[Full(0, 2262), Bytes(b"\0"), Full(2263, 2276), Rest(2366)];

/// The file of one frame with its records in reverse order and other instances.
pub const REVERSED: &[Piece] = &[
    Full(0, 40),
    Full(1534, 2137),
    Full(2415, 2425),
    Bytes(b"\x03"),
    Full(2426, 2505),
    Full(1180, 1485),
    Full(2366, 2376),
    Bytes(b"\x04"),
    Full(2377, 2401),
    Bytes(b"\x03"),
    Full(2402, 2415),
    Full(2276, 2286),
    Bytes(b"\x07"),
    Full(2287, 2366),
    Full(2227, 2237),
    Bytes(b"\x06"),
    Full(2238, 2262),
    Bytes(b"\x07"),
    Full(2263, 2268),
    Bytes(b"\x04"),
    Full(2269, 2276),
    Full(2137, 2147),
    Bytes(b"\x09"),
    Full(2148, 2227),
    Full(1485, 1495),
    Bytes(b"\x02"),
    Full(1496, 1520),
    Bytes(b"\x09"),
    Full(1521, 1526),
    Bytes(b"\x06"),
    Full(1527, 1534),
    Full(839, 1139),
    Bytes(b"\x05"),
    Full(1140, 1180),
    Full(640, 819),
    Bytes(b"\x06"),
    Full(820, 831),
    Bytes(b"\x02"),
    Full(832, 839),
    Full(40, 579),
    Bytes(b"\x08"),
    Full(580, 614),
    Bytes(b"\x06"),
    Full(615, 632),
    Bytes(b"\x05"),
    Full(633, 640),
    Full(2505, 2666),
    Bytes(b"\x03"),
    Full(2667, 2682),
    Full(2682, 3617),
    End(0),
];

/// The pieces one after another.
pub fn joined(alloc: Global, pieces: &[Piece]) -> Result<Vec<u8>, AllocError> {
    let mut file = Vec::new(alloc);
    for piece in pieces {
        push_piece(&mut file, *piece)?;
    }
    Ok(file)
}

/// The pieces of several parts.
pub fn joined_parts(alloc: Global, parts: &[&'static [Piece]]) -> Result<Vec<u8>, AllocError> {
    let mut file = Vec::new(alloc);
    for part in parts {
        for piece in *part {
            push_piece(&mut file, *piece)?;
        }
    }
    Ok(file)
}

fn push_piece(file: &mut Vec<u8>, piece: Piece) -> Result<(), AllocError> {
    match piece {
        Bare(from, to) => file.extend_from_slice(range(LITTLE, from, to)),
        Full(from, to) => file.extend_from_slice(range(ONE_FRAME, from, to)),
        Rest(from) => {
            file.extend_from_slice(range(ONE_FRAME, from, 3617))?;
            push_end(file, 324)
        }
        End(seek) => push_end(file, seek),
        Numbers(numbers) => {
            for number in numbers {
                file.extend_from_slice(&number.to_le_bytes())?;
            }
            Ok(())
        }
        Bytes(bytes) => file.extend_from_slice(bytes),
        Times(count, bytes) => {
            for _ in 0..count {
                file.extend_from_slice(bytes)?;
            }
            Ok(())
        }
    }
}

fn push_end(file: &mut Vec<u8>, seek: u64) -> Result<(), AllocError> {
    file.extend_from_slice(&[0; 8])?;
    file.extend_from_slice(&seek.to_le_bytes())?;
    file.extend_from_slice(&[0; 4])
}

pub fn range(bytes: &[u8], from: usize, to: usize) -> &[u8] {
    let to = to.min(bytes.len());
    &bytes[from.min(to)..to]
}

/// Runs `check` over the file of each row, also by one byte a call. Where it prints a fault `list` prints
/// the same.
pub fn check_rows(rt: &impl Abort, alloc: Global, rows: &[Row]) -> Result<(), AllocError> {
    for (name, pieces, text) in rows {
        let file = joined(alloc, pieces)?;
        check_print(rt, alloc, name, file.as_slice(), "check", text)?;
        if text.starts_with("fault") {
            check_print(rt, alloc, name, file.as_slice(), "list", text)?;
        }
    }
    Ok(())
}

/// Runs `check` and `list` over the file of each row, also by one byte a call.
pub fn listed_rows(rt: &impl Abort, alloc: Global, rows: &[ListedRow]) -> Result<(), AllocError> {
    for (name, pieces, summary, channels) in rows {
        let file = joined(alloc, pieces)?;
        check_print(rt, alloc, name, file.as_slice(), "check", summary)?;
        check_print(rt, alloc, name, file.as_slice(), "list", channels)?;
    }
    Ok(())
}

/// Runs a command over a file, also by one byte a call, and compares what it prints.
pub fn check_print(
    rt: &impl Abort,
    alloc: Global,
    name: &str,
    file: &[u8],
    command: &str,
    text: &str,
) -> Result<(), AllocError> {
    let status = u8::from(text.starts_with("fault"));
    for most in [usize::MAX, 1] {
        let outside = Outside { most, ..WHOLE };
        let (got, printed) = run_over(alloc, outside, file, &[command, "f"])?;
        assert_eq!(rt; printed.as_slice(), text.as_bytes(), "{command}: {name}");
        assert_eq!(rt; got, status, "{command}: {name}");
    }
    Ok(())
}
