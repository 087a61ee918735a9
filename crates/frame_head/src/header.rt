//! The file header. It tells the version of the format and the byte order of every number in the
//! file.

ghost use Rattle.std.specs.Prelude.{◌≡◌, ◌+◌, ◌^◌, ◌<◌, ◌≤◌, ◌↔◌, All, find, fold, not, length};
ghost use Rattle.std.specs.Option.{option_copied};
ghost use Rattle.scalar_types.specs.Number.{size_of};
ghost use Rattle.scalar_types.specs.declared.Order.{Order};
ghost use Rattle.scalar_types.specs.declared.Order.TheVariants.{Little};
ghost use Rattle.frame_head.specs.Header.{header_of, header_bytes, is_right, IsHeader};
ghost use Rattle.frame_head.specs.NumberPart.{part_of, with_part, IsPartOfHeader};

use scalar_types::{Order, Width, read_num, write_num};
use thiserror::Error;

/// The bytes of a file header.
pub const HEADER_SIZE: usize = 40;

const SIGNATURE: [u8; 5] = *b"IGWD\0";

/// The number that tells the byte order.
const ORDER_PROBE: NumberPart = NumberPart(12, Width::Two, 0x1234);

/// The parts after the signature that are judged, in order: the version, the sizes of INT_2, INT_4,
/// INT_8, REAL_4 and REAL_8, and a number of each of the first three.
const NUMBERS: [NumberPart; 9] = [
    NumberPart(5, Width::One, 8),
    NumberPart(7, Width::One, 2),
    NumberPart(8, Width::One, 4),
    NumberPart(9, Width::One, 8),
    NumberPart(10, Width::One, 4),
    NumberPart(11, Width::One, 8),
    ORDER_PROBE,
    NumberPart(14, Width::Four, 0x1234_5678),
    NumberPart(18, Width::Eight, 0x0123_4567_89AB_CDEF),
];

/// The parts that are not judged, and that a header is written with: pi as a REAL_4 and as a REAL_8.
const PI: [NumberPart; 2] = [
    NumberPart(26, Width::Four, 0x4049_0FDB),
    NumberPart(30, Width::Eight, 0x4009_21FB_5444_2D18),
];

/// The file header is not one of format version 8.
#[derive(Clone, Copy, Debug, PartialEq, Eq, Error)]
#[error("HeadFault")]
pub struct HeadFault {
    /// The place of the first wrong part, in bytes from the beginning of the file.
    pub at: u32,
}

/// A part of the header that holds a number: its place, its width and the number.
#[derive(Clone, Copy)]
struct NumberPart(u8, Width, u64);

impl NumberPart {
    /// Whether the number stands at its place.
    fn is_right(&self, order: Order, bytes: &[u8; HEADER_SIZE]) -> bool
        requires { self.now.0 + size_of self.now.1 ≤ 40 }
        ensures { result ≡ is_right order bytes.now (part_of self.now) }
    {
        let NumberPart(at, width, value) = *self;
        read_num(order, width, &bytes[usize::from(at)..]) == value
    }

    /// Writes the number at its place, in little-endian order.
    fn write(&self, into: &mut [u8; HEADER_SIZE])
        requires { IsPartOfHeader self.now }
        ensures { into.new ≡ with_part into.old self.now }
    {
        let NumberPart(at, width, value) = *self;
        write_num(Order::Little, width, value, &mut into[usize::from(at)..]);
    }
}

/// The byte order of the file, where the header is one of format version 8. The minor version at
/// byte 6, and the bytes from 26 on, are not judged.
///
/// # Errors
///
/// [`HeadFault`] with the place of the first part that is wrong.
pub fn read_header(bytes: &[u8; HEADER_SIZE]) -> Result<Order, HeadFault>
    ensures value { result ≡ header_of bytes.now }
    ensures accepted { (order : Order) → (result ≡ Ok order) ↔ IsHeader order bytes.now }
{
    if !bytes.starts_with(&SIGNATURE) {
        return Err(HeadFault { at: 0 });
    }
    let order = if ORDER_PROBE.is_right(Order::Big, bytes) {
        Order::Big
    } else {
        Order::Little
    };
    match first_wrong(&NUMBERS, order, bytes) {
        Some(&NumberPart(at, ..)) => Err(HeadFault { at: at.into() }),
        None => Ok(order),
    }
}

/// The first of these parts whose number is another in this byte order.
fn first_wrong<'a>(
    parts: &'a [NumberPart],
    order: Order,
    bytes: &[u8; HEADER_SIZE],
) -> Option<&'a NumberPart>
    requires { All (λ part. part.0 + size_of part.1 ≤ 40) parts.now }
    ensures { option_copied result
        ≡ find (λ part. not (is_right order bytes.now (part_of part))) parts.now }
{
    parts.iter().find(|part| !part.is_right(order, bytes))
}

/// Writes the header of a copy over whatever stood there: minor version 0, and its numbers, pi among them, in
/// little-endian order.
pub fn write_header(into: &mut [u8; HEADER_SIZE])
    ensures value { into.new ≡ header_bytes }
    ensures read { header_of into.new ≡ Ok Little }
{
    *into = [0; HEADER_SIZE];
    into[..SIGNATURE.len()].copy_from_slice(&SIGNATURE);
    write_parts(&NUMBERS, into);
    write_parts(&PI, into);
}

/// Writes the number of each part at its place.
fn write_parts(parts: &[NumberPart], into: &mut [u8; HEADER_SIZE])
    requires { All IsPartOfHeader parts.now }
    ensures { into.new ≡ fold with_part into.old parts.now }
{
    for part in parts {
        part.write(into);
    }
}
