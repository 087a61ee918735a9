//! Unsigned whole numbers in either byte order, at the widths that a frame file has. A signed number
//! or a real is read as the number of its bits.
#![tactic(auto)]

ghost use Rattle.std.specs.Prelude.{◌≡◌, ◌<◌, ◌≤◌, ◌^◌, length, take, drop};
ghost use Rattle.scalar_types.specs.Number.{number, bytes_of, size_of};

use byteorder::{BigEndian, ByteOrder, LittleEndian};

/// The order in which a number's bytes stand.
#[derive(Clone, Copy, Debug, PartialEq, Eq)]
pub enum Order {
    /// The first byte has the greatest power of 256.
    Big,
    /// The first byte has the least power of 256.
    Little,
}

/// How many bytes a number takes.
#[derive(Clone, Copy, Debug, PartialEq, Eq)]
pub enum Width {
    One,
    Two,
    Four,
    Eight,
}

impl Width {
    /// The number of bytes.
    pub const fn size(self) -> usize
        ensures { result ≡ size_of self }
    {
        match self {
            Width::One => 1,
            Width::Two => 2,
            Width::Four => 4,
            Width::Eight => 8,
        }
    }
}

/// The number in the first bytes of `bytes`, which has at least as many as the width takes. The bytes
/// after them are not looked at.
pub fn read_num(order: Order, width: Width, bytes: &[u8]) -> u64
    requires { size_of width ≤ length bytes.now }
    ensures value { result ≡ number order (take (size_of width) bytes.now) }
    ensures fits { result < 256 ^ size_of width }
{
    match order {
        Order::Big => read_by::<BigEndian>(width, bytes),
        Order::Little => read_by::<LittleEndian>(width, bytes),
    }
}

/// The same by a call of the width's own, which is a single load.
fn read_by<B: ByteOrder>(width: Width, bytes: &[u8]) -> u64
    requires { size_of width ≤ length bytes.now }
    ensures { result ≡ B.number_of (size_of width) bytes.now }
{
    match width {
        Width::One => B::read_uint(bytes, 1),
        Width::Two => u64::from(B::read_u16(bytes)),
        Width::Four => u64::from(B::read_u32(bytes)),
        Width::Eight => B::read_u64(bytes),
    }
}

/// Writes a number into the first bytes of `into`, as many as the width takes. The bytes after them
/// stay as they were.
pub fn write_num(order: Order, width: Width, n: u64, into: &mut [u8])
    requires fits { n < 256 ^ size_of width }
    requires room { size_of width ≤ length into.old }
    ensures value { take (size_of width) into.new ≡ bytes_of order width n }
    ensures rest { drop (size_of width) into.new ≡ drop (size_of width) into.old }
{
    match order {
        Order::Big => BigEndian::write_uint(into, n, width.size()),
        Order::Little => LittleEndian::write_uint(into, n, width.size()),
    }
}
