//! What every structure begins with: 14 bytes that tell its length, its class and its instance.

ghost use Rattle.std.specs.Prelude.{◌≡◌};
ghost use Rattle.frame_head.specs.Structure.{common_of, common_bytes};

use scalar_types::{Order, Width, read_num, write_num};

/// The bytes of a structure before its body.
pub const HEAD_SIZE: usize = 14;

/// The elements that all structures have in common.
#[derive(Clone, Copy, Debug, PartialEq, Eq)]
pub struct Common {
    /// The bytes of the whole structure, these 14 included.
    pub length: u64,
    /// The kind of check sum that the structure has.
    pub check: u8,
    /// The class, which the file's dictionary describes. 1 and 2 are the dictionary's own.
    pub class: u8,
    /// The number of the structure within its class.
    pub instance: u32,
}

/// What the first 14 bytes of a structure say. Nothing is judged: the length may be below 14 or
/// beyond the end of the file.
pub fn read_common(order: Order, bytes: &[u8; HEAD_SIZE]) -> Common
    ensures { result ≡ common_of order bytes.now }
{
    Common {
        length: read_num(order, Width::Eight, bytes),
        check: bytes[8],
        class: bytes[9],
        instance: read_num(order, Width::Four, &bytes[10..]) as u32,
    }
}

/// Writes the first 14 bytes of a structure.
pub fn write_common(order: Order, common: &Common, into: &mut [u8; HEAD_SIZE])
    ensures value { into.new ≡ common_bytes order common.now }
    ensures read { common_of order into.new ≡ common.now }
{
    let Common {
        length,
        check,
        class,
        instance,
    } = *common;
    write_num(order, Width::Eight, length, into);
    into[8] = check;
    into[9] = class;
    write_num(order, Width::Four, instance.into(), &mut into[10..]);
}
