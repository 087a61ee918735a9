//! A whole structure where it stands in a file.

ghost use Rattle.std.specs.Prelude.{◌≡◌};
ghost use Rattle.item_reader.specs.Placed.{placed_at};

use frame_head::Common;

/// A structure: where it stands, in bytes from the beginning of the file, and what its first 14 bytes say.
#[derive(Clone, Copy)]
pub struct Placed {
    pub at: u64,
    /// Of the whole structure, in bytes.
    pub length: u64,
    pub class: u8,
    pub instance: u32,
}

/// The structure of these 14 bytes at a place.
pub fn placed_at(at: u64, common: Common) -> Placed
    ensures { result ≡ placed_at at common }
{
    Placed {
        at,
        length: common.length,
        class: common.class,
        instance: common.instance,
    }
}
