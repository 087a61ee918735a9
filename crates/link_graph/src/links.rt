//! Links as bodies spell them.

ghost use Rattle.std.specs.Prelude.{◌≡◌, length};
ghost use Rattle.record_values.specs.Spelling.{IsLink};

use layout_plan::LINK_SIZE;
use scalar_types::{Order, Width, write_num};
use type_text::Link;

/// The six bytes of a link.
pub fn link_bytes(order: Order, link: Link) -> [u8; LINK_SIZE]
    ensures spelled { IsLink order link result }
    ensures six { length result ≡ 6 }
{
    let mut bytes = [0; LINK_SIZE];
    write_num(order, Width::Two, u64::from(link.class), &mut bytes);
    write_num(
        order,
        Width::Four,
        u64::from(link.instance),
        &mut bytes[2..],
    );
    bytes
}
