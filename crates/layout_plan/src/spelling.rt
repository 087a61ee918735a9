//! The spelling of numbers and links, at the end of bytes. Where memory is out, a part of it may stand there.
ghost use Rattle.std.specs.Prelude.{◌<◌, ◌^◌, OnOk};
ghost use Rattle.scalar_types.specs.Number.{size_of};
ghost use Rattle.record_values.specs.Spelling.{IsNumber, IsLink, AreItems};
ghost use Rattle.layout_plan.specs.Appends.{Appends};

use scalar_types::{Order, Width, write_num};
use std::alloc::AllocError;
use type_text::Link;

/// Appends a number of this width, below 256 to the power of its bytes. Err where memory is out.
pub fn push_number(order: Order, width: Width, n: u64, into: &mut Vec<u8>) -> Result<(), AllocError>
    requires { n < 256 ^ size_of width }
    ensures { Appends (λ new. OnOk result (IsNumber order width n new)) into.old.items into.new.items }
{
    let mut bytes = [0; 8];
    write_num(order, width, n, &mut bytes);
    into.extend_from_slice(&bytes[..width.size()])
}

/// Appends links, in turn.
pub fn push_links(order: Order, links: &[Link], into: &mut Vec<u8>) -> Result<(), AllocError>
    ensures { Appends
        (λ new. OnOk result (AreItems (IsLink order) links.now new))
        into.old.items
        into.new.items }
{
    for link in links {
        push_link(order, link, into)?;
    }
    Ok(())
}

/// Appends a link.
pub fn push_link(order: Order, link: &Link, into: &mut Vec<u8>) -> Result<(), AllocError>
    ensures { Appends (λ new. OnOk result (IsLink order link.now new)) into.old.items into.new.items }
{
    push_number(order, Width::Two, u64::from(link.class), into)?;
    push_number(order, Width::Four, u64::from(link.instance), into)
}
