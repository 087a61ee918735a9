//! Bodies without their links: each link null, or one of a field of its own elsewhere.
ghost use Rattle.std.specs.Prelude.{◌≡◌, ◌+◌, ◌≤◌, ◌<◌, ℕ, length, IfOk};
ghost use Rattle.layout_plan.specs.Body.{HasBody};
ghost use Rattle.layout_plan.specs.Lent.{IsLinkField};
ghost use Rattle.layout_plan.specs.Links.{IsReplaceable};
ghost use Rattle.layout_plan.specs.Marks.{mark_of};
ghost use Rattle.layout_plan.specs.Unlinked.{IsUnlinked, IsLinkNumber};

use crate::Plan;
use crate::lent::{place_by, place_of, walk_body};
use crate::links::is_link;
use crate::walking::{FEW_FIELDS, FEWEST_FIELDS, FIELD_LIMIT};
use scalar_types::Order;
use std::alloc::{AllocError, Global};

/// A body as long as this one, which spells the layout, with the same values but that each link is null, and with the
/// same tail. All links cost one walk over the body.
pub fn without_links(
    alloc: Global,
    plan: &Plan,
    order: Order,
    body: &[u8],
) -> Result<Vec<u8>, AllocError>
    requires { HasBody order plan.now body.now }
    ensures { IfOk result (λ bytes. IsUnlinked order plan.now body.now bytes.items) }
{
    let count = plan.steps().len();
    if count <= FEWEST_FIELDS {
        unlinked_in(alloc, plan, order, body, &mut [0; FEWEST_FIELDS])
    } else if count <= FEW_FIELDS {
        unlinked_in(alloc, plan, order, body, &mut [0; FEW_FIELDS])
    } else {
        unlinked_in(alloc, plan, order, body, &mut [0; FIELD_LIMIT])
    }
}

/// The same, with room for where each varied field ends.
fn unlinked_in(
    alloc: Global,
    plan: &Plan,
    order: Order,
    body: &[u8],
    ends: &mut [usize],
) -> Result<Vec<u8>, AllocError>
    requires body { HasBody order plan.now body.now }
    requires room { (mark_of plan.now (length plan.now)).varied ≤ length ends.old }
    ensures { IfOk result (λ bytes. IsUnlinked order plan.now body.now bytes.items) }
{
    let fields = plan.fields();
    walk_body(plan, fields.len(), order, body, ends);
    let mut bytes = Vec::with_capacity(alloc, body.len())?;
    for (k, field) in fields.iter().enumerate() {
        let here = place_by(plan, k, ends);
        let end = here.start + here.length;
        if is_link(field) {
            bytes.resize(end, 0)?;
        } else {
            bytes.extend_from_slice(&body[here.start..end])?;
        }
    }
    let end = bytes.len();
    bytes.extend_from_slice(&body[end..])?;
    Ok(bytes)
}

/// Where the six bytes of the link of a field without dimension stand in a body that spells the layout: they begin so
/// many bytes from its beginning. The bytes of another link in their place make a body of the same values, but for that
/// link. Takes no memory.
pub fn plain_link_start(plan: &Plan, order: Order, body: &[u8], field: u32) -> usize
    requires body { HasBody order plan.now body.now }
    requires field { field < length plan.now }
    requires link { IsLinkField plan.now field }
    ensures within { result + 6 ≤ length body.now }
    ensures replaced { (k : ℕ) → IsLinkNumber order plan.now body.now field k
        → IsReplaceable order plan.now body.now k result }
{
    // What is known of a plan's fields makes the number of the link the only one.
    let _fields = plan.fields();
    place_of(plan, order, body, field).start
}
