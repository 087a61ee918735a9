//! Fields read from the bytes of a body, without its values. Each call walks over the varied fields up to the one that
//! it reads.
ghost use Rattle.std.specs.Prelude.{◌≡◌, ℕ, ◌+◌, ◌≤◌, ◌<◌, ◌-◌, ◌^◌, List, length, take, drop};
ghost use Rattle.scalar_types.specs.declared.Order.{Order};
ghost use Rattle.layout_plan.specs.Body.{HasBody};
ghost use Rattle.layout_plan.specs.Marks.{mark_of};
ghost use Rattle.layout_plan.specs.Walking.{ArePlaces};
ghost use Rattle.layout_plan.specs.Lent.{EndsAt, HasNumberAt, HasTextAt, IsNumberField, IsTextField, IsPlaced};
ghost use Rattle.layout_plan.specs.Lent.{HasPlainLinkAt, IsLinkField};

use crate::Plan;
use crate::links::link_of;
use crate::walking::{FEW_FIELDS, FEWEST_FIELDS, FIELD_LIMIT, number_at, place, walk};
use scalar_types::Order;
use type_text::Link;

/// A field's place in a body.
#[derive(Clone, Copy)]
pub struct Placed {
    pub start: usize,
    pub length: usize,
}

/// Where a field begins and where it ends, in bytes from the beginning of a body that spells the layout. Takes no
/// memory.
pub fn span_of(plan: &Plan, order: Order, body: &[u8], field: u32) -> (usize, usize)
    requires body { HasBody order plan.now body.now }
    requires field { field < length plan.now }
    ensures begins { EndsAt order plan.now body.now field result.0 }
    ensures ends { EndsAt order plan.now body.now (field + 1) result.1 }
    ensures forward { result.0 ≤ result.1 }
    ensures within { result.1 ≤ length body.now }
{
    let placed = place_of(plan, order, body, field);
    (placed.start, placed.start + placed.length)
}

/// The bits of a number without dimension, in a body that spells the layout. Takes no memory.
pub fn num_at(plan: &Plan, order: Order, body: &[u8], field: u32) -> u64
    requires body { HasBody order plan.now body.now }
    requires field { field < length plan.now }
    requires number { IsNumberField plan.now field }
    ensures { HasNumberAt order plan.now body.now field result }
{
    let start = place_of(plan, order, body, field).start;
    number_at(order, &plan.fields()[field as usize], &body[start..])
}

/// The text of a field without dimension, lent from a body that spells the layout, without its closing zero byte. Takes
/// no memory.
pub fn text_at<'a>(plan: &Plan, order: Order, body: &'a [u8], field: u32) -> &'a [u8]
    requires body { HasBody order plan.now body.now }
    requires field { field < length plan.now }
    requires text { IsTextField plan.now field }
    ensures { HasTextAt order plan.now body.now field result.now }
{
    let placed = place_of(plan, order, body, field);
    text_of(&body[placed.start..placed.start + placed.length])
}

/// The link of a field without dimension, in a body that spells the layout. Takes no memory.
pub fn plain_link_at(plan: &Plan, order: Order, body: &[u8], field: u32) -> Link
    requires body { HasBody order plan.now body.now }
    requires field { field < length plan.now }
    requires link { IsLinkField plan.now field }
    ensures { HasPlainLinkAt order plan.now body.now field result }
{
    let start = place_of(plan, order, body, field).start;
    link_of(order, &body[start..])
}

/// The text of a spelling, without its length and its closing zero byte.
fn text_of(spelling: &[u8]) -> &[u8]
    ensures { result.now ≡ take (length spelling.now - 3) (drop 2 spelling.now) }
{
    if spelling.len() <= 3 {
        return &spelling[..0];
    }
    &spelling[2..spelling.len() - 1]
}

/// The place of a field in a body that spells the layout.
pub fn place_of(plan: &Plan, order: Order, body: &[u8], field: u32) -> Placed
    requires body { HasBody order plan.now body.now }
    requires field { field < length plan.now }
    ensures { IsPlaced order plan.now body.now field result }
{
    let count = plan.mark(field as usize + 1).varied;
    if count <= FEWEST_FIELDS {
        place_in(plan, order, body, field, &mut [0; FEWEST_FIELDS])
    } else if count <= FEW_FIELDS {
        place_in(plan, order, body, field, &mut [0; FEW_FIELDS])
    } else {
        place_in(plan, order, body, field, &mut [0; FIELD_LIMIT])
    }
}

/// The same, with room for where each varied field up to this one ends.
fn place_in(plan: &Plan, order: Order, body: &[u8], field: u32, ends: &mut [usize]) -> Placed
    requires body { HasBody order plan.now body.now }
    requires field { field < length plan.now }
    requires room { (mark_of plan.now (field + 1)).varied ≤ length ends.old }
    ensures { IsPlaced order plan.now body.now field result }
{
    let k = field as usize;
    walk_body(plan, k + 1, order, body, ends);
    place_by(plan, k, ends)
}

/// Finds where the varied ones among the first k fields end, in a body that spells the layout.
#[inline(always)]
pub fn walk_body(plan: &Plan, k: usize, order: Order, body: &[u8], ends: &mut [usize])
    requires body { HasBody order plan.now body.now }
    requires fields { k ≤ length plan.now }
    requires room { (mark_of plan.now k).varied ≤ length ends.old }
    ensures { ArePlaces order plan.now body.now k ends.new }
{
    let count = plan.fields().len();
    prove!(k <= count);
    let _walked = walk(plan, k, order, body, ends).unwrap();
}

/// The place of field k, by the ends of the varied fields up to it.
pub fn place_by(plan: &Plan, k: usize, ends: &[usize]) -> Placed
    requires field { k < length plan.now }
    requires places { (order : Order) × (body : List ℕ) × ArePlaces order plan.now body (k + 1) ends.now
        × (length body < 2 ^ 63) }
    ensures { (order : Order) (body : List ℕ) → ArePlaces order plan.now body (k + 1) ends.now
        → IsPlaced order plan.now body k result }
{
    let start = place(plan.mark(k), ends);
    Placed {
        start,
        length: place(plan.mark(k + 1), ends) - start,
    }
}
