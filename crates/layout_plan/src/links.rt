//! Links read from the bytes of a body, without its values: those of its fields in turn, and within a list those of its
//! items.
ghost use Rattle.std.specs.Prelude.{◌≡◌, ℕ, true, ◌+◌, ◌≤◌, ◌<◌, ◌++◌, List, Ok, length, drop, OnOk, OnErr};
ghost use Rattle.std.specs.List.{list_all};
ghost use Rattle.scalar_types.specs.declared.Order.{Order};
ghost use Rattle.type_text.specs.declared.types.Link.{Link as StructLink};
ghost use Rattle.record_values.specs.Spelling.{IsLink, AreItems};
ghost use Rattle.layout_plan.specs.declared.links.FieldLink.{FieldLink};
ghost use Rattle.layout_plan.specs.Appends.{Appends};
ghost use Rattle.layout_plan.specs.Body.{HasBody};
ghost use Rattle.layout_plan.specs.Reading.{link_in};
ghost use Rattle.layout_plan.specs.Marks.{mark_of};
ghost use Rattle.layout_plan.specs.Walking.{ArePlaces, AreLinkPlaces};
ghost use Rattle.layout_plan.specs.Links.{HasLink, HasLinkAt, HasLinkIn, IsLinkPlaced, IsReplaceable, AreLinks};
ghost use Rattle.layout_plan.specs.Links.{links_with, HasLinks, is_link};
ghost use Rattle.layout_plan.specs.Made.{IsMadeOf};
ghost use Rattle.layout_plan.specs.Steps.{is_plain};

use crate::lent::{place_by, walk_body};
use crate::walking::{FEW_FIELDS, FEWEST_FIELDS, FIELD_LIMIT};
use crate::{Field, Form, Plan};
use scalar_types::{Order, Width, read_num};
use std::alloc::AllocError;
use type_text::Link;

/// The bytes of a link: its class and its instance.
pub const LINK_SIZE: usize = 6;

/// A link of a body, and the number of the field that holds it, from 0.
#[derive(Clone, Copy, Debug, PartialEq, Eq)]
pub struct FieldLink {
    pub field: u32,
    pub link: Link,
}

impl From<FieldLink> for Link {
    ghost from_gives = { λ found link. link ≡ found.link };

    fn from(found: FieldLink) -> Link {
        found.link
    }
}

/// Where a link of a body stands, and the number of the field that holds it.
#[derive(Clone, Copy)]
struct LinkPlace {
    field: u32,
    at: usize,
}

/// The link of this number, from 0, in a body that spells the layout. Takes no memory.
pub fn link_at(plan: &Plan, order: Order, body: &[u8], k: u64) -> Link
    requires { HasLink order plan.now body.now k }
    ensures { HasLinkAt order plan.now body.now k result }
{
    let at = link_place(plan, order, body, k).at;
    link_of(order, &body[at..])
}

/// Where the six bytes of the link of this number, from 0, stand in a body that spells the layout: they begin so many
/// bytes from its beginning. The bytes of another link in their place make a body of the same values, but for that
/// link. Takes no memory.
pub fn link_start(plan: &Plan, order: Order, body: &[u8], k: u64) -> usize
    requires { HasLink order plan.now body.now k }
    ensures within { result + 6 ≤ length body.now }
    ensures replaced { IsReplaceable order plan.now body.now k result }
{
    link_place(plan, order, body, k).at
}

/// The number of the field that holds the link of this number, from 0, in a body that spells the layout. Takes no
/// memory.
pub fn link_field(plan: &Plan, order: Order, body: &[u8], k: u64) -> u32
    requires { HasLink order plan.now body.now k }
    ensures { HasLinkIn order plan.now body.now k result }
{
    link_place(plan, order, body, k).field
}

/// Appends the links of a body that spells the layout, in turn, each with its field. All of them cost one walk over
/// the body up to the last link field, and none where the layout has no link. Where memory is out, `into` is as it was.
pub fn push_links(
    plan: &Plan,
    order: Order,
    body: &[u8],
    into: &mut Vec<FieldLink>,
) -> Result<(), AllocError>
    requires { HasBody order plan.now body.now }
    ensures ok { OnOk result (Appends (AreLinks order plan.now body.now) into.old.items into.new.items) }
    ensures err { OnErr result (into.new.items ≡ into.old.items) }
{
    let start = into.len();
    if push_all(plan, order, body, into).is_err() {
        into.truncate(start);
        return Err(AllocError);
    }
    Ok(())
}

/// The same, but that some links may stand there where memory is out.
fn push_all(
    plan: &Plan,
    order: Order,
    body: &[u8],
    into: &mut Vec<FieldLink>,
) -> Result<(), AllocError>
    requires { HasBody order plan.now body.now }
    ensures { Appends (λ links. OnOk result (AreLinks order plan.now body.now links)) into.old.items
        into.new.items }
{
    if plan.steps().len() <= FEWEST_FIELDS {
        return push_all_in(plan, order, body, into, &mut [0; FEWEST_FIELDS]);
    }
    push_all_many(plan, order, body, into)
}

/// The same of a plan with more varied fields.
#[inline(never)]
fn push_all_many(
    plan: &Plan,
    order: Order,
    body: &[u8],
    into: &mut Vec<FieldLink>,
) -> Result<(), AllocError>
    requires { HasBody order plan.now body.now }
    ensures { Appends (λ links. OnOk result (AreLinks order plan.now body.now links)) into.old.items
        into.new.items }
{
    if plan.steps().len() <= FEW_FIELDS {
        return push_all_in(plan, order, body, into, &mut [0; FEW_FIELDS]);
    }
    push_all_in(plan, order, body, into, &mut [0; FIELD_LIMIT])
}

/// The same, with room for where each varied field ends.
#[inline(always)]
fn push_all_in(
    plan: &Plan,
    order: Order,
    body: &[u8],
    into: &mut Vec<FieldLink>,
    ends: &mut [usize],
) -> Result<(), AllocError>
    requires body { HasBody order plan.now body.now }
    requires room { (mark_of plan.now (length plan.now)).varied ≤ length ends.old }
    ensures { Appends (λ links. OnOk result (AreLinks order plan.now body.now links)) into.old.items
        into.new.items }
{
    let links = plan.links();
    let count = links.len();
    if count == 0 {
        return Ok(());
    }
    walk_body(plan, links[count - 1] as usize + 1, order, body, ends);
    push_found(plan, order, body, into, ends)
}

/// Appends what is made of each of the links of a body in turn, by the ends of the varied fields. Where memory is out,
/// some may stand there.
#[inline(always)]
pub fn push_found<T: From<FieldLink> + Drop>(
    plan: &Plan,
    order: Order,
    body: &[u8],
    into: &mut Vec<T>,
    ends: &[usize],
) -> Result<(), AllocError>
    requires body { HasBody order plan.now body.now }
    requires places { AreLinkPlaces order plan.now body.now ends.now }
    ensures { Appends
        (λ made. OnOk result (IsMadeOf T.from_gives (AreLinks order plan.now body.now) made))
        into.old.items
        into.new.items }
{
    if plan.links_are_plain() {
        return push_plain(plan, order, body, into, ends);
    }
    push_lists(plan, order, body, into, ends)
}

/// Appends the links of a body, each of which is a field of its own, by the ends of the varied fields.
fn push_plain<T: From<FieldLink> + Drop>(
    plan: &Plan,
    order: Order,
    body: &[u8],
    into: &mut Vec<T>,
    ends: &[usize],
) -> Result<(), AllocError>
    requires body { HasBody order plan.now body.now }
    requires plain { list_all is_plain plan.now ≡ true }
    requires places { AreLinkPlaces order plan.now body.now ends.now }
    ensures { Appends
        (λ made. OnOk result (IsMadeOf T.from_gives (AreLinks order plan.now body.now) made))
        into.old.items
        into.new.items }
{
    for field in plan.links() {
        let start = place_by(plan, *field as usize, ends).start;
        let found = FieldLink {
            field: *field,
            link: link_of(order, &body[start..]),
        };
        into.push(T::from(found))?;
    }
    Ok(())
}

/// Appends the links of a body, of whose link fields some are lists, by the ends of the varied fields.
fn push_lists<T: From<FieldLink> + Drop>(
    plan: &Plan,
    order: Order,
    body: &[u8],
    into: &mut Vec<T>,
    ends: &[usize],
) -> Result<(), AllocError>
    requires body { HasBody order plan.now body.now }
    requires places { AreLinkPlaces order plan.now body.now ends.now }
    ensures { Appends
        (λ made. OnOk result (IsMadeOf T.from_gives (AreLinks order plan.now body.now) made))
        into.old.items
        into.new.items }
{
    for field in plan.links() {
        let here = place_by(plan, *field as usize, ends);
        let rest = &body[here.start..];
        push_field(order, *field, &rest[..here.length], into)?;
    }
    Ok(())
}

/// Appends the links that these bytes spell, which are those of a field.
fn push_field<T: From<FieldLink> + Drop>(
    order: Order,
    field: u32,
    bytes: &[u8],
    into: &mut Vec<T>,
) -> Result<(), AllocError>
    ensures { Appends
        (λ made. OnOk result (IsMadeOf T.from_gives
        (λ links. (items : List StructLink) → AreItems (IsLink order) items bytes.now → links ≡ links_with field items)
        made))
        into.old.items
        into.new.items }
{
    for i in 0..bytes.len() / LINK_SIZE {
        let found = FieldLink {
            field,
            link: link_of(order, &bytes[i * LINK_SIZE..]),
        };
        into.push(T::from(found))?;
    }
    Ok(())
}

/// Where the link of this number stands.
fn link_place(plan: &Plan, order: Order, body: &[u8], k: u64) -> LinkPlace
    requires { HasLink order plan.now body.now k }
    ensures placed { IsLinkPlaced order plan.now body.now k result }
    ensures replaced { IsReplaceable order plan.now body.now k result.at }
{
    let count = plan.steps().len();
    if count <= FEWEST_FIELDS {
        link_place_in(plan, order, body, k, &mut [0; FEWEST_FIELDS])
    } else if count <= FEW_FIELDS {
        link_place_in(plan, order, body, k, &mut [0; FEW_FIELDS])
    } else {
        link_place_in(plan, order, body, k, &mut [0; FIELD_LIMIT])
    }
}

/// The same, with room for where each varied field ends.
fn link_place_in(plan: &Plan, order: Order, body: &[u8], k: u64, ends: &mut [usize]) -> LinkPlace
    requires link { HasLink order plan.now body.now k }
    requires room { (mark_of plan.now (length plan.now)).varied ≤ length ends.old }
    ensures placed { IsLinkPlaced order plan.now body.now k result }
    ensures replaced { IsReplaceable order plan.now body.now k result.at }
{
    walk_body(plan, plan.fields().len(), order, body, ends);
    let mut left = k;
    for field in plan.links() {
        let here = place_by(plan, *field as usize, ends);
        let count = (here.length / LINK_SIZE) as u64;
        if left < count {
            return LinkPlace {
                field: *field,
                at: here.start + left as usize * LINK_SIZE,
            };
        }
        left -= count;
    }
    unreachable!()
}

/// How many links a body has, by the ends of its varied fields.
pub fn count_links(plan: &Plan, order: Order, body: &[u8], ends: &[usize]) -> u64
    requires body { HasBody order plan.now body.now }
    requires places { ArePlaces order plan.now body.now (length plan.now) ends.now }
    ensures { HasLinks order plan.now body.now result }
{
    if plan.links_are_plain() {
        return plan.links().len() as u64;
    }
    let mut count = 0;
    for field in plan.links() {
        count += place_by(plan, *field as usize, ends).length / LINK_SIZE;
    }
    count as u64
}

/// Whether it is a link or a list of them.
pub fn is_link(field: &Field) -> bool
    ensures { result ≡ is_link field.now }
{
    matches!(field.form, Form::Link)
}

/// Whether it is no list of links.
pub fn is_plain(field: &Field) -> bool
    ensures { result ≡ is_plain field.now }
{
    !is_link(field) || field.counts.is_empty()
}

/// The link at the front of the bytes.
pub fn link_of(order: Order, bytes: &[u8]) -> Link
    requires { 6 ≤ length bytes.now }
    ensures { link_in order bytes.now ≡ Ok (result, drop 6 bytes.now) }
{
    Link {
        class: read_num(order, Width::Two, bytes) as u16,
        instance: read_num(order, Width::Four, &bytes[2..]) as u32,
    }
}
