//! A body written again in the canonical form, without its values: in little-endian order, with other links, each text
//! closed by its zero byte, the check sum cleared and no tail.
ghost use Rattle.std.specs.Prelude.{◌≡◌, ◌≤◌, length, OnOk, OnErr, IfOk};
ghost use Rattle.scalar_types.specs.declared.Order.{Order};
ghost use Rattle.layout_plan.specs.Appends.{Appends};
ghost use Rattle.layout_plan.specs.Body.{HasBody};
ghost use Rattle.layout_plan.specs.Links.{HasLinks};
ghost use Rattle.layout_plan.specs.Marks.{mark_of};
ghost use Rattle.layout_plan.specs.Respelled.{IsSumNumber, SpellsFew, RespellsAfter};
ghost use Rattle.layout_plan.specs.Written.{IsRewritten};

use crate::lent::{place_by, walk_body};
use crate::respelled::{is_spelled_alike, push_field};
use crate::walking::{FEW_FIELDS, FEWEST_FIELDS, FIELD_LIMIT, place};
use crate::{Field, Plan};
use scalar_types::Order;
use std::alloc::AllocError;
use type_text::Link;

/// Appends the values of a body that spells the layout in little-endian order, and makes no value of them: the k-th
/// link replaced by the k-th of `links`, a last field `chkSum INT_4U` as 0, and each text, the empty one too, closed by
/// its zero byte. No tail is appended. Where memory is out, `into` is as it was.
pub fn rewrite(
    plan: &Plan,
    order: Order,
    body: &[u8],
    links: &[Link],
    into: &mut Vec<u8>,
) -> Result<(), AllocError>
    requires read { HasBody order plan.now body.now }
    requires links { HasLinks order plan.now body.now (length links.now) }
    ensures ok { OnOk result
        (Appends (IsRewritten order plan.now body.now links.now) into.old.items into.new.items) }
    ensures err { OnErr result (into.new.items ≡ into.old.items) }
{
    let start = into.len();
    if push_body(plan, order, body, links, into).is_err() {
        into.truncate(start);
        return Err(AllocError);
    }
    Ok(())
}

/// The same, but that a part of it may stand there where memory is out.
fn push_body(
    plan: &Plan,
    order: Order,
    body: &[u8],
    links: &[Link],
    into: &mut Vec<u8>,
) -> Result<(), AllocError>
    requires read { HasBody order plan.now body.now }
    requires links { HasLinks order plan.now body.now (length links.now) }
    ensures { Appends (λ bytes. OnOk result (IsRewritten order plan.now body.now links.now bytes))
        into.old.items into.new.items }
{
    into.reserve(body.len())?;
    let count = plan.steps().len();
    if count <= FEWEST_FIELDS {
        push_fields(plan, order, body, links, into, &mut [0; FEWEST_FIELDS])
    } else if count <= FEW_FIELDS {
        push_fields(plan, order, body, links, into, &mut [0; FEW_FIELDS])
    } else {
        push_fields(plan, order, body, links, into, &mut [0; FIELD_LIMIT])
    }
}

/// The same, with room for where each varied field ends.
fn push_fields(
    plan: &Plan,
    order: Order,
    body: &[u8],
    links: &[Link],
    into: &mut Vec<u8>,
    ends: &mut [usize],
) -> Result<(), AllocError>
    requires read { HasBody order plan.now body.now }
    requires links { HasLinks order plan.now body.now (length links.now) }
    requires room { (mark_of plan.now (length plan.now)).varied ≤ length ends.old }
    ensures { Appends (λ bytes. OnOk result (IsRewritten order plan.now body.now links.now bytes))
        into.old.items into.new.items }
{
    match order {
        Order::Little => push_pieces(plan, body, links, into, ends),
        Order::Big => push_each(plan, order, body, links, into, ends),
    }
}

/// The same, field by field.
fn push_each(
    plan: &Plan,
    order: Order,
    body: &[u8],
    links: &[Link],
    into: &mut Vec<u8>,
    ends: &mut [usize],
) -> Result<(), AllocError>
    requires read { HasBody order plan.now body.now }
    requires links { HasLinks order plan.now body.now (length links.now) }
    requires room { (mark_of plan.now (length plan.now)).varied ≤ length ends.old }
    ensures { Appends (λ bytes. OnOk result (IsRewritten order plan.now body.now links.now bytes))
        into.old.items into.new.items }
{
    let fields = plan.fields();
    walk_body(plan, fields.len(), order, body, ends);
    let mut next = 0;
    for (k, field) in fields.iter().enumerate() {
        let here = place_by(plan, k, ends);
        let bytes = &body[here.start..here.start + here.length];
        next += push_field(order, field, bytes, &links[next..], into)?;
    }
    Ok(())
}

/// The same of a little-endian body, whose fields stay as they are but for links, the check sum and texts of
/// which one is spelled by a length of 0 alone: what stands between these is copied in one piece.
fn push_pieces(
    plan: &Plan,
    body: &[u8],
    links: &[Link],
    into: &mut Vec<u8>,
    ends: &mut [usize],
) -> Result<(), AllocError>
    requires read { HasBody Order.Little plan.now body.now }
    requires links { HasLinks Order.Little plan.now body.now (length links.now) }
    requires room { (mark_of plan.now (length plan.now)).varied ≤ length ends.old }
    ensures { Appends (λ bytes. OnOk result (IsRewritten Order.Little plan.now body.now links.now bytes))
        into.old.items into.new.items }
{
    let fields = plan.fields();
    walk_body(plan, fields.len(), Order::Little, body, ends);
    let mut next = 0;
    let mut from = 0;
    let mut at = 0;
    for (k, field) in fields.iter().enumerate() {
        let end = place(plan.mark(k + 1), ends);
        let bytes = &body[at..end];
        if is_spelled_alike(field, bytes) {
            at = end;
            continue;
        }
        next += push_changed(&body[from..at], field, bytes, &links[next..], into)?;
        from = end;
        at = end;
    }
    into.extend_from_slice(&body[from..at])
}

/// Appends a piece as it is, and the value of the field after it. Answers how many of the links that took.
fn push_changed(
    piece: &[u8],
    field: &Field,
    bytes: &[u8],
    links: &[Link],
    into: &mut Vec<u8>,
) -> Result<usize, AllocError>
    requires sum { IsSumNumber field.now }
    requires spelled { SpellsFew Order.Little field.now.form field.now.counts bytes.now links.now }
    ensures { Appends
        (λ new. IfOk result (λ used. RespellsAfter piece.now field.now bytes.now links.now used new))
        into.old.items
        into.new.items }
{
    into.extend_from_slice(piece)?;
    push_field(Order::Little, field, bytes, links, into)
}
