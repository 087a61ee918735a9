//! Whether a body spells its layout, and what it has.
ghost use Rattle.std.specs.Prelude.{◌≡◌, ◌≤◌, ◌↔◌, Some, IsOk, IfOk, IfErr, OnOk, OnErr, length};
ghost use Rattle.layout_plan.specs.Appends.{Appends};
ghost use Rattle.layout_plan.specs.Layout.{IsLayout};
ghost use Rattle.layout_plan.specs.Links.{AreBodyLinks};
ghost use Rattle.layout_plan.specs.Body.{HasBody, IsMeasured};
ghost use Rattle.layout_plan.specs.Reading.{fault_of};
ghost use Rattle.layout_plan.specs.Marks.{mark_of};
ghost use Rattle.layout_plan.specs.Walking.{TellsBody, TellsLinks, TellsWhole};

use crate::links::{count_links, push_found};
use crate::walking::{FEW_FIELDS, FEWEST_FIELDS, FIELD_LIMIT, Walked, fault, walk};
use crate::{BodyFault, BodyReason, Measured, Plan};
use scalar_types::Order;
use std::alloc::AllocError;
use type_text::Link;

/// What a body has that spells the layout of the plan, else the first field without a spelling. Takes no
/// memory.
///
/// The body is the bytes after the structure's common part. It may end with four bytes that no field spells.
/// The time is linear in the number of texts, of lists that are not short lists by numerals alone, of the
/// names in their dimensions and of links, and in the bytes of lists of texts, whatever counts stand in the
/// body; where there is a fault, in the number of fields too.
pub fn measure(plan: &Plan, order: Order, body: &[u8]) -> Result<Measured, BodyFault>
    ensures ok { IsOk result ↔ HasBody order plan.now body.now }
    ensures measured { IfOk result (λ m. IsMeasured order plan.now body.now m.links m.zero_texts) }
    ensures fault { IfErr result (λ fault. fault_of order plan.now body.now ≡ Some fault) }
{
    if plan.steps().len() <= FEWEST_FIELDS {
        return measure_in(plan, order, body, &mut [0; FEWEST_FIELDS]);
    }
    measure_many(plan, order, body)
}

/// The same of a plan with more varied fields.
#[inline(never)]
fn measure_many(plan: &Plan, order: Order, body: &[u8]) -> Result<Measured, BodyFault>
    ensures { TellsBody order plan.now body.now result }
{
    if plan.steps().len() <= FEW_FIELDS {
        return measure_in(plan, order, body, &mut [0; FEW_FIELDS]);
    }
    measure_in(plan, order, body, &mut [0; FIELD_LIMIT])
}

/// The same, with room for where each varied field ends.
#[inline(always)]
fn measure_in(
    plan: &Plan,
    order: Order,
    body: &[u8],
    ends: &mut [usize],
) -> Result<Measured, BodyFault>
    requires { (mark_of plan.now (length plan.now)).varied ≤ length ends.old }
    ensures { TellsBody order plan.now body.now result }
{
    let walked = match walk_whole(plan, order, body, ends) {
        Ok(walked) => walked,
        Err(fault) => return Err(fault),
    };
    Ok(Measured {
        zero_texts: walked.zero_texts,
        links: count_links(plan, order, body, ends),
    })
}

/// What `measure` answers; and where the body spells the layout, its links in turn are put behind the others, by the
/// same walk. Where it does not, or where memory is out, `into` is as it was.
///
/// Takes memory for the links alone, and the time of `measure` and of the links.
pub fn measure_links(
    plan: &Plan,
    order: Order,
    body: &[u8],
    into: &mut Vec<Link>,
) -> Result<Result<Measured, BodyFault>, AllocError>
    ensures ok { IfOk result (λ told. IsOk told ↔ HasBody order plan.now body.now) }
    ensures measured { IfOk result
        (λ told. IfOk told (λ m. IsMeasured order plan.now body.now m.links m.zero_texts)) }
    ensures fault { IfOk result
        (λ told. IfErr told (λ fault. fault_of order plan.now body.now ≡ Some fault)) }
    ensures put { IfOk result
        (λ told. OnOk told (Appends (AreBodyLinks order plan.now body.now) into.old.items into.new.items)) }
    ensures kept { IfOk result (λ told. OnErr told (into.new.items ≡ into.old.items)) }
    ensures err { OnErr result (into.new.items ≡ into.old.items) }
{
    if plan.steps().len() <= FEWEST_FIELDS {
        return measure_links_in(plan, order, body, into, &mut [0; FEWEST_FIELDS]);
    }
    measure_links_many(plan, order, body, into)
}

/// The same of a plan with more varied fields.
#[inline(never)]
fn measure_links_many(
    plan: &Plan,
    order: Order,
    body: &[u8],
    into: &mut Vec<Link>,
) -> Result<Result<Measured, BodyFault>, AllocError>
    ensures { TellsLinks order plan.now body.now into.old.items into.new.items result }
{
    if plan.steps().len() <= FEW_FIELDS {
        return measure_links_in(plan, order, body, into, &mut [0; FEW_FIELDS]);
    }
    measure_links_in(plan, order, body, into, &mut [0; FIELD_LIMIT])
}

/// The same, with room for where each varied field ends.
#[inline(always)]
fn measure_links_in(
    plan: &Plan,
    order: Order,
    body: &[u8],
    into: &mut Vec<Link>,
    ends: &mut [usize],
) -> Result<Result<Measured, BodyFault>, AllocError>
    requires { (mark_of plan.now (length plan.now)).varied ≤ length ends.old }
    ensures { TellsLinks order plan.now body.now into.old.items into.new.items result }
{
    let walked = match walk_whole(plan, order, body, ends) {
        Ok(walked) => walked,
        Err(fault) => return Ok(Err(fault)),
    };
    let start = into.len();
    if push_found(plan, order, body, into, ends).is_err() {
        into.truncate(start);
        return Err(AllocError);
    }
    Ok(Ok(Measured {
        zero_texts: walked.zero_texts,
        links: (into.len() - start) as u64,
    }))
}

/// Walks over all fields, after which no bytes may stand or the tail.
#[inline(always)]
fn walk_whole(
    plan: &Plan,
    order: Order,
    body: &[u8],
    ends: &mut [usize],
) -> Result<Walked, BodyFault>
    requires { (mark_of plan.now (length plan.now)).varied ≤ length ends.old }
    ensures layout { IsLayout plan.now }
    ensures told { TellsWhole order plan.now body.now ends.new result }
{
    let count = plan.fields().len();
    let walked = match walk(plan, count, order, body, ends) {
        Ok(walked) => walked,
        Err(fault) => return Err(fault),
    };
    let rest = body.len() - walked.at;
    if rest != 0 && rest != TAIL_SIZE {
        return Err(fault(count, BodyReason::BodyLong));
    }
    Ok(walked)
}

/// The bytes that a producer may write after the listed fields.
pub const TAIL_SIZE: usize = 4;
