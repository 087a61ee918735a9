//! A walk over the varied fields of a body. The fields of fixed width between them are passed over by the
//! plan's marks.
ghost use Rattle.std.specs.Prelude.{◌≡◌, ◌+◌, ◌-◌, ◌*◌, ◌≤◌, ◌<◌, ◌^◌, ℕ, List, [], true, min, length, Some};
ghost use Rattle.std.specs.Prelude.{Err, IfOk};
ghost use Rattle.scalar_types.specs.declared.Order.{Order};
ghost use Rattle.layout_plan.specs.declared.fields.Field.{Field};
ghost use Rattle.layout_plan.specs.Layout.{IsLayout};
ghost use Rattle.layout_plan.specs.Reading.{field_in, fields_in};
ghost use Rattle.layout_plan.specs.Marks.{mark_of, end_of, place_of, fixed_width, is_varied, product_by};
ghost use Rattle.layout_plan.specs.Spelled.{Tells};
ghost use Rattle.layout_plan.specs.Steps.{items_of, number_by, counter_value, counted_by, step_count, IsStep};
ghost use Rattle.layout_plan.specs.Steps.{HasRoom};
ghost use Rattle.layout_plan.specs.Steps.{IsThere, AreThere, IsAmount};
ghost use Rattle.layout_plan.specs.Walking.{number_at, IsWalked, HasWalked, TellsReached};

use crate::marks::Mark;
use crate::spelled::{Spelled, capped_product, plain_at, signed_count, text_at, texts_at};
use crate::steps::{Counter, Items, Step, single_width};
use crate::{BodyFault, BodyReason, Field, Plan};
use scalar_types::{Order, Width, read_num};

/// So many varied fields, which most layouts have no more than, have the least room on the stack.
pub const FEWEST_FIELDS: usize = 8;

/// The most fields of a layout.
pub const FIELD_LIMIT: usize = 4096;

/// The most fields for which little room is made on the stack, which all but a few layouts have no more than.
pub const FEW_FIELDS: usize = 64;

/// What a walk over some fields found.
#[derive(Clone, Copy)]
pub struct Walked {
    /// Where the fields end.
    pub at: usize,
    /// The texts spelled by a length of 0 alone.
    pub zero_texts: u64,
    /// What the counters of the last varied one among them count, as far as it fits.
    pub counted: usize,
}

/// Walks over the first k fields, with room for where each varied one among them ends. Each caller has a copy of
/// its own.
#[inline(always)]
pub fn walk(
    plan: &Plan,
    k: usize,
    order: Order,
    body: &[u8],
    ends: &mut [usize],
) -> Result<Walked, BodyFault>
    requires fields { k ≤ length plan.now }
    requires room { (mark_of plan.now k).varied ≤ length ends.old }
    ensures { TellsReached order plan.now body.now k k ends.new result }
{
    match order {
        Order::Big => walk_in(plan, k, Order::Big, body, ends),
        Order::Little => walk_in(plan, k, Order::Little, body, ends),
    }
}

/// The same. Each order has a copy of its own, which does not look at the order again.
#[inline(always)]
fn walk_in(
    plan: &Plan,
    k: usize,
    order: Order,
    body: &[u8],
    ends: &mut [usize],
) -> Result<Walked, BodyFault>
    requires fields { k ≤ length plan.now }
    requires room { (mark_of plan.now k).varied ≤ length ends.old }
    ensures { TellsReached order plan.now body.now k k ends.new result }
{
    let mark = plan.mark(k);
    let mut at = 0;
    let mut zero_texts = 0;
    let mut counted = 1;
    let repeats = plan.repeats();
    let passed = &plan.steps()[..mark.varied];
    for (j, step) in passed.iter().enumerate() {
        let before = Walked {
            at,
            zero_texts,
            counted,
        };
        match pass(plan, step, &repeats[j], order, body, ends, before) {
            Ok(walked) => {
                at = walked.at;
                ends[j] = at;
                zero_texts = walked.zero_texts;
                counted = walked.counted;
            }
            Err(fault) => return Err(fault),
        }
    }
    let end = at + mark.skip as usize;
    if end > body.len() {
        return Err(cut_fault(plan, k, body, ends));
    }
    Ok(Walked {
        at: end,
        zero_texts,
        counted,
    })
}

/// Walks over the field of a step, after the varied fields before it. Whether it repeats is read only where
/// it counts.
#[inline(always)]
fn pass(
    plan: &Plan,
    step: &Step,
    repeats: &bool,
    order: Order,
    body: &[u8],
    ends: &[usize],
    before: Walked,
) -> Result<Walked, BodyFault>
    requires layout { IsLayout plan.now }
    requires step { IsStep plan.now step.now }
    requires repeats { repeats.now ≡ true
        → before.counted ≡ counted_by order body.now ends.now step.now.counters }
    requires walked { IsWalked order plan.now body.now (mark_of plan.now step.now.field).varied
        ends.now before.zero_texts }
    requires at { before.at ≡ end_of ends.now (mark_of plan.now step.now.field).varied }
    ensures told { TellsReached order plan.now body.now (step.now.field + 1) step.now.field ends.now result }
    ensures counted { IfOk result (λ w. w.counted ≡ counted_by order body.now ends.now step.now.counters) }
{
    let k = step.field as usize;
    let start = before.at + step.mark.skip as usize;
    if start > body.len() {
        return Err(cut_fault(plan, k, body, ends));
    }
    let rest = &body[start..];
    let (spelled, counted) = spelled_at(step, repeats, order, body, ends, rest, before.counted);
    match spelled {
        Ok(spelled) => Ok(Walked {
            at: start + spelled.length,
            zero_texts: before.zero_texts + spelled.zero_texts,
            counted,
        }),
        Err(reason) => Err(fault(k, reason)),
    }
}

/// The varied field of a step at the front of the bytes that are left, and what its counters count. What
/// those of the step before it count is known.
#[inline(always)]
fn spelled_at(
    step: &Step,
    repeats: &bool,
    order: Order,
    body: &[u8],
    ends: &[usize],
    rest: &[u8],
    before: usize,
) -> (Result<Spelled, BodyReason>, usize)
    requires step { (fields : List Field) × IsStep fields step.now }
    requires there { AreThere body.now ends.now step.now.counters }
    requires repeats { repeats.now ≡ true → before ≡ counted_by order body.now ends.now step.now.counters }
    ensures spelled { (f : Field) (numbers : List ℕ)
        → is_varied f ≡ true
        → step.now.items ≡ items_of f.form f.counts
        → IsAmount (step_count order body.now ends.now step.now) numbers f
        → Tells (field_in order numbers f.form f.counts rest.now) f.form rest.now result.0 }
    ensures counted { result.1 ≡ counted_by order body.now ends.now step.now.counters }
{
    match step.items {
        Items::OneText => (text_at(order, rest), 1),
        Items::Texts => {
            let counted = count_by(step, repeats, order, body, ends, before);
            let count = capped_product(step.factor, counted as u64, usize::MAX);
            (texts_at(order, count, rest), counted)
        }
        Items::Plain => {
            let counted = count_by(step, repeats, order, body, ends, before);
            let length = capped_product(step.factor, counted as u64, usize::MAX);
            (plain_at(length, rest), counted)
        }
    }
}

/// What the counters of a step count together, or 2^64 - 1 where that is less, by the numbers in the fields
/// before it.
#[inline(always)]
fn count_by(
    step: &Step,
    repeats: &bool,
    order: Order,
    body: &[u8],
    ends: &[usize],
    before: usize,
) -> usize
    requires there { AreThere body.now ends.now step.now.counters }
    requires repeats { repeats.now ≡ true → before ≡ counted_by order body.now ends.now step.now.counters }
    ensures { result ≡ counted_by order body.now ends.now step.now.counters }
{
    if *repeats {
        return before;
    }
    let counters = step.counters.as_slice();
    if counters.len() == 1 {
        return extent_at(order, body, ends, &counters[0]) as usize;
    }
    product_by(counters, order, body, ends)
}

/// The same of any number of counters.
fn product_by(counters: &[Counter], order: Order, body: &[u8], ends: &[usize]) -> usize
    requires { AreThere body.now ends.now counters.now }
    ensures { result ≡ counted_by order body.now ends.now counters.now }
{
    let mut count = 1;
    for counter in counters {
        if count == 0 {
            return 0;
        }
        count = capped_product(count, extent_at(order, body, ends, counter), usize::MAX);
    }
    count
}

/// What a counter counts.
#[inline(always)]
fn extent_at(order: Order, body: &[u8], ends: &[usize], counter: &Counter) -> u64
    requires { IsThere body.now ends.now counter.now }
    ensures { result ≡ counter_value order body.now ends.now counter.now }
{
    let start = place(counter.mark, ends);
    let n = number_by(order, counter.width, &body[start..]);
    match counter.signed {
        Some(width) => signed_count(width, n),
        None => n,
    }
}

/// The number of this width at the front of the bytes, or 0 where there is none.
fn number_by(order: Order, width: Option<Width>, bytes: &[u8]) -> u64
    requires { HasRoom width bytes.now }
    ensures { result ≡ number_by order width bytes.now }
{
    match width {
        Some(width) => read_num(order, width, bytes),
        None => 0,
    }
}

/// The number that a field at the front of the bytes is, or 0 where it is none.
pub fn number_at(order: Order, field: &Field, bytes: &[u8]) -> u64
    requires { (width : ℕ) → fixed_width field.now.form field.now.counts ≡ Some width
        → width ≤ length bytes.now }
    ensures { result ≡ number_at order field.now.form field.now.counts bytes.now }
{
    number_by(order, single_width(field), bytes)
}

/// The fault where field k begins, or the fields end, after the body's end: at the field that this end cuts.
#[cold]
#[inline(never)]
fn cut_fault(plan: &Plan, k: usize, body: &[u8], ends: &[usize]) -> BodyFault
    requires layout { IsLayout plan.now }
    requires field { k ≤ length plan.now }
    requires walked { HasWalked plan.now body.now (mark_of plan.now k).varied ends.now }
    requires after { length body.now < place_of ends.now (mark_of plan.now k) }
    ensures { (order : Order) (zero_texts : ℕ)
        → IsWalked order plan.now body.now (mark_of plan.now k).varied ends.now zero_texts
        → fields_in order [] plan.now body.now ≡ Err result }
{
    fault(cut_field(plan, k, body, ends), BodyReason::BodyShort)
}

/// The field before field k that the body's end cuts, where k begins after that end.
fn cut_field(plan: &Plan, k: usize, body: &[u8], ends: &[usize]) -> usize
    requires field { k ≤ length plan.now }
    requires walked { HasWalked plan.now body.now (mark_of plan.now k).varied ends.now }
    requires after { length body.now < place_of ends.now (mark_of plan.now k) }
    ensures before { result < k }
    ensures same { (mark_of plan.now result).varied ≡ (mark_of plan.now k).varied }
    ensures begins { place_of ends.now (mark_of plan.now result) ≤ length body.now }
    ensures cut { length body.now < place_of ends.now (mark_of plan.now (result + 1)) }
{
    let mut i = k - 1;
    while place(plan.mark(i), ends) > body.len() {
        i -= 1;
    }
    i
}

/// The place that a mark tells, by the ends of the varied fields.
pub fn place(mark: Mark, ends: &[usize]) -> usize
    requires room { mark.varied ≤ length ends.now }
    requires below { end_of ends.now mark.varied < 2 ^ 63 }
    ensures { result ≡ place_of ends.now mark }
{
    let end = if mark.varied == 0 {
        0
    } else {
        ends[mark.varied - 1]
    };
    end + mark.skip as usize
}

/// The fault at a field.
pub fn fault(field: usize, reason: BodyReason) -> BodyFault
    requires { field ≤ 4096 }
    ensures { result ≡ record { field = field; reason = reason } }
{
    BodyFault {
        field: field as u32,
        reason,
    }
}
