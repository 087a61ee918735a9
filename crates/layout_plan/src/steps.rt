//! The steps of a walk over the varied fields, made once: what each field's items are, and where the numbers
//! stand that count them.
ghost use Rattle.std.specs.Prelude.{◌≡◌, ◌≤◌, ◌<◌, ℕ, ◌+◌, ◌++◌, true, false, length, slice_get, All};
ghost use Rattle.std.specs.Prelude.{slice_index_or, Some, IfOk, OnOk};
ghost use Rattle.layout_plan.specs.Layout.{AreSound, IsEarlier};
ghost use Rattle.layout_plan.specs.declared.fields.Field.{Field};
ghost use Rattle.layout_plan.specs.Marks.{first_mark, marks_from};
ghost use Rattle.layout_plan.specs.Steps.{single_width, items_of, unit_of, counter_of};
ghost use Rattle.layout_plan.specs.Steps.{counters_by, counters_of};
ghost use Rattle.layout_plan.specs.Steps.{step_of, steps_of, no_step, AreRepeats};

use crate::links::LINK_SIZE;
use crate::marks::{Mark, factor_of, fixed_width};
use crate::spelled::capped_product;
use crate::{Count, Field, Form};
use scalar_types::Width;
use std::alloc::{AllocError, Global};
use type_text::ItemList;

/// What the bytes of a varied field are.
#[derive(Clone, Copy)]
pub enum Items {
    OneText,
    Texts,
    /// Items that are all of one size.
    Plain,
}

/// The number of a field that a dimension names.
#[derive(Clone, Copy, PartialEq)]
pub struct Counter {
    /// Where it stands.
    pub mark: Mark,
    /// Its width, or None where the field is no number, which counts as 0.
    pub width: Option<Width>,
    /// The width of a signed number, which counts as 0 where it is below zero.
    pub signed: Option<Width>,
}

/// One varied field.
#[derive(Drop)]
pub struct Step {
    pub field: u32,
    pub mark: Mark,
    pub items: Items,
    /// The bytes of an item, or 1 for a text, times the numeral dimensions, or 2^64 - 1 where that is less.
    pub factor: usize,
    /// One for each of its other dimensions.
    pub counters: ItemList<Counter>,
}

/// Of each step, whether its one counter is that of the step before it too, and need not be read again.
pub fn repeats_of(alloc: Global, steps: &[Step]) -> Result<ItemList<bool>, AllocError>
    ensures { IfOk result (AreRepeats steps.now) }
{
    let mut repeats = ItemList::new(alloc);
    for j in 0..steps.len() {
        repeats.push(is_repeat(steps, j))?;
    }
    Ok(repeats)
}

/// Whether the one counter of step j is that of the step before it too.
fn is_repeat(steps: &[Step], j: usize) -> bool
    requires { j < length steps.now }
    ensures first { j ≡ 0 → result ≡ false }
    ensures same { (i : ℕ) → i + 1 ≡ j → result ≡ true
        → (slice_index_or steps.now i no_step).counters ≡ (slice_index_or steps.now j no_step).counters }
{
    if j == 0 {
        return false;
    }
    have_same_counter(&steps[j - 1], &steps[j])
}

/// Whether both have one counter, and the same.
fn have_same_counter(a: &Step, b: &Step) -> bool
    ensures { result ≡ true → a.now.counters ≡ b.now.counters }
{
    match (a.counters.as_slice(), b.counters.as_slice()) {
        ([a], [b]) => a == b,
        _ => false,
    }
}

/// The steps of the varied fields, in order.
pub fn steps_of(
    alloc: Global,
    fields: &[Field],
    marks: &[Mark],
) -> Result<ItemList<Step>, AllocError>
    requires marks { marks.now ≡ marks_from first_mark fields.now }
    requires sound { AreSound 0 fields.now }
    requires short { length fields.now ≤ 4096 }
    ensures { IfOk result (λ steps. steps ≡ steps_of fields.now) }
{
    let mut steps = ItemList::new(alloc);
    for (i, field) in fields.iter().enumerate() {
        if fixed_width(field).is_some() {
            continue;
        }
        let step = step_of(alloc, fields, marks, i)?;
        steps.push(step)?;
    }
    Ok(steps)
}

/// The step of field i.
fn step_of(alloc: Global, fields: &[Field], marks: &[Mark], i: usize) -> Result<Step, AllocError>
    requires marks { marks.now ≡ marks_from first_mark fields.now }
    requires sound { AreSound 0 fields.now }
    requires short { length fields.now ≤ 4096 }
    requires field { i < length fields.now }
    ensures { (f : Field) → slice_get fields.now i ≡ Some f
        → IfOk result (λ step. step ≡ step_of fields.now i f) }
{
    let field = &fields[i];
    let counts = field.counts.as_slice();
    let counters = counters_of(alloc, fields, marks, counts)?;
    Ok(Step {
        field: i as u32,
        mark: marks[i],
        items: items_of(field),
        factor: capped_product(factor_of(counts), unit_of(field.form), usize::MAX),
        counters,
    })
}

/// What the bytes of a varied field are.
fn items_of(field: &Field) -> Items
    ensures { result ≡ items_of field.now.form field.now.counts }
{
    match field.form {
        Form::Number(_) | Form::Pair(_) | Form::Link => Items::Plain,
        Form::Text => {
            if field.counts.is_empty() {
                Items::OneText
            } else {
                Items::Texts
            }
        }
    }
}

/// The bytes of an item, or 1 for a text.
fn unit_of(form: Form) -> u64
    ensures { result ≡ unit_of form }
{
    match form {
        Form::Number(width) => width.size() as u64,
        Form::Pair(width) => 2 * width.size() as u64,
        Form::Link => LINK_SIZE as u64,
        Form::Text => 1,
    }
}

/// The counters of the dimensions that are names.
fn counters_of(
    alloc: Global,
    fields: &[Field],
    marks: &[Mark],
    counts: &[Count],
) -> Result<ItemList<Counter>, AllocError>
    requires marks { marks.now ≡ marks_from first_mark fields.now }
    requires earlier { All (IsEarlier (length fields.now)) counts.now }
    ensures { IfOk result (λ counters. counters ≡ counters_of fields.now counts.now) }
{
    let mut counters = ItemList::new(alloc);
    for count in counts {
        push_counter(fields, marks, *count, &mut counters)?;
    }
    Ok(counters)
}

/// Appends the counter of a dimension that is a name.
fn push_counter(
    fields: &[Field],
    marks: &[Mark],
    count: Count,
    counters: &mut ItemList<Counter>,
) -> Result<(), AllocError>
    requires marks { marks.now ≡ marks_from first_mark fields.now }
    requires earlier { IsEarlier (length fields.now) count }
    ensures { OnOk result (counters.new ≡ counters.old ++ counters_by fields.now count) }
{
    let counter = match count {
        Count::Fixed(_) => return Ok(()),
        Count::Of(i) => counter_of(fields, marks, i as usize, None),
        Count::OfSigned(i, width) => counter_of(fields, marks, i as usize, Some(width)),
    };
    counters.push(counter)?;
    Ok(())
}

/// The counter of a dimension that names field i.
fn counter_of(fields: &[Field], marks: &[Mark], i: usize, signed: Option<Width>) -> Counter
    requires marks { marks.now ≡ marks_from first_mark fields.now }
    requires field { i < length fields.now }
    ensures { result ≡ counter_of fields.now i signed }
{
    Counter {
        mark: marks[i],
        width: single_width(&fields[i]),
        signed,
    }
}

/// The width of a field that is one number, or None where it is none.
pub fn single_width(field: &Field) -> Option<Width>
    ensures { result ≡ single_width field.now.form field.now.counts }
{
    if !field.counts.is_empty() {
        return None;
    }
    match field.form {
        Form::Number(width) => Some(width),
        _ => None,
    }
}
