//! Where a field of a body ends: the fields are gone through from the front, each by the numbers of those before it.

ghost use Rattle.std.specs.Prelude.{◌≡◌, ◌≤◌, ◌<◌, ◌+◌, ◌^◌, ℕ, List, length, min};
ghost use Rattle.scalar_types.specs.declared.Width.{Width as SpecWidth};
ghost use Rattle.scalar_types.specs.Number.{size_of};
ghost use Rattle.layout_plan.specs.declared.fields.Form.TheVariants.{Number};
ghost use Rattle.record_values.specs.Values.{number_of};
ghost use Rattle.record_values.specs.declared.values.Value.{Value};
ghost use Rattle.layout_plan.specs.Body.{item_count, IsField};
ghost use Rattle.layout_plan.specs.Respelled.{BeginsText};
ghost use Rattle.dumper.specs.Spans.{StandsFirst, IsSpan, TextsStandFirst, AreTextSpans, IsTextSpan};

use layout_plan::{Field, Form, LINK_SIZE, capped_count};
use scalar_types::{Order, Width, read_num};

/// The bytes of a field's value, which stands at the front of these, by the numbers of the fields before it.
pub fn field_length(order: Order, field: &Field, numbers: &[u64], bytes: &[u8]) -> usize
    requires { StandsFirst order numbers.now field.now.form field.now.counts bytes.now }
    ensures { IsSpan order numbers.now field.now.form field.now.counts bytes.now result }
{
    let count = item_count(field, numbers, bytes);
    match field.form {
        Form::Number(width) => count * width.size(),
        Form::Pair(width) => count * (2 * width.size()),
        Form::Link => count * LINK_SIZE,
        Form::Text => texts_length(order, count, bytes),
    }
}

/// The items of a field, but no more than there are bytes and one: a list of more has no spelling.
#[inline(always)]
fn item_count(field: &Field, numbers: &[u64], bytes: &[u8]) -> usize
    ensures { result ≡ min (item_count numbers.now field.now.counts) (length bytes.now + 1) }
{
    if field.counts.is_empty() {
        return 1;
    }
    capped_count(field.counts.as_slice(), numbers, bytes.len() + 1)
}

/// The bytes of so many texts at the front of these.
fn texts_length(order: Order, count: usize, bytes: &[u8]) -> usize
    requires { TextsStandFirst order count bytes.now }
    ensures { AreTextSpans order count bytes.now result }
{
    let mut at = 0;
    for _i in 0..count {
        at += text_length(order, &bytes[at..]);
    }
    at
}

/// The bytes of the text at the front of these: its length, and as many as that counts.
pub fn text_length(order: Order, bytes: &[u8]) -> usize
    requires { BeginsText order bytes.now }
    ensures text { IsTextSpan order bytes.now result }
    ensures within { result ≤ length bytes.now }
    ensures low { 2 ≤ result }
{
    2 + read_num(order, Width::Two, bytes) as usize
}

/// The number that a field's value is, or 0 where it is none.
pub fn number_in(order: Order, field: &Field, bytes: &[u8]) -> u64
    requires { (numbers : List ℕ) × (v : Value) × IsField order numbers field.now.form field.now.counts v bytes.now }
    ensures number { (numbers : List ℕ) (v : Value)
        → IsField order numbers field.now.form field.now.counts v bytes.now → result ≡ number_of v }
    ensures fits { (width : SpecWidth) → field.now.form ≡ Number width → result < 256 ^ size_of width }
{
    match field.form {
        Form::Number(width) if field.counts.is_empty() => read_num(order, width, bytes),
        _ => 0,
    }
}
