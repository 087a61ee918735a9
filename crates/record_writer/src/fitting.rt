//! Whether values fit the fields of a layout.
ghost use Rattle.std.specs.Prelude.{◌≡◌, ◌≤◌, ◌<◌, ◌-◌, ◌^◌, ◌↔◌, length, take, map, All, IsTrue};
ghost use Rattle.layout_plan.specs.Body.{number_of, item_count};
ghost use Rattle.record_writer.specs.Fit.{FitsWidth, PairFitsWidth, IsShortText, FitsSingle, FitsListed};
ghost use Rattle.record_writer.specs.Fit.{FitsField, Fits};

use layout_plan::{Count, FEW_FIELDS, FIELD_LIMIT, Field, Form, capped_count};
use record_values::Value;
use scalar_types::Width;
use type_text::Name;

/// The most bytes of a text.
const TEXT_LIMIT: usize = 65_534;

/// Whether there is a value for each field, and each fits its field.
pub fn values_fit(fields: &[Field], values: &[Value]) -> bool
    requires { length fields.now ≤ 4096 }
    ensures { IsTrue result ↔ Fits fields.now values.now }
{
    if fields.len() != values.len() {
        return false;
    }
    if values.len() <= FEW_FIELDS {
        each_fits(fields, values, &mut [0; FEW_FIELDS])
    } else {
        each_fits(fields, values, &mut [0; FIELD_LIMIT])
    }
}

/// Whether each value fits its field, with room for the numbers that they are.
fn each_fits(fields: &[Field], values: &[Value], numbers: &mut [u64]) -> bool
    requires long { length fields.now ≡ length values.now }
    requires room { length values.now ≤ length numbers.old }
    ensures { IsTrue result ↔ Fits fields.now values.now }
{
    put_numbers(values, numbers);
    let numbers = &numbers[..values.len()];
    for (field, value) in fields.iter().zip(values) {
        if !field_fits(field, value, numbers) {
            return false;
        }
    }
    true
}

/// Puts the number that each value is at the front of the numbers.
fn put_numbers(values: &[Value], numbers: &mut [u64])
    requires { length values.now ≤ length numbers.old }
    ensures { take (length values.now) numbers.new ≡ map number_of values.now }
{
    for (i, value) in values.iter().enumerate() {
        numbers[i] = value.number();
    }
}

/// Whether the value fits the field, by the numbers of all fields.
fn field_fits(field: &Field, value: &Value, numbers: &[u64]) -> bool
    ensures { IsTrue result ↔ FitsField numbers.now field.now.form field.now.counts value.now }
{
    let counts = field.counts.as_slice();
    if counts.is_empty() {
        single_fits(field.form, value)
    } else {
        list_fits(field.form, counts, numbers, value)
    }
}

fn single_fits(form: Form, value: &Value) -> bool
    ensures { IsTrue result ↔ FitsSingle form value.now }
{
    match (form, value) {
        (Form::Number(width), Value::Num(n)) => number_fits(width, *n),
        (Form::Pair(width), Value::Pair(a, b)) => number_fits(width, *a) && number_fits(width, *b),
        (Form::Text, Value::Text(text)) => text_fits(text),
        (Form::Link, Value::Link(_)) => true,
        _ => false,
    }
}

/// Whether the value is a list of as many items as the counts say.
fn list_fits(form: Form, counts: &[Count], numbers: &[u64], value: &Value) -> bool
    ensures { IsTrue result ↔ FitsListed form (item_count numbers.now counts.now) value.now }
{
    match (form, value) {
        (Form::Number(Width::One), Value::Bytes(list)) => {
            is_count(counts, numbers, list.bytes().len())
        }
        (Form::Number(Width::One), _) => false,
        (Form::Number(width), Value::Nums(list)) => {
            let list = list.as_slice();
            is_count(counts, numbers, list.len()) && numbers_fit(width, list)
        }
        (Form::Pair(width), Value::Pairs(list)) => {
            let list = list.as_slice();
            is_count(counts, numbers, list.len()) && pairs_fit(width, list)
        }
        (Form::Text, Value::Texts(list)) => {
            let list = list.as_slice();
            is_count(counts, numbers, list.len()) && texts_fit(list)
        }
        (Form::Link, Value::Links(list)) => is_count(counts, numbers, list.as_slice().len()),
        _ => false,
    }
}

/// Whether the counts say so many items. No greater count need be told from one more.
fn is_count(counts: &[Count], numbers: &[u64], items: usize) -> bool
    requires { items < 2 ^ 64 - 1 }
    ensures { IsTrue result ↔ (items ≡ item_count numbers.now counts.now) }
{
    capped_count(counts, numbers, items + 1) == items
}

fn numbers_fit(width: Width, numbers: &[u64]) -> bool
    ensures { IsTrue result ↔ All (FitsWidth width) numbers.now }
{
    numbers.iter().all(|n| number_fits(width, *n))
}

fn pairs_fit(width: Width, pairs: &[(u64, u64)]) -> bool
    ensures { IsTrue result ↔ All (PairFitsWidth width) pairs.now }
{
    pairs.iter().all(|pair| number_fits(width, pair.0) && number_fits(width, pair.1))
}

fn texts_fit(texts: &[Name]) -> bool
    ensures { IsTrue result ↔ All IsShortText texts.now }
{
    texts.iter().all(text_fits)
}

fn text_fits(text: &Name) -> bool
    ensures { IsTrue result ↔ IsShortText text.now }
{
    text.bytes().len() <= TEXT_LIMIT
}

fn number_fits(width: Width, n: u64) -> bool
    ensures { IsTrue result ↔ FitsWidth width n }
{
    match width {
        Width::One => n <= u64::from(u8::MAX),
        Width::Two => n <= u64::from(u16::MAX),
        Width::Four => n <= u64::from(u32::MAX),
        Width::Eight => true,
    }
}
