//! The number of bytes of values where each text is closed by its zero byte. None stands for 2^64 bytes or more.
ghost use Rattle.std.specs.Prelude.{◌<◌, ◌^◌, SomeIff, length, sum_by};
ghost use Rattle.layout_plan.specs.Body.{values_length, value_length as length_of};
ghost use Rattle.layout_plan.specs.Body.{text_length as closed_length};

use layout_plan::{Field, Form, LINK_SIZE};
use record_values::Value;
use type_text::Name;

/// The bytes of a text beside its own: a two-byte length and the closing zero byte.
const TEXT_FRAME: u64 = 3;

/// The bytes of the values.
pub fn fields_length(fields: &[Field], values: &[Value]) -> Option<u64>
    ensures { SomeIff result (values_length fields.now values.now < 2 ^ 64)
        (values_length fields.now values.now) }
{
    let mut length: u64 = 0;
    for (field, value) in fields.iter().zip(values) {
        length = length.checked_add(value_length(field.form, value)?)?;
    }
    Some(length)
}

/// The bytes of a value of this form, or 0 where it is none of this form.
fn value_length(form: Form, value: &Value) -> Option<u64>
    ensures { SomeIff result (length_of form value.now < 2 ^ 64) (length_of form value.now) }
{
    match (form, value) {
        (Form::Number(width), Value::Num(_)) => Some(width.size() as u64),
        (Form::Number(width), Value::Bytes(bytes)) => {
            (bytes.bytes().len() as u64).checked_mul(width.size() as u64)
        }
        (Form::Number(width), Value::Nums(numbers)) => {
            (numbers.len() as u64).checked_mul(width.size() as u64)
        }
        (Form::Pair(width), Value::Pair(_, _)) => Some(2 * width.size() as u64),
        (Form::Pair(width), Value::Pairs(pairs)) => {
            (pairs.len() as u64).checked_mul(2 * width.size() as u64)
        }
        (Form::Text, Value::Text(text)) => text_length(text),
        (Form::Text, Value::Texts(texts)) => texts_length(texts.as_slice()),
        (Form::Link, Value::Link(_)) => Some(LINK_SIZE as u64),
        (Form::Link, Value::Links(links)) => (links.len() as u64).checked_mul(LINK_SIZE as u64),
        _ => Some(0),
    }
}

fn texts_length(texts: &[Name]) -> Option<u64>
    ensures { SomeIff result (sum_by closed_length texts.now < 2 ^ 64) (sum_by closed_length texts.now) }
{
    let mut length: u64 = 0;
    for text in texts {
        length = length.checked_add(text_length(text)?)?;
    }
    Some(length)
}

fn text_length(text: &Name) -> Option<u64>
    ensures { SomeIff result (closed_length text.now < 2 ^ 64) (closed_length text.now) }
{
    (text.bytes().len() as u64).checked_add(TEXT_FRAME)
}
