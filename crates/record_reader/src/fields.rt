//! The value of one field, taken from the front of what is left.

ghost use Rattle.std.specs.Prelude.{length};
ghost use Rattle.layout_plan.specs.Reading.{single_in, listed_in, field_in};
ghost use Rattle.record_reader.specs.Takes.{TakesOrStops};

use crate::cursor::{Cursor, Stop};
use crate::lists::{bytes, links, numbers, pairs, texts};
use layout_plan::{Field, Form, capped_count};
use record_values::Value;
use scalar_types::{Order, Width};
use std::alloc::Global;

/// The value of the field, by the numbers of the fields before it.
pub fn field_value(
    alloc: Global,
    order: Order,
    field: &Field,
    earlier: &[u64],
    cursor: &mut Cursor,
) -> Result<Value, Stop>
    ensures { TakesOrStops (field_in order earlier.now field.now.form field.now.counts cursor.old)
        result cursor.new }
{
    if field.counts.is_empty() {
        return single(alloc, order, field.form, cursor);
    }
    // A list of more items than there are bytes has no spelling, so no greater count need be told apart.
    let count = capped_count(field.counts.as_slice(), earlier, cursor.left() + 1);
    listed(alloc, order, field.form, count, cursor)
}

/// The value of a field without dimension.
fn single(alloc: Global, order: Order, form: Form, cursor: &mut Cursor) -> Result<Value, Stop>
    ensures { TakesOrStops (single_in order form cursor.old) result cursor.new }
{
    Ok(match form {
        Form::Number(width) => Value::Num(cursor.number(order, width)?),
        Form::Pair(width) => {
            let (first, second) = cursor.pair(order, width)?;
            Value::Pair(first, second)
        }
        Form::Text => Value::Text(cursor.text(alloc, order)?),
        Form::Link => Value::Link(cursor.link(order)?),
    })
}

/// The value of a field with dimensions, which has so many items.
fn listed(
    alloc: Global,
    order: Order,
    form: Form,
    count: usize,
    cursor: &mut Cursor,
) -> Result<Value, Stop>
    ensures { TakesOrStops (listed_in order form count cursor.old) result cursor.new }
{
    Ok(match form {
        Form::Number(Width::One) => Value::Bytes(bytes(alloc, order, count, cursor)?),
        Form::Number(width) => Value::Nums(numbers(alloc, order, width, count, cursor)?),
        Form::Pair(width) => Value::Pairs(pairs(alloc, order, width, count, cursor)?),
        Form::Text => Value::Texts(texts(alloc, order, count, cursor)?),
        Form::Link => Value::Links(links(alloc, order, count, cursor)?),
    })
}
