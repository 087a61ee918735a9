//! The spelling of values, each text closed by its zero byte, at the end of bytes. Where memory is
//! out, a part of it may stand there.
ghost use Rattle.std.specs.Prelude.{ℕ, List, map, All, OnOk};
ghost use Rattle.record_values.specs.Spelling.{IsNumber, IsPair, IsClosedText, AreItems};
ghost use Rattle.layout_plan.specs.Appends.{Appends};
ghost use Rattle.layout_plan.specs.Body.{number_of, IsSingleBy, IsListedBy, IsFieldBy};
ghost use Rattle.layout_plan.specs.Written.{AreClosedFields};
ghost use Rattle.record_writer.specs.Fit.{FitsWidth, PairFitsWidth, IsShortText, FitsSingle, FitsListed};
ghost use Rattle.record_writer.specs.Fit.{FitsField, Fits};

use layout_plan::spelling::{push_link, push_links, push_number};
use layout_plan::{Field, Form};
use record_values::Value;
use scalar_types::{Order, Width};
use std::alloc::AllocError;
use type_text::Name;

/// Appends a value for each field.
pub fn push_fields(
    order: Order,
    fields: &[Field],
    values: &[Value],
    into: &mut Vec<u8>,
) -> Result<(), AllocError>
    requires { Fits fields.now values.now }
    ensures { Appends
        (λ bytes. OnOk result (AreClosedFields order (map number_of values.now) fields.now values.now bytes))
        into.old.items
        into.new.items }
{
    for (field, value) in fields.iter().zip(values) {
        push_field(order, field, value, into)?;
    }
    Ok(())
}

/// Appends the value of a field.
fn push_field(
    order: Order,
    field: &Field,
    value: &Value,
    into: &mut Vec<u8>,
) -> Result<(), AllocError>
    requires { (numbers : List ℕ) × FitsField numbers field.now.form field.now.counts value.now }
    ensures { (numbers : List ℕ) → FitsField numbers field.now.form field.now.counts value.now → Appends
        (λ bytes. OnOk result (IsFieldBy
        (IsClosedText order) order numbers field.now.form field.now.counts value.now bytes))
        into.old.items
        into.new.items }
{
    if field.counts.is_empty() {
        push_single(order, field.form, value, into)
    } else {
        push_list(order, field.form, value, into)
    }
}

fn push_single(
    order: Order,
    form: Form,
    value: &Value,
    into: &mut Vec<u8>,
) -> Result<(), AllocError>
    requires { FitsSingle form value.now }
    ensures { Appends
        (λ bytes. OnOk result (IsSingleBy (IsClosedText order) order form value.now bytes))
        into.old.items
        into.new.items }
{
    match (form, value) {
        (Form::Number(width), Value::Num(n)) => push_number(order, width, *n, into),
        (Form::Pair(width), Value::Pair(a, b)) => push_pair(order, width, &(*a, *b), into),
        (Form::Text, Value::Text(text)) => push_text(order, text, into),
        (Form::Link, Value::Link(link)) => push_link(order, link, into),
        _ => unreachable!(),
    }
}

fn push_list(order: Order, form: Form, value: &Value, into: &mut Vec<u8>) -> Result<(), AllocError>
    requires { (n : ℕ) × FitsListed form n value.now }
    ensures { (n : ℕ) → FitsListed form n value.now → Appends
        (λ bytes. OnOk result (IsListedBy (IsClosedText order) order form n value.now bytes))
        into.old.items
        into.new.items }
{
    match (form, value) {
        (Form::Number(_), Value::Bytes(bytes)) => into.extend_from_slice(bytes.bytes()),
        (Form::Number(width), Value::Nums(numbers)) => {
            push_numbers(order, width, numbers.as_slice(), into)
        }
        (Form::Pair(width), Value::Pairs(pairs)) => push_pairs(
            order,
            width,
            pairs.as_slice(),
            into,
        ),
        (Form::Text, Value::Texts(texts)) => push_texts(order, texts.as_slice(), into),
        (Form::Link, Value::Links(links)) => push_links(order, links.as_slice(), into),
        _ => unreachable!(),
    }
}

fn push_numbers(
    order: Order,
    width: Width,
    numbers: &[u64],
    into: &mut Vec<u8>,
) -> Result<(), AllocError>
    requires { All (FitsWidth width) numbers.now }
    ensures { Appends
        (λ bytes. OnOk result (AreItems (IsNumber order width) numbers.now bytes))
        into.old.items
        into.new.items }
{
    for number in numbers {
        push_number(order, width, *number, into)?;
    }
    Ok(())
}

fn push_pairs(
    order: Order,
    width: Width,
    pairs: &[(u64, u64)],
    into: &mut Vec<u8>,
) -> Result<(), AllocError>
    requires { All (PairFitsWidth width) pairs.now }
    ensures { Appends
        (λ bytes. OnOk result (AreItems (IsPair order width) pairs.now bytes))
        into.old.items
        into.new.items }
{
    for pair in pairs {
        push_pair(order, width, pair, into)?;
    }
    Ok(())
}

fn push_texts(order: Order, texts: &[Name], into: &mut Vec<u8>) -> Result<(), AllocError>
    requires { All IsShortText texts.now }
    ensures { Appends
        (λ bytes. OnOk result (AreItems (IsClosedText order) texts.now bytes))
        into.old.items
        into.new.items }
{
    for text in texts {
        push_text(order, text, into)?;
    }
    Ok(())
}

fn push_text(order: Order, text: &Name, into: &mut Vec<u8>) -> Result<(), AllocError>
    requires { IsShortText text.now }
    ensures { Appends
        (λ bytes. OnOk result (IsClosedText order text.now bytes))
        into.old.items
        into.new.items }
{
    let bytes = text.bytes();
    push_number(order, Width::Two, bytes.len() as u64 + 1, into)?;
    into.extend_from_slice(bytes)?;
    into.push(0)?;
    Ok(())
}

fn push_pair(
    order: Order,
    width: Width,
    pair: &(u64, u64),
    into: &mut Vec<u8>,
) -> Result<(), AllocError>
    requires { PairFitsWidth width pair.now }
    ensures { Appends
        (λ bytes. OnOk result (IsPair order width pair.now bytes))
        into.old.items
        into.new.items }
{
    push_number(order, width, pair.0, into)?;
    push_number(order, width, pair.1, into)
}
