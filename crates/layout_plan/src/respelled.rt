//! The bytes of one field spelled again in little-endian order, each text closed by its zero byte. Where memory is out,
//! a part of them may stand there.
ghost use Rattle.std.specs.Prelude.{◌≡◌, ◌≤◌, ◌<◌, ◌*◌, ℕ, List, true, length, take, OnOk, IfOk};
ghost use Rattle.scalar_types.specs.declared.Order.{Order};
ghost use Rattle.type_text.specs.declared.types.Link.{Link as StructLink};
ghost use Rattle.record_values.specs.Spelling.{IsNumber, IsText, IsClosedText, AreItems};
ghost use Rattle.layout_plan.specs.Appends.{Appends};
ghost use Rattle.layout_plan.specs.Respelled.{IsSumNumber, Respells, BeginsText, RespellsText, SpellsFew};
ghost use Rattle.layout_plan.specs.Respelled.{RespellsForm, RespellsField};

use crate::links::LINK_SIZE;
use crate::spelling::{push_links, push_number};
use crate::{Field, Form};
use scalar_types::{Order, Width, read_num};
use std::alloc::AllocError;
use type_text::Link;

/// Appends the value of a field, or 0 for a check sum, and answers how many of the links it took.
pub fn push_field(
    order: Order,
    field: &Field,
    bytes: &[u8],
    links: &[Link],
    into: &mut Vec<u8>,
) -> Result<usize, AllocError>
    requires sum { IsSumNumber field.now }
    requires spelled { SpellsFew order field.now.form field.now.counts bytes.now links.now }
    ensures { Appends
        (λ new. IfOk result (λ used. RespellsField order field.now bytes.now links.now used new))
        into.old.items
        into.new.items }
{
    if field.is_sum {
        into.extend_from_slice(&[0; 4])?;
        return Ok(0);
    }
    push_form(order, field, bytes, links, into)
}

/// Whether the bytes of a field in little-endian order spell its value as it is spelled again: numbers that are
/// no check sum, and texts that are all closed.
pub fn is_spelled_alike(field: &Field, bytes: &[u8]) -> bool
    requires { (links : List StructLink)
        × SpellsFew Order.Little field.now.form field.now.counts bytes.now links }
    ensures { result ≡ true
        → (links : List StructLink) → RespellsField Order.Little field.now bytes.now links 0 bytes.now }
{
    if field.is_sum {
        return false;
    }
    match field.form {
        Form::Number(_) | Form::Pair(_) => true,
        Form::Text => are_closed(bytes),
        Form::Link => false,
    }
}

/// Whether little-endian texts, one after another until the bytes end, are all closed by their zero bytes.
fn are_closed(bytes: &[u8]) -> bool
    requires { (texts : List (List ℕ)) × AreItems (IsText Order.Little) texts bytes.now }
    ensures { result ≡ true
        → Respells (IsText Order.Little) (IsClosedText Order.Little) bytes.now bytes.now }
{
    let mut at = 0;
    while at < bytes.len() {
        let length = read_num(Order::Little, Width::Two, &bytes[at..]) as usize;
        if length == 0 {
            return false;
        }
        at += 2 + length;
    }
    true
}

/// Appends the value of a field, and answers how many of the links it took.
fn push_form(
    order: Order,
    field: &Field,
    bytes: &[u8],
    links: &[Link],
    into: &mut Vec<u8>,
) -> Result<usize, AllocError>
    requires { SpellsFew order field.now.form field.now.counts bytes.now links.now }
    ensures { Appends
        (λ new. IfOk result (λ used. RespellsForm order field.now.form field.now.counts bytes.now links.now used new))
        into.old.items
        into.new.items }
{
    match field.form {
        Form::Number(width) => push_numbers(order, width, bytes, into)?,
        Form::Pair(width) => push_numbers(order, width, bytes, into)?,
        Form::Text => push_texts(order, bytes, into)?,
        Form::Link => {
            let used = bytes.len() / LINK_SIZE;
            push_links(Order::Little, &links[..used], into)?;
            return Ok(used);
        }
    }
    Ok(0)
}

/// Appends numbers of this width.
fn push_numbers(
    order: Order,
    width: Width,
    bytes: &[u8],
    into: &mut Vec<u8>,
) -> Result<(), AllocError>
    ensures { Appends
        (λ new. OnOk result (Respells (IsNumber order width) (IsNumber Order.Little width) bytes.now new))
        into.old.items
        into.new.items }
{
    match order {
        Order::Little => into.extend_from_slice(bytes),
        Order::Big => push_turned(width, bytes, into),
    }
}

/// Appends numbers of this width that stand in big-endian order.
fn push_turned(width: Width, bytes: &[u8], into: &mut Vec<u8>) -> Result<(), AllocError>
    ensures { Appends
        (λ new. OnOk result (Respells (IsNumber Order.Big width) (IsNumber Order.Little width) bytes.now new))
        into.old.items
        into.new.items }
{
    let size = width.size();
    if size == 1 {
        return into.extend_from_slice(bytes);
    }
    for i in 0..bytes.len() / size {
        let n = read_num(Order::Big, width, &bytes[i * size..]);
        push_number(Order::Little, width, n, into)?;
    }
    Ok(())
}

/// Appends one text after another, until the bytes end.
fn push_texts(order: Order, bytes: &[u8], into: &mut Vec<u8>) -> Result<(), AllocError>
    requires { (texts : List (List ℕ)) × AreItems (IsText order) texts bytes.now }
    ensures { Appends
        (λ new. OnOk result (Respells (IsText order) (IsClosedText Order.Little) bytes.now new))
        into.old.items
        into.new.items }
{
    let mut at = 0;
    while at < bytes.len() {
        at += push_text(order, &bytes[at..], into)?;
    }
    Ok(())
}

/// Appends the text at the front of the bytes, and answers how many they are.
fn push_text(order: Order, bytes: &[u8], into: &mut Vec<u8>) -> Result<usize, AllocError>
    requires { BeginsText order bytes.now }
    ensures appends { Appends
        (λ new. IfOk result (λ size. RespellsText order bytes.now size new))
        into.old.items
        into.new.items }
    ensures low { IfOk result (λ size. 2 ≤ size) }
    ensures within { IfOk result (λ size. size ≤ length bytes.now) }
{
    let length = read_num(order, Width::Two, bytes) as usize;
    if length == 0 {
        into.extend_from_slice(&[1, 0, 0])?;
        return Ok(2);
    }
    let end = 2 + length;
    push_number(Order::Little, Width::Two, length as u64, into)?;
    into.extend_from_slice(&bytes[2..end])?;
    Ok(end)
}
