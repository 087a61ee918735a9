//! Values printed from the bytes that spell them: no value is made of them.

ghost use Rattle.std.specs.Prelude.{◌≡◌, ◌≢◌, ◌<◌, ◌≤◌, ◌^◌, ◌++◌, ◌↔◌, ℕ, List, [], length, IsTrue, IfOk, OnOk};
ghost use Rattle.scalar_types.specs.declared.Width.TheVariants.{One};
ghost use Rattle.scalar_types.specs.declared.Width.{Width as SpecWidth};
ghost use Rattle.scalar_types.specs.Number.{size_of};
ghost use Rattle.record_values.specs.declared.values.Value.{Value};
ghost use Rattle.layout_plan.specs.declared.fields.Form.TheVariants.{Number};
ghost use Rattle.layout_plan.specs.Layout.{form_of};
ghost use Rattle.layout_plan.specs.Body.{IsField, IsSingle, number_of};
ghost use Rattle.dumper.specs.Printed.{value_text, list_text, bytes_text};
ghost use Rattle.dumper.specs.Items.{BeginsItem, OfItem, AreSingles, next_text, text_between, first_link};
ghost use Rattle.dumper.specs.Page.{Prints};

use crate::escapes::put_quoted;
use crate::numbers::{CHUNK, push_digits, push_link, push_number, push_pair};
use crate::page::Page;
use crate::spans::text_length;
use frame_outside::{ShelfError, Sink};
use layout_plan::{Field, Form, LINK_SIZE};
use scalar_types::{Order, Width, read_num};
use std::alloc::AllocError;
use type_text::{Base, Link};

/// Prints the value of a field that is a list of items of this base, which the bytes spell. Failed where the sink
/// fails, NoMemory where memory is out: a part of the text may have been put then.
pub fn print_listed<O: Sink>(
    page: &mut Page,
    out: &mut O,
    order: Order,
    base: &Base,
    field: &Field,
    bytes: &[u8],
) -> Result<(), ShelfError>
    requires form { field.now.form ≡ form_of base.now }
    requires listed { field.now.counts ≢ [] }
    requires spelled { (numbers : List ℕ) × (v : Value)
        × IsField order numbers field.now.form field.now.counts v bytes.now }
    ensures { (numbers : List ℕ) (v : Value)
        → IsField order numbers field.now.form field.now.counts v bytes.now
        → Prints (O.output out.old) (O.output out.new) page.old page.new (value_text base.now v) result }
{
    if is_byte(field.form) {
        return print_bytes(page, out, bytes);
    }
    print_list(page, out, order, base, field.form, bytes)
}

/// Whether an item is a number of one byte.
fn is_byte(form: Form) -> bool
    ensures { IsTrue result ↔ (form ≡ Number One) }
{
    matches!(form, Form::Number(Width::One))
}

/// Appends the value of a single item, which the bytes spell, and of which this is the number where it is one. Fails
/// only where memory is out.
#[inline(always)]
pub fn push_single(
    text: &mut Vec<u8>,
    order: Order,
    base: &Base,
    form: Form,
    bytes: &[u8],
    number: u64,
) -> Result<(), AllocError>
    requires form { form ≡ form_of base.now }
    requires spelled { (v : Value) × IsSingle order form v bytes.now }
    requires number { (v : Value) → IsSingle order form v bytes.now → number ≡ number_of v }
    requires fits { (width : SpecWidth) → form ≡ Number width → number < 256 ^ size_of width }
    ensures { OnOk result ((v : Value) → IsSingle order form v bytes.now
        → text.new.items ≡ text.old.items ++ value_text base.now v) }
{
    if let Form::Number(_) = form {
        return push_number(text, base, number);
    }
    push_item(text, order, base, form, bytes)?;
    Ok(())
}

/// Appends the value of the item at the front of the bytes, and answers how many spell it.
#[inline(always)]
fn push_item(
    text: &mut Vec<u8>,
    order: Order,
    base: &Base,
    form: Form,
    bytes: &[u8],
) -> Result<usize, AllocError>
    requires form { form ≡ form_of base.now }
    requires spelled { BeginsItem order form bytes.now }
    ensures { IfOk result (λ size. OfItem order form bytes.now (λ v long. (size ≡ long)
        × (text.new.items ≡ text.old.items ++ value_text base.now v))) }
{
    match form {
        Form::Number(width) => {
            push_number(text, base, read_num(order, width, bytes))?;
            Ok(width.size())
        }
        Form::Pair(width) => {
            let size = width.size();
            let real = read_num(order, width, bytes);
            let imaginary = read_num(order, width, &bytes[size..]);
            push_pair(text, base, real, imaginary)?;
            Ok(2 * size)
        }
        Form::Text => {
            let length = text_length(order, bytes);
            put_quoted(text, text_of(&bytes[..length]))?;
            Ok(length)
        }
        Form::Link => {
            push_link(text, link_of(order, bytes))?;
            Ok(LINK_SIZE)
        }
    }
}

/// The text of a spelling, without its length and its closing zero byte.
fn text_of(spelling: &[u8]) -> &[u8]
    ensures { result.now ≡ text_between spelling.now }
{
    if spelling.len() <= 3 {
        return &spelling[..0];
    }
    &spelling[2..spelling.len() - 1]
}

/// The link at the front of the bytes.
fn link_of(order: Order, bytes: &[u8]) -> Link
    requires { 6 ≤ length bytes.now }
    ensures { result ≡ first_link order bytes.now }
{
    Link {
        class: read_num(order, Width::Two, bytes) as u16,
        instance: read_num(order, Width::Four, &bytes[2..]) as u32,
    }
}

/// Prints a list of items that are not of one byte each, which the bytes spell.
fn print_list<O: Sink>(
    page: &mut Page,
    out: &mut O,
    order: Order,
    base: &Base,
    form: Form,
    bytes: &[u8],
) -> Result<(), ShelfError>
    requires form { form ≡ form_of base.now }
    requires spelled { (items : List Value) × AreSingles order form items bytes.now }
    ensures { (items : List Value) → AreSingles order form items bytes.now
        → Prints (O.output out.old) (O.output out.new) page.old page.new
        (list_text (value_text base.now) items) result }
{
    let composed = page.text.extend_from_slice(b"[");
    page.settle(out, composed)?;
    let mut at = 0;
    while at < bytes.len() {
        at += print_item(page, out, order, base, form, &bytes[at..], at > 0)?;
    }
    let composed = page.text.extend_from_slice(b"]");
    page.settle(out, composed)
}

/// Prints the item at the front of the bytes, after a blank where it is not the first, and answers how many spell it.
fn print_item<O: Sink>(
    page: &mut Page,
    out: &mut O,
    order: Order,
    base: &Base,
    form: Form,
    bytes: &[u8],
    after: bool,
) -> Result<usize, ShelfError>
    requires form { form ≡ form_of base.now }
    requires spelled { BeginsItem order form bytes.now }
    ensures { OfItem order form bytes.now (λ v long. IfOk result (λ size. size ≡ long)
        × Prints (O.output out.old) (O.output out.new) page.old page.new (next_text after base.now v) result) }
{
    match push_next(&mut page.text, order, base, form, bytes, after) {
        Ok(size) => {
            page.settle(out, Ok(()))?;
            Ok(size)
        }
        Err(_) => Err(ShelfError::NoMemory),
    }
}

/// Appends the item at the front of the bytes, after a blank where it is not the first, and answers how many spell it.
fn push_next(
    text: &mut Vec<u8>,
    order: Order,
    base: &Base,
    form: Form,
    bytes: &[u8],
    after: bool,
) -> Result<usize, AllocError>
    requires form { form ≡ form_of base.now }
    requires spelled { BeginsItem order form bytes.now }
    ensures { IfOk result (λ size. OfItem order form bytes.now (λ v long. (size ≡ long)
        × (text.new.items ≡ text.old.items ++ next_text after base.now v))) }
{
    if after {
        text.push(b' ')?;
    }
    push_item(text, order, base, form, bytes)
}

/// Prints a list of items of one byte each.
fn print_bytes<O: Sink>(page: &mut Page, out: &mut O, bytes: &[u8]) -> Result<(), ShelfError>
    ensures { Prints (O.output out.old) (O.output out.new) page.old page.new (bytes_text bytes.now) result }
{
    let composed = page.text.extend_from_slice(b"#");
    page.settle(out, composed)?;
    let mut at = 0;
    while at < bytes.len() {
        let end = bytes.len().min(at + CHUNK);
        let composed = push_digits(&mut page.text, &bytes[at..end]);
        page.settle(out, composed)?;
        at = end;
    }
    Ok(())
}
