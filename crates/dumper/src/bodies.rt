//! The body of a structure, field by field.

ghost use Rattle.std.specs.Prelude.{◌≡◌, ◌≢◌, ◌<◌, ◌^◌, ◌++◌, ◌↔◌, ℕ, List, [], Some, IfSome, IsSome, IsTrue, OnOk, codes};
ghost use Rattle.std.specs.Option.{option_copied};
ghost use Rattle.scalar_types.specs.declared.Width.{Width as SpecWidth};
ghost use Rattle.scalar_types.specs.Number.{size_of};
ghost use Rattle.layout_plan.specs.declared.fields.Form.TheVariants.{Number};
ghost use Rattle.record_values.specs.declared.values.Value.{Value};
ghost use Rattle.layout_plan.specs.Layout.{layout_of, form_of};
ghost use Rattle.layout_plan.specs.Body.{HasBody, IsField, IsSingle, number_of};
ghost use Rattle.file_grammar.specs.Record.{Reading, reading_by};
ghost use Rattle.dumper.specs.Lines.{base_of, body_text, reading_text, field_line};
ghost use Rattle.dumper.specs.Page.{pending, Prints};

use crate::page::Page;
use crate::spans::{field_length, number_in};
use crate::values::{print_listed, push_single};
use dictionary::Element;
use frame_outside::{ShelfError, Sink};
use layout_plan::{Field, Form, Plan, measure};
use scalar_types::Order;
use std::alloc::AllocError;
use std::mem;
use type_text::Base;

/// Prints what a body of a class holds by the plan of these elements; or that it is not read, where there is no plan or
/// it does not spell the layout. A body that is known to read is not measured again.
pub fn print_body<O: Sink>(
    page: &mut Page,
    out: &mut O,
    order: Order,
    class: u8,
    elements: &[Element],
    plan: Option<&Plan>,
    body: &[u8],
    is_read: bool,
) -> Result<(), ShelfError>
    requires plan { option_copied plan ≡ layout_of elements.now }
    requires read { IsTrue is_read → IfSome (layout_of elements.now) (λ fields. HasBody order fields body.now) }
    ensures { Prints (O.output out.old) (O.output out.new) page.old page.new
        (body_text order elements.now (layout_of elements.now) body.now) result }
{
    match plan {
        Some(plan) if does_read(plan, order, body, is_read) => {
            let mut numbers = mem::replace(&mut page.numbers, Vec::new(page.alloc));
            let printed = print_fields(page, out, order, class, elements, plan, body, &mut numbers);
            page.numbers = numbers;
            printed
        }
        _ => {
            let composed = page.text.extend_from_slice(b"  unread\n");
            page.settle(out, composed)
        }
    }
}

/// Whether a body reads by a plan. It is measured, where that is not known.
fn does_read(plan: &Plan, order: Order, body: &[u8], is_read: bool) -> bool
    requires { IsTrue is_read → HasBody order plan.now body.now }
    ensures { IsTrue result ↔ HasBody order plan.now body.now }
{
    is_read || measure(plan, order, body).is_ok()
}

/// Prints the fields of a body that spells the layout, and its tail. The list is for the numbers that the fields are;
/// what it has before does not matter.
fn print_fields<O: Sink>(
    page: &mut Page,
    out: &mut O,
    order: Order,
    class: u8,
    elements: &[Element],
    plan: &Plan,
    body: &[u8],
    numbers: &mut Vec<u64>,
) -> Result<(), ShelfError>
    requires layout { layout_of elements.now ≡ Some plan.now }
    requires reads { HasBody order plan.now body.now }
    ensures { (reading : Reading) → reading_by order body.now plan.now ≡ Some reading
        → Prints (O.output out.old) (O.output out.new) page.old page.new (reading_text elements.now reading) result }
{
    let fields = plan.fields();
    numbers.clear();
    let mut rest = body;
    for (k, field) in fields.iter().enumerate() {
        let length = field_length(order, field, numbers.as_slice(), rest);
        let bytes = &rest[..length];
        let number = number_in(order, field, bytes);
        print_field(
            page,
            out,
            order,
            class,
            k,
            &elements[k],
            field,
            bytes,
            number,
        )?;
        if numbers.push(number).is_err() {
            return Err(ShelfError::NoMemory);
        }
        rest = &rest[length..];
    }
    if rest.is_empty() {
        return Ok(());
    }
    let composed = page.text.extend_from_slice(b"  tail 4\n");
    page.settle(out, composed)
}

/// Prints a field, the k-th of its class: its element's name, and its value, of which this is the number where it is
/// one.
#[inline(always)]
fn print_field<O: Sink>(
    page: &mut Page,
    out: &mut O,
    order: Order,
    class: u8,
    k: usize,
    element: &Element,
    field: &Field,
    bytes: &[u8],
    number: u64,
) -> Result<(), ShelfError>
    requires typed { IsSome element.now.ty }
    requires form { field.now.form ≡ form_of (base_of element.now) }
    requires spelled { (numbers : List ℕ) × (v : Value)
        × IsField order numbers field.now.form field.now.counts v bytes.now }
    requires number { (numbers : List ℕ) (v : Value)
        → IsField order numbers field.now.form field.now.counts v bytes.now → number ≡ number_of v }
    requires fits { (width : SpecWidth) → field.now.form ≡ Number width → number < 256 ^ size_of width }
    ensures { (numbers : List ℕ) (v : Value)
        → IsField order numbers field.now.form field.now.counts v bytes.now
        → Prints (O.output out.old) (O.output out.new) page.old page.new (field_line element.now v) result }
{
    if field.counts.is_empty() {
        let composed = push_line(page, order, class, k, element, field.form, bytes, number);
        return page.settle(out, composed);
    }
    print_list_line(page, out, order, class, k, element, field, bytes)
}

/// Appends the line of a field that is one item.
#[inline(always)]
fn push_line(
    page: &mut Page,
    order: Order,
    class: u8,
    k: usize,
    element: &Element,
    form: Form,
    bytes: &[u8],
    number: u64,
) -> Result<(), AllocError>
    requires typed { IsSome element.now.ty }
    requires form { form ≡ form_of (base_of element.now) }
    requires spelled { (v : Value) × IsSingle order form v bytes.now }
    requires number { (v : Value) → IsSingle order form v bytes.now → number ≡ number_of v }
    requires fits { (width : SpecWidth) → form ≡ Number width → number < 256 ^ size_of width }
    ensures { OnOk result ((v : Value) → IsSingle order form v bytes.now
        → pending page.new ≡ pending page.old ++ field_line element.now v) }
{
    page.beginnings
        .push(&mut page.text, class, k, element.name.bytes())?;
    push_single(&mut page.text, order, base_of(element), form, bytes, number)?;
    page.text.push(b'\n')?;
    Ok(())
}

/// Prints the line of a field that is a list.
#[inline(never)]
fn print_list_line<O: Sink>(
    page: &mut Page,
    out: &mut O,
    order: Order,
    class: u8,
    k: usize,
    element: &Element,
    field: &Field,
    bytes: &[u8],
) -> Result<(), ShelfError>
    requires typed { IsSome element.now.ty }
    requires form { field.now.form ≡ form_of (base_of element.now) }
    requires listed { field.now.counts ≢ [] }
    requires spelled { (numbers : List ℕ) × (v : Value)
        × IsField order numbers field.now.form field.now.counts v bytes.now }
    ensures { (numbers : List ℕ) (v : Value)
        → IsField order numbers field.now.form field.now.counts v bytes.now
        → Prints (O.output out.old) (O.output out.new) page.old page.new (field_line element.now v) result }
{
    let name = element.name.bytes();
    let composed = page.beginnings.push(&mut page.text, class, k, name);
    page.settle(out, composed)?;
    print_listed(page, out, order, base_of(element), field, bytes)?;
    let composed = page.text.extend_from_slice(b"\n");
    page.settle(out, composed)
}

/// What one item of an element is.
fn base_of(element: &Element) -> &Base
    requires { IsSome element.now.ty }
    ensures { result.now ≡ base_of element.now }
{
    match &element.ty {
        Some(ty) => &ty.base,
        None => unreachable!(),
    }
}
