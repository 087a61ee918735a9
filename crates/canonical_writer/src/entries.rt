//! Entries as they are written: types in their printed texts, comments kept (LIGO-T970130 v8, FrSH and FrSE).

ghost use Rattle.std.specs.Prelude.{◌≡◌, ◌≤◌, ◌+◌, IfOk, OnOk, length};
ghost use Rattle.scalar_types.specs.declared.Order.TheVariants.{Little};
ghost use Rattle.dictionary.specs.Same.{AreRead, IsRead};
ghost use Rattle.layout_plan.specs.Appends.{Appends};
ghost use Rattle.frame_content.specs.Labels.{printed_entry, printed_element};
ghost use Rattle.canonical_file.specs.Bytes.{entry_bytes, structure_bytes, head_body, element_body, text_bytes};
ghost use Rattle.canonical_writer.specs.Parts.{IsShort, IsShortElement, IsShortEntry};

use crate::records::{begin_structure, end_structure};
use dictionary::{Element, ElementList, Entry};
use layout_plan::spelling::push_number;
use scalar_types::{Order, Width};
use std::alloc::{AllocError, Global};
use type_text::print_type;

const HEAD_CLASS: u8 = 1;

const ELEMENT_CLASS: u8 = 2;

/// The entry with the printed text of each type.
pub fn printed(alloc: Global, entry: &Entry) -> Result<Entry, AllocError>
    requires { AreRead entry.now.elements }
    ensures { IfOk result (λ copy. copy ≡ printed_entry entry.now) }
{
    let mut elements = ElementList::new(alloc);
    for element in entry.elements.as_slice() {
        elements.push(printed_element(alloc, element)?)?;
    }
    Ok(Entry {
        class: entry.class,
        name: entry.name.copy()?,
        comment: entry.comment.copy()?,
        elements,
    })
}

fn printed_element(alloc: Global, element: &Element) -> Result<Element, AllocError>
    requires { IsRead element.now }
    ensures { IfOk result (λ copy. copy ≡ printed_element element.now) }
{
    let text = match &element.ty {
        Some(ty) => print_type(alloc, ty)?,
        None => element.text.copy()?,
    };
    Ok(Element {
        name: element.name.copy()?,
        ty: element.ty.clone()?,
        text,
        comment: element.comment.copy()?,
    })
}

/// Appends an entry, before which so many stand in the file. Where memory is out, a part of it may stand there.
pub fn push_entry(number: u32, entry: &Entry, into: &mut Vec<u8>) -> Result<(), AllocError>
    requires few { length entry.now.elements ≤ 4096 }
    ensures { Appends
        (λ bytes. OnOk result (IsShortEntry entry.now → bytes ≡ entry_bytes number entry.now))
        into.old.items
        into.new.items }
{
    push_head(number, entry, into)?;
    for (k, element) in entry.elements.as_slice().iter().enumerate() {
        push_element(k as u32, element, into)?;
    }
    Ok(())
}

/// Appends the FrSH of an entry.
fn push_head(number: u32, entry: &Entry, into: &mut Vec<u8>) -> Result<(), AllocError>
    ensures { Appends
        (λ bytes. OnOk result (IsShortEntry entry.now → bytes ≡ structure_bytes 1 number (head_body entry.now)))
        into.old.items
        into.new.items }
{
    let start = begin_structure(into)?;
    push_head_body(entry, into)?;
    end_structure(into, start, HEAD_CLASS, number);
    Ok(())
}

/// Appends the body of the FrSH of an entry.
fn push_head_body(entry: &Entry, into: &mut Vec<u8>) -> Result<(), AllocError>
    ensures { Appends
        (λ bytes. OnOk result (IsShortEntry entry.now → bytes ≡ head_body entry.now))
        into.old.items
        into.new.items }
{
    push_text(entry.name.bytes(), into)?;
    push_number(Order::Little, Width::Two, u64::from(entry.class), into)?;
    push_text(entry.comment.bytes(), into)?;
    push_number(Order::Little, Width::Four, 0, into)
}

/// Appends the FrSE of an element.
fn push_element(number: u32, element: &Element, into: &mut Vec<u8>) -> Result<(), AllocError>
    ensures { Appends
        (λ bytes. OnOk result (IsShortElement element.now
        → bytes ≡ structure_bytes 2 number (element_body element.now)))
        into.old.items
        into.new.items }
{
    let start = begin_structure(into)?;
    push_element_body(element, into)?;
    end_structure(into, start, ELEMENT_CLASS, number);
    Ok(())
}

/// Appends the body of the FrSE of an element.
fn push_element_body(element: &Element, into: &mut Vec<u8>) -> Result<(), AllocError>
    ensures { Appends
        (λ bytes. OnOk result (IsShortElement element.now → bytes ≡ element_body element.now))
        into.old.items
        into.new.items }
{
    push_text(element.name.bytes(), into)?;
    push_text(element.text.bytes(), into)?;
    push_text(element.comment.bytes(), into)?;
    push_number(Order::Little, Width::Four, 0, into)
}

/// Appends a text of at most 65,534 bytes, closed by its zero byte.
pub fn push_text(text: &[u8], into: &mut Vec<u8>) -> Result<(), AllocError>
    ensures { Appends
        (λ bytes. OnOk result (IsShort text.now → bytes ≡ text_bytes text.now))
        into.old.items
        into.new.items }
{
    let length = u16::try_from(text.len()).unwrap_or(0).saturating_add(1);
    push_number(Order::Little, Width::Two, u64::from(length), into)?;
    into.extend_from_slice(text)?;
    into.push(0)?;
    Ok(())
}
