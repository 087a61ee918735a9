//! The lines of entries and of other structures.

ghost use Rattle.std.specs.Prelude.{◌≡◌, ◌++◌, ℕ, [], IfSome, IsTrue, OnOk, codes};
ghost use Rattle.std.specs.Fmt.{decimal};
ghost use Rattle.layout_plan.specs.Body.{HasBody};
ghost use Rattle.layout_plan.specs.Plans.{plan_of};
ghost use Rattle.file_grammar.specs.Record.{layout_in};
ghost use Rattle.dumper.specs.Lines.{heading, element_line, entry_line, entry_text, structure_line, structure_text};
ghost use Rattle.dumper.specs.Lines.{end_line};
ghost use Rattle.dumper.specs.Page.{pending, Prints};

use crate::bodies::print_body;
use crate::escapes::put_escaped;
use crate::numbers::push_decimal;
use crate::page::Page;
use dictionary::{Dictionary, Element, Entry};
use frame_outside::{ShelfError, Sink};
use layout_plan::Plans;
use scalar_types::Order;
use std::alloc::AllocError;

/// A structure as its first line tells it.
#[derive(Clone, Copy)]
pub struct Told {
    /// Its place, in bytes from the beginning of the file.
    pub at: u64,
    /// Its class.
    pub class: u8,
    /// Its number among those of its class.
    pub instance: u32,
    /// The bytes of the whole structure.
    pub length: u64,
}

/// Appends the first line of a file. Fails only where memory is out.
pub fn push_heading(text: &mut Vec<u8>, order: Order) -> Result<(), AllocError>
    ensures { OnOk result (text.new.items ≡ text.old.items ++ heading order) }
{
    match order {
        Order::Big => text.extend_from_slice(b"file order big\n"),
        Order::Little => text.extend_from_slice(b"file order little\n"),
    }
}

/// Appends the last line of a file of so many bytes. Fails only where memory is out.
pub fn push_end(text: &mut Vec<u8>, bytes: u64) -> Result<(), AllocError>
    ensures { OnOk result (text.new.items ≡ text.old.items ++ end_line bytes) }
{
    push_labelled(text, b"end bytes ", bytes)?;
    text.extend_from_slice(b"\n")
}

/// Prints an entry. `Failed` where the sink fails, `NoMemory` where memory is out; a part of the text may be printed
/// then.
pub fn print_entry<O: Sink>(page: &mut Page, out: &mut O, entry: &Entry) -> Result<(), ShelfError>
    ensures { Prints (O.output out.old) (O.output out.new) page.old page.new (entry_text entry.now) result }
{
    let composed = push_entry(&mut page.text, entry);
    page.settle(out, composed)?;
    for element in entry.elements.as_slice() {
        let composed = push_element(&mut page.text, element);
        page.settle(out, composed)?;
    }
    Ok(())
}

/// Appends the first line of an entry.
fn push_entry(text: &mut Vec<u8>, entry: &Entry) -> Result<(), AllocError>
    ensures { OnOk result (text.new.items ≡ text.old.items ++ entry_line entry.now) }
{
    push_labelled(text, b"entry ", entry.class as u64)?;
    text.extend_from_slice(b" ")?;
    put_escaped(text, entry.name.bytes())?;
    push_labelled(text, b" elements ", entry.elements.len() as u64)?;
    text.extend_from_slice(b"\n")
}

/// Appends the line of an element.
fn push_element(text: &mut Vec<u8>, element: &Element) -> Result<(), AllocError>
    ensures { OnOk result (text.new.items ≡ text.old.items ++ element_line element.now) }
{
    text.extend_from_slice(b"  ")?;
    put_escaped(text, element.name.bytes())?;
    text.extend_from_slice(b" ")?;
    put_escaped(text, element.text.bytes())?;
    text.extend_from_slice(b"\n")
}

/// Prints a structure that is no part of an entry. The plans are those of the dictionary's entries; a body whose class
/// is not held, or that does not spell its layout, is told to be unread. `Failed` where the sink fails, `NoMemory`
/// where memory is out; a part of the text may be printed then.
pub fn print_structure<O: Sink>(
    page: &mut Page,
    out: &mut O,
    order: Order,
    dictionary: &Dictionary,
    plans: &Plans,
    told: Told,
    body: &[u8],
    is_read: bool,
) -> Result<(), ShelfError>
    requires plans { (class : ℕ) → plan_of plans.now class ≡ layout_in dictionary.now class }
    requires read { IsTrue is_read → IfSome (layout_in dictionary.now told.class)
        (λ fields. HasBody order fields body.now) }
    ensures { Prints (O.output out.old) (O.output out.new) page.old page.new
        (structure_text order dictionary.now told.at told.class told.instance told.length body.now) result }
{
    let Some(entry) = dictionary.get(told.class) else {
        return print_unheld(page, out, told);
    };
    let composed = push_told(page, entry.name.bytes(), told);
    page.settle(out, composed)?;
    let elements = entry.elements.as_slice();
    print_body(
        page,
        out,
        order,
        told.class,
        elements,
        plans.plan(told.class),
        body,
        is_read,
    )
}

/// Prints a structure of a class that the dictionary does not hold: its first line, and that its body is not read.
fn print_unheld<O: Sink>(page: &mut Page, out: &mut O, told: Told) -> Result<(), ShelfError>
    ensures { Prints (O.output out.old) (O.output out.new) page.old page.new
        (structure_line [] told.at told.class told.instance told.length ++ codes "  unread\n") result }
{
    let composed = push_told(page, &[], told);
    page.settle(out, composed)?;
    let composed = page.text.extend_from_slice(b"  unread\n");
    page.settle(out, composed)
}

/// Appends the first line of a structure.
fn push_told(page: &mut Page, name: &[u8], told: Told) -> Result<(), AllocError>
    ensures { OnOk result (pending page.new ≡ pending page.old
        ++ structure_line name.now told.at told.class told.instance told.length) }
{
    push_labelled(&mut page.text, b"record at ", told.at)?;
    page.headings.push(&mut page.text, told.class, name)?;
    push_decimal(&mut page.text, told.instance as u64)?;
    push_labelled(&mut page.text, b" length ", told.length)?;
    page.text.extend_from_slice(b"\n")
}

/// Appends a number in decimal, after what it is.
#[inline(always)]
fn push_labelled(text: &mut Vec<u8>, label: &[u8], n: u64) -> Result<(), AllocError>
    ensures { OnOk result (text.new.items ≡ text.old.items ++ (label.now ++ decimal n)) }
{
    text.extend_from_slice(label)?;
    push_decimal(text, n)
}
