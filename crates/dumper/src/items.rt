//! An item as it is printed after a reader has given it.

ghost use Rattle.std.specs.Prelude.{◌≡◌, ◌+◌, ◌++◌, ℕ, length, None, Some, IfSome, IsTrue, OnOk, OnErr, IsErrOf};
ghost use Rattle.layout_plan.specs.Body.{HasBody};
ghost use Rattle.file_grammar.specs.Record.{layout_in};
ghost use Rattle.frame_outside.specs.Counts.{Rose};
ghost use Rattle.frame_outside.specs.Sink.{Appends};
ghost use Rattle.dumper.specs.Lines.{end_line};
ghost use Rattle.dumper.specs.Given.{last_text, given_text};
ghost use Rattle.dumper.specs.Page.{AppendsPrefix, Prints};

use crate::lines::{Told, print_entry, print_structure, push_end};
use crate::page::Page;
use frame_outside::{ShelfError, Sink};
use item_reader::{Item, ItemReader};
use std::alloc::Global;

/// Prints the lines of the item that a reader has given last: of FrEndOfFile also the last line of the file. The
/// reader's frame was not lifted since.
///
/// # Errors
///
/// The sink has got a prefix of the lines then; `Failed` where it could not do a call.
pub fn dump_item<O: Sink>(
    alloc: Global,
    reader: &ItemReader,
    item: &Item,
    out: &mut O,
) -> Result<(), ShelfError>
    requires error { reader.now.error ≡ None }
    requires last { reader.now.last ≡ Some item.now }
    ensures ok { OnOk result
        (Appends (O.output out.old) (O.output out.new) (given_text reader.now item.now)) }
    ensures err { OnErr result
        (AppendsPrefix (O.output out.old) (O.output out.new) (given_text reader.now item.now)) }
    ensures failed { IsErrOf result ShelfError.Failed
        → Rose (O.output out.old).faults (O.output out.new).faults }
{
    let mut page = Page::new(alloc);
    print_item(&mut page, out, reader, *item)?;
    page.flush(out)
}

/// The same by way of a page.
pub fn print_item<O: Sink>(
    page: &mut Page,
    out: &mut O,
    reader: &ItemReader,
    item: Item,
) -> Result<(), ShelfError>
    requires error { reader.now.error ≡ None }
    requires last { reader.now.last ≡ Some item }
    ensures { Prints (O.output out.old) (O.output out.new) page.old page.new (given_text reader.now item) result }
{
    match item {
        Item::Entry { .. } => match reader.entry() {
            Some(entry) => print_entry(page, out, entry),
            None => Ok(()),
        },
        Item::Plain {
            at,
            class,
            instance,
            node,
        } => {
            let is_read = is_record(reader, class, node);
            print_last(
                page,
                out,
                reader,
                told_by_body(reader, at, class, instance),
                is_read,
            )
        }
        Item::FrameEnd { at, class } => {
            let instance = reader.instance();
            print_last(
                page,
                out,
                reader,
                told_by_body(reader, at, class, instance),
                false,
            )
        }
        Item::Table { at, class, length } => {
            let instance = reader.instance();
            print_last(
                page,
                out,
                reader,
                Told {
                    at,
                    class,
                    instance,
                    length,
                },
                false,
            )
        }
        Item::FileEnd {
            at,
            class,
            length,
            ..
        } => {
            let instance = reader.instance();
            print_end(
                page,
                out,
                reader,
                Told {
                    at,
                    class,
                    instance,
                    length,
                },
            )
        }
    }
}

/// Prints the structure that ends the file, and then the last line.
fn print_end<O: Sink>(
    page: &mut Page,
    out: &mut O,
    reader: &ItemReader,
    told: Told,
) -> Result<(), ShelfError>
    requires { reader.now.error ≡ None }
    ensures { Prints (O.output out.old) (O.output out.new) page.old page.new
        (last_text reader.now told.at told.class told.instance told.length ++ end_line reader.now.before.place) result }
{
    print_last(page, out, reader, told, false)?;
    let composed = push_end(&mut page.text, reader.place());
    page.settle(out, composed)
}

/// A structure of which all of the body is lent.
fn told_by_body(reader: &ItemReader, at: u64, class: u8, instance: u32) -> Told
    ensures { result ≡ record { at = at; class = class; instance = instance; length = 14 + length reader.now.body } }
{
    Told {
        at,
        class,
        instance,
        length: 14 + reader.body().len() as u64,
    }
}

/// Whether the last item is the record of this node and class: its body reads by the plan of the class.
fn is_record(reader: &ItemReader, class: u8, node: u32) -> bool
    requires error { reader.now.error ≡ None }
    requires last { (at instance : ℕ) × (reader.now.last ≡ Some (Item.Plain at class instance node)) }
    ensures { IsTrue result → IfSome (layout_in reader.now.before.dictionary class)
        (λ fields. HasBody reader.now.order fields reader.now.body) }
{
    let _plans = reader.plans();
    let _body = reader.body();
    let segment = reader.segment();
    node < segment.len() && segment.node(node).class == class
}

/// Prints the structure that a reader has given last.
fn print_last<O: Sink>(
    page: &mut Page,
    out: &mut O,
    reader: &ItemReader,
    told: Told,
    is_read: bool,
) -> Result<(), ShelfError>
    requires error { reader.now.error ≡ None }
    requires read { IsTrue is_read → IfSome (layout_in reader.now.before.dictionary told.class)
        (λ fields. HasBody reader.now.order fields reader.now.body) }
    ensures { Prints (O.output out.old) (O.output out.new) page.old page.new
        (last_text reader.now told.at told.class told.instance told.length) result }
{
    print_structure(
        page,
        out,
        reader.order(),
        reader.dictionary(),
        reader.plans(),
        told,
        reader.body(),
        is_read,
    )
}
