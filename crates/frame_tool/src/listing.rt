//! The text of `list`: the channels of a file, a line for each name.

ghost use Rattle.std.specs.Prelude.{◌≡◌, ◌<◌, ◌++◌, length, IfOk, OnOk, IfSome, slice_get};
ghost use Rattle.std.specs.String.{string_bytes};
ghost use Rattle.contents_table.specs.Built.{listed_of};
ghost use Rattle.frame_tool.specs.Listing.{kind_name, name_line, kind_text};
ghost use Rattle.frame_tool.specs.Listing.{list_text};

use contents_table::{Kind, TableBuilder};
use dumper::push_escaped;
use std::alloc::{AllocError, Global};
use std::fmt::Write;

/// The lines of all channels: kind by kind, the names of each in the order in which they first came.
pub fn list_text(alloc: Global, channels: &TableBuilder) -> Result<String, AllocError>
    ensures { IfOk result (λ text. string_bytes text ≡ list_text channels.now) }
{
    let mut text = String::new(alloc);
    push_kind(&mut text, channels, Kind::Adc)?;
    push_kind(&mut text, channels, Kind::Proc)?;
    push_kind(&mut text, channels, Kind::Sim)?;
    push_kind(&mut text, channels, Kind::Ser)?;
    Ok(text)
}

/// Appends the lines of a kind.
fn push_kind(text: &mut String, channels: &TableBuilder, kind: Kind) -> Result<(), AllocError>
    ensures { OnOk result (string_bytes text.new ≡ string_bytes text.old ++ kind_text channels.now kind) }
{
    for k in 0..channels.count(kind) {
        push_name(text, channels, kind, k)?;
    }
    Ok(())
}

/// Appends the line of a name.
fn push_name(
    text: &mut String,
    channels: &TableBuilder,
    kind: Kind,
    k: usize,
) -> Result<(), AllocError>
    requires { k < length (listed_of channels.now kind) }
    ensures { OnOk result (IfSome (slice_get (listed_of channels.now kind) k)
        (λ listed. string_bytes text.new ≡ string_bytes text.old ++ name_line kind listed)) }
{
    let name = name_of_kind(kind);
    let frames = channels.frames_with(kind, k);
    write!(text, "{name} {frames} ")?;
    push_escaped(text, channels.name(kind, k))?;
    text.push('\n')
}

fn name_of_kind(kind: Kind) -> &'static str
    ensures { result.now ≡ kind_name kind }
{
    match kind {
        Kind::Adc => "adc",
        Kind::Proc => "proc",
        Kind::Sim => "sim",
        Kind::Ser => "ser",
    }
}
