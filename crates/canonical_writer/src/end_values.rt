//! The body of FrEndOfFile: what it tells of the file, and nothing in its other fields (LIGO-T970130 v8, FrEndOfFile).

ghost use Rattle.std.specs.Prelude.{◌≡◌, ◌*◌, ◌≤◌, ℕ, OnOk, length};
ghost use Rattle.layout_plan.specs.Appends.{Appends};
ghost use Rattle.contents_table.specs.Tells.{item_length};
ghost use Rattle.contents_table.specs.Told.{values_told};
ghost use Rattle.canonical_file.specs.Bytes.{body_bytes, value_bytes};
ghost use Rattle.canonical_writer.specs.EndOfFile.{told_of, single_told, number_in, FitsForm, FitsEnd};

use crate::entries::push_text;
use crate::records::NULL;
use layout_plan::spelling::{push_link, push_number};
use layout_plan::{Field, Form, LINK_SIZE};
use scalar_types::{Order, Width};
use std::alloc::AllocError;

/// What FrEndOfFile tells: the frames and bytes of the file, and the way back from its end to the contents table, or 0.
#[derive(Clone, Copy)]
pub struct EndOfFile {
    pub frames: u64,
    pub bytes: u64,
    pub seek: u64,
}

/// The numbers of the fields that tell them.
#[derive(Clone, Copy)]
pub struct EndFields {
    pub frames: usize,
    pub bytes: usize,
    pub seek: usize,
}

impl EndOfFile {
    /// What the field of a number tells: 0 where it tells nothing.
    fn number(&self, fields: EndFields, k: usize) -> u64
        ensures { result ≡ number_in fields self.now k }
    {
        if k == fields.frames {
            self.frames
        } else if k == fields.bytes {
            self.bytes
        } else if k == fields.seek {
            self.seek
        } else {
            0
        }
    }

    /// Appends the body by a layout without dimensions.
    pub fn push(
        &self,
        fields: &[Field],
        told: EndFields,
        into: &mut Vec<u8>,
    ) -> Result<(), AllocError>
        requires fits { FitsEnd fields.now told self.now }
        ensures { Appends
            (λ bytes. OnOk result (bytes ≡ body_bytes fields.now (values_told (told_of told self.now) fields.now)))
            into.old.items
            into.new.items }
    {
        for (k, field) in fields.iter().enumerate() {
            push_single(field.form, self.number(told, k), into)?;
        }
        Ok(())
    }
}

/// The bytes of such a body.
pub fn end_size(fields: &[Field]) -> u64
    requires { length fields.now ≤ 4096 }
    ensures size { (told : EndFields) (end : EndOfFile) → FitsEnd fields.now told end
        → result ≡ length (body_bytes fields.now (values_told (told_of told end) fields.now)) }
    ensures small { result ≤ 4096 * 16 }
{
    let mut size = 0;
    for field in fields {
        size += single_size(field.form);
    }
    size
}

/// Appends one item: a number, or an item that tells nothing.
fn push_single(form: Form, n: u64, into: &mut Vec<u8>) -> Result<(), AllocError>
    requires { FitsForm form n }
    ensures { Appends
        (λ bytes. OnOk result (bytes ≡ value_bytes form (single_told form n)))
        into.old.items
        into.new.items }
{
    match form {
        Form::Number(width) => push_number(Order::Little, width, n, into),
        Form::Pair(width) => {
            push_number(Order::Little, width, 0, into)?;
            push_number(Order::Little, width, 0, into)
        }
        Form::Text => push_text(&[], into),
        Form::Link => push_link(Order::Little, &NULL, into),
    }
}

fn single_size(form: Form) -> u64
    ensures { result ≡ item_length form }
{
    match form {
        Form::Number(width) => width.size() as u64,
        Form::Pair(width) => 2 * width.size() as u64,
        Form::Text => 3,
        Form::Link => LINK_SIZE as u64,
    }
}
