//! The spelling of what a table tells, at the end of bytes and in little-endian order. Where memory is out, a
//! part of it may stand there.

ghost use Rattle.std.specs.Prelude.{◌≡◌, ◌<◌, ◌≤◌, ◌^◌, ℕ, OnOk, true, false, List, [], length, map};
ghost use Rattle.std.specs.Prelude.{replicate};
ghost use Rattle.scalar_types.specs.declared.Order.TheVariants.{Little};
ghost use Rattle.scalar_types.specs.declared.Width.TheVariants.{Eight};
ghost use Rattle.record_values.specs.Spelling.{IsNumber, IsClosedText, AreItems};
ghost use Rattle.record_values.specs.declared.values.Value.TheVariants.{Num};
ghost use Rattle.layout_plan.specs.Appends.{Appends};
ghost use Rattle.layout_plan.specs.Body.{item_count, IsFieldBy};
ghost use Rattle.contents_table.specs.Built.{AreNames, name_in, position_in, numbers_below};
ghost use Rattle.contents_table.specs.Told.{blank_by, positions_of};
ghost use Rattle.contents_table.specs.Tells.{item_length, name_of_number, IsCounter};

use crate::names::{Names, place_in};
use layout_plan::spelling::push_number;
use layout_plan::{Field, Form, LINK_SIZE, capped_count};
use scalar_types::{Order, Width};
use std::alloc::AllocError;

/// More bytes than any record has.
pub const TOO_MANY: u64 = 4_294_967_296;

/// The bytes of a text beside its own: a two-byte length and the closing zero byte.
pub const TEXT_FRAME: u64 = 3;

/// The bytes of one item that tells nothing, and of a number.
pub fn item_size(form: Form) -> u64
    ensures { result ≡ item_length form }
{
    match form {
        Form::Number(width) => width.size() as u64,
        Form::Pair(width) => 2 * width.size() as u64,
        Form::Text => TEXT_FRAME,
        Form::Link => LINK_SIZE as u64,
    }
}

/// Appends the number of a field without dimension.
pub fn push_single(field: &Field, n: u64, into: &mut Vec<u8>) -> Result<(), AllocError>
    requires counter { IsCounter field.now }
    requires few { n ≤ 4294967295 }
    ensures { Appends
        (λ bytes. OnOk result ((numbers : List ℕ)
        → IsFieldBy (IsClosedText Little) Little numbers field.now.form field.now.counts (Num n) bytes))
        into.old.items
        into.new.items }
{
    match field.form {
        Form::Number(width) => push_number(Order::Little, width, n, into),
        _ => unreachable!(),
    }
}

/// Appends numbers of eight bytes.
pub fn push_places(places: &[u64], into: &mut Vec<u8>) -> Result<(), AllocError>
    ensures { Appends
        (λ bytes. OnOk result (AreItems (IsNumber Little Eight) places.now bytes))
        into.old.items
        into.new.items }
{
    for place in places {
        push_number(Order::Little, Width::Eight, *place, into)?;
    }
    Ok(())
}

pub fn push_names(names: &Names, into: &mut Vec<u8>) -> Result<(), AllocError>
    requires { (frames : ℕ) × AreNames frames names.now }
    ensures { Appends
        (λ bytes. OnOk result (AreItems (IsClosedText Little) (map name_in names.now) bytes))
        into.old.items
        into.new.items }
{
    for k in 0..names.len() {
        push_text(names.listed(k).name.bytes(), into)?;
    }
    Ok(())
}

/// Appends a text, with its length and its closing zero byte.
fn push_text(text: &[u8], into: &mut Vec<u8>) -> Result<(), AllocError>
    requires { length text.now ≤ 65534 }
    ensures { Appends
        (λ bytes. OnOk result (IsClosedText Little text.now bytes))
        into.old.items
        into.new.items }
{
    push_number(Order::Little, Width::Two, text.len() as u64 + 1, into)?;
    into.extend_from_slice(text)?;
    into.push(0)?;
    Ok(())
}

/// Appends the positions of names in so many frames: those of one name together, or those of one frame.
pub fn push_positions(
    names: &Names,
    frames: u64,
    by_name: bool,
    into: &mut Vec<u8>,
) -> Result<(), AllocError>
    requires { AreNames frames names.now }
    ensures { Appends
        (λ bytes. OnOk result (AreItems (IsNumber Little Eight)
        (positions_of by_name frames names.now (map name_in names.now)) bytes))
        into.old.items
        into.new.items }
{
    if by_name {
        push_by_name(names, frames, into)
    } else {
        push_by_frame(names, frames, into)
    }
}

fn push_by_name(names: &Names, frames: u64, into: &mut Vec<u8>) -> Result<(), AllocError>
    requires { AreNames frames names.now }
    ensures { Appends
        (λ bytes. OnOk result (AreItems (IsNumber Little Eight)
        (positions_of true frames names.now (map name_in names.now)) bytes))
        into.old.items
        into.new.items }
{
    for k in 0..names.len() {
        push_name_positions(names, k, frames, into)?;
    }
    Ok(())
}

fn push_by_frame(names: &Names, frames: u64, into: &mut Vec<u8>) -> Result<(), AllocError>
    requires { AreNames frames names.now }
    ensures { Appends
        (λ bytes. OnOk result (AreItems (IsNumber Little Eight)
        (positions_of false frames names.now (map name_in names.now)) bytes))
        into.old.items
        into.new.items }
{
    for frame in 0..frames {
        push_frame_positions(names, frame, into)?;
    }
    Ok(())
}

/// Appends the positions of one name.
fn push_name_positions(
    names: &Names,
    k: usize,
    frames: u64,
    into: &mut Vec<u8>,
) -> Result<(), AllocError>
    requires kept { AreNames frames names.now }
    requires within { k < length names.now }
    ensures { Appends
        (λ bytes. OnOk result (AreItems (IsNumber Little Eight)
        (map (position_in names.now (name_of_number names.now k)) (numbers_below frames)) bytes))
        into.old.items
        into.new.items }
{
    for frame in 0..frames {
        push_position(names, k, frame, into)?;
    }
    Ok(())
}

/// Appends the positions in one frame.
fn push_frame_positions(names: &Names, frame: u64, into: &mut Vec<u8>) -> Result<(), AllocError>
    requires { (frames : ℕ) × AreNames frames names.now }
    ensures { Appends
        (λ bytes. OnOk result (AreItems (IsNumber Little Eight)
        (map (λ name. position_in names.now name frame) (map name_in names.now)) bytes))
        into.old.items
        into.new.items }
{
    for k in 0..names.len() {
        push_position(names, k, frame, into)?;
    }
    Ok(())
}

fn push_position(names: &Names, k: usize, frame: u64, into: &mut Vec<u8>) -> Result<(), AllocError>
    requires kept { (frames : ℕ) × AreNames frames names.now }
    requires within { k < length names.now }
    ensures { Appends
        (λ bytes. OnOk result
        (IsNumber Little Eight (position_in names.now (name_of_number names.now k) frame) bytes))
        into.old.items
        into.new.items }
{
    let place = place_in(frame, names.listed(k).found.as_slice());
    push_number(Order::Little, Width::Eight, place, into)
}

/// Appends a field that tells nothing: zeros, empty texts or null links.
pub fn push_blank(field: &Field, numbers: &[u64], into: &mut Vec<u8>) -> Result<(), AllocError>
    requires { item_count numbers.now field.now.counts ≤ 4294967295 }
    ensures { Appends
        (λ bytes. OnOk result
        (IsFieldBy (IsClosedText Little) Little numbers.now field.now.form field.now.counts
        (blank_by numbers.now field.now.form field.now.counts) bytes))
        into.old.items
        into.new.items }
{
    let count = capped_count(field.counts.as_slice(), numbers, TOO_MANY as usize);
    match field.form {
        Form::Text => push_empty_texts(count, into),
        form => push_zeros(count * item_size(form) as usize, into),
    }
}

fn push_empty_texts(count: usize, into: &mut Vec<u8>) -> Result<(), AllocError>
    ensures { Appends
        (λ bytes. OnOk result (AreItems (IsClosedText Little) (replicate count []) bytes))
        into.old.items
        into.new.items }
{
    for _ in 0..count {
        push_text(&[], into)?;
    }
    Ok(())
}

fn push_zeros(count: usize, into: &mut Vec<u8>) -> Result<(), AllocError>
    requires { count ≤ 2 ^ 40 }
    ensures { Appends
        (λ bytes. OnOk result (bytes ≡ replicate count 0))
        into.old.items
        into.new.items }
{
    let end = into.len() + count;
    into.resize(end, 0)
}
