//! How files of the system are opened: past the standard streams, and none that a slot has in use.

ghost use Rattle.std.specs.Prelude.{◌≡◌, map, string_bytes, Some, IfOk, false, true};
ghost use Rattle.std.specs.List.{list_any};
ghost use Rattle.std.specs.Vec.{vec_len, vec_capacity};
ghost use Rattle.frame_outside.specs.Opened.{is_written, identity_of, name_of, seen_of};
ghost use Rattle.frame_outside.specs.Opened.{is_file_of, is_other_name_of};

use super::identity::Identity;
use super::opened::{Opened, Target};
use super::source::Source;
use std::fs::{OpenFile, OpenOptions};
use std::io;
use std::os::fd::AsRawFd;
use std::rt::Files;

/// Opens the file of that name to be read. One that a slot writes under another name is refused.
pub fn open_source<R: Files>(
    rt: &R,
    slots: &mut Vec<Opened<R::File>>,
    name: &str,
) -> io::Result<Opened<R::File>>
where
    R::File: AsRawFd,
    ensures read { IfOk result (λ opened. is_written opened ≡ false) }
    ensures apart { IfOk result
        (λ opened. list_any (is_other_name_of (identity_of opened) name.now) slots.new.items ≡ false) }
    ensures kept { map seen_of slots.new.items ≡ map seen_of slots.old.items }
{
    let file = open_file(rt, slots, OpenOptions::new().read(true), name)?;
    let metadata = file.metadata()?;
    let identity = Identity::of(&metadata);
    if is_written_as_another(slots, identity, name) {
        return Err(io::Error::from(io::ErrorKind::ResourceBusy));
    }
    Ok(Opened::Source(Source::new(file, identity, &metadata)))
}

/// Opens the file of that name to be written from its beginning, made where it is missing. One that a
/// slot reads or writes is refused as it stands: a file is cut only once it is known to be another.
pub fn open_target<R: Files>(
    rt: &R,
    slots: &mut Vec<Opened<R::File>>,
    name: String,
) -> io::Result<Opened<R::File>>
where
    R::File: AsRawFd,
    ensures written { IfOk result (λ opened. is_written opened ≡ true) }
    ensures name { IfOk result (λ opened. name_of opened ≡ Some (string_bytes name)) }
    ensures apart { IfOk result
        (λ opened. list_any (is_file_of (identity_of opened)) slots.new.items ≡ false) }
    ensures kept { map seen_of slots.new.items ≡ map seen_of slots.old.items }
    ensures len { vec_len slots.new ≡ vec_len slots.old }
    ensures capacity { vec_capacity slots.new ≡ vec_capacity slots.old }
{
    let mut how = OpenOptions::new();
    how.write(true).create(true);
    let file = open_file(rt, slots, &how, name.as_str())?;
    let metadata = file.metadata()?;
    let identity = Identity::of(&metadata);
    if is_in_use(slots, identity) {
        return Err(io::Error::from(io::ErrorKind::ResourceBusy));
    }
    if metadata.is_file() {
        file.set_len(0)?;
    }
    Ok(Opened::Target(Target {
        file,
        identity,
        name,
    }))
}

/// Whether a slot writes the file of that identity under another name.
fn is_written_as_another<F: Drop>(
    slots: &[Opened<F>],
    identity: Option<Identity>,
    name: &str,
) -> bool
    ensures { result ≡ list_any (is_other_name_of identity name.now) slots.now }
{
    for slot in slots {
        if slot.is_written_as_another(identity, name) {
            return true;
        }
    }
    false
}

/// Whether a slot has the file of that identity.
fn is_in_use<F: Drop>(slots: &[Opened<F>], identity: Option<Identity>) -> bool
    ensures { result ≡ list_any (is_file_of identity) slots.now }
{
    for slot in slots {
        if slot.is(identity) {
            return true;
        }
    }
    false
}

/// Opens a file. Where the system holds no more files open, those that were read to their end are
/// given back to it first.
fn open_file<R: Files>(
    rt: &R,
    slots: &mut Vec<Opened<R::File>>,
    how: &OpenOptions,
    name: &str,
) -> io::Result<R::File>
where
    R::File: AsRawFd,
    ensures kept { map seen_of slots.new.items ≡ map seen_of slots.old.items }
    ensures len { vec_len slots.new ≡ vec_len slots.old }
    ensures capacity { vec_capacity slots.new ≡ vec_capacity slots.old }
{
    let answer = open_past_streams(rt, how, name);
    if is_for_too_many(&answer) && give_back_ended(slots) {
        return open_past_streams(rt, how, name);
    }
    answer
}

/// Opens a file under a number that is none of a standard stream's: where one of these is closed, the
/// system gives its number to the next file, and what is printed would land there.
fn open_past_streams<R: Files>(rt: &R, how: &OpenOptions, name: &str) -> io::Result<R::File>
where
    R::File: AsRawFd,
{
    let file = how.open(rt, name)?;
    if file.as_raw_fd() <= LAST_STREAM {
        file.try_clone()
    } else {
        Ok(file)
    }
}

/// Whether the system refused to open a file since too many are open.
fn is_for_too_many<F>(answer: &io::Result<F>) -> bool {
    match answer {
        Ok(_) => false,
        Err(error) => matches!(
            error.raw_os_error(),
            Some(TOO_MANY_OF_THIS_PROCESS | TOO_MANY_OF_ALL)
        ),
    }
}

/// Gives each file that was read to its end back to the system, and answers whether there was one.
fn give_back_ended<F: Drop>(slots: &mut Vec<Opened<F>>) -> bool
    ensures kept { map seen_of slots.new.items ≡ map seen_of slots.old.items }
    ensures len { vec_len slots.new ≡ vec_len slots.old }
    ensures capacity { vec_capacity slots.new ≡ vec_capacity slots.old }
{
    let mut any = false;
    for slot in slots.iter_mut() {
        any |= slot.give_back();
    }
    any
}

const LAST_STREAM: i32 = 2;

/// The system's EMFILE.
const TOO_MANY_OF_THIS_PROCESS: i32 = 24;

/// The system's ENFILE.
const TOO_MANY_OF_ALL: i32 = 23;
