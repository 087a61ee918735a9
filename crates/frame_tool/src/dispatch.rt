//! One run of the program: from the words to the answer and the printed text.

ghost use Rattle.std.specs.Prelude.{◌≢◌, ◌<◌, ◌≤◌, ◌+◌, ◌^◌, length, All, Some};
ghost use Rattle.std.specs.String.{string_bytes};
ghost use Rattle.frame_tool.specs.Words.{WalkFile, SameFiles, SpliceFiles, DumpFile, MakeFile, texts};
ghost use Rattle.frame_tool.specs.Due.{IsWalkDue, IsReportDue, IsSameDue, IsSpliceDue, IsDumpDue, IsMakeDue};
ghost use Rattle.frame_tool.specs.Due.{form_asking};
ghost use Rattle.frame_tool.specs.Run.{Runs, Replies};

use crate::answer::{answer_finding, answer_line, answer_walk};
use crate::check::check_file;
use crate::command::{Command, read_words};
use crate::judgement::Report;
use crate::outcome::Outcome;
use crate::walk::walk_file;
use content_compare::{CompareError, compare_files};
use dumper::{DumpError, dump_file};
use frame_outside::{Shelf, ShelfError, Sink};
use sample_file::make_file;
use splicer::{SpliceError, splice};
use std::alloc::Global;

/// Does all that the words ask for: reads and writes the shelf, prints to the sink, and answers.
///
/// An input is opened before anything is made or printed. The sink then holds what it held and the text that is due,
/// or after `Device` and `NoMemory` a prefix of it; the file that is
/// written holds what is due to it, or after these what it held or a part of that.
pub fn run<S: Shelf, O: Sink>(
    alloc: Global,
    words: &[String],
    shelf: &mut S,
    out: &mut O,
) -> Outcome
    ensures { Runs (texts words.now) (S.outside shelf.old) (S.outside shelf.new) (O.output out.old)
        (O.output out.new) result }
{
    match read_words(words) {
        None => answer_line(alloc, out, Outcome::Usage),
        Some(Command::Walk { file }) => run_walk(alloc, file, shelf, out),
        Some(Command::Check { file }) => run_report(alloc, Report::Summary, file, shelf, out),
        Some(Command::List { file }) => run_report(alloc, Report::Channels, file, shelf, out),
        Some(Command::Same { first, second }) => run_same(alloc, first, second, shelf, out),
        Some(Command::Splice { to, from }) => run_splice(alloc, to, from, shelf, out),
        Some(Command::Dump { file }) => run_dump(alloc, file, shelf, out),
        Some(Command::Make { frames, to }) => run_make(alloc, frames, to, shelf, out),
    }
}

/// `walk FILE`.
fn run_walk<S: Shelf, O: Sink>(alloc: Global, file: &str, shelf: &mut S, out: &mut O) -> Outcome
    ensures { Replies (λ files reply. IsWalkDue (files file.now) reply) (Some (WalkFile file.now)) 1
        (S.outside shelf.old) (S.outside shelf.new) (O.output out.old) (O.output out.new) result }
{
    match walk_file(alloc, shelf, file) {
        Ok(verdict) => answer_walk(alloc, out, verdict),
        Err(ShelfError::Failed) => Outcome::Device,
        Err(ShelfError::NoMemory) => Outcome::NoMemory,
    }
}

/// `check FILE` and `list FILE`.
fn run_report<S: Shelf, O: Sink>(
    alloc: Global,
    report: Report,
    file: &str,
    shelf: &mut S,
    out: &mut O,
) -> Outcome
    ensures { Replies (λ files reply. IsReportDue report (files file.now) reply)
        (Some (form_asking report file.now)) 1 (S.outside shelf.old) (S.outside shelf.new) (O.output out.old)
        (O.output out.new) result }
{
    match check_file(alloc, shelf, file) {
        Ok(finding) => answer_finding(alloc, out, report, finding),
        Err(ShelfError::Failed) => Outcome::Device,
        Err(ShelfError::NoMemory) => Outcome::NoMemory,
    }
}

/// `same A B`.
fn run_same<S: Shelf, O: Sink>(
    alloc: Global,
    first: &str,
    second: &str,
    shelf: &mut S,
    out: &mut O,
) -> Outcome
    ensures { Replies (IsSameDue first.now second.now) (Some (SameFiles first.now second.now)) 2
        (S.outside shelf.old) (S.outside shelf.new) (O.output out.old) (O.output out.new) result }
{
    match compare_files(alloc, shelf, first, second) {
        Err(CompareError::Device) => Outcome::Device,
        answer => answer_line(alloc, out, Outcome::from(answer)),
    }
}

/// `splice OUT FILES` and `copy FILE OUT`.
fn run_splice<S: Shelf, O: Sink>(
    alloc: Global,
    to: &str,
    from: &[String],
    shelf: &mut S,
    out: &mut O,
) -> Outcome
    requires some { 0 < length from.now }
    requires few { length from.now < 2 ^ 32 }
    requires apart { All (λ name. string_bytes name ≢ to.now) from.now }
    ensures { Replies (IsSpliceDue to.now (texts from.now)) (Some (SpliceFiles to.now (texts from.now)))
        (length from.now + 1) (S.outside shelf.old) (S.outside shelf.new) (O.output out.old) (O.output out.new)
        result }
{
    match splice(alloc, shelf, to, from) {
        Ok(_) => Outcome::Done,
        Err(SpliceError::Device) => Outcome::Device,
        Err(error) => answer_line(alloc, out, Outcome::from(error)),
    }
}

/// `dump FILE`.
fn run_dump<S: Shelf, O: Sink>(alloc: Global, file: &str, shelf: &mut S, out: &mut O) -> Outcome
    ensures { Replies (λ files reply. IsDumpDue (files file.now) reply) (Some (DumpFile file.now)) 1
        (S.outside shelf.old) (S.outside shelf.new) (O.output out.old) (O.output out.new) result }
{
    match dump_file(alloc, shelf, file, out) {
        Ok(()) => Outcome::Done,
        Err(DumpError::Fault(fault)) => answer_line(
            alloc,
            out,
            Outcome::Fault {
                file: 0,
                at: fault.at,
                field: fault.field,
                reason: fault.reason,
            },
        ),
        Err(DumpError::Device) => Outcome::Device,
        Err(DumpError::NoMemory) => Outcome::NoMemory,
    }
}

/// `make N OUT`: the file is checked once it is made, and the summary of that is printed.
fn run_make<S: Shelf, O: Sink>(
    alloc: Global,
    frames: u32,
    to: &str,
    shelf: &mut S,
    out: &mut O,
) -> Outcome
    requires { frames ≤ 100000 }
    ensures { Replies (λ files reply. IsMakeDue frames to.now reply) (Some (MakeFile frames to.now)) 2
        (S.outside shelf.old) (S.outside shelf.new) (O.output out.old) (O.output out.new) result }
{
    match make_file(alloc, shelf, frames, to) {
        Ok(_) => run_report(alloc, Report::Summary, to, shelf, out),
        Err(ShelfError::Failed) => Outcome::Device,
        Err(ShelfError::NoMemory) => Outcome::NoMemory,
    }
}
