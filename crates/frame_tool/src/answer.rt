//! The printed text of an answer.

ghost use Rattle.std.specs.Prelude.{◌≡◌, ◌≢◌, IfOk};
ghost use Rattle.std.specs.String.{string_bytes};
ghost use Rattle.frame_outside.specs.Counts.{Rose};
ghost use Rattle.frame_tool.specs.Outcome.{line_of};
ghost use Rattle.frame_tool.specs.Due.{IsAnswer, Prints, state_name, walk_text, walk_reply};
ghost use Rattle.dumper.specs.Lines.{order_name};
ghost use Rattle.frame_tool.specs.Due.{check_text, report_text, finding_reply};

use crate::judgement::{Finding, Report};
use crate::listing::list_text;
use crate::outcome::Outcome;
use crate::verdict::Verdict;
use file_content::{Contents, TableState};
use frame_outside::{ShelfError, Sink};
use scalar_types::Order;
use std::alloc::{AllocError, Global};

/// Prints the line of an answer, and gives that answer.
pub fn answer_line<O: Sink>(alloc: Global, out: &mut O, outcome: Outcome) -> Outcome
    requires not_device { outcome ≢ Outcome.Device }
    ensures answer { IsAnswer result outcome }
    ensures text { Prints result (line_of outcome) (O.output out.old) (O.output out.new) }
    ensures device { result ≡ Outcome.Device → Rose (O.output out.old).faults (O.output out.new).faults }
{
    match outcome.line(alloc) {
        Ok(line) => print(alloc, out, outcome, line.as_str()),
        Err(_) => Outcome::NoMemory,
    }
}

/// Prints the text of `walk` by its verdict, and gives the answer.
pub fn answer_walk<O: Sink>(alloc: Global, out: &mut O, verdict: Verdict) -> Outcome
    ensures answer { IsAnswer result (walk_reply verdict).outcome }
    ensures text { Prints result (walk_reply verdict).text (O.output out.old) (O.output out.new) }
    ensures device { result ≡ Outcome.Device → Rose (O.output out.old).faults (O.output out.new).faults }
{
    match verdict {
        Verdict::Sound { order, structures } => match summary(alloc, order, structures) {
            Ok(text) => print(alloc, out, Outcome::Done, text.as_str()),
            Err(_) => Outcome::NoMemory,
        },
        Verdict::Wrong { at, reason } => answer_line(
            alloc,
            out,
            Outcome::Fault {
                file: 0,
                at,
                field: 0,
                reason,
            },
        ),
    }
}

/// Prints what is asked for by what was found of a file, and gives the answer.
pub fn answer_finding<O: Sink>(
    alloc: Global,
    out: &mut O,
    report: Report,
    finding: Finding,
) -> Outcome
    ensures answer { IsAnswer result (finding_reply report finding).outcome }
    ensures text { Prints result (finding_reply report finding).text (O.output out.old) (O.output out.new) }
    ensures device { result ≡ Outcome.Device → Rose (O.output out.old).faults (O.output out.new).faults }
{
    match finding {
        Finding::Accepted(contents) => match report_on(alloc, report, &contents) {
            Ok(text) => print(alloc, out, Outcome::Done, text.as_str()),
            Err(_) => Outcome::NoMemory,
        },
        Finding::Refused(fault) => answer_line(
            alloc,
            out,
            Outcome::Fault {
                file: 0,
                at: fault.at,
                field: fault.field,
                reason: fault.reason,
            },
        ),
    }
}

/// What is asked for of an accepted file.
fn report_on(alloc: Global, report: Report, contents: &Contents) -> Result<String, AllocError>
    ensures { IfOk result (λ text. string_bytes text ≡ report_text report contents.now) }
{
    match report {
        Report::Summary => check_text(alloc, contents),
        Report::Channels => list_text(alloc, &contents.channels),
    }
}

/// The text of `check`.
fn check_text(alloc: Global, contents: &Contents) -> Result<String, AllocError>
    ensures { IfOk result (λ text. string_bytes text ≡ check_text contents.now) }
{
    let order = name_of_order(contents.order);
    let frames = contents.frames;
    let records = contents.records;
    let table = name_of_state(contents.table);
    let bytes = contents.bytes;
    format!(in alloc;
        "accepted\norder: {order}\nframes: {frames}\nrecords: {records}\ntable: {table}\nbytes: {bytes}\n"
    )
}

/// The text of a file that was walked over.
fn summary(alloc: Global, order: Order, structures: u64) -> Result<String, AllocError>
    ensures { IfOk result (λ text. string_bytes text ≡ walk_text order structures) }
{
    let name = name_of_order(order);
    format!(in alloc; "order: {name}\nstructures: {structures}\n")
}

fn name_of_order(order: Order) -> &'static str
    ensures { result.now ≡ order_name order }
{
    match order {
        Order::Big => "big",
        Order::Little => "little",
    }
}

fn name_of_state(state: TableState) -> &'static str
    ensures { result.now ≡ state_name state }
{
    match state {
        TableState::None => "none",
        TableState::Lost => "lost",
        TableState::Unread => "unread",
        TableState::Good => "good",
        TableState::Bad => "bad",
    }
}

/// Prints a text in one piece, and gives the answer whose text it is.
fn print<O: Sink>(alloc: Global, out: &mut O, outcome: Outcome, text: &str) -> Outcome
    requires not_device { outcome ≢ Outcome.Device }
    ensures answer { IsAnswer result outcome }
    ensures text { Prints result text.now (O.output out.old) (O.output out.new) }
    ensures device { result ≡ Outcome.Device → Rose (O.output out.old).faults (O.output out.new).faults }
{
    match out.put(alloc, text.as_bytes()) {
        Ok(()) => outcome,
        Err(ShelfError::Failed) => Outcome::Device,
        Err(ShelfError::NoMemory) => Outcome::NoMemory,
    }
}
