//! `outside_trial FROM TO` copies a file by the calls of the shelf of real files.
//!
//! It is no command for users: `bin/try_outside` runs it over files, links, pipes and devices, to show
//! what no contract can say of them. It prints `copied N` and ends with 0; with 3 where the shelf or
//! standard output refuses; with 2 and `usage` for other words.
#![tactic(auto)]

mod copying;

ghost use Rattle.std.specs.Prelude.{◌≡◌, ◌≢◌, ◌⊎◌, length, map, codes, string_bytes};
ghost use Rattle.frame_outside.specs.Sink.{Appends};
ghost use Rattle.outside_trial.specs.Running.{CopiesAndPrints};

use copying::copy_file;
use frame_outside::{DirShelf, Shelf, ShelfError, Sink, StdSink};
use std::alloc::{AllocError, Global};
use std::env;
use std::os::fd::AsRawFd;
use std::os::unix::fs::FileExt;
use std::process::ExitCode;

const DONE: u8 = 0;

const USAGE: u8 = 2;

const REFUSED: u8 = 3;

fn main(rt: HostRuntime) -> ExitCode {
    let mut shelf = DirShelf::new(&rt, rt.alloc());
    let mut out = StdSink::new(&rt);
    let status = match words(&rt) {
        Ok(words) => run(rt.alloc(), words.as_slice(), &mut shelf, &mut out),
        Err(_) => REFUSED,
    };
    ExitCode::from(status)
}

/// The words after the program's name; none where they are no texts.
fn words<R: std::rt::Env + AllocGlobal>(rt: &R) -> Result<Vec<String>, AllocError> {
    match env::args(rt) {
        Ok(words) => words.skip(1).collect(rt.alloc()),
        Err(_) => Ok(Vec::new(rt.alloc())),
    }
}

/// Copies by the words, prints, and gives the status.
fn run<S: Shelf, O: Sink>(alloc: Global, words: &[String], shelf: &mut S, out: &mut O) -> u8
    ensures status { (result ≡ DONE) ⊎ ((result ≡ USAGE) ⊎ (result ≡ REFUSED)) }
    ensures done { result ≡ DONE → CopiesAndPrints (map string_bytes words.now)
        (S.outside shelf.old) (S.outside shelf.new) (O.output out.old) (O.output out.new) }
    ensures usage { result ≡ USAGE → length words.now ≢ 2 }
    ensures printed { result ≡ USAGE →
        Appends (O.output out.old) (O.output out.new) (codes "usage\n") }
    ensures other { length words.now ≢ 2 → S.outside shelf.new ≡ S.outside shelf.old }
{
    let [from, to] = words else {
        return print(alloc, out, USAGE, "usage\n");
    };
    match copy_file(alloc, shelf, from.as_str(), to.as_str()) {
        Ok(count) => match format!(in alloc; "copied {count}\n") {
            Ok(line) => print(alloc, out, DONE, line.as_str()),
            Err(_) => REFUSED,
        },
        Err(ShelfError::Failed | ShelfError::NoMemory) => REFUSED,
    }
}

/// Prints a line, and gives that status; `REFUSED` where the sink refuses.
fn print<O: Sink>(alloc: Global, out: &mut O, status: u8, line: &str) -> u8
    requires { status ≢ REFUSED }
    ensures status { (result ≡ status) ⊎ (result ≡ REFUSED) }
    ensures printed { result ≡ status → Appends (O.output out.old) (O.output out.new) line.now }
{
    match out.put(alloc, line.as_bytes()) {
        Ok(()) => status,
        Err(_) => REFUSED,
    }
}
