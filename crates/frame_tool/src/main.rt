//! `frame_tool` judges IGWD frame files of format version 8.
//!
//! The program takes its words, runs them over the files of the system and standard output, and ends
//! with the status of the answer. All that it does is `dispatch::run`.
#![tactic(auto)]

mod answer;
mod check;
mod command;
mod dispatch;
mod judgement;
mod laws;
mod listing;
mod outcome;
#[cfg(test)]
mod pieces;
#[cfg(test)]
mod tests;
mod verdict;
mod walk;
#[cfg(test)]
mod worked_files;

use dispatch::run;
use frame_outside::{DirShelf, StdSink};
use outcome::Outcome;
use std::alloc::Global;
use std::os::fd::AsRawFd;
use std::os::unix::fs::FileExt;
use std::process::ExitCode;
use std::{env, io};

fn main(rt: HostRuntime) -> ExitCode {
    let outcome = match words(&rt) {
        Ok(words) => run_words(&rt, words.as_slice()),
        Err(outcome) => outcome,
    };
    ExitCode::from(outcome.status())
}

/// The words after the program's name. `Usage` where they are no texts, `NoMemory` where there is
/// no memory for them.
fn words<R: std::rt::Env + AllocGlobal>(rt: &R) -> Result<Vec<String>, Outcome> {
    match env::args(rt) {
        Ok(words) => match words.skip(1).collect(rt.alloc()) {
            Ok(words) => Ok(words),
            Err(_) => Err(Outcome::NoMemory),
        },
        Err(error) if error.kind() == io::ErrorKind::OutOfMemory => Err(Outcome::NoMemory),
        Err(_) => Err(Outcome::Usage),
    }
}

fn run_words<R: std::rt::Files + Print + AllocGlobal>(rt: &R, words: &[String]) -> Outcome
where
    R::File: FileExt + AsRawFd,
{
    let mut shelf = DirShelf::new(rt, rt.alloc());
    let mut out = StdSink::new(rt);
    run(rt.alloc(), words, &mut shelf, &mut out)
}
