//! What a run answers: the outcome, its status, and the line that is printed last.

ghost use Rattle.std.specs.Prelude.{◌≡◌, IfOk};
ghost use Rattle.std.specs.String.{string_bytes};
ghost use Rattle.frame_tool.specs.Outcome.{status_of, line_of};

use content_compare::{CompareError, Comparison};
use file_grammar::Reason;
use splicer::SpliceError;
use std::alloc::{AllocError, Global};

/// The answer of a run.
#[derive(Clone, Copy, Debug, PartialEq, Eq)]
pub enum Outcome {
    /// All is done.
    Done,
    /// The two files hold the same content.
    Same,
    /// The two files differ at the frame of this number, from 1, or at 0 in their closings.
    Different {
        place: u64,
    },
    /// An input is not accepted: the number of the input among the words, from 0, the place in bytes
    /// from its beginning, the field, from 0 in its layout, and the reason.
    Fault {
        file: u32,
        at: u64,
        field: u32,
        reason: Reason,
    },
    /// No frame has the channel.
    NoChannel,
    /// The file has no contents table that can be used.
    NoTable,
    /// The contents table has this position, which is not that of the channel.
    TableLies {
        at: u64,
    },
    /// An input describes this class otherwise than the inputs before it.
    Clash {
        file: u32,
        class: u8,
    },
    /// The output would pass 2^62 bytes.
    OutputLimit,
    /// The output would have more than 1,000,000 frames.
    FramesLimit,
    /// The words are no command.
    Usage,
    /// The outside failed.
    Device,
    /// There was no memory.
    NoMemory,
}

impl Outcome {
    /// The status with which the program ends.
    pub fn status(&self) -> u8
        ensures { result ≡ status_of self.now }
    {
        match self {
            Outcome::Done | Outcome::Same => 0,
            Outcome::Usage => 2,
            Outcome::Device => 3,
            Outcome::NoMemory => 4,
            _ => 1,
        }
    }

    /// The line that is printed last; empty where none is.
    pub fn line(&self, alloc: Global) -> Result<String, AllocError>
        ensures { IfOk result (λ line. string_bytes line ≡ line_of self.now) }
    {
        match *self {
            Outcome::Done | Outcome::Device | Outcome::NoMemory => Ok(String::new(alloc)),
            Outcome::Same => String::from_str(alloc, "same\n"),
            Outcome::Different { place } => format!(in alloc; "different at {place}\n"),
            Outcome::Fault {
                file,
                at,
                field,
                reason,
            } => fault_line(alloc, file, at, field, reason),
            Outcome::NoChannel => String::from_str(alloc, "no channel\n"),
            Outcome::NoTable => String::from_str(alloc, "no table\n"),
            Outcome::TableLies { at } => format!(in alloc; "table lies at {at}\n"),
            Outcome::Clash { file, class } => {
                format!(in alloc; "clash: file {file} class {class}\n")
            }
            Outcome::OutputLimit => String::from_str(alloc, "output limit\n"),
            Outcome::FramesLimit => String::from_str(alloc, "frames limit\n"),
            Outcome::Usage => String::from_str(alloc, "usage\n"),
        }
    }
}

fn fault_line(
    alloc: Global,
    file: u32,
    at: u64,
    field: u32,
    reason: Reason,
) -> Result<String, AllocError>
    ensures { IfOk result (λ line. string_bytes line ≡ line_of (Outcome.Fault file at field reason)) }
{
    let number = reason.number();
    let name = reason.name();
    format!(in alloc; "fault: file {file} at {at} field {field}: {number} {name}\n")
}

impl From<Result<Comparison, CompareError>> for Outcome {
    ghost use Rattle.std.specs.Prelude.{◌≡◌};
    ghost use Rattle.frame_tool.specs.Outcome.{comparison_outcome};

    ghost from_gives = { λ answer result. result ≡ comparison_outcome answer };

    fn from(answer: Result<Comparison, CompareError>) -> Outcome {
        match answer {
            Ok(Comparison::Same) => Outcome::Same,
            Ok(Comparison::Different { place }) => Outcome::Different { place },
            Err(CompareError::Fault { file, fault }) => Outcome::Fault {
                file,
                at: fault.at,
                field: fault.field,
                reason: fault.reason,
            },
            Err(CompareError::Device) => Outcome::Device,
            Err(CompareError::NoMemory) => Outcome::NoMemory,
        }
    }
}

impl From<SpliceError> for Outcome {
    ghost use Rattle.std.specs.Prelude.{◌≡◌};
    ghost use Rattle.frame_tool.specs.Outcome.{splice_error_outcome};

    ghost from_gives = { λ error result. result ≡ splice_error_outcome error };

    fn from(error: SpliceError) -> Outcome {
        match error {
            SpliceError::Fault { file, fault } => Outcome::Fault {
                file,
                at: fault.at,
                field: fault.field,
                reason: fault.reason,
            },
            SpliceError::Clash { file, class } => Outcome::Clash { file, class },
            SpliceError::FramesLimit => Outcome::FramesLimit,
            SpliceError::OutputLimit => Outcome::OutputLimit,
            SpliceError::Device => Outcome::Device,
            SpliceError::NoMemory => Outcome::NoMemory,
        }
    }
}
