//! What is said of two files.

ghost use Rattle.std.specs.Prelude.{◌≡◌};
ghost use Rattle.content_compare.specs.Answers.{error_of_read};

use file_grammar::Fault;
use frame_outside::ShelfError;
use item_reader::ReadError;
use std::alloc::AllocError;
use thiserror::Error;

/// What two well-formed files hold, compared.
#[derive(Clone, Copy, Debug, PartialEq, Eq)]
pub enum Comparison {
    /// Both hold the same content.
    Same,
    /// They differ first in the frame of this number, from 1, or, where it is 0, in their closings.
    Different { place: u64 },
}

/// Why two files are not compared. The first has number 0, the second number 1.
#[derive(Clone, Copy, Debug, PartialEq, Eq, Error)]
pub enum CompareError {
    /// The file is not well-formed, and this is its first fault.
    #[error("Fault")]
    Fault { file: u32, fault: Fault },
    /// A file is not held, or the shelf could not do a call.
    #[error("Device")]
    Device,
    #[error("NoMemory")]
    NoMemory,
}

impl CompareError {
    /// Why the file of a number cannot be read.
    pub fn of_file(file: u32, error: ReadError) -> CompareError
        ensures { result ≡ error_of_read file error }
    {
        match error {
            ReadError::Fault(fault) => CompareError::Fault { file, fault },
            ReadError::Device => CompareError::Device,
            ReadError::NoMemory => CompareError::NoMemory,
        }
    }
}

impl From<AllocError> for CompareError {
    ghost use Rattle.std.specs.Prelude.{◌≡◌};
    ghost use Rattle.content_compare.specs.declared.answers.CompareError.TheVariants as error;

    ghost from_gives = { λ _ result. result ≡ error.NoMemory };

    fn from(_error: AllocError) -> CompareError {
        CompareError::NoMemory
    }
}

impl From<ShelfError> for CompareError {
    ghost use Rattle.std.specs.Prelude.{◌≡◌};
    ghost use Rattle.content_compare.specs.Answers.{error_of_shelf};

    ghost from_gives = { λ error result. result ≡ error_of_shelf error };

    fn from(error: ShelfError) -> CompareError {
        match error {
            ShelfError::Failed => CompareError::Device,
            ShelfError::NoMemory => CompareError::NoMemory,
        }
    }
}
