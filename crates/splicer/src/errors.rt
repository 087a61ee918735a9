//! Why a splice is not written whole.

ghost use Rattle.std.specs.Prelude.{◌≡◌};
ghost use Rattle.splicer.specs.Errors.{error_of};

use canonical_writer::WriteError;
use file_grammar::Fault;
use frame_outside::ShelfError;
use item_reader::ReadError;
use std::alloc::AllocError;
use thiserror::Error;

/// Why a splice is not written whole. Inputs are numbered from 0.
#[derive(Clone, Copy, Debug, PartialEq, Eq, Error)]
pub enum SpliceError {
    /// The input is not well-formed, and this is its first fault.
    #[error("Fault")]
    Fault { file: u32, fault: Fault },
    /// A frame of the input describes this class otherwise than what was written before it.
    #[error("Clash")]
    Clash { file: u32, class: u8 },
    /// The output has 1,000,000 frames, and one more comes.
    #[error("FramesLimit")]
    FramesLimit,
    /// The output would have more than 2^62 bytes.
    #[error("OutputLimit")]
    OutputLimit,
    /// An input is not held, or the shelf could not do a call.
    #[error("Device")]
    Device,
    #[error("NoMemory")]
    NoMemory,
}

/// Why an input is not written to its end.
#[derive(Clone, Copy)]
pub enum InputError {
    /// It is not well-formed, and this is its first fault.
    Fault(Fault),
    /// A frame of it is not written.
    Write(WriteError),
}

impl InputError {
    /// The same of the input of a number.
    pub fn of_input(self, file: u32) -> SpliceError
        ensures { result ≡ error_of file self }
    {
        match self {
            InputError::Fault(fault) => SpliceError::Fault { file, fault },
            InputError::Write(WriteError::Clash { class }) => SpliceError::Clash { file, class },
            InputError::Write(WriteError::FramesLimit) => SpliceError::FramesLimit,
            InputError::Write(WriteError::OutputLimit) => SpliceError::OutputLimit,
            InputError::Write(WriteError::Device) => SpliceError::Device,
            InputError::Write(WriteError::NoMemory) => SpliceError::NoMemory,
        }
    }
}

impl From<AllocError> for InputError {
    ghost use Rattle.std.specs.Prelude.{◌≡◌};
    ghost use Rattle.canonical_writer.specs.declared.errors.WriteError.TheVariants as write;
    ghost use Rattle.splicer.specs.declared.errors.InputError.TheVariants as input;

    ghost from_gives = { λ _ result. result ≡ input.Write write.NoMemory };

    fn from(_error: AllocError) -> InputError {
        InputError::Write(WriteError::NoMemory)
    }
}

impl From<WriteError> for InputError {
    ghost use Rattle.std.specs.Prelude.{◌≡◌};
    ghost use Rattle.splicer.specs.declared.errors.InputError.TheVariants as input;

    ghost from_gives = { λ error result. result ≡ input.Write error };

    fn from(error: WriteError) -> InputError {
        InputError::Write(error)
    }
}

impl From<ReadError> for InputError {
    ghost use Rattle.std.specs.Prelude.{◌≡◌};
    ghost use Rattle.splicer.specs.Errors.{error_of_read};

    ghost from_gives = { λ error result. result ≡ error_of_read error };

    fn from(error: ReadError) -> InputError {
        match error {
            ReadError::Fault(fault) => InputError::Fault(fault),
            ReadError::Device => InputError::Write(WriteError::Device),
            ReadError::NoMemory => InputError::Write(WriteError::NoMemory),
        }
    }
}

impl From<WriteError> for SpliceError {
    ghost use Rattle.std.specs.Prelude.{◌≡◌};
    ghost use Rattle.splicer.specs.Errors.{unwritten};

    ghost from_gives = { λ error result. result ≡ unwritten 0 error };

    fn from(error: WriteError) -> SpliceError {
        InputError::Write(error).of_input(0)
    }
}

impl From<ShelfError> for SpliceError {
    ghost use Rattle.std.specs.Prelude.{◌≡◌};
    ghost use Rattle.splicer.specs.Errors.{error_of_shelf};

    ghost from_gives = { λ error result. result ≡ error_of_shelf error };

    fn from(error: ShelfError) -> SpliceError {
        match error {
            ShelfError::Failed => SpliceError::Device,
            ShelfError::NoMemory => SpliceError::NoMemory,
        }
    }
}
