//! Why a canonical file is not written further.

use frame_outside::ShelfError;
use std::alloc::AllocError;
use thiserror::Error;

/// Why a frame, or the end of a file, is not written.
#[derive(Clone, Copy, Debug, PartialEq, Eq, Error)]
pub enum WriteError {
    /// The file has 1,000,000 frames already.
    #[error("FramesLimit")]
    FramesLimit,
    /// A record's class has another entry among those used so far, or its structure name another class.
    #[error("Clash")]
    Clash { class: u8 },
    /// The file would have more than 2^62 bytes.
    #[error("OutputLimit")]
    OutputLimit,
    /// The shelf could not do a call.
    #[error("Device")]
    Device,
    #[error("NoMemory")]
    NoMemory,
}

impl From<AllocError> for WriteError {
    ghost use Rattle.std.specs.Prelude.{◌≡◌};
    ghost use Rattle.canonical_writer.specs.declared.errors.WriteError.TheVariants as error;

    ghost from_gives = { λ _ result. result ≡ error.NoMemory };

    fn from(_error: AllocError) -> WriteError {
        WriteError::NoMemory
    }
}

impl From<ShelfError> for WriteError {
    ghost use Rattle.std.specs.Prelude.{◌≡◌};
    ghost use Rattle.canonical_writer.specs.Errors.{error_of};

    ghost from_gives = { λ error result. result ≡ error_of error };

    fn from(error: ShelfError) -> WriteError {
        match error {
            ShelfError::Failed => WriteError::Device,
            ShelfError::NoMemory => WriteError::NoMemory,
        }
    }
}
