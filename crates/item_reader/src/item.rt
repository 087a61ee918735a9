//! What a reader gives: items one after another, or why there is none.

use file_grammar::Fault;
use frame_outside::{Failed, ShelfError};
use std::alloc::AllocError;
use thiserror::Error;

/// An item of a file: a dictionary entry, or any other structure. `at` is its place in bytes from
/// the beginning of the file.
#[derive(Clone, Copy, Debug, PartialEq, Eq)]
pub enum Item {
    /// An FrSH with the run of FrSEs after it. `changed` tells whether the dictionary changed: it
    /// holds the entry now, and did
    /// not hold its class before.
    Entry {
        at: u64,
        class: u16,
        changed: bool,
    },
    /// A record of a frame other than its end record, with its number in the frame, from 0.
    Plain {
        at: u64,
        class: u8,
        instance: u32,
        node: u32,
    },
    /// The record that ends a frame.
    FrameEnd {
        at: u64,
        class: u8,
    },
    /// The contents table, and the bytes of the whole structure.
    Table {
        at: u64,
        class: u8,
        length: u64,
    },
    /// The end of the file, the bytes of the whole structure, and what it tells as `seekTOC`.
    FileEnd {
        at: u64,
        class: u8,
        length: u64,
        seek: u64,
    },
}

/// Why a reader gives no item.
#[derive(Clone, Copy, Debug, PartialEq, Eq, Error)]
pub enum ReadError {
    /// The file is not well-formed, and this is its first fault.
    #[error("Fault")]
    Fault(Fault),
    /// The shelf could not do a call.
    #[error("Device")]
    Device,
    #[error("NoMemory")]
    NoMemory,
}

impl From<AllocError> for ReadError {
    ghost use Rattle.std.specs.Prelude.{◌≡◌};
    ghost use Rattle.item_reader.specs.declared.item.ReadError.TheVariants as error;

    ghost from_gives = { λ _ result. result ≡ error.NoMemory };

    fn from(_error: AllocError) -> ReadError {
        ReadError::NoMemory
    }
}

impl From<Failed> for ReadError {
    ghost use Rattle.std.specs.Prelude.{◌≡◌};
    ghost use Rattle.item_reader.specs.declared.item.ReadError.TheVariants as error;

    ghost from_gives = { λ _ result. result ≡ error.Device };

    fn from(_failed: Failed) -> ReadError {
        ReadError::Device
    }
}

impl From<ShelfError> for ReadError {
    ghost use Rattle.std.specs.Prelude.{◌≡◌};
    ghost use Rattle.item_reader.specs.Errors.{error_of};

    ghost from_gives = { λ error result. result ≡ error_of error };

    fn from(error: ShelfError) -> ReadError {
        match error {
            ShelfError::Failed => ReadError::Device,
            ShelfError::NoMemory => ReadError::NoMemory,
        }
    }
}

impl From<Fault> for ReadError {
    ghost use Rattle.std.specs.Prelude.{◌≡◌};
    ghost use Rattle.item_reader.specs.declared.item.ReadError.TheVariants as error;

    ghost from_gives = { λ fault result. result ≡ error.Fault fault };

    fn from(fault: Fault) -> ReadError {
        ReadError::Fault(fault)
    }
}
