//! What is wrong with a file.

use crate::reason::Reason;
use thiserror::Error;

/// The first fault of a file: its place in bytes from the file's beginning, the field of the structure there, and why.
#[derive(Clone, Copy, Debug, PartialEq, Eq, Error)]
#[error("{reason:?}")]
pub struct Fault {
    pub at: u64,
    /// From 0 in the order of the structure's elements, and 0 where the reason is none of a field.
    pub field: u32,
    pub reason: Reason,
}
