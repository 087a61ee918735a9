//! What a walk through a file finds.

use file_grammar::Reason;
use scalar_types::Order;

/// The verdict of a walk.
#[derive(Clone, Copy, Debug, PartialEq, Eq)]
pub enum Verdict {
    /// Nothing is wrong with the header or with a structure's length.
    Sound { order: Order, structures: u64 },
    /// The first thing that is wrong, and its place in bytes from the beginning of the file.
    Wrong { at: u64, reason: Reason },
}
