//! What is found of a file, and what is asked for.

use file_content::Contents;
use file_grammar::Fault;

/// What is found of a file.
#[derive(Drop)]
pub enum Finding {
    /// It is well-formed, and holds this.
    Accepted(Contents),
    /// It is not, and this is its first fault.
    Refused(Fault),
}

/// What is to be printed of a file that is accepted.
#[derive(Clone, Copy)]
pub enum Report {
    /// Its order, what it counts, and the state of its contents table: `check`.
    Summary,
    /// Its channels: `list`.
    Channels,
}
