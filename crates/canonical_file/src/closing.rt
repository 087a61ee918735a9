//! The closing of a file.

use dictionary::Entry;

/// What a file is closed with: the entry of FrEndOfFile, and that of FrTOC where there is one that is fit
/// for a contents table.
#[derive(Drop)]
pub struct Closing {
    pub end: Entry,
    pub table: Option<Entry>,
}
