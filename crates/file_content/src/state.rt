//! The state of a file's contents table.

/// The state of the contents table of a well-formed file (LIGO-T970130 v8, FrTOC and FrEndOfFile.seekTOC).
#[derive(Clone, Copy, Debug, PartialEq, Eq)]
pub enum TableState {
    /// The file's end leads to no table: its `seekTOC` is 0.
    None,
    /// It does not lead to the FrTOC record.
    Lost,
    /// The table's layout is not fit, or its body does not spell it, or it lists another number of frames.
    Unread,
    /// The table lists the frames and channels that stand in the file, where they stand.
    Good,
    /// It does not.
    Bad,
}
