//! Why the frames of a channel are not all written.

use file_grammar::Fault;
use thiserror::Error;

/// Why the frames of a channel are not all written.
#[derive(Clone, Copy, Debug, PartialEq, Eq, Error)]
pub enum ExtractError {
    /// The file is not well-formed, and this fault shows it.
    #[error("Fault")]
    Fault(Fault),
    /// No frame has the channel.
    #[error("NoChannel")]
    NoChannel,
    /// The file has no contents table that can be read and lists the kind.
    #[error("NoTable")]
    NoTable,
    /// The contents table has a place that is not right.
    #[error("TableLies")]
    TableLies { at: u64 },
    /// The output would have more than 2^62 bytes.
    #[error("OutputLimit")]
    OutputLimit,
    /// The file is not held, or the shelf could not do a call.
    #[error("Device")]
    Device,
    #[error("NoMemory")]
    NoMemory,
}
