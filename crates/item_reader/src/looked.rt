//! What a reader knows of the structure at the place that it has reached.

use file_grammar::Fault;
use frame_head::Common;

/// What was looked at beyond the item given last.
#[derive(Clone, Copy, Debug, PartialEq, Eq)]
pub enum Looked {
    Nothing,
    /// The 14 bytes that stand there were passed.
    Seen(Common),
    /// What stands there was read as far as it is wrong.
    Wrong(Fault),
}
