//! How large structures, frames and files may be.

ghost use Rattle.std.specs.Prelude.{◌≡◌};
ghost use Rattle.file_grammar.specs.Steps.{size_reason};

use crate::reason::Reason;
use frame_head::HEAD_SIZE;

/// The most bytes of a structure, of a record's weight, and of the weights of a frame's records together.
pub const RECORD_LIMIT: u64 = 4_294_967_295;

/// The most bytes of a file.
pub const FILE_LIMIT: u64 = 1 << 62;

/// The most frames of a file.
pub const FRAMES_LIMIT: u64 = 1_000_000;

/// Why no structure has this length, in bytes: LengthSmall below 14, RecordLimit beyond `RECORD_LIMIT`.
pub fn size_reason(length: u64) -> Option<Reason>
    ensures { result ≡ size_reason length }
{
    if length < HEAD_SIZE as u64 {
        Some(Reason::LengthSmall)
    } else if length > RECORD_LIMIT {
        Some(Reason::RecordLimit)
    } else {
        None
    }
}
