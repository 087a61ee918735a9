//! Canonical files written frame by frame: the one file of its content.
//!
//! `CanonWriter` puts each frame to its slot as it comes, in little-endian order, each class with its entry before its
//! first record, and at the end the contents table and FrEndOfFile. `FrameComparer` tells whether frames of two files
//! would be written alike.
#![tactic(auto)]

mod closing_part;
mod comparing;
mod end_values;
mod entries;
mod errors;
mod frame_part;
mod instances;
mod records;
mod same_records;
mod used;
mod writer;

pub use comparing::{FrameComparer, are_closed_alike};
pub use errors::WriteError;
pub use frame_part::FrameSource;
pub use writer::{CanonWriter, Summary};
