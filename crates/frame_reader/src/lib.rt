//! The frames of a file, one after another, and the closing at its end.
#![tactic(auto)]

mod closings;
mod laws;
mod reader;

pub use laws::each_file_gives_once;
pub use reader::FrameReader;
