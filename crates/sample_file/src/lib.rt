//! The sample file that `make` writes: frames of three channels, to try the tools on.
//!
//! From the bottom: `entries` has the dictionary, `records` the values of a frame's records, `frames` puts a frame
//! together, `files` writes the file, frame after frame, and `laws` has what holds of its bytes.
#![tactic(auto)]

mod entries;
mod files;
mod frames;
pub mod laws;
mod records;

pub use files::{FRAMES_AT_MOST, make_file};

#[cfg(test)]
mod tests;
