//! The canonical file of frames: the one spelling of what they hold, part by part.
//!
//! These are definitions, and `laws` has what follows from them. No file is read or written here.
#![tactic(auto)]

mod closing;
pub mod laws;

pub use closing::Closing;
