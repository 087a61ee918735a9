//! A file read through a slot, structure by structure: the 14 bytes that stand at a place, and bodies piece
//! by piece.
#![tactic(auto)]

mod source;
#[cfg(test)]
mod tests;

pub use source::{Head, StructureSource};
