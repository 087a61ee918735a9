//! The heads of an IGWD frame file, format version 8: the header at the beginning of the file, and the
//! 14 bytes that stand before the body of each structure.
#![tactic(auto)]

mod header;
mod structure;
#[cfg(test)]
mod tests;

pub use header::{HEADER_SIZE, HeadFault, read_header, write_header};
pub use structure::{Common, HEAD_SIZE, read_common, write_common};
