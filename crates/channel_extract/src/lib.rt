//! The frames of one channel, taken out of a file: by reading all of it, or by its contents table.
#![tactic(auto)]

mod cutting;
mod errors;
pub mod laws;
pub mod table_laws;

pub use canonical_writer::Summary;
pub use cutting::cut_segment;
pub use errors::ExtractError;
