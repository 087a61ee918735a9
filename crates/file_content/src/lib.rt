//! What a well-formed file holds: how many frames and records, the names of its channels, and the state of its contents
//! table.
#![tactic(auto)]

mod contents;
mod laws;
mod scan;
mod state;

pub use contents::{Contents, read_contents};
pub use laws::each_file_has_one_content;
pub use state::TableState;
