//! Files joined frame after frame into one canonical file. A copy is the splice of one file.
#![tactic(auto)]

mod errors;
mod inputs;
mod laws;
mod splices;

pub use canonical_writer::Summary;
pub use errors::SpliceError;
pub use laws::{
    copies_are_done, copies_tell_contents, each_splice_has_one_due, splices_are_whole_or_refused,
};
pub use splices::splice;
