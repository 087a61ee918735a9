//! Which files are well-formed, what their items are, and the first fault of any other file: definitions,
//! laws, and the names of reasons and kinds.
#![tactic(auto)]

pub mod closing;
mod fault;
mod kind;
mod laws;
mod limits;
mod reason;

pub use fault::Fault;
pub use kind::{Kind, kind_of};
pub use laws::{
    files_are_judged_once, items_are_unique, items_before_faults_are_unique, reasons_are_least,
};
pub use limits::{FILE_LIMIT, FRAMES_LIMIT, RECORD_LIMIT, size_reason};
pub use reason::Reason;
