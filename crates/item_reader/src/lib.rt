//! A file's items one after another, and its first fault: the reader, which holds one frame at a time.
#![tactic(auto)]

mod cursor;
mod ended;
mod entries;
mod frame;
mod item;
mod laws;
mod looked;
mod opening;
mod reader;
mod roles;
mod rules;
mod state;
mod steps;
mod structure;

pub use file_grammar::{Fault, Reason};
pub use item::{Item, ReadError};
pub use laws::looks_bound_readers;
pub use reader::ItemReader;
