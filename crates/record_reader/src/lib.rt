//! The values of a record's body, read by the plan of its layout.
#![tactic(auto)]

mod cursor;
mod fields;
mod lists;
mod reading;

pub use reading::{BodyError, read_body};

#[cfg(test)]
mod tests;
