//! Values written as the body of a record, by the plan of its layout.
//!
//! `body_length` tells whether values fit a plan and how long their body is; `write_body` writes it.
#![tactic(auto)]

mod bodies;
mod fitting;
mod laws;
mod lengths;
mod spelling;

pub use bodies::{body_length, write_body};
pub use laws::read_values_fit;

#[cfg(test)]
mod tests;
