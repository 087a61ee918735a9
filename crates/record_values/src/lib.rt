//! The values of a record's fields, and how each item of them is spelled in bytes.
//!
//! `specs/` defines the spelling of an item; here are the values and the test whether they are equal.
#![tactic(auto)]

mod values;

pub use values::{LinkList, NumList, PairList, TextList, Value, ValueList, same_values};

#[cfg(test)]
mod tests;
