//! The entries by which a frame file describes its structures, and the dictionary that keeps them.
#![tactic(auto)]

mod entries;
mod held;
mod named;
mod same;

pub use entries::{Element, ElementList, Entry};
pub use held::{AddFault, Dictionary};
pub use named::{first_named, has_type};
pub use same::same_entry;

#[cfg(test)]
mod tests;
