//! Rooted graphs: when two are equal, and the one breadth-first order of each.
//!
//! `laws` has the mathematics, `Numbering` computes the order of anything that is `LinkedNodes`.
#![tactic(auto)]

pub mod laws;
mod linked_nodes;
mod numbering;
mod queue;
#[cfg(test)]
mod tests;

pub use linked_nodes::LinkedNodes;
pub use numbering::Numbering;
