//! One frame being collected: its records with their bodies, the targets of their links, and the
//! breadth-first order of the records that some path from a root ends in.
#![tactic(auto)]

mod closing;
mod frame_links;
mod index;
mod links;
mod nodes;
mod records;
mod relinking;
mod rows;
mod segment;
mod targets;
#[cfg(test)]
mod tests;

pub use closing::CloseFault;
pub use frame_links::FrameLinks;
pub use nodes::{Node, Root};
pub use rooted_graph::Numbering;
pub use segment::{Segment, SegmentFault};
