//! A region: the bodies of one frame one after another, in memory that is reserved before it is used,
//! and spans that name them until the region is cleared.
#![tactic(auto)]

mod region;
mod span;
#[cfg(test)]
mod tests;

pub use region::{MOST_BYTES, Region, RegionFault};
pub use span::Span;
