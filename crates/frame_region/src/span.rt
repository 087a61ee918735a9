//! Spans: names of parts of a region.

/// A part of a region's bytes. It is live until the region is cleared.
#[derive(Clone, Copy, Debug, PartialEq, Eq)]
pub struct Span {
    /// Where it begins.
    pub at: u32,
    /// How many bytes it has.
    pub length: u32,
    /// How often the region had been cleared when it was given.
    pub era: u64,
}
