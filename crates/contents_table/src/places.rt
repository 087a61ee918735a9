//! Where the records of a segment stand.

ghost use Rattle.std.specs.Prelude.{◌≡◌, ◌<◌, length};
ghost use Rattle.contents_table.specs.Built.{place_of, places_in};

use link_graph::Segment;

/// Where the records of a segment stand, in bytes from the beginning of a file.
#[derive(Clone, Copy)]
pub enum Places<'a> {
    /// In the file that they were read from.
    OfSource,
    /// In a file that is written, by their numbers; 0 for a record that is not written.
    At(&'a [u64]),
}

impl Places<'_> {
    /// The place of a record, and 0 behind the last place that was given.
    pub fn of(self, segment: &Segment, node: u32) -> u64
        requires { node < length segment.now.nodes }
        ensures { result ≡ place_of (places_in segment.now.nodes self.entry) node }
    {
        match self {
            Places::OfSource => segment.node(node).at,
            Places::At(places) => places.get(node as usize).copied().unwrap_or(0),
        }
    }
}
