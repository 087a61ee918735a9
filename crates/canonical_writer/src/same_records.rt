//! Frames that stand alike: the same records one after another. By the same entries they are written alike, so nothing
//! of them need be read.

ghost use Rattle.std.specs.Prelude.{◌≡◌, ◌<◌, IsTrue, length, slice_get};
ghost use Rattle.std.specs.Option.{option_map};
ghost use Rattle.canonical_writer.specs.StandingAlike.{HoldAlike, StandAlike, stored};

use crate::frame_part::FrameSource;
use link_graph::Segment;

/// Whether two frames have the same records, one after another, and the same order to write them in. Where it says no
/// they may be the same yet.
pub fn stand_alike(first: &FrameSource<'_>, second: &FrameSource<'_>) -> bool
    ensures { IsTrue result → StandAlike first.now second.now }
{
    first.segment.order() == second.segment.order()
        && first.order == second.order
        && hold_alike(first.segment, second.segment)
}

/// Whether two segments have the same records, number by number.
fn hold_alike(first: &Segment, second: &Segment) -> bool
    ensures { IsTrue result → HoldAlike first.now.nodes second.now.nodes }
{
    if first.len() != second.len() {
        return false;
    }
    for k in 0..first.len() {
        if !is_stored_alike(first, second, k) {
            return false;
        }
    }
    true
}

/// Whether the records of a number have the same class, instance and body.
fn is_stored_alike(first: &Segment, second: &Segment, k: u32) -> bool
    requires first { k < length first.now.nodes }
    requires second { k < length second.now.nodes }
    ensures { IsTrue result
        → option_map stored (slice_get first.now.nodes k) ≡ option_map stored (slice_get second.now.nodes k) }
{
    let (node, other) = (first.node(k), second.node(k));
    node.class == other.class && node.instance == other.instance && first.body(k) == second.body(k)
}
