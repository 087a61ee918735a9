//! The frame of a segment, cut at a channel where it stands.

ghost use Rattle.std.specs.Prelude.{◌≡◌, ◌<◌, ℕ, List, All, IfSome, IsSomeAnd, OnOk, IsTrue, length, slice_get};
ghost use Rattle.dictionary.specs.declared.entries.Entry.{Entry};
ghost use Rattle.link_graph.specs.Graph.{ReadsBy, first_loose};
ghost use Rattle.link_graph.specs.Unlinked.{HasPlainLinkBy};
ghost use Rattle.frame_content.specs.Frames.{frame_of, label_at, row_at};
ghost use Rattle.contents_table.specs.declared.layouts.ChannelLayouts.{ChannelLayouts};
ghost use Rattle.contents_table.specs.Layouts.{AreOf, HasPlainLink, IsHeadField, IsNextField};
ghost use Rattle.channel_extract.specs.Cuts.{cut, only_link, without_link, head_link, next_link};
ghost use Rattle.channel_extract.specs.Cutting.{IsChannelIn, KeepsRecords, IsTarget, relinked_at, HaveSameNodes};
ghost use Rattle.channel_extract.specs.Cutting.{IsSoundBy, with_roots};

use contents_table::{ChannelLayouts, Kind, header_record, upper_record};
use layout_plan::{Form, Plans};
use link_graph::Segment;
use std::alloc::{AllocError, Global};
use type_text::Link;

/// Cuts the frame of a segment at the channel of this number of a kind: FrameH leads to FrRawData alone and that to the
/// channel alone, or FrameH to the channel alone where the kind is under it; the plain link `next` of the channel is
/// null, and static data are no roots. The records stay, each with its class and instance.
///
/// Every body reads by the plans. The cut is that of the definition where the plans and the layouts are those of one
/// dictionary, and the channel is that of a name. It takes time by the bodies of the records that it changes, and for a
/// while as much memory. Where that is not there, some of the links may have been changed.
pub fn cut_segment(
    alloc: Global,
    segment: &mut Segment,
    plans: &Plans,
    layouts: &ChannelLayouts,
    kind: Kind,
    channel: u32,
) -> Result<(), AllocError>
    requires bodies { All (ReadsBy plans.now segment.old.order) segment.old.nodes }
    requires channel { channel < length segment.old.nodes }
    ensures cut { OnOk result ((held : List Entry)
        → IsChannelIn held plans.now layouts.now segment.old kind channel
        → frame_of held segment.new ≡ cut (frame_of held segment.old) kind channel) }
    ensures records { OnOk result (KeepsRecords plans.now segment.old segment.new) }
    ensures linked { OnOk result (first_loose plans.now segment.old ≡ None → first_loose plans.now segment.new ≡ None) }
{
    lead_to_channel(alloc, segment, plans, layouts, kind, channel)?;
    segment.drop_stat_roots();
    Ok(())
}

/// Leads FrameH to the channel alone, by FrRawData where the kind is under that, and ends the list of channels there.
/// The roots stay. Where there is no FrameH, or no record above the channels, nothing is changed.
fn lead_to_channel(
    alloc: Global,
    segment: &mut Segment,
    plans: &Plans,
    layouts: &ChannelLayouts,
    kind: Kind,
    channel: u32,
) -> Result<(), AllocError>
    requires bodies { All (ReadsBy plans.now segment.old.order) segment.old.nodes }
    requires channel { channel < length segment.old.nodes }
    ensures cut { OnOk result ((held : List Entry)
        → IsChannelIn held plans.now layouts.now segment.old kind channel
        → frame_of held segment.new ≡ with_roots (frame_of held segment.old).roots
        (cut (frame_of held segment.old) kind channel)) }
    ensures nodes { OnOk result (HaveSameNodes segment.old segment.new) }
    ensures records { OnOk result (KeepsRecords plans.now segment.old segment.new) }
    ensures linked { OnOk result (first_loose plans.now segment.old ≡ None → first_loose plans.now segment.new ≡ None) }
{
    let Some(header) = header_record(segment, layouts) else {
        return Ok(());
    };
    let Some(upper) = upper_record(segment, plans, layouts, kind) else {
        return Ok(());
    };
    let to_channels = layouts.head_field(kind);
    lead_only(alloc, segment, plans, upper, to_channels, channel)?;
    let to_raw_data = layouts.raw_data_field();
    lead_only(alloc, segment, plans, header, to_raw_data, upper)?;
    end_list(segment, plans, channel, layouts.next_field(kind));
    Ok(())
}

/// Leads the plain link of a field of a record to another record, and makes all its other links null. A record stays as
/// it is where the other is itself.
fn lead_only(
    alloc: Global,
    segment: &mut Segment,
    plans: &Plans,
    node: u32,
    field: Option<u32>,
    to: u32,
) -> Result<(), AllocError>
    requires bodies { All (ReadsBy plans.now segment.old.order) segment.old.nodes }
    requires node { node < length segment.old.nodes }
    requires to { to < length segment.old.nodes }
    ensures links { OnOk result ((held : List Entry) (of : ChannelLayouts) (name : List ℕ) → (node ≡ to → ⊥)
        → AreOf held plans.now of → IsSomeAnd field (IsHeadField held plans.now segment.old name node)
        → IsTarget segment.old to
        → frame_of held segment.new ≡ relinked_at (frame_of held segment.old) node
        (only_link (head_link name (label_at (frame_of held segment.old) node)) to
        (row_at (frame_of held segment.old) node).links)) }
    ensures same { node ≡ to → segment.new ≡ segment.old }
    ensures nodes { OnOk result (HaveSameNodes segment.old segment.new) }
    ensures records { OnOk result (KeepsRecords plans.now segment.old segment.new) }
    ensures linked { OnOk result (first_loose plans.now segment.old ≡ None → first_loose plans.now segment.new ≡ None) }
{
    if node == to {
        return Ok(());
    }
    let Some(field) = field else {
        return Ok(());
    };
    if !is_plain_link(segment, plans, node, field) {
        return Ok(());
    }
    let to = segment.node(to);
    let link = Link {
        class: u16::from(to.class),
        instance: to.instance,
    };
    segment.keep_link(alloc, plans, node, field, link)
}

/// Makes the plain link `next` of a record null, where it has one.
fn end_list(segment: &mut Segment, plans: &Plans, node: u32, field: Option<u32>)
    requires bodies { All (ReadsBy plans.now segment.old.order) segment.old.nodes }
    requires node { node < length segment.old.nodes }
    ensures links { (held : List Entry) (of : ChannelLayouts) → AreOf held plans.now of
        → IsNextField held plans.now segment.old node field
        → frame_of held segment.new ≡ relinked_at (frame_of held segment.old) node
        (without_link (next_link (label_at (frame_of held segment.old) node))
        (row_at (frame_of held segment.old) node).links) }
    ensures nodes { HaveSameNodes segment.old segment.new }
    ensures records { KeepsRecords plans.now segment.old segment.new }
    ensures linked { first_loose plans.now segment.old ≡ None → first_loose plans.now segment.new ≡ None }
{
    let Some(field) = field else {
        return;
    };
    if is_plain_link(segment, plans, node, field) {
        let nowhere = Link {
            class: 0,
            instance: 0,
        };
        segment.set_plain_link(plans, node, field, nowhere);
    }
}

/// Whether a field of a record is a plain link.
fn is_plain_link(segment: &Segment, plans: &Plans, node: u32, field: u32) -> bool
    requires bodies { All (ReadsBy plans.now segment.now.order) segment.now.nodes }
    requires node { node < length segment.now.nodes }
    ensures plain { IsTrue result
        → IfSome (slice_get segment.now.nodes node) (HasPlainLinkBy plans.now segment.now.order field) }
    ensures other { HasPlainLink plans.now segment.now node field → IsTrue result }
    ensures sound { IsTrue result → IfSome (slice_get segment.now.nodes node) (IsSoundBy plans.now) }
{
    let Some(plan) = plans.plan(segment.node(node).class) else {
        return false;
    };
    let Some(found) = plan.fields().get(field as usize) else {
        return false;
    };
    found.counts.is_empty() && matches!(found.form, Form::Link)
}
