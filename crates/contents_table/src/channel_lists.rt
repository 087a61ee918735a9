//! The channels of a frame: a list of records for each kind, linked by `next`.

ghost use Rattle.std.specs.Prelude.{◌≡◌, ◌==◌, ◌<◌, ◌≤◌, ◌↔◌, ℕ, List, All, Contains, IfOk, IfSome, OnSome};
ghost use Rattle.std.specs.Prelude.{Some, IsSome, IsSomeAnd, length, position, option_map};
ghost use Rattle.dictionary.specs.declared.entries.Entry.{Entry};
ghost use Rattle.dictionary.specs.Dictionary.{IsDictionary, class_named};
ghost use Rattle.layout_plan.specs.declared.fields.Form.{Form};
ghost use Rattle.layout_plan.specs.Body.{HasBody};
ghost use Rattle.layout_plan.specs.Lent.{IsSingleField, IsTextField, IsLinkField, HasTextAt, HasPlainLinkAt};
ghost use Rattle.layout_plan.specs.Plans.{plan_of};
ghost use Rattle.link_graph.specs.Graph.{Layouts, ReadsBy};
ghost use Rattle.file_grammar.specs.Record.{layout_in};
ghost use Rattle.frame_content.specs.Frames.{frame_of, label_at};
ghost use Rattle.contents_table.specs.Channels.{channels, name_of, structure_of, upper, target};
ghost use Rattle.contents_table.specs.Channels.{first_channel, next_channel, channel_named, has_name};
ghost use Rattle.contents_table.specs.Channels.{frame_header, header_of};
ghost use Rattle.contents_table.specs.Layouts.{AreOf, list_in, upper_of, HasPlainLink, IsNamed, IsOfClass};

use crate::kind::Kind;
use crate::layouts::{ChannelLayouts, Head};
use layout_plan::{Form, Plan, Plans, plain_link_at, text_at};
use link_graph::Segment;
use scalar_types::Order;
use std::alloc::{AllocError, Global};
use type_text::{ItemList, Link};

/// Records of a frame by their numbers.
pub type NodeList = ItemList<u32>;

/// The channels of a kind in a frame, by the numbers of their records, in the order of the walk: from the
/// head of their list through the plain link `next`, up to null, to a record of another structure or to one
/// that was met before.
///
/// Every body reads by the plans. The answer is that of the definition where the plans and the layouts are
/// those of one dictionary; a field that is no plain link by the plans leads nowhere. The time is linear in
/// the records of the frame, and in the bytes of the bodies walked over.
pub fn channels(
    alloc: Global,
    segment: &Segment,
    plans: &Plans,
    layouts: &ChannelLayouts,
    kind: Kind,
) -> Result<NodeList, AllocError>
    requires bodies { All (ReadsBy plans.now segment.now.order) segment.now.nodes }
    ensures channels { IfOk result (λ nodes. (held : List Entry) → AreOf held plans.now layouts.now
        → nodes ≡ channels (frame_of held segment.now) kind) }
    ensures within { IfOk result (λ nodes. All (λ n. n < length segment.now.nodes) nodes) }
{
    let mut nodes = NodeList::new(alloc);
    let Some(first) = first_channel(segment, plans, layouts, kind) else {
        return Ok(nodes);
    };
    let mut met = vec![in alloc; false; segment.len() as usize]?;
    let mut at = Some(first);
    while let Some(node) = at {
        if met[node as usize] {
            break;
        }
        met[node as usize] = true;
        nodes.push(node)?;
        at = next_channel(segment, plans, layouts, kind, node);
    }
    Ok(nodes)
}

/// The name of a channel, lent from its body: at most 65,534 bytes. None where its structure has no text
/// `name`.
///
/// Every body reads by the plans. The answer is that of the definition where the plans and the layouts are
/// those of one dictionary. Takes no memory.
pub fn channel_name<'a>(
    segment: &'a Segment,
    plans: &Plans,
    layouts: &ChannelLayouts,
    kind: Kind,
    node: u32,
) -> Option<&'a [u8]>
    requires node { node < length segment.now.nodes }
    requires bodies { All (ReadsBy plans.now segment.now.order) segment.now.nodes }
    ensures name { (held : List Entry) → AreOf held plans.now layouts.now
        → Contains (channels (frame_of held segment.now) kind) node
        → option_map (λ name. name.now) result ≡ name_of (label_at (frame_of held segment.now) node) }
    ensures short { IfSome result (λ name. length name.now ≤ 65534) }
{
    let field = layouts.list(kind)?.name?;
    let plan = plans.plan(segment.node(node).class)?;
    single_text(plan, segment.order(), segment.body(node), field)
}

/// The channel of a name: the number of the first record among the channels of a kind whose name it is. None where no
/// channel of the frame has it.
///
/// Every body reads by the plans. The answer is that of the definition where the plans and the layouts are
/// those of one dictionary. The time is linear in the records of the frame, and in the bytes of the bodies
/// walked over.
pub fn channel_named(
    alloc: Global,
    segment: &Segment,
    plans: &Plans,
    layouts: &ChannelLayouts,
    kind: Kind,
    name: &[u8],
) -> Result<Option<u32>, AllocError>
    requires bodies { All (ReadsBy plans.now segment.now.order) segment.now.nodes }
    ensures channel { IfOk result (λ found. (held : List Entry) → AreOf held plans.now layouts.now
        → found ≡ channel_named (frame_of held segment.now) kind name.now) }
    ensures named { IfOk result (λ found. (held : List Entry) → AreOf held plans.now layouts.now
        → IfSome found (IsNamed held segment.now (structure_of kind))) }
    ensures first { IfOk result (λ found. (held : List Entry) → AreOf held plans.now layouts.now
        → IsSome found → IsSome (first_channel (frame_of held segment.now) kind)) }
    ensures within { IfOk result (λ found. IfSome found (λ n. n < length segment.now.nodes)) }
{
    let nodes = channels(alloc, segment, plans, layouts, kind)?;
    for node in nodes.as_slice() {
        if has_name(segment, plans, layouts, kind, *node, name) {
            return Ok(Some(*node));
        }
    }
    Ok(None)
}

/// Whether a channel has this name.
fn has_name(
    segment: &Segment,
    plans: &Plans,
    layouts: &ChannelLayouts,
    kind: Kind,
    node: u32,
    name: &[u8],
) -> bool
    requires node { node < length segment.now.nodes }
    requires bodies { All (ReadsBy plans.now segment.now.order) segment.now.nodes }
    ensures { (held : List Entry) → AreOf held plans.now layouts.now
        → Contains (channels (frame_of held segment.now) kind) node
        → result ≡ has_name name.now (label_at (frame_of held segment.now) node) }
{
    match channel_name(segment, plans, layouts, kind, node) {
        Some(own) => name == own,
        None => false,
    }
}

/// The text of a field, where that is one without dimension.
fn single_text<'a>(plan: &Plan, order: Order, body: &'a [u8], field: u32) -> Option<&'a [u8]>
    requires { HasBody order plan.now body.now }
    ensures text { IsTextField plan.now field
        → IsSomeAnd result (λ text. HasTextAt order plan.now body.now field text.now) }
    ensures short { IfSome result (λ text. length text.now ≤ 65534) }
{
    match single_form(plan, field)? {
        Form::Text => Some(lent_text(plan, order, body, field)),
        _ => None,
    }
}

/// The form of a field, where that is one without dimension.
fn single_form(plan: &Plan, field: u32) -> Option<Form>
    ensures { (form : Form) → result ≡ Some form ↔ IsSingleField plan.now field form }
{
    let found = plan.fields().get(field as usize)?;
    if !found.counts.is_empty() {
        return None;
    }
    Some(found.form)
}

/// The first record of a list of channels.
fn first_channel(
    segment: &Segment,
    plans: &Plans,
    layouts: &ChannelLayouts,
    kind: Kind,
) -> Option<u32>
    requires bodies { All (ReadsBy plans.now segment.now.order) segment.now.nodes }
    ensures first { (held : List Entry) → AreOf held plans.now layouts.now
        → result ≡ first_channel (frame_of held segment.now) kind }
    ensures named { (held : List Entry) → AreOf held plans.now layouts.now
        → IfSome result (IsNamed held segment.now (structure_of kind)) }
    ensures within { IfSome result (λ n. n < length segment.now.nodes) }
    ensures list { OnSome result (IsSome (list_in layouts.now kind)) }
{
    let upper = upper_record(segment, plans, layouts, kind)?;
    let list = layouts.list(kind)?;
    target(segment, plans, upper, list.head)
}

/// The record that describes the whole frame.
///
/// The answer is that of the definition where every body reads by the plans, and the plans and the layouts are
/// those of one dictionary. Takes no memory.
pub fn header_record(segment: &Segment, layouts: &ChannelLayouts) -> Option<u32>
    ensures header { (held : List Entry) (plans : Layouts) → AreOf held plans layouts.now
        → All (ReadsBy plans segment.now.order) segment.now.nodes
        → result ≡ header_of (frame_of held segment.now) }
    ensures named { (held : List Entry) (plans : Layouts) → AreOf held plans layouts.now
        → IfSome result (IsNamed held segment.now frame_header) }
    ensures within { IfSome result (λ n. n < length segment.now.nodes) }
{
    header(segment, layouts.frame_header?)
}

/// The record under which the channels of a kind are: FrameH, or the FrRawData to which it leads.
///
/// Every body reads by the plans. The answer is that of the definition where the plans and the layouts are
/// those of one dictionary. Takes no memory.
pub fn upper_record(
    segment: &Segment,
    plans: &Plans,
    layouts: &ChannelLayouts,
    kind: Kind,
) -> Option<u32>
    requires bodies { All (ReadsBy plans.now segment.now.order) segment.now.nodes }
    ensures upper { (held : List Entry) → AreOf held plans.now layouts.now
        → result ≡ upper (frame_of held segment.now) kind }
    ensures named { (held : List Entry) → AreOf held plans.now layouts.now
        → IfSome result (IsNamed held segment.now (upper_of kind)) }
    ensures within { IfSome result (λ n. n < length segment.now.nodes) }
{
    let frame_header = header(segment, layouts.frame_header?)?;
    if kind.is_under_raw_data() {
        target(segment, plans, frame_header, layouts.raw_data?)
    } else {
        Some(frame_header)
    }
}

/// The first record of a class.
pub fn header(segment: &Segment, class: u8) -> Option<u32>
    ensures { result ≡ position (λ r. r.node.class == class) segment.now.nodes }
{
    for node in 0..segment.len() {
        if segment.node(node).class == class {
            return Some(node);
        }
    }
    None
}

/// The channel after a channel.
fn next_channel(
    segment: &Segment,
    plans: &Plans,
    layouts: &ChannelLayouts,
    kind: Kind,
    node: u32,
) -> Option<u32>
    requires bodies { All (ReadsBy plans.now segment.now.order) segment.now.nodes }
    requires list { IsSome (list_in layouts.now kind) }
    requires node { node < length segment.now.nodes }
    requires named { (held : List Entry) → AreOf held plans.now layouts.now
        → IsNamed held segment.now (structure_of kind) node }
    ensures next { (held : List Entry) → AreOf held plans.now layouts.now
        → result ≡ next_channel (frame_of held segment.now) (structure_of kind) node }
    ensures named { (held : List Entry) → AreOf held plans.now layouts.now
        → IfSome result (IsNamed held segment.now (structure_of kind)) }
    ensures within { IfSome result (λ n. n < length segment.now.nodes) }
{
    let list = layouts.list(kind)?;
    let to = Head {
        field: list.next?,
        class: list.head.class,
    };
    target(segment, plans, node, to)
}

/// The record of a class to which a plain link of a record leads.
fn target(segment: &Segment, plans: &Plans, node: u32, to: Head) -> Option<u32>
    requires node { node < length segment.now.nodes }
    requires bodies { All (ReadsBy plans.now segment.now.order) segment.now.nodes }
    ensures target { (held : List Entry) (name : List ℕ)
        → ((class : ℕ) → plan_of plans.now class ≡ layout_in held class)
        → IsDictionary held → class_named held name ≡ Some to.class
        → HasPlainLink plans.now segment.now node to.field
        → result ≡ target (frame_of held segment.now) name node (Some to.field) }
    ensures class { IfSome result (IsOfClass segment.now to.class) }
{
    let plan = plans.plan(segment.node(node).class)?;
    let link = single_link(plan, segment.order(), segment.body(node), to.field)?;
    if link.class != u16::from(to.class) {
        return None;
    }
    segment.target(link)
}

/// A link, read out of line: to find its place may take room for all fields of a layout, and a compiler that joins such
/// room with a way out before it is known to lose a register.
#[inline(never)]
fn lent_link(plan: &Plan, order: Order, body: &[u8], field: u32) -> Link
    requires body { HasBody order plan.now body.now }
    requires field { field < length plan.now }
    requires link { IsLinkField plan.now field }
    ensures { HasPlainLinkAt order plan.now body.now field result }
{
    plain_link_at(plan, order, body, field)
}

/// A text, read out of line for the same reason.
#[inline(never)]
fn lent_text<'a>(plan: &Plan, order: Order, body: &'a [u8], field: u32) -> &'a [u8]
    requires body { HasBody order plan.now body.now }
    requires field { field < length plan.now }
    requires text { IsTextField plan.now field }
    ensures { HasTextAt order plan.now body.now field result.now }
{
    text_at(plan, order, body, field)
}

/// The link of a field, where that is one without dimension.
fn single_link(plan: &Plan, order: Order, body: &[u8], field: u32) -> Option<Link>
    requires { HasBody order plan.now body.now }
    ensures { IsLinkField plan.now field → IsSomeAnd result (HasPlainLinkAt order plan.now body.now field) }
{
    match single_form(plan, field)? {
        Form::Link => Some(lent_link(plan, order, body, field)),
        _ => None,
    }
}
