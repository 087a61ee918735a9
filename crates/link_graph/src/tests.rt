//! What no clause says: that the calls succeed where memory is there, frames numbered by hand, and the time
//! of large ones.

ghost use Rattle.std.specs.Prelude.{◌≡◌, ◌<◌, IsTrue, IfSome, All, length, slice_get};
ghost use Rattle.link_graph.specs.Graph.{ReadsBy};
ghost use Rattle.layout_plan.specs.Lent.{IsLinkField};
ghost use Rattle.link_graph.specs.Relinked.{HasLinkBy};
ghost use Rattle.link_graph.specs.Unlinked.{HasPlainLinkBy};

use crate::links::link_bytes;
use crate::{CloseFault, Node, Numbering, Root, Segment, SegmentFault};
use dictionary::{Element, ElementList, Entry};
use layout_plan::{Form, Plan, Plans, measure};
use scalar_types::Order;
use std::alloc::{AllocError, Global};
use std::process::Abort;
use std::test::Fail;
use type_text::{Link, Name};

/// Two links.
const PAIR: u8 = 10;

/// A count and as many links.
const LIST: u8 = 11;

/// A number, and no link.
const PLAIN: u8 = 12;

fn entry(alloc: Global, class: u8, elements: &[(&str, &str)]) -> Result<Entry, AllocError> {
    let mut list = ElementList::new(alloc);
    for (name, text) in elements {
        let name = Name::new(alloc, name.as_bytes())?;
        let text = Name::new(alloc, text.as_bytes())?;
        let comment = Name::new(alloc, b"")?;
        list.push(Element::new(alloc, name, text, comment)?)?;
    }
    Ok(Entry {
        class: u16::from(class),
        name: Name::new(alloc, b"X")?,
        comment: Name::new(alloc, b"")?,
        elements: list,
    })
}

fn plans(alloc: Global) -> Result<Plans, AllocError> {
    let mut plans = Plans::new(alloc);
    learn(
        alloc,
        &mut plans,
        PAIR,
        &[("a", "PTR_STRUCT(X *)"), ("b", "PTR_STRUCT(X *)")],
    )?;
    learn(
        alloc,
        &mut plans,
        LIST,
        &[("n", "INT_2U"), ("v", "PTR_STRUCT(X *)[n]")],
    )?;
    learn(alloc, &mut plans, PLAIN, &[("x", "INT_1U")])?;
    Ok(plans)
}

fn learn(
    alloc: Global,
    plans: &mut Plans,
    class: u8,
    elements: &[(&str, &str)],
) -> Result<(), AllocError> {
    let entry = entry(alloc, class, elements)?;
    if entry.class >= 3 && entry.elements.len() <= 4096 && entry.class <= 255 {
        plans.learn(&entry)?;
    }
    Ok(())
}

fn node(class: u8, instance: u32, root: Root) -> Node {
    Node {
        at: 0,
        class,
        instance,
        root,
    }
}

/// Puts bytes behind the pending body.
fn put(segment: &mut Segment, bytes: &[u8]) -> Result<(), SegmentFault> {
    if bytes.len() as u64 + u64::from(segment.given()) > 4_294_967_295 {
        return Err(SegmentFault::NoMemory);
    }
    if segment.room(bytes.len() as u32).is_err() {
        return Err(SegmentFault::NoMemory);
    }
    segment.piece(bytes);
    Ok(())
}

/// Adds a record whose body is the pending one and these bytes after it.
fn add(segment: &mut Segment, node: Node, bytes: &[u8]) -> Result<u32, SegmentFault> {
    put(segment, bytes)?;
    if segment.len() == u32::MAX {
        return Err(SegmentFault::NoMemory);
    }
    segment.add(node)
}

/// Sets the end record where none is set.
fn set_end(segment: &mut Segment, node: Node) {
    match segment.end_node() {
        Some(_) => {}
        None => segment.set_end(node),
    }
}

/// Whether every body reads by its plan.
fn all_read(segment: &Segment, plans: &Plans) -> bool
    ensures { IsTrue result → All (ReadsBy plans.now segment.now.order) segment.now.nodes }
{
    for k in 0..segment.len() {
        if !reads(segment, plans, k) {
            return false;
        }
    }
    true
}

/// Whether the body of a record reads by its plan.
fn reads(segment: &Segment, plans: &Plans, k: u32) -> bool
    requires { k < length segment.now.nodes }
    ensures { IsTrue result → IfSome (slice_get segment.now.nodes k) (ReadsBy plans.now segment.now.order) }
{
    match plans.plan(segment.node(k).class) {
        Some(plan) => measure(plan, segment.order(), segment.body(k)).is_ok(),
        None => false,
    }
}

/// Sets a link where it is there, and answers whether it was.
fn set_link(segment: &mut Segment, plans: &Plans, node: u32, k: u32, to: Link) -> bool {
    let there = has_link(segment, plans, node, k);
    if there {
        segment.set_link(plans, node, k, to);
    }
    there
}

/// Whether there is such a record, it reads by its plan, and it has a link of this number.
fn has_link(segment: &Segment, plans: &Plans, node: u32, k: u32) -> bool
    ensures within { IsTrue result → node < length segment.now.nodes }
    ensures link { IsTrue result
        → IfSome (slice_get segment.now.nodes node) (HasLinkBy plans.now segment.now.order k) }
{
    if node >= segment.len() {
        return false;
    }
    let Some(plan) = plans.plan(segment.node(node).class) else {
        return false;
    };
    match measure(plan, segment.order(), segment.body(node)) {
        Ok(measured) => u64::from(k) < measured.links,
        Err(_) => false,
    }
}

/// What `close` answers of a segment: the breadth-first order, or the loose link. None where a body does
/// not read.
fn closed(
    alloc: Global,
    segment: &Segment,
    plans: &Plans,
) -> Option<Result<Numbering, CloseFault>> {
    if !all_read(segment, plans) {
        return None;
    }
    Some(segment.close(alloc, plans))
}

/// Class, instance and root of a record, and the bytes of its body.
type Made = (u8, u32, Root, &'static [u8]);

/// Eight records: two that no path ends in, a cycle, a null link, a list of links, and a record that is
/// shared.
const FRAME: [Made; 8] = [
    (PLAIN, 5, Root::No, &[7]),
    (PAIR, 0, Root::Head, &[11, 0, 0, 0, 0, 0, 10, 0, 1, 0, 0, 0]),
    (PAIR, 1, Root::No, &[10, 0, 0, 0, 0, 0, 0, 0, 9, 0, 0, 0]),
    (
        LIST,
        0,
        Root::Stat,
        &[
            3, 0, 10, 0, 1, 0, 0, 0, 12, 0, 6, 0, 0, 0, 11, 0, 0, 0, 0, 0,
        ],
    ),
    (PLAIN, 6, Root::No, &[8]),
    (LIST, 1, Root::Stat, &[1, 0, 12, 0, 7, 0, 0, 0]),
    (PLAIN, 7, Root::No, &[9]),
    (PAIR, 9, Root::No, &[12, 0, 5, 0, 0, 0, 10, 0, 9, 0, 0, 0]),
];

/// A segment of these records.
fn segment_of(alloc: Global, records: &[Made]) -> Result<Segment, SegmentFault> {
    let mut segment = Segment::new(alloc, Order::Little);
    for (class, instance, root, body) in records {
        add(&mut segment, node(*class, *instance, *root), body)?;
    }
    Ok(segment)
}

fn loose(node: u32, link: u64) -> CloseFault {
    CloseFault::LooseLink { node, link }
}

/// Whether this is the breadth-first order of a segment.
fn is_order(alloc: Global, segment: &Segment, plans: &Plans, order: &[u32]) -> bool {
    match closed(alloc, segment, plans) {
        Some(Ok(numbering)) => numbering.sequence() == order,
        _ => false,
    }
}

/// Whether this is the first loose link of a segment.
fn is_loose(alloc: Global, segment: &Segment, plans: &Plans, fault: CloseFault) -> bool {
    match closed(alloc, segment, plans) {
        Some(Err(found)) => found == fault,
        _ => false,
    }
}

#[test]
fn records_are_numbered_breadth_first(rt: HostRuntime) -> Result<(), Fail> {
    let plans = plans(rt.alloc())?;
    let segment = segment_of(rt.alloc(), &FRAME)?;
    assert!(rt;
        is_order(rt.alloc(), &segment, &plans, &[1, 3, 5, 2, 4, 6]),
        "order"
    );
    Ok(())
}

#[test]
fn the_first_loose_link_in_file_order_is_named(rt: HostRuntime) -> Result<(), Fail> {
    let plans = plans(rt.alloc())?;
    let mut segment = segment_of(rt.alloc(), &FRAME)?;
    let nowhere = Link {
        class: 12,
        instance: 8,
    };
    set_end(&mut segment, node(PLAIN, 8, Root::No));
    // The breadth-first order comes to record 3 before record 2.
    assert!(rt; set_link(&mut segment, &plans, 2, 1, nowhere), "2");
    assert!(rt; set_link(&mut segment, &plans, 3, 1, nowhere), "3");
    assert!(rt;
        is_loose(rt.alloc(), &segment, &plans, loose(2, 1)),
        "loose"
    );
    Ok(())
}

#[test]
fn links_are_set_and_roots_are_dropped(rt: HostRuntime) -> Result<(), Fail> {
    let plans = plans(rt.alloc())?;
    let mut segment = segment_of(rt.alloc(), &FRAME)?;
    let there = Link {
        class: 12,
        instance: 7,
    };
    assert!(rt; set_link(&mut segment, &plans, 3, 1, there), "3");
    assert!(rt;
        is_order(rt.alloc(), &segment, &plans, &[1, 3, 5, 2, 6]),
        "linked"
    );
    segment.drop_stat_roots();
    assert!(rt;
        is_order(rt.alloc(), &segment, &plans, &[1, 3, 2, 6]),
        "one root"
    );
    Ok(())
}

/// Keeps the link of a field of a record, and no other, where the record reads and the field is a link without
/// dimension.
fn keep_link(
    alloc: Global,
    segment: &mut Segment,
    plans: &Plans,
    k: u32,
    field: u32,
    to: Link,
) -> Result<bool, AllocError> {
    if k >= segment.len() || !has_plain_link(segment, plans, k, field) {
        return Ok(false);
    }
    segment.keep_link(alloc, plans, k, field, to)?;
    Ok(true)
}

/// Whether a record reads by its plan, in which the field is a link without dimension.
fn has_plain_link(segment: &Segment, plans: &Plans, k: u32, field: u32) -> bool
    requires { k < length segment.now.nodes }
    ensures { IsTrue result → IfSome (slice_get segment.now.nodes k)
        (HasPlainLinkBy plans.now segment.now.order field) }
{
    match plans.plan(segment.node(k).class) {
        Some(plan) => {
            measure(plan, segment.order(), segment.body(k)).is_ok() && is_plain_link(plan, field)
        }
        None => false,
    }
}

/// Whether a field is a link without dimension.
fn is_plain_link(plan: &Plan, field: u32) -> bool
    ensures { IsTrue result → IsLinkField plan.now field }
{
    match plan.fields().get(field as usize) {
        Some(found) => found.counts.is_empty() && matches!(found.form, Form::Link),
        None => false,
    }
}

/// Whether the record of a number has this body.
fn has_body(segment: &Segment, k: u32, body: &[u8]) -> bool {
    k < segment.len() && segment.body(k) == body
}

#[test]
fn one_link_of_a_record_is_kept(rt: HostRuntime) -> Result<(), Fail> {
    let plans = plans(rt.alloc())?;
    let mut segment = segment_of(rt.alloc(), &FRAME)?;
    let there = Link {
        class: 12,
        instance: 7,
    };
    let kept = keep_link(rt.alloc(), &mut segment, &plans, 1, 1, there)?;
    assert!(rt; kept, "kept");
    let want = [0, 0, 0, 0, 0, 0, 12, 0, 7, 0, 0, 0];
    assert!(rt; has_body(&segment, 1, &want), "body");
    Ok(())
}

#[test]
fn a_cleared_segment_is_used_again(rt: HostRuntime) -> Result<(), Fail> {
    let mut segment = Segment::new(rt.alloc(), Order::Big);
    let first = node(PLAIN, 1, Root::No);
    assert_eq!(rt; add(&mut segment, first, &[1]), Ok(0));
    assert_eq!(rt;
        add(&mut segment, first, &[3]),
        Err(SegmentFault::InstanceTwice)
    );
    set_end(&mut segment, first);
    assert_eq!(rt; segment.end_body(), [3].as_slice());
    segment.clear();
    assert_eq!(rt; segment.end_body(), [].as_slice());
    assert_eq!(rt; add(&mut segment, first, &[4, 5]), Ok(0));
    assert_eq!(rt; segment.given(), 2);
    Ok(())
}

/// How many records the large frames have.
const MANY: u32 = 1_000_000;

/// A chain of records, each with a link to the one whose instance follows, that come in the order of these
/// steps.
fn chain(alloc: Global, step: u32) -> Result<Segment, SegmentFault> {
    let mut segment = Segment::new(alloc, Order::Little);
    let mut instance = 0;
    for _ in 0..MANY {
        let root = if instance == 0 { Root::Head } else { Root::No };
        let next = if instance < MANY - 1 { instance + 1 } else { 0 };
        let class = if next == 0 { 0 } else { u16::from(PAIR) };
        let to = Link {
            class,
            instance: next,
        };
        put(&mut segment, &link_bytes(Order::Little, to))?;
        add(&mut segment, node(PAIR, instance, root), &[0; 6])?;
        instance = (instance % MANY + step % MANY) % MANY;
    }
    Ok(segment)
}

/// Whether such a chain is numbered, and the segment cleared.
fn is_numbered(alloc: Global, step: u32) -> Result<bool, SegmentFault> {
    let plans = match plans(alloc) {
        Ok(plans) => plans,
        Err(AllocError) => return Err(SegmentFault::NoMemory),
    };
    let mut segment = chain(alloc, step)?;
    let numbered = match closed(alloc, &segment, &plans) {
        Some(Ok(numbering)) => numbering.sequence().len() == MANY as usize,
        _ => false,
    };
    segment.clear();
    Ok(numbered && segment.len() == 0)
}

#[test]
fn a_million_records_in_order(rt: HostRuntime) -> Result<(), Fail> {
    assert_eq!(rt; is_numbered(rt.alloc(), 1), Ok(true));
    Ok(())
}

#[test]
fn a_million_records_reversed(rt: HostRuntime) -> Result<(), Fail> {
    assert_eq!(rt; is_numbered(rt.alloc(), MANY - 1), Ok(true));
    Ok(())
}

#[test]
fn a_million_records_shuffled(rt: HostRuntime) -> Result<(), Fail> {
    assert_eq!(rt; is_numbered(rt.alloc(), 618_033), Ok(true));
    Ok(())
}
