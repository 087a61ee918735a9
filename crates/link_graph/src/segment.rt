//! A frame's records as they are collected.

ghost use Rattle.std.specs.Prelude.{◌≡◌, ◌+◌, ◌-◌, ◌<◌, ◌≤◌, ◌↔◌, [], ◌++◌, None, Some, length, map};
ghost use Rattle.std.specs.Prelude.{slice_get, IfOk, IfSome, OnOk, OnErr, IsErrOf, IsTrue};
ghost use Rattle.std.specs.Option.{option_map, option_copied, option_map_or};
ghost use Rattle.link_graph.specs.Collected.{Collected, Bodied, Becomes, nothing_in, with_node, with_end};
ghost use Rattle.link_graph.specs.Collected.{without_stat, target_of, is_held};
ghost use Rattle.link_graph.specs.Relinked.{HasLinkBy, SetsLink, IsLinkOf};
ghost use Rattle.link_graph.specs.Unlinked.{Overwrites};

use crate::index::PushFault;
use crate::links::link_bytes;
use crate::nodes::{Kept, Node};
use crate::records::Records;
use frame_region::{Region, RegionFault, Span};
use layout_plan::{Plans, link_start};
use scalar_types::Order;
use std::alloc::{AllocError, Global};
use std::marker::Model;
use thiserror::Error;
use type_text::Link;

/// Why a record was not added.
#[derive(Clone, Copy, Debug, PartialEq, Eq, Error)]
pub enum SegmentFault {
    /// A record of its class and instance is held.
    #[error("InstanceTwice")]
    InstanceTwice,
    /// There was no memory.
    #[error("NoMemory")]
    NoMemory,
}

/// The records of one frame with their bodies, numbered from 0.
///
/// A body comes in pieces: `room` reserves memory for a piece, `piece` puts it behind the pending body, and
/// `add` or `set_end` give that body to a record.
#[derive(Drop)]
pub struct Segment {
    order: Order,
    /// The bodies, with those that were forgotten.
    region: Region,
    records: Records,
    end: Option<Kept>,
    /// The body that no record has yet. It ends where the region's bytes end.
    pending: Span,
}

impl Model for Segment {
    ghost use Rattle.link_graph.specs.Collected.{Collected};
    ghost use Rattle.link_graph.specs.Kept.{segment_view, AreKept};

    ghost Value = { Collected };

    ghost view = { λ s. segment_view s.order s.region s.records s.end s.pending };

    ghost invariant = { λ s. AreKept s.region s.records s.end s.pending };
}

impl Segment {
    /// A segment without records, for bodies in a byte order. It takes no memory yet.
    pub fn new(alloc: Global, order: Order) -> Segment
        ensures { result ≡ nothing_in order }
    {
        let mut region = Region::new(alloc);
        let pending = region.put(&[]);
        Segment {
            order,
            region,
            records: Records::new(alloc),
            end: None,
            pending,
        }
    }

    /// Makes the spare at least n bytes. What was given and n more are at most 4,294,967,295 bytes. After a
    /// refusal nothing has changed.
    pub fn room(&mut self, n: u32) -> Result<(), AllocError>
        requires { self.old.given + n ≤ 4294967295 }
        ensures ok { OnOk result (n ≤ self.new.spare) }
        ensures kept { Becomes self.new self.old }
        ensures spare { self.old.spare ≤ self.new.spare }
        ensures err { OnErr result (self.new ≡ self.old) }
    {
        match self.region.reserve(n) {
            Ok(()) => Ok(()),
            Err(RegionFault::Full) => unreachable!(),
            Err(RegionFault::NoMemory) => Err(AllocError),
        }
    }

    /// Puts a piece that is not longer than the spare at the end of the pending body. Takes no memory.
    pub fn piece(&mut self, piece: &[u8])
        requires { length piece.now ≤ self.old.spare }
        ensures { self.new ≡ record self.old {
          pending = self.old.pending ++ piece.now;
          given = self.old.given + length piece.now;
          spare = self.old.spare - length piece.now;
        } }
    {
        self.pending = self.region.extend(self.pending, piece);
    }

    /// The pending body.
    pub fn pending(&self) -> &[u8]
        ensures { result.now ≡ self.now.pending }
    {
        self.region.at(self.pending)
    }

    /// Drops the pending body. Its bytes stay given. Takes no memory.
    pub fn forget(&mut self)
        ensures { Becomes self.new (record self.old { pending = [] }) }
    {
        self.pending = self.region.put(&[]);
    }

    /// Makes the pending body that of a new record, and answers its number. Fewer than 4,294,967,295
    /// records are held. After a refusal nothing has changed.
    ///
    /// # Errors
    ///
    /// [`SegmentFault::InstanceTwice`] exactly where a record of the same class and instance is held.
    pub fn add(&mut self, node: Node) -> Result<u32, SegmentFault>
        requires { length self.old.nodes < 4294967295 }
        ensures twice { IsErrOf result SegmentFault.InstanceTwice ↔ IsTrue (is_held self.old.nodes node) }
        ensures number { IfOk result (λ k. k ≡ length self.old.nodes) }
        ensures ok { OnOk result (Becomes self.new (with_node node self.old)) }
        ensures err { OnErr result (self.new ≡ self.old) }
    {
        let number = self.records.len();
        let span = self.pending;
        match self.records.push(Kept { node, span }) {
            Ok(()) => {}
            Err(PushFault::Taken) => return Err(SegmentFault::InstanceTwice),
            Err(PushFault::NoMemory) => return Err(SegmentFault::NoMemory),
        }
        self.pending = self.region.put(&[]);
        Ok(number)
    }

    /// Makes the pending body that of the end record. None is set yet. Takes no memory.
    pub fn set_end(&mut self, node: Node)
        requires { self.old.end_record ≡ None }
        ensures { Becomes self.new (with_end node self.old) }
    {
        let span = self.pending;
        self.end = Some(Kept { node, span });
        self.pending = self.region.put(&[]);
    }

    /// The records held, the end record left aside.
    pub fn len(&self) -> u32
        ensures { result ≡ length self.now.nodes }
    {
        self.records.len()
    }

    /// The number of a link's target. None exactly where the link is null or no record has its class and
    /// instance.
    pub fn target(&self, to: Link) -> Option<u32>
        ensures { result ≡ target_of self.now.nodes to }
    {
        self.target_near(to, &mut 0)
    }

    /// The same. The record after the one that is `near` is tried first, and the one found is near from then
    /// on.
    pub(crate) fn target_near(&self, to: Link, near: &mut u32) -> Option<u32>
        ensures { result ≡ target_of self.now.nodes to }
    {
        if to.class == 0 {
            return None;
        }
        self.records.number(to, near)
    }

    /// The record of a number.
    pub fn node(&self, k: u32) -> &Node
        requires { k < length self.now.nodes }
        ensures { option_map (λ r. r.node) (slice_get self.now.nodes k) ≡ Some result.now }
    {
        &self.records.record(k).node
    }

    /// The body of the record of a number.
    pub fn body(&self, k: u32) -> &[u8]
        requires { k < length self.now.nodes }
        ensures body { option_map (λ r. r.body) (slice_get self.now.nodes k) ≡ Some result.now }
        ensures few { length result.now ≤ 4294967295 }
    {
        self.region.at(self.records.record(k).span)
    }

    /// The end record, where one is set.
    pub fn end_node(&self) -> Option<&Node>
        ensures { option_copied result ≡ option_map (λ r. r.node) self.now.end_record }
    {
        match &self.end {
            Some(kept) => Some(&kept.node),
            None => None,
        }
    }

    /// The body of the end record, or none where none is set.
    pub fn end_body(&self) -> &[u8]
        ensures { result.now ≡ option_map_or (λ r. r.body) self.now.end_record [] }
    {
        match &self.end {
            Some(kept) => self.region.at(kept.span),
            None => &[],
        }
    }

    /// The bytes that `piece` brought since the last `clear`, also those of bodies that were dropped.
    pub fn given(&self) -> u32
        ensures { result ≡ self.now.given }
    {
        self.region.held()
    }

    /// The byte order of the bodies.
    pub fn order(&self) -> Order
        ensures { result ≡ self.now.order }
    {
        self.order
    }

    /// Makes the link of number k of a record, from 0, lead elsewhere. The record reads by its plan and has
    /// a link of this number. Takes no memory.
    pub fn set_link(&mut self, plans: &Plans, node: u32, k: u32, to: Link)
        requires node { node < length self.old.nodes }
        requires link { IfSome (slice_get self.old.nodes node) (HasLinkBy plans.now self.old.order k) }
        ensures { SetsLink plans.now node k to self.old self.new }
    {
        let at = self.link_place(plans, node, k);
        self.write_body(node, at, &link_bytes(self.order(), to));
    }

    /// Writes a piece over bytes of the body of a record, from a place in it on. Takes no memory.
    pub(crate) fn write_body(&mut self, node: u32, at: u32, piece: &[u8])
        requires node { node < length self.old.nodes }
        requires within { IfSome (slice_get self.old.nodes node)
            (λ r. at + length piece.now ≤ length r.body) }
        ensures { Overwrites node at piece.now self.old self.new }
    {
        let span = self.records.record(node).span;
        self.region.write(span, at, piece);
    }

    /// Where the link of number k begins in the body of a record.
    fn link_place(&self, plans: &Plans, node: u32, k: u32) -> u32
        requires node { node < length self.now.nodes }
        requires link { IfSome (slice_get self.now.nodes node) (HasLinkBy plans.now self.now.order k) }
        ensures { IfSome (slice_get self.now.nodes node) (IsLinkOf plans.now self.now.order k result) }
    {
        match plans.plan(self.node(node).class) {
            Some(plan) => link_start(plan, self.order, self.body(node), u64::from(k)) as u32,
            None => unreachable!(),
        }
    }

    /// Leaves the head as the only root: static data are none any more. Takes no memory.
    pub fn drop_stat_roots(&mut self)
        ensures { self.new ≡ record self.old { nodes = map without_stat self.old.nodes } }
    {
        self.records.drop_stat_roots();
    }

    /// Leaves no record, no end record, no pending body and no byte given, and keeps the order. Takes no
    /// memory, and time by what was held.
    pub fn clear(&mut self)
        ensures { Becomes self.new (nothing_in self.old.order) }
    {
        let alloc = self.records.allocator();
        self.records.clear();
        self.end = None;
        if self.region.clears() < u64::MAX {
            self.region.clear();
        } else {
            self.region = Region::new(alloc);
        }
        self.pending = self.region.put(&[]);
    }
}
