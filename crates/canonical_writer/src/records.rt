//! Records as they are written: the 14 bytes before a body, and the body written again with other links.

ghost use Rattle.std.specs.Prelude.{◌≡◌, ◌≤◌, ◌+◌, ◌<◌, ◌++◌, IfOk, OnOk, IfSome, length, take, drop, map};
ghost use Rattle.std.specs.Prelude.{slice_get};
ghost use Rattle.layout_plan.specs.Appends.{Appends};
ghost use Rattle.layout_plan.specs.Body.{HasBody};
ghost use Rattle.layout_plan.specs.Links.{HasLinks};
ghost use Rattle.link_graph.specs.Graph.{link_in, links_by};
ghost use Rattle.type_text.specs.declared.types.Link.{Link};
ghost use Rattle.canonical_file.specs.Bytes.{structure_bytes};
ghost use Rattle.frame_content.specs.Labels.{nullified};
ghost use Rattle.canonical_writer.specs.NewLinks.{link_of, link_to};
ghost use Rattle.canonical_writer.specs.Parts.{IsRecordOf};

use crate::instances::NewLinks;
use frame_head::{Common, HEAD_SIZE, write_common};
use layout_plan::{FieldLink, Plan, push_links, rewrite};
use link_graph::Segment;
use scalar_types::Order;
use std::alloc::{AllocError, Global};
use type_text::Link;

/// The null link.
pub const NULL: Link = Link {
    class: 0,
    instance: 0,
};

/// Appends room for the first 14 bytes of a structure, and answers where it begins.
pub fn begin_structure(into: &mut Vec<u8>) -> Result<usize, AllocError>
    ensures start { IfOk result (λ start. start ≡ length into.old.items) }
    ensures room { Appends (λ bytes. OnOk result (length bytes ≡ 14)) into.old.items into.new.items }
{
    let start = into.len();
    into.extend_from_slice(&[0; HEAD_SIZE])?;
    Ok(start)
}

/// Writes the first 14 bytes of the structure that began there and goes to the end.
pub fn end_structure(into: &mut Vec<u8>, start: usize, class: u8, instance: u32)
    requires { start + 14 ≤ length into.old.items }
    ensures { into.new.items ≡ take start into.old.items
        ++ structure_bytes class instance (drop (start + 14) into.old.items) }
{
    let common = Common {
        length: (into.len() - start) as u64,
        check: 0,
        class,
        instance,
    };
    let mut head = [0; HEAD_SIZE];
    write_common(Order::Little, &common, &mut head);
    into[start..start + HEAD_SIZE].copy_from_slice(&head);
}

/// Room for the links of one record: as they are read, and as they are written.
#[derive(Drop)]
pub struct LinkRoom {
    pub read: Vec<FieldLink>,
    written: Vec<Link>,
}

impl LinkRoom {
    pub fn new(alloc: Global) -> LinkRoom {
        LinkRoom {
            read: Vec::new(alloc),
            written: Vec::new(alloc),
        }
    }

    /// Appends the record of a number under its new instance: its body with each link to where its target is
    /// written. Where memory is out, a part of it may stand there.
    pub fn push_record(
        &mut self,
        segment: &Segment,
        plan: &Plan,
        node: u32,
        links: &NewLinks,
        into: &mut Vec<u8>,
    ) -> Result<(), AllocError>
        requires node { node < length segment.now.nodes }
        requires body { IfSome (slice_get segment.now.nodes node)
            (λ r. HasBody segment.now.order plan.now r.body) }
        ensures { Appends
            (λ bytes. OnOk result (IfSome (slice_get segment.now.nodes node)
            (λ r. IsRecordOf segment.now.order plan.now (link_to segment.now.nodes links.now) r.node.class
            (link_of links.now node).instance r.body bytes)))
            into.old.items
            into.new.items }
    {
        let body = segment.body(node);
        let instance = links.link_of(node).instance;
        self.read_links(plan, segment.order(), body)?;
        links.put_links(segment, self.read.as_slice(), &mut self.written)?;
        let class = segment.node(node).class;
        self.push_structure(plan, segment.order(), body, class, instance, into)
    }

    /// Appends an end record: its instance is 0, and its links are null.
    pub fn push_end(
        &mut self,
        plan: &Plan,
        order: Order,
        class: u8,
        body: &[u8],
        into: &mut Vec<u8>,
    ) -> Result<(), AllocError>
        requires { HasBody order plan.now body.now }
        ensures { Appends
            (λ bytes. OnOk result (IsRecordOf order plan.now nullified class 0 body.now bytes))
            into.old.items
            into.new.items }
    {
        self.read_links(plan, order, body)?;
        self.written.clear();
        self.written.resize(self.read.len(), NULL)?;
        self.push_structure(plan, order, body, class, 0, into)
    }

    /// Appends a structure of this class and instance: the body with the links that are to be written.
    fn push_structure(
        &self,
        plan: &Plan,
        order: Order,
        body: &[u8],
        class: u8,
        instance: u32,
        into: &mut Vec<u8>,
    ) -> Result<(), AllocError>
        requires body { HasBody order plan.now body.now }
        requires links { HasLinks order plan.now body.now (length self.now.written.items) }
        ensures { Appends
            (λ bytes. OnOk result ((links : Link → Link)
            → self.now.written.items ≡ map links (links_by order plan.now body.now)
            → IsRecordOf order plan.now links class instance body.now bytes))
            into.old.items
            into.new.items }
    {
        let start = begin_structure(into)?;
        rewrite(plan, order, body, self.written.as_slice(), into)?;
        end_structure(into, start, class, instance);
        Ok(())
    }

    /// Reads the links of a body in place of those read before.
    pub fn read_links(&mut self, plan: &Plan, order: Order, body: &[u8]) -> Result<(), AllocError>
        requires { HasBody order plan.now body.now }
        ensures links { OnOk result
            (map link_in self.new.read.items ≡ links_by order plan.now body.now) }
        ensures many { OnOk result (HasLinks order plan.now body.now (length self.new.read.items)) }
    {
        // What is known of a plan's fields makes the links the only ones.
        let _fields = plan.fields();
        self.read.clear();
        push_links(plan, order, body, &mut self.read)
    }
}
