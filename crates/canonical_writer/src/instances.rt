//! The links to the records of a frame as they are written: the instances of a class count up from 0 in the
//! order.

ghost use Rattle.std.specs.Prelude.{◌≡◌, ◌↔◌, [], IsTrue, OnOk, map};
ghost use Rattle.link_graph.specs.Graph.{link_in};
ghost use Rattle.canonical_writer.specs.NewLinks.{AreNewLinks, IsOrder, LeadAlike, classes_of, link_of, link_to};

use crate::records::NULL;
use layout_plan::FieldLink;
use link_graph::Segment;
use std::alloc::{AllocError, Global};
use std::marker::Model;
use type_text::Link;

/// The new link to each record of a frame, by its number there; null to a record that is not in the order.
#[derive(Drop)]
pub struct NewLinks {
    links: Vec<Link>,
}

impl Model for NewLinks {
    ghost use Rattle.std.specs.Prelude.{List};
    ghost use Rattle.type_text.specs.declared.types.Link.{Link};

    ghost Value = { List Link };

    ghost view = { λ l. l.links.items };
}

impl NewLinks {
    pub fn new(alloc: Global) -> NewLinks
        ensures { result ≡ [] }
    {
        NewLinks {
            links: Vec::new(alloc),
        }
    }

    /// Makes these the links to the records of a segment, written in this order.
    pub fn number(&mut self, segment: &Segment, order: &[u32]) -> Result<(), AllocError>
        ensures { OnOk result (IsOrder (classes_of segment.now.nodes) order.now
            → AreNewLinks (classes_of segment.now.nodes) order.now self.new) }
    {
        let mut counts = [0_u32; 256];
        self.links.clear();
        self.links.resize(segment.len() as usize, NULL)?;
        for node in order {
            let Some(link) = self.links.get_mut(*node as usize) else {
                continue;
            };
            let class = segment.node(*node).class;
            let instance = counts[class as usize];
            *link = Link {
                class: u16::from(class),
                instance,
            };
            counts[class as usize] = instance.saturating_add(1);
        }
        Ok(())
    }

    /// The link to the record of a number.
    pub fn link_of(&self, node: u32) -> Link
        ensures { result ≡ link_of self.now node }
    {
        match self.links.get(node as usize) {
            Some(link) => *link,
            None => NULL,
        }
    }

    /// The link to where another link leads.
    pub fn link_to(&self, segment: &Segment, link: Link) -> Link
        ensures { result ≡ link_to segment.now.nodes self.now link }
    {
        match segment.target(link) {
            Some(node) => self.link_of(node),
            None => NULL,
        }
    }

    /// Puts the links to where others lead into a list in place of those that it holds.
    pub fn put_links(
        &self,
        segment: &Segment,
        read: &[FieldLink],
        into: &mut Vec<Link>,
    ) -> Result<(), AllocError>
        ensures { OnOk result
            (into.new.items ≡ map (link_to segment.now.nodes self.now) (map link_in read.now)) }
    {
        into.clear();
        for found in read {
            into.push(self.link_to(segment, found.link))?;
        }
        Ok(())
    }

    /// Whether links that are read in the frames of two segments are written alike: these are the new links of the
    /// first frame, `others` those of the other one.
    pub fn lead_alike(
        &self,
        segment: &Segment,
        others: &NewLinks,
        other: &Segment,
        read: &[FieldLink],
    ) -> bool
        ensures { IsTrue result
            ↔ LeadAlike segment.now.nodes self.now other.now.nodes others.now (map link_in read.now) }
    {
        for found in read {
            if self.link_to(segment, found.link) != others.link_to(other, found.link) {
                return false;
            }
        }
        true
    }
}
