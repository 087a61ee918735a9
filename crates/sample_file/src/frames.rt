//! A frame of the sample file, put together record by record.

ghost use Rattle.std.specs.Prelude.{◌≡◌, ℕ, ◌+◌, ◌<◌, ◌≤◌, List, [], nat_eq, Some, IfOk, IfSome, IsSome, OnOk};
ghost use Rattle.indexmap.specs.IndexMap.{insert_entry};
ghost use Rattle.layout_plan.specs.declared.fields.Field.{Field};
ghost use Rattle.file_grammar.specs.Record.{layout_in};
ghost use Rattle.dictionary.specs.Dictionary.{IsDictionary};
ghost use Rattle.sample_file.specs.Entries.{sample_entries};
ghost use Rattle.sample_file.specs.Drafts.{node_of, sample_plans, drafts_before, Holds, CanBePut, Puts};
ghost use Rattle.sample_file.specs.Drafts.{CanPend, Pends, IsWhole};
ghost use Rattle.sample_file.specs.Lent.{IsSampleFrame, IsSampleRoom};

use crate::entries::sample_dictionary;
use crate::records::{
    CHANNEL, CHANNELS, FRAME_END, FRAME_HEADER, RAW_DATA, VECTOR, channel, frame_end, header,
    raw_data, vector,
};
use contents_table::ChannelLayouts;
use dictionary::Dictionary;
use layout_plan::Plans;
use link_graph::{CloseFault, Node, Numbering, Root, Segment, SegmentFault};
use record_values::Value;
use record_writer::write_body;
use rooted_graph::laws::orders_are_unique;
use scalar_types::Order;
use std::alloc::{AllocError, Global};

/// A frame of the sample file as it is collected, with what it is read by.
#[derive(Drop)]
pub struct SampleFrame {
    pub segment: Segment,
    pub dictionary: Dictionary,
    pub plans: Plans,
    pub layouts: ChannelLayouts,
    /// Room for a body.
    body: Vec<u8>,
}

impl SampleFrame {
    /// No frame yet.
    pub fn new(alloc: Global) -> Result<SampleFrame, AllocError>
        ensures { IfOk result IsSampleRoom }
    {
        let dictionary = sample_dictionary(alloc)?;
        let plans = sample_plans(alloc, &dictionary)?;
        let layouts = ChannelLayouts::of(&dictionary);
        Ok(SampleFrame {
            segment: Segment::new(alloc, Order::Little),
            dictionary,
            plans,
            layouts,
            body: Vec::new(alloc),
        })
    }

    /// Makes this frame k, and answers the order of its records.
    pub fn fill(&mut self, alloc: Global, k: u32) -> Result<Numbering, AllocError>
        requires room { IsSampleRoom self.old }
        requires small { k ≤ 100000 }
        ensures room { IsSampleRoom self.new }
        ensures frame { IfOk result (IsSampleFrame k self.new) }
    {
        self.segment.clear();
        self.put_heads(alloc, k)?;
        for j in 0..CHANNELS {
            self.put_channel(alloc, k, j)?;
        }
        self.put_end(alloc, k)?;
        self.number(alloc)
    }

    /// Puts FrameH and FrRawData of frame k first.
    fn put_heads(&mut self, alloc: Global, k: u32) -> Result<(), AllocError>
        requires room { IsSampleRoom self.old }
        requires small { k ≤ 100000 }
        requires held { Holds [] self.old.segment }
        ensures room { IsSampleRoom self.new }
        ensures held { OnOk result (Holds (drafts_before k 0) self.new.segment) }
    {
        let header = header(alloc, k)?;
        self.put(alloc, node(FRAME_HEADER, 0, Root::Head), &header)?;
        let raw_data = raw_data(alloc)?;
        self.put(alloc, node(RAW_DATA, 0, Root::No), &raw_data)
    }

    /// Puts channel j of frame k and its vector behind those before it.
    fn put_channel(&mut self, alloc: Global, k: u32, j: u32) -> Result<(), AllocError>
        requires room { IsSampleRoom self.old }
        requires small { k ≤ 100000 }
        requires channel { j < 3 }
        requires held { Holds (drafts_before k j) self.old.segment }
        ensures room { IsSampleRoom self.new }
        ensures held { OnOk result (Holds (drafts_before k (j + 1)) self.new.segment) }
    {
        let channel = channel(alloc, j)?;
        self.put(alloc, node(CHANNEL, j, Root::No), &channel)?;
        let vector = vector(alloc, k, j)?;
        self.put(alloc, node(VECTOR, j, Root::No), &vector)
    }

    /// Puts a record with a body of these values behind the others.
    fn put(&mut self, alloc: Global, node: Node, values: &[Value]) -> Result<(), AllocError>
        requires room { IsSampleRoom self.old }
        requires can { CanBePut node values.now self.old.segment }
        ensures room { IsSampleRoom self.new }
        ensures held { OnOk result (Puts node values.now self.old.segment self.new.segment) }
    {
        self.write(alloc, node.class, values)?;
        match self.segment.add(node) {
            Ok(_) => Ok(()),
            Err(SegmentFault::InstanceTwice) => unreachable!(),
            Err(SegmentFault::NoMemory) => Err(AllocError),
        }
    }

    /// Puts FrEndOfFrame of frame k.
    fn put_end(&mut self, alloc: Global, k: u32) -> Result<(), AllocError>
        requires room { IsSampleRoom self.old }
        requires small { k ≤ 100000 }
        requires held { Holds (drafts_before k 3) self.old.segment }
        ensures room { IsSampleRoom self.new }
        ensures whole { OnOk result (IsWhole k self.new.segment) }
    {
        self.write(alloc, FRAME_END, &frame_end(k))?;
        self.segment.set_end(node(FRAME_END, 0, Root::No));
        Ok(())
    }

    /// Makes a body of these values the pending one.
    fn write(&mut self, alloc: Global, class: u8, values: &[Value]) -> Result<(), AllocError>
        requires room { IsSampleRoom self.old }
        requires can { CanPend class values.now self.old.segment }
        ensures room { IsSampleRoom self.new }
        ensures pending { OnOk result ((fields : List Field) → layout_in sample_entries class ≡ Some fields
            → Pends fields values.now self.old.segment self.new.segment) }
    {
        let Some(plan) = self.plans.plan(class) else {
            unreachable!()
        };
        self.body.clear();
        write_body(alloc, plan, Order::Little, values, &mut self.body)?;
        let body = self.body.as_slice();
        self.segment.room(body.len() as u32)?;
        self.segment.piece(body);
        Ok(())
    }

    /// The order of the records of the frame, which is whole.
    fn number(&self, alloc: Global) -> Result<Numbering, AllocError>
        requires room { IsSampleRoom self.now }
        requires whole { (k : ℕ) × IsWhole k self.now.segment }
        ensures { (k : ℕ) → IsWhole k self.now.segment → IfOk result (IsSampleFrame k self.now) }
    {
        orders_are_unique();
        // What is known of a dictionary makes the frame one that can be written.
        let _ = self.dictionary.get(FRAME_HEADER);
        match self.segment.close(alloc, &self.plans) {
            Ok(numbering) => Ok(numbering),
            Err(CloseFault::LooseLink { .. }) => unreachable!(),
            Err(CloseFault::NoMemory) => Err(AllocError),
        }
    }
}

/// The plans of the dictionary of the sample file.
fn sample_plans(alloc: Global, dictionary: &Dictionary) -> Result<Plans, AllocError>
    requires { dictionary.now ≡ sample_entries }
    ensures { IfOk result (λ plans. plans ≡ sample_plans) }
{
    let mut plans = Plans::new(alloc);
    learn(&mut plans, dictionary, FRAME_HEADER)?;
    learn(&mut plans, dictionary, RAW_DATA)?;
    learn(&mut plans, dictionary, CHANNEL)?;
    learn(&mut plans, dictionary, VECTOR)?;
    learn(&mut plans, dictionary, FRAME_END)?;
    Ok(plans)
}

/// Keeps the plan of a class.
fn learn(plans: &mut Plans, dictionary: &Dictionary, class: u8) -> Result<(), AllocError>
    requires { IsSome (layout_in dictionary.now class) }
    ensures { IfSome (layout_in dictionary.now class)
        (λ fields. OnOk result (plans.new ≡ insert_entry nat_eq plans.old class fields)) }
{
    match dictionary.get(class) {
        Some(entry) => plans.learn(entry),
        None => unreachable!(),
    }
}

/// A record of this class and instance.
fn node(class: u8, instance: u32, root: Root) -> Node
    ensures { result ≡ node_of class instance root }
{
    Node {
        at: 0,
        class,
        instance,
        root,
    }
}
