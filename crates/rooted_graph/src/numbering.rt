//! The numbering of the nodes of a graph in breadth-first order.

ghost use Rattle.std.specs.Prelude.{◌≡◌, ℕ, ◌<◌, ◌↔◌, [], All, IfOk, OnOk, OnErr, IsSome, length};
ghost use Rattle.rooted_graph.specs.Rooted.{IsReached};
ghost use Rattle.rooted_graph.specs.BreadthOrder.{IsBreadthOrder, number_of};

use crate::linked_nodes::LinkedNodes;
use crate::queue::Queue;
use std::alloc::{AllocError, Global};
use std::marker::Model;

/// The nodes of a graph in breadth-first order. Contracts see the list of the nodes.
#[derive(Drop)]
pub struct Numbering {
    queue: Queue,
}

impl Model for Numbering {
    ghost use Rattle.std.specs.Prelude.{List, ℕ};

    ghost Value = { List ℕ };

    ghost view = { λ numbering. numbering.queue.nodes.items };
}

impl Numbering {
    /// Of no node. It takes no memory yet.
    pub fn new(alloc: Global) -> Numbering
        ensures { result ≡ [] }
    {
        Numbering {
            queue: Queue::new(alloc),
        }
    }

    /// The numbering of a graph, in time linear in its nodes and links. It takes memory for all
    /// nodes first, and only want of memory is an error.
    pub fn of<G: LinkedNodes>(alloc: Global, graph: &G) -> Result<Numbering, AllocError>
        ensures order { IfOk result (IsBreadthOrder (G.graph graph.now)) }
        ensures in_range { IfOk result (All (λ node. node < length (G.graph graph.now).links)) }
        ensures reached { IfOk result
            (λ order. (n : ℕ) → IsSome (number_of order n) ↔ IsReached (G.graph graph.now) n) }
    {
        let mut numbering = Numbering::new(alloc);
        numbering.renew(graph)?;
        Ok(numbering)
    }

    /// Becomes the numbering of a graph, in time linear in its nodes and links, whatever it was of. It takes
    /// memory only where more nodes are met than ever before. After a refusal it is of no node.
    pub fn renew<G: LinkedNodes>(&mut self, graph: &G) -> Result<(), AllocError>
        ensures order { OnOk result (IsBreadthOrder (G.graph graph.now) self.new) }
        ensures in_range { OnOk result (All (λ node. node < length (G.graph graph.now).links) self.new) }
        ensures reached { OnOk result ((n : ℕ) → IsSome (number_of self.new n) ↔ IsReached (G.graph graph.now) n) }
        ensures err { OnErr result (self.new ≡ []) }
    {
        let done = self.fill(graph);
        if done.is_err() {
            self.clear();
        }
        done
    }

    /// Becomes one of no node. Takes no memory.
    pub fn clear(&mut self)
        ensures { self.new ≡ [] }
    {
        self.queue.clear();
    }

    /// The same, but that after a refusal it is of some nodes of the graph.
    fn fill<G: LinkedNodes>(&mut self, graph: &G) -> Result<(), AllocError>
        ensures order { OnOk result (IsBreadthOrder (G.graph graph.now) self.new) }
        ensures in_range { OnOk result (All (λ node. node < length (G.graph graph.now).links) self.new) }
        ensures reached { OnOk result ((n : ℕ) → IsSome (number_of self.new n) ↔ IsReached (G.graph graph.now) n) }
    {
        let queue = &mut self.queue;
        queue.renew(graph.node_count())?;
        queue.add_roots(graph)?;
        let mut place = 0;
        while place < queue.nodes.len() {
            let node = queue.nodes[place];
            queue.add_targets(graph, node)?;
            place += 1;
        }
        Ok(())
    }

    /// The nodes that some path ends in, in breadth-first order.
    pub fn sequence(&self) -> &[u32]
        ensures { result.now ≡ self.now }
    {
        self.queue.nodes.as_slice()
    }

    /// The place of a node in the order, from 0, and `None` where no path ends in it.
    pub fn number_of(&self, node: u32) -> Option<u32>
        ensures { result ≡ number_of self.now node }
    {
        self.queue.numbers.get(node as usize).copied().flatten()
    }
}
