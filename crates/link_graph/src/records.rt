//! The records kept, in order, and found by class and instance.

ghost use Rattle.std.specs.Prelude.{◌≡◌, ◌<◌, ◌≤◌, [], ◌++◌, ◌∷◌, None, Some, length, map, slice_get, OnOk};
ghost use Rattle.std.specs.Prelude.{OnErr, IsErrOf, IsSome, ◌↔◌};
ghost use Rattle.link_graph.specs.Collected.{link_to, without_stat_root};
ghost use Rattle.link_graph.specs.Kept.{number_in, without_stat_kept};

use crate::index::{Index, PushFault};
use crate::nodes::{Kept, Root, link_to};
use std::alloc::Global;
use std::marker::Model;
use type_text::Link;

/// Records of which no two have one class and instance. Contracts see them in the order in which they came.
#[derive(Drop)]
pub struct Records {
    kept: Vec<Kept>,
    /// The number of each record by its class and instance.
    index: Index,
}

impl Model for Records {
    ghost use Rattle.std.specs.Prelude.{List};
    ghost use Rattle.link_graph.specs.declared.nodes.Kept.{Kept};
    ghost use Rattle.link_graph.specs.Kept.{AreNumbered};

    ghost Value = { List Kept };

    ghost view = { λ r. r.kept.items };

    ghost invariant = { λ r. AreNumbered r.kept.items r.index };
}

impl Records {
    /// No record. It takes no memory yet.
    pub fn new(alloc: Global) -> Records
        ensures { result ≡ [] }
    {
        Records {
            kept: Vec::new(alloc),
            index: Index::new(alloc),
        }
    }

    /// The allocator.
    pub fn allocator(&self) -> Global {
        *self.kept.allocator()
    }

    /// How many there are.
    pub fn len(&self) -> u32
        ensures { result ≡ length self.now }
    {
        self.kept.len() as u32
    }

    /// The number of the record with a link's class and instance. The record after the one that is `near` is
    /// tried first, and the one found is near from then on.
    pub fn number(&self, to: Link, near: &mut u32) -> Option<u32>
        ensures { result ≡ number_in self.now to }
    {
        self.index.number(to, near)
    }

    /// The record of a number.
    pub fn record(&self, k: u32) -> &Kept
        requires { k < length self.now }
        ensures { slice_get self.now k ≡ Some result.now }
    {
        &self.kept[k as usize]
    }

    /// Puts a record behind the others, which are fewer than 4,294,967,295. After a refusal nothing has
    /// changed.
    ///
    /// # Errors
    ///
    /// [`PushFault::Taken`] exactly where one has its class and instance.
    pub fn push(&mut self, kept: Kept) -> Result<(), PushFault>
        requires { length self.old < 4294967295 }
        ensures taken { IsErrOf result PushFault.Taken ↔ IsSome (number_in self.old (link_to kept.node)) }
        ensures ok { OnOk result (self.new ≡ self.old ++ kept ∷ []) }
        ensures err { OnErr result (self.new ≡ self.old) }
    {
        let number = self.len();
        let to = link_to(kept.node);
        if self.kept.push(kept).is_err() {
            return Err(self.fault(to));
        }
        if let Err(fault) = self.index.push(to) {
            self.kept.truncate(number as usize);
            return Err(fault);
        }
        Ok(())
    }

    /// Why a record is not put, where there is no memory for it.
    fn fault(&self, to: Link) -> PushFault
        ensures { result ≡ PushFault.Taken ↔ IsSome (number_in self.now to) }
    {
        match self.number(to, &mut 0) {
            Some(_) => PushFault::Taken,
            None => PushFault::NoMemory,
        }
    }

    /// Marks all static data as no roots.
    pub fn drop_stat_roots(&mut self)
        ensures { self.new ≡ map without_stat_kept self.old }
    {
        drop_stat_roots(self.kept.as_mut_slice());
    }

    /// Holds no record any more. It takes time by how many there were.
    pub fn clear(&mut self)
        ensures { self.new ≡ [] }
    {
        self.kept.clear();
        self.index.clear();
    }
}

/// Marks all static data among some records as no roots.
fn drop_stat_roots(kept: &mut [Kept])
    ensures { kept.new ≡ map without_stat_kept kept.old }
{
    for k in 0..kept.len() {
        kept[k].node.root = without_stat_root(kept[k].node.root);
    }
}

fn without_stat_root(root: Root) -> Root
    ensures { result ≡ without_stat_root root }
{
    match root {
        Root::Head => Root::Head,
        Root::No | Root::Stat => Root::No,
    }
}
