//! The channel names of a kind, in the order in which they first came, with the places of their channels.

ghost use Rattle.std.specs.Prelude.{◌≡◌, ◌<◌, ◌≤◌, ◌+◌, ℕ, [], ◌∷◌, ◌++◌, OnOk, OnErr, IfOk, IfSome, Some};
ghost use Rattle.std.specs.Prelude.{None, length, slice_get, slice_set};
ghost use Rattle.contents_table.specs.Kept.{number_in};
ghost use Rattle.contents_table.specs.Built.{with_name, with_found, place_in, AreNames, AreInOrder};

use std::alloc::{AllocError, Global};
use std::collections::BTreeMap;
use std::marker::Model;
use type_text::{ItemList, Name};

/// A channel of a name: the number of its frame, from 0, and its place in bytes from the beginning of the
/// file.
#[derive(Clone, Copy)]
pub struct Found {
    pub frame: u64,
    pub at: u64,
}

/// A name, and the first channel that has it in each frame that has one, in the order of the frames.
#[derive(Drop)]
pub struct Listed {
    pub name: Name,
    pub found: ItemList<Found>,
}

/// Names of which no two are the same. Contracts see the list of them.
#[derive(Drop)]
pub struct Names {
    listed: Vec<Listed>,
    /// The number of each name, in an order of names: so no file makes a search long.
    numbers: BTreeMap<Vec<u8>, usize>,
    /// The name that is likely to come next: in most files each frame has the names of the one before it.
    next: usize,
}

impl Model for Names {
    ghost use Rattle.std.specs.Prelude.{List};
    ghost use Rattle.contents_table.specs.declared.names.Listed.{Listed};
    ghost use Rattle.contents_table.specs.Kept.{AreNumbered};

    ghost Value = { List Listed };

    ghost view = { λ names. names.listed.items };

    ghost invariant = { λ names. AreNumbered names.listed.items names.numbers };
}

impl Names {
    /// No name. It takes no memory yet.
    pub fn new(alloc: Global) -> Names
        ensures { result ≡ [] }
    {
        Names {
            listed: Vec::new(alloc),
            numbers: BTreeMap::new(alloc),
            next: 0,
        }
    }

    /// How many there are.
    pub fn len(&self) -> usize
        ensures { result ≡ length self.now }
    {
        self.listed.len()
    }

    /// The name of this number, with its channels.
    pub fn listed(&self, k: usize) -> &Listed
        requires { k < length self.now }
        ensures { slice_get self.now k ≡ Some result.now }
    {
        &self.listed[k]
    }

    /// The number of a name.
    pub fn number(&self, name: &[u8]) -> Option<usize>
        ensures { result ≡ number_in self.now name.now }
    {
        self.numbers.get(name).copied()
    }

    /// One more channel of a name, in a frame that is no earlier than those before. A name that the frame has
    /// already changes nothing. After a refusal nothing has changed.
    pub fn add(&mut self, alloc: Global, name: &[u8], found: Found) -> Result<(), AllocError>
        requires names { AreNames (found.frame + 1) self.old }
        requires short { length name.now ≤ 65534 }
        ensures ok { OnOk result (self.new ≡ with_name name.now found self.old) }
        ensures names { AreNames (found.frame + 1) self.new }
        ensures err { OnErr result (self.new ≡ self.old) }
    {
        match self.likely_number(name) {
            Some(k) => self.add_channel(k, found),
            None => self.add_name(alloc, name, found),
        }
    }

    /// The number of a name, without a search where it is the one that is likely.
    fn likely_number(&self, name: &[u8]) -> Option<usize>
        ensures { result ≡ number_in self.now name.now }
    {
        if self.next < self.listed.len() && self.listed[self.next].name.bytes() == name {
            return Some(self.next);
        }
        self.number(name)
    }

    /// One more channel of the name of this number.
    fn add_channel(&mut self, k: usize, found: Found) -> Result<(), AllocError>
        requires within { k < length self.old }
        requires names { AreNames (found.frame + 1) self.old }
        ensures ok { OnOk result (IfSome (slice_get self.old k)
            (λ listed. self.new ≡ slice_set self.old k (with_found found listed))) }
        ensures err { OnErr result (self.new ≡ self.old) }
    {
        let added = self.listed[k].add(found);
        self.next = k + 1;
        added
    }

    /// One more name, which is not there yet, with its first channel.
    fn add_name(&mut self, alloc: Global, name: &[u8], found: Found) -> Result<(), AllocError>
        requires { number_in self.old name.now ≡ None }
        ensures ok { OnOk result
            (self.new ≡ self.old ++ record { name = name.now; found = found ∷ [] } ∷ []) }
        ensures err { OnErr result (self.new ≡ self.old) }
    {
        let k = self.listed.len();
        let key = Vec::from_slice(alloc, name)?;
        let listed = Listed::new(alloc, name, found)?;
        self.listed.push(listed)?;
        if self.numbers.insert(key, k).is_err() {
            self.listed.truncate(k);
            return Err(AllocError);
        }
        self.next = k + 1;
        Ok(())
    }
}

impl Listed {
    /// A name with its first channel.
    fn new(alloc: Global, name: &[u8], found: Found) -> Result<Listed, AllocError>
        ensures { IfOk result (λ listed. listed ≡ record { name = name.now; found = found ∷ [] }) }
    {
        let mut first = ItemList::new(alloc);
        first.push(found)?;
        Ok(Listed {
            name: Name::new(alloc, name)?,
            found: first,
        })
    }

    /// One more channel behind those of earlier frames.
    fn add(&mut self, found: Found) -> Result<(), AllocError>
        requires { AreInOrder (found.frame + 1) self.old.found }
        ensures ok { OnOk result (self.new ≡ with_found found self.old) }
        ensures name { self.new.name ≡ self.old.name }
        ensures err { OnErr result (self.new ≡ self.old) }
    {
        if let Some(last) = self.found.as_slice().last() {
            if last.frame == found.frame {
                return Ok(());
            }
        }
        self.found.push(found)
    }
}

/// The place of a name's channel in a frame, or 0. The channels are in the order of their frames.
pub fn place_in(frame: u64, found: &[Found]) -> u64
    requires { (frames : ℕ) × AreInOrder frames found.now }
    ensures { result ≡ place_in frame found.now }
{
    if let Some(likely) = found.get(frame as usize) {
        if likely.frame == frame {
            return likely.at;
        }
    }
    let mut low = 0;
    let mut high = found.len();
    while low < high {
        let middle = low + (high - low) / 2;
        if found[middle].frame < frame {
            low = middle + 1;
        } else {
            high = middle;
        }
    }
    match found.get(low) {
        Some(found) if found.frame == frame => found.at,
        _ => 0,
    }
}
