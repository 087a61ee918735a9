//! A shelf in memory.

mod reader;
mod slot;
mod writer;

ghost use Rattle.std.specs.Prelude.{◌≡◌, ◌≢◌, ◌⊎◌, ◌+◌, ◌-◌, ◌^◌, ◌<◌, ◌≤◌, ◌↔◌, ℕ, length, take};
ghost use Rattle.std.specs.Prelude.{[], ◌∷◌, ◌++◌, List, map, IfOk, OnOk, OnErr, IsErr, IsErrOf};
ghost use Rattle.std.specs.Prelude.{IsTrue, Some, None, option_copied, if◌then◌else◌};
ghost use Rattle.std.specs.Str.{bytes_eq};
ghost use Rattle.std.specs.Vec.{vec_len, vec_capacity};
ghost use Rattle.frame_outside.specs.Calls.{faults_after};
ghost use Rattle.frame_outside.specs.Counts.{next_count, Rose};
ghost use Rattle.frame_outside.specs.Shelf.{Outside, Told, IsSource, IsTarget, Opens, Refuses};
ghost use Rattle.frame_outside.specs.Shelf.{Makes, Passes, Gives, HandsOut, GivesFrom, Writes};
ghost use Rattle.frame_outside.specs.Shelf.{WritesPart, reading_at, without_slot};
ghost use Rattle.frame_outside.specs.Written.{AreApart, AreApart-prop};
ghost use Rattle.frame_outside.specs.MemSlot.{slot_of};

use crate::calls::Calls;
use crate::traits::{Failed, Shelf, ShelfError};
use reader::{Reader, copy_from};
use slot::MemSlot;
use std::alloc::{AllocError, Global};
use std::collections::BTreeMap;
use writer::Writer;

/// A shelf in memory. All calls of the trait are numbered together, from 1.
#[derive(Drop)]
pub struct MemShelf {
    alloc: Global,
    files: BTreeMap<String, Vec<u8>>,
    slots: Vec<MemSlot>,
    calls: Calls,
    misses: u64,
    taken: u64,
    most: usize,
    ghost some: { 0 < most },
    ghost apart: { AreApart (map slot_of slots.items) } by { AreApart-prop (map slot_of slots.items) },
}

impl MemShelf {
    ghost use Rattle.frame_outside.specs.MemShelf.{outside_of, file_of, fails_next, failing_calls};
    ghost use Rattle.frame_outside.specs.MemShelf.{calls_made, most_given, SameButContent};

    /// A shelf that holds no file, of which no call fails and each gives all that there is room for.
    pub fn new(alloc: Global) -> Self
        ensures files { (name : List ℕ) → file_of result name ≡ None }
        ensures slots { (outside_of result).slots ≡ [] }
        ensures faults { (outside_of result).faults ≡ 0 }
        ensures misses { (outside_of result).misses ≡ 0 }
        ensures taken { (outside_of result).taken ≡ 0 }
        ensures failing { failing_calls result ≡ [] }
        ensures calls { calls_made result ≡ 0 }
        ensures most { most_given result ≡ 2 ^ 64 - 1 }
    {
        MemShelf {
            alloc,
            files: BTreeMap::new(alloc),
            slots: Vec::new(alloc),
            calls: Calls::new(alloc),
            misses: 0,
            taken: 0,
            most: usize::MAX,
        }
    }

    /// Holds these bytes under that name, in place of what was held, for slots given from now on.
    /// No slot given before writes the file of that name any more.
    pub fn with_file(&mut self, name: &str, bytes: &[u8]) -> Result<(), AllocError>
        ensures ok { OnOk result ((q : List ℕ) →
            file_of self.new q ≡ (if bytes_eq name.now q then Some bytes.now else file_of self.old q)) }
        ensures without_slot { OnOk result
            ((outside_of self.new).slots ≡ without_slot name.now (outside_of self.old).slots) }
        ensures err { OnErr result ((q : List ℕ) → file_of self.new q ≡ file_of self.old q) }
        ensures kept { OnErr result ((outside_of self.new).slots ≡ (outside_of self.old).slots) }
        ensures others { SameButContent self.old self.new }
    {
        let key = String::from_str(self.alloc, name)?;
        let held = Vec::from_slice(self.alloc, bytes)?;
        self.files.insert(key, held)?;
        release(&mut self.slots, name);
        Ok(())
    }

    /// The bytes held under that name; `None` exactly where the name is not held.
    pub fn file(&self, name: &str) -> Option<&[u8]>
        ensures { option_copied result ≡ file_of self.now name.now }
    {
        for slot in &self.slots {
            if let Some(written) = slot.file(name) {
                return Some(written);
            }
        }
        match self.files.get(name) {
            Some(held) => Some(held.as_slice()),
            None => None,
        }
    }

    /// The bytes that `take` and `read_at` have handed out.
    pub fn taken(&self) -> u64
        ensures { result ≡ (outside_of self.now).taken }
    {
        self.taken
    }

    /// Makes the call of that number fail, counted over all calls of the trait.
    pub fn fail_at(&mut self, call: u64) -> Result<(), AllocError>
        ensures ok { OnOk result (failing_calls self.new ≡ failing_calls self.old ++ call ∷ []) }
        ensures err { OnErr result (failing_calls self.new ≡ failing_calls self.old) }
        ensures outside { outside_of self.new ≡ outside_of self.old }
        ensures calls { calls_made self.new ≡ calls_made self.old }
        ensures most { most_given self.new ≡ most_given self.old }
    {
        self.calls.fail_at(call)
    }

    /// Lets one call give at most n bytes.
    pub fn largest(&mut self, n: usize)
        requires { 0 < n }
        ensures most { most_given self.new ≡ n }
        ensures outside { outside_of self.new ≡ outside_of self.old }
        ensures failing { failing_calls self.new ≡ failing_calls self.old }
        ensures calls { calls_made self.new ≡ calls_made self.old }
    {
        self.most = n;
    }
}

impl Shelf for MemShelf {
    ghost use Rattle.frame_outside.specs.MemShelf.{outside_of, file_of, fails_next, failing_calls};
    ghost use Rattle.frame_outside.specs.MemShelf.{calls_made, most_given, CountsCall};

    ghost outside = { outside_of };

    /// Fails exactly where the number of this call is listed, the name is not held, or all slot
    /// numbers are given.
    fn source(&mut self, alloc: Global, name: &str) -> Result<u32, ShelfError>
        ensures ok { IfOk result (λ slot. Opens (outside_of self.old) (outside_of self.new) name.now
            slot) }
        ensures refused { OnErr result
            (Refuses (outside_of self.old) (outside_of self.new) name.now) }
        ensures missing { Told (outside_of self.old).files
            (λ held. held name.now ≡ None → IsErrOf result ShelfError.Failed) }
        ensures full { 2 ^ 32 ≤ length (outside_of self.old).slots →
            IsErrOf result ShelfError.Failed }
        ensures failed { IsErrOf result ShelfError.Failed →
            Rose (outside_of self.old).faults (outside_of self.new).faults }
        ensures fails { IsErrOf result ShelfError.Failed ↔
            (IsTrue (fails_next self.old) ⊎ (file_of self.old name.now ≡ None)
            ⊎ (2 ^ 32 ≤ length (outside_of self.old).slots)) }
        ensures kept { CountsCall self.old self.new }
        ensures faults { (outside_of self.new).faults
            ≡ faults_after result (outside_of self.old).faults }
    {
        let fails = self.calls.count_one();
        let Some(held) = self.file(name) else {
            self.misses = self.misses.saturating_add(1);
            self.calls.count_fault();
            return Err(ShelfError::Failed);
        };
        match u32::try_from(self.slots.len()) {
            Ok(slot) if !fails => {
                let Ok(reader) = Reader::new(alloc, held) else {
                    return Err(ShelfError::NoMemory);
                };
                if self.slots.push(MemSlot::Opened(reader)).is_err() {
                    return Err(ShelfError::NoMemory);
                }
                Ok(slot)
            }
            _ => {
                self.calls.count_fault();
                Err(ShelfError::Failed)
            }
        }
    }

    /// Fails exactly where the number of this call is listed.
    fn take(&mut self, slot: u32, into: &mut [u8]) -> Result<usize, Failed>
        requires { IsSource (outside_of self.old).slots slot }
        ensures room { IfOk result (λ n. n ≤ length into.new) }
        ensures passes { IfOk result
            (λ n. Passes (outside_of self.old) (outside_of self.new) slot n) }
        ensures gives { IfOk result (λ n. Gives (outside_of self.old) slot n into.new) }
        ensures refused { OnErr result (Passes (outside_of self.old) (outside_of self.new) slot 0) }
        ensures failed { OnErr result
            (Rose (outside_of self.old).faults (outside_of self.new).faults) }
        ensures fails { IsErr result ↔ IsTrue (fails_next self.old) }
        ensures most { IfOk result (λ n. n ≤ most_given self.old) }
        ensures kept { CountsCall self.old self.new }
        ensures fault { OnErr result
            ((outside_of self.new).faults ≡ next_count (outside_of self.old).faults) }
        ensures no_fault { OnOk result ((outside_of self.new).faults ≡ (outside_of self.old).faults) }
    {
        if self.calls.count_one() {
            self.calls.count_fault();
            return Err(Failed);
        }
        let count = self.slots[slot as usize].take(self.most, into);
        self.taken = self.taken.saturating_add(count as u64);
        Ok(count)
    }

    /// Fails exactly where the number of this call is listed.
    fn size(&mut self, slot: u32) -> Result<u64, Failed>
        requires { IsSource (outside_of self.old).slots slot }
        ensures size { IfOk result (λ n. Told (reading_at (outside_of self.old).slots slot)
            (λ reading. n ≡ length reading.opened)) }
        ensures kept { HandsOut (outside_of self.old) (outside_of self.new) 0 }
        ensures failed { OnErr result
            (Rose (outside_of self.old).faults (outside_of self.new).faults) }
        ensures fails { IsErr result ↔ IsTrue (fails_next self.old) }
        ensures calls { CountsCall self.old self.new }
        ensures fault { OnErr result
            ((outside_of self.new).faults ≡ next_count (outside_of self.old).faults) }
        ensures no_fault { OnOk result ((outside_of self.new).faults ≡ (outside_of self.old).faults) }
    {
        if self.calls.count_one() {
            self.calls.count_fault();
            return Err(Failed);
        }
        Ok(self.slots[slot as usize].opened().len() as u64)
    }

    /// Fails exactly where the number of this call is listed.
    fn read_at(&mut self, slot: u32, at: u64, into: &mut [u8]) -> Result<usize, Failed>
        requires { IsSource (outside_of self.old).slots slot }
        ensures room { IfOk result (λ n. n ≤ length into.new) }
        ensures hands_out { IfOk result
            (λ n. HandsOut (outside_of self.old) (outside_of self.new) n) }
        ensures gives { IfOk result (λ n. GivesFrom (outside_of self.old) slot at n into.new) }
        ensures refused { OnErr result (HandsOut (outside_of self.old) (outside_of self.new) 0) }
        ensures failed { OnErr result
            (Rose (outside_of self.old).faults (outside_of self.new).faults) }
        ensures fails { IsErr result ↔ IsTrue (fails_next self.old) }
        ensures most { IfOk result (λ n. n ≤ most_given self.old) }
        ensures kept { CountsCall self.old self.new }
        ensures fault { OnErr result
            ((outside_of self.new).faults ≡ next_count (outside_of self.old).faults) }
        ensures no_fault { OnOk result ((outside_of self.new).faults ≡ (outside_of self.old).faults) }
    {
        if self.calls.count_one() {
            self.calls.count_fault();
            return Err(Failed);
        }
        let count = copy_from(self.slots[slot as usize].opened(), at, self.most, into);
        self.taken = self.taken.saturating_add(count as u64);
        Ok(count)
    }

    /// Fails exactly where the number of this call is listed, or all slot numbers are given.
    fn target(&mut self, alloc: Global, name: &str) -> Result<u32, ShelfError>
        ensures ok { IfOk result (λ slot. Makes (outside_of self.old) (outside_of self.new) name.now
            slot) }
        ensures refused { OnErr result (HandsOut (outside_of self.old) (outside_of self.new) 0) }
        ensures full { 2 ^ 32 ≤ length (outside_of self.old).slots →
            IsErrOf result ShelfError.Failed }
        ensures failed { IsErrOf result ShelfError.Failed →
            Rose (outside_of self.old).faults (outside_of self.new).faults }
        ensures fails { IsErrOf result ShelfError.Failed ↔
            (IsTrue (fails_next self.old) ⊎ (2 ^ 32 ≤ length (outside_of self.old).slots)) }
        ensures kept { CountsCall self.old self.new }
        ensures faults { (outside_of self.new).faults
            ≡ faults_after result (outside_of self.old).faults }
    {
        let fails = self.calls.count_one();
        match u32::try_from(self.slots.len()) {
            Ok(slot) if !fails => {
                let Ok(writer) = Writer::new(alloc, name) else {
                    return Err(ShelfError::NoMemory);
                };
                if self.slots.reserve(1).is_err() {
                    return Err(ShelfError::NoMemory);
                }
                release(&mut self.slots, name);
                self.slots.push_reserved(MemSlot::Made(writer));
                Ok(slot)
            }
            _ => {
                self.calls.count_fault();
                Err(ShelfError::Failed)
            }
        }
    }

    /// Fails exactly where the number of this call is listed, and then appends nothing.
    fn put(&mut self, _alloc: Global, slot: u32, piece: &[u8]) -> Result<(), ShelfError>
        requires { IsTarget (outside_of self.old).slots slot }
        ensures ok { OnOk result (Writes (outside_of self.old) (outside_of self.new) slot piece.now) }
        ensures part { IsErrOf result ShelfError.Failed →
            WritesPart (outside_of self.old) (outside_of self.new) slot piece.now }
        ensures none { OnErr result (HandsOut (outside_of self.old) (outside_of self.new) 0) }
        ensures failed { IsErrOf result ShelfError.Failed →
            Rose (outside_of self.old).faults (outside_of self.new).faults }
        ensures fails { IsErrOf result ShelfError.Failed ↔ IsTrue (fails_next self.old) }
        ensures kept { CountsCall self.old self.new }
        ensures faults { (outside_of self.new).faults
            ≡ faults_after result (outside_of self.old).faults }
    {
        if self.calls.count_one() {
            self.calls.count_fault();
            return Err(ShelfError::Failed);
        }
        match self.slots[slot as usize].put(piece) {
            Ok(()) => Ok(()),
            Err(_) => Err(ShelfError::NoMemory),
        }
    }
}

/// No slot writes the file of that name any more.
fn release(slots: &mut Vec<MemSlot>, name: &str)
    ensures slots { map slot_of slots.new.items ≡ without_slot name.now (map slot_of slots.old.items) }
    ensures len { vec_len slots.new ≡ vec_len slots.old }
    ensures capacity { vec_capacity slots.new ≡ vec_capacity slots.old }
{
    for slot in slots.iter_mut() {
        slot.release(name);
    }
}
