//! The dictionary.
ghost use Rattle.std.specs.Prelude.{◌≡◌, ◌↔◌, ◌++◌, [], ◌∷◌, Some, None, Ok, Err, nat_eq, if◌then◌else◌, IfOk, OnOk};
ghost use Rattle.std.specs.Prelude.{OnErr, IfErr, IsOk, IsOkUnless};
ghost use Rattle.std.specs.Option.{option_copied};
ghost use Rattle.indexmap.specs.IndexMap.{get};
ghost use Rattle.dictionary.specs.Same.{AreRead, same_entries};
ghost use Rattle.dictionary.specs.Dictionary.{entry_of, class_named, is_built_in, is_out_of_range, is_too_long, step};
ghost use Rattle.dictionary.specs.Dictionary.{IsRedefined, IsDictionary};
ghost use Rattle.dictionary.specs.Verdicts.{IsNew, IsVerdict, IsVerdictOnNew};
ghost use Rattle.dictionary.specs.Names.{Puts, Leaves};

use crate::{Entry, same_entry};
use indexmap::IndexMap;
use std::alloc::{AllocError, Global};
use std::marker::Model;
use thiserror::Error;

/// The most elements of an entry.
const ELEMENT_LIMIT: usize = 4096;

/// Why an entry is not added.
#[derive(Clone, Copy, Debug, PartialEq, Eq, Error)]
pub enum AddFault {
    /// The class is 0 or above 255.
    #[error("ClassRange")]
    ClassRange,
    /// The class is held, and not by the same entry.
    #[error("Redefined")]
    Redefined,
    /// The class is not held, and the structure name is held under another class.
    #[error("NameTwice")]
    NameTwice,
    /// The entry has more than 4,096 elements.
    #[error("ElementLimit")]
    ElementLimit,
    #[error("NoMemory")]
    NoMemory,
}

/// Entries by class. Each structure name belongs to one class.
#[derive(Drop)]
pub struct Dictionary {
    /// In the order of addition.
    by_class: IndexMap<u8, Entry>,
    by_name: IndexMap<Vec<u8>, u8>,
}

impl Model for Dictionary {
    ghost use Rattle.std.specs.Prelude.{List};
    ghost use Rattle.std.specs.Str.{bytes_eq};
    ghost use Rattle.dictionary.specs.declared.entries.Entry.{Entry};
    ghost use Rattle.indexmap.specs.IndexMap.{values, get_by};
    ghost use Rattle.dictionary.specs.Kept.{IsKept};

    ghost Value = { List Entry };

    ghost view = { λ d. values d.by_class };

    ghost invariant = { λ d. IsKept d.by_class.entries (λ name. get_by (λ key. bytes_eq name key.items) d.by_name) };
}

impl Dictionary {
    /// A dictionary that holds no entry. It takes no memory yet.
    pub fn new(alloc: Global) -> Self
        ensures { result ≡ [] }
    {
        Dictionary {
            by_class: IndexMap::new(alloc),
            by_name: IndexMap::new(alloc),
        }
    }

    /// The entry held of a class. Takes no memory.
    pub fn get(&self, class: u8) -> Option<&Entry>
        ensures entry { option_copied result ≡ entry_of self.now class }
        ensures sound { IsDictionary self.now }
    {
        self.by_class.get(&class)
    }

    /// The class that is held under a structure name. Takes no memory.
    pub fn named(&self, name: &[u8]) -> Option<u8>
        ensures class { result ≡ class_named self.now name.now }
        ensures sound { IsDictionary self.now }
    {
        self.by_name.get(name).copied()
    }

    /// An equal dictionary, with comments and texts.
    pub fn copy(&self) -> Result<Dictionary, AllocError>
        ensures { IfOk result (λ copy. copy ≡ self.now) }
    {
        Ok(Dictionary {
            by_class: self.by_class.clone()?,
            by_name: self.by_name.clone()?,
        })
    }

    /// Adds an entry, each of whose elements has the type that its text reads as.
    ///
    /// Refuses it with the first fault that holds, in the order of `AddFault`. Of the classes 1 and 2, whose layouts
    /// are built in, only ElementLimit is judged. The dictionary changes only where the class is 3 to 255 and was not
    /// held. NoMemory comes only where an entry was to be held. A refused entry is dropped, and the dictionary stays as
    /// it was.
    pub fn add(&mut self, entry: Entry) -> Result<(), AddFault>
        requires { AreRead entry.elements }
        ensures redefined { (result ≡ Err AddFault.Redefined) ↔ IsRedefined self.old entry }
        ensures refused { IfErr (step self.old entry) (λ fault. result ≡ Err fault) }
        ensures accepted { IfOk (step self.old entry) (λ next. OnOk result (self.new ≡ next)) }
        ensures only_memory { OnOk (step self.old entry) (IsOkUnless result AddFault.NoMemory) }
        ensures known { step self.old entry ≡ Ok self.old → IsOk result }
        ensures err { OnErr result (self.new ≡ self.old) }
    {
        match self.verdict(&entry) {
            Verdict::Refused(fault) => Err(fault),
            Verdict::Known => Ok(()),
            Verdict::New(class) => self.hold(class, entry),
        }
    }

    /// What is to be done with an entry.
    #[tactic(auto, unfolding(crate::specs::Dictionary::step))]
    fn verdict(&self, entry: &Entry) -> Verdict
        requires { AreRead entry.now.elements }
        ensures told { IsVerdict self.now entry.now result }
        ensures sound { IsDictionary self.now }
    {
        // A proof knows what is held where a field is used.
        let _ = &self.by_class;
        if is_built_in(entry.class) {
            return verdict_on_length(entry);
        }
        let Some(class) = described_class(entry.class) else {
            return Verdict::Refused(AddFault::ClassRange);
        };
        match self.get(class) {
            Some(held) => verdict_beside(held, entry),
            None => self.verdict_on_new(class, entry),
        }
    }

    /// What is to be done with an entry of a class that is not held.
    fn verdict_on_new(&self, class: u8, entry: &Entry) -> Verdict
        ensures { IsVerdictOnNew self.now entry.now class result }
    {
        if self.named(entry.name.bytes()).is_some() {
            return Verdict::Refused(AddFault::NameTwice);
        }
        if is_too_long(entry) {
            return Verdict::Refused(AddFault::ElementLimit);
        }
        Verdict::New(class)
    }

    /// Holds an entry of a class that is not held.
    fn hold(&mut self, class: u8, entry: Entry) -> Result<(), AddFault>
        requires fresh { IsNew self.old entry }
        requires read { AreRead entry.elements }
        requires class { class ≡ entry.class }
        ensures ok { OnOk result (self.new ≡ self.old ++ entry ∷ []) }
        ensures only_memory { IsOkUnless result AddFault.NoMemory }
        ensures err { OnErr result (self.new ≡ self.old) }
    {
        match put(&mut self.by_class, &mut self.by_name, class, entry) {
            Ok(()) => Ok(()),
            Err(_) => Err(AddFault::NoMemory),
        }
    }
}

/// What is to be done with an entry.
enum Verdict {
    Refused(AddFault),
    /// Nothing.
    Known,
    /// To hold it under this class.
    New(u8),
}

/// What is to be done with an entry whose layout is built in.
fn verdict_on_length(entry: &Entry) -> Verdict
    ensures { result ≡ (if is_too_long entry.now then Verdict.Refused AddFault.ElementLimit else Verdict.Known) }
{
    if is_too_long(entry) {
        Verdict::Refused(AddFault::ElementLimit)
    } else {
        Verdict::Known
    }
}

/// What is to be done with an entry beside the one held of its class.
fn verdict_beside(held: &Entry, entry: &Entry) -> Verdict
    requires held_read { AreRead held.now.elements }
    requires read { AreRead entry.now.elements }
    ensures { result ≡ (if same_entries held.now entry.now then Verdict.Known else Verdict.Refused AddFault.Redefined) }
{
    if same_entry(held, entry) {
        Verdict::Known
    } else {
        Verdict::Refused(AddFault::Redefined)
    }
}

/// Whether the class is that of FrSH or FrSE, whose layouts are built in.
fn is_built_in(class: u16) -> bool
    ensures { result ≡ is_built_in class }
{
    class == 1 || class == 2
}

/// The class of an entry, where it is 1 to 255.
fn described_class(class: u16) -> Option<u8>
    ensures { result ≡ (if is_out_of_range class then None else Some class) }
{
    u8::try_from(class).ok().filter(|class| *class != 0)
}

fn is_too_long(entry: &Entry) -> bool
    ensures { result ≡ is_too_long entry.now }
{
    entry.elements.len() > ELEMENT_LIMIT
}

/// Puts an entry at the end, and its name beside it. Where memory is out, neither changes.
fn put(
    by_class: &mut IndexMap<u8, Entry>,
    by_name: &mut IndexMap<Vec<u8>, u8>,
    class: u8,
    entry: Entry,
) -> Result<(), AllocError>
    requires { get nat_eq by_class.old class ≡ None }
    ensures classes { OnOk result (by_class.new.entries ≡ by_class.old.entries ++ (class, entry) ∷ []) }
    ensures names { OnOk result (Puts by_name.old by_name.new entry.name class) }
    ensures classes_stay { OnErr result (by_class.new.entries ≡ by_class.old.entries) }
    ensures names_stay { OnErr result (Leaves by_name.old by_name.new) }
{
    // The second insert then needs no memory.
    by_class.reserve(1)?;
    let name = Vec::from_slice(*by_name.allocator(), entry.name.bytes())?;
    by_name.insert(name, class)?;
    let _ = by_class.insert(class, entry).unwrap();
    Ok(())
}
