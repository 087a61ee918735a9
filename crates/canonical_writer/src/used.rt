//! The entries used so far: those that stand in the file, and from the end of the first file on those of its closing.

ghost use Rattle.std.specs.Prelude.{◌≡◌, ◌≤◌, ◌↔◌, ◌⊎◌, ℕ, false, true, [], ◌∷◌, None, Err, IfSome, IsSome, IsTrue};
ghost use Rattle.std.specs.Prelude.{OnOk, OnErr, length};
ghost use Rattle.std.specs.Prelude.{IsErrOf};
ghost use Rattle.std.specs.Option.{option_copied};
ghost use Rattle.std.specs.Str.{bytes_eq};
ghost use Rattle.dictionary.specs.Dictionary.{entry_of};
ghost use Rattle.layout_plan.specs.Appends.{Appends};
ghost use Rattle.frame_content.specs.Labels.{printed_entry};
ghost use Rattle.canonical_file.specs.Records.{new_entry, with_entry};
ghost use Rattle.canonical_file.specs.Splices.{clashes, entries_used};
ghost use Rattle.canonical_writer.specs.Parts.{IsShortEntry, IsUsable, IsUsableClosing, AreConsistent};
ghost use Rattle.canonical_writer.specs.Parts.{last_entry};
ghost use Rattle.dictionary.specs.Same.{AreRead};

use crate::entries::{printed, push_entry};
use crate::errors::WriteError;
use canonical_file::Closing;
use dictionary::{AddFault, Dictionary, Entry, same_entry};
use std::alloc::{AllocError, Global};
use std::marker::Model;

/// The entries that stand in the file, in the order in which they were written, with their printed types.
#[derive(Drop)]
pub struct UsedEntries {
    entries: Dictionary,
    count: u32,
}

impl Model for UsedEntries {
    ghost use Rattle.std.specs.Prelude.{List};
    ghost use Rattle.dictionary.specs.declared.entries.Entry.{Entry};
    ghost use Rattle.canonical_writer.specs.Parts.{AreStanding};

    ghost Value = { List Entry };

    ghost view = { λ u. u.entries };

    ghost invariant = { λ u. AreStanding u.entries u.count };
}

impl UsedEntries {
    pub fn new(alloc: Global) -> UsedEntries
        ensures { result ≡ [] }
    {
        UsedEntries {
            entries: Dictionary::new(alloc),
            count: 0,
        }
    }

    /// Appends the entry, and keeps it as one that stands, where none of its class does.
    ///
    /// # Errors
    ///
    /// `Clash` where another entry is used of its class, comments aside, or its structure name under another class.
    pub fn push(
        &mut self,
        alloc: Global,
        closing: Option<&Closing>,
        class: u8,
        entry: &Entry,
        into: &mut Vec<u8>,
    ) -> Result<(), WriteError>
        requires class { entry.now.class ≡ class }
        requires usable { IsUsable entry.now }
        requires closing { IfSome closing (λ c. IsUsableClosing c.now) }
        ensures used { OnOk result (self.new ≡ with_entry self.old (printed_entry entry.now)) }
        ensures appends { Appends
            (λ bytes. OnOk result (IsShortEntry entry.now → bytes ≡ new_entry self.old (printed_entry entry.now)))
            into.old.items
            into.new.items }
        ensures no_clash { OnOk result
            (clashes (entries_used self.old (option_copied closing.entry)) (printed_entry entry.now) ≡ false) }
        ensures clash { (other : ℕ) → result ≡ Err (WriteError.Clash other) → (other ≡ class)
            × (AreConsistent (entries_used self.old (option_copied closing.entry))
            → clashes (entries_used self.old (option_copied closing.entry)) (printed_entry entry.now) ≡ true) }
        ensures consistent { OnOk result
            (AreConsistent (entries_used self.old (option_copied closing.entry))
            → AreConsistent (entries_used self.new (option_copied closing.entry))) }
        ensures errors { OnErr result (IsErrOf result (WriteError.Clash class)
            ⊎ IsErrOf result WriteError.NoMemory) }
    {
        if let Some(old) = self.entries.get(class) {
            return if same_entry(old, entry) {
                Ok(())
            } else {
                Err(WriteError::Clash { class })
            };
        }
        if clashes_with_closing(closing, entry) {
            return Err(WriteError::Clash { class });
        }
        self.push_new(alloc, class, entry, into)
    }

    /// Appends an entry of a class of which none stands.
    fn push_new(
        &mut self,
        alloc: Global,
        class: u8,
        entry: &Entry,
        into: &mut Vec<u8>,
    ) -> Result<(), WriteError>
        requires class { entry.now.class ≡ class }
        requires usable { IsUsable entry.now }
        requires new { entry_of self.old class ≡ None }
        ensures used { OnOk result (self.new ≡ with_entry self.old (printed_entry entry.now)) }
        ensures appends { Appends
            (λ bytes. OnOk result (IsShortEntry entry.now → bytes ≡ new_entry self.old (printed_entry entry.now)))
            into.old.items
            into.new.items }
        ensures no_clash { OnOk result (clashes self.old (printed_entry entry.now) ≡ false) }
        ensures clash { (other : ℕ) → result ≡ Err (WriteError.Clash other) → (other ≡ class)
            × (clashes self.old (printed_entry entry.now) ≡ true) }
        ensures errors { OnErr result (IsErrOf result (WriteError.Clash class)
            ⊎ IsErrOf result WriteError.NoMemory) }
    {
        let entry = printed(alloc, entry)?;
        push_entry(self.count, &entry, into)?;
        match self.entries.add(entry) {
            Ok(()) => {
                self.count = self.count.saturating_add(1);
                Ok(())
            }
            Err(AddFault::NameTwice) => Err(WriteError::Clash { class }),
            // Its class and its elements are such as are held.
            Err(_) => Err(WriteError::NoMemory),
        }
    }

    /// Whether an entry of the class stands.
    fn stands(&self, class: u16) -> bool
        ensures { IsTrue result ↔ IsSome (entry_of self.now class) }
    {
        match u8::try_from(class) {
            Ok(class) => self.entries.get(class).is_some(),
            Err(_) => false,
        }
    }

    /// Appends an entry of the closing, before which so many stand, where none of its class does.
    pub fn push_last(
        &self,
        number: u32,
        entry: &Entry,
        into: &mut Vec<u8>,
    ) -> Result<(), AllocError>
        requires few { length entry.now.elements ≤ 4096 }
        ensures { Appends
            (λ bytes. OnOk result (IsShortEntry entry.now
            → bytes ≡ last_entry self.now number entry.now))
            into.old.items
            into.new.items }
    {
        if self.stands(entry.class) {
            return Ok(());
        }
        push_entry(number, entry, into)
    }

    /// How many stand.
    pub fn count(&self) -> u32
        ensures { result ≡ length self.now }
    {
        self.count
    }

    /// How many stand after one of this class was appended where none stood.
    pub fn number_after(&self, entry: &Entry) -> u32
        ensures { result ≡ length (with_entry self.now entry.now) }
    {
        let class = entry.class;
        if self.stands(class) {
            self.count
        } else {
            self.count.saturating_add(1)
        }
    }
}

/// Whether an entry, of whose class none stands, clashes with those of the closing.
fn clashes_with_closing(closing: Option<&Closing>, entry: &Entry) -> bool
    requires read { AreRead entry.now.elements }
    requires closing { IfSome closing (λ c. IsUsableClosing c.now) }
    ensures { result ≡ clashes (entries_used [] (option_copied closing.entry)) (printed_entry entry.now) }
{
    let Some(closing) = closing else {
        return false;
    };
    match &closing.table {
        Some(table) => clashes_with_two(table, &closing.end, entry),
        None => clashes_with_one(&closing.end, entry),
    }
}

fn clashes_with_two(table: &Entry, end: &Entry, entry: &Entry) -> bool
    requires table_read { AreRead table.now.elements }
    requires end_read { AreRead end.now.elements }
    requires read { AreRead entry.now.elements }
    ensures { result ≡ clashes (table.now ∷ end.now ∷ []) (printed_entry entry.now) }
{
    if table.class == entry.class {
        return !same_entry(table, entry);
    }
    if end.class == entry.class {
        return !same_entry(end, entry);
    }
    is_named(entry, table) || is_named(entry, end)
}

fn clashes_with_one(end: &Entry, entry: &Entry) -> bool
    requires end_read { AreRead end.now.elements }
    requires read { AreRead entry.now.elements }
    ensures { result ≡ clashes (end.now ∷ []) (printed_entry entry.now) }
{
    if end.class == entry.class {
        return !same_entry(end, entry);
    }
    is_named(entry, end)
}

/// Whether an entry has the structure name of another.
fn is_named(entry: &Entry, other: &Entry) -> bool
    ensures { result ≡ bytes_eq entry.now.name other.now.name }
{
    entry.name.bytes() == other.name.bytes()
}
