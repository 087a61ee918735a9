//! Where a reader stands in its file, and the next item there: the structure at the place is read as far as it is
//! asked for, judged, and taken.

ghost use Rattle.std.specs.Prelude.{◌≡◌, ◌+◌, ◌-◌, ◌<◌, ◌≤◌, ◌⊎◌, ℕ, true, false, None, Some, Err, length};
ghost use Rattle.std.specs.Prelude.{IfOk, OnOk, OnErr, IsOk, IsSome};
ghost use Rattle.frame_outside.specs.Counts.{Rose};
ghost use Rattle.structure_source.specs.declared.source.Head.TheVariants as head;
ghost use Rattle.structure_source.specs.Source.{Stands, GoesOn, IsHead, bytes_drawn};
ghost use Rattle.file_grammar.specs.declared.fault.Fault.{Fault};
ghost use Rattle.file_grammar.specs.declared.kind.Kind.TheVariants as variant;
ghost use Rattle.file_grammar.specs.Structure.{record_limit};
ghost use Rattle.file_grammar.specs.Kind.{kind_of, is_frame_kind, is_target_kind};
ghost use Rattle.file_grammar.specs.Fault.{first_of, fault_here};
ghost use Rattle.item_reader.specs.Placed.{IsStructureAt, IsPlaced, StandsIn, body_of};
ghost use Rattle.item_reader.specs.Looked.{ReadsTo, IsWithinLook, look};
ghost use Rattle.item_reader.specs.Judged.{InEachFile, IsKept, ClosesBy, body_reasons};
ghost use Rattle.item_reader.specs.Entries.{Begins};
ghost use Rattle.item_reader.specs.State.{IsSound, HasRows, before_of};
ghost use Rattle.item_reader.specs.Cursor.{IsReady, HasPassed, InFile, GivesNext, table_body};
ghost use Rattle.item_reader.specs.Given.{entry_in};
ghost use Rattle.item_reader.specs.Reader.{IsEntry};

use crate::entries::{Run, begun_entry, read_run};
use crate::item::{Item, ReadError};
use crate::looked::Looked;
use crate::state::State;
use crate::steps::kept_beside;
use crate::structure::{Placed, placed_at};
use dictionary::Entry;
use file_grammar::{Fault, Kind, Reason, size_reason};
use frame_head::{Common, HEAD_SIZE};
use frame_outside::Shelf;
use link_graph::FrameLinks;
use structure_source::{Head, StructureSource};

/// A place in a file that is read, and what stands before it.
#[derive(Drop)]
pub struct Cursor {
    pub source: StructureSource,
    pub state: State,
    /// The links of the open frame's records, each read with its record.
    pub links: FrameLinks,
    /// The body of the last structure that is no record of a frame.
    pub own: Vec<u8>,
    /// What was looked at beyond the place reached.
    pub looked: Looked,
    /// The last entry, where it did not change the dictionary.
    pub kept: Option<Entry>,
    /// The instance of the last structure, 0 of an entry.
    pub instance: u32,
}

impl Cursor {
    /// Takes the item at the place reached, or answers the fault there.
    pub fn advance<S: Shelf>(&mut self, shelf: &mut S) -> Result<Item, ReadError>
        requires { IsReady (S.outside shelf.old) self.old }
        ensures answers { InFile (S.outside shelf.old) self.old (λ h. GivesNext h result self.new) }
        ensures kept { OnOk result (IsKept self.old.state self.new.state) }
        ensures rows { OnOk result (HasRows self.new.state self.new.links) }
        ensures moved { OnOk result (self.old.state.at < self.new.state.at) }
        ensures read { OnOk result (ReadsTo self.new.state.at self.new.looked self.new.source.at) }
        ensures closed { IfOk result (λ item. ClosesBy item self.new.state.closed) }
        ensures lends { IfOk result (λ item. IsEntry item
            → IsSome (entry_in (Some item) self.new.kept self.new.state.dictionary)) }
        ensures device { result ≡ Err ReadError.Device
            → Rose (S.outside shelf.old).faults (S.outside shelf.new).faults }
        ensures order { self.new.state.segment.order ≡ self.old.state.segment.order }
        ensures stands { Stands (S.outside shelf.new) self.new.source }
        ensures on { GoesOn (S.outside shelf.old) (S.outside shelf.new) self.old.source self.new.source }
        ensures ahead { OnErr result (InFile (S.outside shelf.old) self.old
            (λ h. IsWithinLook h.order h.file h.before.place (bytes_drawn self.new.source))) }
    {
        self.state.open_frame();
        let common = self.head(shelf)?;
        if let Some(reason) = size_reason(common.length) {
            return Err(self.state.fault(reason).into());
        }
        let placed = placed_at(self.state.at, common);
        self.instance = placed.instance;
        self.take(shelf, placed)
    }

    /// Takes the item that begins with the structure at the place reached.
    fn take<S: Shelf>(&mut self, shelf: &mut S, placed: Placed) -> Result<Item, ReadError>
        requires { HasPassed (S.outside shelf.old) self.old placed }
        ensures answers { InFile (S.outside shelf.old) self.old (λ h. GivesNext h result self.new) }
        ensures kept { OnOk result (IsKept self.old.state self.new.state) }
        ensures rows { OnOk result (HasRows self.new.state self.new.links) }
        ensures moved { OnOk result (self.old.state.at < self.new.state.at) }
        ensures read { OnOk result (ReadsTo self.new.state.at self.new.looked self.new.source.at) }
        ensures closed { IfOk result (λ item. ClosesBy item self.new.state.closed) }
        ensures lends { IfOk result (λ item. IsEntry item
            → IsSome (entry_in (Some item) self.new.kept self.new.state.dictionary)) }
        ensures device { result ≡ Err ReadError.Device
            → Rose (S.outside shelf.old).faults (S.outside shelf.new).faults }
        ensures order { self.new.state.segment.order ≡ self.old.state.segment.order }
        ensures stands { Stands (S.outside shelf.new) self.new.source }
        ensures on { GoesOn (S.outside shelf.old) (S.outside shelf.new) self.old.source self.new.source }
        ensures ahead { OnErr result (InFile (S.outside shelf.old) self.old
            (λ h. IsWithinLook h.order h.file h.before.place (bytes_drawn self.new.source))) }
    {
        // The others are kept out of line: a plain record then does not pay for the room that they need.
        match self.state.dictionary.kind(placed.class) {
            Kind::FrSH => self.take_entry(shelf, placed),
            Kind::FrSE => self.refuse_element(shelf, placed),
            Kind::FrTOC => self.take_table(shelf, placed),
            Kind::FrEndOfFile => self.take_file_end(shelf, placed),
            Kind::FrEndOfFrame => self.take_frame_end(shelf, placed),
            kind => self.take_record(shelf, placed, kind),
        }
    }

    /// The 14 bytes at the place reached.
    fn head<S: Shelf>(&mut self, shelf: &mut S) -> Result<Common, ReadError>
        requires { IsReady (S.outside shelf.old) self.old }
        ensures head { IfOk result (λ common. InFile (S.outside shelf.old) self.old
            (λ h. IsHead h.order h.file h.before.place (head.Whole common))) }
        ensures fault { (fault : Fault) → result ≡ Err (ReadError.Fault fault)
            → InFile (S.outside shelf.old) self.old (λ h. fault_here h ≡ Some fault) }
        ensures place { OnOk result (self.new.source.at ≡ self.old.state.at + 14) }
        ensures looked { OnOk result (self.new.looked ≡ Looked.Nothing) }
        ensures rest { self.new ≡ record self.old { source = self.new.source; looked = self.new.looked } }
        ensures device { result ≡ Err ReadError.Device
            → Rose (S.outside shelf.old).faults (S.outside shelf.new).faults }
        ensures stands { Stands (S.outside shelf.new) self.new.source }
        ensures on { GoesOn (S.outside shelf.old) (S.outside shelf.new) self.old.source self.new.source }
        ensures ahead { InFile (S.outside shelf.old) self.old
            (λ h. bytes_drawn self.new.source ≤ look h.order h.file h.before.place) }
    {
        match self.looked {
            Looked::Seen(common) => {
                self.looked = Looked::Nothing;
                return Ok(common);
            }
            Looked::Wrong(fault) => return Err(fault.into()),
            Looked::Nothing => {}
        }
        match self.source.head(shelf, self.state.order())? {
            Head::Whole(common) => Ok(common),
            Head::Cut => Err(self.state.fault(Reason::CutRecord).into()),
            Head::End => Err(self.state.fault(Reason::NoEnd).into()),
        }
    }

    /// Takes an FrSH with its run of FrSEs.
    #[inline(never)]
    fn take_entry<S: Shelf>(&mut self, shelf: &mut S, head: Placed) -> Result<Item, ReadError>
        requires passed { HasPassed (S.outside shelf.old) self.old head }
        requires kind { kind_of self.old.state.dictionary head.class ≡ variant.FrSH }
        ensures answers { InFile (S.outside shelf.old) self.old (λ h. GivesNext h result self.new) }
        ensures kept { OnOk result (IsKept self.old.state self.new.state) }
        ensures rows { OnOk result (HasRows self.new.state self.new.links) }
        ensures moved { OnOk result (self.old.state.at < self.new.state.at) }
        ensures read { OnOk result (ReadsTo self.new.state.at self.new.looked self.new.source.at) }
        ensures closed { IfOk result (λ item. ClosesBy item self.new.state.closed) }
        ensures lends { IfOk result (λ item. IsEntry item
            → IsSome (entry_in (Some item) self.new.kept self.new.state.dictionary)) }
        ensures device { result ≡ Err ReadError.Device
            → Rose (S.outside shelf.old).faults (S.outside shelf.new).faults }
        ensures order { self.new.state.segment.order ≡ self.old.state.segment.order }
        ensures stands { Stands (S.outside shelf.new) self.new.source }
        ensures on { GoesOn (S.outside shelf.old) (S.outside shelf.new) self.old.source self.new.source }
        ensures ahead { OnErr result (InFile (S.outside shelf.old) self.old
            (λ h. IsWithinLook h.order h.file h.before.place (bytes_drawn self.new.source))) }
    {
        self.bring_own(shelf, head)?;
        let mut entry = self.begin_entry(head)?;
        let alloc = *self.own.allocator();
        let order = self.state.order();
        let Run {
            elements,
            end,
            looked,
        } = read_run(
            alloc,
            &mut self.source,
            shelf,
            order,
            &self.state.built_in.element,
            &mut self.own,
        )?;
        entry.elements = elements;
        self.looked = looked;
        self.kept = kept_beside(&self.state.dictionary, &entry)?;
        self.instance = 0;
        self.state.take_entry(head, entry, end)
    }

    /// The entry that begins with an FrSH, of which the body was brought, without its elements.
    fn begin_entry(&self, head: Placed) -> Result<Entry, ReadError>
        requires sound { IsSound self.now.state }
        requires unclosed { self.now.state.closed ≡ false }
        requires here { IsStructureAt self.now.state.at head }
        requires size { head.length ≡ 14 + length self.now.own.items }
        requires kind { kind_of self.now.state.dictionary head.class ≡ variant.FrSH }
        ensures begins { IfOk result (λ entry. Begins self.now.state.segment.order self.now.own.items entry) }
        ensures reads { OnOk result (InEachFile self.now.state head self.now.own.items
            (λ h. first_of body_reasons h ≡ None)) }
        ensures fault { (fault : Fault) → result ≡ Err (ReadError.Fault fault)
            → InEachFile self.now.state head self.now.own.items (λ h. fault_here h ≡ Some fault) }
        ensures no_device { result ≡ Err ReadError.Device → ⊥ }
    {
        let plan = &self.state.built_in.structure;
        let body = self.own.as_slice();
        self.state.read_by(plan, head, body)?;
        let alloc = *self.own.allocator();
        Ok(begun_entry(alloc, self.state.order(), plan, body)?)
    }

    /// Answers the fault of an FrSE that is in no entry's run.
    #[inline(never)]
    fn refuse_element<S: Shelf>(
        &mut self,
        shelf: &mut S,
        element: Placed,
    ) -> Result<Item, ReadError>
        requires passed { HasPassed (S.outside shelf.old) self.old element }
        requires kind { kind_of self.old.state.dictionary element.class ≡ variant.FrSE }
        ensures answers { InFile (S.outside shelf.old) self.old (λ h. GivesNext h result self.new) }
        ensures never { IsOk result → ⊥ }
        ensures device { result ≡ Err ReadError.Device
            → Rose (S.outside shelf.old).faults (S.outside shelf.new).faults }
        ensures order { self.new.state.segment.order ≡ self.old.state.segment.order }
        ensures stands { Stands (S.outside shelf.new) self.new.source }
        ensures on { GoesOn (S.outside shelf.old) (S.outside shelf.new) self.old.source self.new.source }
        ensures ahead { OnErr result (InFile (S.outside shelf.old) self.old
            (λ h. IsWithinLook h.order h.file h.before.place (bytes_drawn self.new.source))) }
    {
        self.bring_own(shelf, element)?;
        Err(self.state.stray_fault(element, self.own.as_slice()).into())
    }

    /// Takes a contents table. Its body is kept where its layout is readable, and never judged.
    #[inline(never)]
    fn take_table<S: Shelf>(&mut self, shelf: &mut S, table: Placed) -> Result<Item, ReadError>
        requires passed { HasPassed (S.outside shelf.old) self.old table }
        requires kind { kind_of self.old.state.dictionary table.class ≡ variant.FrTOC }
        ensures answers { InFile (S.outside shelf.old) self.old (λ h. GivesNext h result self.new) }
        ensures kept { OnOk result (IsKept self.old.state self.new.state) }
        ensures rows { OnOk result (HasRows self.new.state self.new.links) }
        ensures moved { OnOk result (self.old.state.at < self.new.state.at) }
        ensures read { OnOk result (ReadsTo self.new.state.at self.new.looked self.new.source.at) }
        ensures closed { IfOk result (λ item. ClosesBy item self.new.state.closed) }
        ensures no_entry { IfOk result (λ item. IsEntry item → ⊥) }
        ensures device { result ≡ Err ReadError.Device
            → Rose (S.outside shelf.old).faults (S.outside shelf.new).faults }
        ensures order { self.new.state.segment.order ≡ self.old.state.segment.order }
        ensures stands { Stands (S.outside shelf.new) self.new.source }
        ensures on { GoesOn (S.outside shelf.old) (S.outside shelf.new) self.old.source self.new.source }
        ensures ahead { OnErr result (InFile (S.outside shelf.old) self.old
            (λ h. IsWithinLook h.order h.file h.before.place (bytes_drawn self.new.source))) }
    {
        if let Some(fault) = self.state.table_fault(table) {
            return Err(self.pass_over(shelf, table, fault));
        }
        self.bring_table(shelf, table)?;
        Ok(self.state.take_table(table))
    }

    /// Takes the end of the file, where no byte stands after it.
    #[inline(never)]
    fn take_file_end<S: Shelf>(&mut self, shelf: &mut S, end: Placed) -> Result<Item, ReadError>
        requires passed { HasPassed (S.outside shelf.old) self.old end }
        requires kind { kind_of self.old.state.dictionary end.class ≡ variant.FrEndOfFile }
        ensures answers { InFile (S.outside shelf.old) self.old (λ h. GivesNext h result self.new) }
        ensures kept { OnOk result (IsKept self.old.state self.new.state) }
        ensures rows { OnOk result (HasRows self.new.state self.new.links) }
        ensures moved { OnOk result (self.old.state.at < self.new.state.at) }
        ensures read { OnOk result (ReadsTo self.new.state.at self.new.looked self.new.source.at) }
        ensures closed { IfOk result (λ item. ClosesBy item self.new.state.closed) }
        ensures no_entry { IfOk result (λ item. IsEntry item → ⊥) }
        ensures device { result ≡ Err ReadError.Device
            → Rose (S.outside shelf.old).faults (S.outside shelf.new).faults }
        ensures order { self.new.state.segment.order ≡ self.old.state.segment.order }
        ensures stands { Stands (S.outside shelf.new) self.new.source }
        ensures on { GoesOn (S.outside shelf.old) (S.outside shelf.new) self.old.source self.new.source }
        ensures ahead { OnErr result (InFile (S.outside shelf.old) self.old
            (λ h. IsWithinLook h.order h.file h.before.place (bytes_drawn self.new.source))) }
    {
        self.bring_own(shelf, end)?;
        let item = self.state.take_file_end(end, self.own.as_slice())?;
        if self.source.skip(shelf, 1)? {
            return Err(self.state.fault(Reason::Trailing).into());
        }
        Ok(item)
    }

    /// Takes the end record of a frame.
    #[inline(never)]
    fn take_frame_end<S: Shelf>(&mut self, shelf: &mut S, placed: Placed) -> Result<Item, ReadError>
        requires passed { HasPassed (S.outside shelf.old) self.old placed }
        requires kind { kind_of self.old.state.dictionary placed.class ≡ variant.FrEndOfFrame }
        ensures answers { InFile (S.outside shelf.old) self.old (λ h. GivesNext h result self.new) }
        ensures kept { OnOk result (IsKept self.old.state self.new.state) }
        ensures rows { OnOk result (HasRows self.new.state self.new.links) }
        ensures moved { OnOk result (self.old.state.at < self.new.state.at) }
        ensures read { OnOk result (ReadsTo self.new.state.at self.new.looked self.new.source.at) }
        ensures closed { IfOk result (λ item. ClosesBy item self.new.state.closed) }
        ensures no_entry { IfOk result (λ item. IsEntry item → ⊥) }
        ensures device { result ≡ Err ReadError.Device
            → Rose (S.outside shelf.old).faults (S.outside shelf.new).faults }
        ensures order { self.new.state.segment.order ≡ self.old.state.segment.order }
        ensures stands { Stands (S.outside shelf.new) self.new.source }
        ensures on { GoesOn (S.outside shelf.old) (S.outside shelf.new) self.old.source self.new.source }
        ensures ahead { OnErr result (InFile (S.outside shelf.old) self.old
            (λ h. IsWithinLook h.order h.file h.before.place (bytes_drawn self.new.source))) }
    {
        self.bring_record(shelf, placed)?;
        self.state.take_frame_end(&mut self.links, placed)
    }

    /// Takes any other record of a frame.
    #[inline(always)]
    fn take_record<S: Shelf>(
        &mut self,
        shelf: &mut S,
        placed: Placed,
        kind: Kind,
    ) -> Result<Item, ReadError>
        requires passed { HasPassed (S.outside shelf.old) self.old placed }
        requires kind { kind ≡ kind_of self.old.state.dictionary placed.class }
        requires target { is_target_kind kind ≡ true }
        ensures answers { InFile (S.outside shelf.old) self.old (λ h. GivesNext h result self.new) }
        ensures kept { OnOk result (IsKept self.old.state self.new.state) }
        ensures rows { OnOk result (HasRows self.new.state self.new.links) }
        ensures moved { OnOk result (self.old.state.at < self.new.state.at) }
        ensures read { OnOk result (ReadsTo self.new.state.at self.new.looked self.new.source.at) }
        ensures closed { IfOk result (λ item. ClosesBy item self.new.state.closed) }
        ensures no_entry { IfOk result (λ item. IsEntry item → ⊥) }
        ensures device { result ≡ Err ReadError.Device
            → Rose (S.outside shelf.old).faults (S.outside shelf.new).faults }
        ensures order { self.new.state.segment.order ≡ self.old.state.segment.order }
        ensures stands { Stands (S.outside shelf.new) self.new.source }
        ensures on { GoesOn (S.outside shelf.old) (S.outside shelf.new) self.old.source self.new.source }
        ensures ahead { OnErr result (InFile (S.outside shelf.old) self.old
            (λ h. IsWithinLook h.order h.file h.before.place (bytes_drawn self.new.source))) }
    {
        self.bring_record(shelf, placed)?;
        self.state.take_record(&mut self.links, placed, kind)
    }

    /// Brings the body of a record of a frame. One that is longer than the frame may weigh is passed over.
    #[inline(always)]
    fn bring_record<S: Shelf>(&mut self, shelf: &mut S, placed: Placed) -> Result<(), ReadError>
        requires passed { HasPassed (S.outside shelf.old) self.old placed }
        requires kind { is_frame_kind (kind_of self.old.state.dictionary placed.class) ≡ true }
        ensures fits { OnOk result (self.old.state.load + placed.length ≤ record_limit) }
        ensures body { OnOk result (InFile (S.outside shelf.old) self.old (λ h.
            StandsIn h.order h.before.place placed self.new.state.segment.pending h.file)) }
        ensures size { OnOk result (placed.length ≡ 14 + length self.new.state.segment.pending) }
        ensures sound { OnOk result (IsSound self.new.state) }
        ensures before { before_of self.new.state ≡ before_of self.old.state }
        ensures segment { (self.new.state.segment.order ≡ self.old.state.segment.order)
            × (self.new.state.segment.nodes ≡ self.old.state.segment.nodes) }
        ensures rest { self.new ≡ record self.old {
          source = self.new.source;
          state = record self.old.state { segment = self.new.state.segment };
        } }
        ensures fault { (fault : Fault) → result ≡ Err (ReadError.Fault fault)
            → InFile (S.outside shelf.old) self.old (λ h. fault_here h ≡ Some fault) }
        ensures place { OnOk result (self.new.source.at ≡ self.old.state.at + placed.length) }
        ensures device { result ≡ Err ReadError.Device
            → Rose (S.outside shelf.old).faults (S.outside shelf.new).faults }
        ensures stands { Stands (S.outside shelf.new) self.new.source }
        ensures on { GoesOn (S.outside shelf.old) (S.outside shelf.new) self.old.source self.new.source }
        ensures ahead { InFile (S.outside shelf.old) self.old
            (λ h. bytes_drawn self.new.source ≤ look h.order h.file h.before.place) }
    {
        if self.state.is_overfull(placed) {
            let fault = self.state.fault(Reason::FrameLimit);
            return Err(self.pass_over(shelf, placed, fault));
        }
        self.bring_body(shelf, placed)
    }

    /// Brings the body of a record into the segment.
    #[inline(always)]
    fn bring_body<S: Shelf>(&mut self, shelf: &mut S, placed: Placed) -> Result<(), ReadError>
        requires passed { HasPassed (S.outside shelf.old) self.old placed }
        requires fits { self.old.state.load + placed.length ≤ record_limit }
        ensures body { OnOk result (InFile (S.outside shelf.old) self.old (λ h.
            StandsIn h.order h.before.place placed self.new.state.segment.pending h.file)) }
        ensures size { OnOk result (placed.length ≡ 14 + length self.new.state.segment.pending) }
        ensures sound { OnOk result (IsSound self.new.state) }
        ensures before { before_of self.new.state ≡ before_of self.old.state }
        ensures segment { (self.new.state.segment.order ≡ self.old.state.segment.order)
            × (self.new.state.segment.nodes ≡ self.old.state.segment.nodes) }
        ensures rest { self.new ≡ record self.old {
          source = self.new.source;
          state = record self.old.state { segment = self.new.state.segment };
        } }
        ensures cut { (fault : Fault) → result ≡ Err (ReadError.Fault fault)
            → InFile (S.outside shelf.old) self.old (λ h. fault_here h ≡ Some fault) }
        ensures place { OnOk result (self.new.source.at ≡ self.old.state.at + placed.length) }
        ensures device { result ≡ Err ReadError.Device
            → Rose (S.outside shelf.old).faults (S.outside shelf.new).faults }
        ensures stands { Stands (S.outside shelf.new) self.new.source }
        ensures on { GoesOn (S.outside shelf.old) (S.outside shelf.new) self.old.source self.new.source }
        ensures ahead { InFile (S.outside shelf.old) self.old
            (λ h. bytes_drawn self.new.source ≤ look h.order h.file h.before.place) }
    {
        let size = body_size(placed);
        let whole = self
            .source
            .bring_body(shelf, &mut self.state.segment, size)?;
        if !whole {
            return Err(self.state.fault(Reason::CutRecord).into());
        }
        Ok(())
    }

    /// Brings a body that is no frame record's.
    fn bring_own<S: Shelf>(&mut self, shelf: &mut S, placed: Placed) -> Result<(), ReadError>
        requires passed { HasPassed (S.outside shelf.old) self.old placed }
        ensures body { OnOk result (InFile (S.outside shelf.old) self.old (λ h.
            StandsIn h.order h.before.place placed self.new.own.items h.file)) }
        ensures size { OnOk result (placed.length ≡ 14 + length self.new.own.items) }
        ensures rest { self.new ≡ record self.old { source = self.new.source; own = self.new.own } }
        ensures cut { (fault : Fault) → result ≡ Err (ReadError.Fault fault)
            → InFile (S.outside shelf.old) self.old (λ h. fault_here h ≡ Some fault) }
        ensures place { OnOk result (self.new.source.at ≡ self.old.state.at + placed.length) }
        ensures device { result ≡ Err ReadError.Device
            → Rose (S.outside shelf.old).faults (S.outside shelf.new).faults }
        ensures stands { Stands (S.outside shelf.new) self.new.source }
        ensures on { GoesOn (S.outside shelf.old) (S.outside shelf.new) self.old.source self.new.source }
        ensures ahead { InFile (S.outside shelf.old) self.old
            (λ h. bytes_drawn self.new.source ≤ look h.order h.file h.before.place) }
    {
        self.own.clear();
        let size = body_size(placed);
        if !self.source.bring_bytes(shelf, &mut self.own, size)? {
            return Err(self.state.fault(Reason::CutRecord).into());
        }
        Ok(())
    }

    /// Brings the body of a contents table where its layout is readable, and else passes over it.
    fn bring_table<S: Shelf>(&mut self, shelf: &mut S, table: Placed) -> Result<(), ReadError>
        requires passed { HasPassed (S.outside shelf.old) self.old table }
        ensures placed { OnOk result (InFile (S.outside shelf.old) self.old (λ h.
            IsPlaced h.order h.file h.before.place table)) }
        ensures body { OnOk result (InFile (S.outside shelf.old) self.old (λ h. self.new.own.items
            ≡ table_body self.old.state.dictionary table (body_of h.file table))) }
        ensures rest { self.new ≡ record self.old { source = self.new.source; own = self.new.own } }
        ensures cut { (fault : Fault) → result ≡ Err (ReadError.Fault fault)
            → InFile (S.outside shelf.old) self.old (λ h. fault_here h ≡ Some fault) }
        ensures place { OnOk result (self.new.source.at ≡ self.old.state.at + table.length) }
        ensures device { result ≡ Err ReadError.Device
            → Rose (S.outside shelf.old).faults (S.outside shelf.new).faults }
        ensures stands { Stands (S.outside shelf.new) self.new.source }
        ensures on { GoesOn (S.outside shelf.old) (S.outside shelf.new) self.old.source self.new.source }
        ensures ahead { InFile (S.outside shelf.old) self.old
            (λ h. bytes_drawn self.new.source ≤ look h.order h.file h.before.place) }
    {
        if self.state.plans.plan(table.class).is_some() {
            return self.bring_own(shelf, table);
        }
        self.own.clear();
        self.pass(shelf, table)
    }

    /// Passes over a body.
    fn pass<S: Shelf>(&mut self, shelf: &mut S, placed: Placed) -> Result<(), ReadError>
        requires passed { HasPassed (S.outside shelf.old) self.old placed }
        ensures whole { OnOk result (InFile (S.outside shelf.old) self.old (λ h.
            IsPlaced h.order h.file h.before.place placed)) }
        ensures rest { self.new ≡ record self.old { source = self.new.source } }
        ensures cut { (fault : Fault) → result ≡ Err (ReadError.Fault fault)
            → InFile (S.outside shelf.old) self.old (λ h. fault_here h ≡ Some fault) }
        ensures place { OnOk result (self.new.source.at ≡ self.old.state.at + placed.length) }
        ensures device { result ≡ Err ReadError.Device
            → Rose (S.outside shelf.old).faults (S.outside shelf.new).faults }
        ensures stands { Stands (S.outside shelf.new) self.new.source }
        ensures on { GoesOn (S.outside shelf.old) (S.outside shelf.new) self.old.source self.new.source }
        ensures ahead { InFile (S.outside shelf.old) self.old
            (λ h. bytes_drawn self.new.source ≤ look h.order h.file h.before.place) }
    {
        if !self.source.skip(shelf, body_size(placed))? {
            return Err(self.state.fault(Reason::CutRecord).into());
        }
        Ok(())
    }

    /// The error of a structure of which its head tells a fault: that fault, where the structure is whole.
    fn pass_over<S: Shelf>(&mut self, shelf: &mut S, placed: Placed, fault: Fault) -> ReadError
        requires passed { HasPassed (S.outside shelf.old) self.old placed }
        ensures fault { (other : Fault) → result ≡ ReadError.Fault other
            → InFile (S.outside shelf.old) self.old (λ h. (fault_here h ≡ Some other)
            ⊎ ((other ≡ fault) × IsPlaced h.order h.file h.before.place placed)) }
        ensures rest { self.new ≡ record self.old { source = self.new.source } }
        ensures device { result ≡ ReadError.Device
            → Rose (S.outside shelf.old).faults (S.outside shelf.new).faults }
        ensures stands { Stands (S.outside shelf.new) self.new.source }
        ensures on { GoesOn (S.outside shelf.old) (S.outside shelf.new) self.old.source self.new.source }
        ensures ahead { InFile (S.outside shelf.old) self.old
            (λ h. bytes_drawn self.new.source ≤ look h.order h.file h.before.place) }
    {
        match self.pass(shelf, placed) {
            Ok(()) => fault.into(),
            Err(error) => error,
        }
    }
}

/// The bytes of a body.
fn body_size(placed: Placed) -> u32
    requires { IsStructureAt placed.at placed }
    ensures { result ≡ placed.length - 14 }
{
    (placed.length - HEAD_SIZE as u64) as u32
}
