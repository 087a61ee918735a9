//! Items taken one after another: each is judged, and then stands before the next place.

ghost use Rattle.std.specs.Prelude.{◌≡◌, ◌≢◌, ◌+◌, ◌≤◌, ℕ, List, [], false, true, length, max, IfOk, OnOk, Ok};
ghost use Rattle.std.specs.Prelude.{Err, None, Option, Some};
ghost use Rattle.std.specs.Option.{option_copied, option_map_or};
ghost use Rattle.dictionary.specs.Dictionary.{entry_of, IsDictionary};
ghost use Rattle.dictionary.specs.Same.{AreRead};
ghost use Rattle.file_grammar.specs.declared.kind.Kind.TheVariants as variant;
ghost use Rattle.file_grammar.specs.Structure.{record_limit, file_limit};
ghost use Rattle.file_grammar.specs.Kind.{kind_of, is_target_kind};
ghost use Rattle.file_grammar.specs.Fault.{fault_at, first_of};
ghost use Rattle.file_grammar.specs.Steps.{refusal_reason};
ghost use Rattle.item_reader.specs.Placed.{IsStructureAt, StandsIn};
ghost use Rattle.item_reader.specs.State.{IsSound, HasRows, KeepsRows, here_in};
ghost use Rattle.item_reader.specs.Judged.{InEachFile, Answers, AnswersHolding, Holds, IsKept, EndsFrame};
ghost use Rattle.item_reader.specs.Judged.{DescribesEntry, body_reasons, table_reasons, IsOpenStill};
ghost use Rattle.item_reader.specs.Judged.{ClosesBy, node_by, IsBeside};
ghost use Rattle.item_reader.specs.Given.{entry_in, entry_within};
ghost use Rattle.item_reader.specs.Reader.{IsEntry};

use crate::item::{Item, ReadError};
use crate::roles::Classes;
use crate::state::State;
use crate::structure::Placed;
use dictionary::{AddFault, Entry};
use file_grammar::{Kind, Reason};
use link_graph::{FrameLinks, Node, SegmentFault};
use std::alloc::AllocError;

impl State {
    /// Takes an FrSH with the run of FrSEs after it, which end at `end`. Of an entry with more elements than
    /// any may have its first are enough.
    pub fn take_entry(&mut self, head: Placed, entry: Entry, end: u64) -> Result<Item, ReadError>
        requires sound { IsSound self.old }
        requires open { self.old.closed ≡ false }
        requires here { IsStructureAt self.old.at head }
        requires kind { kind_of self.old.dictionary head.class ≡ variant.FrSH }
        requires read { AreRead entry.elements }
        requires after { head.at + head.length ≤ end }
        requires low { end ≤ max (head.at + head.length) file_limit }
        ensures answers { (file body : List ℕ) → StandsIn self.old.segment.order self.old.at head body file
            → first_of body_reasons (here_in self.old file) ≡ None
            → DescribesEntry self.old.segment.order file self.old.at entry end
            → Answers (here_in self.old file) result self.new }
        ensures no_device { result ≡ Err ReadError.Device → ⊥ }
        ensures moved { OnOk result (self.new.at ≡ end) }
        ensures closed { IfOk result (λ item. ClosesBy item self.new.closed) }
        ensures kept { OnOk result (self.old.segment.pending ≡ [] → IsKept self.old self.new) }
        ensures frame { OnOk result (IsOpenStill self.old self.new) }
        ensures rows { OnOk result (KeepsRows self.old self.new) }
        ensures order { self.new.segment.order ≡ self.old.segment.order }
        ensures short { OnOk result (length entry.elements ≤ 4096) }
        ensures lent { IfOk result (λ item. (kept : Option Entry) → IsBeside self.old.dictionary entry kept
            → entry_in (Some item) kept self.new.dictionary ≡ Some entry) }
    {
        let class = entry.class;
        let changed = self.hold(head, entry)?;
        self.at = end;
        Ok(Item::Entry {
            at: head.at,
            class,
            changed,
        })
    }

    /// Puts an entry into the dictionary, and answers whether that changed it.
    fn hold(&mut self, head: Placed, entry: Entry) -> Result<bool, ReadError>
        requires sound { IsSound self.old }
        requires here { IsStructureAt self.old.at head }
        requires kind { kind_of self.old.dictionary head.class ≡ variant.FrSH }
        requires read { AreRead entry.elements }
        ensures answers { (file body : List ℕ) (end : ℕ)
            → StandsIn self.old.segment.order self.old.at head body file
            → DescribesEntry self.old.segment.order file self.old.at entry end
            → AnswersHolding (here_in self.old file) result }
        ensures no_device { result ≡ Err ReadError.Device → ⊥ }
        ensures holds { IfOk result (λ changed. Holds self.old entry changed self.new) }
        ensures below { OnOk result (head.at + head.length ≤ file_limit) }
        ensures order { self.new.segment.order ≡ self.old.segment.order }
    {
        let class = entry.class;
        let known = held(&self.dictionary, class).is_some();
        if let Err(fault) = self.dictionary.add(entry) {
            return Err(self.refusal(fault));
        }
        if self.is_beyond(head) {
            return Err(self.fault(Reason::FileLimit).into());
        }
        match held(&self.dictionary, class) {
            Some(entry) if !known => {
                self.plans.learn(entry)?;
                Ok(true)
            }
            _ => Ok(false),
        }
    }

    /// The error of an entry that the dictionary does not take.
    fn refusal(&self, fault: AddFault) -> ReadError
        ensures { result ≡ option_map_or (λ reason. ReadError.Fault (fault_at reason (self.now.at, 0)))
            (refusal_reason fault) ReadError.NoMemory }
    {
        match fault {
            AddFault::ClassRange => self.fault(Reason::ClassRange).into(),
            AddFault::Redefined => self.fault(Reason::Redefined).into(),
            AddFault::NameTwice => self.fault(Reason::NameTwice).into(),
            AddFault::ElementLimit => self.fault(Reason::ElementLimit).into(),
            AddFault::NoMemory => ReadError::NoMemory,
        }
    }

    /// Takes a contents table that may stand here.
    pub fn take_table(&mut self, table: Placed) -> Item
        requires sound { IsSound self.old }
        requires open { self.old.closed ≡ false }
        requires frame { self.old.numbering ≡ None }
        requires here { IsStructureAt self.old.at table }
        requires kind { kind_of self.old.dictionary table.class ≡ variant.FrTOC }
        requires below { table.at + table.length ≤ file_limit }
        ensures answers { (body : List ℕ) → InEachFile self.old table body
            (λ h. first_of table_reasons h ≡ None → Answers h (Ok result) self.new) }
        ensures moved { self.new.at ≡ self.old.at + table.length }
        ensures closed { ClosesBy result self.new.closed }
        ensures kept { self.old.segment.pending ≡ [] → IsKept self.old self.new }
        ensures frame { IsOpenStill self.old self.new }
        ensures rows { KeepsRows self.old self.new }
        ensures no_entry { IsEntry result → ⊥ }
    {
        self.table = true;
        self.at += table.length;
        Item::Table {
            at: table.at,
            class: table.class,
            length: table.length,
        }
    }

    /// Takes the end of the file, with this body.
    pub fn take_file_end(&mut self, end: Placed, body: &[u8]) -> Result<Item, ReadError>
        requires sound { IsSound self.old }
        requires open { self.old.closed ≡ false }
        requires frame { self.old.numbering ≡ None }
        requires here { IsStructureAt self.old.at end }
        requires size { end.length ≡ 14 + length body.now }
        requires kind { kind_of self.old.dictionary end.class ≡ variant.FrEndOfFile }
        ensures answers { InEachFile self.old end body.now (λ h. Answers h result self.new) }
        ensures no_device { result ≡ Err ReadError.Device → ⊥ }
        ensures moved { OnOk result (self.new.at ≡ self.old.at + end.length) }
        ensures closed { IfOk result (λ item. ClosesBy item self.new.closed) }
        ensures kept { OnOk result (self.old.segment.pending ≡ [] → IsKept self.old self.new) }
        ensures frame { OnOk result (IsOpenStill self.old self.new) }
        ensures rows { OnOk result (KeepsRows self.old self.new) }
        ensures order { self.new.segment.order ≡ self.old.segment.order }
        ensures no_entry { IfOk result (λ item. IsEntry item → ⊥) }
    {
        self.read(end, body)?;
        if let Some(fault) = self.closing_fault(end, body) {
            return Err(fault.into());
        }
        let seek = self.table_seek(end, body);
        self.closed = true;
        self.at += end.length;
        Ok(Item::FileEnd {
            at: end.at,
            class: end.class,
            length: end.length,
            seek,
        })
    }

    /// Takes the end record of a frame, whose body is pending.
    /// The links of its records are given up.
    pub fn take_frame_end(
        &mut self,
        links: &mut FrameLinks,
        placed: Placed,
    ) -> Result<Item, ReadError>
        requires sound { IsSound self.old }
        requires rows { HasRows self.old links.old }
        requires open { self.old.closed ≡ false }
        requires frame { self.old.numbering ≡ None }
        requires here { IsStructureAt self.old.at placed }
        requires size { placed.length ≡ 14 + length self.old.segment.pending }
        requires kind { kind_of self.old.dictionary placed.class ≡ variant.FrEndOfFrame }
        requires fits { self.old.load + placed.length ≤ record_limit }
        ensures answers { InEachFile self.old placed self.old.segment.pending (λ h. Answers h result self.new) }
        ensures no_device { result ≡ Err ReadError.Device → ⊥ }
        ensures moved { OnOk result (self.new.at ≡ self.old.at + placed.length) }
        ensures closed { IfOk result (λ item. ClosesBy item self.new.closed) }
        ensures kept { OnOk result (IsKept self.old self.new) }
        ensures frame { OnOk result (EndsFrame self.old placed self.new) }
        ensures rows { OnOk result (HasRows self.new links.new) }
        ensures order { self.new.segment.order ≡ self.old.segment.order }
        ensures no_entry { IfOk result (λ item. IsEntry item → ⊥) }
    {
        self.weigh(placed)?;
        self.close_frame(links, placed)?;
        links.clear();
        self.segment.set_end(node(&self.dictionary, placed));
        self.header = false;
        self.load = 0;
        self.frames += 1;
        self.records += 1;
        self.at += placed.length;
        Ok(Item::FrameEnd {
            at: placed.at,
            class: placed.class,
        })
    }

    /// Takes any other record of a frame, whose body is pending. Its links are put behind those of the others.
    #[inline(always)]
    pub fn take_record(
        &mut self,
        links: &mut FrameLinks,
        placed: Placed,
        kind: Kind,
    ) -> Result<Item, ReadError>
        requires sound { IsSound self.old }
        requires rows { HasRows self.old links.old }
        requires open { self.old.closed ≡ false }
        requires frame { self.old.numbering ≡ None }
        requires here { IsStructureAt self.old.at placed }
        requires size { placed.length ≡ 14 + length self.old.segment.pending }
        requires kind { kind ≡ kind_of self.old.dictionary placed.class }
        requires target { is_target_kind kind ≡ true }
        requires fits { self.old.load + placed.length ≤ record_limit }
        ensures answers { InEachFile self.old placed self.old.segment.pending (λ h. Answers h result self.new) }
        ensures no_device { result ≡ Err ReadError.Device → ⊥ }
        ensures moved { OnOk result (self.new.at ≡ self.old.at + placed.length) }
        ensures closed { IfOk result (λ item. ClosesBy item self.new.closed) }
        ensures kept { OnOk result (IsKept self.old self.new) }
        ensures frame { OnOk result (self.new.numbering ≡ None) }
        ensures rows { OnOk result (HasRows self.new links.new) }
        ensures order { self.new.segment.order ≡ self.old.segment.order }
        ensures no_entry { IfOk result (λ item. IsEntry item → ⊥) }
    {
        let weight = self.weigh_links(links, placed)?;
        // Judged before the record joins the frame, and told after InstanceTwice.
        let later = self.record_fault(placed, kind);
        let number = match self.segment.add(node(&self.dictionary, placed)) {
            Ok(number) => number,
            Err(SegmentFault::InstanceTwice) => return Err(
                self.fault(Reason::InstanceTwice).into(),
            ),
            Err(SegmentFault::NoMemory) => return Err(ReadError::NoMemory),
        };
        if let Some(fault) = later {
            return Err(fault.into());
        }
        self.header = self.header || kind == Kind::FrameH;
        self.load += weight;
        self.records += 1;
        self.at += placed.length;
        Ok(Item::Plain {
            at: placed.at,
            class: placed.class,
            instance: placed.instance,
            node: number,
        })
    }
}

/// The node of a record.
fn node(dictionary: &Classes, placed: Placed) -> Node
    ensures { result ≡ node_by dictionary.now placed }
{
    Node {
        at: placed.at,
        class: placed.class,
        instance: placed.instance,
        root: dictionary.root(placed.class),
    }
}

/// The entry held of a class.
pub fn held(dictionary: &Classes, class: u16) -> Option<&Entry>
    ensures entry { option_copied result ≡ entry_within dictionary.now class }
    ensures found { class ≤ 255 → option_copied result ≡ entry_of dictionary.now class }
    ensures sound { class ≤ 255 → IsDictionary dictionary.now }
{
    if class > 255 {
        return None;
    }
    dictionary.get(class as u8)
}

/// A copy of an entry that will not change the dictionary: its class is built in, or held already.
pub fn kept_beside(dictionary: &Classes, entry: &Entry) -> Result<Option<Entry>, AllocError>
    ensures { IfOk result (λ kept. IsBeside dictionary.now entry.now kept) }
{
    if entry.class < 3 || held(dictionary, entry.class).is_some() {
        Ok(Some(entry.copy()?))
    } else {
        Ok(None)
    }
}
