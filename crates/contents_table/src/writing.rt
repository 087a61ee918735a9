//! The canonical table of the frames built (LIGO-T970130 v8, FrTOC).

ghost use Rattle.std.specs.Prelude.{◌≡◌, ◌≤◌, ◌↔◌, true, false, Ok, IfOk, IsTrue, OnOk, OnErr, map, min};
ghost use Rattle.std.specs.Prelude.{sum_by};
ghost use Rattle.scalar_types.specs.declared.Order.TheVariants.{Little};
ghost use Rattle.layout_plan.specs.Appends.{Appends};
ghost use Rattle.layout_plan.specs.Body.{number_of, item_count, text_length, value_length};
ghost use Rattle.layout_plan.specs.Written.{IsWritten, AreClosedFields};
ghost use Rattle.contents_table.specs.Built.{name_in};
ghost use Rattle.contents_table.specs.Fit.{IsTableLayout};
ghost use Rattle.contents_table.specs.Told.{table_values, table_size};
ghost use Rattle.contents_table.specs.Tells.{tells_of, first_of_number, told_in, told_number, field_value};
ghost use Rattle.contents_table.specs.Tells.{Suits, AreTold, IsToldField};

use crate::builder::TableBuilder;
use crate::fit::TableLayout;
use crate::kind::Kind;
use crate::names::Names;
use crate::spelling::{
    TEXT_FRAME, TOO_MANY, item_size, push_blank, push_names, push_places, push_positions,
    push_single,
};
use file_grammar::RECORD_LIMIT;
use frame_head::HEAD_SIZE;
use layout_plan::{Field, Plan, capped_count};
use std::alloc::AllocError;

/// What a field of the table tells.
#[derive(Clone, Copy)]
pub enum Tells {
    /// Nothing: it is zero, empty or null.
    Nothing,
    Frames,
    Heads,
    Count(Kind),
    Names(Kind),
    /// The positions of a kind, and whether those of one name stand together, and not those of one frame.
    Positions(Kind, bool),
}

impl TableBuilder {
    /// Appends the body of the canonical table of these frames, in little-endian order, by a layout that is
    /// fit and its plan. False exactly where the record would pass 4,294,967,295 bytes, and then nothing is
    /// appended; nor is it where memory is out.
    pub fn write(
        &self,
        layout: &TableLayout,
        plan: &Plan,
        into: &mut Vec<u8>,
    ) -> Result<bool, AllocError>
        requires { IsTableLayout plan.now layout.now }
        ensures small { IfOk result
            (λ written. IsTrue written ↔ (table_size layout.now plan.now self.now ≤ 4294967295)) }
        ensures written { result ≡ Ok true
            → Appends
            (IsWritten Little plan.now (table_values layout.now plan.now self.now))
            into.old.items
            into.new.items }
        ensures unwritten { result ≡ Ok false → into.new.items ≡ into.old.items }
        ensures err { OnErr result (into.new.items ≡ into.old.items) }
    {
        let numbers = self.numbers(layout, plan)?;
        let fields = plan.fields();
        if !self.is_within_limit(layout, fields, numbers.as_slice()) {
            return Ok(false);
        }
        let start = into.len();
        if let Err(error) = self.push_fields(layout, fields, numbers.as_slice(), into) {
            into.truncate(start);
            return Err(error);
        }
        Ok(true)
    }

    /// The numbers that the fields tell, which later dimensions may name.
    fn numbers(&self, layout: &TableLayout, plan: &Plan) -> Result<Vec<u64>, AllocError>
        ensures { IfOk result
            (λ numbers. numbers.items ≡ map number_of (table_values layout.now plan.now self.now)) }
    {
        let mut numbers = Vec::new(self.alloc);
        for k in 0..plan.fields().len() {
            numbers.push(self.number(told_by(layout, k as u32)))?;
        }
        Ok(numbers)
    }

    fn number(&self, tells: Tells) -> u64
        ensures { result ≡ told_number self.now tells }
    {
        match tells {
            Tells::Frames => self.places().len() as u64,
            Tells::Count(kind) => self.names(kind).len() as u64,
            _ => 0,
        }
    }

    /// Whether the whole record is within the limit.
    fn is_within_limit(&self, layout: &TableLayout, fields: &[Field], numbers: &[u64]) -> bool
        requires { AreTold fields.now layout.now self.now numbers.now }
        ensures { IsTrue result ↔ (table_size layout.now fields.now self.now ≤ 4294967295) }
    {
        let mut size = HEAD_SIZE as u64;
        for (k, field) in fields.iter().enumerate() {
            size += self.field_size(told_by(layout, k as u32), field, numbers);
            if size > RECORD_LIMIT {
                return false;
            }
        }
        true
    }

    /// The bytes of a field, where a record may have as many, and else more than that.
    fn field_size(&self, tells: Tells, field: &Field, numbers: &[u64]) -> u64
        requires { Suits numbers.now self.now tells field.now }
        ensures { result ≡ min
            (value_length field.now.form (field_value numbers.now self.now tells field.now))
            4294967296 }
    {
        match tells {
            Tells::Names(kind) => names_size(self.names(kind)),
            _ => {
                let count = capped_count(field.counts.as_slice(), numbers, TOO_MANY as usize);
                (count as u64 * item_size(field.form)).min(TOO_MANY)
            }
        }
    }

    /// Appends all fields. Where memory is out, a part of them may stand there.
    fn push_fields(
        &self,
        layout: &TableLayout,
        fields: &[Field],
        numbers: &[u64],
        into: &mut Vec<u8>,
    ) -> Result<(), AllocError>
        requires table { AreTold fields.now layout.now self.now numbers.now }
        requires small { table_size layout.now fields.now self.now ≤ 4294967295 }
        ensures { Appends
            (λ bytes. OnOk result (AreClosedFields Little numbers.now fields.now
            (table_values layout.now fields.now self.now) bytes))
            into.old.items
            into.new.items }
    {
        for (k, field) in fields.iter().enumerate() {
            self.push(told_by(layout, k as u32), field, numbers, into)?;
        }
        Ok(())
    }

    /// Appends a field.
    fn push(
        &self,
        tells: Tells,
        field: &Field,
        numbers: &[u64],
        into: &mut Vec<u8>,
    ) -> Result<(), AllocError>
        requires suits { Suits numbers.now self.now tells field.now }
        requires few { told_number self.now tells ≤ 4294967295 }
        requires room { item_count numbers.now field.now.counts ≤ 4294967295 }
        ensures { Appends
            (λ bytes. OnOk result (IsToldField numbers.now self.now tells field.now bytes))
            into.old.items
            into.new.items }
    {
        match tells {
            Tells::Frames | Tells::Count(_) => push_single(field, self.number(tells), into),
            Tells::Heads => push_places(self.places(), into),
            Tells::Names(kind) => push_names(self.names(kind), into),
            Tells::Positions(kind, by_name) => {
                let frames = self.places().len() as u64;
                push_positions(self.names(kind), frames, by_name, into)
            }
            Tells::Nothing => push_blank(field, numbers, into),
        }
    }

    /// The places of the frames.
    fn places(&self) -> &[u64]
        ensures { result.now ≡ self.now.heads }
    {
        self.heads.as_slice()
    }
}

/// What a field of the table tells, by its number.
fn told_by(layout: &TableLayout, k: u32) -> Tells
    ensures { result ≡ told_in layout.now k }
{
    if k == layout.frames {
        return Tells::Frames;
    }
    if k == layout.heads {
        return Tells::Heads;
    }
    kind_told(layout, Kind::Adc, k)
        .or(kind_told(layout, Kind::Proc, k))
        .or(kind_told(layout, Kind::Sim, k))
        .or(kind_told(layout, Kind::Ser, k))
        .unwrap_or(Tells::Nothing)
}

/// What it tells of a kind.
fn kind_told(layout: &TableLayout, kind: Kind, k: u32) -> Option<Tells>
    ensures { result ≡ first_of_number (tells_of layout.now kind) k }
{
    let fields = layout.fields_of(kind)?;
    if k == fields.count {
        Some(Tells::Count(kind))
    } else if k == fields.names {
        Some(Tells::Names(kind))
    } else if k == fields.positions {
        Some(Tells::Positions(kind, fields.by_name))
    } else {
        None
    }
}

/// The bytes of names, where a record may have as many, and else more than that.
fn names_size(names: &Names) -> u64
    ensures { result ≡ min (sum_by text_length (map name_in names.now)) 4294967296 }
{
    let mut size = 0;
    for k in 0..names.len() {
        size += names.listed(k).name.bytes().len() as u64 + TEXT_FRAME;
        if size > RECORD_LIMIT {
            return TOO_MANY;
        }
    }
    size
}
