//! The closing part of a file: FrTOC's entry and record, then FrEndOfFile's, each entry where it does not stand
//! already.

ghost use Rattle.std.specs.Prelude.{◌≡◌, ◌+◌, ◌^◌, ◌<◌, ◌≤◌, ℕ, List, [], IfOk, OnOk, length, true, codes};
ghost use Rattle.dictionary.specs.declared.entries.Entry.{Entry};
ghost use Rattle.dictionary.specs.Dictionary.{entry_of};
ghost use Rattle.layout_plan.specs.Appends.{Appends};
ghost use Rattle.file_grammar.specs.Structure.{file_limit, record_limit};
ghost use Rattle.file_grammar.specs.MayStand.{frames_limit};
ghost use Rattle.file_grammar.specs.Closing.{closes, field_named};
ghost use Rattle.contents_table.specs.Fit.{is_fit, IsTableLayout};
ghost use Rattle.contents_table.specs.Told.{values_told};
ghost use Rattle.canonical_file.specs.Bytes.{body_bytes, structure_bytes};
ghost use Rattle.canonical_file.specs.Records.{piece_bytes};
ghost use Rattle.canonical_file.specs.Written.{table_piece_by, end_part, closing_part, way_back};
ghost use Rattle.canonical_writer.specs.Closed.{written_of, written_then, table_bytes};
ghost use Rattle.canonical_writer.specs.EndOfFile.{told_of, FitsEnd};
ghost use Rattle.canonical_writer.specs.Parts.{IsUsable, IsShortEntry, IsUsableClosing, IsShortClosing};

use crate::end_values::{EndFields, EndOfFile, end_size};
use crate::records::{begin_structure, end_structure};
use crate::used::UsedEntries;
use canonical_file::Closing;
use contents_table::{TableBuilder, TableLayout};
use dictionary::{Element, Entry, first_named};
use frame_head::HEAD_SIZE;
use layout_plan::{Field, Plan, compile};
use std::alloc::{AllocError, Global};

/// What stands in the file before its closing part.
#[derive(Clone, Copy)]
pub struct FileSoFar<'a> {
    pub used: &'a UsedEntries,
    pub built: &'a TableBuilder,
    pub frames: u64,
    /// In bytes.
    pub size: u64,
}

impl FileSoFar<'_> {
    /// Appends the closing part. Where memory is out, a part of it may stand there.
    pub fn push_closing(
        &self,
        alloc: Global,
        closing: &Closing,
        into: &mut Vec<u8>,
    ) -> Result<(), AllocError>
        requires empty { into.old.items ≡ [] }
        requires usable { IsUsableClosing closing.now }
        requires size { self.now.size ≤ file_limit }
        requires frames { self.now.frames ≤ frames_limit }
        ensures { OnOk result (IsShortClosing closing.now
            → into.new.items ≡ closing_part (written_of self.now) closing.now) }
    {
        let mut number = self.used.count();
        let mut table = 0;
        if let Some(entry) = &closing.table {
            table = self.push_table(alloc, entry, into)?;
            number = self.used.number_after(entry);
        }
        self.push_end(alloc, number, &closing.end, table, into)
    }

    /// Appends FrTOC's entry and its record, and answers how many bytes the record has: 0 where it would pass
    /// 4,294,967,295, and then it is not written.
    fn push_table(
        &self,
        alloc: Global,
        entry: &Entry,
        into: &mut Vec<u8>,
    ) -> Result<u64, AllocError>
        requires usable { IsUsable entry.now }
        requires fit { is_fit entry.now ≡ true }
        ensures written { Appends
            (λ bytes. IfOk result (λ size. IsShortEntry entry.now
            → (bytes ≡ piece_bytes (table_piece_by (written_of self.now) entry.now))
            × (size ≡ length (table_piece_by (written_of self.now) entry.now).record_itself)))
            into.old.items
            into.new.items }
        ensures small { IfOk result (λ size. size ≤ record_limit) }
    {
        self.used.push_last(self.used.count(), entry, into)?;
        let Some(plan) = compile(alloc, entry)? else {
            unreachable!();
        };
        let Some(layout) = TableLayout::of(entry, &plan) else {
            unreachable!();
        };
        self.push_table_record(entry.class as u8, &layout, &plan, into)
    }

    /// Appends FrTOC's record, and answers how many bytes it has: 0 where it is not written.
    fn push_table_record(
        &self,
        class: u8,
        layout: &TableLayout,
        plan: &Plan,
        into: &mut Vec<u8>,
    ) -> Result<u64, AllocError>
        requires { IsTableLayout plan.now layout.now }
        ensures written { Appends
            (λ bytes. IfOk result (λ size. (bytes ≡ table_bytes class layout.now plan.now self.now.built.now)
            × (size ≡ length bytes)))
            into.old.items
            into.new.items }
        ensures small { IfOk result (λ size. size ≤ record_limit) }
    {
        let start = begin_structure(into)?;
        if !self.built.write(layout, plan, into)? {
            into.truncate(start);
            return Ok(0);
        }
        let size = (into.len() - start) as u64;
        end_structure(into, start, class, 0);
        Ok(size)
    }

    /// Appends FrEndOfFile's entry, before which so many stand in the file, and its record, where `into` is all that
    /// stands since, and `table` is the bytes of the table's record, the last there, or 0.
    fn push_end(
        &self,
        alloc: Global,
        number: u32,
        entry: &Entry,
        table: u64,
        into: &mut Vec<u8>,
    ) -> Result<(), AllocError>
        requires usable { IsUsable entry.now }
        requires closes { closes entry.now.elements ≡ true }
        requires size { self.now.size ≤ file_limit }
        requires frames { self.now.frames ≤ frames_limit }
        requires table { table ≤ record_limit }
        ensures { Appends
            (λ bytes. OnOk result (IsShortEntry entry.now → (after : List Entry) → length after ≡ number
            → entry_of after entry.now.class ≡ entry_of self.now.used.now entry.now.class
            → bytes ≡ end_part (written_then self.now after (length into.old.items)) table entry.now))
            into.old.items
            into.new.items }
    {
        let start = into.len();
        self.used.push_last(number, entry, into)?;
        let Some(plan) = compile(alloc, entry)? else {
            unreachable!();
        };
        let fields = plan.fields();
        let record = HEAD_SIZE as u64 + end_size(fields);
        let behind = (into.len() - start) as u64 + record;
        let end = EndOfFile {
            frames: self.frames,
            bytes: self.size + into.len() as u64 + record,
            seek: way_back(behind, table),
        };
        let told = end_fields(entry.elements.as_slice());
        push_end_record(entry.class as u8, fields, told, &end, into)
    }
}

/// The way back over what comes after the table's record and over the record itself, or 0 where there is none.
fn way_back(behind: u64, table: u64) -> u64
    requires { table + behind < 2 ^ 64 }
    ensures { result ≡ way_back behind table }
{
    if table == 0 { 0 } else { table + behind }
}

/// Appends FrEndOfFile's record.
fn push_end_record(
    class: u8,
    fields: &[Field],
    told: EndFields,
    end: &EndOfFile,
    into: &mut Vec<u8>,
) -> Result<(), AllocError>
    requires { FitsEnd fields.now told end.now }
    ensures { Appends
        (λ bytes. OnOk result (bytes ≡ structure_bytes class 0
        (body_bytes fields.now (values_told (told_of told end.now) fields.now))))
        into.old.items
        into.new.items }
{
    let start = begin_structure(into)?;
    end.push(fields, told, into)?;
    end_structure(into, start, class, 0);
    Ok(())
}

fn end_fields(elements: &[Element]) -> EndFields
    ensures frames { result.frames ≡ field_named elements.now (codes "nFrames") }
    ensures bytes { result.bytes ≡ field_named elements.now (codes "nBytes") }
    ensures seek { result.seek ≡ field_named elements.now (codes "seekTOC") }
{
    EndFields {
        frames: number_named(elements, b"nFrames"),
        bytes: number_named(elements, b"nBytes"),
        seek: number_named(elements, b"seekTOC"),
    }
}

/// The number of the first element of a name.
fn number_named(elements: &[Element], name: &[u8]) -> usize
    ensures { result ≡ field_named elements.now name.now }
{
    match first_named(elements, name) {
        Some((k, _)) => k,
        None => 0,
    }
}
