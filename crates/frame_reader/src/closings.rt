//! The closing of a file, by its dictionary.

ghost use Rattle.std.specs.Prelude.{◌≡◌, ◌≤◌, false, IfOk, IfSome, length, None, Some, Ok, option_and_then};
ghost use Rattle.std.specs.Option.{option_copied};
ghost use Rattle.dictionary.specs.Dictionary.{IsDictionary};
ghost use Rattle.contents_table.specs.Fit.{is_fit};
ghost use Rattle.canonical_laws.specs.Content.{entry_named, if_fit, closing_by};
ghost use Rattle.canonical_writer.specs.Parts.{IsUsableClosing, printed_closing};
ghost use Rattle.frame_reader.specs.Closings.{is_closed, file_end, table_name};

use canonical_file::Closing;
use contents_table::TableLayout;
use dictionary::{Dictionary, Entry};
use file_grammar::closing::closes;
use layout_plan::compile;
use std::alloc::{AllocError, Global};

const FILE_END: &[u8] = b"FrEndOfFile";

const TABLE: &[u8] = b"FrTOC";

/// What a file of this dictionary is closed with: the entry of FrEndOfFile, and that of FrTOC where it is fit for a
/// contents table. None only where FrEndOfFile is not held with the layout that it has to have.
pub fn closing_of(alloc: Global, dictionary: &Dictionary) -> Result<Option<Closing>, AllocError>
    ensures usable { IfOk result (λ closing. IfSome closing IsUsableClosing) }
    ensures closing { IfOk result
        (λ closing. IfSome closing (λ c. printed_closing c ≡ closing_by dictionary.now)) }
    ensures none { result ≡ Ok None → is_closed dictionary.now ≡ false }
{
    let Some(end) = entry_named(dictionary, FILE_END) else {
        return Ok(None);
    };
    if !closes(end.elements.as_slice()) {
        return Ok(None);
    }
    Ok(Some(Closing {
        end: end.copy()?,
        table: table_of(alloc, dictionary)?,
    }))
}

/// The entry of FrTOC, where it is fit.
fn table_of(alloc: Global, dictionary: &Dictionary) -> Result<Option<Entry>, AllocError>
    ensures { IfOk result (λ table. table ≡ option_and_then if_fit (entry_named dictionary.now table_name)) }
{
    let Some(entry) = entry_named(dictionary, TABLE) else {
        return Ok(None);
    };
    if is_fit(alloc, entry)? {
        Ok(Some(entry.copy()?))
    } else {
        Ok(None)
    }
}

/// Whether the layout of an entry is fit for a contents table.
fn is_fit(alloc: Global, entry: &Entry) -> Result<bool, AllocError>
    requires { length entry.now.elements ≤ 4096 }
    ensures { IfOk result (λ fit. fit ≡ is_fit entry.now) }
{
    match compile(alloc, entry)? {
        Some(plan) => Ok(TableLayout::of(entry, &plan).is_some()),
        None => Ok(false),
    }
}

/// The entry held of a structure name.
fn entry_named<'a>(dictionary: &'a Dictionary, name: &[u8]) -> Option<&'a Entry>
    ensures entry { option_copied result ≡ entry_named dictionary.now name.now }
    ensures sound { IsDictionary dictionary.now }
{
    dictionary.get(dictionary.named(name)?)
}
