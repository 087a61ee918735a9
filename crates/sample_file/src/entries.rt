//! The dictionary of the sample file.

ghost use Rattle.std.specs.Prelude.{◌≡◌, [], ◌∷◌, ◌++◌, map, Ok, IfOk, OnOk};
ghost use Rattle.dictionary.specs.Same.{AreRead};
ghost use Rattle.dictionary.specs.Dictionary.{step};
ghost use Rattle.sample_file.specs.Entries.{element, entry, sample_entries};
ghost use Rattle.sample_file.specs.Entries.{contents_table, file_end};
ghost use Rattle.sample_file.specs.Sample.{sample_closing};

use canonical_file::Closing;
use dictionary::{AddFault, Dictionary, Element, ElementList, Entry};
use std::alloc::{AllocError, Global};
use type_text::Name;

/// Names and types of elements, in their order.
type Table = &'static [(&'static str, &'static str)];

const FRAME_HEADER: Table = &[
    ("name", "STRING"),
    ("run", "INT_4S"),
    ("frame", "INT_4U"),
    ("GTimeS", "INT_4U"),
    ("GTimeN", "INT_4U"),
    ("dt", "REAL_8"),
    ("rawData", "PTR_STRUCT(FrRawData *)"),
    ("procData", "PTR_STRUCT(FrProcData *)"),
    ("simData", "PTR_STRUCT(FrSimData *)"),
    ("detectProc", "PTR_STRUCT(FrDetector *)"),
    ("chkSum", "INT_4U"),
];

const RAW_DATA: Table = &[
    ("name", "STRING"),
    ("firstAdc", "PTR_STRUCT(FrAdcData *)"),
    ("chkSum", "INT_4U"),
];

const CHANNEL: Table = &[
    ("name", "STRING"),
    ("channelNumber", "INT_4U"),
    ("sampleRate", "REAL_8"),
    ("data", "PTR_STRUCT(FrVect *)"),
    ("next", "PTR_STRUCT(FrAdcData *)"),
    ("chkSum", "INT_4U"),
];

const VECTOR: Table = &[
    ("name", "STRING"),
    ("compress", "INT_2U"),
    ("type", "INT_2U"),
    ("nData", "INT_8U"),
    ("nBytes", "INT_8U"),
    ("data", "CHAR[nBytes]"),
    ("nDim", "INT_4U"),
    ("nx", "INT_8U[nDim]"),
    ("dx", "REAL_8[nDim]"),
    ("startX", "REAL_8[nDim]"),
    ("unitX", "STRING[nDim]"),
    ("unitY", "STRING"),
    ("next", "PTR_STRUCT(FrVect *)"),
    ("chkSum", "INT_4U"),
];

const FRAME_END: Table = &[("run", "INT_4S"), ("frame", "INT_4U"), ("chkSum", "INT_4U")];

const CONTENTS_TABLE: Table = &[
    ("nFrame", "INT_4U"),
    ("GTimeS", "INT_4U[nFrame]"),
    ("positionH", "INT_8U[nFrame]"),
    ("nADC", "INT_4U"),
    ("name", "STRING[nADC]"),
    ("positionADC", "INT_8U[nADC][nFrame]"),
    ("nProc", "INT_4U"),
    ("nameProc", "STRING[nProc]"),
    ("positionProc", "INT_8U[nProc][nFrame]"),
    ("nSim", "INT_4U"),
    ("nameSim", "STRING[nSim]"),
    ("positionSim", "INT_8U[nSim][nFrame]"),
    ("chkSum", "INT_4U"),
];

const FILE_END: Table = &[
    ("nFrames", "INT_4U"),
    ("nBytes", "INT_8U"),
    ("seekTOC", "INT_8U"),
    ("chkSum", "INT_4U"),
];

/// The dictionary of a frame of the sample file.
#[tactic(auto, unfolding(crate::specs::Entries::sample_entries))]
pub fn sample_dictionary(alloc: Global) -> Result<Dictionary, AllocError>
    ensures { IfOk result (λ dictionary. dictionary ≡ sample_entries) }
{
    let mut dictionary = Dictionary::new(alloc);
    hold(&mut dictionary, entry(alloc, 3, "FrameH", FRAME_HEADER)?)?;
    hold(&mut dictionary, entry(alloc, 4, "FrRawData", RAW_DATA)?)?;
    hold(&mut dictionary, entry(alloc, 5, "FrAdcData", CHANNEL)?)?;
    hold(&mut dictionary, entry(alloc, 7, "FrVect", VECTOR)?)?;
    hold(&mut dictionary, entry(alloc, 9, "FrEndOfFrame", FRAME_END)?)?;
    Ok(dictionary)
}

/// The closing of the sample file.
#[tactic(auto, unfolding(crate::specs::Sample::sample_closing))]
pub fn sample_closing(alloc: Global) -> Result<Closing, AllocError>
    ensures { IfOk result (λ closing. closing ≡ sample_closing) }
{
    Ok(Closing {
        end: entry(alloc, 11, "FrEndOfFile", FILE_END)?,
        table: Some(entry(alloc, 10, "FrTOC", CONTENTS_TABLE)?),
    })
}

/// Adds an entry that may be held beside the others.
fn hold(dictionary: &mut Dictionary, entry: Entry) -> Result<(), AllocError>
    requires read { AreRead entry.elements }
    requires fresh { step dictionary.old entry ≡ Ok (dictionary.old ++ entry ∷ []) }
    ensures { OnOk result (dictionary.new ≡ dictionary.old ++ entry ∷ []) }
{
    match dictionary.add(entry) {
        Ok(()) => Ok(()),
        Err(AddFault::NoMemory) => Err(AllocError),
        Err(_) => unreachable!(),
    }
}

/// The entry of a class, with elements of these names and types.
fn entry(alloc: Global, class: u16, name: &str, table: Table) -> Result<Entry, AllocError>
    ensures { IfOk result
        (λ made. made ≡ entry class name.now (map (λ row. element row.0.now row.1.now) table.now)) }
{
    Ok(Entry {
        class,
        name: Name::new(alloc, name.as_bytes())?,
        comment: Name::new(alloc, b"")?,
        elements: elements(alloc, table)?,
    })
}

fn elements(alloc: Global, table: Table) -> Result<ElementList, AllocError>
    ensures { IfOk result (λ list. list ≡ map (λ row. element row.0.now row.1.now) table.now) }
{
    let mut list = ElementList::new(alloc);
    for (name, text) in table {
        list.push(element(alloc, name, text)?)?;
    }
    Ok(list)
}

/// An element without a comment.
fn element(alloc: Global, name: &str, text: &str) -> Result<Element, AllocError>
    ensures { IfOk result (λ made. made ≡ element name.now text.now) }
{
    let name = Name::new(alloc, name.as_bytes())?;
    let text = Name::new(alloc, text.as_bytes())?;
    let comment = Name::new(alloc, b"")?;
    Element::new(alloc, name, text, comment)
}
