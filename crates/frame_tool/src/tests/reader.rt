//! Runs of `check` over structures after an entry that are longer than one piece of reading, or that tell more
//! than is there; and how far the shelf is read while an item is given.

use crate::check::check_file;
use crate::judgement::Finding;
use crate::pieces::Piece::{Bytes, Full, Times};
use crate::pieces::{Piece, Row, check_rows, joined};
use crate::worked_files::ONE_FRAME;
use file_grammar::{Fault, Reason};
use frame_outside::{MemShelf, Shelf};
use item_reader::{Item, ItemReader, ReadError};
use std::alloc::Global;
use std::test::Fail;

/// The first 14 bytes of an FrSE of 70,014 bytes.
const LONG_ELEMENT: &[u8] = b"\x7e\x11\x01\0\0\0\0\0\0\x02\x0b\0\0\0";

#[test]
fn judges_long_elements(rt: HostRuntime) -> Result<(), Fail> {
    let rows: [Row; 6] = [
        (
            "a text without a zero at its end",
            &[
                Full(0, 569),
                Bytes(LONG_ELEMENT),
                Bytes(b"\xff\xff"),
                Times(69998, b"a"),
            ],
            "fault: file 0 at 569 field 0: 11 BadText\n",
        ),
        (
            "the text after one of 65535 bytes has not as many",
            &[
                Full(0, 569),
                Bytes(LONG_ELEMENT),
                Bytes(b"\xff\xff"),
                Times(65534, b"a"),
                Bytes(b"\0\xff\xff"),
                Times(4461, b"a"),
            ],
            "fault: file 0 at 569 field 1: 9 BodyShort\n",
        ),
        (
            "69984 bytes after the fields",
            &[
                Full(0, 569),
                Bytes(LONG_ELEMENT),
                Bytes(b"\x02\0x\0\x07\0INT_4U\0\x01\0\0"),
                Times(69984, b"a"),
            ],
            "fault: file 0 at 569 field 3: 10 BodyLong\n",
        ),
        (
            "a text without a zero at its end, and one byte too few: 3 before 11",
            &[
                Full(0, 569),
                Bytes(LONG_ELEMENT),
                Bytes(b"\xff\xff"),
                Times(69997, b"a"),
            ],
            "fault: file 0 at 569 field 0: 3 CutRecord\n",
        ),
        (
            "an FrSE tells 4294967295 bytes",
            &[
                Full(0, 569),
                Bytes(b"\xff\xff\xff\xff\0\0\0\0\0\x02\x0b\0\0\0"),
                Bytes(b"\x02\0x\0\x07\0INT_4U\0\x01\0\0\0\0\0\0"),
            ],
            "fault: file 0 at 569 field 0: 3 CutRecord\n",
        ),
        (
            "texts of 65535, 5 and 4450 bytes, and the file ends",
            &[
                Full(0, 569),
                Bytes(LONG_ELEMENT),
                Bytes(b"\xff\xff"),
                Times(65534, b"a"),
                Bytes(b"\0\x05\0CHAR\0\x62\x11"),
                Times(4449, b"a"),
                Bytes(b"\0\0\0\0\0"),
            ],
            "fault: file 0 at 70583 field 0: 24 NoEnd\n",
        ),
    ];
    check_rows(&rt, rt.alloc(), rows.as_slice())?;
    Ok(())
}

/// The first item of the file `f`.
fn first_item<S: Shelf>(alloc: Global, shelf: &mut S) -> Result<Item, ReadError> {
    let slot = shelf.source(alloc, "f")?;
    let mut reader = ItemReader::begin(alloc, shelf, slot)?;
    reader.next(shelf)
}

#[test]
fn reads_no_further_than_the_look(rt: HostRuntime) -> Result<(), Fail> {
    let alloc = rt.alloc();
    // the bytes at 569, after the first entry; the most bytes that may be taken; and the fault there
    let rows: [(&'static [Piece], u64, u32, Reason); 3] = [
        (
            &[Bytes(b"\x0d\0\0\0\0\0\0\0"), Full(577, 3637)],
            66119,
            0,
            Reason::LengthSmall,
        ),
        (
            &[Bytes(&[255; 8]), Full(577, 3637)],
            66119,
            0,
            Reason::RecordLimit,
        ),
        (
            &[
                Bytes(LONG_ELEMENT),
                Bytes(b"\x02\0x\0\x07\0INT_4U\0\x01\0\0"),
                Times(69984, b"a"),
            ],
            136119,
            3,
            Reason::BodyLong,
        ),
    ];
    for (pieces, look, field, reason) in rows {
        let mut file = joined(alloc, &[Full(0, 569)])?;
        file.extend_from_slice(joined(alloc, pieces)?.as_slice())?;
        file.resize(300000, 0)?;
        let mut shelf = MemShelf::new(alloc);
        shelf.with_file("f", file.as_slice())?;
        let entry = Item::Entry {
            at: 40,
            class: 3,
            changed: true,
        };
        assert_eq!(rt; first_item(alloc, &mut shelf)?, entry, "{reason:?}");
        let taken = shelf.taken();
        assert!(rt; taken <= look, "{reason:?}");
        let fault = Fault {
            at: 569,
            field,
            reason,
        };
        let found = match check_file(alloc, &mut shelf, "f")? {
            Finding::Accepted(_) => None,
            Finding::Refused(found) => Some(found),
        };
        assert_eq!(rt; found, Some(fault));
        assert!(rt; shelf.taken().saturating_sub(taken) <= look, "{reason:?}");
    }
    Ok(())
}

/// After each item of the file of one frame: the place reached, the length of the body lent, the records
/// collected, and those in breadth-first order.
const LENT: [(u64, usize, u32, usize); 20] = [
    (569, 0, 0, 0),
    (640, 57, 1, 0),
    (809, 0, 1, 0),
    (839, 16, 2, 0),
    (1129, 0, 2, 0),
    (1180, 37, 3, 0),
    (1485, 0, 3, 0),
    (1534, 35, 4, 0),
    (2137, 0, 4, 0),
    (2227, 76, 5, 0),
    (2276, 35, 6, 0),
    (2366, 76, 7, 0),
    (2415, 35, 8, 0),
    (2505, 76, 9, 0),
    (2656, 0, 9, 0),
    (2682, 12, 9, 9),
    (3313, 0, 0, 0),
    (3404, 77, 0, 0),
    (3599, 0, 0, 0),
    (3637, 24, 0, 0),
];

/// The first of the rows that is not as the reader lends it.
fn first_other<S: Shelf>(alloc: Global, shelf: &mut S) -> Result<Option<usize>, ReadError> {
    let slot = shelf.source(alloc, "f")?;
    let mut reader = ItemReader::begin(alloc, shelf, slot)?;
    for (i, row) in LENT.iter().enumerate() {
        reader.next(shelf)?;
        let ordered = match reader.numbering() {
            Some(numbering) => numbering.sequence().len(),
            None => 0,
        };
        let lent = (
            reader.place(),
            reader.body().len(),
            reader.segment().len(),
            ordered,
        );
        if lent != *row {
            return Ok(Some(i));
        }
    }
    Ok(None)
}

#[test]
fn lends_what_was_read(rt: HostRuntime) -> Result<(), Fail> {
    let alloc = rt.alloc();
    for most in [1, 7, usize::MAX] {
        let mut shelf = MemShelf::new(alloc);
        shelf.with_file("f", ONE_FRAME)?;
        assert!(rt; 0 < most);
        shelf.largest(most);
        assert_eq!(rt; first_other(alloc, &mut shelf)?, None, "most {most}");
    }
    Ok(())
}
