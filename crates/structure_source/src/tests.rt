//! What a source gives of small files: by pieces, at calls that fail, and where a length lies.

ghost use Rattle.std.specs.Prelude.{◌≡◌, IfOk};
ghost use Rattle.structure_source.specs.Source.{Stands};

use crate::{Head, StructureSource};
use frame_head::Common;
use frame_outside::{MemShelf, Shelf, ShelfError};
use link_graph::Segment;
use scalar_types::Order;
use std::alloc::{AllocError, Global};
use std::test::Fail;

/// A structure of class 3 and instance 7 with the body `hello`, and the first bytes of another.
const FILE: &[u8] = b"\x13\0\0\0\0\0\0\0\x01\x03\x07\0\0\0helloabc";

#[test]
fn gives_structures_by_pieces(rt: HostRuntime) -> Result<(), Fail> {
    let alloc = rt.alloc();
    for most in [1, 7, usize::MAX] {
        let mut shelf = MemShelf::new(alloc);
        shelf.with_file("a", FILE)?;
        shelf.largest(most);
        let mut source = opened(alloc, &mut shelf, "a")?;
        let whole = Head::Whole(Common {
            length: 19,
            check: 1,
            class: 3,
            instance: 7,
        });
        let mut own = Vec::new(alloc);
        assert_eq!(rt;
            source.head(&mut shelf, Order::Little),
            Ok(whole),
            "most {most}"
        );
        assert_eq!(rt;
            source.bring_bytes(&mut shelf, &mut own, 2),
            Ok(true),
            "most {most}"
        );
        assert_eq!(rt;
            source.bring_bytes(&mut shelf, &mut own, 3),
            Ok(true),
            "most {most}"
        );
        assert_eq!(rt; own.as_slice(), b"hello".as_slice(), "most {most}");
        assert_eq!(rt; source.place(), 19, "most {most}");
        assert_eq!(rt;
            source.head(&mut shelf, Order::Little),
            Ok(Head::Cut),
            "most {most}"
        );
        assert_eq!(rt;
            source.head(&mut shelf, Order::Little),
            Ok(Head::End),
            "most {most}"
        );
        assert_eq!(rt; source.place(), 22, "most {most}");
    }
    Ok(())
}

#[test]
fn puts_bodies_into_a_segment(rt: HostRuntime) -> Result<(), Fail> {
    let alloc = rt.alloc();
    for (most, failing) in [(1, 5), (7, 3), (usize::MAX, 2)] {
        let mut shelf = MemShelf::new(alloc);
        shelf.with_file("a", FILE)?;
        shelf.largest(most);
        shelf.fail_at(failing)?;
        let mut source = opened(alloc, &mut shelf, "a")?;
        let mut segment = Segment::new(alloc, Order::Little);
        assert_eq!(rt;
            source.bring_body(&mut shelf, &mut segment, 20),
            Err(ShelfError::Failed),
            "most {most}"
        );
        let rest = 20 - source.place() as u32;
        assert_eq!(rt;
            source.bring_body(&mut shelf, &mut segment, rest),
            Ok(true),
            "most {most}"
        );
        assert_eq!(rt; segment.pending(), &FILE[..20], "most {most}");
        assert_eq!(rt;
            source.bring_body(&mut shelf, &mut segment, 3),
            Ok(false),
            "most {most}"
        );
        assert_eq!(rt; segment.pending(), FILE, "most {most}");
    }
    Ok(())
}

#[test]
fn skips_and_fills_to_the_end(rt: HostRuntime) -> Result<(), Fail> {
    let alloc = rt.alloc();
    let mut shelf = MemShelf::new(alloc);
    shelf.with_file("a", FILE)?;
    shelf.largest(7);
    let mut source = opened(alloc, &mut shelf, "a")?;
    let mut into = *b"++++";
    assert_eq!(rt; source.skip(&mut shelf, 0), Ok(true));
    assert_eq!(rt; shelf.taken(), 0);
    assert_eq!(rt; source.skip(&mut shelf, 14), Ok(true));
    assert_eq!(rt; shelf.taken(), 14);
    assert_eq!(rt; source.fill(&mut shelf, &mut into), Ok(4));
    assert_eq!(rt; into, *b"hell");
    assert_eq!(rt; source.skip(&mut shelf, 2), Ok(true));
    assert_eq!(rt; source.fill(&mut shelf, &mut into), Ok(2));
    assert_eq!(rt; into, *b"bcll");
    assert_eq!(rt; source.skip(&mut shelf, 1), Ok(false));
    assert_eq!(rt; source.place(), 22);
    Ok(())
}

#[test]
fn goes_on_after_a_call_that_fails(rt: HostRuntime) -> Result<(), Fail> {
    let alloc = rt.alloc();
    for failing in 2..7 {
        let mut shelf = MemShelf::new(alloc);
        shelf.with_file("a", FILE)?;
        shelf.largest(7);
        shelf.fail_at(failing)?;
        let mut source = opened(alloc, &mut shelf, "a")?;
        let mut own = Vec::new(alloc);
        let passed = 7 * (failing - 2);
        assert_eq!(rt;
            source.bring_bytes(&mut shelf, &mut own, 30),
            Err(ShelfError::Failed),
            "at {failing}"
        );
        assert_eq!(rt; source.place(), passed.min(22), "at {failing}");
        assert_eq!(rt;
            source.bring_bytes(&mut shelf, &mut own, 30),
            Ok(false),
            "at {failing}"
        );
        assert_eq!(rt; own.as_slice(), FILE, "at {failing}");
        assert_eq!(rt; source.place(), 22, "at {failing}");
    }
    Ok(())
}

#[test]
fn takes_no_memory_by_a_length_that_lies(rt: HostRuntime) -> Result<(), Fail> {
    let alloc = rt.alloc();
    let mut shelf = MemShelf::new(alloc);
    shelf.with_file("a", FILE)?;
    let mut source = opened(alloc, &mut shelf, "a")?;
    let mut own = Vec::new(alloc);
    assert_eq!(rt;
        source.bring_bytes(&mut shelf, &mut own, u32::MAX),
        Ok(false)
    );
    assert_eq!(rt; own.as_slice(), FILE);
    assert!(rt; own.capacity() < 1_000);
    assert_eq!(rt; source.place(), 22);
    Ok(())
}

/// A source at the beginning of the file of a name.
fn opened<S: Shelf>(alloc: Global, shelf: &mut S, name: &str) -> Result<StructureSource, ShelfError>
    ensures stands { IfOk result (λ source. Stands (S.outside shelf.new) source) }
    ensures begins { IfOk result (λ source. source.at ≡ 0) }
{
    let slot = shelf.source(alloc, name)?;
    match StructureSource::new(alloc, slot) {
        Ok(source) => Ok(source),
        Err(AllocError) => Err(ShelfError::NoMemory),
    }
}
