//! What no clause says: that the calls succeed where memory is there, and that a region grows and is
//! used again once it is cleared.

use crate::{MOST_BYTES, Region, RegionFault, Span};
use std::process::Abort;
use std::test::Fail;

#[test]
fn spans_name_what_was_put_until_the_region_is_cleared(rt: HostRuntime) -> Result<(), Fail> {
    let mut region = Region::new(rt.alloc());
    region.reserve(8)?;
    let first = region.put(b"abc");
    let second = region.put(b"de");
    let longer = region.extend(second, b"fgh");
    assert_eq!(rt; region.held(), 8);
    assert_eq!(rt; region.at(first), b"abc".as_slice());
    assert_eq!(rt; region.at(second), b"de".as_slice());
    assert_eq!(rt; region.at(longer), b"defgh".as_slice());
    region.write(longer, 1, b"XYZ");
    assert_eq!(rt; region.at(longer), b"dXYZh".as_slice());
    assert_eq!(rt; region.at(second), b"dX".as_slice());
    assert_eq!(rt; region.at(first), b"abc".as_slice());
    region.clear();
    assert!(rt; !region.holds(first), "first");
    assert!(rt; !region.holds(longer), "longer");
    assert_eq!(rt; region.held(), 0);
    assert_eq!(rt; region.clears(), 1);
    assert!(rt; region.spare() >= 8, "spare");
    let again = region.put(b"ijk");
    assert_eq!(rt; region.at(again), b"ijk".as_slice());
    assert!(rt; !region.holds(first), "first again");
    Ok(())
}

#[test]
fn spans_stay_where_the_region_grows(rt: HostRuntime) -> Result<(), Fail> {
    let mut region = Region::new(rt.alloc());
    region.reserve(1)?;
    let first = region.put(b"a");
    region.reserve(70_000)?;
    let longer = region.extend(first, &[b'b'; 70_000]);
    region.reserve(200_000)?;
    let last = region.put(b"c");
    assert_eq!(rt; region.held(), 70_002);
    assert!(rt; region.spare() >= 199_999, "spare");
    assert_eq!(rt; region.at(first), b"a".as_slice());
    assert_eq!(rt; region.at(longer).len(), 70_001);
    assert_eq!(rt; region.at(last), b"c".as_slice());
    Ok(())
}

#[test]
fn more_than_the_most_bytes_are_refused_and_asked_of_no_memory(
    rt: HostRuntime,
) -> Result<(), Fail> {
    let mut region = Region::new(rt.alloc());
    region.reserve(4)?;
    let span = region.put(b"abcd");
    assert_eq!(rt; region.reserve(MOST_BYTES), Err(RegionFault::Full));
    assert_eq!(rt; region.reserve(MOST_BYTES - 3), Err(RegionFault::Full));
    assert_eq!(rt; region.at(span), b"abcd".as_slice());
    let none = Span {
        at: 4,
        length: 0,
        era: 0,
    };
    assert!(rt; region.holds(none), "none");
    let beyond = Span {
        at: 4,
        length: 1,
        era: 0,
    };
    assert!(rt; !region.holds(beyond), "beyond");
    Ok(())
}
