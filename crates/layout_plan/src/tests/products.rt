//! Lists whose dimensions are numerals, and products of many dimensions.
use super::{fault, measured, ok};
use crate::*;
use scalar_types::Order;
use std::test::Fail;

#[test]
fn lists_by_numerals_are_whole_or_short(rt: HostRuntime) -> Result<(), Fail> {
    let alloc = rt.alloc();
    let mut zeros = Vec::new(alloc);
    for _i in 0..4112u32 {
        zeros.push(0)?;
    }
    let bytes = zeros.as_slice();
    for (text, size) in [
        ("CHAR[2]", 2),
        ("CHAR[4096]", 4096),
        ("CHAR[4097]", 4097),
        ("INT_8U[512]", 4096),
        ("INT_2S[2][1024]", 4096),
        ("COMPLEX_8[513]", 4104),
        ("COMPLEX_16[16][16]", 4096),
        ("PTR_STRUCT(X *)[682]", 4092),
        ("PTR_STRUCT(X *)[683]", 4098),
    ] {
        assert!(rt; 0 < size);
        assert!(rt; size + 4 <= bytes.len());
        let links = if text.starts_with("PTR") {
            size as u64 / 6
        } else {
            0
        };
        for (length, want) in [
            (size - 1, fault(0, BodyReason::BodyShort)),
            (size, ok(0, links)),
            (size + 1, fault(1, BodyReason::BodyLong)),
            (size + 4, ok(0, links)),
        ] {
            assert!(rt; length <= bytes.len());
            let found = measured(alloc, &[("a", text)], Order::Big, &bytes[..length])?;
            assert_eq!(rt; found, Some(want), "{text} {length}");
        }
    }
    Ok(())
}

#[test]
fn products_of_many_dimensions_end_at_none(rt: HostRuntime) -> Result<(), Fail> {
    let alloc = rt.alloc();
    for (first, last, want) in [
        ("[4294967295]", "[0]", ok(0, 0)),
        ("[4294967295]", "[n]", ok(0, 0)),
        ("[0]", "[m]", ok(0, 0)),
        ("[m]", "[n]", ok(0, 0)),
        ("[n]", "[4294967295]", ok(0, 0)),
        ("[m]", "[4294967295]", fault(2, BodyReason::BodyShort)),
        ("[4294967295]", "[m]", fault(2, BodyReason::BodyShort)),
    ] {
        let mut text = String::from_str(alloc, "COMPLEX_16")?;
        for _i in 0..340u32 {
            text.push_str(first)?;
        }
        text.push_str(last)?;
        let elements = [("n", "INT_8U"), ("m", "INT_8U"), ("v", text.as_str())];
        let body = [
            0, 0, 0, 0, 0, 0, 0, 0, 0xff, 0xff, 0xff, 0xff, 0xff, 0xff, 0xff, 0xff,
        ];
        let found = measured(alloc, &elements, Order::Little, &body)?;
        assert_eq!(rt; found, Some(want), "{first} {last}");
    }
    Ok(())
}
