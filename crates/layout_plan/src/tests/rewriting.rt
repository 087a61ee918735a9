//! Bodies written again, with their bytes spelled out by hand.
use super::compiled_plan;
use crate::*;
use scalar_types::Order;
use std::alloc::{AllocError, Global};
use std::test::Fail;
use type_text::Link;

/// The body of a structure of these elements written again after a byte, or None where the layout or the body does not
/// read or has another number of links.
fn rewritten(
    alloc: Global,
    elements: &[(&str, &str)],
    order: Order,
    body: &[u8],
    links: &[Link],
) -> Result<Option<Vec<u8>>, AllocError> {
    let Some(plan) = compiled_plan(alloc, elements)? else {
        return Ok(None);
    };
    if measure(&plan, order, body).is_err() {
        return Ok(None);
    }
    let mut own = Vec::new(alloc);
    push_links(&plan, order, body, &mut own)?;
    if own.len() != links.len() {
        return Ok(None);
    }
    let mut into = Vec::from_slice(alloc, &[0xFF])?;
    rewrite(&plan, order, body, links, &mut into)?;
    Ok(Some(into))
}

#[test]
fn big_numbers_are_turned_round(rt: HostRuntime) -> Result<(), Fail> {
    let elements = [("a", "INT_8U"), ("b", "INT_8U"), ("c", "INT_2U[a][b]")];
    let body = [0, 0, 0, 0, 0, 0, 0, 2, 0, 0, 0, 0, 0, 0, 0, 1, 0, 1, 0, 2];
    let want = [
        0xFF, 2, 0, 0, 0, 0, 0, 0, 0, 1, 0, 0, 0, 0, 0, 0, 0, 1, 0, 2, 0,
    ];
    let found = rewritten(rt.alloc(), &elements, Order::Big, &body, &[])?;
    assert_eq!(rt; found.as_deref(), Some(want.as_slice()));
    Ok(())
}

#[test]
fn texts_links_and_check_sum_are_replaced(rt: HostRuntime) -> Result<(), Fail> {
    let elements = [
        ("t", "STRING"),
        ("u", "STRING"),
        ("p", "PTR_STRUCT(X *)"),
        ("n", "INT_2S"),
        ("q", "PTR_STRUCT(X *)[n]"),
        ("chkSum", "INT_4U"),
    ];
    let links = [
        Link {
            class: 5,
            instance: 6,
        },
        Link {
            class: 0x0102,
            instance: 0x0304_0506,
        },
        Link {
            class: 0,
            instance: 0,
        },
    ];
    let want = [
        0xFF, 1, 0, 0, 3, 0, 0x41, 0x42, 0, 5, 0, 6, 0, 0, 0, 2, 0, 2, 1, 6, 5, 4, 3, 0, 0, 0, 0,
        0, 0, 0, 0, 0, 0,
    ];
    for (order, body) in [
        (
            Order::Big,
            [
                0, 0, 0, 3, 0x41, 0x42, 0, 0, 7, 0, 0, 1, 0, 0, 2, 0, 1, 0, 0, 0, 2, 0, 3, 0, 0, 0,
                4, 0x12, 0x34, 0x56, 0x78, 9, 9, 9, 9,
            ],
        ),
        (
            Order::Little,
            [
                0, 0, 3, 0, 0x41, 0x42, 0, 7, 0, 0, 1, 0, 0, 2, 0, 1, 0, 2, 0, 0, 0, 3, 0, 4, 0, 0,
                0, 0x78, 0x56, 0x34, 0x12, 9, 9, 9, 9,
            ],
        ),
    ] {
        let found = rewritten(rt.alloc(), &elements, order, &body, &links)?;
        assert_eq!(rt; found.as_deref(), Some(want.as_slice()), "{order:?}");
    }
    Ok(())
}
