//! Bodies without their links, with their bytes spelled out by hand.

ghost use Rattle.std.specs.Prelude.{◌+◌, ◌≤◌, IfSome, length};

use super::compiled_plan;
use crate::*;
use scalar_types::Order;
use std::alloc::{AllocError, Global};
use std::test::Fail;

const ELEMENTS: [(&str, &str); 4] = [
    ("t", "STRING"),
    ("p", "PTR_STRUCT(X *)"),
    ("n", "INT_1U"),
    ("v", "PTR_STRUCT(X *)[n]"),
];

/// The body of a structure of these elements without its links, or None where it does not read.
fn nulled(
    alloc: Global,
    elements: &[(&str, &str)],
    body: &[u8],
) -> Result<Option<Vec<u8>>, AllocError> {
    let Some(plan) = compiled_plan(alloc, elements)? else {
        return Ok(None);
    };
    if measure(&plan, Order::Little, body).is_err() {
        return Ok(None);
    }
    Ok(Some(without_links(alloc, &plan, Order::Little, body)?))
}

#[test]
fn all_links_are_null_and_all_else_stays(rt: HostRuntime) -> Result<(), Fail> {
    let body = [
        2, 0, 0x41, 0, 7, 0, 1, 0, 0, 0, 2, 8, 0, 2, 0, 0, 0, 9, 0, 3, 0, 0, 0, 5, 6, 7, 8,
    ];
    let want = [
        2, 0, 0x41, 0, 0, 0, 0, 0, 0, 0, 2, 0, 0, 0, 0, 0, 0, 0, 0, 0, 0, 0, 0, 5, 6, 7, 8,
    ];
    let found = nulled(rt.alloc(), &ELEMENTS, &body)?;
    assert_eq!(rt; found.as_deref(), Some(want.as_slice()));
    Ok(())
}

/// Where the link of a field without dimension stands, or None where the body does not read.
fn start_of(plan: &Plan, body: &[u8], field: u32) -> Option<usize>
    ensures { IfSome result (λ at. at + 6 ≤ length body.now) }
{
    if measure(plan, Order::Little, body).is_err() {
        return None;
    }
    let found = plan.fields().get(field as usize)?;
    if !found.counts.is_empty() {
        return None;
    }
    match found.form {
        Form::Link => Some(plain_link_start(plan, Order::Little, body, field)),
        _ => None,
    }
}

#[test]
fn a_plain_link_stands_where_its_field_does(rt: HostRuntime) -> Result<(), Fail> {
    let Some(plan) = compiled_plan(rt.alloc(), &ELEMENTS)? else {
        return Err("the layout does not read".into());
    };
    let body = [2, 0, 0x41, 0, 7, 0, 1, 0, 0, 0, 0];
    assert_eq!(rt; start_of(&plan, &body, 1), Some(4));
    assert_eq!(rt; start_of(&plan, &body, 3), None);
    Ok(())
}
