//! Where links stand in a body.

ghost use Rattle.std.specs.Prelude.{◌+◌, ◌≤◌, IfSome, length};

use super::{compiled_plan, link};
use crate::*;
use scalar_types::Order;
use std::test::Fail;
use type_text::Link;

/// A text, a link, a number, and two links that it counts.
const BODY: [u8; 23] = [
    2, 0, 0x41, 0, 7, 0, 1, 0, 0, 0, 2, 8, 0, 2, 0, 0, 0, 9, 0, 3, 0, 0, 0,
];

const LAYOUT: [(&str, &str); 4] = [
    ("t", "STRING"),
    ("p", "PTR_STRUCT(X *)"),
    ("n", "INT_1U"),
    ("v", "PTR_STRUCT(X *)[n]"),
];

/// Where the link of this number stands, or None where the body does not read or has no more links.
fn start_of(plan: &Plan, order: Order, body: &[u8], k: u64) -> Option<usize>
    ensures { IfSome result (λ at. at + 6 ≤ length body.now) }
{
    let Ok(measured) = measure(plan, order, body) else {
        return None;
    };
    if k >= measured.links {
        return None;
    }
    Some(link_start(plan, order, body, k))
}

#[test]
fn links_are_replaced_where_they_stand(rt: HostRuntime) -> Result<(), Fail> {
    let alloc = rt.alloc();
    let Some(plan) = compiled_plan(alloc, &LAYOUT)? else {
        return Err("the layout does not read".into());
    };
    let body = BODY.as_slice();
    let other = Link {
        class: 0x0102,
        instance: 0x0304_0506,
    };
    let six = [2, 1, 6, 5, 4, 3];
    for (k, place) in [(0, 4), (1, 11), (2, 17)] {
        let Some(at) = start_of(&plan, Order::Little, body, k) else {
            return Err("the body has fewer links".into());
        };
        assert_eq!(rt; at, place);
        let mut replaced = Vec::from_slice(alloc, &body[..at])?;
        replaced.extend_from_slice(&six)?;
        replaced.extend_from_slice(&body[at + 6..])?;
        assert_eq!(rt;
            link(&plan, Order::Little, &replaced, k),
            Some(other),
            "{k}"
        );
    }
    assert_eq!(rt; start_of(&plan, Order::Little, body, 3), None);
    Ok(())
}

#[test]
fn links_are_put_of_a_body_without_fault(rt: HostRuntime) -> Result<(), Fail> {
    let alloc = rt.alloc();
    let Some(plan) = compiled_plan(alloc, &LAYOUT)? else {
        return Err("the layout does not read".into());
    };
    let mut links = Vec::new(alloc);
    let short = BodyFault {
        field: 3,
        reason: BodyReason::BodyShort,
    };
    let whole = Measured {
        zero_texts: 0,
        links: 3,
    };
    for (body, told) in [
        (&BODY[..22], Err(short)),
        (&BODY[..], Ok(whole)),
        (&BODY[..16], Err(short)),
    ] {
        assert_eq!(rt;
            measure_links(&plan, Order::Little, body, &mut links)?,
            told
        );
    }
    let put = [(7, 1), (8, 2), (9, 3)].map(|(class, instance)| Link { class, instance });
    assert_eq!(rt; links.as_slice(), put.as_slice());
    Ok(())
}
