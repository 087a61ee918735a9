//! Small layouts and bodies with what `measure` answers.

ghost use Rattle.std.specs.Prelude.{◌≡◌, ◌<◌, Some, IfSome, length, slice_get};
ghost use Rattle.layout_plan.specs.Body.{HasBody};

mod built_in;
mod link_places;
mod plans;
mod products;
mod rewriting;
mod unlinked;

use super::*;
use dictionary::{Element, ElementList, Entry};
use scalar_types::Order;
use std::alloc::{AllocError, Global};
use std::test::Fail;
use type_text::{Link, Name};

/// An entry of this class with these elements, each a name and a type text.
pub fn entry(alloc: Global, class: u16, elements: &[(&str, &str)]) -> Result<Entry, AllocError> {
    let mut list = ElementList::new(alloc);
    for (name, text) in elements {
        list.push(element(alloc, name, text)?)?;
    }
    Ok(Entry {
        class,
        name: Name::new(alloc, b"X")?,
        comment: Name::new(alloc, b"")?,
        elements: list,
    })
}

fn element(alloc: Global, name: &str, text: &str) -> Result<Element, AllocError> {
    let name = Name::new(alloc, name.as_bytes())?;
    let text = Name::new(alloc, text.as_bytes())?;
    let comment = Name::new(alloc, b"")?;
    Element::new(alloc, name, text, comment)
}

/// The plan of a structure of these elements.
pub fn compiled_plan(alloc: Global, elements: &[(&str, &str)]) -> Result<Option<Plan>, AllocError> {
    let entry = entry(alloc, 3, elements)?;
    if entry.elements.len() > 4096 {
        return Ok(None);
    }
    compile(alloc, &entry)
}

/// What `measure` answers of the body, or None where the layout does not read.
pub fn measured(
    alloc: Global,
    elements: &[(&str, &str)],
    order: Order,
    body: &[u8],
) -> Result<Option<Result<Measured, BodyFault>>, AllocError> {
    match compiled_plan(alloc, elements)? {
        Some(plan) => Ok(Some(measure(&plan, order, body))),
        None => Ok(None),
    }
}

pub fn ok(zero_texts: u64, links: u64) -> Result<Measured, BodyFault> {
    Ok(Measured { zero_texts, links })
}

pub fn fault(field: u32, reason: BodyReason) -> Result<Measured, BodyFault> {
    Err(BodyFault { field, reason })
}

#[test]
fn layouts_read_or_do_not(rt: HostRuntime) -> Result<(), Fail> {
    for (first, second, third, reads) in [
        (("n", "INT_1U"), ("v", "INT_4S[n][2]"), ("w", "CHAR"), true),
        (("n", "INT_2U"), ("v", "CHAR[n]"), ("w", "REAL_8"), true),
        (("n", "INT_4U"), ("n", "INT_4S"), ("w", "STRING[n]"), true),
        (
            ("n", "INT_8U"),
            ("v", "COMPLEX_16[n]"),
            ("p", "PTR_STRUCT(FrVect *)"),
            true,
        ),
        (("n", "INT_4S"), ("v", "CHAR[n]"), ("w", "CHAR"), true),
        (("n", "CHAR"), ("v", "CHAR[n]"), ("w", "CHAR"), false),
        (("n", "REAL_4"), ("v", "CHAR[n]"), ("w", "CHAR"), false),
        (("n", "INT_4U[1]"), ("v", "CHAR[n]"), ("w", "CHAR"), false),
        (("v", "CHAR[n]"), ("n", "INT_4U"), ("w", "CHAR"), false),
        (("v", "CHAR"), ("n", "INT_4U[n]"), ("w", "CHAR"), false),
        (("n", "STRING"), ("n", "INT_4U"), ("w", "CHAR[n]"), false),
        (("v", "CHAR"), ("w", "CHAR"), ("n", "INT_3U"), false),
    ] {
        let plan = compiled_plan(rt.alloc(), &[first, second, third])?;
        assert_eq!(rt; plan.is_some(), reads, "{first:?} {second:?} {third:?}");
    }
    Ok(())
}

#[test]
fn bodies_are_measured(rt: HostRuntime) -> Result<(), Fail> {
    let alloc = rt.alloc();
    let short = fault(0, BodyReason::BodyShort);
    for (text, body, want) in [
        ("CHAR", [5, 0, 0, 0, 0].as_slice(), ok(0, 0)),
        ("CHAR", [5, 0, 0].as_slice(), fault(1, BodyReason::BodyLong)),
        ("STRING", [0, 0].as_slice(), ok(1, 0)),
        (
            "STRING",
            [1, 0, 0x41].as_slice(),
            fault(0, BodyReason::BadText),
        ),
        ("STRING", [3, 0, 0x41, 0].as_slice(), short),
        ("STRING", [2, 0, 0x41, 0].as_slice(), ok(0, 0)),
        (
            "COMPLEX_8",
            [0, 0, 0x80, 0x3f, 0, 0, 0, 0x40].as_slice(),
            ok(0, 0),
        ),
        ("COMPLEX_8", [0, 0, 0x80, 0x3f, 0, 0, 0].as_slice(), short),
        ("PTR_STRUCT(X *)", [1, 0, 2, 0, 0, 0].as_slice(), ok(0, 1)),
        ("PTR_STRUCT(X *)", [1, 0, 2, 0, 0].as_slice(), short),
        ("INT_4U[2]", [0, 0, 0, 0, 0, 0, 0, 0].as_slice(), ok(0, 0)),
        ("STRING[2]", [0, 0, 1, 0, 0].as_slice(), ok(1, 0)),
        (
            "CHAR[4294967295][4294967295][4294967295][4294967295][4294967295][4294967295][4294967295][0]",
            [].as_slice(),
            ok(0, 0),
        ),
        (
            "CHAR[4294967295][4294967295][4294967295][4294967295][4294967295][4294967295][4294967295][4294967295]",
            [].as_slice(),
            short,
        ),
    ] {
        let found = measured(alloc, &[("a", text)], Order::Little, body)?;
        assert_eq!(rt; found, Some(want), "{text} {body:?}");
    }
    Ok(())
}

#[test]
fn a_vector_is_measured(rt: HostRuntime) -> Result<(), Fail> {
    let elements = [
        ("name", "STRING"),
        ("compress", "INT_2U"),
        ("type", "INT_2U"),
        ("nData", "INT_8U"),
        ("nBytes", "INT_8U"),
        ("data", "CHAR[nBytes]"),
        ("nDim", "INT_4U"),
        ("nx", "INT_8U[nDim]"),
        ("dx", "REAL_8[nDim]"),
        ("startX", "REAL_8[nDim]"),
        ("unitX", "STRING[nDim]"),
        ("unitY", "STRING"),
        ("next", "PTR_STRUCT(FrVect *)"),
        ("chkSum", "INT_4U"),
    ];
    let body = [
        2, 0, 0x41, 0, 0, 0, 4, 0, 2, 0, 0, 0, 0, 0, 0, 0, 2, 0, 0, 0, 0, 0, 0, 0, 7, 8, 1, 0, 0,
        0, 2, 0, 0, 0, 0, 0, 0, 0, 0, 0, 0, 0, 0, 0, 0xf0, 0x3f, 0, 0, 0, 0, 0, 0, 0, 0, 2, 0,
        0x73, 0, 0, 0, 0, 0, 0, 0, 0, 0, 1, 2, 3, 4,
    ];
    let found = measured(rt.alloc(), &elements, Order::Little, &body)?;
    assert_eq!(rt; found, Some(ok(1, 1)));
    Ok(())
}

/// A body of two numbers of eight bytes and then these.
fn two_and(
    alloc: Global,
    order: Order,
    a: u64,
    b: u64,
    rest: &[u8],
) -> Result<Vec<u8>, AllocError> {
    let mut body = Vec::new(alloc);
    for n in [a, b] {
        match order {
            Order::Little => body.extend_from_slice(&n.to_le_bytes())?,
            Order::Big => body.extend_from_slice(&n.to_be_bytes())?,
        }
    }
    body.extend_from_slice(rest)?;
    Ok(body)
}

#[test]
fn counts_stand_in_the_same_body(rt: HostRuntime) -> Result<(), Fail> {
    let alloc = rt.alloc();
    for (text, order, a, b, rest, want) in [
        (
            "INT_2U[a][b]",
            Order::Little,
            u64::MAX,
            2,
            [].as_slice(),
            fault(2, BodyReason::BodyShort),
        ),
        (
            "INT_2U[a][b]",
            Order::Little,
            u64::MAX,
            0,
            [].as_slice(),
            ok(0, 0),
        ),
        (
            "INT_2U[a][b]",
            Order::Little,
            2,
            1,
            [1, 0, 2, 0].as_slice(),
            ok(0, 0),
        ),
        (
            "INT_2U[a][b]",
            Order::Big,
            2,
            1,
            [0, 1, 0, 2].as_slice(),
            ok(0, 0),
        ),
        (
            "STRING[a]",
            Order::Little,
            u64::MAX,
            0,
            [0; 10].as_slice(),
            fault(2, BodyReason::BodyShort),
        ),
        (
            "STRING[a][b]",
            Order::Big,
            3,
            1,
            [0, 0, 0, 2, 0x41, 0, 0, 0].as_slice(),
            ok(2, 0),
        ),
    ] {
        let body = two_and(alloc, order, a, b, rest)?;
        let elements = [("a", "INT_8U"), ("b", "INT_8U"), ("c", text)];
        let found = measured(alloc, &elements, order, &body)?;
        assert_eq!(rt; found, Some(want), "{text} {body:?}");
    }
    Ok(())
}

#[test]
fn counts_below_zero_are_none(rt: HostRuntime) -> Result<(), Fail> {
    for (count, order, body, want) in [
        ("INT_1S", Order::Big, [0xff].as_slice(), ok(0, 0)),
        (
            "INT_1S",
            Order::Big,
            [0x7f].as_slice(),
            fault(1, BodyReason::BodyShort),
        ),
        ("INT_2S", Order::Little, [0, 0x80].as_slice(), ok(0, 0)),
        (
            "INT_2S",
            Order::Big,
            [0, 1, 0, 7, 0, 0, 0, 0].as_slice(),
            ok(0, 1),
        ),
        ("INT_4S", Order::Little, [0xff; 4].as_slice(), ok(0, 0)),
        ("INT_8S", Order::Big, [0xff; 8].as_slice(), ok(0, 0)),
        (
            "INT_2S",
            Order::Little,
            [2, 0, 7, 0, 0, 0, 0, 0, 0, 0, 5, 0, 0, 0].as_slice(),
            ok(0, 2),
        ),
        (
            "INT_2S",
            Order::Little,
            [2, 0, 7, 0, 0, 0, 0, 0].as_slice(),
            fault(1, BodyReason::BodyShort),
        ),
    ] {
        let elements = [("n", count), ("v", "PTR_STRUCT(X *)[n]")];
        let found = measured(rt.alloc(), &elements, order, body)?;
        assert_eq!(rt; found, Some(want), "{count} {body:?}");
    }
    Ok(())
}

/// The number in a field, or None where the body does not read or the field is no single number.
fn number(plan: &Plan, order: Order, body: &[u8], field: u32) -> Option<u64> {
    let each = read_field(plan, order, body, field)?;
    if !each.counts.is_empty() {
        return None;
    }
    let Form::Number(_) = each.form else {
        return None;
    };
    Some(num_at(plan, order, body, field))
}

/// The text in a field, or None where the body does not read or the field is no single text.
fn text<'a>(plan: &Plan, order: Order, body: &'a [u8], field: u32) -> Option<&'a [u8]> {
    let each = read_field(plan, order, body, field)?;
    if !each.counts.is_empty() {
        return None;
    }
    let Form::Text = each.form else {
        return None;
    };
    Some(text_at(plan, order, body, field))
}

fn span(plan: &Plan, order: Order, body: &[u8], field: u32) -> Option<(usize, usize)> {
    read_field(plan, order, body, field)?;
    Some(span_of(plan, order, body, field))
}

/// The link of this number, or None where the body does not read or has no more links.
pub fn link(plan: &Plan, order: Order, body: &[u8], k: u64) -> Option<Link> {
    let Ok(measured) = measure(plan, order, body) else {
        return None;
    };
    if k >= measured.links {
        return None;
    }
    Some(link_at(plan, order, body, k))
}

/// The field of this number, or None where the body does not read or there is none.
fn read_field<'a>(plan: &'a Plan, order: Order, body: &[u8], field: u32) -> Option<&'a Field>
    ensures { IfSome result
        (λ each. HasBody order plan.now body.now × (field < length plan.now)
        × (slice_get plan.now field ≡ Some each.now)) }
{
    let Ok(_) = measure(plan, order, body) else {
        return None;
    };
    let fields = plan.fields();
    if field as usize >= fields.len() {
        return None;
    }
    Some(&fields[field as usize])
}

#[test]
fn fields_are_read_from_lent_bytes(rt: HostRuntime) -> Result<(), Fail> {
    let alloc = rt.alloc();
    let elements = [
        ("n", "INT_1U"),
        ("v", "INT_2U[n]"),
        ("t", "STRING"),
        ("w", "INT_4S"),
    ];
    let Some(plan) = compiled_plan(alloc, &elements)? else {
        return Err("the layout does not read".into());
    };
    let body = [2, 0, 1, 0, 2, 0, 3, 0x41, 0x42, 0, 0, 0, 1, 2, 9, 9, 9, 9].as_slice();
    let order = Order::Big;
    assert_eq!(rt; number(&plan, order, body, 0), Some(2));
    assert_eq!(rt; span(&plan, order, body, 1), Some((1, 5)));
    assert_eq!(rt; text(&plan, order, body, 2), Some(b"AB".as_slice()));
    assert_eq!(rt; number(&plan, order, body, 3), Some(0x0102));
    assert_eq!(rt; number(&plan, order, body, 1), None);
    let order = Order::Little;
    let bare = [0, 0, 0, 7, 0, 0, 0].as_slice();
    assert_eq!(rt; span(&plan, order, bare, 2), Some((1, 3)));
    assert_eq!(rt; text(&plan, order, bare, 2), Some(b"".as_slice()));
    assert_eq!(rt; number(&plan, order, bare, 3), Some(7));
    Ok(())
}

/// The field of the link of this number, or None where there is none.
fn field_of_link(plan: &Plan, order: Order, body: &[u8], k: u64) -> Option<u32> {
    let Ok(measured) = measure(plan, order, body) else {
        return None;
    };
    if k >= measured.links {
        return None;
    }
    Some(link_field(plan, order, body, k))
}

/// All links, or none where the body does not read.
fn links(
    alloc: Global,
    plan: &Plan,
    order: Order,
    body: &[u8],
) -> Result<Vec<FieldLink>, AllocError> {
    let mut links = Vec::new(alloc);
    if measure(plan, order, body).is_ok() {
        push_links(plan, order, body, &mut links)?;
    }
    Ok(links)
}

/// A field's number, and the class and instance of a link in it.
type Told = (u32, u16, u32);

#[test]
fn links_of_lists_are_read_in_turn(rt: HostRuntime) -> Result<(), Fail> {
    let alloc = rt.alloc();
    let before = [
        ("n", "INT_1S"),
        ("v", "PTR_STRUCT(X *)[n]"),
        ("t", "STRING[2]"),
        ("w", "PTR_STRUCT(X *)"),
    ];
    let after = [
        ("n", "INT_1S"),
        ("w", "PTR_STRUCT(X *)"),
        ("t", "STRING[2]"),
        ("v", "PTR_STRUCT(X *)[n]"),
    ];
    let one = [0xff, 0, 0, 2, 0, 0x41, 0, 9, 0, 1, 0, 0, 0].as_slice();
    let many = [
        3, 1, 0, 2, 0, 0, 0, 3, 0, 4, 0, 0, 0, 0, 0, 6, 0, 0, 0, 0, 0, 2, 0, 0x41, 0, 9, 0, 1, 0,
        0, 0,
    ]
    .as_slice();
    let behind = [
        3, 9, 0, 1, 0, 0, 0, 2, 0, 0x41, 0, 0, 0, 1, 0, 2, 0, 0, 0, 3, 0, 4, 0, 0, 0, 0, 0, 6, 0,
        0, 0,
    ]
    .as_slice();
    let none = [0, 9, 0, 1, 0, 0, 0, 0, 0, 0, 0].as_slice();
    let told: [(_, _, &[Told]); 4] = [
        (before, one, &[(3, 9, 1)]),
        (before, many, &[(1, 1, 2), (1, 3, 4), (1, 0, 6), (3, 9, 1)]),
        (after, behind, &[(1, 9, 1), (3, 1, 2), (3, 3, 4), (3, 0, 6)]),
        (after, none, &[(1, 9, 1)]),
    ];
    for (elements, body, want) in told {
        let Some(plan) = compiled_plan(alloc, &elements)? else {
            return Err("the layout does not read".into());
        };
        let found = links(alloc, &plan, Order::Little, body)?;
        assert_eq!(rt; found.len(), want.len(), "{body:?}");
        for (k, each) in found.as_slice().iter().enumerate() {
            let k = k as u64;
            assert_eq!(rt; link(&plan, Order::Little, body, k), Some(each.link));
            assert_eq!(rt;
                field_of_link(&plan, Order::Little, body, k),
                Some(each.field)
            );
        }
        for (each, (field, class, instance)) in found.as_slice().iter().zip(want) {
            let link = Link {
                class: *class,
                instance: *instance,
            };
            assert_eq!(rt;
                *each,
                FieldLink {
                    field: *field,
                    link
                }
            );
        }
    }
    Ok(())
}

#[test]
fn links_are_read_from_lent_bytes(rt: HostRuntime) -> Result<(), Fail> {
    let alloc = rt.alloc();
    let elements = [
        ("a", "PTR_STRUCT(X *)"),
        ("n", "INT_1U"),
        ("v", "STRING[n]"),
        ("b", "PTR_STRUCT(X *)"),
    ];
    let Some(plan) = compiled_plan(alloc, &elements)? else {
        return Err("the layout does not read".into());
    };
    let body = [0, 7, 0, 0, 1, 0, 2, 0, 0, 0, 1, 0, 1, 2, 3, 4, 5, 6].as_slice();
    let first = Link {
        class: 7,
        instance: 256,
    };
    let second = Link {
        class: 0x0102,
        instance: 0x0304_0506,
    };
    assert_eq!(rt; link(&plan, Order::Big, body, 0), Some(first));
    assert_eq!(rt; link(&plan, Order::Big, body, 1), Some(second));
    assert_eq!(rt; link(&plan, Order::Big, body, 2), None);
    Ok(())
}
