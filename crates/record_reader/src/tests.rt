//! Bodies read in both orders, and bodies with faults.
use super::*;
use dictionary::{Element, ElementList, Entry};
use layout_plan::{BodyFault, BodyReason, Plan, compile};
use record_values::{LinkList, NumList, PairList, TextList, Value, ValueList, same_values};
use scalar_types::Order;
use std::alloc::{AllocError, Global};
use std::test::Fail;
use type_text::{Link, Name};

fn element(alloc: Global, name: &str, text: &str) -> Result<Element, AllocError> {
    let name = Name::new(alloc, name.as_bytes())?;
    let text = Name::new(alloc, text.as_bytes())?;
    let comment = Name::new(alloc, b"")?;
    Element::new(alloc, name, text, comment)
}

/// The plan of a structure of these elements, each a name and a type text.
fn plan(alloc: Global, types: &[(&str, &str)]) -> Result<Option<Plan>, AllocError> {
    let mut elements = ElementList::new(alloc);
    for (name, text) in types {
        elements.push(element(alloc, name, text)?)?;
    }
    let entry = Entry {
        class: 3,
        name: Name::new(alloc, b"X")?,
        comment: Name::new(alloc, b"")?,
        elements,
    };
    if entry.elements.len() > 4096 {
        return Ok(None);
    }
    compile(alloc, &entry)
}

fn nums(alloc: Global, items: &[u64]) -> Result<Value, AllocError> {
    let mut list = NumList::new(alloc);
    for item in items {
        list.push(*item)?;
    }
    Ok(Value::Nums(list))
}

fn pairs(alloc: Global, items: &[(u64, u64)]) -> Result<Value, AllocError> {
    let mut list = PairList::new(alloc);
    for item in items {
        list.push(*item)?;
    }
    Ok(Value::Pairs(list))
}

fn texts(alloc: Global, items: &[&[u8]]) -> Result<Value, AllocError> {
    let mut list = TextList::new(alloc);
    for item in items {
        list.push(Name::new(alloc, item)?)?;
    }
    Ok(Value::Texts(list))
}

/// A value of each base, for the layout `SINGLES`.
fn singles(alloc: Global) -> Result<ValueList, AllocError> {
    let mut values = ValueList::new(alloc);
    for number in [255, 0x0102, 0xffff_fffe, 0x0102_0304_0506_0708, 0x3f80_0000] {
        values.push(Value::Num(number))?;
    }
    for (first, second) in [(1, 0x4000_0000), (3, 4)] {
        values.push(Value::Pair(first, second))?;
    }
    for text in [b"A".as_slice(), b"".as_slice()] {
        values.push(Value::Text(Name::new(alloc, text)?))?;
    }
    values.push(Value::Link(Link {
        class: 7,
        instance: 256,
    }))?;
    Ok(values)
}

const SINGLES: [(&str, &str); 10] = [
    ("a", "INT_1S"),
    ("b", "INT_2U"),
    ("c", "INT_4S"),
    ("d", "INT_8U"),
    ("e", "REAL_4"),
    ("f", "COMPLEX_8"),
    ("g", "COMPLEX_16"),
    ("h", "STRING"),
    ("i", "STRING"),
    ("j", "PTR_STRUCT(FrVect *)"),
];

/// A list of each form, for the layout `LISTS`.
fn lists(alloc: Global) -> Result<ValueList, AllocError> {
    let mut values = ValueList::new(alloc);
    values.push(Value::Num(2))?;
    values.push(Value::Num(9))?;
    values.push(Value::Bytes(Name::new(alloc, &[3, 255])?))?;
    values.push(nums(alloc, &[1, 2, 3, 4])?)?;
    values.push(nums(alloc, &[5, u64::MAX])?)?;
    values.push(pairs(alloc, &[(1, 2), (3, 4)])?)?;
    values.push(texts(alloc, &[b"", b"AB"])?)?;
    Ok(values)
}

const LISTS: [(&str, &str); 7] = [
    ("n", "INT_1U"),
    ("n", "CHAR"),
    ("a", "CHAR_U[n]"),
    ("b", "INT_2S[2][n]"),
    ("c", "INT_8U[n]"),
    ("d", "COMPLEX_8[n]"),
    ("e", "STRING[n]"),
];

const COUNTS: [(&str, &str); 3] = [("a", "INT_8U"), ("b", "INT_8U"), ("c", "INT_2U[a][b]")];

/// Two numbers and a list, for the layout `COUNTS`.
fn counted(alloc: Global, a: u64, b: u64, items: &[u64]) -> Result<ValueList, AllocError> {
    let mut values = ValueList::new(alloc);
    values.push(Value::Num(a))?;
    values.push(Value::Num(b))?;
    values.push(nums(alloc, items)?)?;
    Ok(values)
}

const LINKS: [(&str, &str); 2] = [("n", "INT_2S"), ("v", "PTR_STRUCT(FrVect *)[n]")];

/// A number and a list of links, for the layout `LINKS`.
fn linked(alloc: Global, n: u64, items: &[(u16, u32)]) -> Result<ValueList, AllocError> {
    let mut links = LinkList::new(alloc);
    for (class, instance) in items {
        links.push(Link {
            class: *class,
            instance: *instance,
        })?;
    }
    let mut values = ValueList::new(alloc);
    values.push(Value::Num(n))?;
    values.push(Value::Links(links))?;
    Ok(values)
}

/// Whether the body is read as these values.
fn reads(
    alloc: Global,
    types: &[(&str, &str)],
    order: Order,
    body: &[u8],
    want: &ValueList,
) -> Result<bool, Fail> {
    let plan = plan(alloc, types)?.ok_or("not readable")?;
    let values = read_body(alloc, &plan, order, body)?;
    Ok(same_values(values.as_slice(), want.as_slice()))
}

#[test]
fn single_items_of_each_base(rt: HostRuntime) -> Result<(), Fail> {
    let alloc = rt.alloc();
    let want = singles(alloc)?;
    let little = [
        255, 2, 1, 254, 255, 255, 255, 8, 7, 6, 5, 4, 3, 2, 1, 0, 0, 128, 63, 1, 0, 0, 0, 0, 0, 0,
        64, 3, 0, 0, 0, 0, 0, 0, 0, 4, 0, 0, 0, 0, 0, 0, 0, 2, 0, 65, 0, 0, 0, 7, 0, 0, 1, 0, 0,
    ];
    // In big order the empty text is closed by its zero byte, and four unlisted bytes stand at the end.
    let big = [
        255, 1, 2, 255, 255, 255, 254, 1, 2, 3, 4, 5, 6, 7, 8, 63, 128, 0, 0, 0, 0, 0, 1, 64, 0, 0,
        0, 0, 0, 0, 0, 0, 0, 0, 3, 0, 0, 0, 0, 0, 0, 0, 4, 0, 2, 65, 0, 0, 1, 0, 0, 7, 0, 0, 1, 0,
        9, 9, 9, 9,
    ];
    assert!(rt; reads(alloc, &SINGLES, Order::Little, &little, &want)?);
    assert!(rt; reads(alloc, &SINGLES, Order::Big, &big, &want)?);
    Ok(())
}

#[test]
fn lists_of_each_form(rt: HostRuntime) -> Result<(), Fail> {
    let alloc = rt.alloc();
    let want = lists(alloc)?;
    let body = [
        2, 9, 3, 255, 0, 1, 0, 2, 0, 3, 0, 4, 0, 0, 0, 0, 0, 0, 0, 5, 255, 255, 255, 255, 255, 255,
        255, 255, 0, 0, 0, 1, 0, 0, 0, 2, 0, 0, 0, 3, 0, 0, 0, 4, 0, 0, 0, 3, 65, 66, 0,
    ];
    assert!(rt; reads(alloc, &LISTS, Order::Big, &body, &want)?);
    Ok(())
}

#[test]
fn counts_of_the_same_body(rt: HostRuntime) -> Result<(), Fail> {
    let alloc = rt.alloc();
    let body = [
        255, 255, 255, 255, 255, 255, 255, 255, 0, 0, 0, 0, 0, 0, 0, 0,
    ];
    let want = counted(alloc, u64::MAX, 0, &[])?;
    assert!(rt; reads(alloc, &COUNTS, Order::Little, &body, &want)?);
    let body = [2, 0, 0, 0, 0, 0, 0, 0, 1, 0, 0, 0, 0, 0, 0, 0, 1, 0, 2, 0];
    let want = counted(alloc, 2, 1, &[1, 2])?;
    assert!(rt; reads(alloc, &COUNTS, Order::Little, &body, &want)?);
    Ok(())
}

/// The fault of a body, or None where it is read.
fn fault(
    alloc: Global,
    types: &[(&str, &str)],
    order: Order,
    body: &[u8],
) -> Result<Option<BodyError>, Fail> {
    let plan = plan(alloc, types)?.ok_or("not readable")?;
    Ok(read_body(alloc, &plan, order, body).err())
}

#[test]
fn lists_of_links_in_both_orders(rt: HostRuntime) -> Result<(), Fail> {
    let alloc = rt.alloc();
    for (order, body) in [
        (Order::Little, [2, 0, 7, 0, 0, 0, 0, 0, 0, 0, 5, 0, 0, 0]),
        (Order::Big, [0, 2, 0, 7, 0, 0, 0, 0, 0, 0, 0, 0, 0, 5]),
    ] {
        let want = linked(alloc, 2, &[(7, 0), (0, 5)])?;
        assert!(rt; reads(alloc, &LINKS, order, &body, &want)?);
        // A number below zero counts no items.
        let none = linked(alloc, 65_535, &[])?;
        assert!(rt; reads(alloc, &LINKS, order, &[255, 255], &none)?);
        let short = BodyError::Fault(BodyFault {
            field: 1,
            reason: BodyReason::BodyShort,
        });
        assert_eq!(rt; fault(alloc, &LINKS, order, &body[..8])?, Some(short));
    }
    Ok(())
}

#[test]
fn faults_at_their_fields(rt: HostRuntime) -> Result<(), Fail> {
    let alloc = rt.alloc();
    for (ty, body, field, reason) in [
        ("CHAR", [5, 0, 0].as_slice(), 1, BodyReason::BodyLong),
        ("STRING", [1, 0, 65].as_slice(), 0, BodyReason::BadText),
        ("STRING", [3, 0, 65, 0].as_slice(), 0, BodyReason::BodyShort),
        (
            "STRING[4294967295][4294967295][4294967295]",
            [0; 10].as_slice(),
            0,
            BodyReason::BodyShort,
        ),
        ("COMPLEX_8", [0; 7].as_slice(), 0, BodyReason::BodyShort),
        (
            "PTR_STRUCT(X *)",
            [1, 0, 2, 0, 0].as_slice(),
            0,
            BodyReason::BodyShort,
        ),
        ("CHAR[3]", [1, 2].as_slice(), 0, BodyReason::BodyShort),
    ] {
        let answer = fault(alloc, &[("a", ty)], Order::Little, body)?;
        let want = BodyError::Fault(BodyFault { field, reason });
        assert_eq!(rt; answer, Some(want), "{ty} {body:?}");
    }
    let body = [
        255, 255, 255, 255, 255, 255, 255, 255, 2, 0, 0, 0, 0, 0, 0, 0,
    ];
    let want = BodyError::Fault(BodyFault {
        field: 2,
        reason: BodyReason::BodyShort,
    });
    assert_eq!(rt; fault(alloc, &COUNTS, Order::Little, &body)?, Some(want));
    Ok(())
}
