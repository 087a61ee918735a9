//! Bodies written in both orders, and values that do not fit.
use super::*;
use dictionary::{Element, ElementList, Entry};
use layout_plan::{Plan, compile};
use record_values::{LinkList, NumList, PairList, TextList, Value, ValueList};
use scalar_types::Order;
use std::alloc::{AllocError, Global};
use std::test::Fail;
use type_text::{Link, Name};

/// A value as a table holds it.
#[derive(Clone, Copy)]
enum Row {
    Num(u64),
    Pair(u64, u64),
    Text(&'static [u8]),
    Nums(&'static [u64]),
    Pairs(&'static [(u64, u64)]),
    Texts(&'static [&'static [u8]]),
    Bytes(&'static [u8]),
    Link(u16, u32),
    Links(&'static [(u16, u32)]),
}

/// The names and types of a layout's elements, the values, and their body in little and in big order.
type Body = (
    &'static [(&'static str, &'static str)],
    &'static [Row],
    &'static [u8],
    &'static [u8],
);

const LINKS: [(&str, &str); 2] = [("n", "INT_2S"), ("v", "PTR_STRUCT(FrVect *)[n]")];

const BODIES: [Body; 15] = [
    (
        &[
            ("a", "INT_1S"),
            ("b", "INT_1U"),
            ("c", "CHAR"),
            ("d", "CHAR_U"),
        ],
        &[Row::Num(0), Row::Num(255), Row::Num(65), Row::Num(128)],
        &[0, 255, 65, 128],
        &[0, 255, 65, 128],
    ),
    (
        &[("a", "INT_2S"), ("b", "INT_2U")],
        &[Row::Num(0x0102), Row::Num(0xffff)],
        &[2, 1, 255, 255],
        &[1, 2, 255, 255],
    ),
    (
        &[("a", "INT_4S"), ("b", "INT_4U"), ("c", "REAL_4")],
        &[Row::Num(0x0102_0304), Row::Num(1), Row::Num(0x3f80_0000)],
        &[4, 3, 2, 1, 1, 0, 0, 0, 0, 0, 128, 63],
        &[1, 2, 3, 4, 0, 0, 0, 1, 63, 128, 0, 0],
    ),
    (
        &[("a", "INT_8S"), ("b", "INT_8U"), ("c", "REAL_8")],
        &[
            Row::Num(0x0102_0304_0506_0708),
            Row::Num(u64::MAX),
            Row::Num(1),
        ],
        &[
            8, 7, 6, 5, 4, 3, 2, 1, 255, 255, 255, 255, 255, 255, 255, 255, 1, 0, 0, 0, 0, 0, 0, 0,
        ],
        &[
            1, 2, 3, 4, 5, 6, 7, 8, 255, 255, 255, 255, 255, 255, 255, 255, 0, 0, 0, 0, 0, 0, 0, 1,
        ],
    ),
    (
        &[("a", "COMPLEX_8"), ("b", "COMPLEX_16")],
        &[Row::Pair(0x3f80_0000, 0x4000_0000), Row::Pair(1, 2)],
        &[
            0, 0, 128, 63, 0, 0, 0, 64, 1, 0, 0, 0, 0, 0, 0, 0, 2, 0, 0, 0, 0, 0, 0, 0,
        ],
        &[
            63, 128, 0, 0, 64, 0, 0, 0, 0, 0, 0, 0, 0, 0, 0, 1, 0, 0, 0, 0, 0, 0, 0, 2,
        ],
    ),
    (
        &[
            ("a", "STRING"),
            ("b", "STRING"),
            ("c", "PTR_STRUCT(FrVect *)"),
        ],
        &[Row::Text(b"A"), Row::Text(b""), Row::Link(7, 256)],
        &[2, 0, 65, 0, 1, 0, 0, 7, 0, 0, 1, 0, 0],
        &[0, 2, 65, 0, 0, 1, 0, 0, 7, 0, 0, 1, 0],
    ),
    (
        &[
            ("a", "INT_1S[2]"),
            ("b", "INT_1U[1]"),
            ("c", "CHAR[0]"),
            ("d", "CHAR_U[1][2]"),
        ],
        &[
            Row::Bytes(&[1, 2]),
            Row::Bytes(&[255]),
            Row::Bytes(&[]),
            Row::Bytes(&[3, 4]),
        ],
        &[1, 2, 255, 3, 4],
        &[1, 2, 255, 3, 4],
    ),
    (
        &[("a", "INT_2S[2]"), ("b", "INT_2U[1]")],
        &[Row::Nums(&[1, 2]), Row::Nums(&[0xffff])],
        &[1, 0, 2, 0, 255, 255],
        &[0, 1, 0, 2, 255, 255],
    ),
    (
        &[("a", "INT_4S[1]"), ("b", "INT_4U[1]"), ("c", "REAL_4[1]")],
        &[Row::Nums(&[0x0102_0304]), Row::Nums(&[1]), Row::Nums(&[2])],
        &[4, 3, 2, 1, 1, 0, 0, 0, 2, 0, 0, 0],
        &[1, 2, 3, 4, 0, 0, 0, 1, 0, 0, 0, 2],
    ),
    (
        &[
            ("a", "INT_8S[1]"),
            ("b", "INT_8U[1]"),
            ("c", "REAL_8[0][4294967295]"),
        ],
        &[
            Row::Nums(&[0x0102_0304_0506_0708]),
            Row::Nums(&[1]),
            Row::Nums(&[]),
        ],
        &[8, 7, 6, 5, 4, 3, 2, 1, 1, 0, 0, 0, 0, 0, 0, 0],
        &[1, 2, 3, 4, 5, 6, 7, 8, 0, 0, 0, 0, 0, 0, 0, 1],
    ),
    (
        &[
            ("a", "COMPLEX_8[2]"),
            ("b", "COMPLEX_16[1]"),
            ("c", "STRING[2]"),
        ],
        &[
            Row::Pairs(&[(1, 2), (3, 4)]),
            Row::Pairs(&[(5, 6)]),
            Row::Texts(&[b"", b"AB"]),
        ],
        &[
            1, 0, 0, 0, 2, 0, 0, 0, 3, 0, 0, 0, 4, 0, 0, 0, 5, 0, 0, 0, 0, 0, 0, 0, 6, 0, 0, 0, 0,
            0, 0, 0, 1, 0, 0, 3, 0, 65, 66, 0,
        ],
        &[
            0, 0, 0, 1, 0, 0, 0, 2, 0, 0, 0, 3, 0, 0, 0, 4, 0, 0, 0, 0, 0, 0, 0, 5, 0, 0, 0, 0, 0,
            0, 0, 6, 0, 1, 0, 0, 3, 65, 66, 0,
        ],
    ),
    (
        &[("a", "INT_8U"), ("b", "INT_8U"), ("c", "INT_2U[a][b]")],
        &[Row::Num(2), Row::Num(1), Row::Nums(&[1, 2])],
        &[2, 0, 0, 0, 0, 0, 0, 0, 1, 0, 0, 0, 0, 0, 0, 0, 1, 0, 2, 0],
        &[0, 0, 0, 0, 0, 0, 0, 2, 0, 0, 0, 0, 0, 0, 0, 1, 0, 1, 0, 2],
    ),
    (
        &[("a", "INT_8U"), ("b", "INT_8U"), ("c", "INT_2U[a][b]")],
        &[Row::Num(u64::MAX), Row::Num(0), Row::Nums(&[])],
        &[
            255, 255, 255, 255, 255, 255, 255, 255, 0, 0, 0, 0, 0, 0, 0, 0,
        ],
        &[
            255, 255, 255, 255, 255, 255, 255, 255, 0, 0, 0, 0, 0, 0, 0, 0,
        ],
    ),
    (
        &LINKS,
        &[Row::Num(2), Row::Links(&[(7, 0), (0, 5)])],
        &[2, 0, 7, 0, 0, 0, 0, 0, 0, 0, 5, 0, 0, 0],
        &[0, 2, 0, 7, 0, 0, 0, 0, 0, 0, 0, 0, 0, 5],
    ),
    // A number below zero counts no items.
    (
        &LINKS,
        &[Row::Num(0xffff), Row::Links(&[])],
        &[255, 255],
        &[255, 255],
    ),
];

/// Names and types of elements, and values that do not fit them.
const MISFITS: [(&[(&str, &str)], &[Row]); 8] = [
    (&[("a", "CHAR")], &[Row::Num(256)]),
    (
        &[("n", "INT_2U"), ("v", "INT_2U[n]")],
        &[Row::Num(1), Row::Nums(&[1, 2])],
    ),
    (&[("a", "CHAR[1]")], &[Row::Nums(&[1])]),
    (&[("a", "CHAR")], &[]),
    (&[("a", "COMPLEX_8")], &[Row::Pair(1, 0x1_0000_0000)]),
    (&[("a", "STRING")], &[Row::Link(0, 0)]),
    (&LINKS, &[Row::Num(0xffff), Row::Links(&[(7, 0)])]),
    (
        &[
            ("n", "INT_8U"),
            ("v", "INT_2U[n][2147483648][2147483648][4]"),
        ],
        &[Row::Num(1), Row::Nums(&[])],
    ),
];

fn numbers(alloc: Global, numbers: &[u64]) -> Result<NumList, AllocError> {
    let mut list = NumList::new(alloc);
    for number in numbers {
        list.push(*number)?;
    }
    Ok(list)
}

fn pairs(alloc: Global, pairs: &[(u64, u64)]) -> Result<PairList, AllocError> {
    let mut list = PairList::new(alloc);
    for pair in pairs {
        list.push(*pair)?;
    }
    Ok(list)
}

fn texts(alloc: Global, texts: &[&[u8]]) -> Result<TextList, AllocError> {
    let mut list = TextList::new(alloc);
    for text in texts {
        list.push(Name::new(alloc, text)?)?;
    }
    Ok(list)
}

fn links(alloc: Global, links: &[(u16, u32)]) -> Result<LinkList, AllocError> {
    let mut list = LinkList::new(alloc);
    for (class, instance) in links {
        list.push(Link {
            class: *class,
            instance: *instance,
        })?;
    }
    Ok(list)
}

fn value(alloc: Global, row: Row) -> Result<Value, AllocError> {
    Ok(match row {
        Row::Num(n) => Value::Num(n),
        Row::Pair(a, b) => Value::Pair(a, b),
        Row::Text(text) => Value::Text(Name::new(alloc, text)?),
        Row::Nums(list) => Value::Nums(numbers(alloc, list)?),
        Row::Pairs(list) => Value::Pairs(pairs(alloc, list)?),
        Row::Texts(list) => Value::Texts(texts(alloc, list)?),
        Row::Bytes(bytes) => Value::Bytes(Name::new(alloc, bytes)?),
        Row::Link(class, instance) => Value::Link(Link { class, instance }),
        Row::Links(list) => Value::Links(links(alloc, list)?),
    })
}

fn values(alloc: Global, rows: &[Row]) -> Result<ValueList, AllocError> {
    let mut list = ValueList::new(alloc);
    for row in rows {
        list.push(value(alloc, *row)?)?;
    }
    Ok(list)
}

fn element(alloc: Global, name: &str, text: &str) -> Result<Element, AllocError> {
    let name = Name::new(alloc, name.as_bytes())?;
    let text = Name::new(alloc, text.as_bytes())?;
    let comment = Name::new(alloc, b"")?;
    Element::new(alloc, name, text, comment)
}

fn plan(alloc: Global, types: &[(&str, &str)]) -> Result<Option<Plan>, AllocError> {
    let mut elements = ElementList::new(alloc);
    for (name, text) in types {
        elements.push(element(alloc, name, text)?)?;
    }
    let entry = Entry {
        class: 3,
        name: Name::new(alloc, b"A")?,
        comment: Name::new(alloc, b"")?,
        elements,
    };
    if entry.elements.len() > 4096 {
        return Ok(None);
    }
    compile(alloc, &entry)
}

fn body(
    alloc: Global,
    plan: &Plan,
    order: Order,
    values: &[Value],
) -> Result<Option<Vec<u8>>, AllocError> {
    if body_length(plan, values).is_none() {
        return Ok(None);
    }
    let mut into = Vec::new(alloc);
    write_body(alloc, plan, order, values, &mut into)?;
    Ok(Some(into))
}

#[test]
fn bodies_are_written_in_both_orders(rt: HostRuntime) -> Result<(), Fail> {
    let alloc = rt.alloc();
    for (types, rows, little, big) in &BODIES {
        let plan = plan(alloc, types)?.ok_or("not readable")?;
        let values = values(alloc, rows)?;
        let length = body_length(&plan, values.as_slice());
        assert_eq!(rt; length, Some(little.len() as u64));
        for (order, want) in [(Order::Little, little), (Order::Big, big)] {
            let written = body(alloc, &plan, order, values.as_slice())?.ok_or("do not fit")?;
            assert_eq!(rt; written.as_slice(), *want);
        }
    }
    Ok(())
}

#[test]
fn values_that_do_not_fit_have_no_length(rt: HostRuntime) -> Result<(), Fail> {
    let alloc = rt.alloc();
    for (types, rows) in &MISFITS {
        let plan = plan(alloc, types)?.ok_or("not readable")?;
        let values = values(alloc, rows)?;
        assert_eq!(rt; body_length(&plan, values.as_slice()), None);
    }
    let plan = plan(alloc, &[("a", "STRING")])?.ok_or("not readable")?;
    let longest = vec![in alloc; b'a'; 65_534]?;
    let too_long = vec![in alloc; b'a'; 65_535]?;
    let length = body_length(&plan, &[Value::Text(Name::from(longest))]);
    assert_eq!(rt; length, Some(65_537));
    let length = body_length(&plan, &[Value::Text(Name::from(too_long))]);
    assert_eq!(rt; length, None);
    Ok(())
}
