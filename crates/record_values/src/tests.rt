//! Lists of values, equal to their copies and different from each other.
use super::*;
use std::alloc::{AllocError, Global};
use std::test::Fail;
use type_text::{Link, Name};

fn numbers(alloc: Global, numbers: &[u64]) -> Result<NumList, AllocError> {
    let mut list = NumList::new(alloc);
    for number in numbers {
        list.push(*number)?;
    }
    Ok(list)
}

/// A value of each form, with `n` in it.
fn values(alloc: Global, n: u8) -> Result<ValueList, AllocError> {
    let number = u64::from(n);
    let mut pairs = PairList::new(alloc);
    pairs.push((0, number))?;
    let mut texts = TextList::new(alloc);
    texts.push(Name::new(alloc, &[n])?)?;
    let mut values = ValueList::new(alloc);
    values.push(Value::Num(number))?;
    values.push(Value::Pair(number, 0))?;
    values.push(Value::Text(Name::new(alloc, &[n, 0])?))?;
    values.push(Value::Nums(numbers(alloc, &[7, number])?))?;
    values.push(Value::Pairs(pairs))?;
    values.push(Value::Texts(texts))?;
    values.push(Value::Bytes(Name::new(alloc, &[n])?))?;
    let link = Link {
        class: 3,
        instance: u32::from(n),
    };
    let mut links = LinkList::new(alloc);
    links.push(link)?;
    values.push(Value::Link(link))?;
    values.push(Value::Links(links))?;
    Ok(values)
}

#[test]
fn values_of_each_form_are_compared(rt: HostRuntime) -> Result<(), Fail> {
    let list = values(rt.alloc(), 1)?;
    let other = values(rt.alloc(), 2)?;
    assert_eq!(rt; list.len(), 9);
    assert!(rt; same_values(list.as_slice(), list.clone()?.as_slice()));
    for (i, value) in list.as_slice().iter().enumerate() {
        let number = if i == 0 { 1 } else { 0 };
        assert_eq!(rt; value.number(), number, "value {i}");
        for (k, another) in other.as_slice().iter().enumerate() {
            assert!(rt; *value != *another, "values {i} and {k}");
        }
    }
    assert!(rt; !same_values(list.as_slice(), other.as_slice()));
    assert!(rt; !same_values(list.as_slice(), &[]));
    Ok(())
}
