//! Lists of items, taken from the front of what is left. A list asks for memory by the items that are there, whatever
//! count is claimed.

ghost use Rattle.layout_plan.specs.Reading.{number_in, pair_in, text_in, link_in, items_in};
ghost use Rattle.scalar_types.specs.declared.Width.TheVariants.{One};
ghost use Rattle.record_reader.specs.Takes.{TakesOrStops};

use crate::cursor::{Cursor, Stop};
use record_values::{LinkList, NumList, PairList, TextList};
use scalar_types::{Order, Width};
use std::alloc::Global;
use type_text::Name;

/// So many numbers of a width.
pub fn numbers(
    alloc: Global,
    order: Order,
    width: Width,
    count: usize,
    cursor: &mut Cursor,
) -> Result<NumList, Stop>
    ensures { TakesOrStops (items_in (number_in order width) count cursor.old) result cursor.new }
{
    let mut list = NumList::new(alloc);
    for _i in 0..count {
        list.push(cursor.number(order, width)?)?;
    }
    Ok(list)
}

/// So many pairs of numbers.
pub fn pairs(
    alloc: Global,
    order: Order,
    width: Width,
    count: usize,
    cursor: &mut Cursor,
) -> Result<PairList, Stop>
    ensures { TakesOrStops (items_in (pair_in order width) count cursor.old) result cursor.new }
{
    let mut list = PairList::new(alloc);
    for _i in 0..count {
        list.push(cursor.pair(order, width)?)?;
    }
    Ok(list)
}

/// So many texts.
pub fn texts(
    alloc: Global,
    order: Order,
    count: usize,
    cursor: &mut Cursor,
) -> Result<TextList, Stop>
    ensures { TakesOrStops (items_in (text_in order) count cursor.old) result cursor.new }
{
    let mut list = TextList::new(alloc);
    for _i in 0..count {
        list.push(cursor.text(alloc, order)?)?;
    }
    Ok(list)
}

/// So many links.
pub fn links(
    alloc: Global,
    order: Order,
    count: usize,
    cursor: &mut Cursor,
) -> Result<LinkList, Stop>
    ensures { TakesOrStops (items_in (link_in order) count cursor.old) result cursor.new }
{
    let mut list = LinkList::new(alloc);
    for _i in 0..count {
        list.push(cursor.link(order)?)?;
    }
    Ok(list)
}

/// So many numbers of one byte each, which are the bytes.
pub fn bytes(alloc: Global, order: Order, count: usize, cursor: &mut Cursor) -> Result<Name, Stop>
    ensures { TakesOrStops (items_in (number_in order One) count cursor.old) result cursor.new }
{
    cursor.bytes(alloc, count)
}
