//! Where fields stand. A field that has no text and no dimension but numerals has a fixed width, where it is
//! not long. Of the others, the varied fields, a body alone tells how many bytes they are.
ghost use Rattle.std.specs.Prelude.{◌≡◌, ◌+◌, ◌-◌, ◌≤◌, ◌<◌, ◌^◌, ◌∷◌, [], ℕ, min, IfOk, length};
ghost use Rattle.std.specs.Option.{option_map_or};
ghost use Rattle.layout_plan.specs.Marks.{numeral_of, factor_of, are_numerals, item_size, short_list};
ghost use Rattle.layout_plan.specs.Marks.{fixed_width, past, first_mark, marks_from};

use crate::links::LINK_SIZE;
use crate::spelled::capped_product;
use crate::{Count, Field, Form};
use std::alloc::{AllocError, Global};
use type_text::ItemList;

/// A field's place, by the ends of the varied fields before it.
#[derive(Clone, Copy, PartialEq)]
pub struct Mark {
    /// How many varied fields stand before it.
    pub varied: usize,
    /// The bytes from the end of the last of these, or from the body's beginning, to the field.
    pub skip: u32,
}

/// The most bytes of a list of fixed width.
const SHORT_LIST: usize = 4096;

/// The bytes of a field of fixed width, or None where it is varied.
pub fn fixed_width(field: &Field) -> Option<u32>
    ensures { result ≡ fixed_width field.now.form field.now.counts }
{
    let counts = field.counts.as_slice();
    let size = item_size(field.form)?;
    if counts.is_empty() {
        return Some(size);
    }
    if !are_numerals(counts) {
        return None;
    }
    short_list(factor_of(counts), size)
}

/// The bytes of an item of fixed size.
fn item_size(form: Form) -> Option<u32>
    ensures { result ≡ item_size form }
{
    match form {
        Form::Number(width) => Some(width.size() as u32),
        Form::Pair(width) => Some(2 * width.size() as u32),
        Form::Text => None,
        Form::Link => Some(LINK_SIZE as u32),
    }
}

/// Whether all dimensions are numerals.
fn are_numerals(counts: &[Count]) -> bool
    ensures { result ≡ are_numerals counts.now }
{
    for count in counts {
        if !is_numeral(*count) {
            return false;
        }
    }
    true
}

fn is_numeral(count: Count) -> bool
    ensures { result ≡ are_numerals (count ∷ []) }
{
    match count {
        Count::Fixed(_) => true,
        Count::Of(_) | Count::OfSigned(_, _) => false,
    }
}

/// The bytes of a list by numerals, or None where it is long. So many items, or more where it is the greatest
/// number.
fn short_list(factor: usize, size: u32) -> Option<u32>
    requires { 0 < size }
    ensures { (n : ℕ) → factor ≡ min n (2 ^ 64 - 1) → result ≡ short_list n size }
{
    let length = factor.saturating_mul(size as usize);
    if length > SHORT_LIST {
        return None;
    }
    Some(length as u32)
}

/// The product of the numeral dimensions, capped.
pub fn factor_of(counts: &[Count]) -> usize
    ensures { result ≡ factor_of counts.now }
{
    let mut factor = 1;
    for count in counts {
        factor = capped_product(factor, numeral_of(*count), usize::MAX);
    }
    factor
}

/// The numeral of a dimension, or 1 where it is a name.
fn numeral_of(count: Count) -> u64
    ensures { result ≡ numeral_of count }
{
    match count {
        Count::Fixed(n) => u64::from(n),
        Count::Of(_) | Count::OfSigned(_, _) => 1,
    }
}

/// The mark of the place after a field of this width.
pub fn past(mark: Mark, width: Option<u32>) -> Mark
    requires varied { mark.varied + 1 < 2 ^ 32 }
    requires skip { mark.skip + option_map_or (λ width. width) width 0 < 2 ^ 32 }
    ensures { result ≡ past mark width }
{
    match width {
        Some(width) => Mark {
            varied: mark.varied,
            skip: mark.skip + width,
        },
        None => Mark {
            varied: mark.varied + 1,
            skip: 0,
        },
    }
}

/// The marks of the fields, and of the place after the last.
pub fn marks_of(alloc: Global, fields: &[Field]) -> Result<ItemList<Mark>, AllocError>
    requires { length fields.now ≤ 4096 }
    ensures { IfOk result (λ marks. marks ≡ marks_from first_mark fields.now) }
{
    let mut marks = ItemList::new(alloc);
    let mut mark = Mark { varied: 0, skip: 0 };
    for field in fields {
        marks.push(mark)?;
        mark = past(mark, fixed_width(field));
    }
    marks.push(mark)?;
    Ok(marks)
}
