//! How far a varied field of a body reaches, and what `measure` counts of it. No memory is taken, whatever
//! count a list claims.
ghost use Rattle.std.specs.Prelude.{◌≡◌, ◌<◌, ◌*◌, min, length};
ghost use Rattle.layout_plan.specs.declared.fields.Form.TheVariants.{Text};
ghost use Rattle.layout_plan.specs.Body.{extent_of, item_count, signed_count};
ghost use Rattle.layout_plan.specs.Reading.{single_in, listed_in, text_in};
ghost use Rattle.layout_plan.specs.Spelled.{Tells, TellsText, TellsLength, zero_texts_of};

use crate::{BodyReason, Count};
use scalar_types::{Order, Width, read_num};

/// The spelling of one field at the front of some bytes.
#[derive(Clone, Copy)]
pub struct Spelled {
    /// Its bytes.
    pub length: usize,
    /// The texts spelled by a length of 0 alone.
    pub zero_texts: u64,
}

/// The items of a field: the product of its counts by the numbers of the fields before it, or the cap where
/// that is less. Takes no memory.
pub fn capped_count(counts: &[Count], numbers: &[u64], cap: usize) -> usize
    ensures { result ≡ min (item_count numbers.now counts.now) cap }
{
    let mut count = cap.min(1);
    for each in counts {
        if count == 0 {
            return 0;
        }
        count = capped_product(count, extent(*each, numbers), cap);
    }
    count
}

/// The product of a count that is capped and one more extent.
pub fn capped_product(count: usize, extent: u64, cap: usize) -> usize
    ensures { result ≡ min (count * extent) cap }
{
    let product = count as u128 * u128::from(extent);
    product.min(cap as u128) as usize
}

/// The items along one dimension.
fn extent(count: Count, numbers: &[u64]) -> u64
    ensures { result ≡ extent_of numbers.now count }
{
    match count {
        Count::Fixed(n) => u64::from(n),
        Count::Of(k) => numbers.get(k as usize).copied().unwrap_or(0),
        Count::OfSigned(k, width) => {
            signed_count(width, numbers.get(k as usize).copied().unwrap_or(0))
        }
    }
}

/// The items that a signed number of this width counts, by its bits: none where it is below zero.
pub fn signed_count(width: Width, n: u64) -> u64
    ensures { result ≡ signed_count width n }
{
    let sign = 1 << (8 * width.size() - 1);
    if n < sign { n } else { 0 }
}

/// So many bytes.
pub fn plain_at(length: usize, bytes: &[u8]) -> Result<Spelled, BodyReason>
    ensures { TellsLength length bytes.now result }
{
    if bytes.len() < length {
        return Err(BodyReason::BodyShort);
    }
    Ok(Spelled {
        length,
        zero_texts: 0,
    })
}

/// One text.
pub fn text_at(order: Order, bytes: &[u8]) -> Result<Spelled, BodyReason>
    ensures { Tells (single_in order Text bytes.now) Text bytes.now result }
{
    let length = match text_length(order, bytes) {
        Ok(length) => length,
        Err(reason) => return Err(reason),
    };
    Ok(Spelled {
        length,
        zero_texts: zero_texts(length),
    })
}

/// So many texts.
pub fn texts_at(order: Order, count: usize, bytes: &[u8]) -> Result<Spelled, BodyReason>
    ensures { Tells (listed_in order Text count bytes.now) Text bytes.now result }
{
    let mut at = 0;
    let mut zeros = 0;
    for _i in 0..count {
        match text_length(order, &bytes[at..]) {
            Ok(length) => {
                at += length;
                zeros += zero_texts(length);
            }
            Err(reason) => return Err(reason),
        }
    }
    Ok(Spelled {
        length: at,
        zero_texts: zeros,
    })
}

/// 1 for a text of two bytes, which is spelled by a length of 0 alone, else 0.
fn zero_texts(length: usize) -> u64
    ensures { result ≡ zero_texts_of length }
{
    if length == 2 { 1 } else { 0 }
}

/// The bytes of the text at the front, its length and its closing zero byte included.
fn text_length(order: Order, bytes: &[u8]) -> Result<usize, BodyReason>
    ensures { TellsText (text_in order bytes.now) bytes.now result }
{
    if bytes.len() < 2 {
        return Err(BodyReason::BodyShort);
    }
    let length = read_num(order, Width::Two, bytes) as usize;
    if length == 0 {
        return Ok(2);
    }
    if bytes.len() - 2 < length {
        return Err(BodyReason::BodyShort);
    }
    if bytes[length + 1] != 0 {
        return Err(BodyReason::BadText);
    }
    Ok(length + 2)
}
