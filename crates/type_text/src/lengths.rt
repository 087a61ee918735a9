//! The length of a printed text, known before the text is made.
ghost use Rattle.std.specs.Prelude.{◌≡◌, ◌+◌, ◌^◌, ◌≤◌, length, nat_le};
ghost use Rattle.std.specs.Fmt.{decimal};
ghost use Rattle.type_text.specs.TypeText.{printed_type, base_text, dim_text};

use crate::base_words::base_word;
use crate::{Base, Dim, ElementType};

/// The most bytes of a text that is a type, and of its printed text.
pub const TEXT_LIMIT: usize = 4096;

/// The bytes of a printed pointer beside its words: `(`, ` *` and `)`.
const POINTER_MARKS: usize = 4;

/// The bytes of a printed dimension beside its word: `[` and `]`.
const BRACKETS: usize = 2;

/// Whether the printed text of the type has at most as many bytes as a type may have. It can be longer than a text of
/// the type by the blank before a star.
#[tactic(auto, using(crate::proofs::LengthLemmas::lengths))]
pub fn printed_fits(ty: &ElementType) -> bool
    ensures { result ≡ nat_le (length (printed_type ty.now)) 4096 }
{
    let mut length = base_length(&ty.base);
    for dim in ty.dims.as_slice() {
        // So the sum of all lengths need not be known to fit a number.
        if length > TEXT_LIMIT {
            return false;
        }
        length += dim_length(dim);
    }
    length <= TEXT_LIMIT
}

fn base_length(base: &Base) -> usize
    ensures { result ≡ length (base_text base.now) }
{
    let word = base_word(base).len();
    match base {
        Base::Ptr { to } => word + to.bytes().len() + POINTER_MARKS,
        _ => word,
    }
}

fn dim_length(dim: &Dim) -> usize
    ensures exact { result ≡ length (dim_text dim.now) }
    ensures bounded { result ≤ 2 ^ 63 + 1 }
{
    match dim {
        Dim::Numeral(n) => digit_count(*n) + BRACKETS,
        Dim::Named(name) => name.bytes().len() + BRACKETS,
    }
}

/// How many digits the number has without leading zeros.
#[tactic(auto, using(crate::proofs::LengthLemmas::digits))]
fn digit_count(number: u32) -> usize
    ensures exact { result ≡ length (decimal number) }
    ensures few { result ≤ 10 }
{
    let mut count = 1;
    let mut rest = number;
    while rest >= 10 {
        rest /= 10;
        count += 1;
    }
    count
}
