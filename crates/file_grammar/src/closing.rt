//! The layout that FrEndOfFile has to have.

ghost use Rattle.std.specs.Prelude.{◌≡◌};
ghost use Rattle.std.specs.List.{list_all};
ghost use Rattle.std.specs.Option.{option_copied};
ghost use Rattle.file_grammar.specs.Closing.{closes, has_named, is_single, is_any, is_count, is_size};
ghost use Rattle.file_grammar.specs.Closing.{single_base};

use dictionary::{Element, first_named};
use type_text::Base;

/// The field that tells how many frames the file has.
pub const FRAMES: &[u8] = b"nFrames";

/// The field that tells how many bytes the file has, or 0.
pub const BYTES: &[u8] = b"nBytes";

/// The field that tells how many bytes before the file's end its contents table begins, or 0.
pub const TABLE: &[u8] = b"seekTOC";

/// Whether elements are a layout of FrEndOfFile: none has a dimension, and the first elements of the three names are
/// whole numbers of the widths that they have to have.
pub fn closes(elements: &[Element]) -> bool
    ensures { result ≡ closes elements.now }
{
    are_single(elements)
        && has_count(elements, FRAMES)
        && has_size(elements, BYTES)
        && has_size(elements, TABLE)
}

/// Whether none of the elements has a dimension.
fn are_single(elements: &[Element]) -> bool
    ensures { result ≡ list_all (is_single is_any) elements.now }
{
    for element in elements {
        if single_base(element).is_none() {
            return false;
        }
    }
    true
}

/// Whether the first element of a name is there and is a whole number of 4 or 8 bytes.
fn has_count(elements: &[Element], name: &[u8]) -> bool
    ensures { result ≡ has_named elements.now name.now is_count }
{
    match first_named(elements, name) {
        Some((_, element)) => matches!(single_base(element), Some(Base::Int4U | Base::Int8U)),
        None => false,
    }
}

/// Whether it is there and is a whole number of 8 bytes.
fn has_size(elements: &[Element], name: &[u8]) -> bool
    ensures { result ≡ has_named elements.now name.now is_size }
{
    match first_named(elements, name) {
        Some((_, element)) => matches!(single_base(element), Some(Base::Int8U)),
        None => false,
    }
}

/// The base of an element that reads and has no dimension.
pub fn single_base(element: &Element) -> Option<&Base>
    ensures { option_copied result ≡ single_base element.now }
{
    let ty = element.ty.as_ref()?;
    if ty.dims.is_empty() {
        Some(&ty.base)
    } else {
        None
    }
}
