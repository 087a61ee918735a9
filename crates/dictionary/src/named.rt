//! Elements looked up by name and told by type.
ghost use Rattle.std.specs.Prelude.{◌≡◌, ◌↔◌, map, IsTrue};
ghost use Rattle.std.specs.Option.{option_map};
ghost use Rattle.dictionary.specs.Named.{first_named, HasType};

use crate::Element;
use type_text::{Base, Dim};

/// The first element of a name, with its number from 0. Takes no memory.
pub fn first_named<'a>(elements: &'a [Element], name: &[u8]) -> Option<(usize, &'a Element)>
    ensures { option_map (λ found. (found.0, found.1.now)) result ≡ first_named 0 elements.now name.now }
{
    for (i, element) in elements.iter().enumerate() {
        if name == element.name.bytes() {
            return Some((i, element));
        }
    }
    None
}

/// Whether the element's text reads as the type of this base whose dimensions are these names in order; no name stands
/// for no dimension. Takes no memory.
pub fn has_type(element: &Element, base: &Base, dims: &[&[u8]]) -> bool
    ensures { IsTrue result ↔ HasType element.now base.now (map (λ dim. dim.now) dims.now) }
{
    match &element.ty {
        Some(ty) => ty.base == *base && are_named(ty.dims.as_slice(), dims),
        None => false,
    }
}

/// Whether the dimensions are these names in order.
fn are_named(dims: &[Dim], names: &[&[u8]]) -> bool
    ensures { IsTrue result ↔ (dims.now ≡ map (λ name. Dim.Named name.now) names.now) }
{
    if dims.len() != names.len() {
        return false;
    }
    for (i, name) in names.iter().enumerate() {
        if !is_named(&dims[i], name) {
            return false;
        }
    }
    true
}

fn is_named(dim: &Dim, name: &[u8]) -> bool
    ensures { IsTrue result ↔ (dim.now ≡ Dim.Named name.now) }
{
    match dim {
        Dim::Named(own) => own.bytes() == name,
        Dim::Numeral(_) => false,
    }
}
