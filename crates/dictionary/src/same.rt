//! Whether two entries describe the same structure.
ghost use Rattle.std.specs.Prelude.{◌≡◌, ◌↔◌, IsTrue};
ghost use Rattle.std.specs.Cmp.Lexicographic.{pointwise};
ghost use Rattle.dictionary.specs.Same.{IsRead, AreRead, IsSameEntry, same_meaning, same_element, same_entries};
ghost use Rattle.type_text.specs.TypeText.{type_of};

use crate::{Element, Entry};

/// Whether the entries have the same class, structure name, element names in order and types. Comments are not
/// compared.
///
/// Types are the same where both texts read as one type, or neither reads and the texts are equal bytes. Takes no
/// memory.
pub fn same_entry(a: &Entry, b: &Entry) -> bool
    requires a_read { AreRead a.now.elements }
    requires b_read { AreRead b.now.elements }
    ensures exact { IsTrue result ↔ IsSameEntry a.now b.now }
    ensures tests { result ≡ same_entries a.now b.now }
{
    if a.class != b.class {
        return false;
    }
    if a.name != b.name {
        return false;
    }
    same_elements(a.elements.as_slice(), b.elements.as_slice())
}

fn same_elements(a: &[Element], b: &[Element]) -> bool
    requires a_read { AreRead a.now }
    requires b_read { AreRead b.now }
    ensures { result ≡ pointwise same_element a.now b.now }
{
    if a.len() != b.len() {
        return false;
    }
    for (i, element) in a.iter().enumerate() {
        if !same_element(element, &b[i]) {
            return false;
        }
    }
    true
}

fn same_element(a: &Element, b: &Element) -> bool
    requires a_read { IsRead a.now }
    requires b_read { IsRead b.now }
    ensures { result ≡ same_element a.now b.now }
{
    if a.name != b.name {
        return false;
    }
    match (&a.ty, &b.ty) {
        (Some(a_type), Some(b_type)) => a_type == b_type,
        (None, None) => a.text == b.text,
        _ => false,
    }
}
