//! Entries added to a dictionary in turn.
ghost use Rattle.std.specs.Prelude.{IfOk};
ghost use Rattle.dictionary.specs.Same.{IsRead, AreRead};

use super::*;
use std::alloc::{AllocError, Global};
use std::test::Fail;
use type_text::{Base, Name};

fn element(alloc: Global, name: &str, text: &str, comment: &str) -> Result<Element, AllocError>
    ensures { IfOk result IsRead }
{
    let name = Name::new(alloc, name.as_bytes())?;
    let text = Name::new(alloc, text.as_bytes())?;
    let comment = Name::new(alloc, comment.as_bytes())?;
    Element::new(alloc, name, text, comment)
}

/// The elements of these names, a letter each, all with the same text.
fn elements(alloc: Global, count: usize, text: &str) -> Result<ElementList, AllocError>
    ensures { IfOk result AreRead }
{
    let mut elements = ElementList::new(alloc);
    for _ in 0..count {
        elements.push(element(alloc, "x", text, "")?)?;
    }
    Ok(elements)
}

/// An entry's class, name, comment, and so many elements with the text; and what `add` answers.
type Case = (
    u16,
    &'static str,
    &'static str,
    &'static str,
    usize,
    Option<AddFault>,
);

const CASES: [Case; 12] = [
    (5, "A", "", "INT_4U", 1, None),
    (5, "A", "another", " INT_4U ", 1, None),
    (5, "A", "", "INT_2U", 1, Some(AddFault::Redefined)),
    (6, "A", "", "", 0, Some(AddFault::NameTwice)),
    (0, "B", "", "", 0, Some(AddFault::ClassRange)),
    (256, "B", "", "", 0, Some(AddFault::ClassRange)),
    (8, "C", "", "INT_3U", 1, None),
    (8, "C", "", " INT_3U", 1, Some(AddFault::Redefined)),
    (7, "D", "", "CHAR", 4097, Some(AddFault::ElementLimit)),
    (1, "E", "", "CHAR", 1, None),
    (1, "E", "", "CHAR", 4097, Some(AddFault::ElementLimit)),
    (255, "F", "", "CHAR", 4096, None),
];

fn entry(
    alloc: Global,
    class: u16,
    name: &str,
    comment: &str,
    elements: ElementList,
) -> Result<Entry, AllocError>
    requires { AreRead elements }
    ensures { IfOk result (λ entry. AreRead entry.elements) }
{
    Ok(Entry {
        class,
        name: Name::new(alloc, name.as_bytes())?,
        comment: Name::new(alloc, comment.as_bytes())?,
        elements,
    })
}

fn answers(alloc: Global, dictionary: &mut Dictionary, case: &Case) -> Result<bool, AllocError> {
    let (class, name, comment, text, count, want) = *case;
    let entry = entry(alloc, class, name, comment, elements(alloc, count, text)?)?;
    Ok(dictionary.add(entry).err() == want)
}

/// Whether the first element of the entry held of the class has the text.
fn has_text(dictionary: &Dictionary, class: u8, text: &[u8]) -> bool {
    let Some(entry) = dictionary.get(class) else {
        return false;
    };
    let Some(element) = entry.elements.as_slice().first() else {
        return false;
    };
    element.text.bytes() == text
}

/// Whether the classes 5 and 8 are held as first added, and none of the refused.
fn holds_first(dictionary: &Dictionary) -> bool {
    has_text(dictionary, 5, b"INT_4U")
        && has_text(dictionary, 8, b"INT_3U")
        && dictionary.get(1).is_none()
        && dictionary.get(6).is_none()
        && dictionary.get(7).is_none()
        && dictionary.named(b"A") == Some(5)
        && dictionary.named(b"B").is_none()
        && dictionary.named(b"E").is_none()
}

/// Whether the element has this name, text and comment, and a type of this base; None stands for no type.
fn has_parts(element: &Element, parts: [&str; 3], base: Option<Base>) -> bool {
    let [name, text, comment] = parts;
    let found = element.ty.as_ref().map(|ty| &ty.base);
    found == base.as_ref()
        && element.name.bytes() == name.as_bytes()
        && element.text.bytes() == text.as_bytes()
        && element.comment.bytes() == comment.as_bytes()
}

#[test]
fn elements_have_the_types_that_their_texts_read_as(rt: HostRuntime) -> Result<(), Fail> {
    for (text, base) in [(" INT_4U [ 07 ]", Some(Base::Int4U)), ("INT_3U", None)] {
        let element = element(rt.alloc(), "n", text, "how many")?;
        assert!(rt;
            has_parts(&element, ["n", text, "how many"], base),
            "{text}"
        );
    }
    Ok(())
}

#[test]
fn entries_are_added_in_turn(rt: HostRuntime) -> Result<(), Fail> {
    let mut dictionary = Dictionary::new(rt.alloc());
    for case in &CASES {
        let same = answers(rt.alloc(), &mut dictionary, case)?;
        assert!(rt; same, "class {}", case.0);
    }
    assert!(rt; holds_first(&dictionary));
    assert!(rt; holds_first(&dictionary.copy()?));
    Ok(())
}

#[test]
fn comments_do_not_make_entries_differ(rt: HostRuntime) -> Result<(), Fail> {
    let alloc = rt.alloc();
    let first = entry(alloc, 5, "A", "one", elements(alloc, 2, "INT_4U[7]")?)?;
    let same = entry(alloc, 5, "A", "two", elements(alloc, 2, "INT_4U [ 07 ]")?)?;
    assert!(rt; same_entry(&first, &same));
    assert!(rt; same_entry(&first.copy()?, &first));
    Ok(())
}

/// Whether the first element of the name has this type.
fn is_typed(elements: &[Element], name: &[u8], base: Base, dims: &[&[u8]]) -> bool {
    match first_named(elements, name) {
        Some((_, element)) => has_type(element, &base, dims),
        None => false,
    }
}

#[test]
fn elements_are_found_by_name_and_told_by_type(rt: HostRuntime) -> Result<(), Fail> {
    let alloc = rt.alloc();
    let mut elements = ElementList::new(alloc);
    for (name, text) in [
        ("count", "INT_8U"),
        ("data", "REAL_8[ count ][ n ]"),
        ("data", "INT_4U"),
        ("next", "CHAR[7]"),
    ] {
        elements.push(element(alloc, name, text, "")?)?;
    }
    let elements = elements.as_slice();
    let number = first_named(elements, b"data").map(|(number, _)| number);
    assert_eq!(rt; number, Some(1));
    assert!(rt; first_named(elements, b"dat").is_none());
    let (count, n) = (b"count".as_slice(), b"n".as_slice());
    assert!(rt; is_typed(elements, b"data", Base::Real8, &[count, n]));
    assert!(rt; !is_typed(elements, b"data", Base::Real8, &[n, count]));
    assert!(rt; !is_typed(elements, b"data", Base::Real8, &[count]));
    assert!(rt; is_typed(elements, b"count", Base::Int8U, &[]));
    assert!(rt; !is_typed(elements, b"count", Base::Int8S, &[]));
    assert!(rt; !is_typed(elements, b"next", Base::Char, &[b"7".as_slice()]));
    Ok(())
}
