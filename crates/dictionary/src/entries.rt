//! An entry: the structure's class and name, and its elements in order.
ghost use Rattle.std.specs.Prelude.{◌≡◌, IfOk};

use std::alloc::{AllocError, Global};
use type_text::{ElementType, ItemList, Name, parse_type};

/// One element of a structure. Calls that take an entry have the condition that `ty` is the type that `text` reads as.
#[derive(Drop)]
pub struct Element {
    pub name: Name,
    /// The type that `text` reads as, or None where it is no type.
    pub ty: Option<ElementType>,
    /// The type's text as the file has it.
    pub text: Name,
    pub comment: Name,
}

impl Element {
    ghost use Rattle.type_text.specs.TypeText.{type_of};
    ghost use Rattle.dictionary.specs.Same.{IsRead};

    /// The element of this name, text and comment whose type is what the text reads as, so that its entry may be given
    /// to each call that takes one. A text that is no type is no error. Takes memory for the type alone.
    pub fn new(alloc: Global, name: Name, text: Name, comment: Name) -> Result<Element, AllocError>
        ensures given { IfOk result
            (λ element. element ≡ record { name = name; ty = type_of text; text = text; comment = comment }) }
        ensures read { IfOk result IsRead }
    {
        let ty = parse_type(alloc, text.bytes())?;
        Ok(Element {
            name,
            ty,
            text,
            comment,
        })
    }
}

/// The elements in the order of the structure's body.
pub type ElementList = ItemList<Element>;

/// What a file says of one class of structures.
#[derive(Drop)]
pub struct Entry {
    pub class: u16,
    /// The structure's name.
    pub name: Name,
    pub comment: Name,
    pub elements: ElementList,
}

impl Entry {
    /// An equal entry, with its comments and texts.
    pub fn copy(&self) -> Result<Entry, AllocError>
        ensures { IfOk result (λ copy. copy ≡ self.now) }
    {
        Ok(Entry {
            class: self.class,
            name: self.name.copy()?,
            comment: self.comment.copy()?,
            elements: self.elements.clone()?,
        })
    }
}

impl Clone for Entry {
    ghost is_clone = { λ entry copy. copy ≡ entry };

    fn clone(&self) -> Result<Entry, AllocError> {
        self.copy()
    }
}

impl Clone for Element {
    ghost is_clone = { λ element copy. copy ≡ element };

    fn clone(&self) -> Result<Element, AllocError> {
        Ok(Element {
            name: self.name.copy()?,
            ty: self.ty.clone()?,
            text: self.text.copy()?,
            comment: self.comment.copy()?,
        })
    }
}
