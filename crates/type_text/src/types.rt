//! The types of elements and the links between structures.
use crate::{ItemList, Name};

/// A link to the structure of this class and instance. Class 0 is the null link, whatever the instance.
#[derive(Clone, Copy, Debug, PartialEq, Eq)]
pub struct Link {
    pub class: u16,
    pub instance: u32,
}

/// What one item of an element is.
#[derive(Drop, Clone, PartialEq)]
pub enum Base {
    Int1S,
    Int1U,
    Int2S,
    Int2U,
    Int4S,
    Int4U,
    Int8S,
    Int8U,
    Real4,
    Real8,
    Complex8,
    Complex16,
    Char,
    CharU,
    /// A text with its length.
    Str,
    /// A link to a structure of the name `to`.
    Ptr { to: Name },
}

/// One dimension of an element: how many items it has along it.
#[derive(Drop, Clone, PartialEq)]
pub enum Dim {
    /// This many.
    Numeral(u32),
    /// As many as the value of the element of this name.
    Named(Name),
}

/// The dimensions in the order of the type's text.
pub type DimList = ItemList<Dim>;

/// The type of an element.
#[derive(Drop, Clone, PartialEq)]
pub struct ElementType {
    pub base: Base,
    pub dims: DimList,
}
