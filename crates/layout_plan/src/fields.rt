//! The fields of a layout, with the names in their dimensions resolved to the numbers of earlier fields.
use scalar_types::Width;
use type_text::ItemList;

/// What one item of a field is.
#[derive(Clone, Copy, Debug, PartialEq, Eq)]
pub enum Form {
    /// A whole number, a character or a real of this width.
    Number(Width),
    /// A complex number: two reals of this width.
    Pair(Width),
    Text,
    Link,
}

/// How many items a field has along one dimension.
#[derive(Clone, Copy, Debug, PartialEq, Eq)]
pub enum Count {
    /// This many.
    Fixed(u32),
    /// As many as the number in the field of this number, from 0.
    Of(u32),
    /// As many as the signed number of this width in the field of this number, and none where it is below zero.
    OfSigned(u32, Width),
}

/// The dimensions of a field, the last of which runs fastest. There are none where the field is a single item.
pub type CountList = ItemList<Count>;

/// One field of a layout.
#[derive(Drop, Clone, PartialEq)]
pub struct Field {
    pub form: Form,
    pub counts: CountList,
    /// Whether it is the check sum of the structure: the last element, `chkSum INT_4U`.
    pub is_sum: bool,
}
