//! A value is what one field of a record holds.
ghost use Rattle.std.specs.Prelude.{◌≡◌, ◌↔◌, IsTrue};

use type_text::{ItemList, Link, Name};

/// Numbers in order.
pub type NumList = ItemList<u64>;

/// Pairs of numbers in order.
pub type PairList = ItemList<(u64, u64)>;

/// Texts in order, each without its closing zero byte.
pub type TextList = ItemList<Name>;

/// Links in order.
pub type LinkList = ItemList<Link>;

/// One value a field, in the order of the layout.
pub type ValueList = ItemList<Value>;

/// What a field of a record holds. A number stands for its bits: a signed one is not below zero here, and a real is its
/// pattern.
#[derive(Drop, Clone, PartialEq)]
pub enum Value {
    /// A whole number, a character or a real.
    Num(u64),
    /// A complex number: its real part, then its imaginary part.
    Pair(u64, u64),
    /// A text without its closing zero byte.
    Text(Name),
    /// A list of numbers of more than one byte each.
    Nums(NumList),
    Pairs(PairList),
    Texts(TextList),
    /// A list of numbers of one byte each.
    Bytes(Name),
    Link(Link),
    Links(LinkList),
}

impl Value {
    ghost use Rattle.record_values.specs.Values.{number_of};

    /// The number that the value is, where it is a single one, else 0. Takes no memory.
    pub fn number(&self) -> u64
        ensures { result ≡ number_of self.now }
    {
        match self {
            Value::Num(number) => *number,
            _ => 0,
        }
    }
}

/// Whether the lists have equal values in the same order. Takes no memory.
pub fn same_values(a: &[Value], b: &[Value]) -> bool
    ensures { IsTrue result ↔ (a.now ≡ b.now) }
{
    a == b
}
