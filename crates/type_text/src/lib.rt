//! The texts by which a frame file names the types of its elements, and the types that they mean.
//!
//! `parse_type` reads a text by its grammar, and `print_type` writes the one printed text of a type.
#![tactic(auto)]

mod base_words;
mod item_list;
mod lengths;
mod names;
mod numerals;
mod parsing;
mod printing;
mod scanning;
mod types;

pub use item_list::ItemList;
pub use names::Name;
pub use parsing::parse_type;
pub use printing::print_type;
pub use types::{Base, Dim, DimList, ElementType, Link};

#[cfg(test)]
mod tests;
