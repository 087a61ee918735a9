//! The text of a file's items, one after another: what `dump` prints.
//!
//! From the bottom: `escapes` and `numbers` compose the text of single values, `beginnings` and `headings` have what
//! stands before them, `page` is text on its way to a sink, `spans` finds where a field ends, `values`, `bodies` and
//! `lines` print what structures hold, `items` an item that a reader has given, and `files` a whole file.
#![tactic(auto)]

mod beginnings;
mod bodies;
mod escapes;
mod files;
mod headings;
mod items;
mod laws;
mod lines;
mod numbers;
mod page;
mod spans;
mod values;

pub use escapes::push_escaped;
pub use files::{DumpError, dump_file};
pub use items::dump_item;
pub use laws::each_file_has_one_dump;
