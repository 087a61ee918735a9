//! Layouts compiled at run time: the fields of a record's body by its dictionary entry, and the bodies that spell them.
//!
//! `compile` makes the plan of an entry, and `measure` tells whether a body spells it.
#![tactic(auto)]

mod built_in;
mod faults;
mod fields;
mod laws;
mod lent;
mod links;
mod marks;
mod measuring;
mod plan;
mod plans;
mod respelled;
mod rewriting;
mod spelled;
pub mod spelling;
mod steps;
mod unlinked;
mod walking;

pub use built_in::{element_plan, structure_plan};
pub use faults::{BodyFault, BodyReason, Measured};
pub use fields::{Count, CountList, Field, Form};
pub use laws::{bodies_have_one_answer, faults_are_told, layouts_are_sound, lengths_are_told};
pub use lent::{num_at, plain_link_at, span_of, text_at};
pub use links::{FieldLink, LINK_SIZE, link_at, link_field, link_start, push_links};
pub use measuring::{TAIL_SIZE, measure, measure_links};
pub use plan::{Plan, compile};
pub use plans::Plans;
pub use rewriting::rewrite;
pub use spelled::capped_count;
pub use unlinked::{plain_link_start, without_links};
pub use walking::{FEW_FIELDS, FIELD_LIMIT};

#[cfg(test)]
mod tests;
