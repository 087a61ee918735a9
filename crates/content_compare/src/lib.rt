//! Whether two files hold the same content, and else where they first differ. Nothing is written.
#![tactic(auto)]

mod answers;
mod closings;
mod differences;
mod files;
mod laws;

pub use answers::{CompareError, Comparison};
pub use files::compare_files;
pub use laws::{comparisons_tell_contents, each_comparison_has_one_due};
