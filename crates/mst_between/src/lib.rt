//! What is told of the networks of two scripts: what differs between their plans, or the edits that make the one of the other. [`diff`] and
//! [`edits`] read both scripts and answer, [`DiffWord`] is either word of the program.
#![tactic(auto)]

mod differing;
mod diffs;
mod editing;
pub mod laws;

pub use differing::put_difference;
pub use diffs::{Between, DiffWord, diff, diff_from, diff_within, edits};
pub use editing::put_edits_of;
