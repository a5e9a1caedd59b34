//! The lines of a change, cut into steps.
//!
//! A change is a script of a version of its own, of whose lines those alone count that are edits, or that aren't read: its
//! queries and marks do nothing. A step is a longest run of its lines without a blank line between, if any of them counts.
#![tactic(auto)]

mod change;
pub mod laws;

pub use change::{Change, ChangeStep, StepLine};
