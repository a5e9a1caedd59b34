//! The path of a VLAN's frames from one bridge to another in the network of a script, and what becomes of it after each single failure.
//! [`trace`] reads the script and tells the path, [`traced`] tells that of a network that stands, and [`PathWord`] is the word of the
//! program. What is asked is read from words ([`PathQuestion`]).
#![tactic(auto)]

mod always;
mod asked;
mod ends;
pub mod laws;
mod rows;
mod traces;
mod tracing;

pub use always::Fates;
pub use asked::{Asked, PathQuestion};
pub use ends::why_untraced;
pub use traces::{PathAnswer, PathWord, put_traced, trace, trace_within, traced};
pub use tracing::put_trace;
