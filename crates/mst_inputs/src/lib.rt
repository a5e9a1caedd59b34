//! A policy and a change as they are read from a source, by the loop that reads scripts: [`read_policy`], [`read_change`].
#![tactic(auto)]

mod lines;
mod policies;

pub use policies::{read_change, read_policy};
