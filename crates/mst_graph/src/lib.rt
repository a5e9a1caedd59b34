//! Graphs: the islands of bridges and LANs that links join, groups of the things that have equal keys, and
//! when trees in parts join a graph and make no loop.
#![tactic(auto)]

mod bodies;
mod filling;
mod grouping;
mod island;
mod joining;
mod keys;
mod labelling;
mod labels;
pub mod laws;
mod node;
mod number_places;
mod places;

pub use bodies::groups_by_body;
pub use grouping::groups;
pub use island::Island;
pub use joining::islands;
pub use keys::{Numbering, number_keys};
pub use node::Link;
