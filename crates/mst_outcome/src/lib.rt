//! What is settled of one spanning tree: the vectors of its bridges and the designated ports of its LANs ([`Outcome`]), what a tree on a
//! wiring that trees share holds ([`SpanningTree`]), and laws of settled vectors ([`laws`]): that they can be, and in one way only.
//! How they come to be settled is told in crates above.
#![tactic(auto)]

mod comparing;
pub mod laws;
mod outcome;
pub mod own;
mod spanning_tree;

pub use comparing::{TellsApart, has_bridge, same_bridges, same_tree_port};
pub use outcome::Outcome;
pub use spanning_tree::SpanningTree;
