//! Settles the priority vectors of one spanning tree (802.1Q-2022, 13.9 to 13.13): each bridge has the best vector that it can take, and
//! each LAN the designated port that says the best.
//!
//! The bridges at which another vector is due stand in a queue, and get theirs turn by turn, the least key first; what a turn touches is
//! looked at anew ([`Settler`]). From a tree on a wiring that trees share that of the network after an edit is repaired ([`repaired_tree`]):
//! where the two wirings differ is found once for all trees ([`Rewiring`]).
#![tactic(auto)]

mod differences;
mod known;
mod looking;
mod next_tree;
mod noting;
mod queue;
mod repairing;
mod rewiring;
mod settler;
mod settling;
mod taking;
mod touched;

pub use mst_outcome::laws;
pub use next_tree::repaired_tree;
pub use rewiring::Rewiring;
pub use settler::Settler;
