//! The notes on a network: where limits of hops or age would bind, which path costs no BPDU can hold, and which ports
//! have a restricted role. How deep a bridge lies in a tree is the steps to its regional root, on which Max Hops counts,
//! and the steps between regions to the CIST root, on which Max Age counts.
#![tactic(auto)]

mod bridge;
mod children;
pub mod depth_laws;
mod depths;
mod find;
pub mod laws;
mod lines;
mod member;
mod notes;
mod parent;
mod parents;
mod places;
mod tree;

pub use children::{Child, children_of};
pub use notes::put_notes;
