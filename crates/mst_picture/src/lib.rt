//! The picture of a network with one of its trees or with a VLAN, as a text for Graphviz: bridges, logical LANs between them,
//! and the roles of the ports at their ends.
#![tactic(auto)]

mod bridges;
mod clusters;
mod ends;
mod lans;
pub mod laws;
mod picture;
mod pieces;
mod vlan_picture;

pub use mst_summary::{laws as summary_laws, put_summary};
pub use picture::push_picture;
pub use vlan_picture::push_vlan_picture;
