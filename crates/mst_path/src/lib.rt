//! The way that frames of a VLAN take from one bridge to another: hops over logical LANs, by ports that are in the VLAN's active topology and
//! are members of it.
//!
//! [`path`] finds the path that a settled network gives for a [`Trace`], [`put_path`] puts its rows, and the laws say when there is one, and
//! when there is one alone. Of many paths to one bridge [`hop_counts`] says by one walk how many hops each has.
#![tactic(auto)]

mod between;
mod counting;
mod hop;
pub mod laws;
mod leading;
mod met;
mod nodes;
mod over;
mod places;
mod reading;
mod rows;
mod search;
mod trace;

pub use between::{is_on, path};
pub use counting::hop_counts;
pub use hop::{Hop, is_same};
pub use met::bridges_met;
pub use mst_vlan::roles_laws;
pub use nodes::Nodes;
pub use over::{carrying, place_on};
pub use rows::put_path;
pub use trace::Trace;
