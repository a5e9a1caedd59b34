//! What a change does to a network: the regions, roots, roles and islands of VIDs that are other ones afterwards.
#![tactic(auto)]

mod all_roots;
mod carriages;
mod change;
mod diff;
pub mod laws;
mod ports;
mod reach;
mod regions;
mod roots;
mod sides;
mod unlike;

pub use diff::{Differing, put_diff};
pub use mst_vlan::laws as vlan_laws;
