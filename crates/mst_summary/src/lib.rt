//! The first screen that an engineer sees of a network: how much there is, the roots and the ports that block in each
//! tree, the islands of VIDs, and what the logical LANs between bridges carry.
#![tactic(auto)]

mod blocked;
mod carries;
mod counts;
mod crossing;
mod grouped;
mod in_use;
mod islands;
mod joining;
mod kept;
pub mod laws;
mod looked_up;
mod over;
mod places;
mod roots;
mod summary;

pub use kept::ports_by_lan;
pub use looked_up::role;
pub use mst_facts::root_of;
pub use mst_slips::kept_for;
pub use mst_vlan::{Island, has_bridge, is_member, laws as vlan_laws, reach_from};
pub use over::goes_over;
pub use roots::{Follower, as_follower, least};
pub use summary::put_summary;
