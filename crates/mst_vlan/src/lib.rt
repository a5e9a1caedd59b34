//! The active topology of a VID, and which bridges and LANs its frames reach (802.1Q-2022, 8.8 and 13.12). Which logical ports carry each
//! VID is read from a table that is made once ([`Carriage`]).
#![tactic(auto)]

mod carriage;
mod comparing;
mod island;
pub mod laws;
mod named;
mod reaching;
mod rows;

pub use carriage::Carriage;
pub use comparing::differing;
pub use island::{BridgeList, Island, LanList, has_bridge};
pub use mst_classes::{
    classes_of_both, classes_of_both_in, classes_of_vids, classes_of_vids_in, flagged, set_of, vids,
};
pub use mst_roles::{
    Forest, Regions, Role, Settled, active_ports, bridge_id, cist_port, digest, forest_laws,
    is_had, laws as roles_laws, msti_port, mstis_in_use, port_forwards, port_role, role_of,
    trees_in_use,
};
pub use named::{bridge_names, lan_names};
pub use reaching::{bridges_on, is_member, islands_of, lans_up, reach, reach_from};
