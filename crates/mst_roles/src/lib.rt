//! The roles of logical ports in the trees of a network (802.1Q-2022, 13.12), and by them the active topology of a VID: which ports
//! forward in their own bridge's tree of it. The names of the trees themselves are shown here too.
#![tactic(auto)]

mod for_vid;
mod kind;
pub mod laws;
mod roles;
mod settled_role;
mod topology;

pub use for_vid::{forwards, forwards_in, port_forwards, vid_tree};
pub use kind::Role;
pub use mst_forest::{
    Bridges, ByNumber, Forest, Regions, Settled, Topology, Wiring, bridge_id, cist_bridge,
    cist_port, digest, has_tree, hmac_md5, is_had, laws as forest_laws, mcid, msti_bridge,
    msti_port, mstis_in_use, nested_laws, outcome_laws, regions_of, trees_in_use,
};
pub use roles::{port_role, role};
pub use settled_role::role_of;
pub use topology::{active, active_ports, forwarding, forwarding_ports};
