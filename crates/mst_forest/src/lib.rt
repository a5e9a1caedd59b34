//! The CIST and the MSTIs of a network as they are read: their outcome by names, a forest that holds them settled ([`Forest`]), and a
//! network with its view and its forest ([`Settled`]). How they are settled, and the roles of ports in them, stand in crates above.
#![tactic(auto)]

mod forest;
mod in_use;
mod internal;
pub mod laws;
mod looked_up;
mod settings;
mod settled;

pub use forest::{Forest, Mstis};
pub use in_use::{has_tree, is_had, mstis_in_use, trees_in_use};
pub use internal::is_internal;
pub use mst_config::{
    Regions, digest, hmac_md5, laws as config_laws, mcid, regions_of, touches_regions,
};
pub use mst_nested::laws as nested_laws;
pub use mst_outcome::{SpanningTree, laws as outcome_laws};
pub use mst_topology::{Bridges, ByNumber, Topology, TreePort, Wiring};
pub use settings::{bridge_id, cist_bridge, cist_port, msti_bridge, msti_port, port_id};
pub use settled::Settled;
