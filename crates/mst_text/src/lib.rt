//! What is told of a network: of a tree, of a VID, of the classes of links, of regions, and of the MST configuration of a
//! bridge (802.1Q-2022, 13.8).
//!
//! Each is told as rows, which a printer takes (see `mst_rows`).
//!
//! | What | Function | Definition |
//! |---|---|---|
//! | a tree: root priority vectors of its bridges, roles of their logical ports | [`put_tree`] | `specs/TreeText.antt` |
//! | a VID: its active ports, and the islands that frames of it reach | [`put_vlan`] | `specs/VlanText.antt` |
//! | which LANs count as one, and their ports | [`put_lags`] | `specs/LagText.antt` |
//! | an MST configuration | [`put_configuration`] | `specs/ConfigurationText.antt` |
//! | the regions and their bridges | [`put_regions`] | `specs/RegionsText.antt` |
//!
//! Beside the identifiers of a tree's bridges stand the names of the bridges that have their MAC addresses ([`Holders`],
//! `specs/Holders.antt`).
#![tactic(auto)]

mod active;
mod by_lan;
mod configuration;
mod digits;
mod holders;
mod islands;
mod lags;
pub mod laws;
mod members;
mod regions;
mod tree;
mod tree_bridge;
mod tree_port;
mod vlan_text;

pub use configuration::put_configuration;
pub use holders::Holders;
pub use lags::put_lags;
pub use mst_vlan::{classes_of_vids, is_member, laws as vlan_laws, set_of, vids};
pub use regions::put_regions;
pub use tree::{put_tree, put_tree_with};
pub use vlan_text::{put_body, put_heading, put_vlan};
