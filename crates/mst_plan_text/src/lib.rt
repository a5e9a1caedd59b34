//! What is told of a whole plan: each tree, and what VLANs reach, with VIDs of equal bodies in one group. It is told as
//! rows, which a printer takes (see `mst_rows`).
#![tactic(auto)]

mod active;
mod groups;
pub mod laws;
mod plan;
mod trees;

pub use mst_text::{
    laws as text_laws, put_configuration, put_lags, put_regions, put_tree, put_vlan,
};
pub use mst_view::View;
pub use mst_vlan::{Forest, Settled, forest_laws};
pub use plan::put_plan;
