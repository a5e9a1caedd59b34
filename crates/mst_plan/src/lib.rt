//! What follows from a network: its view, its regions and its trees, settled, and repaired for the network after an edit.
#![tactic(auto)]

mod kept;
pub mod laws;
mod plan;

pub use kept::KeptPlan;
pub use mst_lag::{renew_bridge, renew_lan, view};
pub use mst_trees::{
    Forest, Settler, forest_of, is_had, laws as forest_laws, repaired_forest, trees_in_use,
};
pub use plan::{Plan, plan_beside};
