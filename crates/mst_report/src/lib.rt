//! The planner: a network, its settled trees, and the rows that answer queries about them.
#![tactic(auto)]

mod answers;
pub mod laws;
mod planner;
mod rows;

pub use answers::asks_plan;
pub use mst_plan::{Settler, forest_of};
pub use planner::Planner;
