//! What is judged by paths: how many hops lie between bridges in VIDs, and which bridges a path meets.
//!
//! [`hops_reasons`] and [`via_reasons`] tell why an expectation of paths doesn't hold. VIDs of one class have the same paths, so each class
//! that is asked for is looked at once.
#![tactic(auto)]

mod asked;
mod hops;
mod judging;
mod longest;
mod span;
mod stretch;
mod telling;
mod values;
mod via;

pub use hops::hops_reasons;
pub use mst_judged::{Judged, Reason};
pub use mst_path::laws as path_laws;
pub use via::via_reasons;
