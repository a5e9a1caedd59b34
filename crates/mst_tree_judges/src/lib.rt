//! What is judged by trees: their roots, regions, the roles of ports, depths, leaves and limits, and the VIDs that go over a LAN.
#![tactic(auto)]

mod depth;
mod fits;
mod leaves;
mod over;
mod regions;
mod roles;
mod roots;

pub use depth::depth_reasons;
pub use fits::fits_reasons;
pub use leaves::leaf_reasons;
pub use mst_judged::{Before, Homes, Judged, Reason};
pub use over::{avoids_reasons, carries_reasons};
pub use regions::region_reasons;
pub use roles::role_reasons;
pub use roots::{all_but, bridge_named, followers, root_reasons};
