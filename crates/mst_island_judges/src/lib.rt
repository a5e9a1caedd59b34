//! What is judged by islands: which bridges reach each other in VIDs, which are apart in them, which leave them, and which stay together.
//!
//! The islands of a VID that are made already are not made again, and those of VIDs of one class only once.
#![tactic(auto)]

mod apart;
mod compared;
mod grouping;
mod parting;
mod reaching;
mod together;

pub use apart::{apart_reasons, leaves_reasons};
pub use mst_judged::{Beside, Follower, Judged, Missing, Prior, Reason, note_text_laws, vlan_laws};
pub use reaching::reach_reasons;
pub use together::together_reasons;
