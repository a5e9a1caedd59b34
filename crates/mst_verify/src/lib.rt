//! Whether an expectation of a policy holds in a network, by its plan, and the reasons where it doesn't.
//!
//! [`reasons`] hands each expectation to its judges, those by islands, by paths and by trees, and says why it doesn't hold in a network that is
//! judged ([`Judged`]), each reason as a value, and none where it does: so who asks may keep reasons for as long as it takes to judge all
//! failures, and tell them afterwards in the order of a policy's lines. The laws say what reasons mean.
#![tactic(auto)]

pub mod laws;
mod why;

pub use mst_island_judges::{Beside, Follower, Missing, Prior};
pub use mst_tree_judges::{Before, Homes, Judged, Reason, all_but, bridge_named, followers};
pub use why::reasons;
