//! What a policy's promises mean of a network, in which networks a promise is judged, and why one isn't kept.
//!
//! Why an expectation doesn't hold is told by reasons, each a value ([`Reason`]), and what a promise names that a network hasn't by a
//! [`Missing`]. What judges networks, and what tells reasons as rows, stands above this, and neither names the other.
#![tactic(auto)]

mod asking;
mod hazards;
mod items;
mod lists;
mod missing;
mod reason;
mod risks;

pub use asking::{asks, asks_now, has_now};
pub use hazards::Hazards;
pub use items::{has_bridge, has_lan, have_bridges, have_lans};
pub use lists::{BridgeNames, Parts, PortNames, Word, has_two};
pub use missing::Missing;
pub use mst_note_text::{Child, children_of, laws as note_text_laws, put_notes};
pub use mst_summary::{Follower, as_follower, goes_over, least};
pub use mst_sweep::{
    Both, Carriage, Cause, Event, Failure, Planned, all_parts, any_fails_bridge, bridges_of_both,
    cause_value, classes_of_both_in, classes_of_vids_in, differing, flagged, homes_by, homes_of,
    set_of, staying, vids, vlan_laws,
};
pub use reason::Reason;
pub use risks::is_whole;
