//! What each single failure of a network does: a LAN that goes down, or a bridge that goes off; and what failures at once do. Which trees' roots move, how
//! many roles, and which VIDs are cut into which parts. And of which VIDs each pair of failures
//! parts bridges that either failure alone leaves joined.
#![tactic(auto)]

mod baseline;
mod both_failed;
mod breaking;
mod cuts;
mod event;
mod failing;
mod failure;
mod homes;
pub mod laws;
mod links;
mod pairs;
mod parts;
mod ports;
mod roots;
mod single;
mod sweep;
mod sweep_part;
mod touched;
mod whole;
mod with_both;

pub use baseline::Baseline;
pub use both_failed::{put_last_of_pairs, put_pair};
pub use cuts::{CutBy, Cuts, cuts_of, put_cuts};
pub use event::{Cause, Event, cause_value, edits_of, events_of};
pub use failing::{Failing, any_fails_bridge};
pub use failure::{Failure, failures};
pub use homes::{homes_by, homes_of};
pub use mst_facts::{Both, Planned, bridges_of_both};
pub use mst_vlan::{
    Carriage, classes_of_both_in, classes_of_vids_in, differing, flagged, laws as vlan_laws,
    set_of, vids,
};
pub use parts::{Stays, all_parts, staying};
pub use ports::changes_role;
pub use roots::moved_roots;
pub use single::{Single, kept_alone};
pub use sweep::{put_event, put_last, put_last_risk};
pub use sweep_part::SweepPart;
