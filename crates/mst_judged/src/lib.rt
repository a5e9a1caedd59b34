//! A network that is judged, with what is kept for all expectations that are judged in it.
//!
//! A [`Judged`] is a network's plan, what is kept of the network before the failure ([`Before`]), the islands that are made already
//! ([`Homes`]), and what failed. Islands are made only for the VIDs that a failure lets other ports carry: what is kept of the
//! network before it tells those of the others. What stays together is asked of the network that is prior to it, too ([`Prior`]): of the one
//! without the failures, or of another one from which it came ([`Beside`]).
#![tactic(auto)]

mod before;
mod beside;
mod homes;
mod judged;
mod naming;
mod prior;
mod vids;

pub use before::Before;
pub use beside::Beside;
pub use homes::{Home, Homes, homes_in};
pub use judged::Judged;
pub use mst_reasons::{
    Both, BridgeNames, Child, Follower, Missing, Parts, PortNames, Reason, Word, all_parts,
    as_follower, bridges_of_both, children_of, flagged, goes_over, has_two, homes_by, least,
    note_text_laws, put_notes, set_of, staying, vlan_laws,
};
pub use naming::{is_named, named};
pub use prior::Prior;
pub use vids::{class_of, classes_asked, classes_of, vids_of};
