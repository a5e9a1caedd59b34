//! Which settings may bring about what is wanted of a network, whether a network has it, and why it may never have.
//!
//! A [`Goal`] is that a bridge is the root of a tree, or that a port forwards in it; [`holds`] says whether a settled network has it. The
//! candidates are settings ([`edit_of`]). They are only likely: [`advise_network`] makes one after the other, each by a plan of its own, asks whether the goal holds then, and puts the
//! rows of the first after which it does.
//!
//! For a root there is one candidate, of some settings that are made together ([`root_settings`]). For a port each candidate is one setting
//! ([`port_settings`]). They go by the row `root W over P` of its explanation: the port's cost is lowered by as much as the component that
//! decides differs, and then by one more, and else the cost of the port that gives its bridge the root priority vector is raised by as
//! much; and by the designated port of its LAN.
#![tactic(auto)]

mod advising;
mod contests;
mod costs;
mod goal;
mod hindrance;
mod holding;
mod in_question;
pub mod laws;
mod named;
mod port_priorities;
mod priorities;
mod setting;
mod told;

pub use advising::{Advised, advise_network};
pub use goal::Goal;
pub use hindrance::{Hindrance, apart, hindered_by};
pub use holding::holds;
pub use in_question::port_settings;
pub use mst_explain::{laws as explain_laws, put_explanation, put_explanations};
pub use mst_sweeping::{SweepPart, laws as sweeping_laws, sweep_network, sweep_pairs};
pub use named::port_named;
pub use priorities::root_settings;
pub use setting::{Setting, edit_of};
pub use told::{put_because, put_count, put_none, put_settings};
