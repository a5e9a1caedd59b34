//! What single failures of a network do, pairs of them, and steps, by plans: the trees with a failure are repaired from those that stand,
//! and nothing is made in the network.
//!
//! Of one step of a change it tells what lies between two settled networks: the trees whose roots move, how many roles, the VIDs that move,
//! that are cut and that are joined, the bridges that turn, and the logical ports that start anew.
#![tactic(auto)]

mod between;
mod change;
mod failing;
mod fate;
mod fates;
pub mod laws;
mod links;
mod on;
mod pairing;
mod parts;
mod plugs;
mod ports;
mod restarts;
mod step;
mod sweeping;
mod told;
mod turns;

pub use between::put_between;
pub use failing::{trees_failed, without_failures};
pub use links::Link;
pub use mst_plan::{Plan, plan_beside, view};
pub use mst_sweep::{Carriage, Cause, Event, Failure, SweepPart, edits_of, failures};
pub use pairing::sweep_pairs;
pub use plugs::Plugs;
pub use step::{Deed, PolicyCounts, Step, Stepped, Walked, put_last, put_step};
pub use sweeping::{sweep_network, sweep_risks};
