//! Captured BPDUs beside the plan: which port sent one by the plan, and in which fields it differs from what the plan
//! has for that port.
//!
//! `mst_bpdu` reads a BPDU. By a settled network, [`sender`] tells the logical port that it comes from, and [`compare`] lists its
//! differences, whose rows `mst_bpdu` puts. [`compare_with`] keeps the [`Digests`] of tables for the next BPDU.
#![tactic(auto)]

mod differing;
mod digests;
pub mod laws;
mod planned;
mod senders;

pub use differing::{compare, compare_with};
pub use digests::Digests;
pub use senders::sender;
