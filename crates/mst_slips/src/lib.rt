//! What of a network is most often a slip: regions whose names are nearly one, a bridge whose table alone differs, a logical LAN
//! that is far slower than those beside it, and a link whose ends allow different VLANs.
#![tactic(auto)]

mod kept;
mod lans;
pub mod laws;
mod near;
mod regions;
mod slips;
mod tables;
mod vlans;

pub use kept::{add_port, kept_for};
pub use regions::is_first;
pub use slips::put_slips;
