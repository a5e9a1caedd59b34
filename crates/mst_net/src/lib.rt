//! The network's records, and the edits that change them.
#![tactic(auto)]

mod ahead;
mod changes;
mod checks;
pub mod laws;
mod names;
mod network;
mod saved;

pub use ahead::Ahead;
pub use mst_tables::{Bridge, Contents, Lan, Port, PortSettings, Refusal, Table, TreeSettings};
pub use network::{Network, Ready};
pub use saved::Saved;
