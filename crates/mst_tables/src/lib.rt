//! The tables of a network, and what is looked up in them.
#![tactic(auto)]

mod contents;
mod kept_table;
mod refusal;
mod settings;
mod table;
mod tree_settings;
mod trees;

pub use contents::{Bridge, Contents, Lan, Port, seen_bridge, seen_lan, seen_port};
pub use kept_table::TREE_LIMIT;
pub use refusal::Refusal;
pub use settings::{BridgeSettings, KeptPort, LanSettings, PortSettings};
pub use table::Table;
pub use tree_settings::TreeSettings;
