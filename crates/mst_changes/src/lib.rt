//! What a mark keeps of a network's outcome, and the rows of what has changed since.
//!
//! `Entries` keeps the root priority vectors of bridges and the roles of logical ports by names, so that it needs
//! neither the view nor the forest afterwards. `put_changes` goes over it and a network's outcome, tree by tree.
#![tactic(auto)]

mod change;
mod changes;
mod entries;
mod kept;
pub mod laws;
mod merge;
mod ports;
mod rows;
mod subject;
mod value;

pub use changes::put_changes;
pub use entries::Entries;
pub use ports::put_port_changes;
pub use subject::Entry;
