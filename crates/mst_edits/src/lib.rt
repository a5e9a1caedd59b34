//! The edits that make one network of another: each that is needed, and no other. A network is saved as the edits that make it of none.
//!
//! [`put_edits`] puts the rows of a script of version 2, which behind the lines of the old network makes the new one.
//! It goes over the records of both networks in the order of their names: first what goes, then what comes and what is
//! set, then plugs, and states last. The [laws] say that there is no edit from a network to itself, and that the lines of
//! a table make it. [`put_saved`] puts the rows of a script that makes a network, and [`put_digest`] the digest of that.
#![tactic(auto)]

mod bridges;
mod digest;
mod edits;
mod going;
mod homes;
mod lans;
pub mod laws;
mod line;
mod list;
mod moves;
mod ports;
mod rows;
mod runs;
mod save;
mod staying;
mod tables;
mod trees;
mod vids;

pub use digest::put_digest;
pub use edits::put_edits;
pub use save::put_saved;
