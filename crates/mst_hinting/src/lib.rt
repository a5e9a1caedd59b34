//! What would be right in the lines of a script that aren't made, told while the script is read ([`Hinting`]); and likewise in those of
//! a policy and of a change that aren't read.
#![tactic(auto)]

mod change;
mod hinted;
mod lines;
mod listening;
mod policy;
mod telling;

pub use listening::Hinting;
pub use mst_hints::Script;
pub use telling::Telling;
