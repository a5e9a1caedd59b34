//! Records under keys, each with a number of its own that it keeps; how many there are for each key; and in which blocks of
//! trees something may be set for one. It knows neither networks nor what a record says.
#![tactic(auto)]

mod blocks;
mod keeping;
mod records;
mod tally;

pub use blocks::{Blocks, mark, take};
pub use keeping::keep;
pub use records::{Record, Records};
pub use tally::Tally;
