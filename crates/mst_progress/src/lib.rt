//! What is due at a bridge of one tree, by the vectors of the bridges so far (802.1Q-2022, 13.9 to 13.13).
#![tactic(auto)]

mod progress;

pub use progress::Progress;
