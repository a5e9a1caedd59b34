//! What a change does to the network of a script, step by step, and what a policy says of each step. [`steps`] reads the script, the change
//! and the policy and answers, [`StepsWord`] is the word of the program.
#![tactic(auto)]

mod alters;
pub mod laws;
mod stepping;

pub use alters::{StepsWord, steps, steps_within};
pub use stepping::put_steps;
