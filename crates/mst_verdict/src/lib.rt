//! Whether networks do what a policy promises, and the rows that tell it: of a network, and in front of the steps of a change and behind each.
//!
//! What was judged of the lines is a judgement: what each names that the network hasn't, and place by place why it isn't kept, in the network
//! itself and in that of each failure and each risk for which a line asks, by its plan. Of one network it is told whole, and what failures share with the
//! network itself once ([`verify_network`]); of two that a step lies between only what is new ([`step_network`]), beside which lines of the
//! step are refused and what moves.
#![tactic(auto)]

mod judging;
pub mod laws;
mod risking;
mod setting;
mod stepping;
mod verifying;

pub use mst_sweeping::laws as sweeping_laws;
pub use mst_telling::Verdict;
pub use mst_verify::laws as verify_laws;
pub use risking::{RiskCounts, sweep_policy};
pub use stepping::{Course, step_network};
pub use verifying::verify_network;
