//! What is told of a policy's lines and of a change's steps: what a line names that a network hasn't, and the rows of both.
//!
//! Rows are told of reasons, whoever found them: nothing is judged here.
#![tactic(auto)]

mod broken;
mod judgement;
mod kept;
mod lacking;
pub mod laws;
mod news;
mod once;
mod promises;
mod reason;
mod refused;
mod steps;
mod texts;
mod unkept;
mod verified;

pub use judgement::{Finding, Judgement};
pub use kept::KeptReason;
pub use lacking::{has_port, missing_in};
pub use mst_reasons::{Hazards, is_whole};
pub use once::is_looked_at;
pub use refused::{put_lacking_line, put_unread};
pub use steps::{breaks, put_front, put_judged, put_start, unkept_count};
pub use verified::{Verdict, put_verdict};
