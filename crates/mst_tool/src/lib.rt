//! Runs a script over any reader and writer: its lines are edits of a network and queries about it ([`run`]). And checks captured messages
//! against the plan of the network that a script leaves ([`check`]). Whoever reads a script for another word of the program begins
//! with [`serve_first`]. A source may listen meanwhile (`mst_hinting`).
#![tactic(auto)]

mod checks;
mod opened;
mod runs;
mod served;
pub mod status_laws;

pub use checks::{CheckWord, check, check_from, check_within};
pub use mst_engine::{
    Engine, Form, Input, Planner, Printer, Reply, Shape, Side, laws, print, put_unanswered,
    report_laws, serve,
};
pub use opened::open_question;
pub use runs::{RunWord, run, run_from, run_within, status};
pub use served::serve_first;
