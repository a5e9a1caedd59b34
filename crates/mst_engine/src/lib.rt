//! An engine that serves the lines of an input, one after another: those of a script, the edits of one alone, or captured
//! messages, which it compares with the plan.
//!
//! [`Engine::reply`] serves a line, [`serve`] one that is read, and [`serve_input`] all lines that a source gives, of which it writes what they print. The
//! [laws] say that what is printed is a function of the input.
#![tactic(auto)]

mod captures;
mod engine;
pub mod laws;
mod serving;

pub use engine::{Engine, Input, Reply, print, serve};
pub use mst_print::{Form, Printer, Shape, Side, put_unanswered};
pub use mst_report::{Planner, laws as report_laws};
pub use serving::{Replied, Serving, serve_input};
