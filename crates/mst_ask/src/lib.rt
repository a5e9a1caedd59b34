//! A standing planner: the network of a script, of which questions are asked, one after another, and which edits change and
//! take back. [`ask_within`] reads the script and then the questions, each of which is a line, and answers each before it
//! reads on. [`AskWord`] is the same as a word of the program.
#![tactic(auto)]

mod asking;
pub mod laws;
mod questions;
mod reply;
mod request;
mod script;
mod standing;
mod undone;
mod word;

pub use asking::ask_within;
pub use mst_questions::{
    CheckWord, Form, Question, QuestionWord, RunWord, ask, check, check_within, engine_laws,
    names_policy, report_laws, run, run_from, run_within, status,
};
pub use mst_tracing::{PathQuestion, PathWord, trace, trace_within};
pub use mst_verifying::{PolicyQuestion, VerifyWord, verify};
pub use request::Request;
pub use word::AskWord;
