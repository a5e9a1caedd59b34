//! What the network of one script is asked: why a port has its role, what its first screen says, what single failures and pairs of them do,
//! which settings would bring something about, and its picture. A question is read from words ([`Question`]), may be answered from the
//! network alone where something can't be asked of it, and is else answered by the plan. [`ask`] reads the script and answers,
//! [`QuestionWord`] is the word of the program.
#![tactic(auto)]

mod advising;
mod asked;
mod asks;
mod early;
mod explaining;
pub mod laws;
mod opened;
mod picturing;
mod summarizing;
mod sweeping;
mod unadvised;

pub use advising::put_advice;
pub use asked::{Asked, Question, names_policy};
pub use asks::{Answer, QuestionWord, answer_to, ask, ask_from, ask_within, put_answer};
pub use explaining::{Unexplained, put_explanation_of, unexplained_in};
pub use mst_advise::{laws as advise_laws, sweeping_laws};
pub use mst_tool::{
    CheckWord, Engine, Form, Input, Planner, Reply, RunWord, Shape, Side, check, check_within,
    laws as engine_laws, print, report_laws, run, run_from, run_within, serve, status,
};
pub use picturing::{picture_of, vlan_picture_of};
pub use summarizing::put_summary_of;
pub use sweeping::{put_pairs, put_sweep};
pub use unadvised::unadvised_in;
