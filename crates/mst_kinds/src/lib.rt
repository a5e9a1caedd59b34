//! The kinds of rows that texts are made of: the table of what stands in a line and in a record.
//!
//! A row is of a [`Kind`], which is a line of one text. Of each kind [`Kind::first`] is the first word of its lines, which is the
//! `kind` of its records, and [`Kind::parts`] is what stands behind it: words, and places of values. A value has the name of a
//! [`Key`], which has one meaning and one type (`specs/Sorts.antt`). What is written of a row is in `mst_rows`.
//!
//! So that a record tells its row, two kinds of one first word differ in their keys, or in the words that they have for them
//! ([`Part::Said`], [`Part::Told`]): a note says which one it is, and a difference of a capture in which part of the message it is.
//! What a line has on both sides of `->` has two keys (`old_role`, `new_role`), each of the type of its side, and so have the values
//! of a contest: a cost is a number (`value`), an identifier a string (`value_id`). A key that a form of a line hasn't is left out.
#![tactic(auto)]

mod advise_line;
mod ask_line;
mod bridge_command;
mod capture_line;
mod change_line;
mod contest_line;
mod explain_line;
mod key;
mod kind;
pub mod laws;
mod mark;
mod note_line;
mod part;
mod path_line;
mod port_command;
mod query;
mod refusal_line;
mod region_line;
mod step_line;
mod summary_line;
mod sweep_line;
mod tree_line;
mod verify_line;
mod vlan_line;

pub use advise_line::AdviseLine;
pub use ask_line::AskLine;
pub use bridge_command::BridgeCommand;
pub use capture_line::CaptureLine;
pub use change_line::ChangeLine;
pub use contest_line::ContestLine;
pub use explain_line::ExplainLine;
pub use key::Key;
pub use kind::Kind;
pub use mark::Mark;
pub use note_line::NoteLine;
pub use part::Part;
pub use path_line::PathLine;
pub use port_command::PortCommand;
pub use query::Query;
pub use refusal_line::RefusalLine;
pub use region_line::RegionLine;
pub use step_line::StepLine;
pub use summary_line::SummaryLine;
pub use sweep_line::SweepLine;
pub use tree_line::TreeLine;
pub use verify_line::VerifyLine;
pub use vlan_line::VlanLine;
