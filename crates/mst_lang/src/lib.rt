//! The lines of a script: what each one says, by the line grammar.
//!
//! A line is words with spaces and tabs between. The first word is a command, and those that follow are its
//! arguments: each command has a number of them, and each argument a form and a range. [`parse_line`] gives
//! the edit, the query or the mark that a line says, or the least [`Fault`] of it, and takes no memory.
//!
//! The language has two versions, which differ in how priorities are written. A script is of version 2 where its
//! first line [says so](is_version_2).
#![tactic(auto)]

mod arguments;
mod form;
pub mod laws;
mod line;
mod made;
mod read;
mod value;
mod words;

pub use arguments::{name, parse_number, port_number, tree, vids};
pub use form::{Argument, Form, form_of, forms};
pub use line::{
    BridgeChange, Command, Edit, Fault, Kind, LanChange, LanState, Line, PortChange, Power, Query,
    TreeChange, Version,
};
pub use read::{LONGEST, is_version_2, parse_line, parse_line_as};
pub use value::is_argument;
pub use words::{are_plain, four_words, next_word, one_word, three_words, two_words};
