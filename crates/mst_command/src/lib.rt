//! The command line of the program: its words, what each takes, its page, its flags, and what was meant by words that it hasn't.
#![tactic(auto)]

mod command;
mod flags;
mod page;
mod rows;
mod stop;
mod strays;
mod table;
mod words;

pub use flags::{Flags, Parted};
pub use mst_frame::{
    Names, Ran, Script, Scripts, Sources, Unopened, Unserved, is_write_fault, serve_named,
};
pub use stop::Stop;
pub use strays::Meant;
pub use table::{VERBS, Verb};
pub use words::{Asked, asked_by_words, given_words};
