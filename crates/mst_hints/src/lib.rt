//! What would be right where a line of a script isn't read, or a record isn't there ([`ScriptHints`]).
//!
//! [`push_hint`] tells of a word that is no command which one is nearest to it, or what it asks for in other tools, of a command
//! that has another number of words its form, and else the range of the first argument that isn't in it, and what this was meant
//! to be. There is a hint exactly where the line [isn't read](laws::hinted).
#![tactic(auto)]

mod added;
mod adds;
mod advice;
mod form;
mod hint;
pub mod laws;
mod meant;
mod near;
mod puts;
mod record;
mod right;
mod script;
mod standing;
mod tools;
mod unknown;
mod whose;
mod words;

pub use form::is_command;
pub use hint::{has_order_mark, is_utf16, push_count, push_hint, push_start, push_text};
pub use near::{is_in_case, is_within_one, is_within_two};
pub use script::ScriptHints;
pub use unknown::{push_question, push_saying};
pub use whose::Script;
pub use words::{has_comment, word_count};
