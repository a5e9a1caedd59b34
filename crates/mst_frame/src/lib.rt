//! What any word of the program runs in: its inputs by name ([`Sources`]), its output through a buffer, and its hints on standard error.
//! [`serve_named`] is all of it, whatever the [`Word`](mst_drive::Word).
#![tactic(auto)]

mod behind;
mod framed;
mod hinting;
mod inputs;
mod named;
mod sources;

pub use behind::{Ran, serve_readers};
pub use framed::{is_write_fault, serve_into};
pub use hinting::Scripts;
pub use inputs::{Input, Unserved, open_input, open_named};
pub use mst_hinting::Script;
pub use mst_hints::{is_in_case, is_within_one};
pub use named::{Names, serve_named};
pub use sources::{Sources, Unopened};
