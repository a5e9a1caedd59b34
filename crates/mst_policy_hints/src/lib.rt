//! What would be right where a line of a policy isn't read.
//!
//! [`push_hint`] tells of a word that is no expectation which one is nearest to it, of an expectation that has another number of
//! words its forms, and else the range of the first argument that isn't in it. There is a hint exactly where the line
//! [isn't read](laws::hinted). What a network lacks isn't told here.
#![tactic(auto)]

mod bytes;
mod form;
mod hint;
pub mod laws;
mod near;
mod risk;
mod unknown;

pub use hint::push_hint;
