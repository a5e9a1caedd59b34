//! The language of policies: what each line promises of a network, and what fails together.
//!
//! A policy is cut into lines and words as a script is, and its lines have a script's names, port numbers, trees and VIDs. A
//! line is an expectation, or a scope and an expectation behind it: the scope says in which networks it is judged. With `finally`
//! in front it is of the end of a change alone, and so is what is meant to be cut, `leaves`, by itself. Or a line says of some
//! LANs or bridges that they fail together, as a risk.
//! [`parse_policy_line`] gives what a line says, or the least [`Fault`](mst_lang::Fault) of it. [`forms`] is the table of
//! expectations that it goes by.
#![tactic(auto)]

mod arguments;
mod expectation;
mod expected;
mod fault;
mod form;
mod item;
pub mod laws;
mod leaving;
mod policy;
mod read;
mod risk;
mod wording;

pub use expectation::{Expectation, Promise, Roles, Scope};
pub use fault::text;
pub use form::{Argument, Form, Kind, form_of, forms, is_argument};
pub use item::{NameItem, NameList, PortItem, PortList, PortsOf};
pub use leaving::Leaving;
pub use policy::{Policy, PolicyLine};
pub use read::parse_policy_line;
pub use risk::{RiskItems, RiskLine, Said};
pub use wording::Wording;
