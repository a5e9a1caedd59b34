//! Captured BPDUs: what a line of hexadecimal digits says, where that differs from a plan, and what is told of
//! it.
//!
//! A line has the octets of an RST BPDU or an MST BPDU (802.1Q-2022, clause 14), with or without the header of
//! their frame. [`read_line`] gives its fields, or the first fault of it. [`differences`] lists the fields that
//! aren't as a plan has them, in their order. [`put_comparison`] and [`put_fault`] put the rows that tell of it.
#![tactic(auto)]

mod bpdu;
mod capture;
mod compare;
mod difference;
mod fault;
mod fields;
mod flags;
mod layout;
mod messages;
mod octets;
mod planned;
mod read;
mod shown;
mod text;

pub use bpdu::{Bpdu, ConfigurationId, MstBpdu, MstiMessage, RstBpdu, Times};
pub use compare::differences;
pub use difference::{Difference, Field, Value};
pub use fault::BpduFault;
pub use flags::{Flags, RoleCode};
pub use messages::MstiMessages;
pub use planned::{Planned, PlannedCist, PlannedMsti, PlannedMstis};
pub use read::read_line;
pub use text::{put_comparison, put_fault};
