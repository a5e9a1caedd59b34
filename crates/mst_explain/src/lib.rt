//! Why a logical port has its role in a tree: which port is its LAN's designated one, whose vector is its bridge's,
//! and by which component of their priority vectors (802.1Q-2022, 13.9 to 13.12).
#![tactic(auto)]

mod claims;
mod collected;
mod contest;
mod explained;
mod field;
mod in_tree;
pub mod laws;
mod lines;
mod settings;

pub use explained::{put_explanation, put_explanations};
