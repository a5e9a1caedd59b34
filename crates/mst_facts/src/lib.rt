//! What all that tells of plans shares: the bridges of two networks.
#![tactic(auto)]

mod both;
mod planned;
mod roots;

pub use both::{Both, bridges_of_both};
pub use planned::Planned;
pub use roots::{Identified, root, root_of};
