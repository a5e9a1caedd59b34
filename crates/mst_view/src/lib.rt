//! What the trees see of a network once the links of each class count as one (802.1AX-2020), as it is read: its bridges, logical ports and
//! logical LANs ([`View`]), and the identifiers of link aggregation groups with their texts. How a view is made is told in a crate above.
#![tactic(auto)]

mod in_view;
mod lag;
mod listed;
mod trees;

pub use in_view::{BridgeInView, LanInView, MemberLan, MemberPort, PortInView, View};
pub use lag::{LagEnd, LagId, lag_text};
pub use listed::{Listed, Numbered};
pub use trees::{RisingTrees, TreesInView};
