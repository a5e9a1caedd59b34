//! The ports of one tree by bridge and by LAN, what is said on each LAN, and the keys of bridges. Its lemmas tell what
//! vectors are settled (802.1Q-2022, 13.9 to 13.13).
#![tactic(auto)]

mod best;
mod bridges;
mod by_number;
mod designations;
mod heard;
mod keys;
mod link;
mod messages;
mod seen;
mod slots;
mod topology;
mod turning;
mod wiring;

pub use best::{lower, port_of};
pub use bridges::Bridges;
pub use by_number::{ByNumber, overwrite};
pub use designations::Designations;
pub use heard::Heard;
pub use keys::Keys;
pub use messages::{designated_vector, designated_vector_with};
pub use seen::Seen;
pub use slots::Slots;
pub use topology::Topology;
pub use turning::{key, turn};
pub use wiring::{TreePort, Wiring};
