use mst_ids::{Name, Vid};

/// Which path is asked for.
#[derive(Clone, Copy)]
pub struct Trace {
    /// The VLAN of the frames.
    pub vid: Vid,
    /// The bridge that they come from.
    pub from: Name,
    /// The bridge that they go to.
    pub to: Name,
}
