use mst_ids::{Name, PortName, Tree};

/// What is wanted of a network.
#[derive(Clone, Copy)]
pub enum Goal {
    /// A bridge is the one root of a tree in its region.
    Root { tree: Tree, bridge: Name },
    /// A port forwards in a tree: its role is root, designated or master.
    Forward { tree: Tree, port: PortName },
}
