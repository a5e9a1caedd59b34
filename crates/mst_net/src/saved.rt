ghost use Rattle.std.specs.Prelude.{◌≡◌, IfOk};
ghost use Rattle.mst_tables.specs.Contents.{priority_of, port_priority_of, port_cost_of};
ghost use Rattle.mst_tables.specs.After.{vlans_of};
ghost use Rattle.mst_tables.specs.TreesSet.{priority_trees, port_priority_trees, port_cost_trees};

use mst_ids::{Cost, Name, PortName, Priority, Tree, VidSet};
use mst_tables::Contents;
use std::alloc::{AllocError, Global};

/// What is set in a network by tree or VID, beside what is asked of any [`Contents`], one bridge or port at a time. Who writes a
/// network down asks for it; of a network as it will be nobody does.
pub trait Saved: Contents {
    /// The priority of a bridge in a tree, 8 where none is set.
    fn tree_priority(&self, bridge: &Name, tree: Tree) -> Priority
        ensures { result ≡ priority_of (Self.tables self.now).net bridge.now tree };

    /// The priority of a port in a tree, 8 where none is set.
    fn port_priority(&self, port: &PortName, tree: Tree) -> Priority
        ensures { result ≡ port_priority_of (Self.tables self.now).net port.now tree };

    /// The internal path cost of a port in a tree, or none where it is automatic.
    fn port_cost(&self, port: &PortName, tree: Tree) -> Option<Cost>
        ensures { result ≡ port_cost_of (Self.tables self.now).net port.now tree };

    /// The trees in which a bridge has another priority than 8, in rising order. It takes memory.
    fn priority_trees(&self, bridge: &Name, alloc: Global) -> Result<Vec<Tree>, AllocError>
        ensures { IfOk result (λ trees. trees.items ≡ priority_trees (Self.tables self.now).net bridge.now) };

    /// The trees in which a port has another priority than 8, in rising order. It takes memory.
    fn port_priority_trees(&self, port: &PortName, alloc: Global) -> Result<Vec<Tree>, AllocError>
        ensures { IfOk result (λ trees. trees.items ≡ port_priority_trees (Self.tables self.now).net port.now) };

    /// The trees in which the internal path cost of a port isn't automatic, in rising order. It takes memory.
    fn port_cost_trees(&self, port: &PortName, alloc: Global) -> Result<Vec<Tree>, AllocError>
        ensures { IfOk result (λ trees. trees.items ≡ port_cost_trees (Self.tables self.now).net port.now) };

    /// The VLANs that a port is a member of, all where none were set.
    fn port_vlans(&self, port: &PortName) -> VidSet
        ensures { result ≡ vlans_of (Self.tables self.now).net port.now };
}
