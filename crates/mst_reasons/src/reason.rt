use crate::lists::{BridgeNames, Parts, PortNames, Word};
use mst_ids::{Name, Tree, VidSet};
use mst_roles::Role;

/// Why an expectation doesn't hold.
#[derive(Drop)]
pub enum Reason {
    /// Another bridge is the root of so many.
    OtherRoot {
        tree: Tree,
        root: Name,
        count: u64,
    },
    /// No bridge has a root.
    NoRoot {
        tree: Tree,
    },
    /// Another bridge comes after the root, or none does.
    OtherNext {
        tree: Tree,
        root: Name,
        next: Option<Name>,
    },
    /// Bridges are of several regions.
    Region {
        parts: Parts,
    },
    /// Ports have a role that isn't wanted, or none, as their bridges haven't the tree.
    Role {
        tree: Tree,
        ports: PortNames,
        role: Option<Role>,
    },
    /// Bridges are in several islands of these VIDs, or off.
    Reach {
        vids: VidSet,
        parts: Parts,
    },
    /// Bridges of both lists are in one island of these VIDs.
    Apart {
        vids: VidSet,
        parts: Parts,
    },
    /// Bridges that were to leave these VIDs are in one island with others.
    Leaves {
        vids: VidSet,
        parts: Parts,
    },
    /// Bridges that were in one island of these VIDs before are in several.
    Together {
        vids: VidSet,
        parts: Parts,
    },
    /// A bridge is the parent of others.
    Leaf {
        tree: Tree,
        bridge: Name,
        children: BridgeNames,
    },
    /// Bridges have so many steps to parents.
    Depth {
        tree: Tree,
        steps: u64,
        bridges: BridgeNames,
    },
    /// A path between two bridges has too many hops for these VIDs: of such paths the first one with the most.
    TooManyHops {
        vids: VidSet,
        hops: u64,
        bridges: BridgeNames,
    },
    /// The path of these VIDs, by these bridges, doesn't meet the one that is wanted.
    NotVia {
        vids: VidSet,
        bridges: BridgeNames,
    },
    /// These VIDs don't go over a LAN.
    Carries {
        lan: Name,
        vids: VidSet,
    },
    /// These VIDs go over a LAN.
    Avoids {
        lan: Name,
        vids: VidSet,
    },
    /// Hops bind at a bridge.
    Hops {
        tree: u64,
        bridge: Word,
        depth: u64,
        limit: u64,
    },
    /// Age binds at a bridge.
    Age {
        tree: u64,
        bridge: Word,
        depth: u64,
        limit: u64,
    },
    /// No BPDU can hold a bridge's external path cost.
    ExternalCost {
        tree: u64,
        bridge: Word,
        cost: u64,
    },
    /// No BPDU can hold a bridge's internal path cost.
    InternalCost {
        tree: u64,
        bridge: Word,
        cost: u64,
    },
}
