use crate::item::{NameList, PortList};
use mst_ids::{Name, Tree, VidSet};

/// The networks in which an expectation is judged.
#[derive(Drop)]
pub enum Scope {
    /// The network itself.
    Now,
    /// That of each failure of a LAN that the list has.
    AfterLan(NameList),
    /// That of each failure of a bridge that the list has.
    AfterBridge(NameList),
    /// That of each risk that the list has.
    AfterRisk(NameList),
    /// The network itself, and that of each failure and of each risk.
    Always,
}

/// Some of the roles of ports.
#[derive(Clone, Copy)]
pub struct Roles {
    pub root: bool,
    pub designated: bool,
    pub alternate: bool,
    pub backup: bool,
    pub master: bool,
    pub disabled: bool,
}

/// What is expected of a network.
#[derive(Drop)]
pub enum Expectation {
    /// A bridge is the one root of the tree in its region, and another, if one is told, comes next.
    Root {
        tree: Tree,
        bridge: Name,
        next: Option<Name>,
    },
    /// The bridges are of one region.
    Region {
        names: NameList,
    },
    /// Each of the ports has one of the roles in the tree.
    Role {
        tree: Tree,
        ports: PortList,
        roles: Roles,
    },
    /// For each VID the bridges are in one island.
    Reach {
        vids: VidSet,
        names: NameList,
    },
    /// For no VID a bridge of the one list is in one island with one of the others.
    Apart {
        vids: VidSet,
        names: NameList,
        others: NameList,
    },
    /// For no VID a bridge that is one of them is in one island with one that isn't: what is meant to be cut.
    Leaves {
        vids: VidSet,
        names: NameList,
    },
    /// For each VID those of the bridges that were in one island before are in one.
    Together {
        vids: VidSet,
        names: NameList,
    },
    /// None of the bridges is the parent of a bridge in the tree.
    Leaf {
        tree: Tree,
        names: NameList,
    },
    /// No bridge has more steps to parents in the tree.
    Depth {
        tree: Tree,
        steps: u64,
    },
    /// For no VID a path between two of the bridges has more hops.
    Hops {
        vids: VidSet,
        most: u64,
        names: NameList,
    },
    /// For each VID the path from the one bridge to the other meets the third, be it at its ends.
    Via {
        vids: VidSet,
        from: Name,
        to: Name,
        by: Name,
    },
    /// All of the VIDs go over the logical LAN of this LAN.
    Carries {
        lan: Name,
        vids: VidSet,
    },
    /// None of them does.
    Avoids {
        lan: Name,
        vids: VidSet,
    },
    /// No limit binds.
    Fits,
}

/// What a line of a policy promises.
#[derive(Drop)]
pub struct Promise {
    /// It is of the network behind all steps of a change alone.
    pub is_final: bool,
    pub scope: Scope,
    pub expectation: Expectation,
}
