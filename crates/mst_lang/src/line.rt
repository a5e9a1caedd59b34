ghost use Rattle.std.specs.Prelude.{◌≡◌};
ghost use Rattle.mst_lang.specs.Faults.{code_of, text_of};

use mst_ids::{
    ConfName, Cost, Mac, MaxAge, MaxHops, Name, PortName, Priority, Speed, Tree, Vid, VidSet,
};
use thiserror::Error;

/// The version of the language that a script is in. They differ in how priorities are written.
#[derive(Clone, Copy)]
pub enum Version {
    /// Priorities are written in steps, 0 to 15.
    V1,
    /// Priorities are written as 802.1Q has them: a bridge's in multiples of 4096, 0 to 61440, a port's in
    /// multiples of 16, 0 to 240.
    V2,
}

/// Which protocol a bridge runs.
#[derive(Clone, Copy, PartialEq, Eq)]
pub enum Kind {
    /// Multiple spanning trees.
    Mstp,
    /// One rapid spanning tree.
    Rstp,
}

/// Whether a bridge is switched on.
#[derive(Clone, Copy)]
pub enum Power {
    On,
    Off,
}

/// Whether a LAN works.
#[derive(Clone, Copy)]
pub enum LanState {
    Up,
    Down,
}

/// What is set of a bridge.
#[derive(Clone, Copy)]
pub enum BridgeChange {
    /// Whether it is on.
    Power(Power),
    /// Its kind.
    Kind(Kind),
    /// Its priority in the identifiers of its link aggregation groups.
    SystemPriority(u16),
    /// The revision and the name of its MST configuration.
    Configuration { revision: u16, name: ConfName },
    /// Its Max Hops.
    MaxHops(MaxHops),
    /// Its Max Age.
    MaxAge(MaxAge),
}

/// What is set of a port, but for the LAN that it is in.
#[derive(Clone, Copy)]
pub enum PortChange {
    /// Its aggregation key. Ports of key 0 aren't aggregated.
    Key(u16),
    /// Its external path cost, or none for the automatic one.
    PathCost(Option<Cost>),
    /// Whether its role is restricted: it is then never a root port.
    RestrictedRole(bool),
}

/// What is set of a LAN.
#[derive(Clone, Copy)]
pub enum LanChange {
    /// Its state.
    State(LanState),
    /// Its speed.
    Speed(Speed),
}

/// What is set by tree or VID.
#[derive(Clone, Copy)]
pub enum TreeChange {
    /// The priority of a bridge in a tree.
    Priority {
        bridge: Name,
        tree: Tree,
        priority: Priority,
    },
    /// The priority of a port in a tree.
    PortPriority {
        port: PortName,
        tree: Tree,
        priority: Priority,
    },
    /// The internal path cost of a port in a tree, or none for the automatic one.
    PortCost {
        port: PortName,
        tree: Tree,
        cost: Option<Cost>,
    },
    /// Maps VIDs to a tree in a bridge's MST configuration.
    Table {
        bridge: Name,
        tree: Tree,
        vids: VidSet,
    },
    /// The VLANs that a port is a member of.
    Vlans {
        port: PortName,
        vids: VidSet,
    },
}

/// A change of the network.
#[derive(Clone, Copy)]
pub enum Edit {
    /// A new bridge: on, of kind mstp, with priority 8 in every tree.
    AddBridge { bridge: Name, mac: Mac },
    /// Takes a bridge away, with what is set for it.
    DelBridge { bridge: Name },
    /// Sets something of a bridge.
    SetBridge { bridge: Name, change: BridgeChange },
    /// A new port, which is in no LAN, has key 0 and automatic costs, and is a member of all VLANs.
    AddPort { port: PortName },
    /// Takes a port away, with what is set for it.
    DelPort { port: PortName },
    /// Sets something of a port.
    SetPort { port: PortName, change: PortChange },
    /// A new LAN, which is up and of 1,000,000 kb/s.
    AddLan { lan: Name },
    /// Takes a LAN away.
    DelLan { lan: Name },
    /// Sets something of a LAN.
    SetLan { lan: Name, change: LanChange },
    /// Joins a port to a LAN.
    Plug { port: PortName, lan: Name },
    /// Takes a port out of its LAN.
    Unplug { port: PortName },
    /// Sets something by tree or VID.
    SetByTree(TreeChange),
}

/// A question about the network.
#[derive(Clone, Copy)]
pub enum Query {
    /// Every tree, and how far each VLAN reaches.
    ShowPlan,
    /// The classes of aggregated LANs.
    ShowLag,
    /// The regions.
    ShowRegions,
    /// What binds a limit of hops, age or cost.
    ShowNotes,
    /// The roots, costs and roles of a tree.
    ShowTree { tree: Tree },
    /// How far a VLAN reaches.
    ShowVlan { vid: Vid },
    /// The MST configuration of a bridge.
    ShowConfiguration { bridge: Name },
    /// How the network differs from the marked one.
    Changes,
    /// A script of version 2 that makes the network.
    Save,
    /// The digest of that script.
    Digest,
}

/// What a line says.
#[derive(Clone, Copy)]
pub enum Line {
    Edit(Edit),
    Query(Query),
    /// Remembers the network, for `changes`.
    Mark,
    /// No words, or a comment.
    Blank,
}

/// The first word of a line.
#[derive(Clone, Copy)]
pub enum Command {
    AddBridge,
    DelBridge,
    Bridge,
    Kind,
    AddPort,
    DelPort,
    AddLan,
    DelLan,
    Lan,
    Speed,
    Plug,
    Unplug,
    SetKey,
    SetSysPri,
    SetTreePrio,
    SetTreePortPrio,
    SetPortPathCost,
    SetPortRestrRole,
    SetTreePortCost,
    SetMstConfId,
    SetVidToMstId,
    SetMaxHops,
    SetMaxAge,
    SetPortVlans,
    ShowPlan,
    ShowLag,
    ShowRegions,
    ShowNotes,
    ShowTree,
    ShowVlan,
    ShowMstConfId,
    Mark,
    Changes,
    Save,
    Digest,
}

/// Why a line isn't read. It is displayed as its [`text`](Fault::text).
#[derive(Clone, Copy, Debug, Error, PartialEq, Eq)]
#[error("{}", self.text())]
pub enum Fault {
    /// The line is too long, holds a byte that no line may hold, or isn't a command with its number of
    /// words.
    E01,
    /// An argument other than a tree, a VID or a VID list isn't in its form or range.
    E02,
    /// A tree, VID or VID list isn't in its form or range.
    E03,
}

impl Fault {
    /// The number of the fault, as it is printed.
    pub fn code(self) -> &'static str
        ensures { result.now ≡ code_of self }
    {
        match self {
            Fault::E01 => "E01",
            Fault::E02 => "E02",
            Fault::E03 => "E03",
        }
    }

    /// What is printed after the number.
    pub fn text(self) -> &'static str
        ensures { result.now ≡ text_of self }
    {
        match self {
            Fault::E01 => "no such command",
            Fault::E02 => "bad argument",
            Fault::E03 => "bad VID or tree",
        }
    }
}
