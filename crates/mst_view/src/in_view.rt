ghost use Rattle.std.specs.Prelude.{◌≡◌, ◌==◌, [], nat_eq, unwrap_or};
ghost use Rattle.std.specs.List.{find};
ghost use Rattle.std.specs.Option.{option_copied};
ghost use Rattle.std.specs.Map.{lookup};
ghost use Rattle.mst_view.specs.Trees.{is_among};

use crate::lag::LagId;
use crate::listed::{Listed, Numbered};
use crate::trees::TreesInView;
use indexmap::IndexMap;
use mst_ids::{BridgeNo, LanNo, Name, PortName, PortNo, Tree};
use mst_tables::{Bridge, PortSettings, TreeSettings};
use std::marker::Model;

/// A bridge: its name, its number and its settings.
#[derive(Clone, Copy)]
pub struct BridgeInView {
    pub name: Name,
    pub bridge: Bridge,
}

/// A logical port: the lowest-numbered of the ports that count as one. Its name, number and settings are
/// those of that port.
#[derive(Clone, Copy)]
pub struct PortInView {
    pub name: PortName,
    pub number: PortNo,
    /// Its bridge's number.
    pub bridge: BridgeNo,
    /// Its logical LAN.
    pub lan: Name,
    pub lan_number: LanNo,
    /// The speed of its logical LAN in kb/s, 0 where no member is up.
    pub speed: u64,
    pub settings: PortSettings,
    /// Its bridge is on and its logical LAN is up.
    pub is_enabled: bool,
}

/// A logical LAN: the least-named of the LANs that count as one.
#[derive(Clone, Copy)]
pub struct LanInView {
    pub name: Name,
    pub number: LanNo,
    /// The sum of the speeds of its members that are up, in kb/s.
    pub speed: u64,
    /// Some member is up.
    pub is_up: bool,
    /// The identifier of its link aggregation group, if its members are aggregatable.
    pub lag: Option<LagId>,
}

impl Numbered for BridgeInView {
    ghost number = { λ b. b.bridge.number };

    fn number(&self) -> usize {
        self.bridge.number.0
    }
}

impl Numbered for PortInView {
    ghost number = { λ p. p.number };

    fn number(&self) -> usize {
        self.number.0
    }
}

impl Numbered for LanInView {
    ghost number = { λ l. l.number };

    fn number(&self) -> usize {
        self.number.0
    }
}

impl Numbered for TreesInView {
    ghost number = { λ t. t.bridge };

    fn number(&self) -> usize {
        self.bridge.0
    }
}

/// A LAN and the logical LAN that it is a member of.
#[derive(Clone, Copy)]
pub struct MemberLan {
    pub name: Name,
    pub lan: Name,
    pub is_up: bool,
}

/// A plugged port and the logical LAN that its own LAN is a member of.
#[derive(Clone, Copy)]
pub struct MemberPort {
    pub name: PortName,
    pub lan: Name,
}

/// What the trees see of a network once the links of each class count as one: the bridges, the logical ports
/// and the logical LANs, each with the number of its record. Its lists are for what makes and renews it: who reads a view
/// takes the methods.
pub struct View {
    pub bridges: Listed<BridgeInView>,
    pub trees: Listed<TreesInView>,
    pub ports: Listed<PortInView>,
    pub lans: Listed<LanInView>,
    pub member_lans: Vec<MemberLan>,
    pub member_ports: Vec<MemberPort>,
    // The identifier of each aggregatable LAN's group.
    pub lags: IndexMap<LanNo, LagId>,
    pub settings: TreeSettings,
}

// By hand, so that a caller's check takes a drop as one call and not field by field.
impl Drop for View {
    fn drop(self) {
        let View {
            bridges: _,
            trees: _,
            ports: _,
            lans: _,
            member_lans: _,
            member_ports: _,
            lags: _,
            settings: _,
        } = self;
    }
}

impl Model for View {
    ghost use Rattle.mst_view.specs.Viewed.{Viewed};

    ghost Value = { Viewed };

    ghost use Rattle.std.specs.Prelude.{map};
    ghost use Rattle.std.specs.Coded.{codes};
    ghost use Rattle.mst_tables.specs.ByTree.{by_tree_code};

    ghost coded = { Prim.hlevel (codes, by_tree_code) };

    ghost view = { λ v. record { bridges = v.bridges; trees = map (λ t. (t.bridge, t.trees)) v.trees; ports = v.ports; lans = v.lans; member_lans = v.member_lans.items; member_ports = v.member_ports.items; lags = v.lags.entries; settings = v.settings.set } };
}

impl View {
    /// The bridges, in byte order of names.
    pub fn bridges(&self) -> &[BridgeInView]
        ensures { result.now ≡ self.now.bridges }
    {
        self.bridges.as_slice()
    }

    /// The logical ports, by the names of their bridges and their numbers.
    pub fn ports(&self) -> &[PortInView]
        ensures { result.now ≡ self.now.ports }
    {
        self.ports.as_slice()
    }

    /// The logical LANs, in byte order of names.
    pub fn lans(&self) -> &[LanInView]
        ensures { result.now ≡ self.now.lans }
    {
        self.lans.as_slice()
    }

    /// The bridge of this number.
    pub fn bridge(&self, number: BridgeNo) -> Option<&BridgeInView>
        ensures { option_copied result ≡ find (λ b. number == b.bridge.number) self.now.bridges }
    {
        self.bridges.at(number.0)
    }

    /// The logical port of this number.
    pub fn port(&self, number: PortNo) -> Option<&PortInView>
        ensures { option_copied result ≡ find (λ p. number == p.number) self.now.ports }
    {
        self.ports.at(number.0)
    }

    /// The logical LAN of this number.
    pub fn lan(&self, number: LanNo) -> Option<&LanInView>
        ensures { option_copied result ≡ find (λ l. number == l.number) self.now.lans }
    {
        self.lans.at(number.0)
    }

    /// The trees that the bridge of this number has beside the CIST, in rising order: none for one of kind rstp,
    /// and for a number that no bridge has.
    pub fn trees(&self, bridge: BridgeNo) -> &[Tree]
        ensures { result.now ≡ unwrap_or (lookup (nat_eq bridge) self.now.trees) [] }
    {
        match self.trees.at(bridge.0) {
            Some(has) => has.trees.as_slice(),
            None => &[],
        }
    }

    /// Whether the bridge of this number has a tree beside the CIST. It takes no memory, and looks at few of the bridge's trees.
    pub fn has_tree(&self, bridge: BridgeNo, tree: Tree) -> bool
        ensures { result ≡ is_among (unwrap_or (lookup (nat_eq bridge) self.now.trees) []) tree }
    {
        match self.trees.at(bridge.0) {
            Some(has) => has.trees.has(tree),
            None => false,
        }
    }

    /// All LANs, in byte order of names, each with its logical LAN.
    pub fn member_lans(&self) -> &[MemberLan]
        ensures { result.now ≡ self.now.member_lans }
    {
        self.member_lans.as_slice()
    }

    /// All plugged ports, by the names of their bridges and their numbers, each with its logical LAN.
    pub fn member_ports(&self) -> &[MemberPort]
        ensures { result.now ≡ self.now.member_ports }
    {
        self.member_ports.as_slice()
    }

    /// The identifier of the link aggregation group that the LAN of this number is in, or none where the LAN
    /// isn't aggregatable or no LAN has the number. It takes no memory.
    pub fn lag(&self, lan: LanNo) -> Option<LagId>
        ensures { result ≡ lookup (nat_eq lan) self.now.lags }
    {
        self.lags.get(&lan).copied()
    }

    /// What is set by tree or VID. The settings of a logical port are those of the port that it is named by.
    pub fn settings(&self) -> &TreeSettings
        ensures { result.now.set ≡ self.now.settings }
    {
        &self.settings
    }
}
