ghost use Rattle.std.specs.Prelude.{◌≡◌, ◌≢◌, ◌<◌, List, ℕ, Some, Ok, Err, IfOk, IfErr, OnOk, OnErr, IsOk};
ghost use Rattle.std.specs.FinMap as fin;
ghost use Rattle.std.specs.Option.{option_map};
ghost use Rattle.mst_ids.specs.declared.name.PortName.{PortName};
ghost use Rattle.mst_tables.specs.Tables.{empty_net, no_numbers};
ghost use Rattle.mst_tables.specs.After.{after, mac_taken, some_port, is_of_bridge, is_in_lan};
ghost use Rattle.mst_tables.specs.Seen.{bridge_row, port_row, lan_row};
ghost use Rattle.mst_tables.specs.Contents.{SameContents, CanCommit, Commits, ahead_of, room_for};

use crate::ahead::Ahead;
use crate::saved::Saved;
use indexmap::IndexSet;
use mst_ids::{BridgeNo, Cost, LanNo, Mac, Name, PortName, PortNo, Priority, Tree, VidSet};
use mst_lang::{Edit, laws};
use mst_records::{Record, Records, Tally};
use mst_tables::{
    Bridge, BridgeSettings, Contents, KeptPort, Lan, LanSettings, Port, Refusal, Table,
    TreeSettings, seen_bridge, seen_lan, seen_port,
};
use std::alloc::{AllocError, Global};
use std::marker::Model;

/// The network's records, each under a number that it keeps.
pub struct Network {
    pub(crate) bridges: Records<Name, BridgeSettings>,
    pub(crate) ports: Records<PortName, KeptPort>,
    pub(crate) lans: Records<Name, LanSettings>,
    // The MACs of the bridges.
    pub(crate) macs: IndexSet<Mac>,
    // How many ports each bridge has, and how many plugs each LAN has.
    pub(crate) port_counts: Tally<Name>,
    pub(crate) plug_counts: Tally<Name>,
    pub(crate) settings: TreeSettings,
}

// By hand, so that a caller's check takes a drop as one call and not field by field.
impl Drop for Network {
    fn drop(self) {
        let Network {
            bridges: _,
            ports: _,
            lans: _,
            macs: _,
            port_counts: _,
            plug_counts: _,
            settings: _,
        } = self;
    }
}

impl Model for Network {
    ghost use Rattle.mst_tables.specs.Contents.{Contents, contents_code};

    ghost Value = { Contents };

    ghost coded = { contents_code };

    ghost use Rattle.mst_net.specs.NetworkKept.{contents_of, IsSound};

    ghost view = { contents_of };

    ghost invariant = { IsSound };
}

/// An edit that can be made with no memory. One that is let go leaves the network as it is.
#[derive(Drop)]
pub struct Ready {
    edit: Edit,
}

impl Model for Ready {
    ghost use Rattle.mst_lang.specs.declared.line.Edit.{Edit};

    ghost Value = { Edit };

    ghost view = { λ a. a.edit };
}

impl Ready {
    /// The edit.
    pub(crate) fn edit(&self) -> &Edit
        ensures { result.now ≡ self.now }
    {
        &self.edit
    }
}

impl Network {
    /// A network with no records, which takes no memory.
    pub fn new(alloc: Global) -> Network
        ensures net { result.net ≡ empty_net }
        ensures numbers { result.numbers ≡ no_numbers }
    {
        Network {
            bridges: Records::new(alloc),
            ports: Records::new(alloc),
            lans: Records::new(alloc),
            macs: IndexSet::new(alloc),
            port_counts: Tally::new(alloc),
            plug_counts: Tally::new(alloc),
            settings: TreeSettings::new(alloc),
        }
    }

    /// The number that the next bridge gets.
    pub(crate) fn next_bridge(&self) -> usize
        ensures next { result ≡ self.now.next.bridge }
        ensures fresh { (name : List ℕ) → fin.get self.now.numbers.bridges name ≡ Some result → ⊥ }
    {
        self.bridges.next()
    }

    /// The number that the next port gets.
    pub(crate) fn next_port(&self) -> usize
        ensures next { result ≡ self.now.next.port }
        ensures fresh { (name : PortName) → fin.get self.now.numbers.ports name ≡ Some result → ⊥ }
    {
        self.ports.next()
    }

    /// The number that the next LAN gets.
    pub(crate) fn next_lan(&self) -> usize
        ensures next { result ≡ self.now.next.lan }
        ensures fresh { (name : List ℕ) → fin.get self.now.numbers.lans name ≡ Some result → ⊥ }
    {
        self.lans.next()
    }

    /// The contents as they will be once the edit is made.
    pub fn ahead<'a>(&'a self, ready: &'a Ready) -> Ahead<'a>
        requires { CanCommit ready.now self.now }
        ensures { result ≡ ahead_of self.now ready.now }
    {
        Ahead {
            network: self,
            edit: ready.edit(),
        }
    }

    /// Makes all that the edit needs, and changes no record. `commit` then takes no memory.
    ///
    /// The refusal is the least that applies, and E99 where none does and memory was refused.
    pub fn prepare(&mut self, edit: &Edit) -> Result<Ready, Refusal>
        ensures same { SameContents self.old self.new }
        ensures ready { IfOk result (λ ready. (ready ≡ edit.now) × CanCommit edit.now self.new) }
        ensures refused { IfErr result (λ refusal. refusal ≢ Refusal.E99 → after edit.now self.old.net ≡ Err refusal) }
        ensures memory { result ≡ Err Refusal.E99 → IsOk (after edit.now self.old.net) }
        ensures no_room { result ≡ Err Refusal.E99 → room_for edit.now self.old.room ≡ 0 }
    {
        laws::values_in_range(edit);
        self.check(edit)?;
        self.make_room(edit).map_err(|_| Refusal::E99)?;
        Ok(Ready { edit: *edit })
    }

    /// Makes the edit. Each record that stays keeps its number. It takes no memory.
    pub fn commit(&mut self, ready: Ready)
        requires { CanCommit ready self.old }
        ensures { Commits ready self.old self.new }
    {
        let Ready { edit } = ready;
        self.make(&edit);
    }

    /// Gives up an edit, and leaves the network as it is, the room for the edit too.
    pub fn abandon(&mut self, ready: Ready)
        requires { CanCommit ready self.old }
        ensures same { SameContents self.old self.new }
        ensures room { self.new.room ≡ self.old.room }
    {
        let Ready { edit: _ } = ready;
    }

    fn make_room(&mut self, edit: &Edit) -> Result<(), AllocError>
        ensures same { SameContents self.old self.new }
        ensures room { OnOk result (0 < room_for edit.now self.new.room) }
        ensures no_room { OnErr result (room_for edit.now self.old.room ≡ 0) }
    {
        match edit {
            Edit::AddBridge { .. } => self.make_room_for_bridge(),
            Edit::AddPort { .. } => self.make_room_for_port(),
            Edit::AddLan { .. } => self.lans.reserve(),
            Edit::Plug { .. } => self.plug_counts.reserve(),
            _ => self.settings.reserve(edit),
        }
    }

    fn make_room_for_bridge(&mut self) -> Result<(), AllocError>
        ensures same { SameContents self.old self.new }
        ensures room { OnOk result (0 < self.new.room.bridge) }
        ensures no_room { OnErr result (self.old.room.bridge ≡ 0) }
    {
        self.macs.reserve(1)?;
        self.bridges.reserve()
    }

    fn make_room_for_port(&mut self) -> Result<(), AllocError>
        ensures same { SameContents self.old self.new }
        ensures room { OnOk result (0 < self.new.room.port) }
        ensures no_room { OnErr result (self.old.room.port ≡ 0) }
    {
        self.port_counts.reserve()?;
        self.ports.reserve()
    }

    pub(crate) fn has_bridge(&self, name: &Name) -> bool
        ensures { result ≡ fin.contains_key self.now.net.bridges name.now }
    {
        self.bridges.contains(name)
    }

    pub(crate) fn has_mac(&self, mac: Mac) -> bool
        ensures { result ≡ mac_taken mac self.now.net }
    {
        self.macs.contains(&mac)
    }

    pub(crate) fn has_ports(&self, bridge: &Name) -> bool
        ensures { result ≡ some_port (is_of_bridge bridge.now) self.now.net }
    {
        self.port_counts.has(bridge)
    }

    pub(crate) fn has_port(&self, port: &PortName) -> bool
        ensures { result ≡ fin.contains_key self.now.net.ports port.now }
    {
        self.ports.contains(port)
    }

    pub(crate) fn has_lan(&self, name: &Name) -> bool
        ensures { result ≡ fin.contains_key self.now.net.lans name.now }
    {
        self.lans.contains(name)
    }

    pub(crate) fn has_plugs(&self, lan: &Name) -> bool
        ensures { result ≡ some_port (is_in_lan lan.now) self.now.net }
    {
        self.plug_counts.has(lan)
    }

    pub(crate) fn bridge_count(&self) -> usize
        ensures { result ≡ fin.len self.now.net.bridges }
    {
        self.bridges.len()
    }

    pub(crate) fn port_count(&self) -> usize
        ensures { result ≡ fin.len self.now.net.ports }
    {
        self.ports.len()
    }

    pub(crate) fn lan_count(&self) -> usize
        ensures { result ≡ fin.len self.now.net.lans }
    {
        self.lans.len()
    }

    pub(crate) fn bridge_record(&self, bridge: &Name) -> Option<Record<BridgeSettings>>
        ensures row { option_map (λ found. found.row) result ≡ fin.get self.now.net.bridges bridge.now }
        ensures number { option_map (λ found. found.number) result ≡ fin.get self.now.numbers.bridges bridge.now }
    {
        self.bridges.get(bridge)
    }

    pub(crate) fn bridge_settings(&self, bridge: &Name) -> Option<BridgeSettings>
        ensures { result ≡ fin.get self.now.net.bridges bridge.now }
    {
        Some(self.bridge_record(bridge)?.row)
    }

    pub(crate) fn lan_record(&self, lan: &Name) -> Option<Record<LanSettings>>
        ensures row { option_map (λ found. found.row) result ≡ fin.get self.now.net.lans lan.now }
        ensures number { option_map (λ found. found.number) result ≡ fin.get self.now.numbers.lans lan.now }
    {
        self.lans.get(lan)
    }

    pub(crate) fn lan_settings(&self, lan: &Name) -> Option<LanSettings>
        ensures { result ≡ fin.get self.now.net.lans lan.now }
    {
        Some(self.lan_record(lan)?.row)
    }

    pub(crate) fn port_record(&self, port: &PortName) -> Option<Record<KeptPort>>
        ensures row { option_map (λ found. found.row) result ≡ fin.get self.now.net.ports port.now }
        ensures number { option_map (λ found. found.number) result ≡ fin.get self.now.numbers.ports port.now }
    {
        self.ports.get(port)
    }

    pub(crate) fn port_settings(&self, port: &PortName) -> Option<KeptPort>
        ensures { result ≡ fin.get self.now.net.ports port.now }
    {
        Some(self.port_record(port)?.row)
    }
}

impl Contents for Network {
    ghost use Rattle.mst_tables.specs.Contents.{tables_of};

    ghost tables = { tables_of };

    fn known(&self) {
        let _bridges = &self.bridges;
    }

    fn bridge(&self, name: &Name) -> Option<Bridge> {
        kept_bridge(self.bridge_record(name))
    }

    fn port(&self, name: &PortName) -> Option<Port> {
        kept_port(self.port_record(name))
    }

    fn lan(&self, name: &Name) -> Option<Lan> {
        kept_lan(self.lan_record(name))
    }

    fn bridge_name(&self, number: BridgeNo) -> Option<Name> {
        self.bridges.key(number.0)
    }

    fn port_name(&self, number: PortNo) -> Option<PortName> {
        self.ports.key(number.0)
    }

    fn lan_name(&self, number: LanNo) -> Option<Name> {
        self.lans.key(number.0)
    }

    fn bridge_names(&self, alloc: Global) -> Result<Vec<Name>, AllocError> {
        let mut names = self.bridges.keys(alloc)?;
        names.sort()?;
        Ok(names)
    }

    fn port_names(&self, alloc: Global) -> Result<Vec<PortName>, AllocError> {
        let mut names = self.ports.keys(alloc)?;
        names.sort()?;
        Ok(names)
    }

    fn lan_names(&self, alloc: Global) -> Result<Vec<Name>, AllocError> {
        let mut names = self.lans.keys(alloc)?;
        names.sort()?;
        Ok(names)
    }

    fn mstis(&self, bridge: &Name, alloc: Global) -> Result<Vec<Tree>, AllocError> {
        self.settings.mstis(bridge, alloc)
    }

    fn table(&self, bridge: &Name) -> Table {
        self.settings.table(bridge)
    }

    fn settings(&self) -> Result<TreeSettings, AllocError> {
        self.settings.copy()
    }
}

impl Saved for Network {
    fn tree_priority(&self, bridge: &Name, tree: Tree) -> Priority {
        self.settings.tree_priority(bridge, tree)
    }

    fn port_priority(&self, port: &PortName, tree: Tree) -> Priority {
        self.settings.port_priority(port, tree)
    }

    fn port_cost(&self, port: &PortName, tree: Tree) -> Option<Cost> {
        self.settings.port_cost(port, tree)
    }

    fn priority_trees(&self, bridge: &Name, alloc: Global) -> Result<Vec<Tree>, AllocError> {
        self.settings.priority_trees(bridge, alloc)
    }

    fn port_priority_trees(&self, port: &PortName, alloc: Global) -> Result<Vec<Tree>, AllocError> {
        self.settings.port_priority_trees(port, alloc)
    }

    fn port_cost_trees(&self, port: &PortName, alloc: Global) -> Result<Vec<Tree>, AllocError> {
        self.settings.port_cost_trees(port, alloc)
    }

    fn port_vlans(&self, port: &PortName) -> VidSet {
        self.settings.port_vlans(port)
    }
}

pub(crate) fn kept_bridge(kept: Option<Record<BridgeSettings>>) -> Option<Bridge>
    ensures row { option_map bridge_row result ≡ option_map (λ found. found.row) kept }
    ensures number { option_map (λ bridge. bridge.number) result ≡ option_map (λ found. found.number) kept }
{
    let Record { number, row } = kept?;
    Some(seen_bridge(BridgeNo(number), row))
}

pub(crate) fn kept_port(kept: Option<Record<KeptPort>>) -> Option<Port>
    ensures row { option_map port_row result ≡ option_map (λ found. found.row) kept }
    ensures number { option_map (λ port. port.number) result ≡ option_map (λ found. found.number) kept }
{
    let Record { number, row } = kept?;
    Some(seen_port(PortNo(number), row))
}

pub(crate) fn kept_lan(kept: Option<Record<LanSettings>>) -> Option<Lan>
    ensures row { option_map lan_row result ≡ option_map (λ found. found.row) kept }
    ensures number { option_map (λ lan. lan.number) result ≡ option_map (λ found. found.number) kept }
{
    let Record { number, row } = kept?;
    Some(seen_lan(LanNo(number), row))
}
