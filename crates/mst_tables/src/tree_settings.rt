ghost use Rattle.std.specs.Prelude.{◌≡◌, ◌==◌, ◌<◌, not, is_some, min, OnOk, OnErr, IfOk, IsTrue};
ghost use Rattle.indexmap.specs.IndexMap.{spare};
ghost use Rattle.mst_ids.specs.Vids.{has};
ghost use Rattle.mst_lang.specs.declared.line.Edit.TheVariants.{DelBridge, DelPort, SetByTree};
ghost use Rattle.mst_lang.specs.declared.line.TreeChange.TheVariants.{Priority as SetPriority, PortPriority, PortCost, Table as MapVids, Vlans};
ghost use Rattle.mst_tables.specs.After.{own_priority as own, own_vlans as kept_vlans};
ghost use Rattle.mst_tables.specs.ByTree.{AreInTrees, nothing_set, priority_in, port_priority_in, port_cost_in, table_in, vlans_in};
ghost use Rattle.mst_tables.specs.SettingsAfter.{set_after, room_to_set};
ghost use Rattle.std.specs.List.{filter, list_all};
ghost use Rattle.std.specs.Map.{lookup};
ghost use Rattle.std.specs.Option.{option_copied};
ghost use Rattle.mst_tables.specs.KeptTables.{IsPutAt, table_among};
ghost use Rattle.mst_tables.specs.Table.{mapped, tree_in, tree_count, mstis_in};
ghost use Rattle.mst_tables.specs.TreesSet.{trees_where};

use crate::kept_table::KeptTable;
use crate::settings::{BridgeInTree, PortInTree, forget_bridge, forget_port};
use crate::table::Table;
use crate::trees::marked_trees;
use indexmap::IndexMap;
use mst_ids::{Cost, Name, PortName, Priority, Tree, Vid, VidSet};
use mst_lang::{Edit, TreeChange};
use mst_records::{Blocks, keep, mark, take};
use std::alloc::{AllocError, Global};
use std::hash::Hash;
use std::marker::Model;

/// What is set by tree or VID, but for defaults: the priorities of bridges and of ports, the internal path
/// costs, the tables of bridges, and the VLANs of ports.
pub struct TreeSettings {
    priorities: IndexMap<BridgeInTree, Priority>,
    port_priorities: IndexMap<PortInTree, Priority>,
    port_costs: IndexMap<PortInTree, Cost>,
    tables: IndexMap<Name, KeptTable>,
    vlans: IndexMap<PortName, VidSet>,
    // Marks of the trees in which something may be set for a bridge, and for a port.
    bridge_blocks: IndexMap<Name, Blocks>,
    port_blocks: IndexMap<PortName, Blocks>,
}

// By hand, as a network's.
impl Drop for TreeSettings {
    fn drop(self) {
        let TreeSettings {
            priorities: _,
            port_priorities: _,
            port_costs: _,
            tables: _,
            vlans: _,
            bridge_blocks: _,
            port_blocks: _,
        } = self;
    }
}

impl Model for TreeSettings {
    ghost use Rattle.mst_tables.specs.ByTree.{Settings, settings_code};

    ghost Value = { Settings };

    ghost coded = { settings_code };

    ghost use Rattle.mst_tables.specs.SettingsKept.{settings_of, AreMarked};

    ghost view = { settings_of };

    ghost invariant = { AreMarked };
}

impl TreeSettings {
    /// Nothing is set, which takes no memory.
    pub fn new(alloc: Global) -> TreeSettings
        ensures { result.set ≡ nothing_set }
    {
        TreeSettings {
            priorities: IndexMap::new(alloc),
            port_priorities: IndexMap::new(alloc),
            port_costs: IndexMap::new(alloc),
            tables: IndexMap::new(alloc),
            vlans: IndexMap::new(alloc),
            bridge_blocks: IndexMap::new(alloc),
            port_blocks: IndexMap::new(alloc),
        }
    }

    /// A copy.
    pub fn copy(&self) -> Result<TreeSettings, AllocError>
        ensures { IfOk result (λ copy. copy.set ≡ self.now.set) }
    {
        let (priorities, bridge_blocks) = copies_of_bridges(&self.priorities, &self.bridge_blocks)?;
        let (port_priorities, port_costs) = copies_by_tree(
            &self.port_priorities,
            &self.port_costs,
        )?;
        let (tables, vlans) = copies_by_vid(&self.tables, &self.vlans)?;
        let port_blocks = copy_of_blocks(&self.port_blocks)?;
        Ok(TreeSettings {
            priorities,
            port_priorities,
            port_costs,
            tables,
            vlans,
            bridge_blocks,
            port_blocks,
        })
    }

    /// The priority of a bridge in a tree, 8 where none is set.
    pub fn tree_priority(&self, bridge: &Name, tree: Tree) -> Priority
        ensures { result ≡ priority_in self.now.set.priorities bridge.now tree }
    {
        let key = BridgeInTree {
            bridge: *bridge,
            tree,
        };
        match found(&self.priorities, &key) {
            Some(priority) => *priority,
            None => Priority::default(),
        }
    }

    /// The priority of a port in a tree, 8 where none is set.
    pub fn port_priority(&self, port: &PortName, tree: Tree) -> Priority
        ensures { result ≡ port_priority_in self.now.set.port_priorities port.now tree }
    {
        let key = PortInTree { port: *port, tree };
        match found(&self.port_priorities, &key) {
            Some(priority) => *priority,
            None => Priority::default(),
        }
    }

    /// The internal path cost of a port in a tree, or none where it is automatic.
    pub fn port_cost(&self, port: &PortName, tree: Tree) -> Option<Cost>
        ensures { result ≡ port_cost_in self.now.set.port_costs port.now tree }
    {
        let key = PortInTree { port: *port, tree };
        found(&self.port_costs, &key).copied()
    }

    /// The trees in which a bridge has another priority than 8, in rising order. It takes memory.
    pub fn priority_trees(&self, bridge: &Name, alloc: Global) -> Result<Vec<Tree>, AllocError>
        ensures { IfOk result (λ trees. trees.items ≡ trees_where (λ tree. not (priority_in self.now.set.priorities bridge.now tree == 8))) }
    {
        let trees = marked_trees(&self.bridge_blocks, bridge, alloc)?;
        self.with_priority(bridge, &trees, alloc)
    }

    /// Those of the trees in which a bridge has another priority than 8.
    fn with_priority(
        &self,
        bridge: &Name,
        trees: &[Tree],
        alloc: Global,
    ) -> Result<Vec<Tree>, AllocError>
        ensures { IfOk result (λ kept. kept.items ≡ filter (λ tree. not (priority_in self.now.set.priorities bridge.now tree == 8)) trees.now) }
    {
        trees
            .iter()
            .copied()
            .filter(|tree| self.tree_priority(bridge, *tree).step() != Priority::DEFAULT)
            .collect(alloc)
    }

    /// The trees in which a port has another priority than 8, in rising order. It takes memory.
    pub fn port_priority_trees(
        &self,
        port: &PortName,
        alloc: Global,
    ) -> Result<Vec<Tree>, AllocError>
        ensures { IfOk result (λ trees. trees.items ≡ trees_where (λ tree. not (port_priority_in self.now.set.port_priorities port.now tree == 8))) }
    {
        if self.port_priorities.is_empty() {
            return Ok(Vec::new(alloc));
        }
        let trees = marked_trees(&self.port_blocks, port, alloc)?;
        self.with_port_priority(port, &trees, alloc)
    }

    /// Those of the trees in which a port has another priority than 8.
    fn with_port_priority(
        &self,
        port: &PortName,
        trees: &[Tree],
        alloc: Global,
    ) -> Result<Vec<Tree>, AllocError>
        ensures { IfOk result (λ kept. kept.items ≡ filter (λ tree. not (port_priority_in self.now.set.port_priorities port.now tree == 8)) trees.now) }
    {
        trees
            .iter()
            .copied()
            .filter(|tree| self.port_priority(port, *tree).step() != Priority::DEFAULT)
            .collect(alloc)
    }

    /// The trees in which the internal path cost of a port isn't automatic, in rising order. It takes memory.
    pub fn port_cost_trees(&self, port: &PortName, alloc: Global) -> Result<Vec<Tree>, AllocError>
        ensures { IfOk result (λ trees. trees.items ≡ trees_where (λ tree. is_some (port_cost_in self.now.set.port_costs port.now tree))) }
    {
        if self.port_costs.is_empty() {
            return Ok(Vec::new(alloc));
        }
        let trees = marked_trees(&self.port_blocks, port, alloc)?;
        self.with_port_cost(port, &trees, alloc)
    }

    /// Those of the trees in which the internal path cost of a port isn't automatic.
    fn with_port_cost(
        &self,
        port: &PortName,
        trees: &[Tree],
        alloc: Global,
    ) -> Result<Vec<Tree>, AllocError>
        ensures { IfOk result (λ kept. kept.items ≡ filter (λ tree. is_some (port_cost_in self.now.set.port_costs port.now tree)) trees.now) }
    {
        trees
            .iter()
            .copied()
            .filter(|tree| self.port_cost(port, *tree).is_some())
            .collect(alloc)
    }

    /// The MSTIs of the table of a bridge, in rising order. It copies no table, and takes memory.
    pub fn mstis(&self, bridge: &Name, alloc: Global) -> Result<Vec<Tree>, AllocError>
        ensures { IfOk result (λ trees. trees.items ≡ mstis_in (table_in self.now.set.tables bridge.now)) }
    {
        match self.tables.get(bridge) {
            Some(kept) => kept.table().mstis(alloc),
            None => Ok(Vec::new(alloc)),
        }
    }

    /// Whether a port is a member of a VLAN: of each where none were set. No set is made for that.
    pub fn is_member(&self, port: &PortName, vid: Vid) -> bool
        ensures { result ≡ has (vlans_in self.now.set.vlans port.now) vid }
    {
        let number = vid.value();
        match found(&self.vlans, port) {
            Some(vids) => vids.contains(number),
            None => true,
        }
    }

    /// The VLANs that a port is a member of, all where none were set.
    pub fn port_vlans(&self, port: &PortName) -> VidSet
        ensures { result ≡ vlans_in self.now.set.vlans port.now }
    {
        match self.vlans.get(port) {
            Some(vids) => *vids,
            None => VidSet::all(),
        }
    }

    /// The table of a bridge, with all VIDs in the CIST where none is set.
    pub fn table(&self, bridge: &Name) -> Table
        ensures { result ≡ table_in self.now.set.tables bridge.now }
    {
        match self.tables.get(bridge) {
            Some(kept) => *kept.table(),
            None => Table::new(),
        }
    }

    /// The tree that a bridge's table maps a VID to. It copies no table.
    pub fn tree_of(&self, bridge: &Name, vid: Vid) -> Tree
        ensures { result ≡ tree_in (table_in self.now.set.tables bridge.now) vid }
    {
        match self.tables.get(bridge) {
            Some(kept) => kept.table().tree(vid),
            None => Tree::cist(),
        }
    }

    /// Whether the table of a bridge has room for one more tree by the bound that is kept. It counts none, so it
    /// may say no where there is room.
    pub fn has_room_for_tree(&self, bridge: &Name) -> bool
        ensures { IsTrue result → tree_count (table_in self.now.set.tables bridge.now) < 64 }
    {
        match self.tables.get(bridge) {
            Some(kept) => kept.has_room(),
            None => true,
        }
    }

    /// The table of a bridge with these VIDs in a tree.
    pub fn table_with(&self, bridge: &Name, tree: Tree, vids: &VidSet) -> Table
        ensures { result ≡ mapped vids.now tree (table_in self.now.set.tables bridge.now) }
    {
        let mut table = self.table(bridge);
        table.map(vids, tree);
        table
    }

    /// Makes room for what the edit may set.
    pub fn reserve(&mut self, edit: &Edit) -> Result<(), AllocError>
        ensures same { self.new.set ≡ self.old.set }
        ensures room { OnOk result (0 < room_to_set edit.now self.new.room) }
        ensures no_room { OnErr result (room_to_set edit.now self.old.room ≡ 0) }
    {
        match edit {
            Edit::SetByTree(TreeChange::Priority { .. }) => {
                reserve_by_tree(&mut self.priorities, &mut self.bridge_blocks)
            }
            Edit::SetByTree(TreeChange::PortPriority { .. }) => {
                reserve_by_tree(&mut self.port_priorities, &mut self.port_blocks)
            }
            Edit::SetByTree(TreeChange::PortCost { .. }) => {
                reserve_by_tree(&mut self.port_costs, &mut self.port_blocks)
            }
            Edit::SetByTree(TreeChange::Table { .. }) => self.tables.reserve(1),
            Edit::SetByTree(TreeChange::Vlans { .. }) => self.vlans.reserve(1),
            _ => Ok(()),
        }
    }

    /// Sets what the edit sets, and forgets what is set for a bridge or a port that it takes away. It takes no
    /// memory.
    pub fn make(&mut self, edit: &Edit)
        requires trees { AreInTrees self.old.set }
        requires room { 0 < room_to_set edit.now self.old.room }
        ensures { self.new.set ≡ set_after edit.now self.old.set }
    {
        match *edit {
            Edit::DelBridge { bridge } => self.forget_bridge(&bridge),
            Edit::DelPort { port } => self.forget_port(&port),
            Edit::SetByTree(change) => self.set(&change),
            _ => {}
        }
    }

    /// Makes a change. It takes no memory.
    pub fn set(&mut self, change: &TreeChange)
        requires { 0 < room_to_set (SetByTree change.now) self.old.room }
        ensures { self.new.set ≡ set_after (SetByTree change.now) self.old.set }
    {
        match *change {
            TreeChange::Priority {
                bridge,
                tree,
                priority,
            } => self.set_priority(&bridge, tree, priority),
            TreeChange::PortPriority {
                port,
                tree,
                priority,
            } => self.set_port_priority(&port, tree, priority),
            TreeChange::PortCost { port, tree, cost } => self.set_port_cost(&port, tree, cost),
            TreeChange::Table { bridge, tree, vids } => self.map_vids(bridge, tree, &vids),
            TreeChange::Vlans { port, vids } => self.set_port_vlans(port, vids),
        }
    }

    /// Forgets what is set for a bridge.
    pub fn forget_bridge(&mut self, bridge: &Name)
        requires { AreInTrees self.old.set }
        ensures { self.new.set ≡ set_after (DelBridge bridge.now) self.old.set }
    {
        let blocks = take(&mut self.bridge_blocks, bridge);
        forget_bridge(&mut self.priorities, bridge, &blocks);
        let _ = self.tables.swap_remove(bridge);
    }

    /// Forgets what is set for a port.
    pub fn forget_port(&mut self, port: &PortName)
        requires { AreInTrees self.old.set }
        ensures { self.new.set ≡ set_after (DelPort port.now) self.old.set }
    {
        let blocks = take(&mut self.port_blocks, port);
        forget_port(&mut self.port_priorities, port, &blocks);
        forget_port(&mut self.port_costs, port, &blocks);
        let _ = self.vlans.swap_remove(port);
    }

    fn set_priority(&mut self, bridge: &Name, tree: Tree, priority: Priority)
        requires { 0 < self.old.room.priority }
        ensures { self.new.set ≡ set_after (SetByTree (SetPriority bridge.now tree priority)) self.old.set }
    {
        let key = BridgeInTree {
            bridge: *bridge,
            tree,
        };
        mark(&mut self.bridge_blocks, bridge, tree);
        keep(&mut self.priorities, key, own_priority(priority));
    }

    fn set_port_priority(&mut self, port: &PortName, tree: Tree, priority: Priority)
        requires { 0 < self.old.room.port_priority }
        ensures { self.new.set ≡ set_after (SetByTree (PortPriority port.now tree priority)) self.old.set }
    {
        let key = PortInTree { port: *port, tree };
        mark(&mut self.port_blocks, port, tree);
        keep(&mut self.port_priorities, key, own_priority(priority));
    }

    fn set_port_cost(&mut self, port: &PortName, tree: Tree, cost: Option<Cost>)
        requires { 0 < self.old.room.port_cost }
        ensures { self.new.set ≡ set_after (SetByTree (PortCost port.now tree cost)) self.old.set }
    {
        let key = PortInTree { port: *port, tree };
        mark(&mut self.port_blocks, port, tree);
        keep(&mut self.port_costs, key, cost);
    }

    fn map_vids(&mut self, bridge: Name, tree: Tree, vids: &VidSet)
        requires { 0 < self.old.room.table }
        ensures { self.new.set ≡ set_after (SetByTree (MapVids bridge tree vids.now)) self.old.set }
    {
        if map_in(&mut self.tables, bridge, tree, vids) {
            let _ = self.tables.swap_remove(&bridge);
        }
    }

    fn set_port_vlans(&mut self, port: PortName, vids: VidSet)
        requires { 0 < self.old.room.vlans }
        ensures { self.new.set ≡ set_after (SetByTree (Vlans port vids)) self.old.set }
    {
        keep(&mut self.vlans, port, own_vlans(vids));
    }
}

/// The value under a key, if there is one. No key is hashed where nothing is set.
fn found<'a, K: Eq + Hash, V>(table: &'a IndexMap<K, V>, key: &K) -> Option<&'a V>
    ensures value { option_copied result ≡ lookup (K.eq key.now) table.now.entries }
{
    if table.is_empty() {
        return None;
    }
    table.get(key)
}

/// What is kept of a priority: none of the default.
fn own_priority(priority: Priority) -> Option<Priority>
    ensures { result ≡ own priority }
{
    if priority.step() == Priority::DEFAULT {
        None
    } else {
        Some(priority)
    }
}

/// Maps VIDs to a tree in the table of a bridge, which gets one where it has none. Whether each VID is in the CIST
/// then. The table is changed in place, and it takes no memory.
fn map_in(tables: &mut IndexMap<Name, KeptTable>, bridge: Name, tree: Tree, vids: &VidSet) -> bool
    requires { 0 < spare tables.old }
    ensures kept { IsPutAt bridge (mapped vids.now tree (table_among tables.old.entries bridge)) tables.old.entries tables.new.entries }
    ensures default { result ≡ list_all (λ tree. tree == 0) (mapped vids.now tree (table_among tables.old.entries bridge)) }
{
    match tables.entry(bridge) {
        Err(_) => false,
        Ok(entry) => {
            let kept = entry.or_insert_with(KeptTable::new);
            kept.map(vids, tree);
            kept.table().is_default()
        }
    }
}

/// What is kept of the VLANs of a port: none where it is a member of all.
fn own_vlans(vids: VidSet) -> Option<VidSet>
    ensures { result ≡ kept_vlans vids }
{
    if vids == VidSet::all() {
        None
    } else {
        Some(vids)
    }
}

/// Makes room for one more setting by tree, and for the blocks of one more record.
fn reserve_by_tree<K: Eq + Hash, V, R: Eq + Hash>(
    table: &mut IndexMap<K, V>,
    blocks: &mut IndexMap<R, Blocks>,
) -> Result<(), AllocError>
    ensures table { table.new.entries ≡ table.old.entries }
    ensures blocks { blocks.new.entries ≡ blocks.old.entries }
    ensures room { OnOk result (0 < min (spare table.new) (spare blocks.new)) }
    ensures no_room { OnErr result (min (spare table.old) (spare blocks.old) ≡ 0) }
{
    table.reserve(1)?;
    blocks.reserve(1)
}

/// Copies of what is set for bridges by tree, and of its blocks. In functions of their own, since each way out of
/// one has to drop all that is copied so far.
fn copies_of_bridges(
    priorities: &IndexMap<BridgeInTree, Priority>,
    blocks: &IndexMap<Name, Blocks>,
) -> Result<(IndexMap<BridgeInTree, Priority>, IndexMap<Name, Blocks>), AllocError>
    ensures { IfOk result (λ copies. (copies.0.entries ≡ priorities.now.entries) × (copies.1.entries ≡ blocks.now.entries)) }
{
    let priorities = priorities.clone()?;
    let blocks = blocks.clone()?;
    Ok((priorities, blocks))
}

/// Copies of what is set for ports by tree.
fn copies_by_tree(
    priorities: &IndexMap<PortInTree, Priority>,
    costs: &IndexMap<PortInTree, Cost>,
) -> Result<(IndexMap<PortInTree, Priority>, IndexMap<PortInTree, Cost>), AllocError>
    ensures { IfOk result (λ copies. (copies.0.entries ≡ priorities.now.entries) × (copies.1.entries ≡ costs.now.entries)) }
{
    let priorities = priorities.clone()?;
    let costs = costs.clone()?;
    Ok((priorities, costs))
}

/// Copies of what is set by VID, the tables of bridges and the VLANs of ports.
fn copies_by_vid(
    tables: &IndexMap<Name, KeptTable>,
    vlans: &IndexMap<PortName, VidSet>,
) -> Result<(IndexMap<Name, KeptTable>, IndexMap<PortName, VidSet>), AllocError>
    ensures { IfOk result (λ copies. (copies.0.entries ≡ tables.now.entries) × (copies.1.entries ≡ vlans.now.entries)) }
{
    let tables = tables.clone()?;
    let vlans = vlans.clone()?;
    Ok((tables, vlans))
}

/// A copy of the blocks of ports.
fn copy_of_blocks(
    blocks: &IndexMap<PortName, Blocks>,
) -> Result<IndexMap<PortName, Blocks>, AllocError>
    ensures { IfOk result (λ copy. copy.entries ≡ blocks.now.entries) }
{
    blocks.clone()
}
