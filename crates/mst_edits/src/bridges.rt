ghost use Rattle.std.specs.Prelude.{◌≡◌, ◌++◌, ◌==◌, ℕ, List, OnOk, not, false, filter, nat_eq};
ghost use Rattle.std.specs.Bool.{beq};
ghost use Rattle.std.specs.FinMap as fin;
ghost use Rattle.std.specs.List.{flat_map};
ghost use Rattle.std.specs.Cmp.Lexicographic.{pointwise};
ghost use Rattle.mst_lang.specs.declared.line.Edit.TheVariants.{SetBridge};
ghost use Rattle.mst_lang.specs.declared.line.BridgeChange.TheVariants.{Kind as KindOf, SystemPriority, Configuration, MaxHops as MaxHopsOf, MaxAge as MaxAgeOf};
ghost use Rattle.mst_net.specs.tables.After.{table_of};
ghost use Rattle.mst_net.specs.tables.Seen.{bridge_row};
ghost use Rattle.mst_net.specs.tables.Settings.{kind_of};
ghost use Rattle.mst_net.specs.tables.Table.{no_table};
ghost use Rattle.mst_edits.specs.Homes.{kept_for};
ghost use Rattle.mst_edits.specs.Staying.{table_before};
ghost use Rattle.mst_edits.specs.TableLines.{table_edits};
ghost use Rattle.mst_edits.specs.Edits.{bridge_part, bridge_edits, bridge_set, bridge_settings, in_trees, is_same_configuration as are_same_configuration, joined, power_edits, power_here, power_settings, priority_edits, when};

use crate::homes::{Homes, ports_of};
use crate::list::push_when;
use crate::ports::add_ports;
use crate::staying::{bridge_before, bridge_stays, priority_before};
use crate::tables::{add_new_table, add_table};
use crate::trees::either;
use mst_ids::{Name, Tree};
use mst_lang::{BridgeChange, Edit, Kind, TreeChange};
use mst_net::{Bridge, Saved};
use std::alloc::{AllocError, Global};

/// Adds the edits of each bridge of the new network and its ports, by name and number.
pub(crate) fn add_bridges<C: Saved, D: Saved>(
    alloc: Global,
    old: &C,
    new: &D,
    homes: &Homes,
    edits: &mut Vec<Edit>,
) -> Result<(), AllocError>
    requires { (bridge : List ℕ) → kept_for homes.now bridge ≡ filter (λ port. pointwise nat_eq bridge port.bridge) (fin.keys (D.tables new.now).net.ports) }
    ensures { OnOk result (edits.new.items ≡ edits.old.items ++ flat_map (bridge_part false (C.tables old.now).net (D.tables new.now).net) (fin.keys (D.tables new.now).net.bridges)) }
{
    let names = new.bridge_names(alloc)?;
    for name in names.as_slice() {
        add_part(alloc, false, old, new, homes, name, edits)?;
    }
    Ok(())
}

/// Adds the edits of a bridge and its ports: whether it is on among them, or not.
pub(crate) fn add_part<C: Saved, D: Saved>(
    alloc: Global,
    in_place: bool,
    old: &C,
    new: &D,
    homes: &Homes,
    name: &Name,
    edits: &mut Vec<Edit>,
) -> Result<(), AllocError>
    requires { (bridge : List ℕ) → kept_for homes.now bridge ≡ filter (λ port. pointwise nat_eq bridge port.bridge) (fin.keys (D.tables new.now).net.ports) }
    ensures { OnOk result (edits.new.items ≡ edits.old.items ++ bridge_part in_place (C.tables old.now).net (D.tables new.now).net name.now) }
{
    add_bridge(alloc, in_place, old, new, name, edits)?;
    add_ports(alloc, old, new, ports_of(homes, name), edits)
}

/// Adds the edits of a bridge, if it is there.
fn add_bridge<C: Saved, D: Saved>(
    alloc: Global,
    in_place: bool,
    old: &C,
    new: &D,
    name: &Name,
    edits: &mut Vec<Edit>,
) -> Result<(), AllocError>
    ensures { OnOk result (edits.new.items ≡ edits.old.items ++ bridge_edits in_place (C.tables old.now).net (D.tables new.now).net name.now) }
{
    match new.bridge(name) {
        Some(bridge) => add_settings(alloc, in_place, old, new, name, &bridge, edits),
        None => Ok(()),
    }
}

fn add_settings<C: Saved, D: Saved>(
    alloc: Global,
    in_place: bool,
    old: &C,
    new: &D,
    name: &Name,
    bridge: &Bridge,
    edits: &mut Vec<Edit>,
) -> Result<(), AllocError>
    ensures { OnOk result (edits.new.items ≡ edits.old.items ++ bridge_settings in_place (C.tables old.now).net (D.tables new.now).net name.now (bridge_row bridge.now)) }
{
    let stays = bridge_stays(old, new, name);
    let before = bridge_before(old, name, bridge);
    add_changes(
        alloc, in_place, old, new, stays, name, &before, bridge, edits,
    )
}

fn add_changes<C: Saved, D: Saved>(
    alloc: Global,
    in_place: bool,
    old: &C,
    new: &D,
    stays: bool,
    name: &Name,
    before: &Bridge,
    bridge: &Bridge,
    edits: &mut Vec<Edit>,
) -> Result<(), AllocError>
    ensures { OnOk result (edits.new.items ≡ edits.old.items ++ joined (bridge_set in_place (C.tables old.now).net (D.tables new.now).net stays name.now (bridge_row before.now) (bridge_row bridge.now))) }
{
    let edit = Edit::AddBridge {
        bridge: *name,
        mac: bridge.mac,
    };
    push_when(!stays, &edit, edits)?;
    add_power_here(in_place, name, before, bridge, edits)?;
    add_kind(name, before, bridge, edits)?;
    add_system_priority(name, before, bridge, edits)?;
    add_configuration(name, before, bridge, edits)?;
    add_own_table(alloc, old, new, stays, name, edits)?;
    add_max_hops(name, before, bridge, edits)?;
    add_max_age(name, before, bridge, edits)?;
    add_priorities(alloc, old, new, stays, name, edits)
}

/// Adds an edit that sets something of a bridge, where a test holds.
fn push_change(
    test: bool,
    name: &Name,
    change: BridgeChange,
    edits: &mut Vec<Edit>,
) -> Result<(), AllocError>
    ensures { OnOk result (edits.new.items ≡ edits.old.items ++ when test (SetBridge name.now change)) }
{
    let edit = Edit::SetBridge {
        bridge: *name,
        change,
    };
    push_when(test, &edit, edits)
}

/// Adds whether a bridge is on, where that is to be set here.
fn add_power_here(
    here: bool,
    name: &Name,
    before: &Bridge,
    bridge: &Bridge,
    edits: &mut Vec<Edit>,
) -> Result<(), AllocError>
    ensures { OnOk result (edits.new.items ≡ edits.old.items ++ power_here here name.now (bridge_row before.now) (bridge_row bridge.now)) }
{
    let is_other = here && bridge.is_on() != before.is_on();
    push_change(is_other, name, BridgeChange::Power(bridge.power), edits)
}

/// Whether a bridge is of kind rstp.
fn is_rstp(bridge: &Bridge) -> bool
    ensures { result ≡ (bridge_row bridge.now).is_rstp }
{
    match bridge.kind {
        Kind::Mstp => false,
        Kind::Rstp => true,
    }
}

fn add_kind(
    name: &Name,
    before: &Bridge,
    bridge: &Bridge,
    edits: &mut Vec<Edit>,
) -> Result<(), AllocError>
    ensures { OnOk result (edits.new.items ≡ edits.old.items ++ when (not (beq (bridge_row bridge.now).is_rstp (bridge_row before.now).is_rstp)) (SetBridge name.now (KindOf (kind_of (bridge_row bridge.now).is_rstp)))) }
{
    let is_other = is_rstp(bridge) != is_rstp(before);
    push_change(is_other, name, BridgeChange::Kind(bridge.kind), edits)
}

fn add_system_priority(
    name: &Name,
    before: &Bridge,
    bridge: &Bridge,
    edits: &mut Vec<Edit>,
) -> Result<(), AllocError>
    ensures { OnOk result (edits.new.items ≡ edits.old.items ++ when (not (bridge.now.system_priority == before.now.system_priority)) (SetBridge name.now (SystemPriority bridge.now.system_priority))) }
{
    let is_other = bridge.system_priority != before.system_priority;
    let change = BridgeChange::SystemPriority(bridge.system_priority);
    push_change(is_other, name, change, edits)
}

/// Whether two bridges have configurations of one revision and one name.
fn is_same_configuration(bridge: &Bridge, before: &Bridge) -> bool
    ensures { result ≡ are_same_configuration (bridge_row bridge.now) (bridge_row before.now) }
{
    bridge.revision == before.revision && bridge.conf_name == before.conf_name
}

fn add_configuration(
    name: &Name,
    before: &Bridge,
    bridge: &Bridge,
    edits: &mut Vec<Edit>,
) -> Result<(), AllocError>
    ensures { OnOk result (edits.new.items ≡ edits.old.items ++ when (not (are_same_configuration (bridge_row bridge.now) (bridge_row before.now))) (SetBridge name.now (Configuration bridge.now.revision bridge.now.conf_name))) }
{
    let change = BridgeChange::Configuration {
        revision: bridge.revision,
        name: bridge.conf_name,
    };
    push_change(!is_same_configuration(bridge, before), name, change, edits)
}

fn add_max_hops(
    name: &Name,
    before: &Bridge,
    bridge: &Bridge,
    edits: &mut Vec<Edit>,
) -> Result<(), AllocError>
    ensures { OnOk result (edits.new.items ≡ edits.old.items ++ when (not (bridge.now.max_hops == before.now.max_hops)) (SetBridge name.now (MaxHopsOf bridge.now.max_hops))) }
{
    let is_other = bridge.max_hops.value() != before.max_hops.value();
    push_change(
        is_other,
        name,
        BridgeChange::MaxHops(bridge.max_hops),
        edits,
    )
}

fn add_max_age(
    name: &Name,
    before: &Bridge,
    bridge: &Bridge,
    edits: &mut Vec<Edit>,
) -> Result<(), AllocError>
    ensures { OnOk result (edits.new.items ≡ edits.old.items ++ when (not (bridge.now.max_age == before.now.max_age)) (SetBridge name.now (MaxAgeOf bridge.now.max_age))) }
{
    let is_other = bridge.max_age.value() != before.max_age.value();
    push_change(is_other, name, BridgeChange::MaxAge(bridge.max_age), edits)
}

/// Adds the edits of a bridge's table.
fn add_own_table<C: Saved, D: Saved>(
    alloc: Global,
    old: &C,
    new: &D,
    stays: bool,
    name: &Name,
    edits: &mut Vec<Edit>,
) -> Result<(), AllocError>
    ensures { OnOk result (edits.new.items ≡ edits.old.items ++ table_edits name.now (table_before (C.tables old.now).net stays name.now) (table_of (D.tables new.now).net name.now)) }
{
    if !stays {
        return add_first_table(alloc, new, name, edits);
    }
    let before = old.table(name);
    let after = new.table(name);
    add_table(alloc, name, before.trees(), after.trees(), edits)
}

/// Adds the edits of a new bridge's table. A bridge that maps no VID costs no table.
fn add_first_table<D: Saved>(
    alloc: Global,
    new: &D,
    name: &Name,
    edits: &mut Vec<Edit>,
) -> Result<(), AllocError>
    ensures { OnOk result (edits.new.items ≡ edits.old.items ++ table_edits name.now no_table (table_of (D.tables new.now).net name.now)) }
{
    let trees = new.mstis(name, alloc)?;
    if trees.is_empty() {
        return Ok(());
    }
    let after = new.table(name);
    add_new_table(alloc, name, after.trees(), edits)
}

/// Adds the edits of a bridge's priorities, by tree.
fn add_priorities<C: Saved, D: Saved>(
    alloc: Global,
    old: &C,
    new: &D,
    stays: bool,
    name: &Name,
    edits: &mut Vec<Edit>,
) -> Result<(), AllocError>
    ensures { OnOk result (edits.new.items ≡ edits.old.items ++ in_trees (priority_edits (C.tables old.now).net (D.tables new.now).net stays name.now)) }
{
    let own = old.priority_trees(name, alloc)?;
    let others = new.priority_trees(name, alloc)?;
    let trees = either(alloc, &own, &others)?;
    for tree in trees.as_slice() {
        add_priority(old, new, stays, name, *tree, edits)?;
    }
    Ok(())
}

fn add_priority<C: Saved, D: Saved>(
    old: &C,
    new: &D,
    stays: bool,
    name: &Name,
    tree: Tree,
    edits: &mut Vec<Edit>,
) -> Result<(), AllocError>
    ensures { OnOk result (edits.new.items ≡ edits.old.items ++ priority_edits (C.tables old.now).net (D.tables new.now).net stays name.now tree) }
{
    let priority = new.tree_priority(name, tree);
    let before = priority_before(old, stays, name, tree);
    let edit = Edit::SetByTree(TreeChange::Priority {
        bridge: *name,
        tree,
        priority,
    });
    push_when(priority.step() != before.step(), &edit, edits)
}

/// Adds the edits of which bridges are on, by name.
pub(crate) fn add_powers<C: Saved, D: Saved>(
    alloc: Global,
    old: &C,
    new: &D,
    edits: &mut Vec<Edit>,
) -> Result<(), AllocError>
    ensures { OnOk result (edits.new.items ≡ edits.old.items ++ flat_map (power_edits false (C.tables old.now).net (D.tables new.now).net) (fin.keys (D.tables new.now).net.bridges)) }
{
    let names = new.bridge_names(alloc)?;
    for name in names.as_slice() {
        add_power(old, new, name, edits)?;
    }
    Ok(())
}

fn add_power<C: Saved, D: Saved>(
    old: &C,
    new: &D,
    name: &Name,
    edits: &mut Vec<Edit>,
) -> Result<(), AllocError>
    ensures { OnOk result (edits.new.items ≡ edits.old.items ++ power_edits false (C.tables old.now).net (D.tables new.now).net name.now) }
{
    match new.bridge(name) {
        Some(bridge) => add_own_power(old, name, &bridge, edits),
        None => Ok(()),
    }
}

fn add_own_power<C: Saved>(
    old: &C,
    name: &Name,
    bridge: &Bridge,
    edits: &mut Vec<Edit>,
) -> Result<(), AllocError>
    ensures { OnOk result (edits.new.items ≡ edits.old.items ++ power_settings false (C.tables old.now).net name.now (bridge_row bridge.now)) }
{
    let before = bridge_before(old, name, bridge);
    add_power_here(true, name, &before, bridge, edits)
}
