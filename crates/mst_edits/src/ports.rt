ghost use Rattle.std.specs.Prelude.{◌≡◌, ◌++◌, ◌==◌, OnOk, not};
ghost use Rattle.std.specs.Bool.{beq};
ghost use Rattle.std.specs.List.{flat_map};
ghost use Rattle.std.specs.Cmp.Lexicographic.{pointwise};
ghost use Rattle.mst_lang.specs.declared.line.Edit.TheVariants.{SetPort, SetByTree};
ghost use Rattle.mst_lang.specs.declared.line.PortChange.TheVariants.{Key, PathCost, RestrictedRole};
ghost use Rattle.mst_lang.specs.declared.line.TreeChange.TheVariants.{Vlans};
ghost use Rattle.mst_net.specs.tables.After.{vlans_of};
ghost use Rattle.mst_net.specs.tables.Seen.{port_row};
ghost use Rattle.mst_edits.specs.Staying.{vlans_before as vlans_were};
ghost use Rattle.mst_edits.specs.Edits.{in_trees, is_same_cost as are_same_cost, joined, plug_edits, port_cost_edits, port_edits, port_priority_edits, port_set, port_settings, when};

use crate::list::push_when;
use crate::staying::{
    lan_of, plug_stays, port_cost_before, port_priority_before, port_stays, settings_before,
    vlans_before,
};
use crate::trees::either;
use mst_ids::{Cost, PortName, Tree, VidSet};
use mst_lang::{Edit, PortChange, TreeChange};
use mst_net::{Port, PortSettings, Saved};
use std::alloc::{AllocError, Global};

/// Adds the edits of ports of the new network, in their order.
pub(crate) fn add_ports<C: Saved, D: Saved>(
    alloc: Global,
    old: &C,
    new: &D,
    ports: &[PortName],
    edits: &mut Vec<Edit>,
) -> Result<(), AllocError>
    ensures { OnOk result (edits.new.items ≡ edits.old.items ++ flat_map (port_edits (C.tables old.now).net (D.tables new.now).net) ports.now) }
{
    for port in ports {
        add_port(alloc, old, new, port, edits)?;
    }
    Ok(())
}

/// Adds the edits of a port, if it is there.
fn add_port<C: Saved, D: Saved>(
    alloc: Global,
    old: &C,
    new: &D,
    name: &PortName,
    edits: &mut Vec<Edit>,
) -> Result<(), AllocError>
    ensures { OnOk result (edits.new.items ≡ edits.old.items ++ port_edits (C.tables old.now).net (D.tables new.now).net name.now) }
{
    match new.port(name) {
        Some(port) => add_settings(alloc, old, new, name, &port, edits),
        None => Ok(()),
    }
}

fn add_settings<C: Saved, D: Saved>(
    alloc: Global,
    old: &C,
    new: &D,
    name: &PortName,
    port: &Port,
    edits: &mut Vec<Edit>,
) -> Result<(), AllocError>
    ensures { OnOk result (edits.new.items ≡ edits.old.items ++ port_settings (C.tables old.now).net (D.tables new.now).net name.now (port_row port.now)) }
{
    let stays = port_stays(old, new, name);
    let before = settings_before(old, stays, name);
    add_changes(alloc, old, new, stays, name, &before, &port.settings, edits)
}

fn add_changes<C: Saved, D: Saved>(
    alloc: Global,
    old: &C,
    new: &D,
    stays: bool,
    name: &PortName,
    before: &PortSettings,
    settings: &PortSettings,
    edits: &mut Vec<Edit>,
) -> Result<(), AllocError>
    ensures { OnOk result (edits.new.items ≡ edits.old.items ++ joined (port_set (C.tables old.now).net (D.tables new.now).net stays name.now before.now settings.now)) }
{
    push_when(!stays, &Edit::AddPort { port: *name }, edits)?;
    add_key(name, before, settings, edits)?;
    add_external(name, before, settings, edits)?;
    add_costs(alloc, old, new, stays, name, edits)?;
    add_priorities(alloc, old, new, stays, name, edits)?;
    let vids = new.port_vlans(name);
    add_vlans(name, &vlans_before(old, stays, name), &vids, edits)?;
    add_restricted(name, before, settings, edits)
}

/// Adds an edit that sets something of a port, where a test holds.
fn push_change(
    test: bool,
    name: &PortName,
    change: PortChange,
    edits: &mut Vec<Edit>,
) -> Result<(), AllocError>
    ensures { OnOk result (edits.new.items ≡ edits.old.items ++ when test (SetPort name.now change)) }
{
    let edit = Edit::SetPort {
        port: *name,
        change,
    };
    push_when(test, &edit, edits)
}

fn add_key(
    name: &PortName,
    before: &PortSettings,
    settings: &PortSettings,
    edits: &mut Vec<Edit>,
) -> Result<(), AllocError>
    ensures { OnOk result (edits.new.items ≡ edits.old.items ++ when (not (settings.now.key == before.now.key)) (SetPort name.now (Key settings.now.key))) }
{
    let is_other = settings.key != before.key;
    push_change(is_other, name, PortChange::Key(settings.key), edits)
}

/// Whether two costs are the same, or both are automatic.
fn is_same_cost(cost: Option<Cost>, other: Option<Cost>) -> bool
    ensures { result ≡ are_same_cost cost other }
{
    match cost {
        Some(cost) => match other {
            Some(other) => cost.value() == other.value(),
            None => false,
        },
        None => match other {
            Some(_) => false,
            None => true,
        },
    }
}

fn add_external(
    name: &PortName,
    before: &PortSettings,
    settings: &PortSettings,
    edits: &mut Vec<Edit>,
) -> Result<(), AllocError>
    ensures { OnOk result (edits.new.items ≡ edits.old.items ++ when (not (are_same_cost settings.now.external before.now.external)) (SetPort name.now (PathCost settings.now.external))) }
{
    let is_other = !is_same_cost(settings.external, before.external);
    push_change(
        is_other,
        name,
        PortChange::PathCost(settings.external),
        edits,
    )
}

/// Adds the edits of a port's internal path costs, by tree.
fn add_costs<C: Saved, D: Saved>(
    alloc: Global,
    old: &C,
    new: &D,
    stays: bool,
    name: &PortName,
    edits: &mut Vec<Edit>,
) -> Result<(), AllocError>
    ensures { OnOk result (edits.new.items ≡ edits.old.items ++ in_trees (port_cost_edits (C.tables old.now).net (D.tables new.now).net stays name.now)) }
{
    let own = old.port_cost_trees(name, alloc)?;
    let others = new.port_cost_trees(name, alloc)?;
    let trees = either(alloc, &own, &others)?;
    for tree in trees.as_slice() {
        add_cost(old, new, stays, name, *tree, edits)?;
    }
    Ok(())
}

fn add_cost<C: Saved, D: Saved>(
    old: &C,
    new: &D,
    stays: bool,
    name: &PortName,
    tree: Tree,
    edits: &mut Vec<Edit>,
) -> Result<(), AllocError>
    ensures { OnOk result (edits.new.items ≡ edits.old.items ++ port_cost_edits (C.tables old.now).net (D.tables new.now).net stays name.now tree) }
{
    let before = port_cost_before(old, stays, name, tree);
    let is_other = !is_same_cost(new.port_cost(name, tree), before);
    let edit = Edit::SetByTree(TreeChange::PortCost {
        port: *name,
        tree,
        cost: new.port_cost(name, tree),
    });
    push_when(is_other, &edit, edits)
}

/// Adds the edits of a port's priorities, by tree.
fn add_priorities<C: Saved, D: Saved>(
    alloc: Global,
    old: &C,
    new: &D,
    stays: bool,
    name: &PortName,
    edits: &mut Vec<Edit>,
) -> Result<(), AllocError>
    ensures { OnOk result (edits.new.items ≡ edits.old.items ++ in_trees (port_priority_edits (C.tables old.now).net (D.tables new.now).net stays name.now)) }
{
    let own = old.port_priority_trees(name, alloc)?;
    let others = new.port_priority_trees(name, alloc)?;
    let trees = either(alloc, &own, &others)?;
    for tree in trees.as_slice() {
        add_priority(old, new, stays, name, *tree, edits)?;
    }
    Ok(())
}

fn add_priority<C: Saved, D: Saved>(
    old: &C,
    new: &D,
    stays: bool,
    name: &PortName,
    tree: Tree,
    edits: &mut Vec<Edit>,
) -> Result<(), AllocError>
    ensures { OnOk result (edits.new.items ≡ edits.old.items ++ port_priority_edits (C.tables old.now).net (D.tables new.now).net stays name.now tree) }
{
    let priority = new.port_priority(name, tree);
    let before = port_priority_before(old, stays, name, tree);
    let edit = Edit::SetByTree(TreeChange::PortPriority {
        port: *name,
        tree,
        priority,
    });
    push_when(priority.step() != before.step(), &edit, edits)
}

fn add_vlans(
    name: &PortName,
    before: &VidSet,
    vids: &VidSet,
    edits: &mut Vec<Edit>,
) -> Result<(), AllocError>
    ensures { OnOk result (edits.new.items ≡ edits.old.items ++ when (not (pointwise beq vids.now before.now)) (SetByTree (Vlans name.now vids.now))) }
{
    let edit = Edit::SetByTree(TreeChange::Vlans {
        port: *name,
        vids: *vids,
    });
    push_when(*vids != *before, &edit, edits)
}

fn add_restricted(
    name: &PortName,
    before: &PortSettings,
    settings: &PortSettings,
    edits: &mut Vec<Edit>,
) -> Result<(), AllocError>
    ensures { OnOk result (edits.new.items ≡ edits.old.items ++ when (not (beq settings.now.is_restricted before.now.is_restricted)) (SetPort name.now (RestrictedRole settings.now.is_restricted))) }
{
    let is_other = settings.is_restricted != before.is_restricted;
    let change = PortChange::RestrictedRole(settings.is_restricted);
    push_change(is_other, name, change, edits)
}

/// Adds the plugs of ports of the new network that don't stay, in the order of the ports.
pub(crate) fn add_plugs<C: Saved, D: Saved>(
    old: &C,
    new: &D,
    ports: &[PortName],
    edits: &mut Vec<Edit>,
) -> Result<(), AllocError>
    ensures { OnOk result (edits.new.items ≡ edits.old.items ++ flat_map (plug_edits (C.tables old.now).net (D.tables new.now).net) ports.now) }
{
    for port in ports {
        add_plug(old, new, port, edits)?;
    }
    Ok(())
}

/// Adds the plug of a port, if it has one that doesn't stay.
fn add_plug<C: Saved, D: Saved>(
    old: &C,
    new: &D,
    name: &PortName,
    edits: &mut Vec<Edit>,
) -> Result<(), AllocError>
    ensures { OnOk result (edits.new.items ≡ edits.old.items ++ plug_edits (C.tables old.now).net (D.tables new.now).net name.now) }
{
    match lan_of(new, name) {
        Some(lan) => {
            let edit = Edit::Plug { port: *name, lan };
            push_when(!plug_stays(old, new, name), &edit, edits)
        }
        None => Ok(()),
    }
}
