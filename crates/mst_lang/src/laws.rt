//! Laws of lines. Their functions do nothing: a caller has their clauses.
ghost use Rattle.std.specs.Prelude.{◌≡◌, ◌≤◌, ℕ, List, Ok};
ghost use Rattle.std.specs.Option.{ForSome};
ghost use Rattle.mst_lang.specs.declared.line.Version.{Version};
ghost use Rattle.mst_lang.specs.declared.line.Edit.{Edit};
ghost use Rattle.mst_lang.specs.declared.line.Line.TheVariants.{Edit as edit};
ghost use Rattle.mst_lang.specs.Reading.{reading_as};
ghost use Rattle.mst_lang.specs.Ranges.{InRange, NamesFit, ValuesFit, BridgeFits, PortFits, LanFits, TreeFits, IsName, IsPort};

use crate::line::{BridgeChange, Edit, LanChange, PortChange, TreeChange};
use mst_ids::{Cost, Name, PortName};

/// All that an edit says is in its range, whoever makes it.
pub fn values_in_range(edit: &Edit)
    ensures { InRange edit.now }
{
    names_fit(edit);
    values_fit(edit);
}

/// The names of an edit, and the number of its port, are in their forms.
fn names_fit(edit: &Edit)
    ensures { NamesFit edit.now }
{
    match *edit {
        Edit::AddBridge { bridge, .. } => is_name(&bridge),
        Edit::DelBridge { bridge } => is_name(&bridge),
        Edit::SetBridge { bridge, .. } => is_name(&bridge),
        Edit::AddPort { port } => is_port(&port),
        Edit::DelPort { port } => is_port(&port),
        Edit::SetPort { port, .. } => is_port(&port),
        Edit::AddLan { lan } => is_name(&lan),
        Edit::DelLan { lan } => is_name(&lan),
        Edit::SetLan { lan, .. } => is_name(&lan),
        Edit::Plug { port, lan } => {
            is_port(&port);
            is_name(&lan);
        }
        Edit::Unplug { port } => is_port(&port),
        Edit::SetByTree(TreeChange::Priority { bridge, .. }) => is_name(&bridge),
        Edit::SetByTree(TreeChange::PortPriority { port, .. }) => is_port(&port),
        Edit::SetByTree(TreeChange::PortCost { port, .. }) => is_port(&port),
        Edit::SetByTree(TreeChange::Table { bridge, .. }) => is_name(&bridge),
        Edit::SetByTree(TreeChange::Vlans { port, .. }) => is_port(&port),
    }
}

/// What holds of every name.
fn is_name(name: &Name)
    ensures { IsName name.now }
{
    let _text = name.as_bytes();
}

/// What holds of every port.
fn is_port(port: &PortName)
    ensures { IsPort port.now }
{
    is_name(&port.bridge);
    prove!((1..=4095).contains(&port.number.value()));
}

/// The other values of an edit are in their ranges.
fn values_fit(edit: &Edit)
    ensures { ValuesFit edit.now }
{
    match *edit {
        Edit::AddBridge { mac, .. } => prove!(mac.number() < 1 << 48),
        Edit::SetBridge { change, .. } => bridge_fits(&change),
        Edit::SetPort { change, .. } => port_fits(&change),
        Edit::SetLan { change, .. } => lan_fits(&change),
        Edit::SetByTree(change) => tree_fits(&change),
        _ => {}
    }
}

/// What is set of a bridge is in its range.
fn bridge_fits(change: &BridgeChange)
    ensures { BridgeFits change.now }
{
    match *change {
        BridgeChange::SystemPriority(priority) => prove!(u32::from(priority) < 1 << 16),
        BridgeChange::Configuration { revision, name } => {
            prove!(u32::from(revision) < 1 << 16);
            let _name = name.as_bytes();
        }
        BridgeChange::MaxHops(limit) => prove!((6..=40).contains(&limit.value())),
        BridgeChange::MaxAge(limit) => prove!((6..=40).contains(&limit.value())),
        _ => {}
    }
}

/// What is set of a port is in its range.
fn port_fits(change: &PortChange)
    ensures { PortFits change.now }
{
    match *change {
        PortChange::Key(key) => prove!(u32::from(key) < 1 << 16),
        PortChange::PathCost(cost) => is_cost(cost),
        PortChange::RestrictedRole(_) => {}
    }
}

/// What is set of a LAN is in its range.
fn lan_fits(change: &LanChange)
    ensures { LanFits change.now }
{
    match *change {
        LanChange::Speed(speed) => prove!((1..=9_999_999_999).contains(&speed.value())),
        _ => {}
    }
}

/// What is set by tree or VID is in its range.
fn tree_fits(change: &TreeChange)
    ensures { TreeFits change.now }
{
    match *change {
        TreeChange::Priority { tree, priority, .. } => prove!(
            tree.value() <= 4094 && priority.step() <= 15
        ),
        TreeChange::PortPriority { tree, priority, .. } => prove!(
            tree.value() <= 4094 && priority.step() <= 15
        ),
        TreeChange::PortCost { tree, cost, .. } => {
            prove!(tree.value() <= 4094);
            is_cost(cost);
        }
        TreeChange::Table { tree, vids, .. } => {
            prove!(tree.value() <= 4094);
            let _first = vids.contains(0);
        }
        TreeChange::Vlans { vids, .. } => {
            let _first = vids.contains(0);
        }
    }
}

/// What holds of every cost that is set.
fn is_cost(cost: Option<Cost>)
    ensures { ForSome cost (λ value. (1 ≤ value) × (value ≤ 200_000_000)) }
{
    if let Some(cost) = cost {
        prove!((1..=200_000_000).contains(&cost.value()));
    }
}

/// All that an edit says which a line says is in its range, in each version.
pub fn edits_in_range()
    ensures { (version : Version) (line : List ℕ) (e : Edit) → reading_as version line ≡ Ok (edit e) → InRange e }
{}
