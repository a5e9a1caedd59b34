ghost use Rattle.std.specs.Prelude.{◌≡◌, ◌++◌, List, OnOk};
ghost use Rattle.mst_lang.specs.declared.line.Edit.TheVariants.{AddBridge, SetBridge, SetPort, SetLan, Plug, SetByTree};
ghost use Rattle.mst_lang.specs.declared.line.BridgeChange.TheVariants.{Power as PowerOf, Kind as KindOf, Configuration};
ghost use Rattle.mst_lang.specs.declared.line.PortChange.TheVariants.{PathCost, RestrictedRole};
ghost use Rattle.mst_lang.specs.declared.line.LanChange.TheVariants.{State};
ghost use Rattle.mst_lang.specs.declared.line.TreeChange.TheVariants.{Priority as PriorityOf, PortPriority, PortCost, Table, Vlans};
ghost use Rattle.mst_rows.specs.Rows.{Row};
ghost use Rattle.mst_edits.specs.EditRows.{edit_rows, vlans_command as command_of};

use crate::line::{put_named, put_number, put_of_port, put_port_number, put_port_tree};
use mst_ids::{ConfName, Cost, Mac, Name, PortName, Priority, Tree, VidSet};
use mst_kinds::{BridgeCommand, Kind, PortCommand};
use mst_lang::{
    BridgeChange, Edit, Kind as BridgeKind, LanChange, LanState, PortChange, Power, TreeChange,
};
use mst_rows::{Rows, Value, put};
use std::alloc::AllocError;

/// Puts the row of an edit.
pub(crate) fn put_edit<R: Rows>(edit: &Edit, out: &mut R) -> Result<(), AllocError>
    ensures { (first : R) (rows : List Row) → R.grew first out.old rows → OnOk result (R.grew first out.new (rows ++ edit_rows edit.now)) }
{
    match edit {
        Edit::AddBridge { bridge, mac } => put_add(bridge, *mac, out),
        Edit::DelBridge { bridge } => {
            put_named(Kind::OfBridge(BridgeCommand::Delete), bridge, out)
        }
        Edit::SetBridge { bridge, change } => put_bridge(bridge, change, out),
        Edit::AddPort { port } => put_of_port(PortCommand::Add, port, out),
        Edit::DelPort { port } => put_of_port(PortCommand::Delete, port, out),
        Edit::SetPort { port, change } => put_port(port, change, out),
        Edit::AddLan { lan } => put_named(Kind::OfPort(PortCommand::AddLan), lan, out),
        Edit::DelLan { lan } => put_named(Kind::OfPort(PortCommand::DeleteLan), lan, out),
        Edit::SetLan { lan, change } => put_lan(lan, change, out),
        Edit::Plug { port, lan } => put_plug_into(port, lan, out),
        Edit::Unplug { port } => put_of_port(PortCommand::Unplug, port, out),
        Edit::SetByTree(change) => put_by_tree(change, out),
    }
}

/// Puts a new bridge.
fn put_add<R: Rows>(name: &Name, mac: Mac, out: &mut R) -> Result<(), AllocError>
    ensures { (first : R) (rows : List Row) → R.grew first out.old rows → OnOk result (R.grew first out.new (rows ++ edit_rows (AddBridge name.now mac))) }
{
    let values = [Value::Name(name), Value::Mac(mac)];
    put::<R>(Kind::OfBridge(BridgeCommand::Add), &values, out)
}

fn put_bridge<R: Rows>(name: &Name, change: &BridgeChange, out: &mut R) -> Result<(), AllocError>
    ensures { (first : R) (rows : List Row) → R.grew first out.old rows → OnOk result (R.grew first out.new (rows ++ edit_rows (SetBridge name.now change.now))) }
{
    match change {
        BridgeChange::Power(power) => put_power(name, *power, out),
        BridgeChange::Kind(kind) => put_kind(name, *kind, out),
        BridgeChange::SystemPriority(priority) => put_number(
            Kind::OfBridge(BridgeCommand::SystemPriority),
            name,
            u64::from(*priority),
            out,
        ),
        BridgeChange::Configuration {
            revision,
            name: conf_name,
        } => put_configuration(name, *revision, conf_name, out),
        BridgeChange::MaxHops(limit) => put_number(
            Kind::OfBridge(BridgeCommand::MaxHops),
            name,
            limit.value(),
            out,
        ),
        BridgeChange::MaxAge(limit) => put_number(
            Kind::OfBridge(BridgeCommand::MaxAge),
            name,
            limit.value(),
            out,
        ),
    }
}

fn put_power<R: Rows>(name: &Name, power: Power, out: &mut R) -> Result<(), AllocError>
    ensures { (first : R) (rows : List Row) → R.grew first out.old rows → OnOk result (R.grew first out.new (rows ++ edit_rows (SetBridge name.now (PowerOf power)))) }
{
    match power {
        Power::On => put_named(Kind::OfBridge(BridgeCommand::On), name, out),
        Power::Off => put_named(Kind::OfBridge(BridgeCommand::Off), name, out),
    }
}

fn put_kind<R: Rows>(name: &Name, kind: BridgeKind, out: &mut R) -> Result<(), AllocError>
    ensures { (first : R) (rows : List Row) → R.grew first out.old rows → OnOk result (R.grew first out.new (rows ++ edit_rows (SetBridge name.now (KindOf kind)))) }
{
    match kind {
        BridgeKind::Mstp => put_named(Kind::OfBridge(BridgeCommand::Mstp), name, out),
        BridgeKind::Rstp => put_named(Kind::OfBridge(BridgeCommand::Rstp), name, out),
    }
}

fn put_configuration<'a, R: Rows>(
    name: &'a Name,
    revision: u16,
    conf_name: &'a ConfName,
    out: &mut R,
) -> Result<(), AllocError>
    ensures { (first : R) (rows : List Row) → R.grew first out.old rows → OnOk result (R.grew first out.new (rows ++ edit_rows (SetBridge name.now (Configuration revision conf_name.now)))) }
{
    let values = [
        Value::Name(name),
        Value::Number(u64::from(revision)),
        Value::Word(conf_name.as_bytes()),
    ];
    put::<R>(Kind::OfBridge(BridgeCommand::Configuration), &values, out)
}

fn put_port<R: Rows>(name: &PortName, change: &PortChange, out: &mut R) -> Result<(), AllocError>
    ensures { (first : R) (rows : List Row) → R.grew first out.old rows → OnOk result (R.grew first out.new (rows ++ edit_rows (SetPort name.now change.now))) }
{
    match change {
        PortChange::Key(key) => put_port_number(PortCommand::Key, name, u64::from(*key), out),
        PortChange::PathCost(cost) => put_external(name, *cost, out),
        PortChange::RestrictedRole(is_restricted) => put_restricted(name, *is_restricted, out),
    }
}

fn put_external<R: Rows>(name: &PortName, cost: Option<Cost>, out: &mut R) -> Result<(), AllocError>
    ensures { (first : R) (rows : List Row) → R.grew first out.old rows → OnOk result (R.grew first out.new (rows ++ edit_rows (SetPort name.now (PathCost cost)))) }
{
    match cost {
        None => put_port_number(PortCommand::ExternalCost, name, 0, out),
        Some(cost) => put_port_number(PortCommand::ExternalCost, name, cost.value(), out),
    }
}

fn put_restricted<R: Rows>(
    name: &PortName,
    is_restricted: bool,
    out: &mut R,
) -> Result<(), AllocError>
    ensures { (first : R) (rows : List Row) → R.grew first out.old rows → OnOk result (R.grew first out.new (rows ++ edit_rows (SetPort name.now (RestrictedRole is_restricted)))) }
{
    if is_restricted {
        return put_of_port(PortCommand::Restricted, name, out);
    }
    put_of_port(PortCommand::Unrestricted, name, out)
}

/// Puts a plug.
fn put_plug_into<'a, R: Rows>(
    name: &'a PortName,
    lan: &'a Name,
    out: &mut R,
) -> Result<(), AllocError>
    ensures { (first : R) (rows : List Row) → R.grew first out.old rows → OnOk result (R.grew first out.new (rows ++ edit_rows (Plug name.now lan.now))) }
{
    let values = [
        Value::Name(&name.bridge),
        Value::Number(u64::from(name.number.value())),
        Value::Name(lan),
    ];
    put::<R>(Kind::OfPort(PortCommand::Plug), &values, out)
}

fn put_lan<R: Rows>(name: &Name, change: &LanChange, out: &mut R) -> Result<(), AllocError>
    ensures { (first : R) (rows : List Row) → R.grew first out.old rows → OnOk result (R.grew first out.new (rows ++ edit_rows (SetLan name.now change.now))) }
{
    match change {
        LanChange::State(state) => put_state(name, *state, out),
        LanChange::Speed(speed) => put_number(
            Kind::OfPort(PortCommand::Speed),
            name,
            speed.value(),
            out,
        ),
    }
}

fn put_state<R: Rows>(name: &Name, state: LanState, out: &mut R) -> Result<(), AllocError>
    ensures { (first : R) (rows : List Row) → R.grew first out.old rows → OnOk result (R.grew first out.new (rows ++ edit_rows (SetLan name.now (State state)))) }
{
    match state {
        LanState::Up => put_named(Kind::OfPort(PortCommand::LanUp), name, out),
        LanState::Down => put_named(Kind::OfPort(PortCommand::LanDown), name, out),
    }
}

fn put_by_tree<R: Rows>(change: &TreeChange, out: &mut R) -> Result<(), AllocError>
    ensures { (first : R) (rows : List Row) → R.grew first out.old rows → OnOk result (R.grew first out.new (rows ++ edit_rows (SetByTree change.now))) }
{
    match change {
        TreeChange::Priority {
            bridge,
            tree,
            priority,
        } => put_priority(bridge, *tree, *priority, out),
        TreeChange::PortPriority {
            port,
            tree,
            priority,
        } => put_port_priority(port, *tree, *priority, out),
        TreeChange::PortCost { port, tree, cost } => put_cost(port, *tree, *cost, out),
        TreeChange::Table { bridge, tree, vids } => put_line(bridge, *tree, vids, out),
        TreeChange::Vlans { port, vids } => put_vlans(port, vids, out),
    }
}

fn put_priority<R: Rows>(
    name: &Name,
    tree: Tree,
    priority: Priority,
    out: &mut R,
) -> Result<(), AllocError>
    ensures { (first : R) (rows : List Row) → R.grew first out.old rows → OnOk result (R.grew first out.new (rows ++ edit_rows (SetByTree (PriorityOf name.now tree priority)))) }
{
    let values = [
        Value::Name(name),
        Value::Number(u64::from(tree.value())),
        Value::Number(u64::from(priority.step()) * 4096),
    ];
    put::<R>(Kind::OfBridge(BridgeCommand::Priority), &values, out)
}

/// Puts the internal path cost of a port in a tree, 0 where it is automatic.
fn put_cost<R: Rows>(
    name: &PortName,
    tree: Tree,
    cost: Option<Cost>,
    out: &mut R,
) -> Result<(), AllocError>
    ensures { (first : R) (rows : List Row) → R.grew first out.old rows → OnOk result (R.grew first out.new (rows ++ edit_rows (SetByTree (PortCost name.now tree cost)))) }
{
    match cost {
        None => put_port_tree(PortCommand::InternalCost, name, tree, 0, out),
        Some(cost) => put_port_tree(PortCommand::InternalCost, name, tree, cost.value(), out),
    }
}

fn put_port_priority<R: Rows>(
    name: &PortName,
    tree: Tree,
    priority: Priority,
    out: &mut R,
) -> Result<(), AllocError>
    ensures { (first : R) (rows : List Row) → R.grew first out.old rows → OnOk result (R.grew first out.new (rows ++ edit_rows (SetByTree (PortPriority name.now tree priority)))) }
{
    let priority = u64::from(priority.step()) * 16;
    put_port_tree(PortCommand::Priority, name, tree, priority, out)
}

/// Puts the row that maps VIDs to a tree.
fn put_line<'a, R: Rows>(
    name: &'a Name,
    tree: Tree,
    vids: &'a VidSet,
    out: &mut R,
) -> Result<(), AllocError>
    ensures { (first : R) (rows : List Row) → R.grew first out.old rows → OnOk result (R.grew first out.new (rows ++ edit_rows (SetByTree (Table name.now tree vids.now)))) }
{
    let values = [
        Value::Name(name),
        Value::Number(u64::from(tree.value())),
        Value::Vids(vids),
    ];
    put::<R>(Kind::OfBridge(BridgeCommand::Msti), &values, out)
}

/// Puts the VLANs of a port.
fn put_vlans<'a, R: Rows>(
    name: &'a PortName,
    vids: &'a VidSet,
    out: &mut R,
) -> Result<(), AllocError>
    ensures { (first : R) (rows : List Row) → R.grew first out.old rows → OnOk result (R.grew first out.new (rows ++ edit_rows (SetByTree (Vlans name.now vids.now)))) }
{
    let values = [
        Value::Name(&name.bridge),
        Value::Number(u64::from(name.number.value())),
        Value::Vids(vids),
    ];
    put::<R>(Kind::OfPort(vlans_command(vids)), &values, out)
}

/// The command of a port that is in all VLANs, in none, or in some.
fn vlans_command(vids: &VidSet) -> PortCommand
    ensures { result ≡ command_of vids.now }
{
    if *vids == VidSet::all() {
        return PortCommand::AllVlans;
    }
    if *vids == VidSet::none() {
        return PortCommand::NoVlans;
    }
    PortCommand::Vlans
}
