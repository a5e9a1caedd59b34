ghost use Rattle.std.specs.Prelude.{List, [], ◌∷◌, ◌++◌, OnOk, map};
ghost use Rattle.mst_rows.specs.Rows.{Row};
ghost use Rattle.mst_advise.specs.Told.{because_row, count_row, hindrance_row, none_row, setting_row, still_row};
ghost use Rattle.mst_advise.specs.declared.setting.Setting.TheVariants as set;

use crate::hindrance::Hindrance;
use crate::setting::Setting;
use mst_ids::{Cost, Name, PortName, Priority, Tree};
use mst_kinds::{AdviseLine, Kind};
use mst_rows::{Rows, Value, put};
use std::alloc::AllocError;

/// Puts the priority of a bridge in a tree.
fn put_priority<'a, R: Rows>(
    bridge: &'a Name,
    tree: Tree,
    priority: Priority,
    out: &mut R,
) -> Result<(), AllocError>
    ensures { (first : R) (rows : List Row) → R.grew first out.old rows → OnOk result (R.grew first out.new (rows ++ setting_row (set.Priority bridge.now tree priority) ∷ [])) }
{
    let values = [
        Value::Name(bridge),
        Value::Number(u64::from(tree.value())),
        Value::Number(u64::from(priority.step()) * 4096),
    ];
    put::<R>(Kind::Advise(AdviseLine::Priority), &values, out)
}

/// Puts the priority of a port in a tree.
fn put_port_priority<'a, R: Rows>(
    port: &'a PortName,
    tree: Tree,
    priority: Priority,
    out: &mut R,
) -> Result<(), AllocError>
    ensures { (first : R) (rows : List Row) → R.grew first out.old rows → OnOk result (R.grew first out.new (rows ++ setting_row (set.PortPriority port.now tree priority) ∷ [])) }
{
    let values = [
        Value::Name(&port.bridge),
        Value::Number(u64::from(port.number.value())),
        Value::Number(u64::from(tree.value())),
        Value::Number(u64::from(priority.step()) * 16),
    ];
    put::<R>(Kind::Advise(AdviseLine::PortPriority), &values, out)
}

/// Puts the external path cost of a port.
fn put_external<'a, R: Rows>(port: &'a PortName, cost: Cost, out: &mut R) -> Result<(), AllocError>
    ensures { (first : R) (rows : List Row) → R.grew first out.old rows → OnOk result (R.grew first out.new (rows ++ setting_row (set.ExternalCost port.now cost) ∷ [])) }
{
    let values = [
        Value::Name(&port.bridge),
        Value::Number(u64::from(port.number.value())),
        Value::Number(cost.value()),
    ];
    put::<R>(Kind::Advise(AdviseLine::ExternalCost), &values, out)
}

/// Puts the internal path cost of a port in a tree.
fn put_internal<'a, R: Rows>(
    port: &'a PortName,
    tree: Tree,
    cost: Cost,
    out: &mut R,
) -> Result<(), AllocError>
    ensures { (first : R) (rows : List Row) → R.grew first out.old rows → OnOk result (R.grew first out.new (rows ++ setting_row (set.InternalCost port.now tree cost) ∷ [])) }
{
    let values = [
        Value::Name(&port.bridge),
        Value::Number(u64::from(port.number.value())),
        Value::Number(u64::from(tree.value())),
        Value::Number(cost.value()),
    ];
    put::<R>(Kind::Advise(AdviseLine::InternalCost), &values, out)
}

/// Puts the edit of a setting.
fn put_setting<R: Rows>(setting: &Setting, out: &mut R) -> Result<(), AllocError>
    ensures { (first : R) (rows : List Row) → R.grew first out.old rows → OnOk result (R.grew first out.new (rows ++ setting_row setting.now ∷ [])) }
{
    match setting {
        Setting::Priority {
            bridge,
            tree,
            priority,
        } => put_priority(bridge, *tree, *priority, out),
        Setting::PortPriority {
            port,
            tree,
            priority,
        } => put_port_priority(port, *tree, *priority, out),
        Setting::ExternalCost { port, cost } => put_external(port, *cost, out),
        Setting::InternalCost { port, tree, cost } => put_internal(port, *tree, *cost, out),
    }
}

/// Puts the edits of settings, in their order. `AllocError`: memory was wanted and refused; some of the rows may have been put.
pub fn put_settings<R: Rows>(settings: &[Setting], out: &mut R) -> Result<(), AllocError>
    ensures { (first : R) (rows : List Row) → R.grew first out.old rows → OnOk result (R.grew first out.new (rows ++ map setting_row settings.now)) }
{
    for setting in settings {
        put_setting(setting, out)?;
    }
    Ok(())
}

/// Puts that there is an advice of so many edits. `AllocError`: memory was wanted and refused.
pub fn put_count<R: Rows>(edits: u64, out: &mut R) -> Result<(), AllocError>
    ensures { (first : R) (rows : List Row) → R.grew first out.old rows → OnOk result (R.grew first out.new (rows ++ count_row edits ∷ [])) }
{
    let values = [Value::Number(edits)];
    put::<R>(Kind::Advise(AdviseLine::Counts), &values, out)
}

/// Puts what is in the way.
fn put_hindrance<R: Rows>(hindrance: &Hindrance, out: &mut R) -> Result<(), AllocError>
    ensures { (first : R) (rows : List Row) → R.grew first out.old rows → OnOk result (R.grew first out.new (rows ++ hindrance_row hindrance.now ∷ [])) }
{
    match hindrance {
        Hindrance::Off(bridge) => {
            let values = [Value::Name(bridge)];
            put::<R>(Kind::Advise(AdviseLine::BecauseOff), &values, out)
        }
        Hindrance::Down(lan) => {
            let values = [Value::Name(lan)];
            put::<R>(Kind::Advise(AdviseLine::BecauseDown), &values, out)
        }
        Hindrance::Restricted => {
            let values = [];
            put::<R>(Kind::Advise(AdviseLine::BecauseRestricted), &values, out)
        }
    }
}

/// Puts which bridges have another root still, or how many candidates there are.
fn put_still<R: Rows>(apart: &[Name], tried: u64, out: &mut R) -> Result<(), AllocError>
    ensures { (first : R) (rows : List Row) → R.grew first out.old rows → OnOk result (R.grew first out.new (rows ++ still_row apart.now tried ∷ [])) }
{
    match apart {
        [] => {
            let values = [Value::Number(tried)];
            put::<R>(Kind::Advise(AdviseLine::BecauseTried), &values, out)
        }
        [..] => {
            let values = [Value::Names(apart)];
            put::<R>(Kind::Advise(AdviseLine::BecauseApart), &values, out)
        }
    }
}

/// Puts why there is no advice: what is in the way; or else which bridges have another root still, or how many candidates don't do it.
/// `AllocError`: memory was wanted and refused.
pub fn put_because<R: Rows>(
    hindrance: &Option<Hindrance>,
    apart: &[Name],
    tried: u64,
    out: &mut R,
) -> Result<(), AllocError>
    ensures { (first : R) (rows : List Row) → R.grew first out.old rows → OnOk result (R.grew first out.new (rows ++ because_row hindrance.now apart.now tried ∷ [])) }
{
    match hindrance {
        None => put_still(apart, tried, out),
        Some(hindrance) => put_hindrance(hindrance, out),
    }
}

/// Puts that there is no advice. `AllocError`: memory was wanted and refused.
pub fn put_none<R: Rows>(out: &mut R) -> Result<(), AllocError>
    ensures { (first : R) (rows : List Row) → R.grew first out.old rows → OnOk result (R.grew first out.new (rows ++ none_row ∷ [])) }
{
    let values = [];
    put::<R>(Kind::Advise(AdviseLine::None), &values, out)
}
