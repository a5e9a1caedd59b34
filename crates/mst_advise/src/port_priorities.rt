ghost use Rattle.std.specs.Prelude.{◌≡◌, ◌≤◌, ◌-◌, ◌++◌, OnOk};
ghost use Rattle.mst_advise.specs.PortPriorities.{is_before, is_behind, least_from, port_identifier, port_priorities, set_port};
ghost use Rattle.mst_advise.specs.Priorities.{greatest_upto};

use crate::setting::Setting;
use mst_ids::{PortId, PortName, PortNumber, Priority, Tree};
use mst_roles::Settled;
use std::alloc::AllocError;

/// The identifier of a port in a tree.
fn identifier(plan: &Settled, tree: Tree, port: &PortName) -> PortId
    ensures { result ≡ port_identifier plan.now.net tree port.now }
{
    let priority = plan.settings().port_priority(port, tree);
    PortId::new(priority, port.number)
}

/// The priority of this many steps.
fn priority_of(step: u64) -> Priority
    requires { step ≤ 15 }
    ensures { result ≡ step }
{
    Priority::new(step).unwrap()
}

/// Whether with this priority the port of this number comes before an identifier.
fn comes_before(priority: Priority, number: PortNumber, id: PortId) -> bool
    ensures { result ≡ is_before number id priority }
{
    PortId::new(priority, number) < id
}

/// Whether it comes behind it.
fn comes_behind(priority: Priority, number: PortNumber, id: PortId) -> bool
    ensures { result ≡ is_behind number id priority }
{
    id < PortId::new(priority, number)
}

/// The greatest priority up to this one with which the port of this number comes before an identifier.
fn greatest_before(step: u64, number: PortNumber, id: PortId) -> Option<Priority>
    requires { step ≤ 15 }
    ensures { result ≡ greatest_upto (is_before number id) step }
{
    let priority = priority_of(step);
    if comes_before(priority, number, id) {
        return Some(priority);
    }
    if step == 0 {
        None
    } else {
        greatest_before(step - 1, number, id)
    }
}

/// The least priority from this one on with which it comes behind an identifier.
fn least_behind(step: u64, number: PortNumber, id: PortId) -> Option<Priority>
    requires { step ≤ 15 }
    ensures { result ≡ least_from (is_behind number id) step (15 - step) }
{
    let priority = priority_of(step);
    if comes_behind(priority, number, id) {
        return Some(priority);
    }
    if step == 15 {
        None
    } else {
        least_behind(step + 1, number, id)
    }
}

/// Adds a priority of a port, if there is one.
fn add_priority(
    tree: Tree,
    port: &PortName,
    priority: Option<Priority>,
    found: &mut Vec<Setting>,
) -> Result<(), AllocError>
    ensures { OnOk result (found.new.items ≡ found.old.items ++ set_port tree port.now priority) }
{
    match priority {
        None => Ok(()),
        Some(priority) => {
            found.push(Setting::PortPriority {
                port: *port,
                tree,
                priority,
            })?;
            Ok(())
        }
    }
}

/// Adds the greatest priority of a port with which it comes before another one, and the least one of that with which it comes behind.
pub(crate) fn add_port_priorities(
    plan: &Settled,
    tree: Tree,
    port: &PortName,
    other: &PortName,
    found: &mut Vec<Setting>,
) -> Result<(), AllocError>
    ensures { OnOk result (found.new.items ≡ found.old.items ++ port_priorities plan.now.net tree port.now other.now) }
{
    let lower = greatest_before(15, port.number, identifier(plan, tree, other));
    let higher = least_behind(0, other.number, identifier(plan, tree, port));
    add_priority(tree, port, lower, found)?;
    add_priority(tree, other, higher, found)
}
