ghost use Rattle.std.specs.Prelude.{◌≡◌, ◌≤◌, ◌*◌, IfOk, filter_map, length};
ghost use Rattle.std.specs.List.{count_by};
ghost use Rattle.mst_plan.specs.forest.Agrees.{Known};
ghost use Rattle.mst_plan.specs.forest.InUse.{AreInUse};
ghost use Rattle.mst_view.specs.View.{port_names};
ghost use Rattle.mst_sweep.specs.Between.{OfNetworks};
ghost use Rattle.mst_sweep.specs.Moved.{port_moved as port_moved_in, moved_ports as all_moved_ports};
ghost use Rattle.mst_sweeping.specs.Seen.{seen_both_ports, seen_port_in_both, seen_moved, ArePortsByName};

use indexmap::IndexMap;
use mst_ids::{PortName, Tree};
use mst_plan::{is_had, trees_in_use};
use mst_roles::port_role;
use mst_sweep::{Planned, changes_role};
use mst_view::{PortInView, View};
use std::alloc::{AllocError, Global};

/// A logical port that two networks have, by name.
#[derive(Clone, Copy)]
pub(crate) struct BothPorts {
    pub(crate) old: PortInView,
    pub(crate) new: PortInView,
}

/// These ports by their names.
fn by_name(
    alloc: Global,
    ports: &[PortInView],
) -> Result<IndexMap<PortName, PortInView>, AllocError>
    ensures { IfOk result (λ named. ArePortsByName ports.now named.entries) }
{
    let mut named = IndexMap::new(alloc);
    for port in ports {
        if !named.contains_key(&port.name) {
            named.insert(port.name, *port)?;
        }
    }
    Ok(named)
}

/// A port and the one of its name, if there is one.
fn in_both(
    port: &PortInView,
    others: &[PortInView],
    named: &IndexMap<PortName, PortInView>,
) -> Option<BothPorts>
    requires { ArePortsByName others.now named.now.entries }
    ensures { result ≡ seen_port_in_both others.now port.now }
{
    let other = named.get(&port.name)?;
    Some(BothPorts {
        old: *port,
        new: *other,
    })
}

/// Those of these ports of whose name there is another one, with that.
fn with_others(
    alloc: Global,
    ports: &[PortInView],
    others: &[PortInView],
    named: &IndexMap<PortName, PortInView>,
) -> Result<Vec<BothPorts>, AllocError>
    requires { ArePortsByName others.now named.now.entries }
    ensures { IfOk result (λ both. both.items ≡ filter_map (seen_port_in_both others.now) ports.now) }
{
    ports
        .iter()
        .filter_map(|port| in_both(port, others, named))
        .collect(alloc)
}

/// The ports that two views have, in the order of the first. Those of the other view are found by hash. `AllocError`: memory was wanted and
/// refused.
pub(crate) fn ports_of_both(
    alloc: Global,
    old: &View,
    new: &View,
) -> Result<Vec<BothPorts>, AllocError>
    ensures { IfOk result (λ both. both.items ≡ seen_both_ports old.now new.now) }
{
    let others = new.ports();
    let named = by_name(alloc, others)?;
    with_others(alloc, old.ports(), others, &named)
}

/// Whether a port has another role in a tree afterwards, and neither is Disabled.
fn has_moved(old: &Planned, new: &Planned, tree: Tree, both: &BothPorts) -> bool
    ensures { result ≡ seen_moved old.now.view.now old.now.forest.now new.now.view.now new.now.forest.now tree both.now }
{
    let before = port_role(old.view, old.forest, &both.old, tree);
    let afterwards = port_role(new.view, new.forest, &both.new, tree);
    changes_role(before, afterwards)
}

/// How many of these ports have.
fn moved_in(old: &Planned, new: &Planned, tree: Tree, both: &[BothPorts]) -> u64
    ensures few { result ≤ length both.now }
    ensures moved { result ≡ count_by (seen_moved old.now.view.now old.now.forest.now new.now.view.now new.now.forest.now tree) both.now }
{
    both.iter()
        .filter(|port| has_moved(old, new, tree, port))
        .count() as u64
}

/// How many of these ports have in a tree: none where no bridge of the old network has it.
fn moved_in_tree(
    old: &Planned,
    new: &Planned,
    used: &[bool; 4095],
    tree: Tree,
    both: &[BothPorts],
) -> u64
    requires known { Known old.now.view.now old.now.forest.now.regions }
    requires used { AreInUse old.now.view.now used.now }
    requires both { both.now ≡ seen_both_ports old.now.view.now new.now.view.now }
    ensures few { result ≤ 16384 }
    ensures moved { OfNetworks old.now new.now (λ a before b afterwards. result ≡ count_by (port_moved_in a before b afterwards tree) (port_names a)) }
{
    if !is_had(used, tree) {
        return 0;
    }
    moved_in(old, new, tree, both)
}

/// How many pairs of a tree and one of these logical ports have another role afterwards, neither being Disabled.
///
/// For each tree that the old network has it goes over the ports once.
pub(crate) fn moved_ports(old: &Planned, new: &Planned, both: &[BothPorts]) -> u64
    requires known { Known old.now.view.now old.now.forest.now.regions }
    requires both { both.now ≡ seen_both_ports old.now.view.now new.now.view.now }
    ensures { OfNetworks old.now new.now (λ a before b afterwards. result ≡ all_moved_ports a before b afterwards) }
{
    let used = trees_in_use(old.view);
    let mut count = 0;
    for number in 0..4095 {
        if let Some(tree) = Tree::new(number) {
            count += moved_in_tree(old, new, &used, tree, both);
        }
    }
    count
}
