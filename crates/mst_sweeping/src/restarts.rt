ghost use Rattle.std.specs.Prelude.{◌≡◌, ◌==◌, ◌&&◌, ◌||◌, not, ℕ, List, IfOk, filter, map, nat_eq};
ghost use Rattle.std.specs.Cmp.Lexicographic.{pointwise};
ghost use Rattle.std.specs.HashSet.{contains};
ghost use Rattle.std.specs.List.{list_any};
ghost use Rattle.mst_net.specs.tables.ByTree.{table_in};
ghost use Rattle.mst_net.specs.tables.Seen.{bridge_row};
ghost use Rattle.mst_net.specs.tables.Tables.{port_eq};
ghost use Rattle.mst_view.specs.Aggregation.{same_name};
ghost use Rattle.mst_sweep.specs.facts.Told.{same_told};
ghost use Rattle.mst_sweep.specs.facts.Both.{seen_both};
ghost use Rattle.mst_sweep.specs.Between.{OfNetworks};
ghost use Rattle.mst_sweeping.specs.Restarts.{restarting as all_restarting};
ghost use Rattle.mst_sweeping.specs.Seen.{AreReplugged, seen_anew, seen_as_it_was, seen_both_ports, seen_restarts};

use crate::ports::BothPorts;
use indexmap::IndexSet;
use mst_ids::{Name, PortName};
use mst_lang::Kind;
use mst_net::{Bridge, Table};
use mst_sweep::{Both, Planned};
use mst_view::View;
use std::alloc::{AllocError, Global};

/// Whether two tables are the same. It goes over the VIDs itself, which takes less time than comparing slices.
fn is_same_table(table: &Table, other: &Table) -> bool
    ensures { result ≡ pointwise nat_eq table.now other.now }
{
    let ours = table.trees();
    let theirs = other.trees();
    for place in 0..4094 {
        if ours[place] != theirs[place] {
            return false;
        }
    }
    true
}

/// Whether two bridges are of one kind, and their configurations of one name and one revision where they are of kind mstp.
fn is_same_told(old: &Bridge, new: &Bridge) -> bool
    ensures { result ≡ same_told (bridge_row old.now) (bridge_row new.now) }
{
    match (old.kind, new.kind) {
        (Kind::Rstp, Kind::Rstp) => true,
        (Kind::Mstp, Kind::Mstp) => {
            old.conf_name.as_bytes() == new.conf_name.as_bytes() && old.revision == new.revision
        }
        _ => false,
    }
}

/// Whether a bridge is of kind rstp, or has the table that it had.
fn has_its_table(old: &View, new: &View, both: &Both) -> bool
    ensures { result ≡ ((bridge_row both.now.old.bridge).is_rstp || pointwise nat_eq (table_in old.now.settings.tables both.now.old.name) (table_in new.now.settings.tables both.now.old.name)) }
{
    match both.old.bridge.kind {
        Kind::Rstp => true,
        Kind::Mstp => {
            let before = old.settings().table(&both.old.name);
            let afterwards = new.settings().table(&both.old.name);
            is_same_table(&before, &afterwards)
        }
    }
}

/// Whether a bridge stays what it was.
fn is_as_it_was(old: &View, new: &View, both: &Both) -> bool
    ensures { result ≡ seen_as_it_was old.now new.now both.now }
{
    both.old.bridge.mac == both.new.bridge.mac
        && is_same_told(&both.old.bridge, &both.new.bridge)
        && has_its_table(old, new, both)
}

/// The names of those of these bridges that don't.
fn bridges_anew(
    alloc: Global,
    old: &View,
    new: &View,
    both: &[Both],
) -> Result<IndexSet<Name>, AllocError>
    ensures { IfOk result (λ anew. (name : List ℕ) → contains same_name anew name ≡ list_any (λ bridge. seen_anew old.now new.now bridge && same_name bridge.old.name name) both.now) }
{
    let mut anew = IndexSet::new(alloc);
    for bridge in both {
        if !is_as_it_was(old, new, bridge) {
            anew.insert(bridge.old.name)?;
        }
    }
    Ok(anew)
}

/// Whether a port is enabled before and afterwards, and its bridge is among these or it is itself.
fn restarts(anew: &IndexSet<Name>, replugged: &IndexSet<PortName>, port: &BothPorts) -> bool
    ensures { result ≡ seen_restarts (contains same_name anew.now) (contains port_eq replugged.now) port.now }
{
    port.old.is_enabled
        && port.new.is_enabled
        && (anew.contains(&port.old.name.bridge) || replugged.contains(&port.old.name))
}

/// Those of these ports of which it is so, by name.
fn restarting_of(
    alloc: Global,
    anew: &IndexSet<Name>,
    replugged: &IndexSet<PortName>,
    shared: &[BothPorts],
) -> Result<Vec<PortName>, AllocError>
    ensures { IfOk result (λ names. names.items ≡ map (λ port. port.old.name) (filter (seen_restarts (contains same_name anew.now) (contains port_eq replugged.now)) shared.now)) }
{
    shared
        .iter()
        .filter(|port| restarts(anew, replugged, port))
        .map(|port| port.old.name)
        .collect(alloc)
}

/// The logical ports of two networks that start anew between them, by the bridges and the ports that both have, and by those that are
/// plugged into another LAN. `AllocError`: memory was wanted and refused.
///
/// It goes over these bridges and these ports once, and over the VIDs for each bridge of kind mstp.
pub(crate) fn restarting(
    alloc: Global,
    old: &Planned,
    new: &Planned,
    both: &[Both],
    shared: &[BothPorts],
    replugged: &IndexSet<PortName>,
) -> Result<Vec<PortName>, AllocError>
    requires both { both.now ≡ seen_both old.now.view.now new.now.view.now }
    requires shared { shared.now ≡ seen_both_ports old.now.view.now new.now.view.now }
    ensures { IfOk result (λ names. OfNetworks old.now new.now (λ a before b afterwards. AreReplugged a b (contains port_eq replugged.now) → names.items ≡ all_restarting a b)) }
{
    let anew = bridges_anew(alloc, old.view, new.view, both)?;
    restarting_of(alloc, &anew, replugged, shared)
}
