ghost use Rattle.std.specs.Prelude.{◌≡◌, ◌++◌, ◌∷◌, [], ℕ, List, OnOk, true, filter, nat_eq};
ghost use Rattle.std.specs.Cmp.Lexicographic.{pointwise};
ghost use Rattle.std.specs.FinMap as fin;
ghost use Rattle.std.specs.List.{flat_map};
ghost use Rattle.mst_rows.specs.Rows.{Row};
ghost use Rattle.mst_edits.specs.Edits.{bridge_part, lan_edits, plug_edits};
ghost use Rattle.mst_edits.specs.EditRows.{edits_rows, first_row, save_rows};
ghost use Rattle.mst_edits.specs.Homes.{kept_for};

use crate::bridges::add_part;
use crate::edits::put_rows;
use crate::homes::{Homes, homes_of};
use crate::lans::add_lans;
use crate::ports::add_plugs;
use mst_ids::{Name, PortName};
use mst_kinds::{BridgeCommand, Kind};
use mst_net::{Network, Saved};
use mst_rows::{Rows, Value, put};
use std::alloc::{AllocError, Global};

/// Puts the rows of a network as a script of version 2 that makes it: its bridges by name, each with its ports by
/// number, its LANs by name, and its plugs. What is at its default isn't written.
///
/// `AllocError`: memory was wanted and refused; part of the rows may have been put. It goes over the records in one
/// pass.
pub fn put_saved<C: Saved, R: Rows>(
    alloc: Global,
    contents: &C,
    out: &mut R,
) -> Result<(), AllocError>
    ensures { (first : R) (rows : List Row) → R.grew first out.old rows → OnOk result (R.grew first out.new (rows ++ save_rows (C.tables contents.now).net)) }
{
    let nothing = Network::new(alloc);
    let ports = contents.port_names(alloc)?;
    let homes = homes_of(alloc, &ports)?;
    put_version(out)?;
    put_bridges(alloc, &nothing, contents, &homes, out)?;
    put_lans(alloc, &nothing, contents, out)?;
    put_plugs(alloc, &nothing, contents, &ports, out)
}

/// Puts the first row of a script of version 2, which says the version.
pub(crate) fn put_version<R: Rows>(out: &mut R) -> Result<(), AllocError>
    ensures { (first : R) (rows : List Row) → R.grew first out.old rows → OnOk result (R.grew first out.new (rows ++ first_row ∷ [])) }
{
    let values = [Value::Number(2)];
    put::<R>(Kind::OfBridge(BridgeCommand::Version), &values, out)
}

/// Puts the rows of each bridge and its ports, by name and number.
fn put_bridges<C: Saved, D: Saved, R: Rows>(
    alloc: Global,
    old: &C,
    new: &D,
    homes: &Homes,
    out: &mut R,
) -> Result<(), AllocError>
    requires { (bridge : List ℕ) → kept_for homes.now bridge ≡ filter (λ port. pointwise nat_eq bridge port.bridge) (fin.keys (D.tables new.now).net.ports) }
    ensures { (first : R) (rows : List Row) → R.grew first out.old rows → OnOk result (R.grew first out.new (rows ++ flat_map (λ bridge. edits_rows (bridge_part true (C.tables old.now).net (D.tables new.now).net bridge)) (fin.keys (D.tables new.now).net.bridges))) }
{
    let names = new.bridge_names(alloc)?;
    for name in names.as_slice() {
        put_part(alloc, old, new, homes, name, out)?;
    }
    Ok(())
}

fn put_part<C: Saved, D: Saved, R: Rows>(
    alloc: Global,
    old: &C,
    new: &D,
    homes: &Homes,
    name: &Name,
    out: &mut R,
) -> Result<(), AllocError>
    requires { (bridge : List ℕ) → kept_for homes.now bridge ≡ filter (λ port. pointwise nat_eq bridge port.bridge) (fin.keys (D.tables new.now).net.ports) }
    ensures { (first : R) (rows : List Row) → R.grew first out.old rows → OnOk result (R.grew first out.new (rows ++ edits_rows (bridge_part true (C.tables old.now).net (D.tables new.now).net name.now))) }
{
    let mut edits = Vec::new(alloc);
    add_part(alloc, true, old, new, homes, name, &mut edits)?;
    put_rows(&edits, out)
}

/// Puts the rows of each LAN, by name.
fn put_lans<C: Saved, D: Saved, R: Rows>(
    alloc: Global,
    old: &C,
    new: &D,
    out: &mut R,
) -> Result<(), AllocError>
    ensures { (first : R) (rows : List Row) → R.grew first out.old rows → OnOk result (R.grew first out.new (rows ++ edits_rows (flat_map (lan_edits true (C.tables old.now).net (D.tables new.now).net) (fin.keys (D.tables new.now).net.lans)))) }
{
    let mut edits = Vec::new(alloc);
    add_lans(alloc, true, old, new, &mut edits)?;
    put_rows(&edits, out)
}

/// Puts the rows of the plugs of ports, in their order.
fn put_plugs<C: Saved, D: Saved, R: Rows>(
    alloc: Global,
    old: &C,
    new: &D,
    ports: &[PortName],
    out: &mut R,
) -> Result<(), AllocError>
    ensures { (first : R) (rows : List Row) → R.grew first out.old rows → OnOk result (R.grew first out.new (rows ++ edits_rows (flat_map (plug_edits (C.tables old.now).net (D.tables new.now).net) ports.now))) }
{
    let mut edits = Vec::new(alloc);
    add_plugs(old, new, ports, &mut edits)?;
    put_rows(&edits, out)
}
