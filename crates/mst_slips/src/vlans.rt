ghost use Rattle.std.specs.Prelude.{◌≡◌, ◌++◌, ◌∷◌, ◌&&◌, not, [], List, OnOk, map};
ghost use Rattle.std.specs.List.{flat_map};
ghost use Rattle.mst_ids.specs.Vids.{has};
ghost use Rattle.mst_rows.specs.Rows.{Row};
ghost use Rattle.mst_tables.specs.ByTree.{vlans_in};
ghost use Rattle.mst_tables.specs.Tables.{Net, Numbers};
ghost use Rattle.mst_view.specs.Viewed.{IsView};
ghost use Rattle.mst_slips.specs.Kept.{AreKept, kept_link};
ghost use Rattle.mst_slips.specs.Vids.{vids_without as without};
ghost use Rattle.mst_slips.specs.Vlans.{ends_row, rows_of_ends, vlans_row, vlans_rows};

use crate::kept::{Kept, kept_for};
use mst_ids::{PortName, Vid, VidSet};
use mst_kinds::{Kind, SummaryLine};
use mst_rows::{Rows, Value, put};
use mst_view::{LanInView, PortInView, View};
use std::alloc::AllocError;

/// Whether a VID is in the first of two sets alone.
fn is_in_first(vids: &VidSet, others: &VidSet, vid: Vid) -> bool
    ensures { result ≡ (has vids.now vid && not (has others.now vid)) }
{
    let number = vid.value();
    vids.contains(number) && !others.contains(number)
}

/// The VIDs that are in the one set and not in the other.
fn vids_without(vids: &VidSet, others: &VidSet) -> VidSet
    ensures { result ≡ without vids.now others.now }
{
    let mut left = VidSet::none();
    for number in 1..4095 {
        let vid = Vid::new(number).unwrap();
        if is_in_first(vids, others, vid) {
            left.insert(vid);
        }
    }
    left
}

/// Puts the row of two ports with these VIDs.
fn put_row<'a, R: Rows>(
    port: &'a PortName,
    vids: &'a VidSet,
    other: &'a PortName,
    others: &'a VidSet,
    out: &mut R,
) -> Result<(), AllocError>
    ensures { (first : R) (rows : List Row) → R.grew first out.old rows
        → OnOk result (R.grew first out.new (rows ++ vlans_row port.now vids.now other.now others.now ∷ [])) }
{
    let values = [
        Value::Port(port),
        Value::Vids(vids),
        Value::Port(other),
        Value::Vids(others),
    ];
    put::<R>(Kind::Summary(SummaryLine::LookVlans), &values, out)
}

/// Puts the row of two ports with these VLANs.
fn put_apart<R: Rows>(
    port: &PortName,
    vids: &VidSet,
    other: &PortName,
    others: &VidSet,
    out: &mut R,
) -> Result<(), AllocError>
    ensures { (first : R) (rows : List Row) → R.grew first out.old rows
        → OnOk result (R.grew first out.new (rows ++ ends_row port.now vids.now other.now others.now ∷ [])) }
{
    let own = vids_without(vids, others);
    let others = vids_without(others, vids);
    put_row(port, &own, other, &others, out)
}

/// Puts the row of two ports, if they are of two bridges and their VLANs differ.
fn put_two<R: Rows>(
    view: &View,
    port: &PortName,
    other: &PortName,
    out: &mut R,
) -> Result<(), AllocError>
    ensures { (first : R) (rows : List Row) → R.grew first out.old rows
        → OnOk result (R.grew first out.new (rows ++ rows_of_ends (vlans_in view.now.settings.vlans) (port.now ∷ other.now ∷ []))) }
{
    let vids = view.settings().port_vlans(port);
    let others = view.settings().port_vlans(other);
    if port.bridge == other.bridge || vids == others {
        return Ok(());
    }
    put_apart(port, &vids, other, &others, out)
}

/// Puts the row of these ports of a logical LAN, if there is one.
fn put_ends<R: Rows>(view: &View, ports: &[PortInView], out: &mut R) -> Result<(), AllocError>
    ensures { (first : R) (rows : List Row) → R.grew first out.old rows
        → OnOk result (R.grew first out.new (rows ++ rows_of_ends (vlans_in view.now.settings.vlans) (map (λ p. p.name) ports.now))) }
{
    match ports {
        [port, other] => put_two(view, &port.name, &other.name, out),
        _ => Ok(()),
    }
}

/// Puts the row of a logical LAN, if it is up and has just two ports, of two bridges, whose VLANs differ.
fn put_link<R: Rows>(
    view: &View,
    kept: &Kept,
    lan: &LanInView,
    out: &mut R,
) -> Result<(), AllocError>
    ensures { (first : R) (rows : List Row) → R.grew first out.old rows → OnOk result (R.grew first out.new (rows ++ kept_link view.now.settings kept.now lan.now)) }
{
    if !lan.is_up {
        return Ok(());
    }
    put_ends(view, kept_for(&kept.by_lan, &lan.name), out)
}

/// Puts the rows of the logical LANs that are up and have just two logical ports, of two bridges, whose VLANs differ, by name.
///
/// It looks at the ports of a logical LAN alone for each.
pub(crate) fn put_links<R: Rows>(view: &View, kept: &Kept, out: &mut R) -> Result<(), AllocError>
    requires { AreKept view.now.ports kept.now }
    ensures { (net : Net) (numbers : Numbers) → IsView net numbers view.now
        → (first : R) (rows : List Row) → R.grew first out.old rows → OnOk result (R.grew first out.new (rows ++ vlans_rows net)) }
{
    put_links_of(view, kept, view.lans(), out)
}

/// Puts the rows of those of these logical LANs.
fn put_links_of<R: Rows>(
    view: &View,
    kept: &Kept,
    lans: &[LanInView],
    out: &mut R,
) -> Result<(), AllocError>
    ensures { (first : R) (rows : List Row) → R.grew first out.old rows
        → OnOk result (R.grew first out.new (rows ++ flat_map (kept_link view.now.settings kept.now) lans.now)) }
{
    for lan in lans {
        put_link(view, kept, lan, out)?;
    }
    Ok(())
}
