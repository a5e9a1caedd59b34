ghost use Rattle.std.specs.Prelude.{◌≡◌, ◌++◌, ◌∷◌, [], List, IfOk, OnOk, map};
ghost use Rattle.mst_ids.specs.Vids.{runs_from};
ghost use Rattle.mst_rows.specs.Rows.{Row};
ghost use Rattle.mst_text.specs.VlanRows.{active_row};
ghost use Rattle.mst_text.specs.VlanSeen.{seen_port};

use mst_ids::{Vid, VidSet};
use mst_kinds::{Kind, VlanLine};
use mst_rows::{ActivePort, Rows, Value, put};
use mst_view::{PortInView, View};
use mst_vlan::is_member;
use std::alloc::{AllocError, Global};

/// Puts the row of the active ports of a VID, under a heading of these VIDs.
pub(crate) fn put_active<R: Rows>(
    alloc: Global,
    view: &View,
    vid: Vid,
    vids: &VidSet,
    ports: &[PortInView],
    out: &mut R,
) -> Result<(), AllocError>
    ensures { (first : R) (rows : List Row) → R.grew first out.old rows → OnOk result (R.grew first out.new (rows ++ active_row (runs_from 0 vids.now) (map (seen_port view.now vid) ports.now) ∷ [])) }
{
    let ports = active_ports(alloc, view, vid, ports)?;
    put_ports(vids, ports.as_slice(), out)
}

/// These ports, each with whether it is a member.
fn active_ports(
    alloc: Global,
    view: &View,
    vid: Vid,
    ports: &[PortInView],
) -> Result<Vec<ActivePort>, AllocError>
    ensures { IfOk result (λ active. active.items ≡ map (seen_port view.now vid) ports.now) }
{
    let mut active = Vec::new(alloc);
    for port in ports {
        active.push(ActivePort {
            port: port.name,
            is_member: is_member(view, port, vid),
        })?;
    }
    Ok(active)
}

/// Puts the row of these active ports.
fn put_ports<'a, R: Rows>(
    vids: &'a VidSet,
    ports: &'a [ActivePort],
    out: &mut R,
) -> Result<(), AllocError>
    ensures { (first : R) (rows : List Row) → R.grew first out.old rows → OnOk result (R.grew first out.new (rows ++ active_row (runs_from 0 vids.now) ports.now ∷ [])) }
{
    let values = [Value::Vids(vids), Value::Active(ports)];
    put::<R>(Kind::Vlan(VlanLine::Active), &values, out)
}
