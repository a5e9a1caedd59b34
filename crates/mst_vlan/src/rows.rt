ghost use Rattle.std.specs.Prelude.{◌≡◌, ◌+◌, ◌<◌, length, map, IfOk};
ghost use Rattle.std.specs.List.{All};
ghost use Rattle.mst_vlan.specs.Kept.{seen_vlans, seen_row, link_at, HaveRows};

use mst_classes::classes_by_tables;
use mst_graph::Numbering;
use mst_ids::{Vid, VidSet};
use mst_roles::{Forest, forwarding};
use mst_view::View;
use std::alloc::{AllocError, Global};

/// The set of VLANs of each logical port.
pub(crate) fn vlan_sets(alloc: Global, view: &View) -> Result<Vec<VidSet>, AllocError>
    ensures { IfOk result (λ sets. sets.items ≡ seen_vlans view.now) }
{
    let settings = view.settings();
    view.ports()
        .iter()
        .map(|port| settings.port_vlans(&port.name))
        .collect(alloc)
}

/// Whether the port at a place carries the VID, by the ports' flags for it and by their sets of VLANs.
pub(crate) fn is_link(row: &[bool], vlans: &[VidSet], place: usize, vid: Vid) -> bool
    requires row { place < length row.now }
    requires vlans { place < length vlans.now }
    ensures { result ≡ link_at row.now vlans.now vid place }
{
    row[place] && vlans[place].contains(vid.value())
}

/// For each number of VIDs a flag for each port: it forwards for them.
#[derive(Drop)]
pub(crate) struct Rows {
    // The number of each VID, 1 to 4094. Those of one number have one tree in each bridge's table.
    pub(crate) numbers: Vec<usize>,
    pub(crate) rows: Vec<Vec<bool>>,
}

/// The flags of the ports for each of these VIDs, counted from 0.
fn rows_of(
    alloc: Global,
    view: &View,
    forest: &Forest,
    places: &[usize],
) -> Result<Vec<Vec<bool>>, AllocError>
    requires { All (λ place. place < 4094) places.now }
    ensures { IfOk result (λ rows. map (λ row. row.items) rows.items ≡ map (λ place. seen_row view.now forest.now (place + 1)) places.now) }
{
    let mut rows = Vec::new(alloc);
    for place in places {
        let vid = Vid::new(*place as u64 + 1).unwrap();
        rows.push(forwarding(alloc, view, forest, vid)?)?;
    }
    Ok(rows)
}

impl Rows {
    /// The flags of the ports for each VID.
    pub(crate) fn new(alloc: Global, view: &View, forest: &Forest) -> Result<Rows, AllocError>
        ensures { IfOk result (λ r. HaveRows view.now forest.now r.numbers.items (map (λ row. row.items) r.rows.items)) }
    {
        let Numbering { numbers, firsts } = classes_by_tables(alloc, view)?;
        let rows = rows_of(alloc, view, forest, firsts.as_slice())?;
        Ok(Rows { numbers, rows })
    }
}
