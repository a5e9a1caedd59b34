ghost use Rattle.std.specs.Prelude.{◌≡◌, ◌<◌, [], IfOk, IsTrue, true, false, length, map, slice_index_or};
ghost use Rattle.std.specs.List.{All};
ghost use Rattle.mst_vlan.specs.Carried.{names_of, CarryAlike, AreFlags};
ghost use Rattle.mst_vlan.specs.Kept.{HaveSameVlans, link_at};

use crate::carriage::Carriage;
use crate::rows::is_link;
use mst_ids::{Vid, VidSet};
use mst_view::View;
use std::alloc::{AllocError, Global};

/// Whether the logical ports of two views have the same names and LANs, in the same order.
fn have_same_ports(old: &View, new: &View) -> bool
    ensures { IsTrue result → map names_of old.now.ports ≡ map names_of new.now.ports }
{
    let ports = old.ports();
    let others = new.ports();
    if ports.len() != others.len() {
        return false;
    }
    for place in 0..ports.len() {
        let port = &ports[place];
        let other = &others[place];
        if port.name != other.name || port.lan != other.lan {
            return false;
        }
    }
    true
}

/// A flag for each port: those at its place are members of the same VLANs in both networks.
fn same_vlans(alloc: Global, old: &Carriage, new: &Carriage) -> Result<Vec<bool>, AllocError>
    requires { length old.now.view.ports ≡ length new.now.view.ports }
    ensures same { IfOk result (λ flags. HaveSameVlans old.now.view new.now.view flags.items) }
    ensures as_long { IfOk result (λ flags. length flags.items ≡ length old.now.view.ports) }
{
    let vlans = old.vlans();
    let others = new.vlans();
    let mut flags = Vec::new(alloc);
    for place in 0..vlans.len() {
        flags.push(vlans[place] == others[place])?;
    }
    Ok(flags)
}

/// Whether the port at a place carries the VID by the one flags and sets of VLANs, and not by the others, where it may be
/// known that both sets are the same.
fn differs_at(
    row: &[bool],
    other: &[bool],
    vlans: &[VidSet],
    others: &[VidSet],
    is_same: bool,
    place: usize,
    vid: Vid,
) -> bool
    requires row { place < length row.now }
    requires other { place < length other.now }
    requires vlans { place < length vlans.now }
    requires others { place < length others.now }
    requires same { is_same ≡ true → slice_index_or vlans.now place [] ≡ slice_index_or others.now place [] }
    ensures { result ≡ false → link_at row.now vlans.now vid place ≡ link_at other.now others.now vid place }
{
    if is_same && row[place] == other[place] {
        return false;
    }
    is_link(row, vlans, place, vid) != is_link(other, others, place, vid)
}

/// Whether some port carries the VID in one network alone, where the same ports stand at the same places of both and the
/// flags tell which are members of the same VLANs.
fn some_differs(old: &Carriage, new: &Carriage, same_vlans: &[bool], vid: Vid) -> bool
    requires ports { map names_of old.now.view.ports ≡ map names_of new.now.view.ports }
    requires vlans { HaveSameVlans old.now.view new.now.view same_vlans.now }
    requires as_long { length same_vlans.now ≡ length old.now.view.ports }
    ensures { result ≡ false → CarryAlike old.now new.now vid }
{
    let row = old.row(vid);
    let other = new.row(vid);
    let vlans = old.vlans();
    let others = new.vlans();
    for place in 0..same_vlans.len() {
        let is_same = same_vlans[place];
        if differs_at(row, other, vlans, others, is_same, place, vid) {
            return true;
        }
    }
    false
}

/// A flag for each VID, where the same ports stand at the same places of both networks.
fn by_places(
    alloc: Global,
    old: &Carriage,
    new: &Carriage,
    places: &[usize],
) -> Result<Vec<bool>, AllocError>
    requires ports { map names_of old.now.view.ports ≡ map names_of new.now.view.ports }
    requires places { All (λ place. place < 4094) places.now }
    ensures { IfOk result (λ flags. AreFlags old.now new.now places.now flags.items) }
{
    let same_vlans = same_vlans(alloc, old, new)?;
    let mut flags = Vec::new(alloc);
    for place in places {
        let vid = Vid::new(*place as u64 + 1).unwrap();
        flags.push(some_differs(old, new, same_vlans.as_slice(), vid))?;
    }
    Ok(flags)
}

/// Whether other ports carry the VID in one network than in the other.
fn differs(alloc: Global, old: &Carriage, new: &Carriage, vid: Vid) -> Result<bool, AllocError>
    ensures { IfOk result (λ differs. differs ≡ false → CarryAlike old.now new.now vid) }
{
    let carried = old.carried(alloc, vid)?;
    let others = new.carried(alloc, vid)?;
    Ok(carried != others)
}

/// A flag for each VID.
fn by_names(
    alloc: Global,
    old: &Carriage,
    new: &Carriage,
    places: &[usize],
) -> Result<Vec<bool>, AllocError>
    requires { All (λ place. place < 4094) places.now }
    ensures { IfOk result (λ flags. AreFlags old.now new.now places.now flags.items) }
{
    let mut flags = Vec::new(alloc);
    for place in places {
        let vid = Vid::new(*place as u64 + 1).unwrap();
        flags.push(differs(alloc, old, new, vid)?)?;
    }
    Ok(flags)
}

/// A flag for each of these VIDs, counted from 0: it is false only where the same ports carry the VID in both networks, on
/// the same LANs. For n ports it takes n steps for each VID. `AllocError`: memory was wanted and refused.
pub fn differing(
    alloc: Global,
    old: &Carriage,
    new: &Carriage,
    places: &[usize],
) -> Result<Vec<bool>, AllocError>
    requires { All (λ place. place < 4094) places.now }
    ensures { IfOk result (λ flags. AreFlags old.now new.now places.now flags.items) }
{
    if have_same_ports(old.view(), new.view()) {
        by_places(alloc, old, new, places)
    } else {
        by_names(alloc, old, new, places)
    }
}
