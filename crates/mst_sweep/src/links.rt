ghost use Rattle.std.specs.Prelude.{◌≡◌, false, true};
ghost use Rattle.std.specs.List.{list_any};
ghost use Rattle.mst_sweep.specs.Touched.{seen_is_link, seen_beside_link, seen_breaks, BreaksNoLink, BreakNoLinks};

use mst_facts::Planned;
use mst_ids::Vid;
use mst_view::PortInView;
use mst_vlan::{is_member, port_forwards};

/// Whether a port forwards for a VID and is a member of its VLAN: then it links its bridge and its LAN.
fn is_link(plan: &Planned, port: &PortInView, vid: Vid) -> bool
    ensures { result ≡ seen_is_link plan.now.view.now plan.now.forest.now vid port.now }
{
    is_member(plan.view, port, vid) && port_forwards(plan.view, plan.forest, port, vid)
}

/// Whether another port links another bridge to the LAN of a port.
fn is_beside(plan: &Planned, port: &PortInView, other: &PortInView, vid: Vid) -> bool
    ensures { result ≡ seen_beside_link plan.now.view.now plan.now.forest.now vid port.now other.now }
{
    other.lan_number == port.lan_number && other.bridge != port.bridge && is_link(plan, other, vid)
}

/// Whether some port does.
fn has_beside(plan: &Planned, port: &PortInView, vid: Vid) -> bool
    ensures { result ≡ list_any (seen_beside_link plan.now.view.now plan.now.forest.now vid port.now) plan.now.view.now.ports }
{
    plan.view
        .ports()
        .iter()
        .any(|other| is_beside(plan, port, other, vid))
}

/// Whether a port linked its bridge to others, and doesn't afterwards.
fn breaks(
    old: &Planned,
    new: &Planned,
    vid: Vid,
    before: &PortInView,
    afterwards: &PortInView,
) -> bool
    ensures { result ≡ seen_breaks old.now.view.now old.now.forest.now new.now.view.now new.now.forest.now vid before.now afterwards.now }
{
    is_link(old, before, vid)
        && !port_forwards(new.view, new.forest, afterwards, vid)
        && has_beside(old, before, vid)
}

/// Whether the port at a place does, or there is none.
fn breaks_at(old: &Planned, new: &Planned, vid: Vid, place: usize) -> bool
    ensures { result ≡ false → BreaksNoLink old.now.view.now old.now.forest.now new.now.view.now new.now.forest.now vid place }
{
    let Some(before) = old.view.ports().get(place) else {
        return true;
    };
    let Some(afterwards) = new.view.ports().get(place) else {
        return true;
    };
    breaks(old, new, vid, before, afterwards)
}

/// Whether none of the ports at these places linked its bridge to others for a VID and doesn't afterwards: then bridges that
/// were linked still are.
pub(crate) fn breaks_no_link(old: &Planned, new: &Planned, vid: Vid, places: &[usize]) -> bool
    ensures { result ≡ true → BreakNoLinks old.now.view.now old.now.forest.now new.now.view.now new.now.forest.now vid places.now }
{
    for place in places {
        if breaks_at(old, new, vid, *place) {
            return false;
        }
    }
    true
}
