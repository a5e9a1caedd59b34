ghost use Rattle.std.specs.Prelude.{◌≡◌, IfOk, map, filter};
ghost use Rattle.mst_graph.specs.Islands.{AreIslands, HaveEnds};
ghost use Rattle.mst_ids.specs.Vids.{has};
ghost use Rattle.mst_tables.specs.Tables.{Net, Numbers};
ghost use Rattle.mst_roles.specs.forest.Agrees.{AreOf, Known};
ghost use Rattle.mst_roles.specs.forest.Forest.{IsForest};
ghost use Rattle.mst_roles.specs.forest.Settled.{outcome_of};
ghost use Rattle.mst_vlan.specs.Reach.{AreReached};
ghost use Rattle.mst_roles.specs.SeenActive.{seen_active};
ghost use Rattle.mst_vlan.specs.Seen.{seen_bridges, seen_lans, seen_link, seen_member, seen_links, as_island};

use crate::island::{BridgeList, Island, LanList};
use mst_graph::{Link, islands};
use mst_ids::{BridgeNo, LanNo, Vid};
use mst_roles::{Forest, Settled, forwarding_ports};
use mst_view::{PortInView, View};
use std::alloc::{AllocError, Global};

/// The numbers of the bridges that are on. `AllocError`: memory was wanted and refused.
pub fn bridges_on(alloc: Global, view: &View) -> Result<Vec<BridgeNo>, AllocError>
    ensures { IfOk result (λ bridges. bridges.items ≡ seen_bridges view.now) }
{
    view.bridges()
        .iter()
        .filter(|bridge| bridge.bridge.is_on())
        .map(|bridge| bridge.bridge.number)
        .collect(alloc)
}

/// The numbers of the logical LANs that are up. `AllocError`: memory was wanted and refused.
pub fn lans_up(alloc: Global, view: &View) -> Result<Vec<LanNo>, AllocError>
    ensures { IfOk result (λ lans. lans.items ≡ seen_lans view.now) }
{
    view.lans()
        .iter()
        .filter(|lan| lan.is_up)
        .map(|lan| lan.number)
        .collect(alloc)
}

/// Whether a logical port is a member of a VLAN (802.1Q-2022, 8.8.10): of each where none were set.
pub fn is_member(view: &View, port: &PortInView, vid: Vid) -> bool
    ensures { result ≡ seen_member view.now vid port.now }
{
    view.settings().is_member(&port.name, vid)
}

/// The links of those of these active ports that are members of the VLAN.
fn links(
    alloc: Global,
    view: &View,
    active: &[PortInView],
    vid: Vid,
) -> Result<Vec<Link>, AllocError>
    ensures { IfOk result (λ links. links.items ≡ map seen_link (filter (seen_member view.now vid) active.now)) }
{
    active
        .iter()
        .filter(|port| is_member(view, port, vid))
        .map(|port| Link {
            bridge: port.bridge,
            lan: port.lan_number,
        })
        .collect(alloc)
}

/// What the links of these active ports join.
fn joined(
    alloc: Global,
    view: &View,
    forest: &Forest,
    active: &[PortInView],
    vid: Vid,
) -> Result<Vec<mst_graph::Island>, AllocError>
    requires known { Known view.now forest.now.regions }
    requires active { active.now ≡ seen_active view.now forest.now vid }
    ensures { IfOk result (λ joined. AreIslands (seen_bridges view.now) (seen_lans view.now) (seen_links view.now forest.now vid) joined.items) }
{
    let bridges = bridges_on(alloc, view)?;
    let lans = lans_up(alloc, view)?;
    let links = links(alloc, view, active, vid)?;
    islands(alloc, bridges.as_slice(), lans.as_slice(), links.as_slice())
}

/// The same islands, each list of a type of its own.
fn listed(alloc: Global, joined: &[mst_graph::Island]) -> Result<Vec<Island>, AllocError>
    ensures { IfOk result (λ islands. map as_island islands.items ≡ joined.now) }
{
    let mut islands = Vec::new(alloc);
    for island in joined {
        let bridges = BridgeList::of(alloc, island.bridges())?;
        let lans = LanList::of(alloc, island.lans())?;
        islands.push(Island { bridges, lans })?;
    }
    Ok(islands)
}

/// The islands of these bridges and LANs that links join, each list of a type of its own. `AllocError`: memory was
/// wanted and refused.
pub fn islands_of(
    alloc: Global,
    bridges: &[BridgeNo],
    lans: &[LanNo],
    links: &[Link],
) -> Result<Vec<Island>, AllocError>
    requires { HaveEnds bridges.now lans.now links.now }
    ensures { IfOk result (λ islands. AreIslands bridges.now lans.now links.now (map as_island islands.items)) }
{
    let joined = islands(alloc, bridges, lans, links)?;
    listed(alloc, joined.as_slice())
}

/// The islands of a VID: two of the bridges that are on and the logical LANs that are up are in one just where
/// active ports that are members of the VLAN link them. Each is in just one. Those with a bridge come first, by
/// their first bridges, and then the others by their LANs. For n ports it takes about n log n steps. `AllocError`:
/// memory was wanted and refused.
pub fn reach(
    alloc: Global,
    view: &View,
    forest: &Forest,
    vid: Vid,
) -> Result<Vec<Island>, AllocError>
    requires { Known view.now forest.now.regions }
    ensures { IfOk result (λ islands. (net : Net) (numbers : Numbers) (is : IsForest net numbers forest.now) → AreOf net numbers view.now forest.now.regions → AreReached net numbers is.outcome vid islands.items) }
{
    let active = forwarding_ports(alloc, view, forest, vid)?;
    let joined = joined(alloc, view, forest, active.as_slice(), vid)?;
    listed(alloc, joined.as_slice())
}

/// The islands of a VID in a settled network, as `reach` gives them, where these are its active ports. `AllocError`:
/// memory was wanted and refused.
pub fn reach_from(
    alloc: Global,
    plan: &Settled,
    active: &[PortInView],
    vid: Vid,
) -> Result<Vec<Island>, AllocError>
    requires { active.now ≡ seen_active plan.now.view plan.now.forest vid }
    ensures { IfOk result (λ islands. AreReached plan.now.net plan.now.numbers (outcome_of plan.now) vid islands.items) }
{
    plan.known();
    let view = plan.view();
    let forest = plan.forest();
    let joined = joined(alloc, view, forest, active, vid)?;
    listed(alloc, joined.as_slice())
}
