ghost use Rattle.std.specs.Prelude.{◌≡◌, ◌&&◌, ℕ, List, IfOk, filter, map};
ghost use Rattle.std.specs.HashSet.{contains};
ghost use Rattle.std.specs.List.{list_any};
ghost use Rattle.mst_view.specs.Aggregation.{same_name};
ghost use Rattle.mst_sweeping.specs.Links.{same_links, shared as shared_of, staying as staying_of};
ghost use Rattle.mst_sweeping.specs.Seen.{link_by, seen_carried, seen_stays, is_other as is_other_by, AreUsers};

use crate::change::{Change, stays};
use indexmap::{IndexMap, IndexSet};
use mst_ids::{Name, PortName, Vid};
use mst_sweep::Carriage;
use std::alloc::{AllocError, Global};

/// A logical port that links its bridge to its logical LAN.
#[derive(Clone, Copy, PartialEq, Eq, Hash)]
pub struct Link {
    pub port: PortName,
    pub lan: Name,
}

/// The links of these ports, each with its logical LAN.
fn links_by(alloc: Global, carried: &[(PortName, Name)]) -> Result<Vec<Link>, AllocError>
    ensures { IfOk result (λ links. links.items ≡ map link_by carried.now) }
{
    carried
        .iter()
        .map(|names| Link {
            port: names.0,
            lan: names.1,
        })
        .collect(alloc)
}

/// What carries a VID: its active ports that are members. `AllocError`: memory was wanted and refused.
pub(crate) fn carried(alloc: Global, carriage: &Carriage, vid: Vid) -> Result<Vec<Link>, AllocError>
    ensures { IfOk result (λ links. links.items ≡ seen_carried carriage.now.view carriage.now.forest vid) }
{
    let carried = carriage.carried(alloc, vid)?;
    links_by(alloc, carried.as_slice())
}

/// Whether two lists of links are the same.
pub(crate) fn are_same(links: &[Link], others: &[Link]) -> bool
    ensures { result ≡ same_links links.now others.now }
{
    links == others
}

/// Those of these links whose bridges are on in both networks.
fn staying(alloc: Global, change: &Change, links: &[Link]) -> Result<Vec<Link>, AllocError>
    ensures { IfOk result (λ staying. staying.items ≡ staying_of (seen_stays change.now.old.now.view.now change.now.new.now.view.now) links.now) }
{
    links
        .iter()
        .filter(|link| stays(change, &link.port.bridge))
        .map(|link| *link)
        .collect(alloc)
}

/// For each LAN of these links a bridge that has one of them.
fn users(alloc: Global, links: &[Link]) -> Result<IndexMap<Name, Name>, AllocError>
    ensures { IfOk result (λ users. AreUsers links.now users.entries) }
{
    let mut users = IndexMap::new(alloc);
    for link in links {
        users.insert(link.lan, link.port.bridge)?;
    }
    Ok(users)
}

/// Whether the bridge that is kept for the LAN of a link is another one than that of the link.
fn is_other(users: &IndexMap<Name, Name>, link: &Link) -> bool
    ensures { result ≡ is_other_by users.now.entries link.now }
{
    match users.get(&link.lan) {
        Some(bridge) => link.port.bridge != *bridge,
        None => false,
    }
}

/// The LANs to which another bridge has a link than the one that is kept.
fn shared_lans(
    alloc: Global,
    links: &[Link],
    users: &IndexMap<Name, Name>,
) -> Result<IndexSet<Name>, AllocError>
    ensures { IfOk result (λ lans. (lan : List ℕ) → contains same_name lans lan ≡ list_any (λ link. is_other_by users.now.entries link && same_name link.lan lan) links.now) }
{
    let mut lans = IndexSet::new(alloc);
    for link in links {
        if is_other(users, link) {
            lans.insert(link.lan)?;
        }
    }
    Ok(lans)
}

/// Those of these links whose LANs are among these.
fn on_lans(alloc: Global, links: &[Link], lans: &IndexSet<Name>) -> Result<Vec<Link>, AllocError>
    ensures { IfOk result (λ kept. kept.items ≡ filter (λ link. contains same_name lans.now link.lan) links.now) }
{
    links
        .iter()
        .filter(|link| lans.contains(&link.lan))
        .map(|link| *link)
        .collect(alloc)
}

/// Those of these links to whose LANs another bridge has one, too.
fn shared(alloc: Global, links: &[Link]) -> Result<Vec<Link>, AllocError>
    ensures { IfOk result (λ shared. shared.items ≡ shared_of links.now) }
{
    let users = users(alloc, links)?;
    let lans = shared_lans(alloc, links, &users)?;
    on_lans(alloc, links, &lans)
}

/// The links between bridges that are on in both networks, of these of one of them. `AllocError`: memory was wanted and refused.
pub(crate) fn between(
    alloc: Global,
    change: &Change,
    links: &[Link],
) -> Result<Vec<Link>, AllocError>
    ensures { IfOk result (λ between. between.items ≡ shared_of (staying_of (seen_stays change.now.old.now.view.now change.now.new.now.view.now) links.now)) }
{
    let staying = staying(alloc, change, links)?;
    shared(alloc, staying.as_slice())
}
