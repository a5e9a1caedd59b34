ghost use Rattle.std.specs.Prelude.{◌≡◌, ◌++◌, IfOk, OnOk, filter_map, map};
ghost use Rattle.std.specs.List.{find, list_any};
ghost use Rattle.mst_sweep.specs.Parts.{are_together, came_apart as came_apart_from, part as names_of_part, first_of as first_of_part, leads as leads_part, part_led, all_parts as all_parts_of};
ghost use Rattle.mst_sweep.specs.Seen.{seen_stays};

use crate::whole::is_whole;
use indexmap::IndexMap;
use mst_facts::Both;
use mst_ids::{BridgeNo, Name};
use std::alloc::{AllocError, Global};

/// A bridge that is on before and afterwards, and the places of its islands.
#[derive(Clone, Copy)]
pub struct Stays {
    pub name: Name,
    pub before: usize,
    pub after: usize,
}

/// A bridge with the places of its islands, if it has both.
fn stays_of(
    olds: &IndexMap<BridgeNo, usize>,
    news: &IndexMap<BridgeNo, usize>,
    bridge: &Both,
) -> Option<Stays>
    ensures { result ≡ seen_stays olds.now.entries news.now.entries bridge.now }
{
    let before = olds.get(&bridge.old.bridge.number)?;
    let after = news.get(&bridge.new.bridge.number)?;
    Some(Stays {
        name: bridge.old.name,
        before: *before,
        after: *after,
    })
}

/// Those of these bridges that stay.
pub fn staying(
    alloc: Global,
    olds: &IndexMap<BridgeNo, usize>,
    news: &IndexMap<BridgeNo, usize>,
    both: &[Both],
) -> Result<Vec<Stays>, AllocError>
    ensures { IfOk result (λ all. all.items ≡ filter_map (seen_stays olds.now.entries news.now.entries) both.now) }
{
    both.iter()
        .filter_map(|bridge| stays_of(olds, news, bridge))
        .collect(alloc)
}

/// Whether a bridge was in an island with this one and is in another.
fn is_apart(bridge: &Stays, other: &Stays) -> bool
    ensures { result ≡ came_apart_from bridge.now other.now }
{
    other.before == bridge.before && other.after != bridge.after
}

/// Whether two bridges are in one island before and in one afterwards.
fn is_together(bridge: &Stays, other: &Stays) -> bool
    ensures { result ≡ are_together bridge.now other.now }
{
    other.before == bridge.before && other.after == bridge.after
}

/// Whether the island of a bridge came apart.
fn came_apart(all: &[Stays], bridge: &Stays) -> bool
    ensures { result ≡ list_any (came_apart_from bridge.now) all.now }
{
    all.iter().any(|other| is_apart(bridge, other))
}

/// The first of the part of a bridge.
fn first_of(all: &[Stays], bridge: &Stays) -> Option<Name>
    ensures { result ≡ first_of_part all.now bridge.now }
{
    let first = all.iter().find(|other| is_together(bridge, other))?;
    Some(first.name)
}

/// Whether a bridge is the first of its part.
fn leads(all: &[Stays], bridge: &Stays) -> bool
    ensures { result ≡ leads_part all.now bridge.now }
{
    match first_of(all, bridge) {
        None => false,
        Some(first) => first == bridge.name,
    }
}

/// The names of the part of a bridge.
fn part(alloc: Global, all: &[Stays], bridge: &Stays) -> Result<Vec<Name>, AllocError>
    ensures { IfOk result (λ names. names.items ≡ names_of_part all.now bridge.now) }
{
    all.iter()
        .filter(|other| is_together(bridge, other))
        .map(|other| other.name)
        .collect(alloc)
}

/// Adds the part of a bridge that is its first, if its island came apart.
fn add_part(
    alloc: Global,
    all: &[Stays],
    bridge: &Stays,
    parts: &mut Vec<Vec<Name>>,
) -> Result<(), AllocError>
    ensures { OnOk result (map (λ names. names.items) parts.new.items ≡ map (λ names. names.items) parts.old.items ++ part_led all.now bridge.now) }
{
    if came_apart(all, bridge) && leads(all, bridge) {
        parts.push(part(alloc, all, bridge)?)?;
    }
    Ok(())
}

/// The part of each bridge that is its first and whose island came apart.
fn led(alloc: Global, all: &[Stays]) -> Result<Vec<Vec<Name>>, AllocError>
    ensures { IfOk result (λ parts. map (λ names. names.items) parts.items ≡ all_parts_of all.now) }
{
    let mut parts = Vec::new(alloc);
    for bridge in all {
        add_part(alloc, all, bridge, &mut parts)?;
    }
    Ok(parts)
}

/// The parts of the islands that came apart, by their first bridges. Where none did, it takes one pass over the bridges.
pub fn all_parts(alloc: Global, all: &[Stays]) -> Result<Vec<Vec<Name>>, AllocError>
    ensures { IfOk result (λ parts. map (λ names. names.items) parts.items ≡ all_parts_of all.now) }
{
    if is_whole(alloc, all)? {
        return Ok(Vec::new(alloc));
    }
    led(alloc, all)
}
