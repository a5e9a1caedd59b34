ghost use Rattle.std.specs.Prelude.{◌≡◌, ◌++◌, ℕ, List, IfOk, OnOk, map, false};
ghost use Rattle.mst_graph.specs.Islands.{Island as NamedIsland};
ghost use Rattle.mst_vlan.specs.forest.Settled.{outcome_of};
ghost use Rattle.mst_vlan.specs.Reach.{AreIslandsOf};
ghost use Rattle.mst_diff.specs.Met.{AreMet};
ghost use Rattle.mst_diff.specs.Reach.{island_bridges, no_sides, sides_of as sides_between, without};
ghost use Rattle.mst_diff.specs.Seen.{apart_group, one_group, seen_groups, seen_sides, AreSidesOf};
ghost use Rattle.mst_vlan.specs.Carried.{with_trees};

use crate::carriages::Carriages;
use indexmap::IndexSet;
use mst_ids::{Name, Vid};
use mst_view::View;
use mst_vlan::{Carriage, Island, Settled, bridge_names, has_bridge};
use std::alloc::{AllocError, Global};

/// The islands of a VID before that aren't there afterwards, and those afterwards that weren't there before, each by its
/// bridges.
#[derive(PartialEq, Eq, Hash, Drop)]
pub(crate) struct Sides {
    pub(crate) old: Vec<Vec<Name>>,
    pub(crate) new: Vec<Vec<Name>>,
}

/// Puts the bridges of an island behind these, if it has one.
fn add_island(
    alloc: Global,
    view: &View,
    island: &Island,
    groups: &mut Vec<Vec<Name>>,
) -> Result<(), AllocError>
    ensures { OnOk result (map (λ group. group.items) groups.new.items ≡ map (λ group. group.items) groups.old.items ++ one_group view.now island.now) }
{
    if !has_bridge(island) {
        return Ok(());
    }
    let names = bridge_names(alloc, view, island.bridges.as_slice())?;
    groups.push(names)?;
    Ok(())
}

/// The bridges of those of these islands that have one.
fn groups(alloc: Global, view: &View, islands: &[Island]) -> Result<Vec<Vec<Name>>, AllocError>
    ensures { IfOk result (λ groups. map (λ group. group.items) groups.items ≡ seen_groups view.now islands.now) }
{
    let mut groups = Vec::new(alloc);
    for island in islands {
        add_island(alloc, view, island, &mut groups)?;
    }
    Ok(groups)
}

/// The bridges of the islands of a VID that have one, by their first bridges, from the table of what carries each VID.
fn groups_of(
    alloc: Global,
    plan: &Settled,
    carriage: &Carriage,
    vid: Vid,
) -> Result<Vec<Vec<Name>>, AllocError>
    requires { carriage.now ≡ with_trees plan.now }
    ensures { IfOk result (λ groups. (islands : List (NamedIsland (List ℕ) (List ℕ))) × AreIslandsOf plan.now.net (outcome_of plan.now) vid islands × (map (λ group. group.items) groups.items ≡ island_bridges islands)) }
{
    plan.known();
    let islands = carriage.islands(alloc, vid)?;
    groups(alloc, plan.view(), islands.as_slice())
}

/// These islands, to be found by hash.
fn met<'a>(alloc: Global, groups: &'a [Vec<Name>]) -> Result<IndexSet<&'a [Name]>, AllocError>
    ensures { IfOk result (λ met. AreMet (map (λ group. group.items) groups.now) met.keys) }
{
    let mut met = IndexSet::new(alloc);
    for group in groups {
        met.insert(group.as_slice())?;
    }
    Ok(met)
}

/// Puts an island behind these, unless it is among those that were met.
fn add_unless(
    alloc: Global,
    group: &[Name],
    met: &IndexSet<&[Name]>,
    apart: &mut Vec<Vec<Name>>,
) -> Result<(), AllocError>
    ensures { (others : List (List (List ℕ))) → AreMet others met.now.keys → OnOk result (map (λ group. group.items) apart.new.items ≡ map (λ group. group.items) apart.old.items ++ apart_group others group.now) }
{
    if met.contains(group) {
        return Ok(());
    }
    apart.push(Vec::from_slice(alloc, group)?)?;
    Ok(())
}

/// Those of these islands that aren't among those of the other network.
fn apart(
    alloc: Global,
    groups: &[Vec<Name>],
    others: &[Vec<Name>],
) -> Result<Vec<Vec<Name>>, AllocError>
    ensures { IfOk result (λ apart. map (λ group. group.items) apart.items ≡ without (map (λ group. group.items) groups.now) (map (λ group. group.items) others.now)) }
{
    let met = met(alloc, others)?;
    let mut apart = Vec::new(alloc);
    for group in groups {
        add_unless(alloc, group.as_slice(), &met, &mut apart)?;
    }
    Ok(apart)
}

/// Both sides, where these are the islands before and after: nothing where they are the same.
fn sides_of(alloc: Global, olds: &[Vec<Name>], news: &[Vec<Name>]) -> Result<Sides, AllocError>
    ensures { IfOk result (λ sides. seen_sides sides ≡ sides_between (map (λ group. group.items) olds.now) (map (λ group. group.items) news.now)) }
{
    if olds == news {
        return Ok(none(alloc));
    }
    let old = apart(alloc, olds, news)?;
    let new = apart(alloc, news, olds)?;
    Ok(Sides { old, new })
}

/// No island on either side.
fn none(alloc: Global) -> Sides
    ensures { seen_sides result ≡ no_sides }
{
    Sides {
        old: Vec::new(alloc),
        new: Vec::new(alloc),
    }
}

/// Both sides of a VID: nothing where its islands have the same bridges before and after. `AllocError`: memory was
/// wanted and refused.
///
/// It makes the islands of the VID in both networks, and finds each one among those of the other side by hash.
fn sides_of_vid(alloc: Global, both: &Carriages, vid: Vid) -> Result<Sides, AllocError>
    ensures { IfOk result (λ sides. AreSidesOf both.now.old.now both.now.new.now vid (seen_sides sides)) }
{
    let olds = groups_of(alloc, both.old, both.before, vid)?;
    let news = groups_of(alloc, both.new, both.after, vid)?;
    sides_of(alloc, olds.as_slice(), news.as_slice())
}

/// Both sides of a VID, where it is known of some VIDs that there is nothing on either. `AllocError`: memory was wanted
/// and refused.
pub(crate) fn sides_unless(
    alloc: Global,
    both: &Carriages,
    vid: Vid,
    may_differ: bool,
) -> Result<Sides, AllocError>
    requires { may_differ ≡ false → AreSidesOf both.now.old.now both.now.new.now vid no_sides }
    ensures { IfOk result (λ sides. AreSidesOf both.now.old.now both.now.new.now vid (seen_sides sides)) }
{
    if may_differ {
        return sides_of_vid(alloc, both, vid);
    }
    Ok(none(alloc))
}

/// A copy of these islands.
fn copy(alloc: Global, groups: &[Vec<Name>]) -> Result<Vec<Vec<Name>>, AllocError>
    ensures { IfOk result (λ copied. map (λ group. group.items) copied.items ≡ map (λ group. group.items) groups.now) }
{
    let mut copied = Vec::new(alloc);
    for group in groups {
        copied.push(Vec::from_slice(alloc, group.as_slice())?)?;
    }
    Ok(copied)
}

/// A copy of these sides.
fn copy_of(alloc: Global, sides: &Sides) -> Result<Sides, AllocError>
    ensures { IfOk result (λ copied. seen_sides copied ≡ seen_sides sides.now) }
{
    let old = copy(alloc, sides.old.as_slice())?;
    let new = copy(alloc, sides.new.as_slice())?;
    Ok(Sides { old, new })
}

/// A copy of each of these sides.
pub(crate) fn copies(alloc: Global, sides: &[Sides]) -> Result<Vec<Sides>, AllocError>
    ensures { IfOk result (λ copied. map seen_sides copied.items ≡ map seen_sides sides.now) }
{
    let mut copied = Vec::new(alloc);
    for both in sides {
        copied.push(copy_of(alloc, both)?)?;
    }
    Ok(copied)
}
