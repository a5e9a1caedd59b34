ghost use Rattle.std.specs.Prelude.{◌≡◌, ◌==◌, ◌++◌, ◌∷◌, [], ℕ, List, Some, None, nat_eq, not, filter, length, IfOk, OnOk};
ghost use Rattle.std.specs.List.{Contains, flat_map};
ghost use Rattle.mst_view.specs.Viewed.{named_bridge};
ghost use Rattle.mst_rows.specs.Rows.{Row};
ghost use Rattle.mst_tables.specs.ByTree.{by_tree};
ghost use Rattle.mst_graph.specs.Lists.{has_any};
ghost use Rattle.mst_vlan.specs.forest.Settled.{outcome_of};
ghost use Rattle.mst_summary.specs.declared.roots.Follower.{Follower as FollowerIn};
ghost use Rattle.mst_summary.specs.Grouped.{group_at};
ghost use Rattle.mst_summary.specs.Roots.{follower as follower_of, followers as followers_in, followers_of as those_of, with_lesser, least as least_of, next_of, priority_of, root_row, group_rows};
ghost use Rattle.mst_summary.specs.Seen.{seen_root};

use crate::grouped::{add, group_for};
use indexmap::IndexMap;
use mst_facts::root_of;
use mst_ids::{BridgeId, Name, Tree};
use mst_kinds::{Kind, SummaryLine};
use mst_rows::{Rows, Value, put};
use mst_view::BridgeInView;
use mst_vlan::{Settled, bridge_id};
use std::alloc::{AllocError, Global};

/// A bridge that names a root in a tree: its name, its own identifier there and that of its root.
#[derive(Clone, Copy)]
pub struct Follower {
    pub name: Name,
    pub id: BridgeId,
    pub root: BridgeId,
}

/// A bridge with the root that it names in a tree, if it names one.
pub fn as_follower(plan: &Settled, tree: Tree, bridge: &BridgeInView) -> Option<Follower>
    requires { Contains plan.now.view.bridges bridge.now }
    ensures { result ≡ follower_of plan.now.net (outcome_of plan.now) tree (named_bridge bridge.now) }
{
    let root = root_of(plan, tree, bridge)?;
    Some(Follower {
        name: bridge.name,
        id: bridge_id(plan.settings(), tree, bridge),
        root,
    })
}

/// Appends the bridges that name a root in a tree.
fn push_followers(
    plan: &Settled,
    tree: Tree,
    followers: &mut Vec<Follower>,
) -> Result<(), AllocError>
    ensures { OnOk result (followers.new.items ≡ followers.old.items ++ followers_in plan.now.net (outcome_of plan.now) tree) }
{
    plan.known();
    let bridges = plan.view().bridges().iter();
    followers.extend(bridges.filter_map(|bridge| as_follower(plan, tree, bridge)))
}

/// These by the identifiers of their roots.
fn by_root(
    alloc: Global,
    followers: &[Follower],
) -> Result<IndexMap<u64, Vec<Follower>>, AllocError>
    ensures { IfOk result (λ groups. (id : ℕ) → group_at nat_eq groups id ≡ those_of id followers.now) }
{
    let mut groups = IndexMap::new(alloc);
    for follower in followers {
        add(alloc, follower.root.number(), *follower, &mut groups)?;
    }
    Ok(groups)
}

/// Those that haven't this identifier themselves.
fn others(alloc: Global, id: BridgeId, followers: &[Follower]) -> Result<Vec<Follower>, AllocError>
    ensures { IfOk result (λ others. others.items ≡ filter (λ f. not (f.id == id)) followers.now) }
{
    followers
        .iter()
        .filter(|follower| follower.id != id)
        .copied()
        .collect(alloc)
}

/// The one whose identifier is less.
fn lesser(least: Option<Follower>, follower: &Follower) -> Option<Follower>
    ensures { result ≡ with_lesser least follower.now }
{
    match least {
        None => Some(*follower),
        Some(least) => {
            if follower.id < least.id {
                Some(*follower)
            } else {
                Some(least)
            }
        }
    }
}

/// The one of the least identifier.
pub fn least(followers: &[Follower]) -> Option<Follower>
    ensures { result ≡ least_of followers.now }
{
    let mut least = None;
    for follower in followers {
        least = lesser(least, follower);
    }
    least
}

/// The one of the next least identifier after this one.
fn next(alloc: Global, id: BridgeId, followers: &[Follower]) -> Result<Option<Follower>, AllocError>
    ensures { IfOk result (λ next. next ≡ next_of id followers.now) }
{
    let others = others(alloc, id, followers)?;
    Ok(least(others.as_slice()))
}

/// The priority of a bridge in a tree as a number.
fn priority(plan: &Settled, tree: Tree, bridge: &Name) -> u64
    ensures { result ≡ priority_of (by_tree plan.now.net) tree bridge.now }
{
    u64::from(plan.settings().tree_priority(bridge, tree).step()) * 4096
}

/// Puts the row of a root of this name that has this many followers, with the next of these.
fn put_root<R: Rows>(
    plan: &Settled,
    tree: Tree,
    name: &Name,
    count: u64,
    next: Option<Follower>,
    out: &mut R,
) -> Result<(), AllocError>
    ensures { (first : R) (rows : List Row) → R.grew first out.old rows → OnOk result (R.grew first out.new (rows ++ root_row (by_tree plan.now.net) tree name.now count next ∷ [])) }
{
    match next {
        None => put_alone(plan, tree, name, count, out),
        Some(next) => put_with_next(plan, tree, name, count, &next, out),
    }
}

/// Puts its row where there is no next.
fn put_alone<R: Rows>(
    plan: &Settled,
    tree: Tree,
    name: &Name,
    count: u64,
    out: &mut R,
) -> Result<(), AllocError>
    ensures { (first : R) (rows : List Row) → R.grew first out.old rows → OnOk result (R.grew first out.new (rows ++ root_row (by_tree plan.now.net) tree name.now count None ∷ [])) }
{
    let values = [
        Value::Number(u64::from(tree.value())),
        Value::Name(name),
        Value::Number(priority(plan, tree, name)),
        Value::Number(count),
        Value::Absent,
    ];
    put::<R>(Kind::Summary(SummaryLine::RootAlone), &values, out)
}

/// Puts its row with the next.
fn put_with_next<'a, R: Rows>(
    plan: &Settled,
    tree: Tree,
    name: &'a Name,
    count: u64,
    next: &'a Follower,
    out: &mut R,
) -> Result<(), AllocError>
    ensures { (first : R) (rows : List Row) → R.grew first out.old rows → OnOk result (R.grew first out.new (rows ++ root_row (by_tree plan.now.net) tree name.now count (Some next.now) ∷ [])) }
{
    let values = [
        Value::Number(u64::from(tree.value())),
        Value::Name(name),
        Value::Number(priority(plan, tree, name)),
        Value::Number(count),
        Value::Name(&next.name),
        Value::Number(priority(plan, tree, &next.name)),
    ];
    put::<R>(Kind::Summary(SummaryLine::Root), &values, out)
}

/// Whether there is one.
fn is_any(followers: &[Follower]) -> bool
    ensures { result ≡ has_any followers.now }
{
    match followers {
        [] => false,
        [..] => true,
    }
}

/// Puts the row of a bridge of this identifier with its followers, if it has one.
fn put_group<R: Rows>(
    alloc: Global,
    plan: &Settled,
    tree: Tree,
    name: &Name,
    id: BridgeId,
    group: &[Follower],
    out: &mut R,
) -> Result<(), AllocError>
    ensures { (first : R) (rows : List Row) → R.grew first out.old rows → OnOk result (R.grew first out.new (rows ++ group_rows (by_tree plan.now.net) tree name.now id group.now)) }
{
    if !is_any(group) {
        return Ok(());
    }
    let next = next(alloc, id, group)?;
    put_root(plan, tree, name, group.len() as u64, next, out)
}

/// Puts the row of a bridge, if it is the root of one of these, which are grouped by their roots.
fn put_bridge<R: Rows>(
    alloc: Global,
    plan: &Settled,
    tree: Tree,
    groups: &IndexMap<u64, Vec<Follower>>,
    bridge: &BridgeInView,
    out: &mut R,
) -> Result<(), AllocError>
    ensures { (followers : List FollowerIn) → ((id : ℕ) → group_at nat_eq groups.now id ≡ those_of id followers)
        → (first : R) (rows : List Row) → R.grew first out.old rows → OnOk result (R.grew first out.new (rows ++ seen_root plan.now tree followers bridge.now)) }
{
    let id = bridge_id(plan.settings(), tree, bridge);
    let group = group_for(groups, &id.number());
    put_group(alloc, plan, tree, &bridge.name, id, group, out)
}

/// Puts the rows of the bridges that are the root of one of these.
fn put_each<R: Rows>(
    alloc: Global,
    plan: &Settled,
    tree: Tree,
    followers: &[Follower],
    out: &mut R,
) -> Result<(), AllocError>
    ensures { (first : R) (rows : List Row) → R.grew first out.old rows → OnOk result (R.grew first out.new (rows ++ flat_map (seen_root plan.now tree followers.now) plan.now.view.bridges)) }
{
    let groups = by_root(alloc, followers)?;
    for bridge in plan.view().bridges() {
        put_bridge(alloc, plan, tree, &groups, bridge, out)?;
    }
    Ok(())
}

/// Puts the rows of the roots in a tree, in an MSTI of the regional roots, by name: the priority of each, how many
/// bridges name it, and which of these has the next least identifier.
///
/// It goes over the bridges that have the tree once to group them by their roots, and once more over each group.
pub(crate) fn put_roots<R: Rows>(
    alloc: Global,
    plan: &Settled,
    tree: Tree,
    out: &mut R,
) -> Result<(), AllocError>
    ensures { (first : R) (rows : List Row) → R.grew first out.old rows → OnOk result (R.grew first out.new (rows ++ flat_map (seen_root plan.now tree (followers_in plan.now.net (outcome_of plan.now) tree)) plan.now.view.bridges)) }
{
    let mut followers = Vec::new(alloc);
    push_followers(plan, tree, &mut followers)?;
    put_each(alloc, plan, tree, followers.as_slice(), out)
}
