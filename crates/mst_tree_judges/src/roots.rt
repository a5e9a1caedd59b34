ghost use Rattle.std.specs.Prelude.{◌≡◌, ◌==◌, ◌||◌, ◌++◌, ◌∷◌, [], not, false, ℕ, List, IfOk, OnOk, filter, filter_map, length, nat_eq, unwrap_or};
ghost use Rattle.std.specs.List.{Contains, find, flat_map};
ghost use Rattle.std.specs.Option.{option_copied, option_map, option_map_or};
ghost use Rattle.indexmap.specs.IndexMap.{get};
ghost use Rattle.mst_view.specs.Aggregation.{same_name};
ghost use Rattle.mst_view.specs.Viewed.{named_bridge};
ghost use Rattle.mst_roles.specs.forest.config.Regions.{same_region};
ghost use Rattle.mst_roles.specs.forest.Settled.{outcome_of};
ghost use Rattle.mst_graph.specs.Lists.{has_any};
ghost use Rattle.mst_judged.specs.reasons.summary.Roots.{least as least_of};
ghost use Rattle.mst_judged.specs.reasons.summary.declared.roots.Follower.{Follower as FollowerOf};
ghost use Rattle.mst_judged.specs.reasons.Reasons.{AreRootReasons, other_next as other_next_of};
ghost use Rattle.mst_tree_judges.specs.Seen.{concerned_follower, concerned_followers, seen_other_root};

use indexmap::IndexMap;
use mst_ids::{Name, Tree};
use mst_judged::{Follower, Judged, Reason, as_follower, least};
use mst_roles::forest_laws::nested;
use mst_roles::{Settled, bridge_id};
use mst_view::BridgeInView;
use std::alloc::{AllocError, Global};

/// The bridge of a name.
pub fn bridge_named<'a>(plan: &'a Settled, name: &Name) -> Option<&'a BridgeInView>
    ensures { option_copied result ≡ find (λ b. same_name b.name name.now) plan.now.view.bridges }
{
    plan.view()
        .bridges()
        .iter()
        .find(|bridge| bridge.name == *name)
}

/// Whether a bridge is of the region of the bridge of this name, which is this one, or the tree is the CIST.
fn is_of(
    plan: &Settled,
    tree: Tree,
    name: &Name,
    of: Option<&BridgeInView>,
    bridge: &BridgeInView,
) -> bool
    requires of { option_copied of ≡ find (λ b. same_name b.name name.now) plan.now.view.bridges }
    requires bridge { Contains plan.now.view.bridges bridge.now }
    ensures { result ≡ (tree == 0 || same_region plan.now.net name.now bridge.now.name) }
{
    plan.known();
    if tree.value() == 0 {
        return true;
    }
    match of {
        None => false,
        Some(of) => plan.forest().same(of.bridge.number, bridge.bridge.number),
    }
}

/// A bridge with the root that it names, if its root is asked of.
fn concerned(
    plan: &Settled,
    tree: Tree,
    name: &Name,
    of: Option<&BridgeInView>,
    bridge: &BridgeInView,
) -> Option<Follower>
    requires of { option_copied of ≡ find (λ b. same_name b.name name.now) plan.now.view.bridges }
    requires bridge { Contains plan.now.view.bridges bridge.now }
    ensures { result ≡ concerned_follower plan.now.net (outcome_of plan.now) tree name.now (named_bridge bridge.now) }
{
    if is_of(plan, tree, name, of, bridge) {
        as_follower(plan, tree, bridge)
    } else {
        None
    }
}

/// The bridges whose root is asked of, where it is asked whether the bridge of this name is the root of all: those that are on, have the tree
/// and, in a tree other than 0, are of its region. `AllocError`: memory was wanted and refused.
pub fn followers(
    alloc: Global,
    plan: &Settled,
    tree: Tree,
    name: &Name,
) -> Result<Vec<Follower>, AllocError>
    ensures { IfOk result (λ all. all.items ≡ concerned_followers plan.now.net (outcome_of plan.now) tree name.now) }
{
    plan.known();
    let of = bridge_named(plan, name);
    followers_by(alloc, plan, tree, name, of)
}

/// The bridges whose root is asked of, by the bridge of this name.
fn followers_by(
    alloc: Global,
    plan: &Settled,
    tree: Tree,
    name: &Name,
    of: Option<&BridgeInView>,
) -> Result<Vec<Follower>, AllocError>
    requires { option_copied of ≡ find (λ b. same_name b.name name.now) plan.now.view.bridges }
    ensures { IfOk result (λ all. all.items ≡ filter_map (λ b. concerned_follower plan.now.net (outcome_of plan.now) tree name.now (named_bridge b)) plan.now.view.bridges) }
{
    plan.view()
        .bridges()
        .iter()
        .filter_map(|bridge| concerned(plan, tree, name, of, bridge))
        .collect(alloc)
}

/// How many of these name each root, by the number of its identifier.
fn counts(alloc: Global, followers: &[Follower]) -> Result<IndexMap<u64, usize>, AllocError>
    ensures { IfOk result (λ counts. (id : ℕ) → unwrap_or (get nat_eq counts id) 0 ≡ length (filter (λ f. f.root == id) followers.now)) }
{
    let mut counts = IndexMap::new(alloc);
    for follower in followers {
        let root = follower.root.number();
        let count = count_of(&counts, root);
        counts.insert(root, count + 1)?;
    }
    Ok(counts)
}

/// How many name a root.
fn count_of(counts: &IndexMap<u64, usize>, id: u64) -> usize
    ensures { result ≡ unwrap_or (get nat_eq counts.now id) 0 }
{
    counts.get(&id).copied().unwrap_or(0)
}

/// Adds the reason of a bridge that is the root of some, if it isn't the one of this name.
fn add_other(
    plan: &Settled,
    tree: Tree,
    name: &Name,
    counts: &IndexMap<u64, usize>,
    bridge: &BridgeInView,
    reasons: &mut Vec<Reason>,
) -> Result<(), AllocError>
    ensures { (all : List FollowerOf) → ((id : ℕ) → unwrap_or (get nat_eq counts.now id) 0 ≡ length (filter (λ f. f.root == id) all))
        → OnOk result (reasons.new.items ≡ reasons.old.items ++ seen_other_root plan.now.net tree name.now all (named_bridge bridge.now)) }
{
    let id = bridge_id(plan.settings(), tree, bridge);
    let count = count_of(counts, id.number());
    if bridge.name == *name || count == 0 {
        return Ok(());
    }
    reasons.push(Reason::OtherRoot {
        tree,
        root: bridge.name,
        count: count as u64,
    })?;
    Ok(())
}

/// A reason for each bridge that is the root of some of these, but the one of this name. It takes about one step for each bridge.
fn others(
    alloc: Global,
    plan: &Settled,
    tree: Tree,
    name: &Name,
    followers: &[Follower],
) -> Result<Vec<Reason>, AllocError>
    ensures { IfOk result (λ reasons. reasons.items ≡ flat_map (λ b. seen_other_root plan.now.net tree name.now followers.now (named_bridge b)) plan.now.view.bridges) }
{
    let counts = counts(alloc, followers)?;
    let mut reasons = Vec::new(alloc);
    for bridge in plan.view().bridges() {
        add_other(plan, tree, name, &counts, bridge, &mut reasons)?;
    }
    Ok(reasons)
}

/// Those of these but the one of this name.
pub fn all_but(
    alloc: Global,
    name: &Name,
    followers: &[Follower],
) -> Result<Vec<Follower>, AllocError>
    ensures { IfOk result (λ others. others.items ≡ filter (λ f. not (same_name f.name name.now)) followers.now) }
{
    followers
        .iter()
        .filter(|follower| follower.name != *name)
        .copied()
        .collect(alloc)
}

/// The name of the next root after the one of this name.
fn next(alloc: Global, name: &Name, followers: &[Follower]) -> Result<Option<Name>, AllocError>
    ensures { IfOk result (λ next. next ≡ option_map (λ f. f.name) (least_of (filter (λ f. not (same_name f.name name.now)) followers.now))) }
{
    let others = all_but(alloc, name, followers)?;
    match least(others.as_slice()) {
        None => Ok(None),
        Some(next) => Ok(Some(next.name)),
    }
}

/// Whether the next root is the one that is wanted.
fn is_next(next: &Option<Name>, wanted: &Name) -> bool
    ensures { result ≡ option_map_or (same_name wanted.now) next.now false }
{
    match next {
        None => false,
        Some(next) => *wanted == *next,
    }
}

/// The reason where another comes next than is wanted.
fn other_next(
    alloc: Global,
    tree: Tree,
    name: &Name,
    wanted: &Name,
    next: Option<Name>,
) -> Result<Vec<Reason>, AllocError>
    ensures { IfOk result (λ reasons. reasons.items ≡ other_next_of tree name.now wanted.now next) }
{
    let mut reasons = Vec::new(alloc);
    if is_next(&next, wanted) {
        return Ok(reasons);
    }
    reasons.push(Reason::OtherNext {
        tree,
        root: *name,
        next,
    })?;
    Ok(reasons)
}

/// Whether there is a follower.
fn is_any(followers: &[Follower]) -> bool
    ensures { result ≡ has_any followers.now }
{
    match followers {
        [] => false,
        [..] => true,
    }
}

/// Whether there is a reason.
fn is_told(reasons: &[Reason]) -> bool
    ensures { result ≡ has_any reasons.now }
{
    match reasons {
        [] => false,
        [..] => true,
    }
}

/// The reason where no bridge has a root.
fn no_root(alloc: Global, tree: Tree) -> Result<Vec<Reason>, AllocError>
    ensures { IfOk result (λ reasons. reasons.items ≡ Reason.NoRoot tree ∷ []) }
{
    let mut reasons = Vec::new(alloc);
    reasons.push(Reason::NoRoot { tree })?;
    Ok(reasons)
}

/// Why a bridge isn't the one root of the bridges that are on, have the tree and, in a tree other than 0, are of its region, or another
/// isn't the next. `AllocError`: memory was wanted and refused.
pub fn root_reasons(
    alloc: Global,
    judged: &Judged,
    tree: Tree,
    name: &Name,
    wanted: &Option<Name>,
) -> Result<Vec<Reason>, AllocError>
    ensures { IfOk result (λ reasons. AreRootReasons judged.now.plan.now.net (outcome_of judged.now.plan.now) tree name.now wanted.now reasons.items) }
{
    let plan = judged.plan;
    plan.known();
    nested();
    let followers = followers(alloc, plan, tree, name)?;
    if !is_any(followers.as_slice()) {
        return no_root(alloc, tree);
    }
    let others = others(alloc, plan, tree, name, followers.as_slice())?;
    if is_told(others.as_slice()) {
        return Ok(others);
    }
    match wanted {
        None => Ok(others),
        Some(wanted) => {
            let next = next(alloc, name, followers.as_slice())?;
            other_next(alloc, tree, name, wanted, next)
        }
    }
}
