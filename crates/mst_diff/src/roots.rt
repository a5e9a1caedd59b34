ghost use Rattle.std.specs.Prelude.{◌≡◌, ◌++◌, ◌∷◌, [], List, IfOk, OnOk, filter_map, map};
ghost use Rattle.std.specs.List.{AllByRecursion, Contains, flat_map, list_any};
ghost use Rattle.mst_vlan.specs.forest.Settled.{outcome_of};
ghost use Rattle.mst_rows.specs.Rows.{Row};
ghost use Rattle.mst_facts.specs.Roots.{root_name as root_name_in};
ghost use Rattle.mst_diff.specs.Roots.{same_pair, root_unless};
ghost use Rattle.mst_graph.specs.Lists.{with_new, each_once};
ghost use Rattle.mst_facts.specs.Both.{IsBoth};
ghost use Rattle.mst_facts.specs.Named.{seen_named, name_by};
ghost use Rattle.mst_diff.specs.Seen.{pair_of, with_pair, roots_of, row_of_root};

use crate::change::Change;
use mst_facts::{Both, Identified, root_of};
use mst_ids::{BridgeId, Name, Tree};
use mst_kinds::{ChangeLine, Kind};
use mst_rows::{Rows, Value, put};
use mst_view::{BridgeInView, View};
use mst_vlan::{Settled, bridge_id};
use std::alloc::{AllocError, Global};

/// The names of a bridge's root before and after.
#[derive(Clone, Copy)]
pub(crate) struct RootPair {
    pub(crate) old: Name,
    pub(crate) new: Name,
}

/// A tree and the names of a root in it before and after.
#[derive(Clone, Copy)]
pub(crate) struct RootChange {
    pub(crate) tree: Tree,
    pub(crate) pair: RootPair,
}

/// Two settled networks, a tree, and the bridges of each with their identifiers in it.
#[derive(Clone, Copy)]
struct InTree<'a> {
    old: &'a Settled<'a>,
    new: &'a Settled<'a>,
    tree: Tree,
    olds: &'a [Identified],
    news: &'a [Identified],
    ghost are_olds: { olds.now ≡ seen_named old.now.view tree },
    ghost are_news: { news.now ≡ seen_named new.now.view tree },
}

/// The bridges of a view with their identifiers in a tree.
fn named(alloc: Global, view: &View, tree: Tree) -> Result<Vec<Identified>, AllocError>
    ensures { IfOk result (λ named. named.items ≡ seen_named view.now tree) }
{
    view.bridges()
        .iter()
        .map(|bridge| Identified {
            id: bridge_id(view.settings(), tree, bridge),
            name: bridge.name,
        })
        .collect(alloc)
}

/// The name of the bridge that has an identifier.
fn name_of(named: &[Identified], id: BridgeId) -> Option<Name>
    ensures { result ≡ name_by named.now id }
{
    let found = named.iter().find(|bridge| bridge.id == id)?;
    Some(found.name)
}

/// The name of the root of a bridge, where these are the bridges with their identifiers in the tree.
fn root_name(
    plan: &Settled,
    named: &[Identified],
    tree: Tree,
    bridge: &BridgeInView,
) -> Option<Name>
    requires named { named.now ≡ seen_named plan.now.view tree }
    requires bridge { Contains plan.now.view.bridges bridge.now }
    ensures { result ≡ root_name_in plan.now.net (outcome_of plan.now) tree bridge.now.name }
{
    plan.known();
    let id = root_of(plan, tree, bridge)?;
    name_of(named, id)
}

/// The names of a bridge's root before and after, where it has both.
fn pair(shared: &InTree, bridge: &Both) -> Option<RootPair>
    requires { IsBoth shared.now.old.now.view shared.now.new.now.view bridge.now }
    ensures { result ≡ pair_of shared.now.old.now shared.now.new.now shared.now.tree bridge.now }
{
    let before = root_name(shared.old, shared.olds, shared.tree, &bridge.old)?;
    let after = root_name(shared.new, shared.news, shared.tree, &bridge.new)?;
    Some(RootPair {
        old: before,
        new: after,
    })
}

/// Whether a pair is among these.
fn is_among(pairs: &[RootPair], pair: &RootPair) -> bool
    ensures { result ≡ list_any (λ other. same_pair other pair.now) pairs.now }
{
    pairs
        .iter()
        .any(|other| other.old == pair.old && other.new == pair.new)
}

/// Puts a pair behind these, unless it is among them.
fn add(pair: &RootPair, pairs: &mut Vec<RootPair>) -> Result<(), AllocError>
    ensures { OnOk result (pairs.new.items ≡ with_new same_pair pairs.old.items pair.now) }
{
    if is_among(pairs.as_slice(), pair) {
        return Ok(());
    }
    pairs.push(*pair)?;
    Ok(())
}

/// Puts the pair of a bridge, if it has one, behind these, unless it is among them.
fn add_pair(shared: &InTree, bridge: &Both, pairs: &mut Vec<RootPair>) -> Result<(), AllocError>
    requires { IsBoth shared.now.old.now.view shared.now.new.now.view bridge.now }
    ensures { OnOk result (pairs.new.items ≡ with_pair pairs.old.items (pair_of shared.now.old.now shared.now.new.now shared.now.tree bridge.now)) }
{
    match pair(shared, bridge) {
        None => Ok(()),
        Some(pair) => add(&pair, pairs),
    }
}

/// The pairs that these bridges have, each once, in the order in which they come first.
fn pairs(alloc: Global, shared: &InTree, both: &[Both]) -> Result<Vec<RootPair>, AllocError>
    requires { AllByRecursion (IsBoth shared.now.old.now.view shared.now.new.now.view) both.now }
    ensures { IfOk result (λ pairs. pairs.items ≡ each_once same_pair (filter_map (pair_of shared.now.old.now shared.now.new.now shared.now.tree) both.now)) }
{
    let mut pairs = Vec::new(alloc);
    for bridge in both {
        add_pair(shared, bridge, &mut pairs)?;
    }
    Ok(pairs)
}

/// Puts a pair behind these, if its two names differ.
fn add_change(tree: Tree, pair: &RootPair, changes: &mut Vec<RootChange>) -> Result<(), AllocError>
    ensures { OnOk result (map row_of_root changes.new.items ≡ map row_of_root changes.old.items ++ root_unless tree pair.now) }
{
    if pair.old == pair.new {
        return Ok(());
    }
    changes.push(RootChange { tree, pair: *pair })?;
    Ok(())
}

/// Puts those of these pairs whose two names differ behind these.
fn add_changes(
    tree: Tree,
    pairs: &[RootPair],
    changes: &mut Vec<RootChange>,
) -> Result<(), AllocError>
    ensures { OnOk result (map row_of_root changes.new.items ≡ map row_of_root changes.old.items ++ flat_map (root_unless tree) pairs.now) }
{
    for pair in pairs {
        add_change(tree, pair, changes)?;
    }
    Ok(())
}

/// Puts the changes of a tree behind these: each pair of roots, in an MSTI of regional roots, that differ and that some
/// of the bridges of both has before and after, once.
pub(crate) fn add_tree(
    alloc: Global,
    change: &Change,
    tree: Tree,
    changes: &mut Vec<RootChange>,
) -> Result<(), AllocError>
    ensures { OnOk result (map row_of_root changes.new.items ≡ map row_of_root changes.old.items ++ roots_of change.now.old.now change.now.new.now tree) }
{
    change.old.known();
    change.new.known();
    let olds = named(alloc, change.old.view(), tree)?;
    let news = named(alloc, change.new.view(), tree)?;
    let shared = InTree {
        old: change.old,
        new: change.new,
        tree,
        olds: olds.as_slice(),
        news: news.as_slice(),
    };
    let pairs = pairs(alloc, &shared, change.both)?;
    add_changes(tree, pairs.as_slice(), changes)
}

/// Puts the row of a root that is another one.
pub(crate) fn put_root<R: Rows>(change: &RootChange, out: &mut R) -> Result<(), AllocError>
    ensures { (first : R) (rows : List Row) → R.grew first out.old rows → OnOk result (R.grew first out.new (rows ++ row_of_root change.now ∷ [])) }
{
    let values = [
        Value::Number(u64::from(change.tree.value())),
        Value::Name(&change.pair.old),
        Value::Name(&change.pair.new),
    ];
    put::<R>(Kind::Change(ChangeLine::Root), &values, out)
}
