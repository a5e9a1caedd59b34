ghost use Rattle.std.specs.Prelude.{◌≡◌, ◌++◌, ◌∷◌, [], ℕ, List, Some, None, cond, IfOk, OnOk, map, filter};
ghost use Rattle.std.specs.List.{flat_map};
ghost use Rattle.indexmap.specs.IndexMap.{get};
ghost use Rattle.mst_view.specs.Aggregation.{same_name};
ghost use Rattle.mst_roles.specs.forest.Settled.{outcome_of};
ghost use Rattle.mst_judged.specs.reasons.Named.{named as named_in};
ghost use Rattle.mst_judged.specs.reasons.Reasons.{AreLeafReasons, leaf_reason};
ghost use Rattle.mst_tree_judges.specs.Seen.{names_at, is_child_of};

use indexmap::IndexMap;
use mst_ids::{Name, Tree};
use mst_judged::{BridgeNames, Child, Judged, Reason, children_of, named};
use mst_policy::NameList;
use mst_roles::forest_laws::nested;
use mst_view::BridgeInView;
use std::alloc::{AllocError, Global};

/// The names of the children of each bridge that has some, by the names of the parents. It takes about one step for each child.
fn by_parent(alloc: Global, children: &[Child]) -> Result<IndexMap<Name, Vec<Name>>, AllocError>
    ensures { IfOk result (λ kept. (parent : List ℕ) → names_at kept parent ≡ map (λ c. c.name) (filter (is_child_of parent) children.now)) }
{
    let mut kept = IndexMap::new(alloc);
    for child in children {
        if let Some(parent) = &child.parent {
            add(alloc, &child.name, parent, &mut kept)?;
        }
    }
    Ok(kept)
}

/// Adds a bridge to the children of its parent.
fn add(
    alloc: Global,
    child: &Name,
    parent: &Name,
    kept: &mut IndexMap<Name, Vec<Name>>,
) -> Result<(), AllocError>
    ensures { OnOk result ((q : List ℕ) → names_at kept.new q ≡ names_at kept.old q ++ cond (same_name parent.now q) (child.now ∷ []) []) }
{
    let mut names = taken(alloc, parent, kept);
    names.push(*child)?;
    kept.insert(*parent, names)?;
    Ok(())
}

/// What is kept for a bridge, which is taken away.
fn taken(alloc: Global, parent: &Name, kept: &mut IndexMap<Name, Vec<Name>>) -> Vec<Name>
    ensures kept { result.items ≡ names_at kept.old parent.now }
    ensures gone { (q : List ℕ) → get same_name kept.new q ≡ cond (same_name parent.now q) None (get same_name kept.old q) }
{
    match kept.swap_remove(parent) {
        Some(names) => names,
        None => Vec::new(alloc),
    }
}

/// The names of the children of a bridge.
fn children_at<'a>(kept: &'a IndexMap<Name, Vec<Name>>, parent: &Name) -> &'a [Name]
    ensures { result.now ≡ names_at kept.now parent.now }
{
    match kept.get(parent) {
        Some(names) => names.as_slice(),
        None => &[],
    }
}

/// Adds the reason of a bridge that is the parent of some.
fn add_parent(
    alloc: Global,
    tree: Tree,
    bridge: &Name,
    children: &[Name],
    reasons: &mut Vec<Reason>,
) -> Result<(), AllocError>
    ensures { OnOk result (reasons.new.items ≡ reasons.old.items ++ leaf_reason tree bridge.now children.now) }
{
    if let [_, ..] = children {
        reasons.push(Reason::Leaf {
            tree,
            bridge: *bridge,
            children: BridgeNames::of(Vec::from_slice(alloc, children)?),
        })?;
    }
    Ok(())
}

/// The reasons of those of these bridges that are the parents of some.
fn parents(
    alloc: Global,
    tree: Tree,
    kept: &IndexMap<Name, Vec<Name>>,
    bridges: &[BridgeInView],
) -> Result<Vec<Reason>, AllocError>
    ensures { IfOk result (λ reasons. reasons.items ≡ flat_map (λ b. leaf_reason tree b.name (names_at kept.now b.name)) bridges.now) }
{
    let mut reasons = Vec::new(alloc);
    for bridge in bridges {
        let children = children_at(kept, &bridge.name);
        add_parent(alloc, tree, &bridge.name, children, &mut reasons)?;
    }
    Ok(reasons)
}

/// Which of these bridges are the parents of some in a tree. `AllocError`: memory was wanted and refused.
pub fn leaf_reasons(
    alloc: Global,
    judged: &Judged,
    tree: Tree,
    names: &NameList,
) -> Result<Vec<Reason>, AllocError>
    ensures { IfOk result (λ reasons. AreLeafReasons judged.now.plan.now.net (outcome_of judged.now.plan.now) tree (named_in judged.now.plan.now.net judged.now.lost.now names.now) reasons.items) }
{
    judged.plan.known();
    nested();
    let children = children_of(alloc, judged.plan, tree)?;
    let kept = by_parent(alloc, children.as_slice())?;
    let bridges = named(alloc, judged, names)?;
    parents(alloc, tree, &kept, bridges.as_slice())
}
