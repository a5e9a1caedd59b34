ghost use Rattle.std.specs.Prelude.{◌≡◌, ◌++◌, ◌∷◌, [], ◌&&◌, ◌||◌, not, false, ℕ, List, IfOk, OnOk, filter, map};
ghost use Rattle.std.specs.HashSet.{contains};
ghost use Rattle.std.specs.List.{list_any};
ghost use Rattle.std.specs.Option.{option_map_or};
ghost use Rattle.mst_graph.specs.Lists.{has_any, with_new};
ghost use Rattle.mst_plan.specs.forest.InUse.{AreInUse};
ghost use Rattle.mst_view.specs.Aggregation.{same_name};
ghost use Rattle.mst_sweep.specs.facts.Both.{seen_both};
ghost use Rattle.mst_sweep.specs.Between.{OfNetworks};
ghost use Rattle.mst_sweeping.specs.Links.{same_link};
ghost use Rattle.mst_sweeping.specs.Seen.{seen_takes_part, seen_turns, seen_way_out, seen_ways_out, turning_of, HaveOtherWays};
ghost use Rattle.mst_sweeping.specs.Turns.{leads_out as leads_out_by, lists_of as all_lists_of, same_bridges, turned as all_turned, turning as all_turning};
ghost use Rattle.mst_sweeping.specs.declared.links.Link.{Link as LinkOf};

use crate::links::Link;
use indexmap::IndexSet;
use mst_ids::{Name, Tree};
use mst_plan::{is_had, trees_in_use};
use mst_roles::{Role, has_tree, port_role};
use mst_sweep::{Both, Planned};
use mst_view::{BridgeInView, PortInView, View};
use std::alloc::{AllocError, Global};

/// The bridges that turn in a tree.
#[derive(Drop)]
pub(crate) struct TreeTurns {
    pub(crate) tree: Tree,
    pub(crate) bridges: Vec<Name>,
}

/// Whether a port that has this role in a tree, if any, leads its bridge out.
fn leads_out(role: Option<Role>) -> bool
    ensures { result ≡ option_map_or leads_out_by role false }
{
    match role {
        Some(Role::Root) => true,
        Some(Role::Master) => true,
        _ => false,
    }
}

/// Whether a port is a way out of its bridge in a tree.
fn is_way_out(plan: &Planned, tree: Tree, port: &PortInView) -> bool
    ensures { result ≡ seen_way_out plan.now.view.now plan.now.forest.now tree port.now }
{
    leads_out(port_role(plan.view, plan.forest, port, tree))
}

/// The ways out of all bridges in a tree.
fn ways_out(alloc: Global, plan: &Planned, tree: Tree) -> Result<Vec<Link>, AllocError>
    ensures { IfOk result (λ ways. ways.items ≡ seen_ways_out plan.now.view.now plan.now.forest.now tree) }
{
    plan.view
        .ports()
        .iter()
        .filter(|port| is_way_out(plan, tree, port))
        .map(|port| Link {
            port: port.name,
            lan: port.lan,
        })
        .collect(alloc)
}

/// These links, to be looked up by hash.
fn set_of_links(alloc: Global, links: &[Link]) -> Result<IndexSet<Link>, AllocError>
    ensures { IfOk result (λ set. (link : LinkOf) → contains same_link set link ≡ list_any (λ other. same_link other link) links.now) }
{
    let mut set = IndexSet::new(alloc);
    for link in links {
        set.insert(*link)?;
    }
    Ok(set)
}

/// Puts the bridges of those of these ways that aren't among others to the bridges that are there.
fn add_own(
    ways: &[Link],
    others: &IndexSet<Link>,
    bridges: &mut IndexSet<Name>,
) -> Result<(), AllocError>
    ensures { OnOk result ((name : List ℕ) → contains same_name bridges.new name
        ≡ (contains same_name bridges.old name || list_any (λ way. same_name way.port.bridge name && not (contains same_link others.now way)) ways.now)) }
{
    for way in ways {
        if !others.contains(way) {
            bridges.insert(way.port.bridge)?;
        }
    }
    Ok(())
}

/// The bridges that have a way in one of two networks that isn't one in the other.
fn with_other_ways(
    alloc: Global,
    before: &[Link],
    afterwards: &[Link],
) -> Result<IndexSet<Name>, AllocError>
    ensures { IfOk result (λ bridges. HaveOtherWays before.now afterwards.now (contains same_name bridges)) }
{
    let old_ways = set_of_links(alloc, before)?;
    let new_ways = set_of_links(alloc, afterwards)?;
    let mut bridges = IndexSet::new(alloc);
    add_own(before, &new_ways, &mut bridges)?;
    add_own(afterwards, &old_ways, &mut bridges)?;
    Ok(bridges)
}

/// Whether a bridge takes part in a tree: it is on, and has the tree.
fn takes_part(view: &View, tree: Tree, bridge: &BridgeInView) -> bool
    ensures { result ≡ seen_takes_part view.now tree bridge.now }
{
    bridge.bridge.is_on() && has_tree(view, bridge.bridge.number, tree)
}

/// Whether a bridge takes part in a tree before and afterwards, and is one of these.
fn turns(old: &View, new: &View, tree: Tree, others: &IndexSet<Name>, bridge: &Both) -> bool
    ensures { result ≡ seen_turns (contains same_name others.now) old.now new.now tree bridge.now }
{
    takes_part(old, tree, &bridge.old)
        && takes_part(new, tree, &bridge.new)
        && others.contains(&bridge.old.name)
}

/// Those of these bridges of which it is so, by name.
fn turned_of(
    alloc: Global,
    old: &View,
    new: &View,
    tree: Tree,
    others: &IndexSet<Name>,
    both: &[Both],
) -> Result<Vec<Name>, AllocError>
    ensures { IfOk result (λ names. names.items
        ≡ map (λ bridge. bridge.old.name) (filter (seen_turns (contains same_name others.now) old.now new.now tree) both.now)) }
{
    both.iter()
        .filter(|bridge| turns(old, new, tree, others, bridge))
        .map(|bridge| bridge.old.name)
        .collect(alloc)
}

/// The bridges that turn in a tree: none where no bridge of the old network has it.
fn turned(
    alloc: Global,
    old: &Planned,
    new: &Planned,
    used: &[bool; 4095],
    tree: Tree,
    both: &[Both],
) -> Result<Vec<Name>, AllocError>
    requires used { AreInUse old.now.view.now used.now }
    requires both { both.now ≡ seen_both old.now.view.now new.now.view.now }
    ensures { IfOk result (λ names. OfNetworks old.now new.now (λ a before b afterwards. names.items ≡ all_turned a before b afterwards tree)) }
{
    if !is_had(used, tree) {
        return Ok(Vec::new(alloc));
    }
    let before = ways_out(alloc, old, tree)?;
    let afterwards = ways_out(alloc, new, tree)?;
    let others = with_other_ways(alloc, before.as_slice(), afterwards.as_slice())?;
    turned_of(alloc, old.view, new.view, tree, &others, both)
}

/// Puts a tree with the bridges that turn in it behind others, if there are such bridges.
fn add_tree(tree: Tree, bridges: Vec<Name>, turning: &mut Vec<TreeTurns>) -> Result<(), AllocError>
    ensures { OnOk result (map turning_of turning.new.items ≡ map turning_of turning.old.items ++ filter (λ t. has_any t.1) ((tree, bridges.items) ∷ [])) }
{
    if bridges.is_empty() {
        return Ok(());
    }
    turning.push(TreeTurns { tree, bridges })?;
    Ok(())
}

/// The trees, rising, in which some of these bridges turn between two networks, each with those that do. `AllocError`: memory was
/// wanted and refused.
///
/// For each tree that the old network has it goes over the ports of both networks and over these bridges once.
pub(crate) fn turning(
    alloc: Global,
    old: &Planned,
    new: &Planned,
    both: &[Both],
) -> Result<Vec<TreeTurns>, AllocError>
    requires { both.now ≡ seen_both old.now.view.now new.now.view.now }
    ensures { IfOk result (λ turning. OfNetworks old.now new.now (λ a before b afterwards. map turning_of turning.items ≡ all_turning a before b afterwards)) }
{
    let used = trees_in_use(old.view);
    let mut turning = Vec::new(alloc);
    for number in 0..4095 {
        if let Some(tree) = Tree::new(number) {
            let bridges = turned(alloc, old, new, &used, tree, both)?;
            add_tree(tree, bridges, &mut turning)?;
        }
    }
    Ok(turning)
}

/// Whether a list is that of these bridges.
fn is_list_of(list: &Vec<Name>, bridges: &[Name]) -> bool
    ensures { result ≡ same_bridges list.now.items bridges.now }
{
    list.as_slice() == bridges
}

/// Whether the list of these bridges is among some.
fn is_among(lists: &[Vec<Name>], bridges: &[Name]) -> bool
    ensures { result ≡ list_any (λ list. same_bridges list.items bridges.now) lists.now }
{
    lists.iter().any(|list| is_list_of(list, bridges))
}

/// Puts a list of bridges behind these, unless it is among them.
fn add_new(alloc: Global, bridges: &[Name], lists: &mut Vec<Vec<Name>>) -> Result<(), AllocError>
    ensures { OnOk result (map (λ list. list.items) lists.new.items ≡ with_new same_bridges (map (λ list. list.items) lists.old.items) bridges.now) }
{
    if is_among(lists.as_slice(), bridges) {
        return Ok(());
    }
    lists.push(Vec::from_slice(alloc, bridges)?)?;
    Ok(())
}

/// The lists of bridges that turn in some of these trees, each once, by the first tree. `AllocError`: memory was wanted and refused.
pub(crate) fn lists_of(alloc: Global, turning: &[TreeTurns]) -> Result<Vec<Vec<Name>>, AllocError>
    ensures { IfOk result (λ lists. map (λ list. list.items) lists.items ≡ all_lists_of (map turning_of turning.now)) }
{
    let mut lists = Vec::new(alloc);
    for in_tree in turning {
        add_new(alloc, in_tree.bridges.as_slice(), &mut lists)?;
    }
    Ok(lists)
}

/// Those of these trees in which just these bridges turn. `AllocError`: memory was wanted and refused.
pub(crate) fn trees_with(
    alloc: Global,
    turning: &[TreeTurns],
    bridges: &[Name],
) -> Result<Vec<Tree>, AllocError>
    ensures { IfOk result (λ trees. trees.items ≡ map (λ t. t.tree) (filter (λ t. same_bridges t.bridges.items bridges.now) turning.now)) }
{
    turning
        .iter()
        .filter(|in_tree| is_list_of(&in_tree.bridges, bridges))
        .map(|in_tree| in_tree.tree)
        .collect(alloc)
}
