ghost use Rattle.std.specs.Prelude.{◌≡◌, ◌≤◌, ◌++◌, ◌∷◌, [], IfOk, OnOk, filter_map};
ghost use Rattle.std.specs.List.{Contains};
ghost use Rattle.std.specs.Option.{option_map_or};
ghost use Rattle.mst_ids.specs.Identifiers.{bridge_id as bridge_id_of};
ghost use Rattle.mst_roles.specs.forest.Settled.{outcome_of};
ghost use Rattle.mst_verify.specs.tree_judges.judged.reasons.Roots.{identifier as identifier_in};
ghost use Rattle.mst_advise.specs.Priorities.{below_own, greatest_priority, greatest_upto, lower_priorities, others as others_of, priorities as priorities_of, root_settings as root_settings_of, set_priority};
ghost use Rattle.mst_advise.specs.Seen.{ids_of as ids, seen_first, seen_next, seen_others};

use crate::setting::Setting;
use mst_ids::{BridgeId, Mac, Name, Priority, Tree};
use mst_roles::{Settled, bridge_id};
use mst_verify::{Follower, all_but, bridge_named, followers};
use mst_view::BridgeInView;
use std::alloc::{AllocError, Global};

/// The other bridges in question, where it is asked whether this one is the root.
fn others(
    alloc: Global,
    plan: &Settled,
    tree: Tree,
    name: &Name,
) -> Result<Vec<Follower>, AllocError>
    ensures { IfOk result (λ others. others.items ≡ seen_others plan.now.net (outcome_of plan.now) tree name.now) }
{
    let followers = followers(alloc, plan, tree, name)?;
    all_but(alloc, name, followers.as_slice())
}

/// The identifiers of these.
fn ids_of(alloc: Global, followers: &[Follower]) -> Result<Vec<BridgeId>, AllocError>
    ensures { IfOk result (λ all. all.items ≡ ids followers.now) }
{
    followers.iter().map(|follower| follower.id).collect(alloc)
}

/// Whether a bridge of this MAC address and this priority has a lesser identifier than each of these.
fn comes_first(priority: Priority, tree: Tree, mac: Mac, ids: &[BridgeId]) -> bool
    ensures { result ≡ seen_first tree mac ids.now priority }
{
    let own = BridgeId::new(priority, tree, mac);
    ids.iter().all(|id| own < *id)
}

/// The priority of this many steps.
fn priority_of(step: u64) -> Priority
    requires { step ≤ 15 }
    ensures { result ≡ step }
{
    Priority::new(step).unwrap()
}

/// The greatest priority up to this one with which it has.
fn greatest(step: u64, tree: Tree, mac: Mac, ids: &[BridgeId]) -> Option<Priority>
    requires { step ≤ 15 }
    ensures { result ≡ greatest_upto (seen_first tree mac ids.now) step }
{
    let priority = priority_of(step);
    if comes_first(priority, tree, mac, ids) {
        return Some(priority);
    }
    if step == 0 {
        None
    } else {
        greatest(step - 1, tree, mac, ids)
    }
}

/// The greatest priority with which a bridge comes before these.
fn before_all(
    alloc: Global,
    tree: Tree,
    mac: Mac,
    others: &[Follower],
) -> Result<Option<Priority>, AllocError>
    ensures { IfOk result (λ priority. priority ≡ greatest_upto (seen_first tree mac (ids others.now)) 15) }
{
    let ids = ids_of(alloc, others)?;
    Ok(greatest(15, tree, mac, ids.as_slice()))
}

/// The next priority after the best one for a bridge whose identifier is less than the best of another.
fn next_priority(tree: Tree, best: BridgeId, other: &Follower) -> Option<Setting>
    ensures { result ≡ seen_next tree best other.now }
{
    if other.id < best {
        Some(Setting::Priority {
            bridge: other.name,
            tree,
            priority: priority_of(1),
        })
    } else {
        None
    }
}

/// The next priority for those of these bridges.
fn next_priorities(
    alloc: Global,
    tree: Tree,
    best: BridgeId,
    others: &[Follower],
) -> Result<Vec<Setting>, AllocError>
    ensures { IfOk result (λ settings. settings.items ≡ filter_map (seen_next tree best) others.now) }
{
    others
        .iter()
        .filter_map(|other| next_priority(tree, best, other))
        .collect(alloc)
}

/// Adds a priority for a bridge, unless the bridge has it already.
fn add_priority(
    plan: &Settled,
    tree: Tree,
    name: &Name,
    priority: Priority,
    found: &mut Vec<Setting>,
) -> Result<(), AllocError>
    ensures { OnOk result (found.new.items ≡ found.old.items ++ set_priority plan.now.net tree name.now priority) }
{
    if plan.settings().tree_priority(name, tree) == priority {
        return Ok(());
    }
    found.push(Setting::Priority {
        bridge: *name,
        tree,
        priority,
    })?;
    Ok(())
}

/// The best priority for a bridge, and the next for those that come before it still.
fn best_priorities(
    alloc: Global,
    plan: &Settled,
    tree: Tree,
    name: &Name,
    mac: Mac,
    others: &[Follower],
) -> Result<Vec<Setting>, AllocError>
    ensures { IfOk result (λ settings. settings.items ≡ set_priority plan.now.net tree name.now 0 ++ filter_map (seen_next tree (bridge_id_of 0 tree mac)) others.now) }
{
    let priority = priority_of(0);
    let next = next_priorities(alloc, tree, BridgeId::new(priority, tree, mac), others)?;
    let mut settings = Vec::new(alloc);
    add_priority(plan, tree, name, priority, &mut settings)?;
    settings.extend_from_slice(next.as_slice())?;
    Ok(settings)
}

/// What is set of the priorities of a bridge and of the others in question, by the greatest that suffices.
fn priorities(
    alloc: Global,
    plan: &Settled,
    tree: Tree,
    name: &Name,
    mac: Mac,
    others: &[Follower],
    greatest: Option<Priority>,
) -> Result<Vec<Setting>, AllocError>
    requires { others.now ≡ seen_others plan.now.net (outcome_of plan.now) tree name.now }
    ensures { IfOk result (λ settings. settings.items ≡ priorities_of plan.now.net tree name.now mac (others_of plan.now.net (outcome_of plan.now) tree name.now) greatest) }
{
    match greatest {
        Some(priority) => {
            let mut settings = Vec::new(alloc);
            add_priority(plan, tree, name, priority, &mut settings)?;
            Ok(settings)
        }
        None => best_priorities(alloc, plan, tree, name, mac, others),
    }
}

/// What is set where a bridge of the view is to be the root.
fn settings_of(
    alloc: Global,
    plan: &Settled,
    tree: Tree,
    bridge: &BridgeInView,
) -> Result<Vec<Setting>, AllocError>
    requires { Contains plan.now.view.bridges bridge.now }
    ensures { IfOk result (λ settings. settings.items ≡ root_settings_of plan.now.net (outcome_of plan.now) tree bridge.now.name) }
{
    plan.known();
    let mac = bridge.bridge.mac;
    let others = others(alloc, plan, tree, &bridge.name)?;
    let greatest = before_all(alloc, tree, mac, others.as_slice())?;
    priorities(
        alloc,
        plan,
        tree,
        &bridge.name,
        mac,
        others.as_slice(),
        greatest,
    )
}

/// What is set where a bridge is to be the root of a tree: its greatest priority with which its identifier is less than those of all other
/// bridges that are asked of, or where none suffices the least, and the next for those that come before it still; each only where it isn't
/// so already. `AllocError`: memory was wanted and refused.
///
/// It goes once over the bridges.
pub fn root_settings(
    alloc: Global,
    plan: &Settled,
    tree: Tree,
    name: &Name,
) -> Result<Vec<Setting>, AllocError>
    ensures { IfOk result (λ settings. settings.items ≡ root_settings_of plan.now.net (outcome_of plan.now) tree name.now) }
{
    plan.known();
    match bridge_named(plan, name) {
        None => Ok(Vec::new(alloc)),
        Some(bridge) => settings_of(alloc, plan, tree, bridge),
    }
}

/// The identifier in a tree of the bridge of this name, if there is one.
fn identifier(plan: &Settled, tree: Tree, name: &Name) -> Option<BridgeId>
    ensures { option_map_or (λ id. id) result 0 ≡ identifier_in plan.now.net tree name.now }
{
    plan.known();
    match bridge_named(plan, name) {
        None => None,
        Some(bridge) => Some(bridge_id(plan.settings(), tree, bridge)),
    }
}

/// The greatest priority with which a bridge of this MAC address comes before the bridge of this name.
fn before_one(plan: &Settled, tree: Tree, mac: Mac, other: &Name) -> Option<Priority>
    ensures { result ≡ greatest_priority plan.now.net tree mac (other.now ∷ []) }
{
    match identifier(plan, tree, other) {
        None => None,
        Some(id) => greatest(15, tree, mac, &[id]),
    }
}

/// Adds a priority for a bridge, if there is one and it is below the bridge's own.
fn add_below(
    plan: &Settled,
    tree: Tree,
    name: &Name,
    priority: Option<Priority>,
    found: &mut Vec<Setting>,
) -> Result<(), AllocError>
    ensures { OnOk result (found.new.items ≡ found.old.items ++ below_own plan.now.net tree name.now priority) }
{
    let Some(priority) = priority else {
        return Ok(());
    };
    let own = plan.settings().tree_priority(name, tree);
    if priority.step() < own.step() {
        found.push(Setting::Priority {
            bridge: *name,
            tree,
            priority,
        })?;
        return Ok(());
    }
    Ok(())
}

/// Adds the greatest priorities below its own with which a bridge of the view comes before the bridge of this name, and before all others
/// in question.
fn add_lower_of(
    alloc: Global,
    plan: &Settled,
    tree: Tree,
    bridge: &BridgeInView,
    other: &Name,
    found: &mut Vec<Setting>,
) -> Result<(), AllocError>
    requires { Contains plan.now.view.bridges bridge.now }
    ensures { OnOk result (found.new.items ≡ found.old.items ++ lower_priorities plan.now.net (outcome_of plan.now) tree bridge.now.name other.now) }
{
    plan.known();
    let mac = bridge.bridge.mac;
    let others = others(alloc, plan, tree, &bridge.name)?;
    let all = before_all(alloc, tree, mac, others.as_slice())?;
    let one = before_one(plan, tree, mac, other);
    add_below(plan, tree, &bridge.name, one, found)?;
    add_below(plan, tree, &bridge.name, all, found)
}

/// Adds these of the bridge of this name, if there is one.
pub(crate) fn add_lower_priorities(
    alloc: Global,
    plan: &Settled,
    tree: Tree,
    name: &Name,
    other: &Name,
    found: &mut Vec<Setting>,
) -> Result<(), AllocError>
    ensures { OnOk result (found.new.items ≡ found.old.items ++ lower_priorities plan.now.net (outcome_of plan.now) tree name.now other.now) }
{
    plan.known();
    match bridge_named(plan, name) {
        None => Ok(()),
        Some(bridge) => add_lower_of(alloc, plan, tree, bridge, other, found),
    }
}
