ghost use Rattle.std.specs.Prelude.{◌≡◌, ◌&&◌, ◌++◌, ◌∷◌, [], map};
ghost use Rattle.std.specs.List.{list_all, list_any};
ghost use Rattle.mst_policy.specs.Items.{port_item_has};
ghost use Rattle.mst_graph.specs.Lists.{has_any};
ghost use Rattle.mst_roles.specs.forest.InUse.{is_in_use};
ghost use Rattle.mst_reasons.specs.Missing.{bridges_of, has_event as has_event_of, has_port as has_port_of, have_events as have_events_of, is_tree as is_tree_of, lacks_bridge as lacks_bridge_of, lacks_event as lacks_event_of, lacks_lan as lacks_lan_of, lacks_port as lacks_port_of, lacks_tree as lacks_tree_of, lans_of, missing as missing_of, next_item, scope_bridges, scope_lans};
ghost use Rattle.mst_reasons.specs.Risks.{has_one as has_one_of};

use mst_ids::{Name, Tree};
use mst_policy::{Expectation, NameItem, PortItem, Promise, Scope};
use mst_reasons::{Event, Missing, asks, has_bridge, has_lan, have_bridges, have_lans};
use mst_roles::Settled;
use mst_view::{BridgeInView, MemberLan, PortInView, View};

/// Whether an item has the name of one of these ports.
fn any_port(ports: &[PortInView], item: &PortItem) -> bool
    ensures { result ≡ list_any (λ p. port_item_has item.now p.name) ports.now }
{
    ports.iter().any(|port| item.has(&port.name))
}

/// Whether an item is for one of these ports.
pub fn has_port(ports: &[PortInView], item: &PortItem) -> bool
    ensures { result ≡ has_port_of (map (λ p. p.name) ports.now) item.now }
{
    any_port(ports, item)
}

/// Whether each of these items is.
fn have_ports(ports: &[PortInView], items: &[PortItem]) -> bool
    ensures { result ≡ list_all (has_port_of (map (λ p. p.name) ports.now)) items.now }
{
    items.iter().all(|item| has_port(ports, item))
}

/// Whether each of these items of ports is for a bridge.
fn have_port_bridges(bridges: &[BridgeInView], items: &[PortItem]) -> bool
    ensures { result ≡ list_all (λ item. has_one_of (map (λ b. b.name) bridges.now) item.bridge) items.now }
{
    items.iter().all(|item| has_bridge(bridges, &item.bridge))
}

/// Whether some bridge of a view has a tree beside the CIST.
fn is_had(view: &View, tree: Tree) -> bool
    ensures { result ≡ is_in_use view.now tree }
{
    view.bridges()
        .iter()
        .any(|bridge| view.has_tree(bridge.bridge.number, tree))
}

/// Whether some bridge has a tree: the CIST is there always.
fn is_tree(plan: &Settled, tree: Tree) -> bool
    ensures { result ≡ is_tree_of plan.now.net tree }
{
    plan.known();
    tree.value() == 0 || is_had(plan.view(), tree)
}

/// Whether the tree of an expectation isn't there.
fn lacks_tree(plan: &Settled, promise: &Promise) -> bool
    ensures { result ≡ lacks_tree_of plan.now.net promise.now }
{
    match &promise.expectation {
        Expectation::Root { tree, .. } => !is_tree(plan, *tree),
        Expectation::Role { tree, .. } => !is_tree(plan, *tree),
        Expectation::Leaf { tree, .. } => !is_tree(plan, *tree),
        Expectation::Depth { tree, .. } => !is_tree(plan, *tree),
        _ => false,
    }
}

/// Whether a bridge is there.
fn is_bridge(bridges: &[BridgeInView], name: &Name) -> bool
    ensures { result ≡ has_one_of (map (λ b. b.name) bridges.now) (NameItem.Is name.now) }
{
    has_bridge(bridges, &NameItem::Is(*name))
}

/// Whether a bridge is there, if one is named.
fn is_next(bridges: &[BridgeInView], next: &Option<Name>) -> bool
    ensures { result ≡ list_all (has_one_of (map (λ b. b.name) bridges.now)) (next_item next.now) }
{
    match next {
        None => true,
        Some(next) => is_bridge(bridges, next),
    }
}

/// Whether each of three bridges is there.
fn are_three(bridges: &[BridgeInView], from: &Name, to: &Name, by: &Name) -> bool
    ensures { result ≡ list_all (has_one_of (map (λ b. b.name) bridges.now)) (NameItem.Is from.now ∷ NameItem.Is to.now ∷ NameItem.Is by.now ∷ []) }
{
    is_bridge(bridges, from) && (is_bridge(bridges, to) && is_bridge(bridges, by))
}

/// Whether each item of two lists is.
fn have_both(bridges: &[BridgeInView], names: &[NameItem], others: &[NameItem]) -> bool
    ensures { result ≡ list_all (has_one_of (map (λ b. b.name) bridges.now)) (names.now ++ others.now) }
{
    let first = have_bridges(bridges, names);
    first && have_bridges(bridges, others)
}

/// Whether the bridges of an expectation are there.
fn are_bridges(bridges: &[BridgeInView], expectation: &Expectation) -> bool
    ensures { result ≡ list_all (has_one_of (map (λ b. b.name) bridges.now)) (bridges_of expectation.now) }
{
    match expectation {
        Expectation::Root { bridge, next, .. } => {
            is_bridge(bridges, bridge) && is_next(bridges, next)
        }
        Expectation::Region { names } => have_bridges(bridges, names.as_slice()),
        Expectation::Role { ports, .. } => have_port_bridges(bridges, ports.as_slice()),
        Expectation::Reach { names, .. } => have_bridges(bridges, names.as_slice()),
        Expectation::Apart { names, others, .. } => {
            have_both(bridges, names.as_slice(), others.as_slice())
        }
        Expectation::Leaves { names, .. } => have_bridges(bridges, names.as_slice()),
        Expectation::Together { names, .. } => have_bridges(bridges, names.as_slice()),
        Expectation::Leaf { names, .. } => have_bridges(bridges, names.as_slice()),
        Expectation::Hops { names, .. } => have_bridges(bridges, names.as_slice()),
        Expectation::Via { from, to, by, .. } => are_three(bridges, from, to, by),
        _ => true,
    }
}

/// Whether the bridges of a scope are there.
fn are_scope_bridges(bridges: &[BridgeInView], scope: &Scope) -> bool
    ensures { result ≡ list_all (has_one_of (map (λ b. b.name) bridges.now)) (scope_bridges scope.now) }
{
    match scope {
        Scope::AfterBridge(names) => have_bridges(bridges, names.as_slice()),
        _ => true,
    }
}

/// Whether the bridges of a promise are there.
fn are_all_bridges(bridges: &[BridgeInView], promise: &Promise) -> bool
    ensures { result ≡ list_all (has_one_of (map (λ b. b.name) bridges.now)) (scope_bridges promise.now.scope ++ bridges_of promise.now.expectation) }
{
    let first = are_scope_bridges(bridges, &promise.scope);
    first && are_bridges(bridges, &promise.expectation)
}

/// Whether there is some bridge, and the bridges of a promise are there.
fn has_bridges(bridges: &[BridgeInView], promise: &Promise) -> bool
    ensures { result ≡ (has_any (map (λ b. b.name) bridges.now) && list_all (has_one_of (map (λ b. b.name) bridges.now)) (scope_bridges promise.now.scope ++ bridges_of promise.now.expectation)) }
{
    if bridges.is_empty() {
        return false;
    }
    are_all_bridges(bridges, promise)
}

/// Whether a bridge of a promise isn't there, or no bridge at all.
fn lacks_bridge(plan: &Settled, promise: &Promise) -> bool
    ensures { result ≡ lacks_bridge_of plan.now.net promise.now }
{
    plan.known();
    !has_bridges(plan.view().bridges(), promise)
}

/// Whether a port of a promise isn't there.
fn lacks_port(plan: &Settled, promise: &Promise) -> bool
    ensures { result ≡ lacks_port_of plan.now.net promise.now }
{
    plan.known();
    match &promise.expectation {
        Expectation::Role { ports, .. } => !have_ports(plan.view().ports(), ports.as_slice()),
        _ => false,
    }
}

/// Whether a LAN is there.
fn is_lan(lans: &[MemberLan], name: &Name) -> bool
    ensures { result ≡ has_one_of (map (λ l. l.name) lans.now) (NameItem.Is name.now) }
{
    has_lan(lans, &NameItem::Is(*name))
}

/// Whether the LAN of an expectation is there.
fn are_lans(lans: &[MemberLan], expectation: &Expectation) -> bool
    ensures { result ≡ list_all (has_one_of (map (λ l. l.name) lans.now)) (lans_of expectation.now) }
{
    match expectation {
        Expectation::Carries { lan, .. } => is_lan(lans, lan),
        Expectation::Avoids { lan, .. } => is_lan(lans, lan),
        _ => true,
    }
}

/// Whether the LANs of a scope are there.
fn are_scope_lans(lans: &[MemberLan], scope: &Scope) -> bool
    ensures { result ≡ list_all (has_one_of (map (λ l. l.name) lans.now)) (scope_lans scope.now) }
{
    match scope {
        Scope::AfterLan(names) => have_lans(lans, names.as_slice()),
        _ => true,
    }
}

/// Whether the LANs of a promise are there.
fn are_all_lans(lans: &[MemberLan], promise: &Promise) -> bool
    ensures { result ≡ list_all (has_one_of (map (λ l. l.name) lans.now)) (scope_lans promise.now.scope ++ lans_of promise.now.expectation) }
{
    let first = are_scope_lans(lans, &promise.scope);
    first && are_lans(lans, &promise.expectation)
}

/// Whether a LAN of a promise isn't there.
fn lacks_lan(plan: &Settled, promise: &Promise) -> bool
    ensures { result ≡ lacks_lan_of plan.now.net promise.now }
{
    plan.known();
    !are_all_lans(plan.view().member_lans(), promise)
}

/// Whether a promise is judged after some event of a name that an item has.
fn has_event(events: &[Event], promise: &Promise, item: &NameItem) -> bool
    ensures { result ≡ has_event_of events.now promise.now item.now }
{
    events.iter().any(|event| item.has(event.cause().name()) && asks(promise, event))
}

/// Whether each of these items has one.
fn have_each(events: &[Event], promise: &Promise, items: &[NameItem]) -> bool
    ensures { result ≡ list_all (has_event_of events.now promise.now) items.now }
{
    items.iter().all(|item| has_event(events, promise, item))
}

/// Whether there are items, and each has one.
fn have_events(events: &[Event], promise: &Promise, items: &[NameItem]) -> bool
    ensures { result ≡ have_events_of events.now promise.now items.now }
{
    if items.is_empty() {
        return false;
    }
    have_each(events, promise, items)
}

/// Whether an item of a promise of what comes after events has none after which it is judged.
fn lacks_event(events: &[Event], promise: &Promise) -> bool
    ensures { result ≡ lacks_event_of events.now promise.now }
{
    match &promise.scope {
        Scope::AfterLan(names) => !have_events(events, promise, names.as_slice()),
        Scope::AfterBridge(names) => !have_events(events, promise, names.as_slice()),
        Scope::AfterRisk(names) => !have_events(events, promise, names.as_slice()),
        _ => false,
    }
}

/// What a promise names and the network hasn't, or that nothing is judged of it there, by the network's plan and its events: that of the least number,
/// if there is anything. It takes no memory.
pub fn missing_in(plan: &Settled, events: &[Event], promise: &Promise) -> Option<Missing>
    ensures { result ≡ missing_of plan.now.net events.now promise.now }
{
    if lacks_tree(plan, promise) {
        return Some(Missing::Tree);
    }
    if lacks_bridge(plan, promise) {
        return Some(Missing::Bridge);
    }
    if lacks_port(plan, promise) {
        return Some(Missing::Port);
    }
    if lacks_lan(plan, promise) {
        return Some(Missing::Lan);
    }
    if lacks_event(events, promise) {
        return Some(Missing::Failure);
    }
    None
}
