ghost use Rattle.std.specs.Prelude.{◌≡◌, ◌||◌, false};
ghost use Rattle.std.specs.Option.{option_map_or};
ghost use Rattle.mst_view.specs.Aggregation.{same_name};
ghost use Rattle.mst_reasons.specs.Judged.{is_its_bridge as is_bridge_of, is_its_lan as is_lan_of, asks_for as list_asks_for, asks_now as promise_asks_now, asks as promise_asks, fails_its_own as fails_own, has_now as scope_has_now, is_its_own as is_own_event, looks_back as looks_back_of};

use mst_ids::Name;
use mst_policy::{Expectation, NameList, Promise, Scope};
use mst_sweep::{Cause, Event, Failure};

/// Whether the network itself is judged, where it is said whether one is prior to it: of what stays together, only then.
pub fn asks_now(has_prior: bool, promise: &Promise) -> bool
    ensures { result ≡ promise_asks_now has_prior promise.now }
{
    has_now(&promise.scope) && (has_prior || !looks_back(&promise.expectation))
}

/// Whether an expectation looks back at the network before.
fn looks_back(expectation: &Expectation) -> bool
    ensures { result ≡ looks_back_of expectation.now }
{
    match expectation {
        Expectation::Together { .. } => true,
        _ => false,
    }
}

/// Whether a scope has the network itself.
pub fn has_now(scope: &Scope) -> bool
    ensures { result ≡ scope_has_now scope.now }
{
    match scope {
        Scope::Now => true,
        Scope::AfterLan(_) => false,
        Scope::AfterBridge(_) => false,
        Scope::AfterRisk(_) => false,
        Scope::Always => true,
    }
}

/// Whether the network of an event is judged. That of an event of what the expectation itself names, its root, the next one,
/// the bridges of its path or its LAN, is judged where the scope names the event, too, and not where a pattern has it.
pub fn asks(promise: &Promise, event: &Event) -> bool
    ensures { result ≡ promise_asks promise.now event.now }
{
    let is_own = is_its_own(&promise.expectation, event);
    match (&promise.scope, event.cause()) {
        (Scope::AfterLan(names), Cause::One(Failure::Lan(lan))) => asks_for(names, lan, is_own),
        (Scope::AfterBridge(names), Cause::One(Failure::Bridge(bridge))) => {
            asks_for(names, bridge, is_own)
        }
        (Scope::AfterRisk(names), Cause::Risk(name)) => asks_for(names, name, is_own),
        (Scope::Always, _) => !is_own,
        _ => false,
    }
}

/// Whether one of the failures of an event is of what the expectation names.
fn is_its_own(expectation: &Expectation, event: &Event) -> bool
    ensures { result ≡ is_own_event expectation.now event.now }
{
    event
        .failures()
        .iter()
        .any(|failure| fails_its_own(expectation, failure))
}

/// Whether a failure is of what the expectation names.
fn fails_its_own(expectation: &Expectation, failure: &Failure) -> bool
    ensures { result ≡ fails_own expectation.now failure.now }
{
    match failure {
        Failure::Lan(lan) => is_its_lan(expectation, lan),
        Failure::Bridge(bridge) => is_its_bridge(expectation, bridge),
    }
}

/// Whether a list asks for an event of a name: it has the name, and if the event is the expectation's own, as an item.
fn asks_for(names: &NameList, name: &Name, is_own: bool) -> bool
    ensures { result ≡ list_asks_for names.now name.now is_own }
{
    names.has(name) && (!is_own || names.lists(name))
}

/// Whether a bridge is one that an expectation names by itself: the root or the next one, or one of the three of a path.
fn is_its_bridge(expectation: &Expectation, bridge: &Name) -> bool
    ensures { result ≡ is_bridge_of expectation.now bridge.now }
{
    match expectation {
        Expectation::Root {
            bridge: root,
            next,
            ..
        } => *root == *bridge || is_next(next, bridge),
        Expectation::Via { from, to, by, .. } => is_of_three(from, to, by, bridge),
        _ => false,
    }
}

/// Whether a bridge is one of these three.
fn is_of_three(from: &Name, to: &Name, by: &Name, bridge: &Name) -> bool
    ensures { result ≡ (same_name from.now bridge.now || (same_name to.now bridge.now || same_name by.now bridge.now)) }
{
    *from == *bridge || (*to == *bridge || *by == *bridge)
}

fn is_next(next: &Option<Name>, bridge: &Name) -> bool
    ensures { result ≡ option_map_or (λ c. same_name c bridge.now) next.now false }
{
    match next {
        None => false,
        Some(next) => *next == *bridge,
    }
}

/// Whether a LAN is the one that an expectation names.
fn is_its_lan(expectation: &Expectation, lan: &Name) -> bool
    ensures { result ≡ is_lan_of expectation.now lan.now }
{
    match expectation {
        Expectation::Carries { lan: own, .. } => *own == *lan,
        Expectation::Avoids { lan: own, .. } => *own == *lan,
        _ => false,
    }
}
