ghost use Rattle.std.specs.Prelude.{◌≡◌, Some, IfOk, IfSome};
ghost use Rattle.mst_view.specs.Aggregation.{same_name};
ghost use Rattle.mst_vlan.specs.forest.Agrees.{Known};
ghost use Rattle.mst_facts.specs.Both.{seen_both, seen_in_both};

use mst_facts::{Both, Planned};
use mst_view::BridgeInView;
use std::alloc::{AllocError, Global};

/// Whether a bridge has the name of another.
fn has_name_of(bridge: &BridgeInView, other: &BridgeInView) -> bool
    ensures { result ≡ same_name bridge.now.name other.now.name }
{
    bridge.name == other.name
}

/// A bridge and the one of its number in another view, if that has its name.
fn of_number(old: &BridgeInView, new: &Planned) -> Option<Both>
    requires { Known new.now.view.now new.now.forest.now.regions }
    ensures { IfSome result (λ both. Some both ≡ seen_in_both new.now.view.now old.now) }
{
    let Some(other) = new.view.bridge(old.bridge.number) else {
        return None;
    };
    if !has_name_of(other, old) {
        return None;
    }
    Some(Both {
        old: *old,
        new: *other,
    })
}

/// A bridge and the one of its name in another view, if that has one.
fn of_name(old: &BridgeInView, new: &Planned) -> Option<Both>
    ensures { result ≡ seen_in_both new.now.view.now old.now }
{
    let bridges = new.view.bridges();
    let other = bridges.iter().find(|other| other.name == old.name)?;
    Some(Both {
        old: *old,
        new: *other,
    })
}

/// A bridge and the one of its name in another view, which mostly has its number, too.
fn pair(old: &BridgeInView, new: &Planned) -> Option<Both>
    requires { Known new.now.view.now new.now.forest.now.regions }
    ensures { result ≡ seen_in_both new.now.view.now old.now }
{
    match of_number(old, new) {
        Some(both) => Some(both),
        None => of_name(old, new),
    }
}

/// The bridges that two plans have, in byte order of names. Where they have the same numbers in both it takes one step for
/// each. `AllocError`: memory was wanted and refused.
pub(crate) fn pairs(alloc: Global, old: &Planned, new: &Planned) -> Result<Vec<Both>, AllocError>
    requires { Known new.now.view.now new.now.forest.now.regions }
    ensures { IfOk result (λ both. both.items ≡ seen_both old.now.view.now new.now.view.now) }
{
    old.view
        .bridges()
        .iter()
        .filter_map(|bridge| pair(bridge, new))
        .collect(alloc)
}
