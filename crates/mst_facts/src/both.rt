ghost use Rattle.std.specs.Prelude.{◌≡◌, ◌++◌, IfOk, OnOk};
ghost use Rattle.mst_facts.specs.Both.{seen_both, seen_in_both, AreByName};

use indexmap::IndexMap;
use mst_ids::Name;
use mst_view::{BridgeInView, View};
use std::alloc::{AllocError, Global};

/// A bridge that two networks have, by name.
#[derive(Clone, Copy)]
pub struct Both {
    pub old: BridgeInView,
    pub new: BridgeInView,
}

/// These bridges by their names.
fn by_name(
    alloc: Global,
    bridges: &[BridgeInView],
) -> Result<IndexMap<Name, BridgeInView>, AllocError>
    ensures { IfOk result (λ named. AreByName bridges.now named.entries) }
{
    let mut named = IndexMap::new(alloc);
    for bridge in bridges {
        if !named.contains_key(&bridge.name) {
            named.insert(bridge.name, *bridge)?;
        }
    }
    Ok(named)
}

/// A bridge and the one of its name in another view, if that has one.
fn in_both(old: &BridgeInView, new: &View, named: &IndexMap<Name, BridgeInView>) -> Option<Both>
    requires { AreByName new.now.bridges named.now.entries }
    ensures { result ≡ seen_in_both new.now old.now }
{
    let other = named.get(&old.name)?;
    Some(Both {
        old: *old,
        new: *other,
    })
}

/// Appends the bridges that two views have, in byte order of names.
fn push_both(
    old: &View,
    new: &View,
    named: &IndexMap<Name, BridgeInView>,
    both: &mut Vec<Both>,
) -> Result<(), AllocError>
    requires { AreByName new.now.bridges named.now.entries }
    ensures { OnOk result (both.new.items ≡ both.old.items ++ seen_both old.now new.now) }
{
    let bridges = old.bridges().iter();
    both.extend(bridges.filter_map(|bridge| in_both(bridge, new, named)))
}

/// The bridges that two views have, in byte order of names.
///
/// Those of the other view are found by hash. `AllocError`: memory was wanted and refused.
pub fn bridges_of_both(alloc: Global, old: &View, new: &View) -> Result<Vec<Both>, AllocError>
    ensures { IfOk result (λ both. both.items ≡ seen_both old.now new.now) }
{
    let named = by_name(alloc, new.bridges())?;
    let mut both = Vec::new(alloc);
    push_both(old, new, &named, &mut both)?;
    Ok(both)
}
