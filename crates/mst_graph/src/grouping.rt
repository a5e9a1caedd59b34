ghost use Rattle.std.specs.Prelude.{◌≡◌, ◌≤◌, OnOk, IfOk, length, map, true, vec_len};
ghost use Rattle.indexmap.specs.IndexSet.{insert_key};
ghost use Rattle.mst_graph.specs.Adding.{with_thing, AreKeyed};
ghost use Rattle.mst_graph.specs.Groups.{AreGroups};

use indexmap::IndexSet;
use std::alloc::{AllocError, Global};
use std::hash::Hash;

/// Adds a thing to the group of its key, or after all groups where its key is new.
fn add<T: Drop, K: Eq + Hash + Drop>(
    alloc: Global,
    keys: &mut IndexSet<K>,
    groups: &mut Vec<Vec<T>>,
    thing: T,
    key: K,
) -> Result<(), AllocError>
    requires { vec_len groups.old ≡ length keys.old.keys }
    ensures keys { OnOk result (keys.new.keys ≡ insert_key K.eq keys.old.keys key) }
    ensures groups { OnOk result (map (λ v. v.items) groups.new.items ≡ with_thing K.eq keys.old.keys (map (λ v. v.items) groups.old.items) thing key) }
    ensures places { OnOk result (vec_len groups.new ≡ length keys.new.keys) }
{
    let (place, is_new) = keys.insert_full(key)?;
    if is_new {
        groups.push(Vec::new(alloc))?;
    }
    groups[place].push(thing)?;
    Ok(())
}

/// The groups of the things that have equal keys: each in the order of the pairs, by their first things.
/// It takes about one step for each pair.
///
/// Where one thing stands in two pairs with keys that differ, nothing is said of the groups. `AllocError`: memory was
/// wanted and refused, and the pairs are let go.
pub fn groups<T: Drop, K: Eq + Hash + Drop>(
    alloc: Global,
    pairs: Vec<(T, K)>,
) -> Result<Vec<Vec<T>>, AllocError>
    ensures { IfOk result (λ v. (key : T → K) → AreKeyed key pairs.items → AreGroups (λ x y. K.eq (key x) (key y) ≡ true) (map (λ p. p.0) pairs.items) (map (λ v. v.items) v.items)) }
{
    let mut keys = IndexSet::new(alloc);
    let mut groups = Vec::new(alloc);
    for (thing, key) in pairs {
        add(alloc, &mut keys, &mut groups, thing, key)?;
    }
    Ok(groups)
}
