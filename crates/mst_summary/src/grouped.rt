ghost use Rattle.std.specs.Prelude.{◌≡◌, ◌++◌, ◌∷◌, [], None, OnOk, cond};
ghost use Rattle.indexmap.specs.IndexMap.{get};
ghost use Rattle.mst_summary.specs.Grouped.{group_at};

use indexmap::IndexMap;
use std::alloc::{AllocError, Global};
use std::hash::Hash;

/// Puts a thing behind those of its key. `AllocError`: memory was wanted and refused; what was grouped under the key may be
/// gone.
pub(crate) fn add<K: Eq + Hash + Copy, T: Copy>(
    alloc: Global,
    key: K,
    thing: T,
    grouped: &mut IndexMap<K, Vec<T>>,
) -> Result<(), AllocError>
    ensures { OnOk result ((q : K) → group_at K.eq grouped.new q ≡ group_at K.eq grouped.old q ++ cond (K.eq key q) (thing ∷ []) []) }
{
    let mut group = taken(alloc, &key, grouped);
    group.push(thing)?;
    grouped.insert(key, group)?;
    Ok(())
}

/// The things of a key, which are taken away.
fn taken<K: Eq + Hash + Copy, T: Copy>(
    alloc: Global,
    key: &K,
    grouped: &mut IndexMap<K, Vec<T>>,
) -> Vec<T>
    ensures group { result.items ≡ group_at K.eq grouped.old key.now }
    ensures gone { (q : K) → get K.eq grouped.new q ≡ cond (K.eq key.now q) None (get K.eq grouped.old q) }
{
    match grouped.swap_remove(key) {
        Some(group) => group,
        None => Vec::new(alloc),
    }
}

/// The things of a key: none where it has none.
pub(crate) fn group_for<'a, K: Eq + Hash, T: Copy>(
    grouped: &'a IndexMap<K, Vec<T>>,
    key: &K,
) -> &'a [T]
    ensures { result.now ≡ group_at K.eq grouped.now key.now }
{
    match grouped.get(key) {
        Some(group) => group.as_slice(),
        None => &[],
    }
}
