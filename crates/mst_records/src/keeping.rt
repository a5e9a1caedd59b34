ghost use Rattle.std.specs.Prelude.{◌≡◌, ◌<◌, cond};
ghost use Rattle.std.specs.Map.{lookup};
ghost use Rattle.indexmap.specs.IndexMap.{spare};

use indexmap::IndexMap;
use std::hash::Hash;

/// Keeps a value under the key, or none. It takes no memory.
pub fn keep<K: Copy + Eq + Hash, V: Copy>(table: &mut IndexMap<K, V>, key: K, value: Option<V>)
    requires { 0 < spare table.old }
    ensures { (q : K) → lookup (K.eq q) table.new.entries ≡ cond (K.eq key q) value (lookup (K.eq q) table.old.entries) }
{
    match value {
        None => {
            let _ = table.swap_remove(&key);
        }
        Some(value) => {
            if let Ok(entry) = table.entry(key) {
                *entry.or_insert(value) = value;
            }
        }
    }
}
