ghost use Rattle.std.specs.Prelude.{◌≡◌, ◌++◌, ◌∷◌, [], not, IfOk};
ghost use Rattle.std.specs.List.{filter};
ghost use Rattle.std.specs.List.Sorted.{IsPermutation, IsSorted};

use std::alloc::AllocError;

/// The names and one more, in order.
pub(crate) fn with_name<K: Copy + Ord>(mut names: Vec<K>, name: K) -> Result<Vec<K>, AllocError>
    ensures { IfOk result (λ all. IsPermutation (names.items ++ name ∷ []) all.items × IsSorted K.cmp all.items) }
{
    names.push(name)?;
    names.sort()?;
    Ok(names)
}

/// The names but for one, in the order that they have.
pub(crate) fn without_name<K: Copy + Eq>(mut names: Vec<K>, gone: K) -> Vec<K>
    ensures { result.items ≡ filter (λ name. not (K.eq gone name)) names.items }
{
    names.retain(|name| gone != *name);
    names
}
