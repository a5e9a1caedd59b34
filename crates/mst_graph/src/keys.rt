ghost use Rattle.mst_graph.specs.Numbers.{AreNumbers};
ghost use Rattle.std.specs.Prelude.{IfOk};

use indexmap::IndexSet;
use std::alloc::{AllocError, Global};
use std::hash::Hash;

/// A number for each of some keys, the same for equal ones, and the first place of each number.
#[derive(Drop)]
pub struct Numbering {
    /// The number of each key, in the order of the keys.
    pub numbers: Vec<usize>,
    /// For each number the least place of a key that has it, counted from 0.
    pub firsts: Vec<usize>,
}

/// Numbers keys by their first places. It takes about one step for each key.
///
/// `AllocError`: memory was wanted and refused, and the keys are let go.
pub fn number_keys<K: Eq + Hash + Drop>(
    alloc: Global,
    keys: Vec<K>,
) -> Result<Numbering, AllocError>
    ensures { IfOk result (λ r. AreNumbers K.eq keys.items r.numbers.items r.firsts.items) }
{
    let mut met = IndexSet::new(alloc);
    let mut numbers = Vec::new(alloc);
    let mut firsts = Vec::new(alloc);
    for key in keys {
        let (number, is_new) = met.insert_full(key)?;
        if is_new {
            firsts.push(numbers.len())?;
        }
        numbers.push(number)?;
    }
    Ok(Numbering { numbers, firsts })
}
