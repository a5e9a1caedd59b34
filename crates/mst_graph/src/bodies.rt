ghost use Rattle.std.specs.Prelude.{◌≡◌, ◌<◌, IfOk, length, map, true, vec_len};
ghost use Rattle.std.specs.List.{All};
ghost use Rattle.mst_graph.specs.Groups.{AreGroups};
ghost use Rattle.mst_graph.specs.Numbers.{HaveBodies};

use crate::grouping::groups;
use crate::keys::number_keys;
use std::alloc::{AllocError, Global};
use std::hash::Hash;

/// The groups of the things that have equal bodies, where each thing has a number and each number a body:
/// each in the order of the things, by their first things. It takes about one step for each thing.
///
/// Where a number has another body than one of its things, nothing is said of the groups. `AllocError`: memory was
/// wanted and refused, and the bodies are let go.
pub fn groups_by_body<T: Copy, B: Eq + Hash + Drop>(
    alloc: Global,
    things: &[T],
    numbers: &[usize],
    bodies: Vec<B>,
) -> Result<Vec<Vec<T>>, AllocError>
    requires as_long { length numbers.now ≡ length things.now }
    requires below { All (λ n. n < vec_len bodies) numbers.now }
    ensures { IfOk result (λ v. (body : T → B) → HaveBodies B.eq body things.now numbers.now bodies.items → AreGroups (λ x y. B.eq (body x) (body y) ≡ true) things.now (map (λ v. v.items) v.items)) }
{
    let joined = number_keys(alloc, bodies)?;
    let mut pairs = Vec::new(alloc);
    for place in 0..things.len() {
        pairs.push((things[place], joined.numbers[numbers[place]]))?;
    }
    groups(alloc, pairs)
}
