ghost use Rattle.std.specs.Prelude.{◌≡◌, ◌<◌, ℕ, List, IfOk, length, slice_index};
ghost use Rattle.mst_graph.specs.Labels.{AreParents, HaveLabels, KeepLabels, AreMerged};

use std::alloc::{AllocError, Global};

/// Parents for places: each is its own.
pub(crate) fn own_parents(alloc: Global, count: usize) -> Result<Vec<usize>, AllocError>
    ensures count { IfOk result (λ parents. length parents.items ≡ count) }
    ensures own { IfOk result (λ parents. (place : ℕ) → place < count → slice_index parents.items place ≡ place) }
{
    let mut parents = Vec::with_capacity(alloc, count)?;
    for place in 0..count {
        parents.push(place)?;
    }
    Ok(parents)
}

/// The place to which a place leads. On the way each place gets its parent's parent as parent.
fn root(parents: &mut [usize], place: usize) -> usize
    requires parents { AreParents parents.old }
    requires place { place < length parents.old }
    ensures kept { KeepLabels parents.old parents.new }
    ensures root { (result < length parents.old) × (slice_index parents.new result ≡ result) }
    ensures leads { (labels : List ℕ) → HaveLabels parents.old labels → slice_index labels result ≡ slice_index labels place }
{
    let mut at = place;
    'up: while parents[at] != at {
        let above = parents[parents[at]];
        parents[at] = above;
        at = above;
    }
    at
}

/// Joins the groups of two places. The greater of the places to which they lead gets the lesser one as parent.
pub(crate) fn join(parents: &mut [usize], first: usize, second: usize)
    requires parents { AreParents parents.old }
    requires first { first < length parents.old }
    requires second { second < length parents.old }
    ensures parents { AreParents parents.new }
    ensures merged { (labels : List ℕ) → HaveLabels parents.old labels → (new : List ℕ) × HaveLabels parents.new new × AreMerged first second labels new }
{
    let one = root(parents, first);
    let other = root(parents, second);
    parents[one.max(other)] = one.min(other);
}

/// Gives each place its label as parent: the place to which it leads.
pub(crate) fn settle(parents: &mut [usize])
    requires { AreParents parents.old }
    ensures parents { AreParents parents.new }
    ensures labels { (labels : List ℕ) → HaveLabels parents.old labels → parents.new ≡ labels }
{
    for place in 0..parents.len() {
        parents[place] = parents[parents[place]];
    }
}
