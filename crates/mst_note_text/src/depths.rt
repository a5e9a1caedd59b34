ghost use Rattle.std.specs.Prelude.{◌≡◌, ◌<◌, ℕ, length, IfOk};
ghost use Rattle.mst_roles.specs.forest.Outcome.{trees_of};
ghost use Rattle.mst_roles.specs.forest.Settled.{outcome_of};
ghost use Rattle.mst_note_text.specs.Depths.{InternalDepth, ExternalDepth};
ghost use Rattle.mst_note_text.specs.Places.{depths_at};
ghost use Rattle.mst_note_text.specs.SeenTree.{members_in, name_at};

use crate::find::depths_of;
use crate::member::Member;
use crate::parent::Depths;
use crate::parents::parents_of;
use crate::places::places_of;
use mst_ids::Tree;
use mst_roles::Settled;
use mst_roles::forest_laws::nested;
use std::alloc::{AllocError, Global};

/// The depths of the bridges of a tree.
pub(crate) fn depths_in(
    alloc: Global,
    plan: &Settled,
    tree: Tree,
    members: &[Member],
) -> Result<Vec<Depths>, AllocError>
    requires { members.now ≡ members_in plan.now.view plan.now.forest tree }
    ensures each { IfOk result (λ v. length v.items ≡ length members.now) }
    ensures internal { IfOk result (λ v. (n : ℕ) → n < length members.now → InternalDepth (trees_of plan.now.net (outcome_of plan.now)) tree (name_at members.now n) (depths_at v.items n).internal) }
    ensures external { IfOk result (λ v. tree ≡ 0 → (n : ℕ) → n < length members.now → ExternalDepth (trees_of plan.now.net (outcome_of plan.now)) (name_at members.now n) (depths_at v.items n).external) }
{
    plan.known();
    nested();
    let places = places_of(alloc, members)?;
    let parents = parents_of(alloc, plan.view(), plan.forest(), tree, members, &places)?;
    depths_of(alloc, parents.as_slice())
}
