ghost use Rattle.std.specs.Prelude.{◌≡◌, IfOk, length, map};
ghost use Rattle.std.specs.FinMap as fin;
ghost use Rattle.std.specs.List.{range_with_len};
ghost use Rattle.std.specs.Option.{option_map};
ghost use Rattle.mst_roles.specs.forest.Outcome.{trees_of};
ghost use Rattle.mst_roles.specs.forest.Settled.{outcome_of};
ghost use Rattle.mst_note_text.specs.Children.{AreChildren};
ghost use Rattle.mst_note_text.specs.SeenTree.{all_within as all_within_of, as_within, child_at, parent_name};

use crate::find::depths_of;
use crate::member::{Member, members_of};
use crate::parent::{Depths, Parent};
use crate::parents::parents_of;
use crate::places::places_of;
use mst_ids::{Name, Tree};
use mst_roles::Settled;
use mst_roles::forest_laws::nested;
use std::alloc::{AllocError, Global};

/// A bridge of a tree, its parent there, and how many steps to parents there are from it, whatever regions they go through.
#[derive(Clone, Copy)]
pub struct Child {
    pub name: Name,
    pub parent: Option<Name>,
    pub steps: usize,
}

/// The same parent, with no step between regions.
fn within(parent: &Option<Parent>) -> Option<Parent>
    ensures { result ≡ option_map as_within parent.now }
{
    match parent {
        None => None,
        Some(parent) => Some(Parent {
            place: parent.place,
            is_between: false,
        }),
    }
}

/// The same parents, with no step between regions.
fn all_within(alloc: Global, parents: &[Option<Parent>]) -> Result<Vec<Option<Parent>>, AllocError>
    ensures { IfOk result (λ all. all.items ≡ all_within_of parents.now) }
{
    parents.iter().map(|parent| within(parent)).collect(alloc)
}

/// The name of a parent.
fn name_of(members: &[Member], parent: &Option<Parent>) -> Option<Name>
    ensures { result ≡ parent_name members.now parent.now }
{
    match parent {
        None => None,
        Some(parent) => {
            let member = members.get(parent.place)?;
            Some(member.name)
        }
    }
}

/// The bridges of a tree, in byte order of names, with their parents. It goes once over the view's bridges and once over its ports.
/// `AllocError`: memory was wanted and refused.
pub fn children_of(alloc: Global, plan: &Settled, tree: Tree) -> Result<Vec<Child>, AllocError>
    ensures { IfOk result (λ children. AreChildren (trees_of plan.now.net (outcome_of plan.now)) tree (fin.keys plan.now.net.bridges) children.items) }
{
    plan.known();
    nested();
    let view = plan.view();
    let forest = plan.forest();
    let all = members_of(alloc, view, forest, tree)?;
    let members = all.as_slice();
    let places = places_of(alloc, members)?;
    let parents = parents_of(alloc, view, forest, tree, members, &places)?;
    let counted = all_within(alloc, parents.as_slice())?;
    let depths = depths_of(alloc, counted.as_slice())?;
    listed(alloc, members, parents.as_slice(), depths.as_slice())
}

/// These bridges with their parents and depths.
fn listed(
    alloc: Global,
    members: &[Member],
    parents: &[Option<Parent>],
    depths: &[Depths],
) -> Result<Vec<Child>, AllocError>
    requires parents { length parents.now ≡ length members.now }
    requires depths { length depths.now ≡ length members.now }
    ensures { IfOk result (λ children. children.items ≡ map (child_at members.now parents.now depths.now) (range_with_len 0 (length members.now))) }
{
    let mut children = Vec::new(alloc);
    for place in 0..members.len() {
        children.push(Child {
            name: members[place].name,
            parent: name_of(members, &parents[place]),
            steps: depths[place].internal,
        })?;
    }
    Ok(children)
}
