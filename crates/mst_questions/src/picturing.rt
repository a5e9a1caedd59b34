ghost use Rattle.std.specs.Prelude.{◌≡◌, true, IfOk};
ghost use Rattle.mst_questions.specs.Picturing.{Depicts, DepictsVlan};

use mst_ids::{Tree, Vid};
use mst_picture::{push_picture, push_vlan_picture};
use mst_tool::Planner;
use std::alloc::AllocError;

/// The picture of the network with a tree, as a text for Graphviz: its bridges, what lies between them, and the roles of the
/// ports. Where no bridge has the tree the bridges are drawn without it. The network alone settles it. `AllocError`: memory
/// was wanted and refused.
pub fn picture_of(planner: &Planner, tree: Tree) -> Result<Vec<u8>, AllocError>
    requires { planner.now.is_settled ≡ true }
    ensures { IfOk result (λ text. Depicts planner.now.contents.net tree text.items) }
{
    let plan = planner.settled();
    plan.known();
    let mut text = Vec::new(planner.alloc());
    push_picture(planner.alloc(), &plan, tree, &mut text)?;
    Ok(text)
}

/// The picture of the network with a VLAN, as a text for Graphviz: the islands of the VID, each bridge with its own tree of it,
/// what lies between the bridges, and where the VLAN isn't carried. The network alone settles it. `AllocError`: memory was
/// wanted and refused.
pub fn vlan_picture_of(planner: &Planner, vid: Vid) -> Result<Vec<u8>, AllocError>
    requires { planner.now.is_settled ≡ true }
    ensures { IfOk result (λ text. DepictsVlan planner.now.contents.net vid text.items) }
{
    let plan = planner.settled();
    plan.known();
    let mut text = Vec::new(planner.alloc());
    push_vlan_picture(planner.alloc(), &plan, vid, &mut text)?;
    Ok(text)
}
