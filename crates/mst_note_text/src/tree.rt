ghost use Rattle.std.specs.Prelude.{◌++◌, List, OnOk};
ghost use Rattle.mst_view.specs.declared.in_view.BridgeInView.{BridgeInView as BridgeOf};
ghost use Rattle.mst_roles.specs.forest.Outcome.{trees_of};
ghost use Rattle.mst_roles.specs.forest.Settled.{outcome_of};
ghost use Rattle.mst_rows.specs.Rows.{Row};
ghost use Rattle.mst_note_text.specs.AreDepths.{TreeDepths, AreDepths};
ghost use Rattle.mst_note_text.specs.NotesText.{tree_notes};
ghost use Rattle.mst_note_text.specs.Placed.{ArePlaces};

use crate::bridge::put_members;
use crate::depths::depths_in;
use crate::member::members_of;
use crate::places::Macs;
use mst_ids::Tree;
use mst_roles::Settled;
use mst_roles::forest_laws::nested;
use mst_rows::Rows;
use std::alloc::{AllocError, Global};

/// Puts the notes on a tree. It goes once over the view's bridges and once over its ports.
pub(crate) fn put_tree<R: Rows>(
    alloc: Global,
    plan: &Settled,
    macs: &Macs,
    tree: Tree,
    out: &mut R,
) -> Result<(), AllocError>
    requires { ArePlaces (λ (b : BridgeOf). b.bridge.mac) plan.now.view.bridges macs.now.entries }
    ensures { (d : TreeDepths) → AreDepths (trees_of plan.now.net (outcome_of plan.now)) d → (first : R) (rows : List Row) → R.grew first out.old rows → OnOk result (R.grew first out.new (rows ++ tree_notes plan.now.net (outcome_of plan.now) d tree)) }
{
    plan.known();
    nested();
    let view = plan.view();
    let forest = plan.forest();
    let members = members_of(alloc, view, forest, tree)?;
    let depths = depths_in(alloc, plan, tree, members.as_slice())?;
    put_members(
        view.bridges(),
        macs,
        tree,
        members.as_slice(),
        depths.as_slice(),
        out,
    )
}
