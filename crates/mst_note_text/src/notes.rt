ghost use Rattle.std.specs.List.{flat_map};
ghost use Rattle.std.specs.Prelude.{◌≡◌, ◌<◌, ◌++◌, ℕ, List, false, length, OnOk, slice_index_or};
ghost use Rattle.mst_view.specs.declared.in_view.BridgeInView.{BridgeInView as BridgeOf};
ghost use Rattle.mst_view.specs.Viewed.{named_port};
ghost use Rattle.mst_roles.specs.forest.Outcome.{trees_of};
ghost use Rattle.mst_roles.specs.forest.Settled.{outcome_of};
ghost use Rattle.mst_rows.specs.Rows.{Row};
ghost use Rattle.mst_note_text.specs.AreDepths.{TreeDepths, AreDepths};
ghost use Rattle.mst_note_text.specs.NotesText.{trees_notes, restricted_note, AreNoteRows};
ghost use Rattle.mst_note_text.specs.Placed.{ArePlaces};
ghost use Rattle.mst_note_text.specs.SeenNotes.{is_had};

use crate::lines::put_restricted;
use crate::places::{Macs, macs_of};
use crate::tree::put_tree;
use mst_ids::Tree;
use mst_roles::forest_laws::nested;
use mst_roles::{Settled, trees_in_use};
use mst_rows::Rows;
use mst_view::{PortInView, View};
use std::alloc::{AllocError, Global};

/// Puts the notes on a settled network: for each tree in rising order, and each bridge that is on and has it, in byte
/// order of names, where hops bind, where age binds, and the external and internal path costs that 32 bits don't hold;
/// then each logical port whose role is restricted.
///
/// `AllocError`: memory was wanted and refused; some of the notes may have been put. For each tree that some bridge has it
/// goes once over the bridges and once over the ports.
pub fn put_notes<R: Rows>(alloc: Global, plan: &Settled, out: &mut R) -> Result<(), AllocError>
    ensures { (notes : List Row) → AreNoteRows plan.now.net (outcome_of plan.now) notes
        → (first : R) (rows : List Row) → R.grew first out.old rows → OnOk result (R.grew first out.new (rows ++ notes)) }
{
    plan.known();
    let view = plan.view();
    let macs = macs_of(alloc, view.bridges())?;
    put_trees(alloc, plan, &macs, &trees_of_view(view), out)?;
    put_ports(view.ports(), out)
}

/// Puts the notes on the logical ports.
fn put_ports<R: Rows>(ports: &[PortInView], out: &mut R) -> Result<(), AllocError>
    ensures { (first : R) (rows : List Row) → R.grew first out.old rows → OnOk result (R.grew first out.new (rows ++ flat_map (λ p. restricted_note (named_port p)) ports.now)) }
{
    for port in ports {
        put_restricted(port, out)?;
    }
    Ok(())
}

/// Puts the notes on each tree that has a flag.
fn put_trees<R: Rows>(
    alloc: Global,
    plan: &Settled,
    macs: &Macs,
    had: &[bool],
    out: &mut R,
) -> Result<(), AllocError>
    requires macs { ArePlaces (λ (b : BridgeOf). b.bridge.mac) plan.now.view.bridges macs.now.entries }
    requires long { length had.now ≡ 4095 }
    requires had { (tree : ℕ) → tree < 4095 → slice_index_or had.now tree false ≡ is_had plan.now.view tree }
    ensures { (d : TreeDepths) → AreDepths (trees_of plan.now.net (outcome_of plan.now)) d → (first : R) (rows : List Row) → R.grew first out.old rows → OnOk result (R.grew first out.new (rows ++ trees_notes plan.now.net (outcome_of plan.now) d)) }
{
    plan.known();
    nested();
    for number in 0..4095 {
        if had[number] {
            let tree = Tree::new(number as u64).unwrap();
            put_tree(alloc, plan, macs, tree, out)?;
        }
    }
    Ok(())
}

/// A flag for each tree: whether it is the CIST, or some bridge of the view has it.
fn trees_of_view(view: &View) -> [bool; 4095]
    ensures long { length result ≡ 4095 }
    ensures had { (tree : ℕ) → tree < 4095 → slice_index_or result tree false ≡ is_had view.now tree }
{
    let mut had = trees_in_use(view);
    had[0] = true;
    had
}
