ghost use Rattle.std.specs.Prelude.{◌≡◌, ◌==◌, ◌||◌, ◌<◌, ℕ, false, length, slice_index_or, IfOk};
ghost use Rattle.mst_view.specs.Trees.{is_among};
ghost use Rattle.mst_view.specs.Viewed.{Viewed};
ghost use Rattle.mst_forest.specs.InUse.{AreInUse, is_in_use, seen_has, seen_mstis};

use mst_ids::{BridgeNo, Tree};
use mst_view::View;
use std::alloc::{AllocError, Global};

/// Whether the bridge of this number has a tree: each has the CIST, and one of kind mstp the MSTIs to which it maps
/// some VID (802.1Q-2022, 13.5).
pub fn has_tree(view: &View, bridge: BridgeNo, tree: Tree) -> bool
    ensures { result ≡ seen_has view.now tree bridge }
{
    tree.value() == 0 || view.has_tree(bridge, tree)
}

/// The MSTIs that some bridge of a view has, in rising order. `AllocError`: memory was wanted and refused.
pub fn mstis_in_use(alloc: Global, view: &View) -> Result<Vec<Tree>, AllocError>
    ensures { IfOk result (λ trees. trees.items ≡ seen_mstis view.now) }
{
    let used = trees_in_use(view);
    let mut trees = Vec::new(alloc);
    for index in 0..4094u16 {
        let number = index + 1;
        if used[usize::from(number)] {
            trees.push(Tree::new(u64::from(number)).unwrap())?;
        }
    }
    Ok(trees)
}

/// A flag for each tree, 0 to 4094: whether some bridge of a view has it beside the CIST. It takes no memory.
pub fn trees_in_use(view: &View) -> [bool; 4095]
    ensures { AreInUse view.now result }
{
    let mut used = [false; 4095];
    for bridge in view.bridges() {
        mark(view.trees(bridge.bridge.number), &mut used);
    }
    used
}

/// Whether a tree is the CIST or has its flag.
pub fn is_had(used: &[bool; 4095], tree: Tree) -> bool
    requires { length used.now ≡ 4095 }
    ensures { (v : Viewed) → AreInUse v used.now → result ≡ (tree == 0 || is_in_use v tree) }
{
    if tree.value() == 0 {
        return true;
    }
    used[usize::from(tree.value())]
}

/// Sets the flags of these trees.
fn mark(trees: &[Tree], used: &mut [bool; 4095])
    requires { length used.old ≡ 4095 }
    ensures long { length used.new ≡ 4095 }
    ensures marked { (tree : ℕ) → tree < 4095 → slice_index_or used.new tree false ≡ (slice_index_or used.old tree false || is_among trees.now tree) }
{
    for tree in trees {
        used[usize::from(tree.value())] = true;
    }
}
