ghost use Rattle.std.specs.Prelude.{◌≡◌, ◌&&◌, IfOk};
ghost use Rattle.mst_vlan.specs.forest.InUse.{AreInUse};
ghost use Rattle.mst_graph.specs.Lists.{has_any};
ghost use Rattle.mst_summary.specs.Seen.{seen_used, seen_trees};

use mst_ids::Tree;
use mst_view::{BridgeInView, View};
use mst_vlan::{is_had, trees_in_use};
use std::alloc::{AllocError, Global};

/// Whether there is a bridge.
fn is_any(bridges: &[BridgeInView]) -> bool
    ensures { result ≡ has_any bridges.now }
{
    match bridges {
        [] => false,
        [..] => true,
    }
}

/// Whether some bridge has a tree: each has the CIST.
fn is_used(view: &View, used: &[bool; 4095], tree: Tree) -> bool
    requires { AreInUse view.now used.now }
    ensures { result ≡ seen_used view.now tree }
{
    is_any(view.bridges()) && is_had(used, tree)
}

/// The trees that some bridge has, rising.
pub(crate) fn used_trees(alloc: Global, view: &View) -> Result<Vec<Tree>, AllocError>
    ensures { IfOk result (λ trees. trees.items ≡ seen_trees view.now) }
{
    let used = trees_in_use(view);
    let mut trees = Vec::new(alloc);
    for number in 0..4095 {
        if let Some(tree) = Tree::new(number) {
            if is_used(view, &used, tree) {
                trees.push(tree)?;
            }
        }
    }
    Ok(trees)
}
