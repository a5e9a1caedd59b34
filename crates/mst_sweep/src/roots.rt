ghost use Rattle.std.specs.Prelude.{◌≡◌, IfOk};
ghost use Rattle.std.specs.List.{list_any};
ghost use Rattle.mst_vlan.specs.forest.InUse.{AreInUse};
ghost use Rattle.mst_view.specs.View.{bridge_names};
ghost use Rattle.mst_facts.specs.Both.{seen_both};
ghost use Rattle.mst_sweep.specs.Between.{OfNetworks};
ghost use Rattle.mst_sweep.specs.Moved.{is_other_root, root_moved as root_moved_in, moved_roots as all_moved_roots};
ghost use Rattle.mst_sweep.specs.Seen.{seen_root_moved};

use mst_facts::{Both, Planned, root};
use mst_ids::{BridgeId, Tree};
use mst_vlan::{is_had, trees_in_use};
use std::alloc::{AllocError, Global};

/// Whether there are two roots that aren't the same.
fn is_other(old: Option<BridgeId>, new: Option<BridgeId>) -> bool
    ensures { result ≡ is_other_root old new }
{
    match (old, new) {
        (Some(old), Some(new)) => old != new,
        _ => false,
    }
}

/// Whether a bridge has another root in a tree afterwards.
fn root_moved(old: &Planned, new: &Planned, tree: Tree, bridge: &Both) -> bool
    ensures { result ≡ seen_root_moved old.now.view.now old.now.forest.now new.now.view.now new.now.forest.now tree bridge.now }
{
    let before = root(old, tree, bridge.old.bridge.number);
    let after = root(new, tree, bridge.new.bridge.number);
    is_other(before, after)
}

/// Whether some of these bridges has.
fn any_moved(old: &Planned, new: &Planned, tree: Tree, both: &[Both]) -> bool
    ensures { result ≡ list_any (seen_root_moved old.now.view.now old.now.forest.now new.now.view.now new.now.forest.now tree) both.now }
{
    both.iter().any(|bridge| root_moved(old, new, tree, bridge))
}

/// Whether some of these bridges has another root in a tree afterwards: none where no bridge of the old network has it.
fn tree_moved(old: &Planned, new: &Planned, used: &[bool; 4095], tree: Tree, both: &[Both]) -> bool
    requires used { AreInUse old.now.view.now used.now }
    requires both { both.now ≡ seen_both old.now.view.now new.now.view.now }
    ensures { OfNetworks old.now new.now (λ a before b afterwards. result ≡ list_any (root_moved_in a before b afterwards tree) (bridge_names a)) }
{
    if !is_had(used, tree) {
        return false;
    }
    any_moved(old, new, tree, both)
}

/// The trees, rising, in which some of these bridges has another root afterwards. `AllocError`: memory was wanted and
/// refused.
///
/// It goes over these bridges once for each tree that the old network has.
pub fn moved_roots(
    alloc: Global,
    old: &Planned,
    new: &Planned,
    both: &[Both],
) -> Result<Vec<Tree>, AllocError>
    requires { both.now ≡ seen_both old.now.view.now new.now.view.now }
    ensures { IfOk result (λ trees. OfNetworks old.now new.now (λ a before b afterwards. trees.items ≡ all_moved_roots a before b afterwards)) }
{
    let used = trees_in_use(old.view);
    let mut trees = Vec::new(alloc);
    for number in 0..4095 {
        if let Some(tree) = Tree::new(number) {
            if tree_moved(old, new, &used, tree, both) {
                trees.push(tree)?;
            }
        }
    }
    Ok(trees)
}
