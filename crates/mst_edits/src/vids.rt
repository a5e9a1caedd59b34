ghost use Rattle.std.specs.Prelude.{◌≡◌, ◌≤◌, ◌&&◌, ◌==◌, not, length};
ghost use Rattle.mst_net.specs.tables.Table.{tree_in};
ghost use Rattle.mst_edits.specs.TableLines.{moved_to as moved_of, with_tree};

use crate::runs::insert;
use mst_ids::{Tree, VidSet};

/// The VIDs that one table has in a tree and another one hasn't.
pub(crate) fn moved_to(before: &[Tree], after: &[Tree], tree: Tree) -> VidSet
    requires before { length before.now ≡ 4094 }
    requires after { length after.now ≡ 4094 }
    ensures { result ≡ moved_of before.now after.now tree }
{
    let mut vids = VidSet::none();
    for number in 1..4095u16 {
        if is_moved(before, after, number, tree) {
            insert(number, &mut vids);
        }
    }
    vids
}

/// Whether one table maps a VID to a tree and another one doesn't.
fn is_moved(before: &[Tree], after: &[Tree], number: u16, tree: Tree) -> bool
    requires before { length before.now ≡ 4094 }
    requires after { length after.now ≡ 4094 }
    requires least { 1 ≤ number }
    requires greatest { number ≤ 4094 }
    ensures { result ≡ (tree_in after.now number == tree && not (tree_in before.now number == tree)) }
{
    is_in(after, number, tree) && !is_in(before, number, tree)
}

/// Whether a table maps a VID to a tree.
fn is_in(table: &[Tree], number: u16, tree: Tree) -> bool
    requires long { length table.now ≡ 4094 }
    requires least { 1 ≤ number }
    requires greatest { number ≤ 4094 }
    ensures { result ≡ (tree_in table.now number == tree) }
{
    table[usize::from(number) - 1].value() == tree.value()
}

/// Adds the VIDs that a table has in a tree.
pub(crate) fn add_tree(table: &[Tree], tree: Tree, vids: &mut VidSet)
    requires { length table.now ≡ 4094 }
    ensures { vids.new ≡ with_tree table.now vids.old tree }
{
    let _set = vids.contains(0);
    for number in 1..4095u16 {
        if is_in(table, number, tree) {
            insert(number, vids);
        }
    }
}
