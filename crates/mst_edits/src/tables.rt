ghost use Rattle.std.specs.Prelude.{◌≡◌, ◌++◌, ◌∷◌, [], ◌<◌, length, map, IfOk, OnOk};
ghost use Rattle.mst_net.specs.tables.Table.{no_table};
ghost use Rattle.mst_edits.specs.TableLines.{edit_of, table_edits, direct_moves as direct_of, crowds as crowds_it, gathered as gathered_of, gathered_first as first_of, ways, with_way as with_way_of, table_after};

use crate::list::push_when;
use crate::moves::{Move, add_moves, is_one_line};
use crate::trees::{map_vids, mstis, tree_count, unwanted};
use crate::vids::{add_tree, moved_to};
use mst_ids::{Name, Tree, VidSet};
use mst_lang::{Edit, TreeChange};
use std::alloc::{AllocError, Global};

/// The most trees beside the CIST that a table may have.
const TREE_LIMIT: usize = 64;

/// Adds the edits that make one table of another.
pub(crate) fn add_table(
    alloc: Global,
    name: &Name,
    before: &[Tree],
    after: &[Tree],
    edits: &mut Vec<Edit>,
) -> Result<(), AllocError>
    requires before { length before.now ≡ 4094 }
    requires after { length after.now ≡ 4094 }
    ensures { OnOk result (edits.new.items ≡ edits.old.items ++ table_edits name.now before.now after.now) }
{
    if before == after {
        return Ok(());
    }
    let lines = direct_moves(alloc, name, before, after)?;
    let mut now = before.to_vec(alloc)?;
    for line in lines.as_slice() {
        let here = with_way(alloc, name, after, &now, line)?;
        make(name, &here, &mut now, edits)?;
    }
    Ok(())
}

/// Adds the edits that make a new bridge's table. Where that has room for its trees, so has each table on the way.
pub(crate) fn add_new_table(
    alloc: Global,
    name: &Name,
    after: &[Tree],
    edits: &mut Vec<Edit>,
) -> Result<(), AllocError>
    requires { length after.now ≡ 4094 }
    ensures { OnOk result (edits.new.items ≡ edits.old.items ++ table_edits name.now no_table after.now) }
{
    let before = [Tree::cist(); 4094];
    if tree_count(after) > TREE_LIMIT {
        return add_table(alloc, name, &before, after, edits);
    }
    let lines = direct_moves(alloc, name, &before, after)?;
    add_lines(name, &lines, edits)
}

/// Adds the edits of some lines.
fn add_lines(name: &Name, lines: &[Move], edits: &mut Vec<Edit>) -> Result<(), AllocError>
    ensures { OnOk result (edits.new.items ≡ edits.old.items ++ map (edit_of name.now) lines.now) }
{
    for line in lines {
        add_line(name, line, edits)?;
    }
    Ok(())
}

/// Adds the edit of a line.
fn add_line(name: &Name, line: &Move, edits: &mut Vec<Edit>) -> Result<(), AllocError>
    ensures { OnOk result (edits.new.items ≡ edits.old.items ++ edit_of name.now line.now ∷ []) }
{
    let edit = Edit::SetByTree(TreeChange::Table {
        bridge: *name,
        tree: line.tree,
        vids: line.vids,
    });
    push_when(true, &edit, edits)
}

/// The lines, were there room for each tree.
fn direct_moves(
    alloc: Global,
    name: &Name,
    before: &[Tree],
    after: &[Tree],
) -> Result<Vec<Move>, AllocError>
    requires before { length before.now ≡ 4094 }
    requires after { length after.now ≡ 4094 }
    ensures { IfOk result (λ moves. moves.items ≡ direct_of name.now before.now after.now) }
{
    let mut moves = Vec::new(alloc);
    let cist = Tree::cist();
    add_moves(name, cist, &moved_to(before, after, cist), &mut moves)?;
    let trees = mstis(alloc, after)?;
    for tree in trees.as_slice() {
        add_moves(name, *tree, &moved_to(before, after, *tree), &mut moves)?;
    }
    Ok(moves)
}

/// A line, behind those that have to go before it.
fn with_way(
    alloc: Global,
    name: &Name,
    after: &[Tree],
    now: &[Tree],
    line: &Move,
) -> Result<Vec<Move>, AllocError>
    requires now { length now.now ≡ 4094 }
    ensures { IfOk result (λ moves. moves.items ≡ with_way_of name.now after.now now.now line.now) }
{
    let mut moves = Vec::new(alloc);
    if crowds(alloc, now, line)? {
        add_ways(alloc, name, after, now, line, &mut moves)?;
    }
    moves.push(*line)?;
    Ok(moves)
}

/// Whether a line would make a 65th tree of a table.
fn crowds(alloc: Global, now: &[Tree], line: &Move) -> Result<bool, AllocError>
    requires { length now.now ≡ 4094 }
    ensures { IfOk result (λ many. many ≡ crowds_it now.now line.now) }
{
    let mut then = now.to_vec(alloc)?;
    map_vids(&mut then, &line.vids, line.tree);
    Ok(tree_count(&then) > TREE_LIMIT)
}

/// Adds the lines that go before a line: those of VIDs that it would leave in trees that aren't wanted.
fn add_ways(
    alloc: Global,
    name: &Name,
    after: &[Tree],
    now: &[Tree],
    line: &Move,
    moves: &mut Vec<Move>,
) -> Result<(), AllocError>
    requires { length now.now ≡ 4094 }
    ensures { OnOk result (moves.new.items ≡ moves.old.items ++ ways name.now after.now now.now line.now) }
{
    let mut left = now.to_vec(alloc)?;
    map_vids(&mut left, &line.vids, Tree::cist());
    let trees = unwanted(alloc, after, &left)?;
    let vids = gathered_first(alloc, name, &left, &trees)?;
    add_moves(name, Tree::cist(), &vids, moves)
}

/// The VIDs of the first of some trees, and of the next ones where one line holds its.
fn gathered_first(
    alloc: Global,
    name: &Name,
    table: &[Tree],
    trees: &[Tree],
) -> Result<VidSet, AllocError>
    requires { length table.now ≡ 4094 }
    ensures { IfOk result (λ vids. vids ≡ first_of name.now table.now trees.now) }
{
    match trees {
        [] => Ok(VidSet::none()),
        [tree, others @ ..] => {
            let mut vids = VidSet::none();
            add_tree(table, *tree, &mut vids);
            if !is_one_line(alloc, name, &vids)? {
                return Ok(vids);
            }
            gathered(alloc, name, table, &vids, others)
        }
    }
}

/// VIDs, and those of the next trees as long as one line holds them.
fn gathered(
    alloc: Global,
    name: &Name,
    table: &[Tree],
    vids: &VidSet,
    trees: &[Tree],
) -> Result<VidSet, AllocError>
    requires { length table.now ≡ 4094 }
    ensures { IfOk result (λ all. all ≡ gathered_of name.now table.now vids.now trees.now) }
{
    let mut all = *vids;
    for tree in trees {
        let mut more = all;
        add_tree(table, *tree, &mut more);
        if !is_one_line(alloc, name, &more)? {
            return Ok(all);
        }
        all = more;
    }
    Ok(all)
}

/// Adds the edits of some lines, and maps their VIDs in the table.
fn make(
    name: &Name,
    lines: &[Move],
    now: &mut [Tree],
    edits: &mut Vec<Edit>,
) -> Result<(), AllocError>
    requires { length now.old ≡ 4094 }
    ensures edits { OnOk result (edits.new.items ≡ edits.old.items ++ map (edit_of name.now) lines.now) }
    ensures table { OnOk result (now.new ≡ table_after now.old lines.now) }
{
    for line in lines {
        add_line(name, line, edits)?;
        map_vids(now, &line.vids, line.tree);
    }
    Ok(())
}
