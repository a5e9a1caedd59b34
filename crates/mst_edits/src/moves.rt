ghost use Rattle.std.specs.Prelude.{◌≡◌, ℕ, ◌+◌, ◌<◌, ◌≤◌, ◌++◌, ◌∷◌, [], ◌==◌, List, length, IfOk, OnOk, decimal};
ghost use Rattle.mst_ids.specs.Vids.{run_text};
ghost use Rattle.mst_edits.specs.Runs.{vids_of};
ghost use Rattle.mst_edits.specs.TableLines.{move, moves_to, is_one_line as has_one_line};

use crate::runs::{digits, run_length, with_run};
use mst_ids::{Name, Tree, VidSet};
use std::alloc::{AllocError, Global};

/// The most bytes that a line may have.
const LONGEST: usize = 4096;

/// VIDs that one line maps to a tree.
#[derive(Clone, Copy)]
pub(crate) struct Move {
    pub(crate) tree: Tree,
    pub(crate) vids: VidSet,
}

/// Adds the lines that map VIDs to a tree: each has as many runs as fit.
pub(crate) fn add_moves(
    name: &Name,
    tree: Tree,
    vids: &VidSet,
    moves: &mut Vec<Move>,
) -> Result<(), AllocError>
    ensures { OnOk result (moves.new.items ≡ moves.old.items ++ moves_to name.now tree vids.now) }
{
    let _set = vids.contains(0);
    let Some(run) = vids.run_from(0) else {
        return Ok(());
    };
    let mut line = begun(name, tree, run);
    let mut next = run.1 + 1;
    while let Some(run) = vids.run_from(next) {
        line = add_next(name, tree, &line, run, moves)?;
        next = run.1 + 1;
    }
    moves.push(Move {
        tree,
        vids: line.vids,
    })?;
    Ok(())
}

/// A line that isn't added yet: its VIDs, and how many bytes it has.
#[derive(Clone, Copy)]
struct Line {
    vids: VidSet,
    length: usize,
}

/// The line of one run.
fn begun(name: &Name, tree: Tree, run: (u16, u16)) -> Line
    requires least { 1 ≤ run.0 }
    requires order { run.0 ≤ run.1 }
    requires greatest { run.1 ≤ 4094 }
    ensures vids { result.vids ≡ vids_of (run ∷ []) }
    ensures long { result.length ≡ 15 + length name.now + length (decimal tree) + length (run_text run) }
    ensures short { result.length ≤ 4096 }
{
    Line {
        vids: with_run(&VidSet::none(), run),
        length: 15 + name.as_bytes().len() + digits(tree.value()) + run_length(run),
    }
}

/// The line with the next run, where it then fits; else it adds this one, and begins the next one with the run.
fn add_next(
    name: &Name,
    tree: Tree,
    line: &Line,
    run: (u16, u16),
    moves: &mut Vec<Move>,
) -> Result<Line, AllocError>
    requires short { line.now.length ≤ 4096 }
    requires least { 1 ≤ run.0 }
    requires order { run.0 ≤ run.1 }
    requires greatest { run.1 ≤ 4094 }
    ensures longer { (runs : List (ℕ × ℕ)) → line.now.vids ≡ vids_of runs → line.now.length + 1 + length (run_text run) ≤ 4096
        → IfOk result (λ new. (new.vids ≡ vids_of (runs ++ run ∷ [])) × (new.length ≡ line.now.length + 1 + length (run_text run))) }
    ensures next { 4096 < line.now.length + 1 + length (run_text run)
        → IfOk result (λ new. (new.vids ≡ vids_of (run ∷ [])) × (new.length ≡ 15 + length name.now + length (decimal tree) + length (run_text run)) × (new.length ≤ 4096)) }
    ensures waits { line.now.length + 1 + length (run_text run) ≤ 4096 → OnOk result (moves.new.items ≡ moves.old.items) }
    ensures adds { 4096 < line.now.length + 1 + length (run_text run) → OnOk result (moves.new.items ≡ moves.old.items ++ move tree line.now.vids ∷ []) }
{
    let length = line.length + 1 + run_length(run);
    if length <= LONGEST {
        let vids = with_run(&line.vids, run);
        return Ok(Line { vids, length });
    }
    moves.push(Move {
        tree,
        vids: line.vids,
    })?;
    Ok(begun(name, tree, run))
}

/// Whether one line maps VIDs to the CIST.
pub(crate) fn is_one_line(alloc: Global, name: &Name, vids: &VidSet) -> Result<bool, AllocError>
    ensures { IfOk result (λ one. one ≡ has_one_line name.now vids.now) }
{
    let mut moves = Vec::new(alloc);
    add_moves(name, Tree::cist(), vids, &mut moves)?;
    Ok(moves.len() == 1)
}
