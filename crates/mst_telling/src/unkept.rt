ghost use Rattle.std.specs.Prelude.{◌++◌, List, IfOk, OnOk, map};
ghost use Rattle.mst_rows.specs.Rows.{Row};
ghost use Rattle.mst_telling.specs.Judged.{AreTexts, line_found, line_rows};
ghost use Rattle.mst_telling.specs.Lines.{unkept_by, unkept_rows};
ghost use Rattle.mst_telling.specs.Rows.{row_at};
ghost use Rattle.mst_telling.specs.Texts.{news};

use crate::judgement::{Finding, Judgement};
use crate::news::put_all_unless;
use crate::once::{put_folded, tells_once};
use crate::reason::At;
use crate::refused::put_lacking;
use crate::texts::Texts;
use mst_policy::{PolicyLine, Promise};
use mst_rows::Rows;
use std::alloc::{AllocError, Global};

/// Puts why the line at a place of the list isn't kept, and nothing whose line of text is among these.
fn put_promise<R: Rows>(
    alloc: Global,
    at: At,
    promise: &Promise,
    n: usize,
    found: &[Finding],
    texts: &Texts,
    out: &mut R,
) -> Result<(), AllocError>
    ensures { (those : List Row) → AreTexts those texts.now → (first : R) (rows : List Row) → R.grew first out.old rows
        → OnOk result (R.grew first out.new (rows ++ map (row_at at.step) (news those (unkept_rows at.number promise.now (line_found n found.now))))) }
{
    match tells_once(&promise.scope) {
        true => put_folded(alloc, at, &promise.scope, n, found, texts, out),
        false => put_all_unless(alloc, at, found, n, texts, out),
    }
}

/// The same, if the line promises something.
pub(crate) fn put_unkept<R: Rows>(
    alloc: Global,
    step: Option<u64>,
    line: &PolicyLine,
    n: usize,
    found: &[Finding],
    texts: &Texts,
    out: &mut R,
) -> Result<(), AllocError>
    ensures { (those : List Row) → AreTexts those texts.now → (first : R) (rows : List Row) → R.grew first out.old rows
        → OnOk result (R.grew first out.new (rows ++ map (row_at step) (news those (unkept_by line.now.number line.now.read (line_found n found.now))))) }
{
    match line.promise() {
        None => Ok(()),
        Some(promise) => {
            let at = At {
                step,
                number: line.number,
            };
            put_promise(alloc, at, promise, n, found, texts, out)
        }
    }
}

/// The lines of text of the line at a place of the list.
pub(crate) fn texts_of(
    alloc: Global,
    line: &PolicyLine,
    n: usize,
    judgement: &Judgement,
) -> Result<Texts, AllocError>
    ensures { IfOk result (AreTexts (line_rows n line.now judgement.now)) }
{
    let at = At {
        step: None,
        number: line.number,
    };
    let found = judgement.found.as_slice();
    let none = Texts::new(alloc);
    let mut texts = Texts::new(alloc);
    put_lacking(at, judgement.lacks(n), &mut texts)?;
    put_unkept(alloc, None, line, n, found, &none, &mut texts)?;
    Ok(texts)
}
