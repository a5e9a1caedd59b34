ghost use Rattle.std.specs.Prelude.{◌++◌, ◌∷◌, [], List, OnOk, if◌then◌else◌, map};
ghost use Rattle.mst_rows.specs.Rows.{Row};
ghost use Rattle.mst_telling.specs.Judged.{AreTexts, found_at};
ghost use Rattle.mst_telling.specs.Rows.{missing_row, reason_row, row_at};
ghost use Rattle.mst_telling.specs.Texts.{news};
ghost use Rattle.mst_telling.specs.Told.{found_rows, reason_rows};

use crate::judgement::Finding;
use crate::kept::KeptReason;
use crate::reason::{At, put_reason, reason_text};
use crate::refused::{missing_text, put_missing};
use crate::texts::Texts;
use mst_reasons::{Cause, Missing};
use mst_rows::Rows;
use std::alloc::{AllocError, Global};

/// Puts what a line lacks, unless its line of text is among these.
pub(crate) fn put_missing_unless<R: Rows>(
    alloc: Global,
    at: At,
    missing: Missing,
    texts: &Texts,
    out: &mut R,
) -> Result<(), AllocError>
    ensures { (those : List Row) → AreTexts those texts.now → (first : R) (rows : List Row) → R.grew first out.old rows
        → OnOk result (R.grew first out.new (rows ++ map (row_at at.step) (news those (missing_row at.number missing ∷ [])))) }
{
    let text = missing_text(alloc, at.number, missing)?;
    if texts.has(text.as_slice()) {
        return Ok(());
    }
    put_missing(at, missing, out)
}

/// Puts a reason in a place, if that is wanted and its line of text isn't among those told.
pub(crate) fn put_if_new<R: Rows>(
    alloc: Global,
    is_wanted: bool,
    at: At,
    place: &Option<Cause>,
    reason: &KeptReason,
    told: &Texts,
    out: &mut R,
) -> Result<(), AllocError>
    ensures { (those : List Row) → AreTexts those told.now → (first : R) (rows : List Row) → R.grew first out.old rows
        → OnOk result (R.grew first out.new (rows ++ map (row_at at.step) (news those (if is_wanted then reason_row at.number place.now reason.now ∷ [] else [])))) }
{
    if !is_wanted {
        return Ok(());
    }
    let text = reason_text(alloc, at.number, place, reason)?;
    if told.has(text.as_slice()) {
        return Ok(());
    }
    put_reason(alloc, at, place, reason, out)
}

/// Puts those reasons in a place whose line of text isn't among these.
pub(crate) fn put_unless<R: Rows>(
    alloc: Global,
    at: At,
    place: &Option<Cause>,
    reasons: &[KeptReason],
    texts: &Texts,
    out: &mut R,
) -> Result<(), AllocError>
    ensures { (those : List Row) → AreTexts those texts.now → (first : R) (rows : List Row) → R.grew first out.old rows
        → OnOk result (R.grew first out.new (rows ++ map (row_at at.step) (news those (reason_rows at.number place.now reasons.now)))) }
{
    for reason in reasons {
        put_if_new(alloc, true, at, place, reason, texts, out)?;
    }
    Ok(())
}

/// Puts those of all places.
pub(crate) fn put_all_unless<R: Rows>(
    alloc: Global,
    at: At,
    found: &[Finding],
    n: usize,
    texts: &Texts,
    out: &mut R,
) -> Result<(), AllocError>
    ensures { (those : List Row) → AreTexts those texts.now → (first : R) (rows : List Row) → R.grew first out.old rows
        → OnOk result (R.grew first out.new (rows ++ map (row_at at.step) (news those (found_rows at.number (map (found_at n) found.now))))) }
{
    for finding in found {
        put_unless(alloc, at, &finding.place, finding.reasons_of(n), texts, out)?;
    }
    Ok(())
}
