ghost use Rattle.std.specs.Prelude.{◌≡◌, ◌++◌, ◌∷◌, [], List, IfOk, OnOk, map};
ghost use Rattle.mst_rows.specs.Lines.{row_line};
ghost use Rattle.mst_rows.specs.Rows.{Row};
ghost use Rattle.mst_graph.specs.Lists.{has_any};
ghost use Rattle.mst_telling.specs.Rows.{missing_row, refused_row, row_at};
ghost use Rattle.mst_telling.specs.Told.{missing_rows, unread_rows};

use crate::reason::At;
use mst_kinds::{Kind, RefusalLine};
use mst_policy::{PolicyLine, text};
use mst_reasons::Missing;
use mst_rows::{Rows, Value, put};
use std::alloc::{AllocError, Global};

/// Puts that a line is refused.
fn put_refusal<'a, R: Rows>(
    at: At,
    code: &'a str,
    text: &'a str,
    out: &mut R,
) -> Result<(), AllocError>
    ensures { (first : R) (rows : List Row) → R.grew first out.old rows → OnOk result (R.grew first out.new (rows ++ row_at at.step (refused_row at.number code.now text.now) ∷ [])) }
{
    let number = Value::Number(at.number);
    let code = Value::Word(code.as_bytes());
    let text = Value::Word(text.as_bytes());
    match at.step {
        None => {
            let values = [number, code, text];
            put::<R>(Kind::Refusal(RefusalLine::Policy), &values, out)
        }
        Some(step) => {
            let values = [Value::Number(step), number, code, text];
            put::<R>(Kind::Refusal(RefusalLine::StepPolicy), &values, out)
        }
    }
}

/// Puts that a line, or a policy as a whole, is refused for what it lacks.
pub(crate) fn put_missing<R: Rows>(at: At, missing: Missing, out: &mut R) -> Result<(), AllocError>
    ensures { (first : R) (rows : List Row) → R.grew first out.old rows → OnOk result (R.grew first out.new (rows ++ row_at at.step (missing_row at.number missing) ∷ [])) }
{
    put_refusal(at, missing.code(), missing.text(), out)
}

/// Puts that a line is refused for what it lacks, if it lacks something. Answers whether it does.
pub(crate) fn put_lacking<R: Rows>(
    at: At,
    missing: Option<Missing>,
    out: &mut R,
) -> Result<bool, AllocError>
    ensures is { IfOk result (λ is_any. is_any ≡ has_any (missing_rows at.number missing)) }
    ensures put { (first : R) (rows : List Row) → R.grew first out.old rows → OnOk result (R.grew first out.new (rows ++ map (row_at at.step) (missing_rows at.number missing))) }
{
    match missing {
        None => Ok(false),
        Some(missing) => {
            put_missing(at, missing, out)?;
            Ok(true)
        }
    }
}

/// Puts that a line can't be read, if it can't. Answers whether it can't.
pub fn put_unread<R: Rows>(
    step: Option<u64>,
    line: &PolicyLine,
    out: &mut R,
) -> Result<bool, AllocError>
    ensures is { IfOk result (λ is_any. is_any ≡ has_any (unread_rows line.now)) }
    ensures put { (first : R) (rows : List Row) → R.grew first out.old rows → OnOk result (R.grew first out.new (rows ++ map (row_at step) (unread_rows line.now))) }
{
    match &line.read {
        Ok(_) => Ok(false),
        Err(fault) => {
            let at = At {
                step,
                number: line.number,
            };
            put_refusal(at, fault.code(), text(*fault), out)?;
            Ok(true)
        }
    }
}

/// Puts that a line is refused for what it lacks, if it lacks something. Answers whether it does.
pub fn put_lacking_line<R: Rows>(
    line: &PolicyLine,
    missing: Option<Missing>,
    out: &mut R,
) -> Result<bool, AllocError>
    ensures is { IfOk result (λ is_any. is_any ≡ has_any (missing_rows line.now.number missing)) }
    ensures put { (first : R) (rows : List Row) → R.grew first out.old rows → OnOk result (R.grew first out.new (rows ++ missing_rows line.now.number missing)) }
{
    let at = At {
        step: None,
        number: line.number,
    };
    put_lacking(at, missing, out)
}

/// The line of text of what a line lacks.
pub(crate) fn missing_text(
    alloc: Global,
    number: u64,
    missing: Missing,
) -> Result<Vec<u8>, AllocError>
    ensures { IfOk result (λ text. text.items ≡ row_line (missing_row number missing)) }
{
    let mut text = Vec::new(alloc);
    put_missing(At { step: None, number }, missing, &mut text)?;
    Ok(text)
}
