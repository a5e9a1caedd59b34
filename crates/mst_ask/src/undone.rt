ghost use Rattle.std.specs.Prelude.{◌≡◌, ◌++◌, List, IfOk, OnOk};
ghost use Rattle.mst_questions.specs.tool.engine.print.Shape.{listed};
ghost use Rattle.mst_rows.specs.Rows.{Row};
ghost use Rattle.mst_ask.specs.Kept.{rows_of};

use mst_kinds::{AskLine, Kind};
use mst_questions::Form;
use mst_rows::{JsonLines, Rows, Value, put};
use std::alloc::{AllocError, Global};

/// What is printed of edits that were taken back: their lines, the newest, which is the last of them, first. `AllocError`: memory was
/// wanted and refused.
pub(crate) fn undone_text(
    alloc: Global,
    form: Form,
    lines: &[Vec<u8>],
) -> Result<Vec<u8>, AllocError>
    ensures { IfOk result (λ text. text.items ≡ listed form (rows_of lines.now)) }
{
    let out = Vec::new(alloc);
    match form {
        Form::Text => {
            let mut text = out;
            put_undone::<Vec<u8>>(lines, &mut text)?;
            Ok(text)
        }
        Form::Json => {
            let mut records = JsonLines { out };
            put_undone::<JsonLines>(lines, &mut records)?;
            Ok(records.out)
        }
    }
}

/// Puts a row for each line, the last one first. `AllocError`: memory was wanted and refused; some of the rows may have been put.
fn put_undone<R: Rows>(lines: &[Vec<u8>], out: &mut R) -> Result<(), AllocError>
    ensures { (first : R) (before : List Row) → R.grew first out.old before → OnOk result (R.grew first out.new (before ++ rows_of lines.now)) }
{
    let mut left = lines.len();
    while left > 0 {
        left -= 1;
        let values = [Value::Word(lines[left].as_slice())];
        put::<R>(Kind::Ask(AskLine::Undone), &values, out)?;
    }
    Ok(())
}
