ghost use Rattle.std.specs.Prelude.{◌++◌, ◌∷◌, [], List, IfOk, OnOk};
ghost use Rattle.mst_net.specs.tables.After.{after};
ghost use Rattle.mst_verdict.specs.Setting.{IsMade, after_lines, change_row, kept_or, refused_lines, rows_of_edit, rows_of_line, set_by};
ghost use Rattle.mst_rows.specs.Rows.{Row};

use mst_change::StepLine;
use mst_forest::config_laws::regions_stay;
use mst_forest::touches_regions;
use mst_kinds::{Kind, RefusalLine};
use mst_lang::Edit;
use mst_net::{Network, Refusal};
use mst_rows::{Rows, Value, put};
use std::alloc::AllocError;

/// What was made of lines.
#[derive(Clone, Copy)]
pub(crate) struct Made {
    /// How many of them are refused.
    pub(crate) refused: u64,
    /// None of them has touched a region.
    pub(crate) regions_stand: bool,
}

/// Puts that a line of a change is refused, by the number of its step.
fn put_refusal<'a, R: Rows>(
    step: u64,
    number: u64,
    code: &'a str,
    text: &'a str,
    out: &mut R,
) -> Result<(), AllocError>
    ensures { (first : R) (rows : List Row) → R.grew first out.old rows → OnOk result (R.grew first out.new (rows ++ change_row step number code.now text.now ∷ [])) }
{
    let values = [
        Value::Number(step),
        Value::Number(number),
        Value::Word(code.as_bytes()),
        Value::Word(text.as_bytes()),
    ];
    put::<R>(Kind::Refusal(RefusalLine::StepChange), &values, out)
}

/// Makes an edit of a change in a network, or puts that it is refused. `AllocError`: memory was wanted and refused.
fn make_edit<R: Rows>(
    network: &mut Network,
    step: u64,
    number: u64,
    edit: &Edit,
    out: &mut R,
) -> Result<Made, AllocError>
    ensures made { IfOk result (λ made. IsMade network.old network.new (kept_or network.old.net (after edit.now network.old.net)) (rows_of_edit step number (after edit.now network.old.net)) made) }
    ensures put { (first : R) (rows : List Row) → R.grew first out.old rows → OnOk result (R.grew first out.new (rows ++ rows_of_edit step number (after edit.now network.old.net))) }
{
    regions_stay();
    match network.prepare(edit) {
        Ok(ready) => {
            network.commit(ready);
            Ok(Made {
                refused: 0,
                regions_stand: !touches_regions(edit),
            })
        }
        Err(Refusal::E99) => Err(AllocError),
        Err(refusal) => {
            put_refusal(step, number, refusal.code(), refusal.text(), out)?;
            Ok(Made {
                refused: 1,
                regions_stand: true,
            })
        }
    }
}

/// Makes a line of a change in a network, or puts that it is refused.
fn make_line<R: Rows>(
    network: &mut Network,
    step: u64,
    line: &StepLine,
    out: &mut R,
) -> Result<Made, AllocError>
    ensures made { IfOk result (λ made. IsMade network.old network.new (set_by network.old.net line.now.read) (rows_of_line step network.old.net line.now) made) }
    ensures put { (first : R) (rows : List Row) → R.grew first out.old rows → OnOk result (R.grew first out.new (rows ++ rows_of_line step network.old.net line.now)) }
{
    match line.read() {
        Ok(edit) => make_edit(network, step, line.number(), edit, out),
        Err(fault) => {
            put_refusal(step, line.number(), fault.code(), fault.text(), out)?;
            Ok(Made {
                refused: 1,
                regions_stand: true,
            })
        }
    }
}

/// Makes the lines of a step of a change in a network, one after another, and puts which of them are refused. `AllocError`: memory was
/// wanted and refused; some of the lines may have been made, and some of the rows put.
pub(crate) fn make_lines<R: Rows>(
    network: &mut Network,
    step: u64,
    lines: &[StepLine],
    out: &mut R,
) -> Result<Made, AllocError>
    ensures made { IfOk result (λ made. IsMade network.old network.new (after_lines network.old.net lines.now) (refused_lines step network.old.net lines.now) made) }
    ensures put { (first : R) (rows : List Row) → R.grew first out.old rows → OnOk result (R.grew first out.new (rows ++ refused_lines step network.old.net lines.now)) }
{
    let mut refused = 0;
    let mut regions_stand = true;
    for line in lines {
        let made = make_line(network, step, line, out)?;
        refused += made.refused;
        regions_stand &= made.regions_stand;
    }
    Ok(Made {
        refused,
        regions_stand,
    })
}
