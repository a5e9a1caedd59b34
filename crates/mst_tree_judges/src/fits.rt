ghost use Rattle.std.specs.Prelude.{◌≡◌, ◌++◌, IfOk, OnOk, filter_map, map};
ghost use Rattle.mst_rows.specs.Rows.{cell};
ghost use Rattle.mst_roles.specs.forest.Settled.{outcome_of};
ghost use Rattle.mst_judged.specs.reasons.Reasons.{AreFitsReasons, limit_in, limit_of, some_of, number_in as number_of, word_in as word_of};

use mst_judged::note_text_laws::notes;
use mst_judged::{Judged, Reason, Word, put_notes};
use mst_kinds::{Kind, NoteLine};
use mst_rows::{Rows, Value};
use std::alloc::{AllocError, Global};

/// The reasons of the notes that are put into it: of each limit that binds.
#[derive(Drop)]
struct Limits {
    alloc: Global,
    reasons: Vec<Reason>,
}

impl Rows for Limits {
    ghost use Rattle.std.specs.Prelude.{◌≡◌, ◌++◌, filter_map};
    ghost use Rattle.mst_judged.specs.reasons.Reasons.{limit_reason};

    ghost grew = { λ first now rows. now.reasons.items ≡ first.reasons.items ++ filter_map (λ note. limit_reason note.kind note.cells) rows };

    fn row(&mut self, kind: Kind, values: &[Value<'_>]) -> Result<(), AllocError> {
        match kind {
            Kind::Note(line) => add_note(self.alloc, line, values, &mut self.reasons),
            _ => Ok(()),
        }
    }
}

/// The number that a value is.
fn number_in(value: &Value<'_>) -> Option<u64>
    ensures { result ≡ number_of (cell value.now) }
{
    match value {
        Value::Number(number) => Some(*number),
        _ => None,
    }
}

/// The numbers among values.
fn numbers_in(alloc: Global, values: &[Value<'_>]) -> Result<Vec<u64>, AllocError>
    ensures { IfOk result (λ numbers. numbers.items ≡ filter_map (λ v. number_of (cell v)) values.now) }
{
    values
        .iter()
        .filter_map(|value| number_in(value))
        .collect(alloc)
}

/// The word that a value is.
fn word_in(alloc: Global, value: &Value<'_>) -> Result<Option<Word>, AllocError>
    ensures { IfOk result (λ word. word ≡ word_of (cell value.now)) }
{
    let mut bytes = Vec::new(alloc);
    match value {
        Value::Word(word) => bytes.extend_from_slice(word)?,
        Value::Name(name) => name.push_text(&mut bytes)?,
        Value::BridgeId(id) => id.push_text(&mut bytes)?,
        Value::PortId(id) => id.push_text(&mut bytes)?,
        Value::Mac(mac) => mac.push_text(&mut bytes)?,
        _ => return Ok(None),
    }
    Ok(Some(Word::of(bytes)))
}

/// Adds the reason of a note, if it is of a limit.
fn add_note(
    alloc: Global,
    line: NoteLine,
    values: &[Value<'_>],
    reasons: &mut Vec<Reason>,
) -> Result<(), AllocError>
    ensures { OnOk result (reasons.new.items ≡ reasons.old.items ++ some_of (limit_in line (map cell values.now))) }
{
    let [tree, bridge, others @ ..] = values else {
        return Ok(());
    };
    let Some(tree) = number_in(tree) else {
        return Ok(());
    };
    let Some(bridge) = word_in(alloc, bridge)? else {
        return Ok(());
    };
    let numbers = numbers_in(alloc, others)?;
    add_limit(line, tree, bridge, numbers.as_slice(), reasons)
}

/// Adds the reason of a note of this tree and this bridge, with the numbers behind them, if it is of a limit.
fn add_limit(
    line: NoteLine,
    tree: u64,
    bridge: Word,
    numbers: &[u64],
    reasons: &mut Vec<Reason>,
) -> Result<(), AllocError>
    ensures { OnOk result (reasons.new.items ≡ reasons.old.items ++ some_of (limit_of line tree bridge numbers.now)) }
{
    match (line, numbers) {
        (NoteLine::Hops, [depth, limit]) => reasons.push(Reason::Hops {
            tree,
            bridge,
            depth: *depth,
            limit: *limit,
        })?,
        (NoteLine::Age, [depth, limit]) => reasons.push(Reason::Age {
            tree,
            bridge,
            depth: *depth,
            limit: *limit,
        })?,
        (NoteLine::ExternalCost, [cost]) => reasons.push(Reason::ExternalCost {
            tree,
            bridge,
            cost: *cost,
        })?,
        (NoteLine::InternalCost, [cost]) => reasons.push(Reason::InternalCost {
            tree,
            bridge,
            cost: *cost,
        })?,
        _ => {}
    }
    Ok(())
}

/// Which limits bind. `AllocError`: memory was wanted and refused.
pub fn fits_reasons(alloc: Global, judged: &Judged) -> Result<Vec<Reason>, AllocError>
    ensures { IfOk result (λ reasons. AreFitsReasons judged.now.plan.now.net (outcome_of judged.now.plan.now) reasons.items) }
{
    judged.plan.known();
    notes();
    let mut limits = Limits {
        alloc,
        reasons: Vec::new(alloc),
    };
    put_notes(alloc, judged.plan, &mut limits)?;
    let Limits { alloc: _, reasons } = limits;
    Ok(reasons)
}
