ghost use Rattle.std.specs.Prelude.{None, IfOk};
ghost use Rattle.mst_tool.specs.engine.print.Shape.{IsOpen};
ghost use Rattle.mst_questions.specs.Shown.{advice_row, explain_row, pairs_row, part_words, sweep_row};
ghost use Rattle.mst_tool.specs.Shown.{question_row};

use crate::asked::Asked;
use mst_advise::{Goal, SweepPart};
use mst_kinds::{Kind, Query};
use mst_rows::Value;
use mst_tool::{Form, Printer, open_question};
use std::alloc::{AllocError, Global};

/// A printer of what explains a port.
pub(crate) fn open_explanation(
    alloc: Global,
    form: Form,
    asked: &Asked,
) -> Result<Printer, AllocError>
    ensures { IfOk result (IsOpen form None (explain_row asked.now)) }
{
    let bridge = Value::Name(&asked.port.bridge);
    let number = Value::Number(u64::from(asked.port.number.value()));
    match asked.tree {
        None => Printer::open(
            alloc,
            form,
            None,
            Kind::Query(Query::Explain),
            &[bridge, number],
        ),
        Some(tree) => {
            let tree = Value::Number(u64::from(tree.value()));
            let words = [bridge, number, tree];
            Printer::open(alloc, form, None, Kind::Query(Query::ExplainIn), &words)
        }
    }
}

/// A printer of what advises.
pub(crate) fn open_advice(alloc: Global, form: Form, goal: &Goal) -> Result<Printer, AllocError>
    ensures { IfOk result (IsOpen form None (advice_row goal.now)) }
{
    match goal {
        Goal::Root { tree, bridge } => {
            let tree = Value::Number(u64::from(tree.value()));
            let words = [tree, Value::Name(bridge)];
            Printer::open(alloc, form, None, Kind::Query(Query::AdviseRoot), &words)
        }
        Goal::Forward { tree, port } => {
            let tree = Value::Number(u64::from(tree.value()));
            let bridge = Value::Name(&port.bridge);
            let number = Value::Number(u64::from(port.number.value()));
            let words = [tree, bridge, number];
            Printer::open(alloc, form, None, Kind::Query(Query::AdviseForward), &words)
        }
    }
}

/// A printer of what single failures do.
pub(crate) fn open_sweep(alloc: Global, form: Form, part: SweepPart) -> Result<Printer, AllocError>
    ensures { IfOk result (IsOpen form None (sweep_row part)) }
{
    if part.count() == 1 {
        open_question(alloc, form, Query::Sweep)
    } else {
        open_part(alloc, form, Query::SweepPart, part)
    }
}

/// A printer of what pairs of failures do.
pub(crate) fn open_pairs(alloc: Global, form: Form, part: SweepPart) -> Result<Printer, AllocError>
    ensures { IfOk result (IsOpen form None (pairs_row part)) }
{
    if part.count() == 1 {
        open_question(alloc, form, Query::SweepPairs)
    } else {
        open_part(alloc, form, Query::SweepPairsPart, part)
    }
}

/// A printer of what a part of the failures or of the pairs does.
fn open_part(
    alloc: Global,
    form: Form,
    question: Query,
    part: SweepPart,
) -> Result<Printer, AllocError>
    ensures { IfOk result (IsOpen form None (question_row question (part_words part))) }
{
    let words = [Value::Number(part.number()), Value::Number(part.count())];
    Printer::open(alloc, form, None, Kind::Query(question), &words)
}
