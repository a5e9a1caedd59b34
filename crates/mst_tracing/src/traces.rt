ghost use Rattle.std.specs.Prelude.{◌≡◌, ◌≤◌, ◌∷◌, [], ◌^◌, ℕ, false, None, Option, List, IfOk, OnOk, OnErr};
ghost use Rattle.std.specs.Io.KnownBytes.{Appends};
ghost use Rattle.mst_drive.specs.Turned.{Turned, turning};
ghost use Rattle.mst_drive.specs.Words.{Ended, HasTold, one_input};
ghost use Rattle.mst_tool.specs.engine.Served.{IsFew};
ghost use Rattle.mst_tool.specs.engine.print.Shape.{IsOpen, of_script};
ghost use Rattle.mst_tool.specs.engine.report.Planned.{planned_state};
ghost use Rattle.mst_tool.specs.Load.{LoadsEnded};
ghost use Rattle.mst_io.specs.Devices.{HearsWhere, IsStopped, Works, seen_by, stopped_by};
ghost use Rattle.mst_io.specs.Written.{AppendsFront};
ghost use Rattle.mst_tracing.specs.Ends.{untraced_of};
ghost use Rattle.mst_tracing.specs.Trace.{IsAnswer, answer_text, counted_with, is_refused, told_of, tracing};
ghost use Rattle.mst_tracing.specs.Tracing.{asked_row};
ghost use Rattle.mst_tracing.specs.declared.asked.PathQuestion.TheVariants.{Path};

use crate::asked::{Asked, PathQuestion};
use crate::ends::why_untraced;
use crate::laws::one_trace;
use crate::tracing::put_trace;
use mst_drive::Word;
use mst_io::{FromRead, Outcome, RunFault, Sink, Source, TURNS, ToWrite, WriteFailed, put};
use mst_kinds::{Kind, Query, RefusalLine};
use mst_lang::Fault;
use mst_net::Refusal;
use mst_rows::Value;
use mst_tool::laws::{one_load, states};
use mst_tool::{Form, Input, Planner, Printer, Shape, Side, put_unanswered, serve_first};
use std::alloc::{AllocError, Global};
use std::io::{Read, Write};

/// What is told of a path that is asked for.
#[derive(Drop)]
pub enum PathAnswer {
    /// The path, and what becomes of it, where that is asked; and whether there is none, now or after some failure.
    Told { text: Vec<u8>, is_broken: bool },
    /// The words ask nothing.
    Unread(Fault),
    /// The path can't be asked for.
    Refused(Refusal),
}

/// Loads the network of the script that the reader gives, and writes the path that is asked for. Where nothing meets want of memory, what is
/// written is a function of the script and of what is asked.
///
/// The script is read as by [`run`](mst_tool::run), but its queries and its marks do nothing and print nothing, and none is refused. After
/// its lines the answer is written: `path VID A B hops N` and a line for each hop, or `path VID A B none`, also where A or B is off; and where
/// it is asked what becomes of it after each single failure but those of A and of B, a line for each after which it is another one or there
/// is none any more, and a last one that counts them. Where that isn't told, a line `path CODE TEXT` says why, by the first of these: the fault
/// of the words, where they ask for nothing, or that there is no bridge of a name. That counts as one refused line more, and that there is no
/// path, now or after some failure, as one that differs.
///
/// The reader and the writer are called as by [`run`](mst_tool::run). After [`RunFault::Read`] all that the complete lines print has gone
/// out, of what was read; after [`RunFault::Memory`] all that the script's lines print, where there was no memory for the answer; after
/// [`RunFault::Write`] a front of both.
pub fn trace<R: Read + Drop, W: Write>(
    alloc: Global,
    form: Form,
    question: &PathQuestion,
    mut reader: R,
    writer: &mut W,
) -> Result<Outcome, RunFault>
    ensures ended { (left : Option (List ℕ)) × Ended (tracing form question.now) (one_input (R.remaining reader)) (one_input left) (W.contents writer.old) (W.contents writer.new) result }
{
    let mut source = FromRead::new(&mut reader);
    let mut sink = ToWrite::new(writer);
    trace_within(alloc, form, question, &mut source, &mut sink, TURNS)
}

/// Asks the network of the script that the source gives for a path, in so many turns, as [`trace`] does: it is that with 2^32 of them. A turn
/// is one call of the source, the one that finds the end included.
///
/// [`RunFault::Read`] is answered just where the sink works and the source has failed, or all turns were used and none found the end;
/// [`RunFault::Write`] just where the sink has failed, or took nothing of a part that had a byte.
pub fn trace_within<S: Source, K: Sink>(
    alloc: Global,
    form: Form,
    question: &PathQuestion,
    source: &mut S,
    sink: &mut K,
    turns: u64,
) -> Result<Outcome, RunFault>
    requires source { (S.told source.old).failed ≡ false }
    requires sink { (K.told sink.old).failed ≡ false }
    requires turns { turns ≤ 2 ^ 32 }
    ensures ended { Ended (tracing form question.now) (one_input (S.remaining source.old)) (one_input (S.remaining source.new)) (K.contents sink.old) (K.contents sink.new) result }
    ensures turned { Turned turns (turning (seen_by S.told S.remaining S.lent) source.old source.new ∷ []) (seen_by K.told K.contents K.lent sink.old) (seen_by K.told K.contents K.lent sink.new) (stopped_by result) }
    ensures lent_source { S.lent source.new ≡ S.lent source.old }
    ensures lent_sink { K.lent sink.new ≡ K.lent sink.old }
    ensures heard { HearsWhere S.hears (HasTold (LoadsEnded (of_script form) (S.remaining source.old)) S.remaining (seen_by K.told K.contents K.lent sink.old)) source.old source.new }
{
    states();
    one_load();
    one_trace();
    let shape = Shape {
        form,
        side: Side::Only,
    };
    match serve_first(alloc, Input::Network(shape), source, sink, turns) {
        Err(fault) => Err(fault),
        Ok(mut serving) => {
            let served = serving.engine.outcome();
            match traced(alloc, &mut serving.engine.planner, form, question) {
                Err(_) => Err(RunFault::Memory),
                Ok(answer) => match put_traced(sink, form, &answer) {
                    Err(_) => Err(RunFault::Write),
                    Ok(()) => Ok(with_answer(&served, &answer)),
                },
            }
        }
    }
}

/// The path that is asked for in the network of a script, in this form.
#[derive(Clone, Copy)]
pub struct PathWord {
    pub alloc: Global,
    pub form: Form,
    pub question: PathQuestion,
}

impl Word for PathWord {
    ghost use Rattle.mst_tracing.specs.Trace.{tracing};

    ghost count = { λ _. 1 };

    ghost telling = { λ word. tracing word.form word.question };

    fn serve<F: Source, S: Source, T: Source, K: Sink>(
        &self,
        first: &mut F,
        _second: &mut S,
        _third: &mut T,
        sink: &mut K,
        turns: u64,
    ) -> Result<Outcome, RunFault> {
        trace_within(self.alloc, self.form, &self.question, first, sink, turns)
    }
}

/// The answer to what is asked, of the planner's network as it stands. It stays as it is, with its mark. `AllocError`: memory was wanted and
/// refused. Words that ask nothing are told without memory, and so is a name that no bridge has.
pub fn traced(
    alloc: Global,
    planner: &mut Planner,
    form: Form,
    question: &PathQuestion,
) -> Result<PathAnswer, AllocError>
    ensures answer { IfOk result (λ answer. IsAnswer form (planned_state planner.old).net question.now (told_of answer) (answer_text form answer)) }
    ensures memory { OnErr result (is_refused (planned_state planner.old).net question.now ≡ false) }
    ensures state { planned_state planner.new ≡ planned_state planner.old }
{
    match question {
        PathQuestion::Unread(fault) => Ok(PathAnswer::Unread(*fault)),
        PathQuestion::Path(asked) => told(alloc, planner, form, asked),
    }
}

/// Tells a path. `AllocError`: memory was wanted and refused. That there is no bridge of a name comes first.
fn told(
    alloc: Global,
    planner: &mut Planner,
    form: Form,
    asked: &Asked,
) -> Result<PathAnswer, AllocError>
    ensures answer { IfOk result (λ answer. IsAnswer form (planned_state planner.old).net (Path asked.now) (told_of answer) (answer_text form answer)) }
    ensures memory { OnErr result (untraced_of (planned_state planner.old).net asked.now.trace ≡ None) }
    ensures state { planned_state planner.new ≡ planned_state planner.old }
{
    match why_untraced(planner.network(), &asked.trace) {
        Some(why) => Ok(PathAnswer::Refused(why)),
        None => told_by_plan(alloc, planner, form, asked),
    }
}

/// Tells a path between bridges that are there, once the plan is settled. `AllocError`: memory was wanted and refused.
fn told_by_plan(
    alloc: Global,
    planner: &mut Planner,
    form: Form,
    asked: &Asked,
) -> Result<PathAnswer, AllocError>
    requires there { untraced_of (planned_state planner.old).net asked.now.trace ≡ None }
    ensures answer { IfOk result (λ answer. IsAnswer form (planned_state planner.old).net (Path asked.now) (told_of answer) (answer_text form answer)) }
    ensures state { planned_state planner.new ≡ planned_state planner.old }
{
    planner.settle()?;
    let mut printer = open_trace(alloc, form, asked)?;
    let is_broken = put_trace(planner, asked, &mut printer)?;
    let text = printer.close()?;
    Ok(PathAnswer::Told { text, is_broken })
}

/// A printer of a path.
fn open_trace(alloc: Global, form: Form, asked: &Asked) -> Result<Printer, AllocError>
    ensures { IfOk result (IsOpen form None (asked_row asked.now)) }
{
    let trace = &asked.trace;
    let words = [
        Value::Number(u64::from(trace.vid.value())),
        Value::Name(&trace.from),
        Value::Name(&trace.to),
    ];
    let query = if asked.is_always {
        Query::PathAlways
    } else {
        Query::Path
    };
    Printer::open(alloc, form, None, Kind::Query(query), &words)
}

/// Writes an answer. After a failure a front of it went out.
pub fn put_traced<K: Sink>(sink: &mut K, form: Form, answer: &PathAnswer) -> Result<(), WriteFailed>
    requires working { (K.told sink.old).failed ≡ false }
    ensures ok { OnOk result (Appends (K.contents sink.old) (K.contents sink.new) (answer_text form answer.now)) }
    ensures err { OnErr result (AppendsFront (K.contents sink.old) (K.contents sink.new) (answer_text form answer.now)) }
    ensures works { OnOk result (Works (K.told sink.old) (K.told sink.new)) }
    ensures broken { OnErr result (IsStopped (K.told sink.old) (K.told sink.new)) }
    ensures lent { K.lent sink.new ≡ K.lent sink.old }
{
    match answer {
        PathAnswer::Told { text, .. } => put(sink, text.as_slice()),
        PathAnswer::Unread(fault) => {
            put_unanswered(sink, form, RefusalLine::Path, fault.code(), fault.text())
        }
        PathAnswer::Refused(why) => {
            put_unanswered(sink, form, RefusalLine::Path, why.code(), why.text())
        }
    }
}

/// What was counted of the script and of an answer to it.
fn with_answer(script: &Outcome, answer: &PathAnswer) -> Outcome
    requires few { IsFew script.now }
    ensures { result ≡ counted_with script.now (told_of answer.now) }
{
    let (refused, differing) = match answer {
        PathAnswer::Told {
            is_broken: false,
            ..
        } => (0, 0),
        PathAnswer::Told {
            is_broken: true,
            ..
        } => (0, 1),
        PathAnswer::Unread(_) | PathAnswer::Refused(_) => (1, 0),
    };
    Outcome {
        refused: script.refused + refused,
        memory: script.memory,
        differing: script.differing + differing,
    }
}
