ghost use Rattle.std.specs.Prelude.{◌≡◌, ◌≢◌, ◌+◌, ◌∷◌, [], ◌^◌, ◌<◌, ◌≤◌, false, true, Err, OnOk, OnErr};
ghost use Rattle.std.specs.Io.KnownBytes.{Appends};
ghost use Rattle.mst_drive.specs.Turned.{Turned, turning};
ghost use Rattle.mst_drive.specs.Words.{Ended, HasTold, Inputs, Wrote, WroteFront, two_inputs};
ghost use Rattle.mst_engine.specs.Engine.{tally_of, outcome_of};
ghost use Rattle.mst_engine.specs.Served.{IsFew, Served, ServedEnded, Serves, both};
ghost use Rattle.mst_engine.specs.declared.engine.Input.TheVariants.{Captures};
ghost use Rattle.mst_engine.specs.report.Planned.{planned_state};
ghost use Rattle.mst_io.specs.Devices.{HearsWhere, Works, IsStopped, seen_by, stopped_by};
ghost use Rattle.mst_io.specs.Written.{AppendsFront};
ghost use Rattle.mst_engine.specs.print.Shape.{listed};
ghost use Rattle.mst_tool.specs.Run.{PrintsEnded};
ghost use Rattle.mst_tool.specs.Check.{ComparesEnded, checking, counted_captures, idle_text, is_idle as is_idle_by, none_row};

use crate::served::serve_first;
use mst_drive::Word;
use mst_engine::laws::{has_steps, one_comparison, one_run, states};
use mst_engine::{Engine, Form, Input, Serving, serve_input};
use mst_io::{FromRead, Outcome, RunFault, Sink, Source, TURNS, ToWrite, WriteFailed, put};
use std::alloc::Global;
use std::io::{Read, Write};

/// Runs the script that the first reader gives, as [`run`](crate::run) does, and then compares each captured message
/// that the second one gives with the plan that stands at the script's end. Where no line meets want of memory, what
/// is written is a function of the two inputs.
///
/// The captures are lines as a script's are, and count from 1 again. One that is blank, or whose first byte other
/// than space and tab is `#`, prints nothing. Each other one prints `capture N CODE TEXT` where it isn't read or has
/// no sender, `capture N B:P agrees`, or a line for each difference, and changes nothing. In [`Form::Json`] each of these
/// lines is a record on a line of its own. The captures are read once the script has ended. Where none of their lines is a message a
/// last line says so, `check captures 0 agree 0`, and counts as one refused line.
///
/// The readers and the writer are called as by [`run`](crate::run). After [`RunFault::Read`] all that the complete
/// lines print has gone out, of what was read; after [`RunFault::Memory`] all that the script prints, and no capture
/// was read; after [`RunFault::Write`] a front of what both print.
pub fn check<S: Read + Drop, C: Read + Drop, W: Write>(
    alloc: Global,
    form: Form,
    mut script: S,
    mut captures: C,
    writer: &mut W,
) -> Result<Outcome, RunFault>
    ensures ended { (left : Inputs) × Ended (checking form) (two_inputs (S.remaining script) (C.remaining captures)) left (W.contents writer.old) (W.contents writer.new) result }
{
    check_from(alloc, form, &mut script, &mut captures, writer)
}

/// The same as [`check`], for readers that the caller keeps: so its contract says how far they were read.
pub fn check_from<S: Read, C: Read, W: Write>(
    alloc: Global,
    form: Form,
    script: &mut S,
    captures: &mut C,
    writer: &mut W,
) -> Result<Outcome, RunFault>
    ensures ended { Ended (checking form) (two_inputs (S.remaining script.old) (C.remaining captures.old)) (two_inputs (S.remaining script.new) (C.remaining captures.new)) (W.contents writer.old) (W.contents writer.new) result }
{
    let mut script_source = FromRead::new(script);
    let mut captures_source = FromRead::new(captures);
    let mut sink = ToWrite::new(writer);
    check_within(
        alloc,
        form,
        &mut script_source,
        &mut captures_source,
        &mut sink,
        TURNS,
    )
}

/// Runs the script that the first source gives in so many turns, and compares the captures that the second one gives in
/// so many, as [`check`] does: it is that with 2^32 of them. A turn is one call of a source, the one that finds the end
/// included.
///
/// [`RunFault::Read`] is answered just where the sink works and a source has failed, or all turns of it were used and
/// none found the end; [`RunFault::Write`] just where the sink has failed, or took nothing of a part that had a byte. The second
/// source is called only where the first was read to its end, and not where [`RunFault::Memory`] is answered.
pub fn check_within<S: Source, C: Source, K: Sink>(
    alloc: Global,
    form: Form,
    script: &mut S,
    captures: &mut C,
    sink: &mut K,
    turns: u64,
) -> Result<Outcome, RunFault>
    requires script { (S.told script.old).failed ≡ false }
    requires captures { (C.told captures.old).failed ≡ false }
    requires sink { (K.told sink.old).failed ≡ false }
    requires turns { turns ≤ 2 ^ 32 }
    ensures ended { Ended (checking form) (two_inputs (S.remaining script.old) (C.remaining captures.old)) (two_inputs (S.remaining script.new) (C.remaining captures.new)) (K.contents sink.old) (K.contents sink.new) result }
    ensures unread { result ≡ Err RunFault.Memory → (C.told captures.new ≡ C.told captures.old) × (C.remaining captures.new ≡ C.remaining captures.old) }
    ensures turned { Turned turns (turning (seen_by S.told S.remaining S.lent) script.old script.new ∷ turning (seen_by C.told C.remaining C.lent) captures.old captures.new ∷ []) (seen_by K.told K.contents K.lent sink.old) (seen_by K.told K.contents K.lent sink.new) (stopped_by result) }
    ensures lent_script { S.lent script.new ≡ S.lent script.old }
    ensures lent_captures { C.lent captures.new ≡ C.lent captures.old }
    ensures lent_sink { K.lent sink.new ≡ K.lent sink.old }
    ensures heard_script { HearsWhere S.hears (HasTold (PrintsEnded form (S.remaining script.old)) S.remaining (seen_by K.told K.contents K.lent sink.old)) script.old script.new }
    ensures heard_captures { HearsWhere C.hears (HasTold (ComparesEnded form (S.remaining script.old) (C.remaining captures.old)) C.remaining (seen_by K.told K.contents K.lent sink.old)) captures.old captures.new }
{
    has_steps();
    states();
    one_run();
    one_comparison();
    match serve_first(alloc, Input::Script(form), script, sink, turns) {
        Err(fault) => Err(fault),
        Ok(mut serving) => {
            let served = serving.engine.outcome();
            match serving.engine.planner.settle() {
                Err(_) => Err(RunFault::Memory),
                Ok(()) => match serve_captures(&mut serving, form, captures, sink, turns) {
                    Err(fault) => Err(fault),
                    Ok(()) => match put_none(&serving.engine, form, sink) {
                        Err(_) => Err(RunFault::Write),
                        Ok(()) => Ok(sum_of(&served, &compared(&serving.engine))),
                    },
                },
            }
        }
    }
}

/// Compares all captured messages with the plan of the network as it stands.
fn serve_captures<C: Source, K: Sink>(
    serving: &mut Serving,
    form: Form,
    captures: &mut C,
    sink: &mut K,
    turns: u64,
) -> Result<(), RunFault>
    requires settled { serving.old.engine.planner.is_settled ≡ true }
    requires captures { (C.told captures.old).failed ≡ false }
    requires sink { (K.told sink.old).failed ≡ false }
    requires turns { turns ≤ 2 ^ 32 }
    ensures ok { OnOk result (Wrote (K.contents sink.old) (K.contents sink.new) (λ text. Served (Captures form) (planned_state serving.old.engine.planner) (C.remaining captures.old) text (tally_of serving.new.engine))) }
    ensures few { OnOk result (IsFew (outcome_of (tally_of serving.new.engine))) }
    ensures fault { OnErr result (WroteFront (K.contents sink.old) (K.contents sink.new) (Serves (Captures form) (planned_state serving.old.engine.planner) (C.remaining captures.old))) }
    ensures read { result ≡ Err RunFault.Read → Wrote (K.contents sink.old) (K.contents sink.new) (ServedEnded (Captures form) (planned_state serving.old.engine.planner) (C.remaining captures.old) (C.remaining captures.new)) }
    ensures memory { result ≢ Err RunFault.Memory }
    ensures turned { Turned turns (turning (seen_by C.told C.remaining C.lent) captures.old captures.new ∷ []) (seen_by K.told K.contents K.lent sink.old) (seen_by K.told K.contents K.lent sink.new) (stopped_by result) }
    ensures heard { HearsWhere C.hears (HasTold (ServedEnded (Captures form) (planned_state serving.old.engine.planner) (C.remaining captures.old)) C.remaining (seen_by K.told K.contents K.lent sink.old)) captures.old captures.new }
{
    serving.engine.restart();
    serving.input = Input::Captures(form);
    serve_input(serving, captures, sink, turns)
}

/// A check of captures against the plan of a script, in this form.
#[derive(Clone, Copy)]
pub struct CheckWord {
    pub alloc: Global,
    pub form: Form,
}

impl Word for CheckWord {
    ghost use Rattle.mst_tool.specs.Check.{checking};

    ghost count = { λ _. 2 };

    ghost telling = { λ word. checking word.form };

    fn serve<F: Source, S: Source, T: Source, K: Sink>(
        &self,
        first: &mut F,
        second: &mut S,
        _third: &mut T,
        sink: &mut K,
        turns: u64,
    ) -> Result<Outcome, RunFault> {
        check_within(self.alloc, self.form, first, second, sink, turns)
    }
}

/// Whether no captured message was served.
fn is_idle(engine: &Engine) -> bool
    ensures { result ≡ is_idle_by (tally_of engine.now) }
{
    engine.refused == 0 && engine.memory == 0 && engine.differing == 0 && engine.answered == 0
}

/// Writes that there was no captured message, if there was none.
fn put_none<K: Sink>(engine: &Engine, form: Form, sink: &mut K) -> Result<(), WriteFailed>
    requires working { (K.told sink.old).failed ≡ false }
    ensures ok { OnOk result (Appends (K.contents sink.old) (K.contents sink.new) (idle_text form (tally_of engine.now))) }
    ensures err { OnErr result (AppendsFront (K.contents sink.old) (K.contents sink.new) (idle_text form (tally_of engine.now))) }
    ensures works { OnOk result (Works (K.told sink.old) (K.told sink.new)) }
    ensures broken { OnErr result (IsStopped (K.told sink.old) (K.told sink.new)) }
    ensures lent { K.lent sink.new ≡ K.lent sink.old }
{
    if is_idle(engine) {
        put(sink, none_said(form))
    } else {
        Ok(())
    }
}

/// What says that there was no captured message.
fn none_said(form: Form) -> &'static [u8]
    ensures { result.now ≡ listed form (none_row ∷ []) }
{
    match form {
        Form::Text => b"check captures 0 agree 0\n",
        Form::Json => b"{\"kind\":\"check\",\"capture_count\":0,\"agree_count\":0}\n",
    }
}

/// What the captures have counted. That there was no message counts as one refused line.
fn compared(engine: &Engine) -> Outcome
    requires { IsFew (outcome_of (tally_of engine.now)) }
    ensures counted { result ≡ counted_captures (tally_of engine.now) }
    ensures few { IsFew result }
{
    if is_idle(engine) {
        return Outcome {
            refused: 1,
            memory: engine.memory,
            differing: engine.differing,
        };
    }
    engine.outcome()
}

/// What two inputs have counted.
fn sum_of(a: &Outcome, b: &Outcome) -> Outcome
    requires a { IsFew a.now }
    requires b { IsFew b.now }
    ensures { result ≡ both a.now b.now }
{
    Outcome {
        refused: a.refused + b.refused,
        memory: a.memory + b.memory,
        differing: a.differing + b.differing,
    }
}
