ghost use Rattle.std.specs.Prelude.{◌≡◌, ◌≤◌, ◌∷◌, [], ◌^◌, ℕ, false, List, Option};
ghost use Rattle.mst_drive.specs.Turned.{Turned, turning};
ghost use Rattle.mst_drive.specs.Words.{Ended, HasTold, one_input};
ghost use Rattle.mst_io.specs.Devices.{HearsWhere, seen_by, stopped_by};
ghost use Rattle.mst_tool.specs.Run.{PrintsEnded, running, status_of};

use crate::served::serve_first;
use mst_drive::Word;
use mst_engine::laws::one_run;
use mst_engine::{Form, Input};
use mst_io::{FromRead, Outcome, RunFault, Sink, Source, TURNS, ToWrite};
use std::alloc::Global;
use std::io::{Read, Write};

/// Runs the script that the reader gives, from the empty network on, and writes what each line prints
/// before it reads on. Where no line meets want of memory, what is written is a function of the script.
///
/// A line ends in LF or CR LF, and the last one may end with the script. Lines count from 1. One that
/// is refused prints `line N CODE TEXT`, and the run goes on. A script whose first line has just the words
/// `mstplan` and `2`, and 4,096 bytes at most, is of version 2, and that line prints nothing. Any other is of
/// version 1.
///
/// The reader is called with a buffer of 4,096 bytes, up to 2^32 times, and its first answer of 0
/// bytes is the script's end. The writer is called again where it took some bytes and not all, and is
/// flushed before the reader is asked for more. After a fault the run calls neither again.
///
/// After [`RunFault::Read`] all that the complete lines print has gone out, of what was read: a line
/// that no LF had ended prints nothing then. After [`RunFault::Write`] a front of what the script
/// prints has.
pub fn run<R: Read + Drop, W: Write>(
    alloc: Global,
    mut reader: R,
    writer: &mut W,
) -> Result<Outcome, RunFault>
    ensures ended { (left : Option (List ℕ)) × Ended (running Form.Text) (one_input (R.remaining reader)) (one_input left) (W.contents writer.old) (W.contents writer.new) result }
{
    run_from(alloc, &mut reader, writer)
}

/// The same as [`run`], for a reader that the caller keeps: so its contract says how far the reader was
/// read, which is what the complete lines are told by after [`RunFault::Read`].
pub fn run_from<R: Read, W: Write>(
    alloc: Global,
    reader: &mut R,
    writer: &mut W,
) -> Result<Outcome, RunFault>
    ensures ended { Ended (running Form.Text) (one_input (R.remaining reader.old)) (one_input (R.remaining reader.new)) (W.contents writer.old) (W.contents writer.new) result }
{
    let mut source = FromRead::new(reader);
    let mut sink = ToWrite::new(writer);
    run_within(alloc, Form::Text, &mut source, &mut sink, TURNS)
}

/// Runs the script that the source gives in so many turns, as [`run`] does: it is that with 2^32 of them, and in
/// [`Form::Text`]. A turn is one call of the source, the one that finds the end included.
///
/// In [`Form::Json`] each refused line and each answer is one line of JSON: `{"line":N,"error":"CODE","text":"TEXT"}`, and
/// `{"line":N,"query":"COMMAND","records":[..]}`, with the query's words behind its command. A query for whose answer there is
/// no memory is refused in either form.
///
/// [`RunFault::Read`] is answered just where the sink works and the source has failed, or all turns were used and none
/// found the end; [`RunFault::Write`] just where the sink has failed, or took nothing of a part that had a byte.
pub fn run_within<S: Source, K: Sink>(
    alloc: Global,
    form: Form,
    source: &mut S,
    sink: &mut K,
    turns: u64,
) -> Result<Outcome, RunFault>
    requires source { (S.told source.old).failed ≡ false }
    requires sink { (K.told sink.old).failed ≡ false }
    requires turns { turns ≤ 2 ^ 32 }
    ensures ended { Ended (running form) (one_input (S.remaining source.old)) (one_input (S.remaining source.new)) (K.contents sink.old) (K.contents sink.new) result }
    ensures turned { Turned turns (turning (seen_by S.told S.remaining S.lent) source.old source.new ∷ []) (seen_by K.told K.contents K.lent sink.old) (seen_by K.told K.contents K.lent sink.new) (stopped_by result) }
    ensures lent_source { S.lent source.new ≡ S.lent source.old }
    ensures lent_sink { K.lent sink.new ≡ K.lent sink.old }
    ensures heard { HearsWhere S.hears (HasTold (PrintsEnded form (S.remaining source.old)) S.remaining (seen_by K.told K.contents K.lent sink.old)) source.old source.new }
{
    one_run();
    match serve_first(alloc, Input::Script(form), source, sink, turns) {
        Err(fault) => Err(fault),
        Ok(serving) => Ok(serving.engine.outcome()),
    }
}

/// A run of a script, in this form.
#[derive(Clone, Copy)]
pub struct RunWord {
    pub alloc: Global,
    pub form: Form,
}

impl Word for RunWord {
    ghost use Rattle.mst_tool.specs.Run.{running};

    ghost count = { λ _. 1 };

    ghost telling = { λ word. running word.form };

    fn serve<F: Source, S: Source, T: Source, K: Sink>(
        &self,
        first: &mut F,
        _second: &mut S,
        _third: &mut T,
        sink: &mut K,
        turns: u64,
    ) -> Result<Outcome, RunFault> {
        run_within(self.alloc, self.form, first, sink, turns)
    }
}

/// The exit status of a run, a check, a question or a comparison of two networks: 3 for a fault or where a line was refused
/// for want of memory, else 1 where a line was refused or something differs, else 0.
pub fn status(ran: &Result<Outcome, RunFault>) -> u8
    ensures { result ≡ status_of ran.now }
{
    match ran {
        Err(_) => 3,
        Ok(outcome) => {
            if outcome.memory != 0 {
                3
            } else if outcome.refused != 0 || outcome.differing != 0 {
                1
            } else {
                0
            }
        }
    }
}
