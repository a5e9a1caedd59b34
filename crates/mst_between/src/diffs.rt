ghost use Rattle.std.specs.Prelude.{◌≡◌, ◌≤◌, ◌∷◌, [], ◌^◌, false, IfOk};
ghost use Rattle.mst_drive.specs.Turned.{Turned, turning};
ghost use Rattle.mst_drive.specs.Words.{Ended, HasTold, Inputs, two_inputs};
ghost use Rattle.mst_tool.specs.engine.Served.{IsFew};
ghost use Rattle.mst_tool.specs.engine.report.Planned.{planned_state};
ghost use Rattle.mst_io.specs.Devices.{HearsWhere, seen_by, stopped_by};
ghost use Rattle.mst_tool.specs.engine.print.Shape.{of_old};
ghost use Rattle.mst_tool.specs.Load.{LoadsEnded};
ghost use Rattle.mst_between.specs.Diff.{CountsOf, LoadsNewEnded, TellsDifference, counted_both, differing, differs_by};

use crate::differing::put_difference;
use crate::editing::put_edits_of;
use crate::laws::one_difference;
use mst_drive::Word;
use mst_io::{FromRead, Outcome, RunFault, Sink, Source, TURNS, ToWrite, put};
use mst_kinds::Query;
use mst_tool::laws::{has_load, one_load, states};
use mst_tool::{Form, Input, Planner, Shape, Side, open_question, serve_first};
use std::alloc::{AllocError, Global};
use std::io::{Read, Write};

/// What is told of the networks of two scripts.
#[derive(Clone, Copy, Debug, PartialEq, Eq)]
pub enum Between {
    /// How the new one's differs from the old one's, by the plans of both.
    Plans,
    /// The edits that make the new one's of the old one's, by the settings of both. Nothing is planned.
    Settings,
}

/// Loads the networks of two scripts, of the old one first, and writes how the new one's differs. Where nothing meets want of
/// memory, what is written is a function of the two scripts.
///
/// The scripts are read as by [`run`](mst_tool::run), but their queries and marks do nothing and print nothing, and none is
/// refused. A line that is refused prints `old line N CODE TEXT` or `new line N CODE TEXT`. After the lines of both the
/// difference is written, which counts as one that differs where it isn't its last line alone.
///
/// The readers and the writer are called as by [`run`](mst_tool::run), and that of the new script once the old one has ended.
/// After [`RunFault::Read`] all that the complete lines print has gone out, of what was read; after [`RunFault::Memory`] all
/// that the lines of both scripts print, where there was no memory for the difference; after [`RunFault::Write`] a front of
/// all.
pub fn diff<O: Read + Drop, N: Read + Drop, W: Write>(
    alloc: Global,
    mut old: O,
    mut new: N,
    writer: &mut W,
) -> Result<Outcome, RunFault>
    ensures ended { (left : Inputs) × Ended (differing Between.Plans Form.Text) (two_inputs (O.remaining old) (N.remaining new)) left (W.contents writer.old) (W.contents writer.new) result }
{
    diff_from(
        alloc,
        Form::Text,
        Between::Plans,
        &mut old,
        &mut new,
        writer,
    )
}

/// Loads the networks of two scripts, as [`diff`] does, and writes the edits that make the new one's of the old one's: a script of
/// version 2, whose first line says so. It counts as one that differs where there is an edit.
pub fn edits<O: Read + Drop, N: Read + Drop, W: Write>(
    alloc: Global,
    form: Form,
    mut old: O,
    mut new: N,
    writer: &mut W,
) -> Result<Outcome, RunFault>
    ensures ended { (left : Inputs) × Ended (differing Between.Settings form) (two_inputs (O.remaining old) (N.remaining new)) left (W.contents writer.old) (W.contents writer.new) result }
{
    diff_from(alloc, form, Between::Settings, &mut old, &mut new, writer)
}

/// The same as [`diff`] and [`edits`], for readers that the caller keeps: so its contract says how far they were read.
pub fn diff_from<O: Read, N: Read, W: Write>(
    alloc: Global,
    form: Form,
    between: Between,
    old: &mut O,
    new: &mut N,
    writer: &mut W,
) -> Result<Outcome, RunFault>
    ensures ended { Ended (differing between form) (two_inputs (O.remaining old.old) (N.remaining new.old)) (two_inputs (O.remaining old.new) (N.remaining new.new)) (W.contents writer.old) (W.contents writer.new) result }
{
    let mut old_source = FromRead::new(old);
    let mut new_source = FromRead::new(new);
    let mut sink = ToWrite::new(writer);
    diff_within(
        alloc,
        form,
        between,
        &mut old_source,
        &mut new_source,
        &mut sink,
        TURNS,
    )
}

/// Tells the networks of the two scripts apart that the sources give in so many turns each, as [`diff`] and [`edits`] do: it is
/// these with 2^32 of them. A turn is one call of a source, the one that finds the end included.
///
/// [`RunFault::Read`] is answered just where the sink works and a source has failed, or all turns of it were used and
/// none found the end; [`RunFault::Write`] just where the sink has failed, or took nothing of a part that had a byte. The second
/// source is called only where the first was read to its end.
pub fn diff_within<O: Source, N: Source, K: Sink>(
    alloc: Global,
    form: Form,
    between: Between,
    old: &mut O,
    new: &mut N,
    sink: &mut K,
    turns: u64,
) -> Result<Outcome, RunFault>
    requires old { (O.told old.old).failed ≡ false }
    requires new { (N.told new.old).failed ≡ false }
    requires sink { (K.told sink.old).failed ≡ false }
    requires turns { turns ≤ 2 ^ 32 }
    ensures ended { Ended (differing between form) (two_inputs (O.remaining old.old) (N.remaining new.old)) (two_inputs (O.remaining old.new) (N.remaining new.new)) (K.contents sink.old) (K.contents sink.new) result }
    ensures turned { Turned turns (turning (seen_by O.told O.remaining O.lent) old.old old.new ∷ turning (seen_by N.told N.remaining N.lent) new.old new.new ∷ []) (seen_by K.told K.contents K.lent sink.old) (seen_by K.told K.contents K.lent sink.new) (stopped_by result) }
    ensures lent_old { O.lent old.new ≡ O.lent old.old }
    ensures lent_new { N.lent new.new ≡ N.lent new.old }
    ensures lent_sink { K.lent sink.new ≡ K.lent sink.old }
    ensures heard_old { HearsWhere O.hears (HasTold (LoadsEnded (of_old form) (O.remaining old.old)) O.remaining (seen_by K.told K.contents K.lent sink.old)) old.old old.new }
    ensures heard_new { HearsWhere N.hears (HasTold (LoadsNewEnded form (O.remaining old.old) (N.remaining new.old)) N.remaining (seen_by K.told K.contents K.lent sink.old)) new.old new.new }
{
    has_load();
    states();
    one_load();
    one_difference();
    let of_old = Shape {
        form,
        side: Side::Old,
    };
    match serve_first(alloc, Input::Network(of_old), old, sink, turns) {
        Err(fault) => Err(fault),
        Ok(mut before) => {
            let of_new = Shape {
                form,
                side: Side::New,
            };
            match serve_first(alloc, Input::Network(of_new), new, sink, turns) {
                Err(fault) => Err(fault),
                Ok(mut after) => match what_differs(
                    alloc,
                    form,
                    between,
                    &mut before.engine.planner,
                    &mut after.engine.planner,
                ) {
                    Err(_) => Err(RunFault::Memory),
                    Ok(found) => match put(sink, found.text.as_slice()) {
                        Err(_) => Err(RunFault::Write),
                        Ok(()) => {
                            let old_served = before.engine.outcome();
                            let new_served = after.engine.outcome();
                            Ok(with_difference(&old_served, &new_served, found.differs))
                        }
                    },
                },
            }
        }
    }
}

/// Telling the networks of two scripts apart, in this form.
#[derive(Clone, Copy)]
pub struct DiffWord {
    pub alloc: Global,
    pub form: Form,
    pub between: Between,
}

impl Word for DiffWord {
    ghost use Rattle.mst_between.specs.Diff.{differing};

    ghost count = { λ _. 2 };

    ghost telling = { λ word. differing word.between word.form };

    fn serve<F: Source, S: Source, T: Source, K: Sink>(
        &self,
        first: &mut F,
        second: &mut S,
        _third: &mut T,
        sink: &mut K,
        turns: u64,
    ) -> Result<Outcome, RunFault> {
        diff_within(
            self.alloc,
            self.form,
            self.between,
            first,
            second,
            sink,
            turns,
        )
    }
}

/// What tells two networks apart, and whether anything differs.
#[derive(Drop)]
struct Difference {
    text: Vec<u8>,
    differs: bool,
}

/// How the network of the new planner differs from that of the old one. `AllocError`: memory was wanted and refused.
fn what_differs(
    alloc: Global,
    form: Form,
    between: Between,
    old: &mut Planner,
    new: &mut Planner,
) -> Result<Difference, AllocError>
    ensures { IfOk result (λ found. (counts : CountsOf between) × (found.differs ≡ differs_by between counts) × TellsDifference between form (planned_state old.old).net (planned_state new.old).net counts found.text.items) }
{
    match between {
        Between::Plans => planned_apart(alloc, form, old, new),
        Between::Settings => set_apart(alloc, form, old, new),
    }
}

/// How it differs by the plans of both, once they are settled.
fn planned_apart(
    alloc: Global,
    form: Form,
    old: &mut Planner,
    new: &mut Planner,
) -> Result<Difference, AllocError>
    ensures { IfOk result (λ found. (counts : CountsOf Between.Plans) × (found.differs ≡ differs_by Between.Plans counts) × TellsDifference Between.Plans form (planned_state old.old).net (planned_state new.old).net counts found.text.items) }
{
    old.settle()?;
    new.settle()?;
    let mut printer = open_question(alloc, form, Query::Diff)?;
    let counts = put_difference(old, new, &mut printer)?;
    let text = printer.close()?;
    Ok(Difference {
        text,
        differs: !counts.is_nothing(),
    })
}

/// The edits that make the network of the new planner of that of the old one.
fn set_apart(
    alloc: Global,
    form: Form,
    old: &Planner,
    new: &Planner,
) -> Result<Difference, AllocError>
    ensures { IfOk result (λ found. (counts : CountsOf Between.Settings) × (found.differs ≡ differs_by Between.Settings counts) × TellsDifference Between.Settings form (planned_state old.now).net (planned_state new.now).net counts found.text.items) }
{
    let mut printer = open_question(alloc, form, Query::Edits)?;
    let differs = put_edits_of(old, new, &mut printer)?;
    let text = printer.close()?;
    Ok(Difference { text, differs })
}

/// What was counted of two scripts and of how their networks differ.
fn with_difference(old: &Outcome, new: &Outcome, differs: bool) -> Outcome
    requires old { IsFew old.now }
    requires new { IsFew new.now }
    ensures { result ≡ counted_both old.now new.now differs }
{
    Outcome {
        refused: old.refused + new.refused,
        memory: old.memory + new.memory,
        differing: if differs { 1 } else { 0 },
    }
}
