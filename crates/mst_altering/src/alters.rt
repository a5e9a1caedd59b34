ghost use Rattle.std.specs.Prelude.{◌≡◌, ◌+◌, ◌≤◌, ◌<◌, ◌∷◌, [], ◌^◌, false, length, IfOk, option_map};
ghost use Rattle.std.specs.Io.KnownBytes.{Appends};
ghost use Rattle.mst_change.specs.Steps.{all_lines};
ghost use Rattle.mst_drive.specs.Turned.{Turned, turning};
ghost use Rattle.mst_drive.specs.Words.{Ended, HasTold, Inputs, Unwritten, inputs};
ghost use Rattle.mst_tool.specs.engine.Served.{IsFew};
ghost use Rattle.mst_tool.specs.engine.report.Planned.{planned_state};
ghost use Rattle.mst_io.specs.Devices.{HearsWhere, seen_by, stopped_by};
ghost use Rattle.mst_tool.specs.engine.print.Shape.{of_script};
ghost use Rattle.mst_tool.specs.Load.{LoadsEnded, LoadsScript};
ghost use Rattle.mst_altering.specs.Alter.{TellsSteps, altering, counted_along, course_of, policy_if};
ghost use Rattle.mst_inputs.specs.Lines.{AreLines, AreSteps};

use crate::stepping::put_steps;
use mst_change::Change;
use mst_drive::Word;
use mst_inputs::{read_change, read_policy};
use mst_io::{FromRead, Outcome, RunFault, Sink, Source, TURNS, ToWrite, put};
use mst_kinds::Query;
use mst_policy::Policy;
use mst_tool::laws::one_load;
use mst_tool::{Form, Input, Planner, Shape, Side, open_question, serve_first};
use std::alloc::{AllocError, Global};
use std::io::{Read, Write};

/// Loads the network of a script, and writes what each step of a change does to it and, where it is judged, whether the network then
/// does what a policy promises.
///
/// The script is read as by [`run`](mst_tool::run), but its queries and its marks do nothing and print nothing, and none is refused. Then
/// the change is read, a script of its own version, whose steps stand between blank lines, and then the policy, of which nothing is told
/// where it isn't judged. After the lines that the script prints the answer is written: the lines of the policy that can't be read, and
/// which of the others the network before the change doesn't keep; for each step `change N CODE TEXT` for each of its lines that is
/// refused, what the step does, and of the policy what is new: why lines aren't kept that had no such reason in the network before, and
/// `mends N` of those that are kept again; and at the end how many steps there are, how many of them move and cut VLANs, how many break
/// the policy, and how many lines of it the last network doesn't keep. Each refused line of the change, and each of the policy that can't
/// be read, counts as one of the script does; and as one that differs where a step cuts or breaks the policy, or the last network
/// doesn't keep it.
///
/// The readers and the writer are called as by [`run`](mst_tool::run), each reader once that before it has ended. After
/// [`RunFault::Read`] all that the complete lines of the script print has gone out, of what was read, and nothing else; after
/// [`RunFault::Memory`] all that the script prints; after [`RunFault::Write`] a front of all.
pub fn steps<S: Read + Drop, C: Read + Drop, P: Read + Drop, W: Write>(
    alloc: Global,
    form: Form,
    is_judged: bool,
    mut script: S,
    mut change: C,
    mut policy: P,
    writer: &mut W,
) -> Result<Outcome, RunFault>
    ensures ended { (left : Inputs) × Ended (altering form is_judged) (inputs (S.remaining script) (C.remaining change) (P.remaining policy)) left (W.contents writer.old) (W.contents writer.new) result }
{
    let mut script_source = FromRead::new(&mut script);
    let mut change_source = FromRead::new(&mut change);
    let mut policy_source = FromRead::new(&mut policy);
    let mut sink = ToWrite::new(writer);
    steps_within(
        alloc,
        form,
        is_judged,
        &mut script_source,
        &mut change_source,
        &mut policy_source,
        &mut sink,
        TURNS,
    )
}

/// Tells what the steps of the change that the second source gives do to the network of the script that the first gives, with the
/// policy that the third gives, in so many turns each, as [`steps`] does: it is that with 2^32 of them. A turn is one call of a source,
/// the one that finds the end included.
///
/// [`RunFault::Read`] is answered just where the sink works and a source has failed, or all turns of it were used and none found the
/// end; [`RunFault::Write`] just where the sink has failed, or took nothing of a part that had a byte. Each source is called only where
/// the one before it was read to its end.
pub fn steps_within<S: Source, C: Source, P: Source, K: Sink>(
    alloc: Global,
    form: Form,
    is_judged: bool,
    script: &mut S,
    change: &mut C,
    policy: &mut P,
    sink: &mut K,
    turns: u64,
) -> Result<Outcome, RunFault>
    requires script { (S.told script.old).failed ≡ false }
    requires change { (C.told change.old).failed ≡ false }
    requires policy { (P.told policy.old).failed ≡ false }
    requires sink { (K.told sink.old).failed ≡ false }
    requires turns { turns ≤ 2 ^ 32 }
    ensures ended { Ended (altering form is_judged) (inputs (S.remaining script.old) (C.remaining change.old) (P.remaining policy.old)) (inputs (S.remaining script.new) (C.remaining change.new) (P.remaining policy.new)) (K.contents sink.old) (K.contents sink.new) result }
    ensures turned { Turned turns (turning (seen_by S.told S.remaining S.lent) script.old script.new ∷ turning (seen_by C.told C.remaining C.lent) change.old change.new ∷ turning (seen_by P.told P.remaining P.lent) policy.old policy.new ∷ []) (seen_by K.told K.contents K.lent sink.old) (seen_by K.told K.contents K.lent sink.new) (stopped_by result) }
    ensures lent_script { S.lent script.new ≡ S.lent script.old }
    ensures lent_change { C.lent change.new ≡ C.lent change.old }
    ensures lent_policy { P.lent policy.new ≡ P.lent policy.old }
    ensures lent_sink { K.lent sink.new ≡ K.lent sink.old }
    ensures heard_script { HearsWhere S.hears (HasTold (LoadsEnded (of_script form) (S.remaining script.old)) S.remaining (seen_by K.told K.contents K.lent sink.old)) script.old script.new }
    ensures heard_change { HearsWhere C.hears (HasTold (λ left. LoadsScript (of_script form) (S.remaining script.old)) C.remaining (seen_by K.told K.contents K.lent sink.old)) change.old change.new }
    ensures heard_policy { HearsWhere P.hears (HasTold (λ left. LoadsScript (of_script form) (S.remaining script.old)) P.remaining (seen_by K.told K.contents K.lent sink.old)) policy.old policy.new }
{
    one_load();
    let shape = Shape {
        form,
        side: Side::Only,
    };
    match serve_first(alloc, Input::Network(shape), script, sink, turns) {
        Err(fault) => Err(fault),
        Ok(mut serving) => {
            let served = serving.engine.outcome();
            match read_both(alloc, change, policy, sink, turns) {
                Err(fault) => Err(fault),
                Ok(both) => {
                    match stepped(alloc, form, is_judged, &mut serving.engine.planner, &both) {
                        Err(_) => Err(RunFault::Memory),
                        Ok(found) => match put(sink, found.text.as_slice()) {
                            Err(_) => Err(RunFault::Write),
                            Ok(()) => Ok(with_course(&served, &found)),
                        },
                    }
                }
            }
        }
    }
}

/// Telling what the steps of a change do to the network of a script, with a policy, where it is judged, in this form.
#[derive(Clone, Copy)]
pub struct StepsWord {
    pub alloc: Global,
    pub form: Form,
    pub is_judged: bool,
}

impl Word for StepsWord {
    ghost use Rattle.mst_altering.specs.Alter.{altering};

    ghost count = { λ _. 3 };

    ghost telling = { λ word. altering word.form word.is_judged };

    fn serve<F: Source, S: Source, T: Source, K: Sink>(
        &self,
        first: &mut F,
        second: &mut S,
        third: &mut T,
        sink: &mut K,
        turns: u64,
    ) -> Result<Outcome, RunFault> {
        steps_within(
            self.alloc,
            self.form,
            self.is_judged,
            first,
            second,
            third,
            sink,
            turns,
        )
    }
}

/// A change, and the policy that is looked at after its steps.
#[derive(Drop)]
struct Both {
    change: Change,
    policy: Policy,
}

/// Reads a change and then a policy, each in so many turns.
fn read_both<C: Source, P: Source, K: Sink>(
    alloc: Global,
    change: &mut C,
    policy: &mut P,
    sink: &mut K,
    turns: u64,
) -> Result<Both, RunFault>
    requires change { (C.told change.old).failed ≡ false }
    requires policy { (P.told policy.old).failed ≡ false }
    requires sink { (K.told sink.old).failed ≡ false }
    requires turns { turns ≤ 2 ^ 32 }
    ensures ok_change { IfOk result (λ both. AreSteps (C.remaining change.old) both.change.ended) }
    ensures ok_policy { IfOk result (λ both. AreLines (P.remaining policy.old) both.policy) }
    ensures few { IfOk result (λ both. length (all_lines both.change.ended) < 2 ^ 60) }
    ensures few_policy { IfOk result (λ both. length both.policy < 2 ^ 60) }
    ensures unwritten { Appends (K.contents sink.old) (K.contents sink.new) [] }
    ensures turned { Turned turns (turning (seen_by C.told C.remaining C.lent) change.old change.new ∷ turning (seen_by P.told P.remaining P.lent) policy.old policy.new ∷ []) (seen_by K.told K.contents K.lent sink.old) (seen_by K.told K.contents K.lent sink.new) (stopped_by result) }
    ensures heard_change { HearsWhere C.hears (HasTold Unwritten C.remaining (seen_by K.told K.contents K.lent sink.old)) change.old change.new }
    ensures heard_policy { HearsWhere P.hears (HasTold Unwritten P.remaining (seen_by K.told K.contents K.lent sink.old)) policy.old policy.new }
{
    match read_change(alloc, change, sink, turns) {
        Err(fault) => Err(fault),
        Ok(change) => match read_policy(alloc, policy, sink, turns) {
            Err(fault) => Err(fault),
            Ok(policy) => Ok(Both { change, policy }),
        },
    }
}

/// What the steps of a change do: what is printed of them, and what is counted.
#[derive(Drop)]
struct Stepping {
    text: Vec<u8>,
    unread: u64,
    refused: u64,
    steps: u64,
    moving: u64,
    cutting: u64,
    failing: u64,
    unkept: u64,
}

/// What the steps of a change do to the planner's network, once the plan is settled. `AllocError`: memory was wanted and refused.
fn stepped(
    alloc: Global,
    form: Form,
    is_judged: bool,
    planner: &mut Planner,
    both: &Both,
) -> Result<Stepping, AllocError>
    requires { length (all_lines both.now.change.ended) < 2 ^ 60 }
    ensures told { IfOk result (λ found. TellsSteps form (planned_state planner.old).net both.now.change.ended (policy_if is_judged both.now.policy) (course_of found) found.text.items) }
    ensures few { IfOk result (λ found. found.refused ≤ length (all_lines both.now.change.ended)) }
    ensures few_policy { IfOk result (λ found. found.unread ≤ length both.now.policy + 1) }
{
    planner.settle()?;
    let mut printer = open_question(alloc, form, Query::Steps)?;
    let course = put_steps(planner, &both.change, both.judged(is_judged), &mut printer)?;
    let text = printer.close()?;
    Ok(Stepping {
        text,
        unread: course.unread,
        refused: course.refused,
        steps: course.steps,
        moving: course.moving,
        cutting: course.cutting,
        failing: course.failing,
        unkept: course.unkept,
    })
}

impl Both {
    /// The policy, where it is judged.
    fn judged(&self, is_judged: bool) -> Option<&Policy>
        ensures { option_map (λ policy. policy.now) result ≡ policy_if is_judged self.now.policy }
    {
        if is_judged { Some(&self.policy) } else { None }
    }
}

/// What was counted of the script and of the change.
fn with_course(script: &Outcome, found: &Stepping) -> Outcome
    requires script { IsFew script.now }
    requires change { found.now.refused < 2 ^ 60 }
    requires policy { found.now.unread ≤ 2 ^ 60 }
    ensures { result ≡ counted_along script.now (course_of found.now) }
{
    let differs = found.cutting != 0 || found.failing != 0 || found.unkept != 0;
    Outcome {
        refused: script.refused + (found.refused + found.unread),
        memory: script.memory,
        differing: script.differing + if differs { 1 } else { 0 },
    }
}
