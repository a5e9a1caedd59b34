ghost use Rattle.std.specs.Prelude.{◌≡◌, ◌+◌, ◌≤◌, ◌∷◌, [], ◌^◌, false, true, length, IfOk};
ghost use Rattle.mst_drive.specs.Turned.{Turned, turning};
ghost use Rattle.mst_drive.specs.Words.{Ended, HasTold, Inputs, two_inputs};
ghost use Rattle.mst_tool.specs.engine.Served.{IsFew};
ghost use Rattle.mst_tool.specs.engine.report.Planned.{planned_state};
ghost use Rattle.mst_io.specs.Devices.{HearsWhere, seen_by, stopped_by};
ghost use Rattle.mst_tool.specs.engine.print.Shape.{of_script};
ghost use Rattle.mst_tool.specs.Load.{LoadsEnded, LoadsScript};
ghost use Rattle.mst_verifying.specs.Verify.{TellsAnswer, counted_with, told_in, verifying};
ghost use Rattle.mst_verifying.specs.declared.question.PolicyQuestion.TheVariants.{Promises as promises, Risks as risks};

use crate::question::PolicyQuestion;
use crate::verifying::{put_risks, put_verification};
use mst_drive::Word;
use mst_inputs::read_policy;
use mst_io::{FromRead, Outcome, RunFault, Sink, Source, TURNS, ToWrite, put};
use mst_kinds::Query;
use mst_policy::Policy;
use mst_tool::laws::one_load;
use mst_tool::{Form, Input, Planner, Shape, Side, open_question, serve_first};
use std::alloc::{AllocError, Global};
use std::io::{Read, Write};

/// Loads the network of a script, and writes whether it does what a policy promises.
///
/// The script is read as by [`run`](mst_tool::run), but its queries and its marks do nothing and print nothing, and none is refused. Then
/// the policy is read: its lines are cut as a script's are, and a blank line or a comment is none. After the lines that the script
/// prints the answer is written: `policy N CODE TEXT` for each line of the policy that is refused, then for each other one why it isn't
/// kept, and a last line with how many are judged and how many hold. Of a line that is judged something is told just where its promise
/// isn't kept, and each of them is judged in some network: a line of which nothing is judged is refused, and so is, as line 0, a policy
/// that has no line. Each refused line of the policy counts as one of the script does, and lines that aren't kept as one that differs.
///
/// The readers and the writer are called as by [`run`](mst_tool::run), and that of the policy once the script has ended. After
/// [`RunFault::Read`] all that the complete lines of the script print has gone out, of what was read, and nothing else; after
/// [`RunFault::Memory`] all that the script prints; after [`RunFault::Write`] a front of all.
pub fn verify<S: Read + Drop, P: Read + Drop, W: Write>(
    alloc: Global,
    form: Form,
    mut script: S,
    mut policy: P,
    writer: &mut W,
) -> Result<Outcome, RunFault>
    ensures ended { (left : Inputs) × Ended (verifying form promises) (two_inputs (S.remaining script) (P.remaining policy)) left (W.contents writer.old) (W.contents writer.new) result }
{
    let mut script_source = FromRead::new(&mut script);
    let mut policy_source = FromRead::new(&mut policy);
    let mut sink = ToWrite::new(writer);
    verify_within(
        alloc,
        form,
        PolicyQuestion::Promises,
        &mut script_source,
        &mut policy_source,
        &mut sink,
        TURNS,
    )
}

/// Asks the network of the script that the one source gives by the policy that the other gives, in so many turns each: of its promises as
/// [`verify`] does, with 2^32 turns, or of its risks. Then `policy N CODE TEXT` is written for each line of the policy that can't be read or is of a risk and
/// refused, what each risk does, and a last line with how many there are and how many of them cut some VID. A turn is one call of a source, the one that finds the end included.
///
/// [`RunFault::Read`] is answered just where the sink works and a source has failed, or all turns of it were used and none found the
/// end; [`RunFault::Write`] just where the sink has failed, or took nothing of a part that had a byte. The second source is called only
/// where the first was read to its end.
pub fn verify_within<S: Source, P: Source, K: Sink>(
    alloc: Global,
    form: Form,
    question: PolicyQuestion,
    script: &mut S,
    policy: &mut P,
    sink: &mut K,
    turns: u64,
) -> Result<Outcome, RunFault>
    requires script { (S.told script.old).failed ≡ false }
    requires policy { (P.told policy.old).failed ≡ false }
    requires sink { (K.told sink.old).failed ≡ false }
    requires turns { turns ≤ 2 ^ 32 }
    ensures ended { Ended (verifying form question) (two_inputs (S.remaining script.old) (P.remaining policy.old)) (two_inputs (S.remaining script.new) (P.remaining policy.new)) (K.contents sink.old) (K.contents sink.new) result }
    ensures turned { Turned turns (turning (seen_by S.told S.remaining S.lent) script.old script.new ∷ turning (seen_by P.told P.remaining P.lent) policy.old policy.new ∷ []) (seen_by K.told K.contents K.lent sink.old) (seen_by K.told K.contents K.lent sink.new) (stopped_by result) }
    ensures lent_script { S.lent script.new ≡ S.lent script.old }
    ensures lent_policy { P.lent policy.new ≡ P.lent policy.old }
    ensures lent_sink { K.lent sink.new ≡ K.lent sink.old }
    ensures heard_script { HearsWhere S.hears (HasTold (LoadsEnded (of_script form) (S.remaining script.old)) S.remaining (seen_by K.told K.contents K.lent sink.old)) script.old script.new }
    ensures heard_policy { HearsWhere P.hears (HasTold (λ left. LoadsScript (of_script form) (S.remaining script.old)) P.remaining (seen_by K.told K.contents K.lent sink.old)) policy.old policy.new }
{
    one_load();
    let shape = Shape {
        form,
        side: Side::Only,
    };
    match serve_first(alloc, Input::Network(shape), script, sink, turns) {
        Err(fault) => Err(fault),
        Ok(mut serving) => {
            let served = serving.engine.outcome();
            match read_policy(alloc, policy, sink, turns) {
                Err(fault) => Err(fault),
                Ok(lines) => match answered(
                    alloc,
                    form,
                    question,
                    &mut serving.engine.planner,
                    &lines,
                ) {
                    Err(_) => Err(RunFault::Memory),
                    Ok(found) => match put(sink, found.text.as_slice()) {
                        Err(_) => Err(RunFault::Write),
                        Ok(()) => Ok(with_verdict(&served, &found)),
                    },
                },
            }
        }
    }
}

/// Asking the network of a script by a policy, in this form.
#[derive(Clone, Copy)]
pub struct VerifyWord {
    pub alloc: Global,
    pub form: Form,
    pub question: PolicyQuestion,
}

impl Word for VerifyWord {
    ghost use Rattle.mst_verifying.specs.Verify.{verifying};

    ghost count = { λ _. 2 };

    ghost telling = { λ word. verifying word.form word.question };

    fn serve<F: Source, S: Source, T: Source, K: Sink>(
        &self,
        first: &mut F,
        second: &mut S,
        _third: &mut T,
        sink: &mut K,
        turns: u64,
    ) -> Result<Outcome, RunFault> {
        verify_within(
            self.alloc,
            self.form,
            self.question,
            first,
            second,
            sink,
            turns,
        )
    }
}

/// What answers a question by a policy: what is printed of it, and what is counted.
#[derive(Drop)]
pub struct Verification {
    pub text: Vec<u8>,
    /// How many lines of the policy are refused; of its promises one more where nothing is judged.
    pub refused: u64,
    /// How many promises aren't kept, or how many risks cut some VID.
    pub telling: u64,
}

/// What answers a question by a policy of the planner's network, once the plan is settled. It stays as it is, with its mark. `AllocError`:
/// memory was wanted and refused.
pub fn answered(
    alloc: Global,
    form: Form,
    question: PolicyQuestion,
    planner: &mut Planner,
    policy: &Policy,
) -> Result<Verification, AllocError>
    ensures told { IfOk result (λ found. TellsAnswer form question (planned_state planner.old).net policy.now (told_in found) found.text.items) }
    ensures few { IfOk result (λ found. found.refused ≤ length policy.now + 1) }
    ensures state { planned_state planner.new ≡ planned_state planner.old }
{
    planner.settle()?;
    match question {
        PolicyQuestion::Promises => verified(alloc, form, planner, policy),
        PolicyQuestion::Risks => swept(alloc, form, planner, policy),
    }
}

/// Whether the planner's network does what a policy promises.
fn verified(
    alloc: Global,
    form: Form,
    planner: &Planner,
    policy: &Policy,
) -> Result<Verification, AllocError>
    requires { planner.now.is_settled ≡ true }
    ensures told { IfOk result (λ found. TellsAnswer form promises planner.now.contents.net policy.now (told_in found) found.text.items) }
    ensures few { IfOk result (λ found. found.refused ≤ length policy.now + 1) }
{
    let mut printer = open_question(alloc, form, Query::Verify)?;
    let verdict = put_verification(planner, policy, &mut printer)?;
    let text = printer.close()?;
    Ok(Verification {
        text,
        refused: verdict.refused,
        telling: verdict.failing,
    })
}

/// What each risk of a policy does to the planner's network.
fn swept(
    alloc: Global,
    form: Form,
    planner: &Planner,
    policy: &Policy,
) -> Result<Verification, AllocError>
    requires { planner.now.is_settled ≡ true }
    ensures told { IfOk result (λ found. TellsAnswer form risks planner.now.contents.net policy.now (told_in found) found.text.items) }
    ensures few { IfOk result (λ found. found.refused ≤ length policy.now) }
{
    let mut printer = open_question(alloc, form, Query::SweepRisks)?;
    let counts = put_risks(planner, policy, &mut printer)?;
    let text = printer.close()?;
    Ok(Verification {
        text,
        refused: counts.refused,
        telling: counts.cuts,
    })
}

/// What was counted of the script and of the policy.
fn with_verdict(script: &Outcome, found: &Verification) -> Outcome
    requires script { IsFew script.now }
    requires policy { found.now.refused ≤ 2 ^ 60 }
    ensures { result ≡ counted_with script.now (told_in found.now) }
{
    Outcome {
        refused: script.refused + found.refused,
        memory: script.memory,
        differing: script.differing + if found.telling == 0 { 0 } else { 1 },
    }
}
