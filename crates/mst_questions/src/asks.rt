ghost use Rattle.std.specs.Prelude.{◌≡◌, ◌≤◌, ◌∷◌, [], ◌^◌, ℕ, false, true, List, Option, None, IfOk, OnOk, OnErr};
ghost use Rattle.std.specs.Io.KnownBytes.{Appends};
ghost use Rattle.mst_drive.specs.Turned.{Turned, turning};
ghost use Rattle.mst_drive.specs.Words.{Ended, HasTold, one_input};
ghost use Rattle.mst_tool.specs.engine.Served.{IsFew};
ghost use Rattle.mst_questions.specs.Picturing.{Depicts, DepictsVlan};
ghost use Rattle.mst_tool.specs.engine.report.Planned.{planned_state};
ghost use Rattle.mst_io.specs.Devices.{HearsWhere, Works, IsStopped, seen_by, stopped_by};
ghost use Rattle.mst_io.specs.Written.{AppendsFront};
ghost use Rattle.mst_tool.specs.engine.print.Shape.{of_script};
ghost use Rattle.mst_tool.specs.Load.{LoadsEnded};
ghost use Rattle.mst_questions.specs.Ask.{IsAnswer, answer_text, asking, counted_with, is_nothing as none_advised, is_refused, keeps, told_of, unadvised_early, unexplained_early};
ghost use Rattle.mst_questions.specs.declared.asked.Question.TheVariants.{Advice, Explain};

use crate::advising::put_advice;
use crate::asked::{Asked, Question};
use crate::early::{why_unadvised, why_unexplained};
use crate::explaining::{Unexplained, put_explanation_of, unexplained_in};
use crate::laws::{one_explanation, one_picture, one_summary, one_vlan_picture};
use crate::opened::{open_advice, open_explanation, open_pairs, open_sweep};
use crate::picturing::{picture_of, vlan_picture_of};
use crate::summarizing::put_summary_of;
use crate::sweeping::{put_pairs, put_sweep};
use crate::unadvised::unadvised_in;
use mst_advise::laws::one_advice;
use mst_advise::sweeping_laws::{pair_parts, sweep_parts};
use mst_advise::{Advised, Goal, SweepPart};
use mst_drive::Word;
use mst_ids::{Tree, Vid};
use mst_io::{FromRead, Outcome, RunFault, Sink, Source, TURNS, ToWrite, WriteFailed, put};
use mst_kinds::{Query, RefusalLine};
use mst_lang::Fault;
use mst_tool::laws::{one_load, states};
use mst_tool::{Form, Input, Planner, Shape, Side, open_question, put_unanswered, serve_first};
use std::alloc::{AllocError, Global};
use std::io::{Read, Write};

/// What is told of what was asked.
#[derive(Drop)]
pub enum Answer {
    /// What explains the port, summarizes the network or depicts it.
    Text(Vec<u8>),
    /// The words ask nothing.
    Unread(Fault),
    /// The port isn't explained.
    Refused(Unexplained),
    /// What each single failure of a part does, or each pair, and how many of these cut some VID.
    Swept { text: Vec<u8>, cuts: u64 },
    /// The word names no tree, or no VLAN.
    Undrawn(Fault),
    /// Which settings bring about what is wanted, or that none was found.
    Advised { text: Vec<u8>, is_none: bool },
    /// What is wanted can't be advised.
    NotAdvised(Unexplained),
    /// The words don't say what is wanted.
    UnreadGoal(Fault),
}

/// Loads the network of the script that the reader gives, and writes the answer to what is asked of it. Where nothing meets
/// want of memory, what is written is a function of the script and of what is asked.
///
/// The script is read as by [`run`](mst_tool::run), but its queries and its marks do nothing and print nothing, and none is
/// refused. After its lines the answer is written: for [`Question::Explain`] why the port has its role in the tree, or in each
/// that its bridge has. Where that isn't told, a line `explain CODE TEXT` says why, by the first of these: the fault of the
/// words, where they ask for nothing, or why the port [isn't explained](Unexplained). That counts as one refused line more.
/// For [`Question::Sweep`] it is what each single failure of the part does, and counts as one that differs where some failure of it
/// cuts a VID, and for [`Question::Pairs`] what each pair of failures of the part does, and counts so where some pair of it parts
/// bridges of a VID that either failure alone leaves joined.
/// For [`Question::Summary`] it is the summary of the network, and for [`Question::Picture`] its picture with the tree, or with the VLAN
/// for [`Question::VlanPicture`]. Where the word for the tree or the VLAN has a fault, a line `dot CODE TEXT` says so, and counts as one
/// refused line more.
/// For [`Question::Advice`] it is which settings bring about what is wanted, with what they do, and counts as one that differs where none
/// does. Where that isn't told, a line `advise CODE TEXT` says why, as for a port that isn't explained, and counts as one refused line more.
///
/// The reader and the writer are called as by [`run`](mst_tool::run). After [`RunFault::Read`] all that the complete lines
/// print has gone out, of what was read; after [`RunFault::Memory`] all that the script's lines print, where there was no
/// memory for the answer; after [`RunFault::Write`] a front of both.
pub fn ask<R: Read + Drop, W: Write>(
    alloc: Global,
    question: &Question,
    mut reader: R,
    writer: &mut W,
) -> Result<Outcome, RunFault>
    ensures ended { (left : Option (List ℕ)) × Ended (asking Form.Text question.now) (one_input (R.remaining reader)) (one_input left) (W.contents writer.old) (W.contents writer.new) result }
{
    ask_from(alloc, question, &mut reader, writer)
}

/// The same as [`ask`], for a reader that the caller keeps: so its contract says how far it was read.
pub fn ask_from<R: Read, W: Write>(
    alloc: Global,
    question: &Question,
    reader: &mut R,
    writer: &mut W,
) -> Result<Outcome, RunFault>
    ensures ended { Ended (asking Form.Text question.now) (one_input (R.remaining reader.old)) (one_input (R.remaining reader.new)) (W.contents writer.old) (W.contents writer.new) result }
{
    let mut source = FromRead::new(reader);
    let mut sink = ToWrite::new(writer);
    ask_within(alloc, Form::Text, question, &mut source, &mut sink, TURNS)
}

/// Asks the network of the script that the source gives in so many turns, as [`ask`] does: it is that with 2^32 of them. A turn
/// is one call of the source, the one that finds the end included.
///
/// [`RunFault::Read`] is answered just where the sink works and the source has failed, or all turns were used and none
/// found the end; [`RunFault::Write`] just where the sink has failed, or took nothing of a part that had a byte.
pub fn ask_within<S: Source, K: Sink>(
    alloc: Global,
    form: Form,
    question: &Question,
    source: &mut S,
    sink: &mut K,
    turns: u64,
) -> Result<Outcome, RunFault>
    requires source { (S.told source.old).failed ≡ false }
    requires sink { (K.told sink.old).failed ≡ false }
    requires turns { turns ≤ 2 ^ 32 }
    ensures ended { Ended (asking form question.now) (one_input (S.remaining source.old)) (one_input (S.remaining source.new)) (K.contents sink.old) (K.contents sink.new) result }
    ensures turned { Turned turns (turning (seen_by S.told S.remaining S.lent) source.old source.new ∷ []) (seen_by K.told K.contents K.lent sink.old) (seen_by K.told K.contents K.lent sink.new) (stopped_by result) }
    ensures lent_source { S.lent source.new ≡ S.lent source.old }
    ensures lent_sink { K.lent sink.new ≡ K.lent sink.old }
    ensures heard { HearsWhere S.hears (HasTold (LoadsEnded (of_script form) (S.remaining source.old)) S.remaining (seen_by K.told K.contents K.lent sink.old)) source.old source.new }
{
    states();
    one_load();
    one_explanation();
    sweep_parts();
    pair_parts();
    one_summary();
    one_picture();
    one_vlan_picture();
    one_advice();
    let shape = Shape {
        form,
        side: Side::Only,
    };
    match serve_first(alloc, Input::Network(shape), source, sink, turns) {
        Err(fault) => Err(fault),
        Ok(mut serving) => {
            let served = serving.engine.outcome();
            match answer_to(alloc, &mut serving.engine.planner, form, question) {
                Err(_) => Err(RunFault::Memory),
                Ok(answer) => match put_answer(sink, form, &answer) {
                    Err(_) => Err(RunFault::Write),
                    Ok(()) => Ok(with_answer(&served, &answer)),
                },
            }
        }
    }
}

/// What is asked of the network of a script, in this form.
#[derive(Clone, Copy)]
pub struct QuestionWord {
    pub alloc: Global,
    pub form: Form,
    pub question: Question,
}

impl Word for QuestionWord {
    ghost use Rattle.mst_questions.specs.Ask.{asking};

    ghost count = { λ _. 1 };

    ghost telling = { λ word. asking word.form word.question };

    fn serve<F: Source, S: Source, T: Source, K: Sink>(
        &self,
        first: &mut F,
        _second: &mut S,
        _third: &mut T,
        sink: &mut K,
        turns: u64,
    ) -> Result<Outcome, RunFault> {
        ask_within(self.alloc, self.form, &self.question, first, sink, turns)
    }
}

/// The answer to what is asked, of the planner's network as it stands. It stays as it is, with its mark, but where advice is asked:
/// then the planner is of any network afterwards. `AllocError`: memory was wanted and refused. Words that ask nothing are told without
/// memory, and so is what is in the way where the network's tables tell it.
pub fn answer_to(
    alloc: Global,
    planner: &mut Planner,
    form: Form,
    question: &Question,
) -> Result<Answer, AllocError>
    ensures answer { IfOk result (λ answer. IsAnswer form (planned_state planner.old).net question.now (told_of answer) (answer_text form answer)) }
    ensures memory { OnErr result (is_refused (planned_state planner.old).net question.now ≡ false) }
    ensures state { keeps question.now ≡ true → planned_state planner.new ≡ planned_state planner.old }
{
    match question {
        Question::Explain(asked) => explained(alloc, planner, form, asked),
        Question::Unread(fault) => Ok(Answer::Unread(*fault)),
        Question::Sweep(part) => swept(alloc, planner, form, *part),
        Question::Pairs(part) => paired(alloc, planner, form, *part),
        Question::Summary => summarized(alloc, planner, form),
        Question::Picture(tree) => {
            let text = depicted(planner, *tree)?;
            Ok(Answer::Text(text))
        }
        Question::VlanPicture(vid) => {
            let text = depicted_vlan(planner, *vid)?;
            Ok(Answer::Text(text))
        }
        Question::Undrawn(fault) => Ok(Answer::Undrawn(*fault)),
        Question::Advice(goal) => advise(alloc, planner, form, goal),
        Question::Unadvised(fault) => Ok(Answer::UnreadGoal(*fault)),
    }
}

/// Explains a port. `AllocError`: memory was wanted and refused. What the network's tables tell to be in the way comes first.
fn explained(
    alloc: Global,
    planner: &mut Planner,
    form: Form,
    asked: &Asked,
) -> Result<Answer, AllocError>
    ensures answer { IfOk result (λ answer. IsAnswer form (planned_state planner.old).net (Explain asked.now) (told_of answer) (answer_text form answer)) }
    ensures memory { OnErr result (unexplained_early (planned_state planner.old).net asked.now.port asked.now.tree ≡ None) }
    ensures state { planned_state planner.new ≡ planned_state planner.old }
{
    match why_unexplained(planner.network(), &asked.port, asked.tree) {
        Some(why) => Ok(Answer::Refused(why)),
        None => explained_by_plan(alloc, planner, form, asked),
    }
}

/// Explains a port, once the plan is settled. `AllocError`: memory was wanted and refused.
fn explained_by_plan(
    alloc: Global,
    planner: &mut Planner,
    form: Form,
    asked: &Asked,
) -> Result<Answer, AllocError>
    ensures answer { IfOk result (λ answer. IsAnswer form (planned_state planner.old).net (Explain asked.now) (told_of answer) (answer_text form answer)) }
    ensures state { planned_state planner.new ≡ planned_state planner.old }
{
    planner.settle()?;
    match unexplained_in(planner, &asked.port, asked.tree) {
        Some(why) => Ok(Answer::Refused(why)),
        None => {
            let mut printer = open_explanation(alloc, form, asked)?;
            put_explanation_of(planner, &asked.port, asked.tree, &mut printer)?;
            let text = printer.close()?;
            Ok(Answer::Text(text))
        }
    }
}

/// What each single failure of a part does, once the plan is settled. `AllocError`: memory was wanted and refused.
fn swept(
    alloc: Global,
    planner: &mut Planner,
    form: Form,
    part: SweepPart,
) -> Result<Answer, AllocError>
    ensures answer { IfOk result (λ answer. IsAnswer form (planned_state planner.old).net (Question.Sweep part) (told_of answer) (answer_text form answer)) }
    ensures state { planned_state planner.new ≡ planned_state planner.old }
{
    planner.settle()?;
    let mut printer = open_sweep(alloc, form, part)?;
    let cuts = put_sweep(planner, part, &mut printer)?;
    let text = printer.close()?;
    Ok(Answer::Swept { text, cuts })
}

/// What each pair of failures of a part does, once the plan is settled. `AllocError`: memory was wanted and refused.
fn paired(
    alloc: Global,
    planner: &mut Planner,
    form: Form,
    part: SweepPart,
) -> Result<Answer, AllocError>
    ensures answer { IfOk result (λ answer. IsAnswer form (planned_state planner.old).net (Question.Pairs part) (told_of answer) (answer_text form answer)) }
    ensures state { planned_state planner.new ≡ planned_state planner.old }
{
    planner.settle()?;
    let mut printer = open_pairs(alloc, form, part)?;
    let cuts = put_pairs(planner, part, &mut printer)?;
    let text = printer.close()?;
    Ok(Answer::Swept { text, cuts })
}

/// Summarizes the network, once the plan is settled. `AllocError`: memory was wanted and refused.
fn summarized(alloc: Global, planner: &mut Planner, form: Form) -> Result<Answer, AllocError>
    ensures answer { IfOk result (λ answer. IsAnswer form (planned_state planner.old).net Question.Summary (told_of answer) (answer_text form answer)) }
    ensures state { planned_state planner.new ≡ planned_state planner.old }
{
    planner.settle()?;
    let mut printer = open_question(alloc, form, Query::Summary)?;
    put_summary_of(planner, &mut printer)?;
    let text = printer.close()?;
    Ok(Answer::Text(text))
}

/// Draws the network with a tree, once the plan is settled: a text in each form. `AllocError`: memory was wanted and refused.
fn depicted(planner: &mut Planner, tree: Tree) -> Result<Vec<u8>, AllocError>
    ensures picture { IfOk result (λ text. Depicts (planned_state planner.old).net tree text.items) }
    ensures state { planned_state planner.new ≡ planned_state planner.old }
{
    planner.settle()?;
    picture_of(planner, tree)
}

/// Draws the network with a VLAN, once the plan is settled: a text in each form. `AllocError`: memory was wanted and refused.
fn depicted_vlan(planner: &mut Planner, vid: Vid) -> Result<Vec<u8>, AllocError>
    ensures picture { IfOk result (λ text. DepictsVlan (planned_state planner.old).net vid text.items) }
    ensures state { planned_state planner.new ≡ planned_state planner.old }
{
    planner.settle()?;
    vlan_picture_of(planner, vid)
}

/// Tells which settings bring about what is wanted. `AllocError`: memory was wanted and refused. What the network's tables tell to be in
/// the way comes first.
fn advise(
    alloc: Global,
    planner: &mut Planner,
    form: Form,
    goal: &Goal,
) -> Result<Answer, AllocError>
    ensures answer { IfOk result (λ answer. IsAnswer form (planned_state planner.old).net (Advice goal.now) (told_of answer) (answer_text form answer)) }
    ensures memory { OnErr result (unadvised_early (planned_state planner.old).net goal.now ≡ None) }
{
    match why_unadvised(planner.network(), goal) {
        Some(why) => Ok(Answer::NotAdvised(why)),
        None => advise_by_plan(alloc, planner, form, goal),
    }
}

/// Tells which settings bring about what is wanted, once the plan is settled. For that edits are made, and the planner is of any network
/// afterwards. `AllocError`: memory was wanted and refused.
fn advise_by_plan(
    alloc: Global,
    planner: &mut Planner,
    form: Form,
    goal: &Goal,
) -> Result<Answer, AllocError>
    ensures { IfOk result (λ answer. IsAnswer form (planned_state planner.old).net (Advice goal.now) (told_of answer) (answer_text form answer)) }
{
    planner.settle()?;
    match unadvised_in(planner, goal) {
        Some(why) => Ok(Answer::NotAdvised(why)),
        None => {
            let mut printer = open_advice(alloc, form, goal)?;
            let told = put_advice(planner, goal, &mut printer)?;
            let text = printer.close()?;
            Ok(Answer::Advised {
                text,
                is_none: is_nothing(told),
            })
        }
    }
}

/// Whether nothing is advised.
fn is_nothing(advised: Advised) -> bool
    ensures { result ≡ none_advised advised }
{
    match advised {
        Advised::Nothing => true,
        Advised::Already | Advised::Edits(_) => false,
    }
}

/// Writes an answer. After a failure a front of it went out.
pub fn put_answer<K: Sink>(sink: &mut K, form: Form, answer: &Answer) -> Result<(), WriteFailed>
    requires working { (K.told sink.old).failed ≡ false }
    ensures ok { OnOk result (Appends (K.contents sink.old) (K.contents sink.new) (answer_text form answer.now)) }
    ensures err { OnErr result (AppendsFront (K.contents sink.old) (K.contents sink.new) (answer_text form answer.now)) }
    ensures works { OnOk result (Works (K.told sink.old) (K.told sink.new)) }
    ensures broken { OnErr result (IsStopped (K.told sink.old) (K.told sink.new)) }
    ensures lent { K.lent sink.new ≡ K.lent sink.old }
{
    match answer {
        Answer::Text(text) => put(sink, text.as_slice()),
        Answer::Unread(fault) => {
            put_unanswered(sink, form, RefusalLine::Explain, fault.code(), fault.text())
        }
        Answer::Refused(why) => {
            put_unanswered(sink, form, RefusalLine::Explain, why.code(), why.text())
        }
        Answer::Swept { text, .. } => put(sink, text.as_slice()),
        Answer::Undrawn(fault) => {
            put_unanswered(sink, form, RefusalLine::Dot, fault.code(), fault.text())
        }
        Answer::Advised { text, .. } => put(sink, text.as_slice()),
        Answer::NotAdvised(why) => {
            put_unanswered(sink, form, RefusalLine::Advise, why.code(), why.text())
        }
        Answer::UnreadGoal(fault) => {
            put_unanswered(sink, form, RefusalLine::Advise, fault.code(), fault.text())
        }
    }
}

/// What was counted of the script and of an answer to it.
fn with_answer(script: &Outcome, answer: &Answer) -> Outcome
    requires few { IsFew script.now }
    ensures { result ≡ counted_with script.now (told_of answer.now) }
{
    let (refused, differing) = match answer {
        Answer::Text(_) | Answer::Advised { is_none: false, .. } => (0, 0),
        Answer::Unread(_)
        | Answer::Refused(_)
        | Answer::Undrawn(_)
        | Answer::NotAdvised(_)
        | Answer::UnreadGoal(_) => (1, 0),
        Answer::Swept { cuts, .. } => (0, if *cuts == 0 { 0 } else { 1 }),
        Answer::Advised { is_none: true, .. } => (0, 1),
    };
    Outcome {
        refused: script.refused + refused,
        memory: script.memory,
        differing: script.differing + differing,
    }
}
