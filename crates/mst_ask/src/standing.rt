ghost use Rattle.std.specs.Prelude.{◌≡◌, ◌<◌, ◌≤◌, ◌^◌, ℕ, List, [], false, true, length, take, drop, vec_len, Ok, IsOk, IfOk, OnOk, OnErr};
ghost use Rattle.std.specs.Io.KnownBytes.{Appends};
ghost use Rattle.mst_drive.specs.Words.{Wrote, WroteFront};
ghost use Rattle.mst_lang.specs.Lines.{lines_of};
ghost use Rattle.mst_lang.specs.Reading.{reading_as};
ghost use Rattle.mst_lang.specs.declared.line.Line.TheVariants as lines;
ghost use Rattle.mst_net.specs.tables.After.{after};
ghost use Rattle.mst_questions.specs.tool.engine.Engine.{IsCounted, IsReady, does, tally_of, tallied, version_from};
ghost use Rattle.mst_questions.specs.tool.engine.Script.{version_of};
ghost use Rattle.mst_questions.specs.tool.engine.Steps.{Step};
ghost use Rattle.mst_questions.specs.tool.engine.report.Planned.{planned_state};
ghost use Rattle.mst_questions.specs.tool.engine.report.State.{IsState};
ghost use Rattle.mst_io.specs.Devices.{Works, IsStopped};
ghost use Rattle.mst_io.specs.Written.{AppendsFront};
ghost use Rattle.mst_questions.specs.tool.engine.print.Shape.{listed, of_script};
ghost use Rattle.mst_questions.specs.Ask.{keeps};
ghost use Rattle.mst_ask.specs.declared.request.Request.TheVariants.{Script as Said, Word, Undo, Policy as ByPolicy, Path};
ghost use Rattle.mst_ask.specs.Answering.{IsLoaded, LoadsLines};
ghost use Rattle.mst_ask.specs.Kept.{IsKept, Keeps, SameScript, lines_kept, lines_net, made_by, net_of_script, rows_of, standing_of};
ghost use Rattle.mst_ask.specs.Lines.{lines_in};
ghost use Rattle.mst_ask.specs.Replies.{replied};
ghost use Rattle.mst_ask.specs.Standing.{Asks, AsksLine, IsStanding};

use crate::reply::Reply;
use crate::request::{Request, read_request};
use crate::script::{Script, next_line};
use crate::undone::undone_text;
use mst_io::{Sink, WriteFailed};
use mst_lang::laws::edits_in_range;
use mst_lang::{Edit, Fault, Line, Version, parse_line_as};
use mst_net::Refusal;
use mst_net::laws::networks;
use mst_policy::Policy;
use mst_questions::engine_laws::has_load;
use mst_questions::{
    Engine, Form, Input, Planner, Question, Reply as LineReply, Shape, Side, answer_to, print,
    serve,
};
use mst_tracing::{PathQuestion, traced};
use mst_verifying::{PolicyQuestion, answered};
use std::alloc::{AllocError, Global};

/// A planner with the network of a script, a policy by which it is judged, and the edits that were made in it since, of which the last
/// ones can be taken back.
#[derive(Drop)]
pub(crate) struct Standing {
    alloc: Global,
    pub form: Form,
    /// The version of the script, by which lines are read.
    version: Version,
    /// The script, of which no line met want of memory when it was loaded.
    script: Vec<u8>,
    planner: Planner,
    policy: Policy,
    /// The lines of the edits that were made since, the newest last.
    made: Vec<Vec<u8>>,
}

/// What is printed of the only script.
fn shape(form: Form) -> Shape
    ensures { result ≡ of_script form }
{
    Shape {
        form,
        side: Side::Only,
    }
}

/// Loads a script, and writes what its lines print.
pub(crate) fn load<K: Sink>(
    alloc: Global,
    form: Form,
    script: &Script,
    sink: &mut K,
) -> Result<Engine, WriteFailed>
    requires working { (K.told sink.old).failed ≡ false }
    requires few { length script.now.bytes.items < 2 ^ 59 }
    ensures ok { IfOk result (λ engine. Wrote (K.contents sink.old) (K.contents sink.new) (λ text. IsLoaded form (lines_in script.now.is_whole script.now.bytes.items) text engine)) }
    ensures err { OnErr result (WroteFront (K.contents sink.old) (K.contents sink.new) (LoadsLines form (lines_in script.now.is_whole script.now.bytes.items))) }
    ensures some { OnErr result (0 < length script.now.bytes.items) }
    ensures works { OnOk result (Works (K.told sink.old) (K.told sink.new)) }
    ensures broken { OnErr result (IsStopped (K.told sink.old) (K.told sink.new)) }
    ensures lent { K.lent sink.new ≡ K.lent sink.old }
    ensures few { IfOk result (λ engine. engine.refused < 2 ^ 60) }
{
    has_load();
    let input = Input::Network(shape(form));
    let mut engine = Engine::new(alloc);
    let mut left = script.bytes.as_slice();
    while let Some((line, rest)) = next_line(left, script.is_whole) {
        load_line(&mut engine, input, line, sink)?;
        left = rest;
    }
    Ok(engine)
}

/// Loads a line, and writes what it prints.
fn load_line<K: Sink>(
    engine: &mut Engine,
    input: Input,
    line: &[u8],
    sink: &mut K,
) -> Result<(), WriteFailed>
    requires ready { IsReady input engine.old }
    requires few { engine.old.number < 2 ^ 60 }
    requires counted { IsCounted (tally_of engine.old) }
    requires working { (K.told sink.old).failed ≡ false }
    ensures ready { IsReady input engine.new }
    ensures ok { OnOk result ((made : Step) × does input engine.old.version engine.old.number (planned_state engine.old.planner) line.now made
        × (tally_of engine.new ≡ tallied input (tally_of engine.old) line.now made) × Appends (K.contents sink.old) (K.contents sink.new) made.text) }
    ensures err { OnErr result ((made : Step) × does input engine.old.version engine.old.number (planned_state engine.old.planner) line.now made
        × IsState made.state × AppendsFront (K.contents sink.old) (K.contents sink.new) made.text) }
    ensures works { OnOk result (Works (K.told sink.old) (K.told sink.new)) }
    ensures broken { OnErr result (IsStopped (K.told sink.old) (K.told sink.new)) }
    ensures lent { K.lent sink.new ≡ K.lent sink.old }
{
    let number = engine.number;
    let reply = engine.reply(input, line);
    engine.planner.known();
    print(sink, input, number, &reply)
}

/// Loads a whole script again, of which nothing is printed. `AllocError`: memory was wanted and refused.
fn load_again(alloc: Global, form: Form, script: &[u8]) -> Result<Planner, AllocError>
    requires few { length script.now < 2 ^ 59 }
    ensures { IfOk result (λ planner. (planned_state planner).net ≡ net_of_script script.now) }
{
    let input = Input::Network(shape(form));
    let mut engine = Engine::new(alloc);
    let mut left = script;
    while let Some((line, rest)) = next_line(left, true) {
        let _ = engine.reply(input, line);
        left = rest;
    }
    if engine.memory != 0 {
        return Err(AllocError);
    }
    Ok(engine.planner)
}

/// Makes the edit that a line says, if it says one that isn't refused. `AllocError`: memory was wanted and refused.
fn make_again(planner: &mut Planner, version: Version, line: &[u8]) -> Result<(), AllocError>
    ensures { OnOk result ((planned_state planner.new).net ≡ made_by (reading_as version line.now) (planned_state planner.old).net) }
{
    match parse_line_as(version, line) {
        Ok(Line::Edit(edit)) => match planner.stage(&edit) {
            Err(Refusal::E99) => Err(AllocError),
            Ok(()) | Err(_) => Ok(()),
        },
        Ok(Line::Blank | Line::Mark | Line::Query(_)) | Err(_) => Ok(()),
    }
}

/// Keeps a line as the newest. `AllocError`: memory was wanted and refused, and the others are as they were.
fn keep(alloc: Global, made: &mut Vec<Vec<u8>>, line: &[u8]) -> Result<(), AllocError>
    ensures ok { OnOk result (Keeps made.old.items line.now made.new.items) }
    ensures err { OnErr result (made.new.items ≡ made.old.items) }
{
    let kept = Vec::from_slice(alloc, line)?;
    if made.push(kept).is_err() {
        return Err(AllocError);
    }
    Ok(())
}

impl Standing {
    /// What stands where a script was loaded, and no edit was made since, by a policy that has no line.
    pub fn new(alloc: Global, form: Form, script: Vec<u8>, engine: Engine) -> Standing
        requires version { version_from engine.version [] ≡ version_of (lines_of script.items) }
        requires net { (planned_state engine.planner).net ≡ net_of_script script.items }
        requires few { length script.items < 2 ^ 59 }
        ensures kept { IsKept result }
        ensures standing { standing_of result ≡ record { state = planned_state engine.planner; policy = []; made = [] } }
        ensures form { result.form ≡ form }
        ensures version { result.version ≡ version_of (lines_of script.items) }
    {
        let version = match engine.version {
            Some(version) => version,
            None => Version::V1,
        };
        Standing {
            alloc,
            form,
            version,
            script,
            planner: engine.planner,
            policy: Policy::new(alloc),
            made: Vec::new(alloc),
        }
    }

    /// The same with this policy.
    pub fn with_policy(self, policy: Policy) -> Standing
        ensures { result ≡ record self { policy = policy } }
    {
        Standing {
            alloc: self.alloc,
            form: self.form,
            version: self.version,
            script: self.script,
            planner: self.planner,
            policy,
            made: self.made,
        }
    }

    /// Does nothing: its clause says that what stands is a network, and so is each before an edit.
    pub fn known(&self)
        requires { IsKept self.now }
        ensures { IsStanding (standing_of self.now) }
    {
        networks();
        edits_in_range();
        self.planner.known();
    }

    /// Answers a line, by what it asks.
    pub fn ask(&mut self, number: u64, line: &[u8]) -> Reply
        requires kept { IsKept self.old }
        ensures kept { IsKept self.new }
        ensures same { SameScript self.old self.new }
        ensures asked { AsksLine self.old.form self.old.version number (standing_of self.old) line.now (replied self.old.form number (standing_of self.new) result) }
    {
        match read_request(self.version, line) {
            Err(fault) => Reply::Line(LineReply::Unread(fault)),
            Ok(Request::Script(said)) => self.serve(number, line, &said),
            Ok(Request::Word(question)) => self.answer(&question),
            Ok(Request::Undo(count)) => self.undo(count),
            Ok(Request::Policy(question)) => self.judge(question),
            Ok(Request::Path(question)) => self.trace(&question),
        }
    }

    /// Serves what a line of a script says.
    fn serve(&mut self, number: u64, line: &[u8], said: &Line) -> Reply
        requires kept { IsKept self.old }
        requires says { reading_as self.old.version line.now ≡ Ok said.now }
        ensures kept { IsKept self.new }
        ensures same { SameScript self.old self.new }
        ensures asked { Asks self.old.form number (standing_of self.old) line.now (Ok (Said said.now)) (replied self.old.form number (standing_of self.new) result) }
    {
        match said {
            Line::Blank => Reply::Silent,
            Line::Edit(edit) => self.make(line, edit),
            Line::Mark | Line::Query(_) => {
                let shape = shape(self.form);
                Reply::Line(serve(self.alloc, &mut self.planner, shape, number, said))
            }
        }
    }

    /// Makes an edit, and keeps its line. What refuses it comes first, and takes no memory.
    fn make(&mut self, line: &[u8], edit: &Edit) -> Reply
        requires kept { IsKept self.old }
        requires says { reading_as self.old.version line.now ≡ Ok (lines.Edit edit.now) }
        ensures kept { IsKept self.new }
        ensures same { SameScript self.old self.new }
        ensures asked { (number : ℕ) → Asks self.old.form number (standing_of self.old) line.now (Ok (Said (lines.Edit edit.now))) (replied self.old.form number (standing_of self.new) result) }
    {
        match self.planner.rehearse(edit) {
            Ok(()) => self.keep_and_stage(line, edit),
            Err(Refusal::E99) => Reply::Line(LineReply::Starved),
            Err(refusal) => Reply::Line(LineReply::Refused(refusal)),
        }
    }

    /// Keeps the line of an edit that nothing refuses, and makes it.
    fn keep_and_stage(&mut self, line: &[u8], edit: &Edit) -> Reply
        requires kept { IsKept self.old }
        requires says { reading_as self.old.version line.now ≡ Ok (lines.Edit edit.now) }
        requires may { IsOk (after edit.now (planned_state self.old.planner).net) }
        ensures kept { IsKept self.new }
        ensures same { SameScript self.old self.new }
        ensures asked { (number : ℕ) → Asks self.old.form number (standing_of self.old) line.now (Ok (Said (lines.Edit edit.now))) (replied self.old.form number (standing_of self.new) result) }
    {
        let count = self.made.len();
        match keep(self.alloc, &mut self.made, line) {
            Err(_) => Reply::Line(LineReply::Starved),
            Ok(()) => match self.planner.stage(edit) {
                Ok(()) => Reply::Line(LineReply::Silent),
                Err(Refusal::E99) => {
                    self.made.truncate(count);
                    Reply::Line(LineReply::Starved)
                }
                Err(refusal) => {
                    self.made.truncate(count);
                    Reply::Line(LineReply::Refused(refusal))
                }
            },
        }
    }

    /// Answers a word of the program that leaves the planner as it is.
    fn answer(&mut self, question: &Question) -> Reply
        requires kept { IsKept self.old }
        requires keeps { keeps question.now ≡ true }
        ensures kept { IsKept self.new }
        ensures same { SameScript self.old self.new }
        ensures asked { (number : ℕ) (line : List ℕ) → Asks self.old.form number (standing_of self.old) line (Ok (Word question.now)) (replied self.old.form number (standing_of self.new) result) }
    {
        match answer_to(self.alloc, &mut self.planner, self.form, question) {
            Ok(answer) => Reply::Answer(answer),
            Err(_) => Reply::Line(LineReply::Starved),
        }
    }

    /// Tells whether the network does what the policy promises, or what its risks do.
    fn judge(&mut self, question: PolicyQuestion) -> Reply
        requires kept { IsKept self.old }
        ensures kept { IsKept self.new }
        ensures same { SameScript self.old self.new }
        ensures asked { (number : ℕ) (line : List ℕ) → Asks self.old.form number (standing_of self.old) line (Ok (ByPolicy question)) (replied self.old.form number (standing_of self.new) result) }
    {
        match answered(
            self.alloc,
            self.form,
            question,
            &mut self.planner,
            &self.policy,
        ) {
            Ok(found) => Reply::Verified(found),
            Err(_) => Reply::Line(LineReply::Starved),
        }
    }

    /// Tells a path.
    fn trace(&mut self, question: &PathQuestion) -> Reply
        requires kept { IsKept self.old }
        ensures kept { IsKept self.new }
        ensures same { SameScript self.old self.new }
        ensures asked { (number : ℕ) (line : List ℕ) → Asks self.old.form number (standing_of self.old) line (Ok (Path question.now)) (replied self.old.form number (standing_of self.new) result) }
    {
        match traced(self.alloc, &mut self.planner, self.form, question) {
            Ok(answer) => Reply::Traced(answer),
            Err(_) => Reply::Line(LineReply::Starved),
        }
    }

    /// Takes back so many of the last edits.
    fn undo(&mut self, count: u64) -> Reply
        requires kept { IsKept self.old }
        ensures kept { IsKept self.new }
        ensures same { SameScript self.old self.new }
        ensures asked { (number : ℕ) (line : List ℕ) → Asks self.old.form number (standing_of self.old) line (Ok (Undo count)) (replied self.old.form number (standing_of self.new) result) }
    {
        let made = self.made.len() as u64;
        if count > made {
            return Reply::Line(LineReply::Unread(Fault::E02));
        }
        let left = (made - count) as usize;
        match self.before(left) {
            Err(_) => Reply::Line(LineReply::Starved),
            Ok((mut planner, text)) => {
                planner.take_mark(&mut self.planner);
                self.planner = planner;
                self.made.truncate(left);
                Reply::Undone(text)
            }
        }
    }

    /// The planner of the network as the first so many edits left it, and what is printed of those behind them. `AllocError`:
    /// memory was wanted and refused.
    fn before(&self, left: usize) -> Result<(Planner, Vec<u8>), AllocError>
        requires kept { IsKept self.now }
        requires left { left ≤ vec_len self.now.made }
        ensures net { IfOk result (λ p. (planned_state p.0).net ≡ lines_net self.now.version (net_of_script self.now.script.items) (take left (lines_kept self.now))) }
        ensures text { IfOk result (λ p. p.1.items ≡ listed self.now.form (rows_of (drop left self.now.made.items))) }
    {
        let text = undone_text(self.alloc, self.form, &self.made[left..])?;
        let mut planner = load_again(self.alloc, self.form, self.script.as_slice())?;
        for line in &self.made[..left] {
            make_again(&mut planner, self.version, line.as_slice())?;
        }
        Ok((planner, text))
    }
}
