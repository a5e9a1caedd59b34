ghost use Rattle.std.specs.Prelude.{◌≡◌, ◌^◌, ◌<◌, true, false, [], ◌∷◌, Ok, IfOk, OnOk, OnErr};
ghost use Rattle.std.specs.Io.KnownBytes.{Appends};
ghost use Rattle.mst_lang.specs.declared.line.Line.TheVariants.{Mark, Query as query};
ghost use Rattle.mst_report.specs.Answers.{asks_plan as is_of_plan};
ghost use Rattle.mst_report.specs.Planned.{planned_state};
ghost use Rattle.mst_report.specs.Refusing.{HasRows};
ghost use Rattle.mst_report.specs.State.{empty_state};
ghost use Rattle.mst_io.specs.Devices.{Works, IsStopped};
ghost use Rattle.mst_io.specs.Written.{AppendsFront};
ghost use Rattle.mst_engine.specs.Script.{PrintsAnswer, ServesRead, Serves, Loads, reading_at, version_said as said};
ghost use Rattle.mst_print.specs.Shape.{of_script};
ghost use Rattle.mst_engine.specs.Engine.{IsReady, shape_of, version_from, does, begun, tally_of, tallied, outcome_of, reply_text, replied};

use crate::captures::compare_line;
use mst_bpdu::BpduFault;
use mst_compare::Digests;
use mst_io::{Outcome, Sink, WriteFailed, put};
use mst_lang::{Fault, Line, Query, Version, is_version_2, parse_line_as};
use mst_net::Refusal;
use mst_print::{Form, Printer, Shape, Side, put_coded, put_fault, put_refusal};
use mst_report::laws::entries_of_network;
use mst_report::{Planner, asks_plan};
use std::alloc::{AllocError, Global};

/// What lines come from, by which they are served.
#[derive(Clone, Copy)]
pub enum Input {
    /// A script: edits of the network, and queries. What is printed has this form.
    Script(Form),
    /// A script of which the edits alone are served: its queries and marks do nothing. What is printed has this shape.
    Network(Shape),
    /// Captured messages, which are compared with the plan. What is printed has this form.
    Captures(Form),
}

/// What is kept from line to line.
#[derive(Drop)]
pub struct Engine {
    pub alloc: Global,
    pub planner: Planner,
    /// The version of the script, once its first line has ended.
    pub version: Option<Version>,
    /// The number of the next line of the input, from 1.
    pub number: u64,
    /// How many lines of the input were refused, but for want of memory.
    pub refused: u64,
    /// How many lines of the input were refused for want of memory.
    pub memory: u64,
    /// How many captured messages of the input differ from the planned ones.
    pub differing: u64,
    /// How many queries of the input were answered, or how many captured messages agree.
    pub answered: u64,
    /// The digests of tables that captured messages were compared with.
    digests: Digests,
}

/// What a line is answered by.
#[derive(Drop)]
pub enum Reply {
    /// Nothing: an edit was made, or the line has no command.
    Silent,
    /// The answer to a query, as it is printed.
    Text(Vec<u8>),
    /// The line isn't read.
    Unread(Fault),
    /// The edit isn't made, for another reason than want of memory.
    Refused(Refusal),
    /// Memory was wanted and refused.
    Starved,
    /// The captured message differs from the planned one: its differences, as they are printed.
    Differing(Vec<u8>),
    /// The captured message isn't read, or has no sender.
    Faulty(BpduFault),
    /// Memory was wanted and refused, to compare the captured message.
    Uncompared,
}

impl Engine {
    /// The empty network, before the first line.
    pub fn new(alloc: Global) -> Engine
        ensures begins { tally_of result ≡ begun (planned_state result.planner) }
        ensures empty { planned_state result.planner ≡ empty_state }
    {
        Engine {
            alloc,
            planner: Planner::new(alloc),
            version: None,
            number: 1,
            refused: 0,
            memory: 0,
            differing: 0,
            answered: 0,
            digests: Digests::new(alloc),
        }
    }

    /// What was counted of the input.
    pub fn outcome(&self) -> Outcome
        ensures { result ≡ outcome_of (tally_of self.now) }
    {
        Outcome {
            refused: self.refused,
            memory: self.memory,
            differing: self.differing,
        }
    }

    /// Begins the next input, of which nothing is counted yet.
    pub fn restart(&mut self)
        ensures begins { tally_of self.new ≡ begun (planned_state self.new.planner) }
        ensures planner { self.new.planner ≡ self.old.planner }
    {
        self.version = None;
        self.number = 1;
        self.refused = 0;
        self.memory = 0;
        self.differing = 0;
        self.answered = 0;
    }

    /// Serves a line, and counts it.
    pub fn reply(&mut self, input: Input, line: &[u8]) -> Reply
        requires ready { IsReady input self.old }
        requires numbered { self.old.number < 2 ^ 60 }
        requires refused { self.old.refused < 2 ^ 60 }
        requires memory { self.old.memory < 2 ^ 60 }
        requires differing { self.old.differing < 2 ^ 60 }
        requires answered { self.old.answered < 2 ^ 60 }
        ensures ready { IsReady input self.new }
        ensures served { does input self.old.version self.old.number (planned_state self.old.planner) line.now (replied (shape_of input) self.old.number (planned_state self.new.planner) result) }
        ensures counted { tally_of self.new ≡ tallied input (tally_of self.old) line.now (replied (shape_of input) self.old.number (planned_state self.new.planner) result) }
    {
        let reply = match input {
            Input::Script(form) => {
                let version = version_at(self.version, line);
                self.version = Some(version);
                serve_line(
                    self.alloc,
                    &mut self.planner,
                    form,
                    version,
                    self.number,
                    line,
                )
            }
            Input::Network(shape) => {
                let version = version_at(self.version, line);
                self.version = Some(version);
                load_line(
                    self.alloc,
                    &mut self.planner,
                    shape,
                    version,
                    self.number,
                    line,
                )
            }
            Input::Captures(form) => compare_line(
                self.alloc,
                &self.planner,
                &mut self.digests,
                form,
                self.number,
                line,
            ),
        };
        self.number += 1;
        match reply {
            Reply::Unread(_) | Reply::Refused(_) | Reply::Faulty(_) => self.refused += 1,
            Reply::Starved | Reply::Uncompared => self.memory += 1,
            Reply::Differing(_) => self.differing += 1,
            Reply::Text(_) => self.answered += 1,
            Reply::Silent => {}
        }
        reply
    }
}

/// The version of a script at its next line: it is known already, or this line, the first one, says it.
fn version_at(known: Option<Version>, line: &[u8]) -> Version
    ensures { result ≡ version_from known (line.now ∷ []) }
{
    match known {
        Some(version) => version,
        None => version_said(line),
    }
}

/// The version that the first line of a script says.
fn version_said(line: &[u8]) -> Version
    ensures { result ≡ said line.now }
{
    if is_version_2(line) {
        Version::V2
    } else {
        Version::V1
    }
}

/// Serves a line of a script.
fn serve_line(
    alloc: Global,
    planner: &mut Planner,
    form: Form,
    version: Version,
    number: u64,
    line: &[u8],
) -> Reply
    ensures { Serves form version number (planned_state planner.old) line.now (replied (of_script form) number (planned_state planner.new) result) }
{
    let shape = Shape {
        form,
        side: Side::Only,
    };
    match read_line(version, number, line) {
        Err(fault) => Reply::Unread(fault),
        Ok(line) => serve(alloc, planner, shape, number, &line),
    }
}

/// Serves a line of a script, if it is an edit or isn't read.
fn load_line(
    alloc: Global,
    planner: &mut Planner,
    shape: Shape,
    version: Version,
    number: u64,
    line: &[u8],
) -> Reply
    ensures { Loads shape version number (planned_state planner.old) line.now (replied shape number (planned_state planner.new) result) }
{
    match read_line(version, number, line) {
        Err(fault) => Reply::Unread(fault),
        Ok(Line::Query(_) | Line::Mark) => Reply::Silent,
        Ok(line) => serve(alloc, planner, shape, number, &line),
    }
}

/// What a line of a script says. The first one of version 2 says so, and nothing else.
fn read_line(version: Version, number: u64, line: &[u8]) -> Result<Line, Fault>
    ensures { result ≡ reading_at version number line.now }
{
    match version {
        Version::V1 => parse_line_as(Version::V1, line),
        Version::V2 => {
            if number == 1 {
                Ok(Line::Blank)
            } else {
                parse_line_as(Version::V2, line)
            }
        }
    }
}

/// Serves what the line of this number says: an edit is made in the network, a query is answered of the plan. Where it is refused,
/// for want of memory or else, the network and its mark stay as they were.
pub fn serve(alloc: Global, planner: &mut Planner, shape: Shape, number: u64, line: &Line) -> Reply
    ensures { ServesRead shape number (planned_state planner.old) (Ok line.now) (replied shape number (planned_state planner.new) result) }
{
    match line {
        Line::Blank => Reply::Silent,
        Line::Edit(edit) => match planner.stage(edit) {
            Ok(()) => Reply::Silent,
            Err(Refusal::E99) => Reply::Starved,
            Err(refusal) => Reply::Refused(refusal),
        },
        Line::Query(query) => answer(alloc, planner, shape, number, query),
        Line::Mark => mark(planner, shape, number),
    }
}

/// Marks the network, once the plan is settled.
fn mark(planner: &mut Planner, shape: Shape, number: u64) -> Reply
    ensures { ServesRead shape number (planned_state planner.old) (Ok Mark) (replied shape number (planned_state planner.new) result) }
{
    planner.known();
    entries_of_network();
    match planner.settle() {
        Err(_) => Reply::Starved,
        Ok(()) => match planner.mark() {
            Ok(()) => Reply::Silent,
            Err(_) => Reply::Starved,
        },
    }
}

/// Answers a query.
fn answer(alloc: Global, planner: &mut Planner, shape: Shape, number: u64, asked: &Query) -> Reply
    ensures { ServesRead shape number (planned_state planner.old) (Ok (query asked.now)) (replied shape number (planned_state planner.new) result) }
{
    match planner.refusal(asked) {
        Some(refusal) => Reply::Refused(refusal),
        None => told(alloc, planner, shape, number, asked),
    }
}

/// What a query that rows answer is answered by: what is printed of them, or that memory was wanted for it.
fn told(alloc: Global, planner: &mut Planner, shape: Shape, number: u64, asked: &Query) -> Reply
    requires { HasRows asked.now (planned_state planner.old) }
    ensures { ServesRead shape number (planned_state planner.old) (Ok (query asked.now)) (replied shape number (planned_state planner.new) result) }
{
    match text_of(alloc, planner, shape.form, number, asked) {
        Err(_) => Reply::Starved,
        Ok(text) => Reply::Text(text),
    }
}

/// What is printed of the rows that answer a query, once the plan is settled where it is asked of the plan. `AllocError`: memory was
/// wanted and refused.
fn text_of(
    alloc: Global,
    planner: &mut Planner,
    form: Form,
    number: u64,
    asked: &Query,
) -> Result<Vec<u8>, AllocError>
    requires { HasRows asked.now (planned_state planner.old) }
    ensures text { IfOk result (λ text. PrintsAnswer form number (planned_state planner.old) asked.now text.items) }
    ensures state { planned_state planner.new ≡ planned_state planner.old }
{
    if asks_plan(asked) && planner.settle().is_err() {
        return Err(AllocError);
    }
    print_answer(alloc, planner, form, number, asked)
}

/// What is printed of the rows that answer a query, where the plan is settled if it is asked of the plan. `AllocError`: memory was
/// wanted and refused.
fn print_answer(
    alloc: Global,
    planner: &Planner,
    form: Form,
    number: u64,
    asked: &Query,
) -> Result<Vec<u8>, AllocError>
    requires settled { is_of_plan asked.now ≡ true → planner.now.is_settled ≡ true }
    requires rows { HasRows asked.now (planned_state planner.now) }
    ensures { IfOk result (λ text. PrintsAnswer form number (planned_state planner.now) asked.now text.items) }
{
    let mut printer = Printer::open_query(alloc, form, number, asked)?;
    planner.put::<Printer>(asked, &mut printer)?;
    let text = printer.close()?;
    Ok(text)
}

/// What refusals and answers are printed as.
fn shape(input: Input) -> Shape
    ensures { result ≡ shape_of input }
{
    match input {
        Input::Script(form) => Shape {
            form,
            side: Side::Only,
        },
        Input::Network(shape) => shape,
        Input::Captures(form) => Shape {
            form,
            side: Side::Only,
        },
    }
}

/// Writes a reply to the line of this number. After a failure a front of what is printed of it went out.
pub fn print<K: Sink>(
    sink: &mut K,
    input: Input,
    number: u64,
    reply: &Reply,
) -> Result<(), WriteFailed>
    requires working { (K.told sink.old).failed ≡ false }
    ensures ok { OnOk result (Appends (K.contents sink.old) (K.contents sink.new) (reply_text (shape_of input) number reply.now)) }
    ensures err { OnErr result (AppendsFront (K.contents sink.old) (K.contents sink.new) (reply_text (shape_of input) number reply.now)) }
    ensures works { OnOk result (Works (K.told sink.old) (K.told sink.new)) }
    ensures broken { OnErr result (IsStopped (K.told sink.old) (K.told sink.new)) }
    ensures lent { K.lent sink.new ≡ K.lent sink.old }
{
    let shape = shape(input);
    match reply {
        Reply::Silent => Ok(()),
        Reply::Text(text) | Reply::Differing(text) => put(sink, text.as_slice()),
        Reply::Unread(fault) => put_coded(sink, shape, number, fault.code(), fault.text()),
        Reply::Refused(refusal) => put_refusal(sink, shape, number, *refusal),
        Reply::Starved => put_refusal(sink, shape, number, Refusal::E99),
        Reply::Faulty(fault) => put_fault(sink, shape.form, number, *fault),
        Reply::Uncompared => put_fault(sink, shape.form, number, BpduFault::B99),
    }
}
