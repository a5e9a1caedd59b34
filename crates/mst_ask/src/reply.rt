ghost use Rattle.std.specs.Prelude.{◌≡◌, false, OnOk, OnErr};
ghost use Rattle.std.specs.Io.KnownBytes.{Appends};
ghost use Rattle.mst_io.specs.Devices.{Works, IsStopped};
ghost use Rattle.mst_io.specs.Written.{AppendsFront};
ghost use Rattle.mst_ask.specs.Replies.{body_of, end_of, reply_text, status_of, verdict_of, verdict_of_answer, verdict_of_line, verdict_of_path, verdict_of_verification};
ghost use Rattle.mst_ask.specs.Standing.{done};

use itoa::Buffer;
use mst_drive::Says;
use mst_io::{Sink, WriteFailed, put, put_parts};
use mst_questions::{Answer, Form, Input, Reply as LineReply, print, put_answer};
use mst_tracing::{PathAnswer, put_traced};
use mst_verifying::Verification;

/// What a question is answered by.
#[derive(Drop)]
pub(crate) enum Reply {
    /// Nothing: the line is blank, or a comment.
    Silent,
    /// What answers a line of a script, or refuses the question.
    Line(LineReply),
    /// The answer of a word of the program.
    Answer(Answer),
    /// Edits were taken back: their lines, as they are printed.
    Undone(Vec<u8>),
    /// Whether the network does what the policy promises.
    Verified(Verification),
    /// A path, or why it isn't told.
    Traced(PathAnswer),
}

/// What the question of this number is answered by, and what it is printed in.
#[derive(Drop)]
pub(crate) struct Replied {
    pub form: Form,
    pub number: u64,
    pub reply: Reply,
}

impl Says for Replied {
    ghost use Rattle.mst_ask.specs.Questions.{replied_text};

    ghost text = { replied_text };

    fn put<K: Sink>(&self, sink: &mut K) -> Result<(), WriteFailed> {
        put_reply(sink, self.form, self.number, &self.reply)
    }
}

/// How a question was answered.
#[derive(Clone, Copy)]
pub(crate) struct Verdict {
    /// It was refused, but for want of memory.
    pub refused: bool,
    /// It was refused for want of memory.
    pub lacking: bool,
    /// Its answer tells of something that differs.
    pub differs: bool,
}

impl Verdict {
    /// It was answered, and nothing differs.
    const GIVEN: Verdict = Verdict {
        refused: false,
        lacking: false,
        differs: false,
    };

    const REFUSED: Verdict = Verdict {
        refused: true,
        lacking: false,
        differs: false,
    };

    const LACKING: Verdict = Verdict {
        refused: false,
        lacking: true,
        differs: false,
    };

    const DIFFERS: Verdict = Verdict {
        refused: false,
        lacking: false,
        differs: true,
    };
}

impl Verdict {
    /// The status of the question: 3 for want of memory, else 1 where it was refused or something differs, else 0.
    fn status(&self) -> u8
        ensures { result ≡ status_of self.now }
    {
        if self.lacking {
            3
        } else if self.refused || self.differs {
            1
        } else {
            0
        }
    }
}

impl Reply {
    /// How the question was answered.
    pub fn verdict(&self) -> Verdict
        ensures { result ≡ verdict_of self.now }
    {
        match self {
            Reply::Silent | Reply::Undone(_) => Verdict::GIVEN,
            Reply::Line(reply) => of_line(reply),
            Reply::Answer(answer) => of_answer(answer),
            Reply::Verified(found) => of_verification(found),
            Reply::Traced(answer) => of_path(answer),
        }
    }
}

/// How a line of a script was answered.
fn of_line(reply: &LineReply) -> Verdict
    ensures { result ≡ verdict_of_line reply.now }
{
    match reply {
        LineReply::Silent | LineReply::Text(_) => Verdict::GIVEN,
        LineReply::Unread(_) | LineReply::Refused(_) | LineReply::Faulty(_) => Verdict::REFUSED,
        LineReply::Starved | LineReply::Uncompared => Verdict::LACKING,
        LineReply::Differing(_) => Verdict::DIFFERS,
    }
}

/// How a word of the program was answered.
fn of_answer(answer: &Answer) -> Verdict
    ensures { result ≡ verdict_of_answer answer.now }
{
    match answer {
        Answer::Text(_) | Answer::Advised { is_none: false, .. } => Verdict::GIVEN,
        Answer::Unread(_)
        | Answer::Refused(_)
        | Answer::Undrawn(_)
        | Answer::NotAdvised(_)
        | Answer::UnreadGoal(_) => Verdict::REFUSED,
        Answer::Swept { cuts, .. } => Verdict {
            refused: false,
            lacking: false,
            differs: *cuts != 0,
        },
        Answer::Advised { is_none: true, .. } => Verdict::DIFFERS,
    }
}

/// How it was answered whether the network does what the policy promises.
fn of_verification(found: &Verification) -> Verdict
    ensures { result ≡ verdict_of_verification found.now }
{
    Verdict {
        refused: found.refused != 0,
        lacking: false,
        differs: found.telling != 0,
    }
}

/// How a path was answered.
fn of_path(answer: &PathAnswer) -> Verdict
    ensures { result ≡ verdict_of_path answer.now }
{
    match answer {
        PathAnswer::Told {
            is_broken: false,
            ..
        } => Verdict::GIVEN,
        PathAnswer::Told {
            is_broken: true,
            ..
        } => Verdict::DIFFERS,
        PathAnswer::Unread(_) | PathAnswer::Refused(_) => Verdict::REFUSED,
    }
}

/// Writes what answers a question, and `done STATUS` behind it. Of what is no question nothing is written.
fn put_reply<K: Sink>(
    sink: &mut K,
    form: Form,
    number: u64,
    reply: &Reply,
) -> Result<(), WriteFailed>
    requires working { (K.told sink.old).failed ≡ false }
    ensures ok { OnOk result (Appends (K.contents sink.old) (K.contents sink.new) (reply_text form number reply.now)) }
    ensures err { OnErr result (AppendsFront (K.contents sink.old) (K.contents sink.new) (reply_text form number reply.now)) }
    ensures works { OnOk result (Works (K.told sink.old) (K.told sink.new)) }
    ensures broken { OnErr result (IsStopped (K.told sink.old) (K.told sink.new)) }
    ensures lent { K.lent sink.new ≡ K.lent sink.old }
{
    put_body(sink, form, number, reply)?;
    put_end(sink, form, reply)
}

/// Writes what answers a question.
fn put_body<K: Sink>(
    sink: &mut K,
    form: Form,
    number: u64,
    reply: &Reply,
) -> Result<(), WriteFailed>
    requires working { (K.told sink.old).failed ≡ false }
    ensures ok { OnOk result (Appends (K.contents sink.old) (K.contents sink.new) (body_of form number reply.now)) }
    ensures err { OnErr result (AppendsFront (K.contents sink.old) (K.contents sink.new) (body_of form number reply.now)) }
    ensures works { OnOk result (Works (K.told sink.old) (K.told sink.new)) }
    ensures broken { OnErr result (IsStopped (K.told sink.old) (K.told sink.new)) }
    ensures lent { K.lent sink.new ≡ K.lent sink.old }
{
    match reply {
        Reply::Silent => Ok(()),
        Reply::Line(line) => print(sink, Input::Script(form), number, line),
        Reply::Answer(answer) => put_answer(sink, form, answer),
        Reply::Undone(text) => put(sink, text.as_slice()),
        Reply::Verified(found) => put(sink, found.text.as_slice()),
        Reply::Traced(answer) => put_traced(sink, form, answer),
    }
}

/// Writes the end of an answer.
fn put_end<K: Sink>(sink: &mut K, form: Form, reply: &Reply) -> Result<(), WriteFailed>
    requires working { (K.told sink.old).failed ≡ false }
    ensures ok { OnOk result (Appends (K.contents sink.old) (K.contents sink.new) (end_of form reply.now)) }
    ensures err { OnErr result (AppendsFront (K.contents sink.old) (K.contents sink.new) (end_of form reply.now)) }
    ensures works { OnOk result (Works (K.told sink.old) (K.told sink.new)) }
    ensures broken { OnErr result (IsStopped (K.told sink.old) (K.told sink.new)) }
    ensures lent { K.lent sink.new ≡ K.lent sink.old }
{
    match reply {
        Reply::Silent => Ok(()),
        Reply::Line(_)
        | Reply::Answer(_)
        | Reply::Undone(_)
        | Reply::Verified(_)
        | Reply::Traced(_) => put_done(sink, form, &reply.verdict()),
    }
}

/// Writes `done STATUS`: 3 for want of memory, else 1 where something was refused or differs, else 0.
pub(crate) fn put_done<K: Sink>(
    sink: &mut K,
    form: Form,
    verdict: &Verdict,
) -> Result<(), WriteFailed>
    requires working { (K.told sink.old).failed ≡ false }
    ensures ok { OnOk result (Appends (K.contents sink.old) (K.contents sink.new) (done form (status_of verdict.now))) }
    ensures err { OnErr result (AppendsFront (K.contents sink.old) (K.contents sink.new) (done form (status_of verdict.now))) }
    ensures works { OnOk result (Works (K.told sink.old) (K.told sink.new)) }
    ensures broken { OnErr result (IsStopped (K.told sink.old) (K.told sink.new)) }
    ensures lent { K.lent sink.new ≡ K.lent sink.old }
{
    let mut buffer = Buffer::new();
    let status = buffer.format(verdict.status()).as_bytes();
    match form {
        Form::Text => put_parts(sink, &[b"done ", status, b"\n"]),
        Form::Json => put_parts(sink, &[b"{\"kind\":\"done\",\"status\":", status, b"}\n"]),
    }
}
