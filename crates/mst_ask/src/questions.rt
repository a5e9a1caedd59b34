ghost use Rattle.std.specs.Prelude.{◌≡◌, ◌≢◌, ◌≤◌, ◌<◌, ◌+◌, ◌^◌, ◌∷◌, [], false, Err, OnOk, OnErr};
ghost use Rattle.mst_drive.specs.Turned.{Turned, turning};
ghost use Rattle.mst_drive.specs.Words.{HasTold, Wrote, WroteFront};
ghost use Rattle.mst_questions.specs.tool.engine.Served.{IsFew};
ghost use Rattle.mst_io.specs.Devices.{HearsWhere, seen_by, stopped_by};
ghost use Rattle.mst_ask.specs.Answering.{Answered, AnsweredEnded, PrintsAnswers};
ghost use Rattle.mst_ask.specs.Kept.{IsKept};
ghost use Rattle.mst_ask.specs.Questions.{counted_more, judged_by, none_counted};

use crate::laws::has_turns;
use crate::reply::{Replied, Reply, Verdict};
use crate::standing::Standing;
use mst_drive::{Job, drive};
use mst_io::{Outcome, RunFault, Sink, Source};
use mst_policy::Policy;
use std::alloc::AllocError;

/// What is kept from question to question.
#[derive(Drop)]
pub(crate) struct Asking {
    pub standing: Standing,
    /// What was counted of the questions so far.
    pub outcome: Outcome,
    /// How many lines of the script were refused.
    pub loaded: u64,
}

impl Asking {
    /// Before the first question.
    pub fn new(standing: Standing, loaded: u64) -> Asking
        ensures { result ≡ record { standing = standing; outcome = none_counted; loaded = loaded } }
    {
        Asking {
            standing,
            outcome: Outcome {
                refused: 0,
                memory: 0,
                differing: 0,
            },
            loaded,
        }
    }

    /// The same with this policy.
    pub fn with_policy(self, policy: Policy) -> Asking
        ensures { result ≡ judged_by self policy }
    {
        Asking {
            standing: self.standing.with_policy(policy),
            outcome: self.outcome,
            loaded: self.loaded,
        }
    }

    /// Counts a question that was answered in this way.
    fn count(&mut self, verdict: &Verdict)
        requires { IsFew self.old.outcome }
        ensures { self.new ≡ counted_more self.old verdict.now }
    {
        self.outcome.refused += u64::from(verdict.refused);
        self.outcome.memory += u64::from(verdict.lacking);
        self.outcome.differing += u64::from(verdict.differs);
    }

    /// What was counted of the script and of the questions.
    pub fn counted(&self) -> Outcome
        requires questions { IsFew self.now.outcome }
        requires script { self.now.loaded < 2 ^ 60 }
        ensures { result ≡ record self.now.outcome { refused = self.now.loaded + self.now.outcome.refused } }
    {
        Outcome {
            refused: self.loaded + self.outcome.refused,
            memory: self.outcome.memory,
            differing: self.outcome.differing,
        }
    }
}

impl Job for Asking {
    ghost use Rattle.mst_ask.specs.Questions.{Awaits, Ends, Tells};

    type Said = Replied;

    ghost awaits = { Awaits };

    ghost tells = { Tells };

    ghost ends = { Ends };

    ghost lacks = { ⊥ };

    fn take(&mut self, number: u64, line: &[u8]) -> Replied {
        let form = self.standing.form;
        let reply = self.standing.ask(number, line);
        self.count(&reply.verdict());
        Replied {
            form,
            number,
            reply,
        }
    }

    fn end(&mut self, number: u64) -> Result<Replied, AllocError> {
        Ok(Replied {
            form: self.standing.form,
            number,
            reply: Reply::Silent,
        })
    }

    fn goes_on(&self, _number: u64) {
        has_turns();
        self.standing.known();
    }
}

/// Answers all questions, of which nothing is counted yet. Whenever it asks for more bytes, what answers those before has gone out.
pub(crate) fn serve_questions<Q: Source, K: Sink>(
    asking: &mut Asking,
    questions: &mut Q,
    sink: &mut K,
    turns: u64,
) -> Result<(), RunFault>
    requires kept { IsKept asking.old.standing }
    requires begins { asking.old.outcome ≡ none_counted }
    requires source { (Q.told questions.old).failed ≡ false }
    requires sink { (K.told sink.old).failed ≡ false }
    requires turns { turns ≤ 2 ^ 32 }
    ensures ok { OnOk result (Wrote (K.contents sink.old) (K.contents sink.new) (λ text. Answered asking.old.standing (Q.remaining questions.old) text asking.new.outcome)) }
    ensures few { OnOk result (IsFew asking.new.outcome) }
    ensures loaded { OnOk result (asking.new.loaded ≡ asking.old.loaded) }
    ensures fault { OnErr result (WroteFront (K.contents sink.old) (K.contents sink.new) (PrintsAnswers asking.old.standing (Q.remaining questions.old))) }
    ensures read { result ≡ Err RunFault.Read → Wrote (K.contents sink.old) (K.contents sink.new) (AnsweredEnded asking.old.standing (Q.remaining questions.old) (Q.remaining questions.new)) }
    ensures memory { result ≢ Err RunFault.Memory }
    ensures turned { Turned turns (turning (seen_by Q.told Q.remaining Q.lent) questions.old questions.new ∷ []) (seen_by K.told K.contents K.lent sink.old) (seen_by K.told K.contents K.lent sink.new) (stopped_by result) }
    ensures heard { HearsWhere Q.hears (HasTold (AnsweredEnded asking.old.standing (Q.remaining questions.old)) Q.remaining (seen_by K.told K.contents K.lent sink.old)) questions.old questions.new }
{
    match drive(asking, questions, sink, turns) {
        Err(fault) => Err(fault),
        Ok(()) => Ok(()),
    }
}
