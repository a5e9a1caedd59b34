ghost use Rattle.std.specs.Prelude.{◌≡◌, ◌≢◌, ◌≤◌, ◌^◌, ◌∷◌, [], false, Err, OnOk, OnErr};
ghost use Rattle.mst_report.specs.Planned.{planned_state};
ghost use Rattle.mst_drive.specs.Turned.{Turned, turning};
ghost use Rattle.mst_drive.specs.Words.{HasTold, Wrote, WroteFront};
ghost use Rattle.mst_io.specs.Devices.{HearsWhere, seen_by, stopped_by};
ghost use Rattle.mst_engine.specs.Engine.{IsReady, begun, tally_of, outcome_of};
ghost use Rattle.mst_engine.specs.Served.{IsFew, Served, ServedEnded, Serves};

use crate::engine::{Engine, Input, Reply, print};
use crate::laws::has_steps;
use mst_drive::{Job, Says, drive};
use mst_io::{RunFault, Sink, Source, WriteFailed};
use std::alloc::AllocError;

/// An engine, and from what the lines come that it serves.
#[derive(Drop)]
pub struct Serving {
    pub input: Input,
    pub engine: Engine,
}

/// What the line of this number of an input is answered by.
#[derive(Drop)]
pub struct Replied {
    pub input: Input,
    pub number: u64,
    pub reply: Reply,
}

impl Says for Replied {
    ghost use Rattle.mst_engine.specs.Serving.{replied_text};

    ghost text = { replied_text };

    fn put<K: Sink>(&self, sink: &mut K) -> Result<(), WriteFailed> {
        print(sink, self.input, self.number, &self.reply)
    }
}

impl Job for Serving {
    ghost use Rattle.mst_engine.specs.Serving.{Awaits, Ends, Tells};

    type Said = Replied;

    ghost awaits = { Awaits };

    ghost tells = { Tells };

    ghost ends = { Ends };

    ghost lacks = { ⊥ };

    fn take(&mut self, number: u64, line: &[u8]) -> Replied {
        let input = self.input;
        let reply = self.engine.reply(input, line);
        Replied {
            input,
            number,
            reply,
        }
    }

    fn end(&mut self, number: u64) -> Result<Replied, AllocError> {
        Ok(Replied {
            input: self.input,
            number,
            reply: Reply::Silent,
        })
    }

    fn goes_on(&self, _number: u64) {
        has_steps();
        self.engine.planner.known();
    }
}

/// Serves all lines of an input, of which nothing is counted yet. Whenever it asks for more bytes, what the lines before print
/// has gone out.
pub fn serve_input<S: Source, K: Sink>(
    serving: &mut Serving,
    source: &mut S,
    sink: &mut K,
    turns: u64,
) -> Result<(), RunFault>
    requires ready { IsReady serving.old.input serving.old.engine }
    requires begins { tally_of serving.old.engine ≡ begun (planned_state serving.old.engine.planner) }
    requires source { (S.told source.old).failed ≡ false }
    requires sink { (K.told sink.old).failed ≡ false }
    requires turns { turns ≤ 2 ^ 32 }
    ensures ok { OnOk result (Wrote (K.contents sink.old) (K.contents sink.new) (λ text. Served serving.old.input (planned_state serving.old.engine.planner) (S.remaining source.old) text (tally_of serving.new.engine))) }
    ensures few { OnOk result (IsFew (outcome_of (tally_of serving.new.engine))) }
    ensures fault { OnErr result (WroteFront (K.contents sink.old) (K.contents sink.new) (Serves serving.old.input (planned_state serving.old.engine.planner) (S.remaining source.old))) }
    ensures read { result ≡ Err RunFault.Read → Wrote (K.contents sink.old) (K.contents sink.new) (ServedEnded serving.old.input (planned_state serving.old.engine.planner) (S.remaining source.old) (S.remaining source.new)) }
    ensures memory { result ≢ Err RunFault.Memory }
    ensures turned { Turned turns (turning (seen_by S.told S.remaining S.lent) source.old source.new ∷ []) (seen_by K.told K.contents K.lent sink.old) (seen_by K.told K.contents K.lent sink.new) (stopped_by result) }
    ensures heard { HearsWhere S.hears (HasTold (ServedEnded serving.old.input (planned_state serving.old.engine.planner) (S.remaining source.old)) S.remaining (seen_by K.told K.contents K.lent sink.old)) source.old source.new }
{
    match drive(serving, source, sink, turns) {
        Err(fault) => Err(fault),
        Ok(()) => Ok(()),
    }
}
