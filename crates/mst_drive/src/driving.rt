ghost use Rattle.std.specs.Prelude.{◌≡◌, ◌+◌, ◌<◌, ◌≤◌, ◌^◌, ◌∷◌, [], false, Err, OnOk, OnErr};
ghost use Rattle.mst_io.specs.Devices.{HearsWhere, IsCalled, StopsAtZero, seen_by, stopped_by};
ghost use Rattle.mst_drive.specs.Driving.{Driven, DrivenEnded, DrivenFront, DrivenLines, DrivenOn, Halts};
ghost use Rattle.mst_drive.specs.Turned.{Turned, turning};

use crate::feed::{end_input, feed, finish};
use crate::job::Job;
use mst_io::{HeldLine, RunFault, Sink, Source};

/// Gives a job all lines of the input that a source gives in so many turns, and its end, and writes what it says. A turn is one call of
/// the source, the one that finds the end included. Whenever it asks for more bytes, what the lines before print has gone out.
///
/// [`RunFault::Read`] is answered just where the sink works and the source has failed, or all turns were used and none found the end;
/// [`RunFault::Write`] just where the sink has failed, or took nothing of a part that had a byte; [`RunFault::Memory`] where the job
/// wanted memory at the end, if it may.
pub fn drive<J: Job, S: Source, K: Sink>(
    job: &mut J,
    source: &mut S,
    sink: &mut K,
    turns: u64,
) -> Result<(), RunFault>
    requires awaits { J.awaits job.old 1 }
    requires source { (S.told source.old).failed ≡ false }
    requires sink { (K.told sink.old).failed ≡ false }
    requires turns { turns ≤ 2 ^ 32 }
    ensures ok { OnOk result (Driven J.awaits J.tells J.ends job.old job.new (S.remaining source.old) (K.contents sink.old) (K.contents sink.new)) }
    ensures fault { OnErr result (DrivenFront J.tells J.ends job.old (S.remaining source.old) (K.contents sink.old) (K.contents sink.new)) }
    ensures read { result ≡ Err RunFault.Read → DrivenEnded J.tells job.old (S.remaining source.old) (S.remaining source.new) (K.contents sink.old) (K.contents sink.new) }
    ensures memory { result ≡ Err RunFault.Memory → J.lacks × DrivenLines J.tells job.old (S.remaining source.old) (K.contents sink.old) (K.contents sink.new) }
    ensures turned { Turned turns (turning (seen_by S.told S.remaining S.lent) source.old source.new ∷ []) (seen_by K.told K.contents K.lent sink.old) (seen_by K.told K.contents K.lent sink.new) (stopped_by result) }
    ensures heard { HearsWhere S.hears (DrivenOn J.tells job.old (S.remaining source.old) S.remaining (seen_by K.told K.contents K.lent sink.old)) source.old source.new }
{
    drive_lines(job, source, sink, turns)
}

/// The same, with how the devices stand by what has stopped it.
fn drive_lines<J: Job, S: Source, K: Sink>(
    job: &mut J,
    source: &mut S,
    sink: &mut K,
    turns: u64,
) -> Result<(), RunFault>
    requires awaits { J.awaits job.old 1 }
    requires source { (S.told source.old).failed ≡ false }
    requires sink { (K.told sink.old).failed ≡ false }
    requires turns { turns ≤ 2 ^ 32 }
    ensures ok { OnOk result (Driven J.awaits J.tells J.ends job.old job.new (S.remaining source.old) (K.contents sink.old) (K.contents sink.new)) }
    ensures fault { OnErr result (DrivenFront J.tells J.ends job.old (S.remaining source.old) (K.contents sink.old) (K.contents sink.new)) }
    ensures read { result ≡ Err RunFault.Read → DrivenEnded J.tells job.old (S.remaining source.old) (S.remaining source.new) (K.contents sink.old) (K.contents sink.new) }
    ensures memory { result ≡ Err RunFault.Memory → J.lacks × DrivenLines J.tells job.old (S.remaining source.old) (K.contents sink.old) (K.contents sink.new) }
    ensures halts { Halts turns (S.told source.old) (S.told source.new) (K.told sink.old) (K.told sink.new) (stopped_by result) }
    ensures none { turns ≡ 0 → result ≡ Err RunFault.Read }
    ensures source_calls { IsCalled turns (S.told source.old) (S.told source.new) }
    ensures sink_calls { StopsAtZero (K.told sink.old) (K.told sink.new) }
    ensures lent_source { S.lent source.new ≡ S.lent source.old }
    ensures lent_sink { K.lent sink.new ≡ K.lent sink.old }
    ensures heard { HearsWhere S.hears (DrivenOn J.tells job.old (S.remaining source.old) S.remaining (seen_by K.told K.contents K.lent sink.old)) source.old source.new }
{
    let mut held = HeldLine::new();
    let mut number = 1;
    let mut chunk = [0; 4096];
    'turns: for turn in 0..turns {
        job.goes_on(number);
        match sink.flush() {
            Err(_) => return Err(RunFault::Write),
            Ok(()) => {}
        }
        let count = match source.fill(&mut chunk, sink) {
            Err(_) => return Err(RunFault::Read),
            Ok(count) => count,
        };
        if count == 0 {
            match finish(job, &mut number, &mut held, sink) {
                Err(_) => return Err(RunFault::Write),
                Ok(()) => {}
            }
            job.goes_on(number);
            match end_input(job, number, sink) {
                Err(fault) => return Err(fault),
                Ok(()) => return Ok(()),
            }
        }
        match feed(job, &mut number, &mut held, sink, &chunk[..count]) {
            Err(_) => return Err(RunFault::Write),
            Ok(()) => {}
        }
    }
    job.goes_on(number);
    Err(RunFault::Read)
}
