ghost use Rattle.std.specs.Prelude.{◌≡◌, ◌≤◌, ◌<◌, ◌^◌, ◌∷◌, [], false, length, IfOk};
ghost use Rattle.std.specs.Io.KnownBytes.{Appends};
ghost use Rattle.mst_drive.specs.Turned.{Turned, turning};
ghost use Rattle.mst_drive.specs.Words.{HasTold, Unwritten};
ghost use Rattle.mst_io.specs.Devices.{HearsWhere, seen_by, stopped_by};
ghost use Rattle.mst_change.specs.Steps.{all_lines};
ghost use Rattle.mst_inputs.specs.Lines.{AreLines, AreSteps};

use crate::lines::{TakesLines, read_lines};
use mst_change::Change;
use mst_io::{RunFault, Sink, Source};
use mst_policy::Policy;
use std::alloc::{AllocError, Global};

impl TakesLines for Policy {
    ghost use Rattle.mst_inputs.specs.Lines.{policy_with};

    ghost with_lines = { policy_with };

    fn take_line(&mut self, alloc: Global, number: u64, line: &[u8]) -> Result<(), AllocError> {
        self.read(alloc, number, line)
    }
}

impl TakesLines for Change {
    ghost use Rattle.mst_inputs.specs.Lines.{change_with};

    ghost with_lines = { change_with };

    fn take_line(&mut self, alloc: Global, number: u64, line: &[u8]) -> Result<(), AllocError> {
        self.read(alloc, number, line)
    }
}

/// Reads the policy that a source gives in so many turns. A turn is one call of the source, the one that finds the end included. Nothing
/// is written, but what the sink holds back is sent on before each call.
///
/// [`RunFault::Read`] is answered just where the sink works and the source has failed, or all turns were used and none found the end,
/// [`RunFault::Write`] just where the sink has failed, and [`RunFault::Memory`] where memory was wanted for a line, and refused.
pub fn read_policy<S: Source, K: Sink>(
    alloc: Global,
    source: &mut S,
    sink: &mut K,
    turns: u64,
) -> Result<Policy, RunFault>
    requires source { (S.told source.old).failed ≡ false }
    requires sink { (K.told sink.old).failed ≡ false }
    requires turns { turns ≤ 2 ^ 32 }
    ensures ok { IfOk result (AreLines (S.remaining source.old)) }
    ensures few { IfOk result (λ policy. length policy < 2 ^ 60) }
    ensures unwritten { Appends (K.contents sink.old) (K.contents sink.new) [] }
    ensures turned { Turned turns (turning (seen_by S.told S.remaining S.lent) source.old source.new ∷ []) (seen_by K.told K.contents K.lent sink.old) (seen_by K.told K.contents K.lent sink.new) (stopped_by result) }
    ensures heard { HearsWhere S.hears (HasTold Unwritten S.remaining (seen_by K.told K.contents K.lent sink.old)) source.old source.new }
{
    read_lines(alloc, Policy::new(alloc), source, sink, turns)
}

/// Reads the change that a source gives in so many turns, as [`read_policy`] does a policy.
pub fn read_change<S: Source, K: Sink>(
    alloc: Global,
    source: &mut S,
    sink: &mut K,
    turns: u64,
) -> Result<Change, RunFault>
    requires source { (S.told source.old).failed ≡ false }
    requires sink { (K.told sink.old).failed ≡ false }
    requires turns { turns ≤ 2 ^ 32 }
    ensures ok { IfOk result (λ change. AreSteps (S.remaining source.old) change.ended) }
    ensures few { IfOk result (λ change. length (all_lines change.ended) < 2 ^ 60) }
    ensures unwritten { Appends (K.contents sink.old) (K.contents sink.new) [] }
    ensures turned { Turned turns (turning (seen_by S.told S.remaining S.lent) source.old source.new ∷ []) (seen_by K.told K.contents K.lent sink.old) (seen_by K.told K.contents K.lent sink.new) (stopped_by result) }
    ensures heard { HearsWhere S.hears (HasTold Unwritten S.remaining (seen_by K.told K.contents K.lent sink.old)) source.old source.new }
{
    match read_lines(alloc, Change::new(alloc), source, sink, turns) {
        Err(fault) => Err(fault),
        Ok(mut change) => match change.end(alloc) {
            Err(_) => Err(RunFault::Memory),
            Ok(()) => Ok(change),
        },
    }
}
