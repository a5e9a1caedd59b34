ghost use Rattle.std.specs.Prelude.{◌≡◌, ◌≤◌, ◌^◌, ◌∷◌, ◌+◌, [], ℕ, List, false, IfOk, OnOk};
ghost use Rattle.std.specs.Io.KnownBytes.{Appends};
ghost use Rattle.mst_drive.specs.Turned.{Turned, turning};
ghost use Rattle.mst_drive.specs.Words.{HasTold, Unwritten};
ghost use Rattle.mst_io.specs.Devices.{HearsWhere, seen_by, stopped_by};
ghost use Rattle.mst_inputs.specs.Lines.{AreTaken};

use mst_drive::{Job, Said, drive};
use mst_io::{RunFault, Sink, Source};
use std::alloc::{AllocError, Global};

/// What takes the lines of an input, one after another, each with its number.
pub(crate) trait TakesLines {
    /// What it is where these lines follow, numbered from this one on.
    ghost with_lines: { Self → ℕ → List (List ℕ) → Self };

    /// Takes the next line, which comes without its end. `AllocError`: memory was wanted and refused, and it takes no more.
    fn take_line(&mut self, alloc: Global, number: u64, line: &[u8]) -> Result<(), AllocError>
        ensures { OnOk result ((others : List (List ℕ)) → with_lines self.new (number + 1) others ≡ with_lines self.old number (line.now ∷ others)) };
}

/// The lines of an input that were taken so far. Where memory was wanted for one, no more are, and the end says so.
#[derive(Drop)]
pub(crate) struct Reading<L: Drop> {
    alloc: Global,
    lines: L,
    /// How many lines have come.
    count: u64,
    is_lost: bool,
}

impl<L: TakesLines + Drop> Job for Reading<L> {
    ghost use Rattle.std.specs.Prelude.{⊤};
    ghost use Rattle.mst_inputs.specs.Lines.{AwaitsCounted, EndsReading, TakesOn};

    type Said = Said;

    ghost awaits = { AwaitsCounted };

    ghost tells = { TakesOn L.with_lines };

    ghost ends = { EndsReading };

    ghost lacks = { ⊤ };

    fn take(&mut self, number: u64, line: &[u8]) -> Said {
        self.count += 1;
        if !self.is_lost {
            self.is_lost = self.lines.take_line(self.alloc, number, line).is_err();
        }
        Said::Nothing
    }

    fn end(&mut self, _number: u64) -> Result<Said, AllocError> {
        if self.is_lost {
            return Err(AllocError);
        }
        Ok(Said::Nothing)
    }

    fn goes_on(&self, _number: u64) {}
}

/// Takes the lines that a source gives in so many turns, from the first on, and answers with what has taken them. A turn is one call of
/// the source, the one that finds the end included. Nothing is written, but what the sink holds back is sent on before each call.
///
/// [`RunFault::Read`] is answered just where the sink works and the source has failed, or all turns were used and none found the end,
/// [`RunFault::Write`] just where the sink has failed, and [`RunFault::Memory`] where memory was wanted for a line, and refused.
pub(crate) fn read_lines<S: Source, L: TakesLines + Drop, K: Sink>(
    alloc: Global,
    lines: L,
    source: &mut S,
    sink: &mut K,
    turns: u64,
) -> Result<L, RunFault>
    requires source { (S.told source.old).failed ≡ false }
    requires sink { (K.told sink.old).failed ≡ false }
    requires turns { turns ≤ 2 ^ 32 }
    ensures ok { IfOk result (AreTaken L.with_lines lines (S.remaining source.old)) }
    ensures unwritten { Appends (K.contents sink.old) (K.contents sink.new) [] }
    ensures turned { Turned turns (turning (seen_by S.told S.remaining S.lent) source.old source.new ∷ []) (seen_by K.told K.contents K.lent sink.old) (seen_by K.told K.contents K.lent sink.new) (stopped_by result) }
    ensures heard { HearsWhere S.hears (HasTold Unwritten S.remaining (seen_by K.told K.contents K.lent sink.old)) source.old source.new }
{
    let mut reading = Reading {
        alloc,
        lines,
        count: 0,
        is_lost: false,
    };
    match drive(&mut reading, source, sink, turns) {
        Err(fault) => Err(fault),
        Ok(()) => Ok(lines_of(reading)),
    }
}

/// What has taken the lines.
fn lines_of<L: Drop>(reading: Reading<L>) -> L
    ensures { result ≡ reading.lines }
{
    let Reading {
        alloc: _,
        lines,
        count: _,
        is_lost: _,
    } = reading;
    lines
}
