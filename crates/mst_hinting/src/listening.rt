use crate::telling::Telling;
use mst_io::{Failed, RunFault, Sink, Source};

/// A source that listens: it gives what another one gives, of which it tells to a sink what would be right in the lines of a
/// script, a line for each that isn't read and for each that is refused.
///
/// Each time before it asks for more it writes the hints of the lines that are complete in what came before. So they go out
/// once the lines are served that they are of. Where no hints are wanted it only asks.
///
/// The script's edits are made, from the empty network on. Of one that is [run](Script::Run) the marks are noted, too, so that a
/// query for the changes without one is refused; in one that is only loaded queries and marks say nothing.
///
/// What stops the hints, want of memory or a sink that fails, doesn't disturb whoever reads: [`close`](Hinting::close) tells it,
/// and nothing more is told till then.
#[derive(Drop)]
pub struct Hinting<'a, S, E> {
    source: &'a mut S,
    errors: &'a mut E,
    telling: &'a mut Telling,
}

impl<'a, S: Source, E: Sink> Hinting<'a, S, E> {
    ghost use Rattle.std.specs.Prelude.{◌≡◌, Bool};
    ghost use Rattle.mst_io.specs.Devices.{seen_by};
    ghost use Rattle.mst_hints.specs.declared.whose.Script.{Script};
    ghost use Rattle.mst_hinting.specs.Listening.{Begins, Closes, IsFirst};

    /// Listens to the source, of which nothing is told yet: the hints go to `errors`, by what is told of the script's lines.
    pub fn new(source: &'a mut S, errors: &'a mut E, telling: &'a mut Telling) -> Hinting<'a, S, E>
        ensures source { result.source.ghost_name ≡ source.entry.ghost_name }
        ensures errors { result.errors.ghost_name ≡ errors.entry.ghost_name }
        ensures source_now { result.source.now ≡ source.old }
        ensures errors_now { result.errors.now ≡ errors.old }
        ensures begins { (wanted : Bool) (of : Script) → IsFirst wanted of telling.old → Begins (seen_by S.told S.remaining S.lent) (seen_by E.told E.contents E.lent) wanted of source.old errors.old result }
    {
        Hinting {
            source,
            errors,
            telling,
        }
    }

    /// Writes the hints that are still to be written, with that of the last line where the source was read to its end, and
    /// tells what stopped them, if something did.
    ///
    /// [`RunFault::Memory`]: memory was wanted and refused for them, or 2^60 bytes came. [`RunFault::Write`]: the sink failed, or
    /// took nothing of a part that had a byte, or had failed before, and wasn't called. Of the hints a front has gone out then.
    /// It never answers [`RunFault::Read`].
    pub fn close(&mut self) -> Result<(), RunFault>
        ensures closes { Closes (seen_by S.told S.remaining S.lent) (seen_by E.told E.contents E.lent) self.old self.new.errors.now result }
        ensures source { self.new.source ≡ self.old.source }
        ensures errors { self.new.errors.ghost_name ≡ self.old.errors.ghost_name }
        ensures lent_errors { E.lent self.new.errors.now ≡ E.lent self.old.errors.now }
    {
        self.telling.finish(self.errors)
    }
}

impl<S: Source, E: Sink> Source for Hinting<'_, S, E> {
    ghost use Rattle.std.specs.Prelude.{Some};
    ghost use Rattle.mst_io.specs.Devices.{seen_by};
    ghost use Rattle.mst_hinting.specs.Listening.{Listens};

    ghost remaining = { λ h. S.remaining h.source.now };

    ghost told = { λ h. S.told h.source.now };

    ghost lent = { λ h. Some h.source.ghost_name };

    ghost hears = { Listens (seen_by S.told S.remaining S.lent) (seen_by E.told E.contents E.lent) };

    fn failed(&self) -> bool {
        self.source.failed()
    }

    fn fill<K: Sink>(&mut self, buffer: &mut [u8], sink: &K) -> Result<usize, Failed> {
        self.telling.write(self.errors);
        let answer = self.source.fill(buffer, sink);
        self.telling.hear(answer, buffer);
        answer
    }
}
