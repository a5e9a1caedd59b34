ghost use Rattle.std.specs.Prelude.{◌≡◌, ◌≤◌, ◌^◌, ℕ, false, Err, IsOk};
ghost use Rattle.mst_io.specs.Devices.{HearsWhere, seen_by};
ghost use Rattle.mst_drive.specs.Words.{AreRead, Ended, HasTold, IsUnread, Telling, inputs};

use mst_io::{Outcome, RunFault, Sink, Source};

/// A word of the program, with what was said behind it: what it tells of its inputs, of which it has one, two or three.
pub trait Word {
    /// How many inputs it has.
    ghost count: { Self → ℕ };

    /// What it tells of them.
    ghost telling: { Self → Telling };

    /// Tells what it does of what the sources give in so many turns each. A turn is one call of a source, the one that finds the end
    /// included. A source of an input that it doesn't have isn't called. The sink holds nothing back as it begins, and whenever a
    /// source is called: what is told till then has gone out.
    fn serve<F: Source, S: Source, T: Source, K: Sink>(
        &self,
        first: &mut F,
        second: &mut S,
        third: &mut T,
        sink: &mut K,
        turns: u64,
    ) -> Result<Outcome, RunFault>
        requires first { (F.told first.old).failed ≡ false }
        requires second { (S.told second.old).failed ≡ false }
        requires third { (T.told third.old).failed ≡ false }
        requires sink { (K.told sink.old).failed ≡ false }
        requires sent { (K.told sink.old).unsent ≡ false }
        requires turns { turns ≤ 2 ^ 32 }
        ensures ended { Ended (telling self.now) (inputs (F.remaining first.old) (S.remaining second.old) (T.remaining third.old)) (inputs (F.remaining first.new) (S.remaining second.new) (T.remaining third.new)) (K.contents sink.old) (K.contents sink.new) result }
        ensures read { IsOk result → AreRead (count self.now) (F.told first.old) (F.told first.new) (S.told second.old) (S.told second.new) (T.told third.old) (T.told third.new) }
        ensures cut { result ≡ Err RunFault.Read → IsUnread (count self.now) turns (F.told first.old) (F.told first.new) (S.told second.old) (S.told second.new) (T.told third.old) (T.told third.new) }
        ensures lent { K.lent sink.new ≡ K.lent sink.old }
        ensures heard_first { HearsWhere F.hears (HasTold ((telling self.now).told_first (inputs (F.remaining first.old) (S.remaining second.old) (T.remaining third.old))) F.remaining (seen_by K.told K.contents K.lent sink.old)) first.old first.new }
        ensures heard_second { HearsWhere S.hears (HasTold ((telling self.now).told_second (inputs (F.remaining first.old) (S.remaining second.old) (T.remaining third.old))) S.remaining (seen_by K.told K.contents K.lent sink.old)) second.old second.new }
        ensures heard_third { HearsWhere T.hears (HasTold ((telling self.now).told_third (inputs (F.remaining first.old) (S.remaining second.old) (T.remaining third.old))) T.remaining (seen_by K.told K.contents K.lent sink.old)) third.old third.new };
}
