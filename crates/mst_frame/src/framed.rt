ghost use Rattle.std.specs.Prelude.{◌≡◌, false, []};
ghost use Rattle.std.specs.Io.Buffered.{writer_buffer, writer_inner};
ghost use Rattle.mst_io.specs.Devices.{Hears};
ghost use Rattle.mst_drive.specs.Words.{Ended, inputs};
ghost use Rattle.mst_frame.specs.Framed.{AreTurned, EndsThrough, is_broken};

use mst_drive::Word;
use mst_io::{Outcome, RunFault, Source, TURNS, ToWrite};
use std::io::{BufWriter, Write};

/// Serves a word into a writer.
fn serve_to<W: Word, F: Source, S: Source, T: Source, O: Write>(
    word: &W,
    first: &mut F,
    second: &mut S,
    third: &mut T,
    writer: &mut O,
) -> Result<Outcome, RunFault>
    requires first { (F.told first.old).failed ≡ false }
    requires second { (S.told second.old).failed ≡ false }
    requires third { (T.told third.old).failed ≡ false }
    ensures ended { Ended (W.telling word.now) (inputs (F.remaining first.old) (S.remaining second.old) (T.remaining third.old)) (inputs (F.remaining first.new) (S.remaining second.new) (T.remaining third.new)) (O.contents writer.old) (O.contents writer.new) result }
    ensures turned { AreTurned (W.count word.now) (F.told first.old) (F.told first.new) (S.told second.old) (S.told second.new) (T.told third.old) (T.told third.new) result }
    ensures heard_first { Hears F.hears first.old first.new }
    ensures heard_second { Hears S.hears second.old second.new }
    ensures heard_third { Hears T.hears third.old third.new }
{
    let mut sink = ToWrite::new(writer);
    word.serve(first, second, third, &mut sink, TURNS)
}

/// Serves a word into an empty buffer, and writes what is left there at the end and after any fault but the writer's. After a fault of
/// the writer it isn't called again.
pub fn serve_into<W: Word, F: Source, S: Source, T: Source, O: Write + Drop>(
    word: &W,
    first: &mut F,
    second: &mut S,
    third: &mut T,
    buffered: &mut BufWriter<O>,
) -> Result<Outcome, RunFault>
    requires first { (F.told first.old).failed ≡ false }
    requires second { (S.told second.old).failed ≡ false }
    requires third { (T.told third.old).failed ≡ false }
    requires empty { writer_buffer buffered.old ≡ [] }
    ensures ends { EndsThrough (W.telling word.now) (inputs (F.remaining first.old) (S.remaining second.old) (T.remaining third.old)) (inputs (F.remaining first.new) (S.remaining second.new) (T.remaining third.new)) (O.contents (writer_inner buffered.old)) (O.contents (writer_inner buffered.new)) result }
    ensures turned { AreTurned (W.count word.now) (F.told first.old) (F.told first.new) (S.told second.old) (S.told second.new) (T.told third.old) (T.told third.new) result }
    ensures heard_first { Hears F.hears first.old first.new }
    ensures heard_second { Hears S.hears second.old second.new }
    ensures heard_third { Hears T.hears third.old third.new }
{
    let ended = serve_to(word, first, second, third, buffered);
    if is_write_fault(&ended) {
        return ended;
    }
    match buffered.flush() {
        Ok(()) => ended,
        Err(_) => Err(RunFault::Write),
    }
}

/// Whether the writer stopped it.
pub fn is_write_fault(ended: &Result<Outcome, RunFault>) -> bool
    ensures { result ≡ is_broken ended.now }
{
    match ended {
        Ok(_) | Err(RunFault::Read | RunFault::Memory) => false,
        Err(RunFault::Write) => true,
    }
}
