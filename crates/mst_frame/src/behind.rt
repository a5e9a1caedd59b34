ghost use Rattle.std.specs.Prelude.{◌≡◌, false, IfNone, IfSome};
ghost use Rattle.mst_io.specs.Devices.{seen_by};
ghost use Rattle.mst_drive.specs.Words.{inputs};
ghost use Rattle.mst_frame.specs.Framed.{AreTurned};
ghost use Rattle.mst_frame.specs.Hinted.{Fit, IsKeptTold, IsToldBehind};
ghost use Rattle.mst_frame.specs.Served.{EndsHinted, outputs};

use crate::hinting::{Scripts, are_told, serve_hinting};
use mst_drive::Word;
use mst_io::{FromRead, Outcome, RunFault, Sink, Source, ToWrite, put};
use std::alloc::Global;
use std::io::{BufWriter, Read, Write};

/// How a word ended, what came of its hints, and the writer that it printed to.
#[derive(Drop)]
pub struct Ran<O: Drop> {
    pub ended: Result<Outcome, RunFault>,
    /// `Err`: this stopped the hints before their end. Where none are asked for, they come to it.
    pub hints: Result<(), RunFault>,
    pub writer: O,
}

/// Serves a word on what three readers give, and writes what it prints in large parts. The hints of the first, where they are asked for,
/// are told as it goes, and those of the second and of the third behind them at the end. `None`: there was no memory for the buffer, and
/// no device was called.
pub fn serve_readers<
    W: Word,
    F: Read + Drop,
    S: Read + Drop,
    T: Read + Drop,
    O: Write + Drop,
    K: Sink,
>(
    alloc: Global,
    word: &W,
    scripts: Scripts,
    hints: bool,
    mut first: F,
    mut second: S,
    mut third: T,
    writer: O,
    errors: &mut K,
) -> Option<Ran<O>>
    requires fit { Fit (W.count word.now) scripts }
    ensures ran { IfSome result (λ ran. EndsHinted (W.telling word.now) (W.count word.now) scripts hints (inputs (F.remaining first) (S.remaining second) (T.remaining third)) (outputs O.contents (seen_by K.told K.contents K.lent) writer errors.old) (outputs O.contents (seen_by K.told K.contents K.lent) ran.writer errors.new) ran.ended ran.hints) }
    ensures starved { IfNone result (errors.new ≡ errors.old) }
{
    serve_buffered(
        alloc,
        word,
        scripts,
        hints,
        &mut FromRead::new(&mut first),
        &mut FromRead::new(&mut second),
        &mut FromRead::new(&mut third),
        writer,
        errors,
    )
}

/// The same on what three sources give.
fn serve_buffered<W: Word, F: Source, S: Source, T: Source, O: Write + Drop, K: Sink>(
    alloc: Global,
    word: &W,
    scripts: Scripts,
    hints: bool,
    first: &mut F,
    second: &mut S,
    third: &mut T,
    writer: O,
    errors: &mut K,
) -> Option<Ran<O>>
    requires fit { Fit (W.count word.now) scripts }
    requires first { (F.told first.old).failed ≡ false }
    requires second { (S.told second.old).failed ≡ false }
    requires third { (T.told third.old).failed ≡ false }
    ensures ran { IfSome result (λ ran. EndsHinted (W.telling word.now) (W.count word.now) scripts hints (inputs (F.remaining first.old) (S.remaining second.old) (T.remaining third.old)) (outputs O.contents (seen_by K.told K.contents K.lent) writer errors.old) (outputs O.contents (seen_by K.told K.contents K.lent) ran.writer errors.new) ran.ended ran.hints) }
    ensures turned { IfSome result (λ ran. AreTurned (W.count word.now) (F.told first.old) (F.told first.new) (S.told second.old) (S.told second.new) (T.told third.old) (T.told third.new) ran.ended) }
    ensures starved { IfNone result (errors.new ≡ errors.old) }
{
    match BufWriter::new(alloc, writer) {
        Err(_) => None,
        Ok(mut buffered) => {
            let mut kept = Vec::new(alloc);
            let mut kept_last = Vec::new(alloc);
            let told = serve_hinting(
                alloc,
                word,
                hints,
                scripts,
                first,
                second,
                third,
                &mut buffered,
                errors,
                &mut ToWrite::new(&mut kept),
                &mut ToWrite::new(&mut kept_last),
            );
            let some = are_told(hints, scripts.second);
            let of_second = told.behind.of_second;
            let so_far = tell_behind(errors, told.of_first, some, kept.as_slice(), of_second);
            let more = are_told(hints, scripts.third);
            let of_third = told.behind.of_third;
            let hinted = tell_behind(errors, so_far, more, kept_last.as_slice(), of_third);
            let (writer, _) = buffered.into_parts();
            Some(Ran {
                ended: told.behind.ended,
                hints: hinted,
                writer,
            })
        }
    }
}

/// Tells the hints that were kept of a further input, where there are some and nothing has stopped those before them.
fn tell_behind<K: Sink>(
    errors: &mut K,
    before: Result<(), RunFault>,
    some: bool,
    kept: &[u8],
    end: Result<(), RunFault>,
) -> Result<(), RunFault>
    ensures { IsToldBehind before some kept.now end (seen_by K.told K.contents K.lent errors.old) (seen_by K.told K.contents K.lent errors.new) result }
{
    match before {
        Err(fault) => Err(fault),
        Ok(()) => {
            if some {
                tell_kept(errors, kept, end)
            } else {
                Ok(())
            }
        }
    }
}

/// Tells the hints that were kept, of which something kept no more, if there is an `Err`: that was want of memory.
fn tell_kept<K: Sink>(
    errors: &mut K,
    kept: &[u8],
    end: Result<(), RunFault>,
) -> Result<(), RunFault>
    ensures { IsKeptTold kept.now end (seen_by K.told K.contents K.lent errors.old) (seen_by K.told K.contents K.lent errors.new) result }
{
    if errors.failed() {
        return Err(RunFault::Write);
    }
    match put(errors, kept) {
        Err(_) => Err(RunFault::Write),
        Ok(()) => match end {
            Ok(()) => Ok(()),
            Err(_) => Err(RunFault::Memory),
        },
    }
}
