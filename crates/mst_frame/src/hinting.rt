ghost use Rattle.std.specs.Prelude.{◌≡◌, false, []};
ghost use Rattle.std.specs.Io.Buffered.{writer_buffer, writer_inner};
ghost use Rattle.mst_io.specs.Devices.{Hears, seen_by};
ghost use Rattle.mst_hinting.specs.Listening.{Closed, IsFirst};
ghost use Rattle.mst_drive.specs.Words.{inputs};
ghost use Rattle.mst_frame.specs.Framed.{AreTurned, EndsThrough};
ghost use Rattle.mst_frame.specs.Hinted.{are_told as asked_and_there, script_of as this_script};

use crate::framed::serve_into;
use mst_drive::Word;
use mst_hinting::{Hinting, Script, Telling};
use mst_io::{Outcome, RunFault, Sink, Source};
use std::alloc::Global;
use std::io::{BufWriter, Write};

/// What the lines of each input of a word have hints of.
#[derive(Clone, Copy)]
pub struct Scripts {
    pub first: Script,
    /// `None`: there are none of its lines.
    pub second: Option<Script>,
    pub third: Option<Script>,
}

/// Whether hints are told of an input: they are asked for, and it has some.
pub(crate) fn are_told(hints: bool, of: Option<Script>) -> bool
    ensures { result ≡ asked_and_there hints of }
{
    hints && of.is_some()
}

/// What is told of the hints of an input, where they are asked for and it has some.
fn telling_of(alloc: Global, hints: bool, of: Option<Script>) -> Telling
    ensures { IsFirst (asked_and_there hints of) (this_script of) result }
{
    match of {
        Some(script) => Telling::new(alloc, hints, script),
        None => Telling::new(alloc, false, Script::Run),
    }
}

/// Serves a word into an empty buffer, with the hints of the third input, where they are asked for, as it goes. Answers with how each
/// ended.
fn serve_third<W: Word, F: Source, S: Source, T: Source, O: Write + Drop, A: Sink>(
    alloc: Global,
    word: &W,
    hints: bool,
    of: Option<Script>,
    first: &mut F,
    second: &mut S,
    third: &mut T,
    buffered: &mut BufWriter<O>,
    aside: &mut A,
) -> (Result<Outcome, RunFault>, Result<(), RunFault>)
    requires first { (F.told first.old).failed ≡ false }
    requires second { (S.told second.old).failed ≡ false }
    requires third { (T.told third.old).failed ≡ false }
    requires empty { writer_buffer buffered.old ≡ [] }
    ensures ends { EndsThrough (W.telling word.now) (inputs (F.remaining first.old) (S.remaining second.old) (T.remaining third.old)) (inputs (F.remaining first.new) (S.remaining second.new) (T.remaining third.new)) (O.contents (writer_inner buffered.old)) (O.contents (writer_inner buffered.new)) result.0 }
    ensures turned { AreTurned (W.count word.now) (F.told first.old) (F.told first.new) (S.told second.old) (S.told second.new) (T.told third.old) (T.told third.new) result.0 }
    ensures heard_first { Hears F.hears first.old first.new }
    ensures heard_second { Hears S.hears second.old second.new }
    ensures of_third { Closed (asked_and_there hints of) (this_script of) (seen_by T.told T.remaining T.lent third.old) (seen_by T.told T.remaining T.lent third.new) (seen_by A.told A.contents A.lent aside.old) (seen_by A.told A.contents A.lent aside.new) result.1 }
    ensures lent_aside { A.lent aside.new ≡ A.lent aside.old }
{
    let mut telling = telling_of(alloc, hints, of);
    let mut hinting = Hinting::new(third, aside, &mut telling);
    let ended = serve_into(word, first, second, &mut hinting, buffered);
    (ended, hinting.close())
}

/// How it ended, and what came of the hints of the two inputs behind the first.
#[derive(Clone, Copy)]
pub(crate) struct Behind {
    pub(crate) ended: Result<Outcome, RunFault>,
    pub(crate) of_second: Result<(), RunFault>,
    pub(crate) of_third: Result<(), RunFault>,
}

/// The same with the hints of the second, which go to a sink of their own.
fn serve_behind<W: Word, F: Source, S: Source, T: Source, O: Write + Drop, A: Sink, B: Sink>(
    alloc: Global,
    word: &W,
    hints: bool,
    scripts: Scripts,
    first: &mut F,
    second: &mut S,
    third: &mut T,
    buffered: &mut BufWriter<O>,
    aside: &mut A,
    beyond: &mut B,
) -> Behind
    requires first { (F.told first.old).failed ≡ false }
    requires second { (S.told second.old).failed ≡ false }
    requires third { (T.told third.old).failed ≡ false }
    requires empty { writer_buffer buffered.old ≡ [] }
    ensures ends { EndsThrough (W.telling word.now) (inputs (F.remaining first.old) (S.remaining second.old) (T.remaining third.old)) (inputs (F.remaining first.new) (S.remaining second.new) (T.remaining third.new)) (O.contents (writer_inner buffered.old)) (O.contents (writer_inner buffered.new)) result.ended }
    ensures turned { AreTurned (W.count word.now) (F.told first.old) (F.told first.new) (S.told second.old) (S.told second.new) (T.told third.old) (T.told third.new) result.ended }
    ensures heard_first { Hears F.hears first.old first.new }
    ensures of_second { Closed (asked_and_there hints scripts.second) (this_script scripts.second) (seen_by S.told S.remaining S.lent second.old) (seen_by S.told S.remaining S.lent second.new) (seen_by A.told A.contents A.lent aside.old) (seen_by A.told A.contents A.lent aside.new) result.of_second }
    ensures of_third { Closed (asked_and_there hints scripts.third) (this_script scripts.third) (seen_by T.told T.remaining T.lent third.old) (seen_by T.told T.remaining T.lent third.new) (seen_by B.told B.contents B.lent beyond.old) (seen_by B.told B.contents B.lent beyond.new) result.of_third }
    ensures lent_aside { A.lent aside.new ≡ A.lent aside.old }
    ensures lent_beyond { B.lent beyond.new ≡ B.lent beyond.old }
{
    let mut telling = telling_of(alloc, hints, scripts.second);
    let mut hinting = Hinting::new(second, aside, &mut telling);
    let (ended, of_third) = serve_third(
        alloc,
        word,
        hints,
        scripts.third,
        first,
        &mut hinting,
        third,
        buffered,
        beyond,
    );
    Behind {
        ended,
        of_second: hinting.close(),
        of_third,
    }
}

/// How it ended, and what came of the hints of each input.
#[derive(Clone, Copy)]
pub(crate) struct Told {
    pub(crate) of_first: Result<(), RunFault>,
    pub(crate) behind: Behind,
}

/// The same with the hints of the first, which go to standard error.
pub(crate) fn serve_hinting<
    W: Word,
    F: Source,
    S: Source,
    T: Source,
    O: Write + Drop,
    K: Sink,
    A: Sink,
    B: Sink,
>(
    alloc: Global,
    word: &W,
    hints: bool,
    scripts: Scripts,
    first: &mut F,
    second: &mut S,
    third: &mut T,
    buffered: &mut BufWriter<O>,
    errors: &mut K,
    aside: &mut A,
    beyond: &mut B,
) -> Told
    requires first { (F.told first.old).failed ≡ false }
    requires second { (S.told second.old).failed ≡ false }
    requires third { (T.told third.old).failed ≡ false }
    requires empty { writer_buffer buffered.old ≡ [] }
    ensures ends { EndsThrough (W.telling word.now) (inputs (F.remaining first.old) (S.remaining second.old) (T.remaining third.old)) (inputs (F.remaining first.new) (S.remaining second.new) (T.remaining third.new)) (O.contents (writer_inner buffered.old)) (O.contents (writer_inner buffered.new)) result.behind.ended }
    ensures turned { AreTurned (W.count word.now) (F.told first.old) (F.told first.new) (S.told second.old) (S.told second.new) (T.told third.old) (T.told third.new) result.behind.ended }
    ensures of_first { Closed hints scripts.first (seen_by F.told F.remaining F.lent first.old) (seen_by F.told F.remaining F.lent first.new) (seen_by K.told K.contents K.lent errors.old) (seen_by K.told K.contents K.lent errors.new) result.of_first }
    ensures of_second { Closed (asked_and_there hints scripts.second) (this_script scripts.second) (seen_by S.told S.remaining S.lent second.old) (seen_by S.told S.remaining S.lent second.new) (seen_by A.told A.contents A.lent aside.old) (seen_by A.told A.contents A.lent aside.new) result.behind.of_second }
    ensures of_third { Closed (asked_and_there hints scripts.third) (this_script scripts.third) (seen_by T.told T.remaining T.lent third.old) (seen_by T.told T.remaining T.lent third.new) (seen_by B.told B.contents B.lent beyond.old) (seen_by B.told B.contents B.lent beyond.new) result.behind.of_third }
    ensures lent_aside { A.lent aside.new ≡ A.lent aside.old }
    ensures lent_beyond { B.lent beyond.new ≡ B.lent beyond.old }
{
    let mut telling = Telling::new(alloc, hints, scripts.first);
    let mut hinting = Hinting::new(first, errors, &mut telling);
    let behind = serve_behind(
        alloc,
        word,
        hints,
        scripts,
        &mut hinting,
        second,
        third,
        buffered,
        aside,
        beyond,
    );
    Told {
        of_first: hinting.close(),
        behind,
    }
}
