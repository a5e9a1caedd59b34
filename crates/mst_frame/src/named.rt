ghost use Rattle.std.specs.Prelude.{◌≡◌, IfErr, IfOk, OnErr};
ghost use Rattle.mst_io.specs.Devices.{seen_by};
ghost use Rattle.mst_drive.specs.Words.{Inputs};
ghost use Rattle.mst_frame.specs.Hinted.{Fit};
ghost use Rattle.mst_frame.specs.Named.{AreNamed, IsWhyNone, word_of};
ghost use Rattle.mst_frame.specs.Served.{EndsHinted, outputs};

use crate::behind::{Ran, serve_readers};
use crate::hinting::Scripts;
use crate::inputs::{Unserved, is_standard, is_standard_if, open_input, open_named};
use crate::sources::Sources;
use mst_drive::Word;
use mst_io::Sink;
use std::alloc::Global;
use std::io::Write;

/// The names of a word's inputs: those of files, or `-`, which is standard input.
#[derive(Clone, Copy)]
pub struct Names<'a> {
    pub first: &'a str,
    /// `None`: it isn't named, and gives nothing.
    pub second: Option<&'a str>,
    pub third: Option<&'a str>,
}

/// Serves a word on the inputs of these names, and tells the hints of their lines, where they are asked for. An input is standard input's
/// where its name is `-`: the first of these takes all of it, and the others are empty.
pub fn serve_named<'a, S: Sources, W: Word, O: Write + Drop, K: Sink>(
    alloc: Global,
    sources: &S,
    word: &W,
    scripts: Scripts,
    hints: bool,
    names: Names<'a>,
    writer: O,
    errors: &mut K,
) -> Result<Ran<O>, Unserved<'a>>
    requires fit { Fit (W.count word.now) scripts }
    ensures ran { IfOk result (λ ran. (given : Inputs) × AreNamed (S.is_given sources.now) (S.is_file sources.now) names.entry.first.now (word_of names.entry.second) (word_of names.entry.third) given
        × EndsHinted (W.telling word.now) (W.count word.now) scripts hints given (outputs O.contents (seen_by K.told K.contents K.lent) writer errors.old) (outputs O.contents (seen_by K.told K.contents K.lent) ran.writer errors.new) ran.ended ran.hints) }
    ensures stopped { IfErr result (IsWhyNone (S.is_unopened sources.now) names.entry.first names.entry.second names.entry.third) }
    ensures untold { OnErr result (errors.new ≡ errors.old) }
{
    let first = match open_input(sources, false, names.first) {
        Ok(first) => first,
        Err(why) => return Err(why),
    };
    let second = match open_named(sources, is_standard(names.first), names.second) {
        Ok(second) => second,
        Err(why) => return Err(why),
    };
    let is_taken = is_standard(names.first) || is_standard_if(names.second);
    let third = match open_named(sources, is_taken, names.third) {
        Ok(third) => third,
        Err(why) => return Err(why),
    };
    match serve_readers(
        alloc, word, scripts, hints, first, second, third, writer, errors,
    ) {
        Some(ran) => Ok(ran),
        None => Err(Unserved::Starved),
    }
}
