ghost use Rattle.std.specs.Prelude.{◌≡◌, ◌≢◌, ◌⊎◌, true, Some, option_map, unwrap_or, IfOk, IfErr, IfSome, IsErrAnd};
ghost use Rattle.std.specs.List.{list_any};
ghost use Rattle.clap.specs.Words.{first_of, found_of, kind_of, rows_of, subcommand_rows_of};
ghost use Rattle.mst_command.specs.Table.{verb_named};
ghost use Rattle.mst_command.specs.Words.{words_of, texts_of, found_in, asked_of, asked_by, are_plain, behind_name, without_dashes, is_help, is_version, is_of_path, IsAnswer, IsFileAlone, IsMeant, IsNoWord, IsRefusal, IsWrong};
ghost use Rattle.mst_command.specs.Strays.{first_unknown};

use crate::command::command_line;
use crate::page::VERSION_RECORD;
use crate::stop::{Stop, starved};
use crate::strays::{Meant, Stray, stray_among, unknown_stray};
use crate::table::{FIFTH, FIRST, FOURTH, SECOND, THIRD, Verb};
use clap::error::ErrorKind;
use clap::{ArgMatches, Error};
use mst_frame::Sources;
use mst_io::RunFault;
use std::alloc::{AllocError, Global};
use std::env::Env;
use std::{env, io};

/// What the words ask for: what is to be done, and the words behind that, at which nothing has looked yet.
#[derive(Clone, Copy)]
pub struct Asked<'a> {
    pub verb: Verb,
    pub behind: Behind<'a>,
}

/// The words behind one of the program's, each in its place. A script and other inputs are named, and the name `-` is that of standard
/// input, which the first is if no word stands there.
#[derive(Clone, Copy)]
pub struct Behind<'a> {
    pub first: &'a str,
    pub second: Option<&'a str>,
    pub third: Option<&'a str>,
    pub fourth: Option<&'a str>,
    pub fifth: Option<&'a str>,
}

/// The words that the program was called with, its name first.
pub fn given_words<R: Env + Eprint + AllocGlobal>(rt: &R) -> Result<Vec<String>, Stop<'static>> {
    match env::args(rt) {
        Ok(words) => words.collect(rt.alloc()).map_err(starved),
        Err(error) if error.kind() == io::ErrorKind::OutOfMemory => {
            Err(Stop::Fault(RunFault::Memory))
        }
        Err(_) => {
            let _ = eprintln!(rt; "error: a word isn't text in UTF-8");
            Err(Stop::Told(2))
        }
    }
}

/// What the words ask for, of which the first is the program's name. Where none of the others is an option, an `Err`
/// comes just where they ask for nothing, or for want of memory.
/// The program's help and its version are told on standard output, and come as an `Err` too. So does a word of one hyphen that the
/// program doesn't know, whatever else the words ask for.
pub fn asked_by_words<'a, R: Print + Eprint + AllocGlobal, S: Sources>(
    rt: &R,
    sources: &S,
    is_json: bool,
    words: &'a [String],
) -> Result<Asked<'a>, Stop<'a>>
    ensures asked { are_plain (behind_name words.now) ≡ true → IfOk result (λ asked. asked_by (without_dashes (behind_name words.now)) ≡ Some (words_of asked)) }
    ensures refused { are_plain (behind_name words.now) ≡ true → IfErr result (IsRefusal (S.is_there sources.now) (behind_name words.now) (asked_by (without_dashes (behind_name words.now)))) }
    ensures help { is_help (behind_name words.now) ≡ true → IsErrAnd result IsAnswer }
    ensures version { is_version (behind_name words.now) ≡ true → IsErrAnd result IsAnswer }
    ensures unknown { IfSome (first_unknown (behind_name words.now)) (λ word. IsErrAnd result (IsNoWord word)) }
{
    match unknown_stray(words) {
        Some(stray) => Err(Stop::NoWord(stray.word, stray.meant)),
        None => asked_by_parser(rt, sources, is_json, words),
    }
}

/// The same by the parser, to which a word of one hyphen is a bundle of letters.
fn asked_by_parser<'a, R: Print + Eprint + AllocGlobal, S: Sources>(
    rt: &R,
    sources: &S,
    is_json: bool,
    words: &'a [String],
) -> Result<Asked<'a>, Stop<'a>>
    ensures asked { are_plain (behind_name words.now) ≡ true → IfOk result (λ asked. asked_by (without_dashes (behind_name words.now)) ≡ Some (words_of asked)) }
    ensures refused { are_plain (behind_name words.now) ≡ true → IfErr result (IsRefusal (S.is_there sources.now) (behind_name words.now) (asked_by (without_dashes (behind_name words.now)))) }
    ensures help { is_help (behind_name words.now) ≡ true → IsErrAnd result IsAnswer }
    ensures version { is_version (behind_name words.now) ≡ true → IsErrAnd result IsAnswer }
{
    match command_line(rt.alloc()) {
        Err(refused) => Err(starved(refused)),
        Ok(command) => match command.try_get_matches_from(words) {
            Ok(matches) => Ok(asked_in(&matches)),
            Err(error) => Err(tell_words(rt, sources, is_json, words, &error)),
        },
    }
}

/// Tells what the words ask for, on standard output, or what is wrong with them, on standard error. Where who reads standard
/// output has closed it, all is told.
fn tell_words<'a, R: Print + Eprint + AllocGlobal, S: Sources>(
    rt: &R,
    sources: &S,
    is_json: bool,
    words: &'a [String],
    error: &Error,
) -> Stop<'a>
    ensures memory { kind_of error.now ≡ ErrorKind.OutOfMemory → result ≡ Stop.Fault RunFault.Memory }
    ensures help { kind_of error.now ≡ ErrorKind.DisplayHelp → (result ≡ Stop.Told 0) ⊎ (result ≡ Stop.Fault RunFault.Write) }
    ensures version { kind_of error.now ≡ ErrorKind.DisplayVersion → (result ≡ Stop.Told 0) ⊎ (result ≡ Stop.Fault RunFault.Write) }
    ensures wrong { kind_of error.now ≢ ErrorKind.OutOfMemory → kind_of error.now ≢ ErrorKind.DisplayHelp → kind_of error.now ≢ ErrorKind.DisplayVersion → IsWrong (S.is_there sources.now) (behind_name words.now) result }
    ensures refused { kind_of error.now ≢ ErrorKind.DisplayHelp → kind_of error.now ≢ ErrorKind.DisplayVersion → IsWrong (S.is_there sources.now) (behind_name words.now) result ⊎ (result ≡ Stop.Fault RunFault.Memory) }
{
    match error.kind() {
        ErrorKind::OutOfMemory => Stop::Fault(RunFault::Memory),
        ErrorKind::DisplayHelp | ErrorKind::DisplayVersion => tell_answer(rt, is_json, error),
        _ => match wrong_word(sources, words) {
            Some(stray) => Stop::NoWord(stray.word, stray.meant),
            None => {
                tell_wrong(rt, error);
                Stop::Told(2)
            }
        },
    }
}

/// Tells on standard error what the parser says of wrong words, unless memory was wanted and refused.
fn tell_wrong<R: Eprint + AllocGlobal>(rt: &R, error: &Error) {
    if let Ok(text) = tamed(rt.alloc(), error) {
        let _ = eprint!(rt; "{}", text);
    }
}

/// What the parser says, with each control character by its code but for the ends of lines: the words that it quotes say nothing to a
/// terminal.
fn tamed(alloc: Global, error: &Error) -> Result<String, AllocError> {
    let said = format!(in alloc; "{error}")?;
    let mut text = String::new(alloc);
    for c in said.chars() {
        if c.is_control() && c != '\n' {
            write!(text, "\\x{:02x}", u32::from(c))?;
        } else {
            text.push(c)?;
        }
    }
    Ok(text)
}

/// Tells the help or the version on standard output; the version as a record where JSON is asked for.
fn tell_answer<R: Print + Eprint>(rt: &R, is_json: bool, error: &Error) -> Stop<'static>
    ensures { (result ≡ Stop.Told 0) ⊎ (result ≡ Stop.Fault RunFault.Write) }
{
    let told = if is_json && error.kind() == ErrorKind::DisplayVersion {
        print!(rt; "{}", VERSION_RECORD)
    } else {
        error.print(rt)
    };
    match told {
        Ok(()) => Stop::Told(0),
        Err(error) if error.kind() == io::ErrorKind::BrokenPipe => Stop::Told(0),
        Err(_) => Stop::Fault(RunFault::Write),
    }
}

/// A word behind the program's name of which it is known what it was meant for.
fn wrong_word<'a, S: Sources>(sources: &S, words: &'a [String]) -> Option<Stray<'a>>
    ensures { IfSome result (λ stray. IsMeant (S.is_there sources.now) (behind_name words.now) stray.word.now stray.meant) }
{
    match file_alone(sources, words) {
        Some(word) => Some(Stray {
            word,
            meant: Meant::File,
        }),
        None => stray_among(words),
    }
}

/// The word behind the program's name, if it is the only one and may be meant for a file: it has a `.` or a `/`, or a file of this
/// name is there.
fn file_alone<'a, S: Sources>(sources: &S, words: &'a [String]) -> Option<&'a str>
    ensures { IfSome result (λ word. IsFileAlone (S.is_there sources.now) (behind_name words.now) word.now) }
{
    if words.len() != 2 {
        return None;
    }
    let word = words[1].as_str();
    if has_path_byte(word.as_bytes()) || sources.is_there(word) {
        Some(word)
    } else {
        None
    }
}

/// Whether a name has a byte that no command's has, `.` or `/`.
fn has_path_byte(name: &[u8]) -> bool
    ensures { result ≡ list_any is_of_path name.now }
{
    name.iter().any(|byte| *byte == b'.' || *byte == b'/')
}

/// What the words ask for: to run standard input where there is no command.
fn asked_in<'a>(matches: &ArgMatches<'a>) -> Asked<'a>
    ensures { words_of result ≡ asked_of (subcommand_rows_of matches.now) }
{
    match matches.subcommand() {
        Some((command, found)) => Asked {
            verb: verb_or_run(command),
            behind: behind_in(found),
        },
        None => Asked {
            verb: Verb::Run,
            behind: Behind {
                first: "-",
                second: None,
                third: None,
                fourth: None,
                fifth: None,
            },
        },
    }
}

/// The word of the program of this name, and else the first.
fn verb_or_run(name: &str) -> Verb
    ensures { result ≡ unwrap_or (verb_named name.now) Verb.Run }
{
    match Verb::named(name) {
        Some(verb) => verb,
        None => Verb::Run,
    }
}

/// The words that were found in their places.
fn behind_in<'a>(found: &ArgMatches<'a>) -> Behind<'a>
    ensures { texts_of result ≡ found_in (rows_of (found_of found.now)) }
{
    Behind {
        first: match word_in(found, FIRST) {
            Some(word) => word,
            None => "-",
        },
        second: word_in(found, SECOND),
        third: word_in(found, THIRD),
        fourth: word_in(found, FOURTH),
        fifth: word_in(found, FIFTH),
    }
}

/// The value of a word, if it is there.
fn word_in<'a>(found: &ArgMatches<'a>, id: &str) -> Option<&'a str>
    ensures { option_map (λ word. word.now) result ≡ first_of id.now (rows_of (found_of found.now)) }
{
    found.get_str(id)
}
