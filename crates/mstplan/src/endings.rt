ghost use Rattle.std.specs.Prelude.{◌≡◌, ◌++◌, option_map};
ghost use Rattle.mst_io.specs.Devices.{seen_by};
ghost use Rattle.mstplan.specs.Endings.{before_name as before_file, behind_name as behind_file, behind_word as behind_stray, is_left as left_alone, line_of, message_of, said_of, status_after, status_of_stop, status_with, stop_by, told_fault, told_of, told_of_hints};
ghost use Rattle.mstplan.specs.Said.{IsSaid, shown};

use crate::piped::Piped;
use crate::said::{Part, say};
use mst_ask::status;
use mst_command::{Meant, Ran, Stop, Unopened, Unserved, is_write_fault};
use mst_io::{Outcome, RunFault, Sink};

/// Why nothing was run, where a word wasn't served.
pub(crate) fn stop_unserved(why: Unserved<'_>) -> Stop<'_>
    ensures { result ≡ stop_by why.entry }
{
    match why {
        Unserved::Unopened(name, why) => Stop::Unopened(name, why),
        Unserved::Starved => Stop::Fault(RunFault::Memory),
    }
}

/// The program's end after a run: its exit status, and what is still to be told, of the run and then of its hints.
#[derive(Clone, Copy)]
pub(crate) struct Ending<'a> {
    pub(crate) status: u8,
    pub(crate) told: Option<Stop<'a>>,
    pub(crate) of_hints: Option<Stop<'a>>,
}

/// The fault that is told after a run: the one that stopped it, or want of memory where it refused a
/// line.
fn fault_of(ran: &Result<Outcome, RunFault>) -> Option<RunFault>
    ensures { result ≡ told_fault ran.now }
{
    match ran {
        Err(fault) => Some(*fault),
        Ok(outcome) => {
            if outcome.memory == 0 {
                None
            } else {
                Some(RunFault::Memory)
            }
        }
    }
}

/// What is told of a fault, if there is one.
fn stop_of<'a>(fault: Option<RunFault>) -> Option<Stop<'a>>
    ensures { result ≡ option_map (λ fault. Stop.Fault fault) fault }
{
    match fault {
        Some(fault) => Some(Stop::Fault(fault)),
        None => None,
    }
}

/// Whether the run was stopped since who read its output has closed it, which is no fault.
fn is_left(is_closed: bool, ran: &Result<Outcome, RunFault>) -> bool
    ensures { result ≡ left_alone is_closed ran.now }
{
    is_closed && is_write_fault(ran)
}

/// The exit status where no script is run.
pub(crate) fn status_of_stop(stop: Stop<'_>) -> u8
    ensures { result ≡ status_of_stop stop.entry }
{
    match stop {
        Stop::Told(status) => status,
        Stop::NoWord(_, _) => 2,
        Stop::Unopened(_, _) | Stop::Fault(_) => 3,
    }
}

/// The exit status after a run whose hints ended so.
fn status_after_run(
    is_closed: bool,
    ran: &Result<Outcome, RunFault>,
    hints: &Result<(), RunFault>,
) -> u8
    ensures { result ≡ status_with (status_after is_closed ran.now) hints.now }
{
    if hints.is_err() {
        3
    } else if is_left(is_closed, ran) {
        0
    } else {
        status(ran)
    }
}

/// How the program ends after a run.
pub(crate) fn after_run<'a, W: Drop>(ran: &Ran<Piped<W>>) -> Ending<'a>
    ensures status { result.status ≡ status_with (status_after ran.now.writer.is_closed ran.now.ended) ran.now.hints }
    ensures told { result.told ≡ told_of ran.now.writer.is_closed ran.now.ended }
    ensures of_hints { result.of_hints ≡ told_of_hints ran.now.hints }
{
    let is_closed = ran.writer.is_closed();
    Ending {
        status: status_after_run(is_closed, &ran.ended, &ran.hints),
        told: if is_left(is_closed, &ran.ended) {
            None
        } else {
            stop_of(fault_of(&ran.ended))
        },
        of_hints: match ran.hints {
            Ok(()) => None,
            Err(fault) => Some(Stop::Fault(fault)),
        },
    }
}

/// The line that tells a fault.
fn message(fault: RunFault) -> &'static str
    ensures { result.now ≡ message_of fault }
{
    match fault {
        RunFault::Read => "mstplan: read fault",
        RunFault::Write => "mstplan: write fault",
        RunFault::Memory => "mstplan: out of memory",
    }
}

/// Tells in a line what is still to be told, if anything is.
pub(crate) fn tell<K: Sink>(errors: &mut K, told: Option<Stop<'_>>)
    ensures { IsSaid (seen_by K.told K.contents K.lent errors.old) (seen_by K.told K.contents K.lent errors.new) (said_of told.entry) }
{
    match told {
        None => say(errors, &[]),
        Some(stop) => tell_stop(errors, stop),
    }
}

/// Tells what stopped the program. What its words said was told before.
pub(crate) fn tell_stop<K: Sink>(errors: &mut K, stop: Stop<'_>)
    ensures { IsSaid (seen_by K.told K.contents K.lent errors.old) (seen_by K.told K.contents K.lent errors.new) (line_of stop.entry) }
{
    match stop {
        Stop::Told(_) => say(errors, &[]),
        Stop::NoWord(word, meant) => tell_word(errors, word, meant),
        Stop::Unopened(name, why) => tell_unopened(errors, name, why),
        Stop::Fault(fault) => {
            say(
                errors,
                &[Part::Text(message(fault).as_bytes()), Part::Text(b"\n")],
            );
        }
    }
}

/// Tells of a word that the program hasn't, and what it was meant for.
fn tell_word<K: Sink>(errors: &mut K, word: &str, meant: Meant)
    ensures { IsSaid (seen_by K.told K.contents K.lent errors.old) (seen_by K.told K.contents K.lent errors.new) (line_of (Stop.NoWord word.entry meant)) }
{
    let (before, name, behind) = behind_word(word, meant);
    say(
        errors,
        &[
            Part::Text(b"error: no such word "),
            Part::Name(word),
            Part::Text(before.as_bytes()),
            Part::Name(name),
            Part::Text(behind.as_bytes()),
        ],
    );
}

/// What stands behind such a word: a text, the word again, if it was meant for a file, and the rest.
fn behind_word<'a>(word: &'a str, meant: Meant) -> (&'static str, &'a str, &'static str)
    ensures { result.0.now ++ (shown result.1.now ++ result.2.now) ≡ behind_stray word.entry.now meant }
{
    match meant {
        Meant::File => ("; mstplan run ", word, "?\n"),
        Meant::Json => ("; --json?\n", "", ""),
        Meant::Hints => ("; --hints?\n", "", ""),
        Meant::Help => ("; mstplan --help?\n", "", ""),
        Meant::Version => ("; mstplan --version?\n", "", ""),
        Meant::Flag => (
            "; flags are --json and --hints, what a command takes stands without --\n",
            "",
            "",
        ),
    }
}

/// Tells why the file of a name can't be opened.
fn tell_unopened<K: Sink>(errors: &mut K, name: &str, why: Unopened)
    ensures { IsSaid (seen_by K.told K.contents K.lent errors.old) (seen_by K.told K.contents K.lent errors.new) (line_of (Stop.Unopened name.entry why)) }
{
    say(
        errors,
        &[
            Part::Text(before_name(why).as_bytes()),
            Part::Name(name),
            Part::Text(behind_name(why).as_bytes()),
            Part::Text(b"\n"),
        ],
    );
}

/// What stands before the name of a file that can't be opened.
fn before_name(why: Unopened) -> &'static str
    ensures { result.now ≡ before_file why }
{
    match why {
        Unopened::Folder => "mstplan: ",
        Unopened::Missing | Unopened::Denied | Unopened::Other => "mstplan: cannot open ",
    }
}

/// What stands behind it.
fn behind_name(why: Unopened) -> &'static str
    ensures { result.now ≡ behind_file why }
{
    match why {
        Unopened::Missing => ": no such file",
        Unopened::Denied => ": permission denied",
        Unopened::Folder => " is a folder",
        Unopened::Other => "",
    }
}
