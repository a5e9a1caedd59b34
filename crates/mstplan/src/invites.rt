ghost use Rattle.std.specs.Prelude.{length};
ghost use Rattle.mst_io.specs.Devices.{seen_by};
ghost use Rattle.mstplan.specs.Invites.{invitation};
ghost use Rattle.mstplan.specs.Said.{IsSaid};

use crate::said::{Part, say};
use mst_command::{Asked, Stop, Verb};
use mst_io::Sink;

/// The lines that tell whom the program waits for.
const FOR_SCRIPT: &[u8] =
    b"mstplan: reading a script from the terminal, until Ctrl-D; --help tells of its commands\n";

const FOR_QUESTIONS: &[u8] =
    b"mstplan: reading questions from the terminal, until Ctrl-D; --help tells of them\n";

/// Tells in a line what is read from the terminal, where one is standard input: a script, if no words say what is to be done, or
/// questions. The first of the words is the program's name.
pub(crate) fn invite<K: Sink>(
    errors: &mut K,
    words: &[String],
    asked: &Result<Asked<'_>, Stop<'_>>,
    is_terminal: bool,
)
    ensures { IsSaid (seen_by K.told K.contents K.lent errors.old) (seen_by K.told K.contents K.lent errors.new) (invitation is_terminal (length words.now) asked.now) }
{
    if !is_terminal {
        say(errors, &[]);
        return;
    }
    match asked {
        Ok(asked) => match asked.verb {
            Verb::Run if words.len() < 2 => say(errors, &[Part::Text(FOR_SCRIPT)]),
            Verb::Ask if asked.behind.first != "-" => say(errors, &[Part::Text(FOR_QUESTIONS)]),
            _ => say(errors, &[]),
        },
        Err(_) => say(errors, &[]),
    }
}
