//! The program's command line, as the table of its words has it.

ghost use Rattle.std.specs.Prelude.{◌≡◌, IfOk};
ghost use Rattle.std.specs.Option.{option_map};
ghost use Rattle.clap.specs.Words.{app_of, shape_of};
ghost use Rattle.mst_command.specs.Table.{place_of, row_of};
ghost use Rattle.mst_command.specs.Words.{command_shape, program, no_command as without_command, with_place as placed};

use crate::page::{PAGE, VERSION};
use crate::table::{FIFTH, FIRST, FOURTH, Place, SECOND, THIRD, VERBS, Verb};
use clap::{Arg, Command};
use std::alloc::{AllocError, Global};

/// The program's name.
const NAME: &str = "mstplan";

/// A command with a place behind those that it has, if there is one more, which clap calls so.
fn with_place<'a>(
    alloc: Global,
    before: Command<'a>,
    id: &'a str,
    place: Option<&Place<'a>>,
) -> Result<Command<'a>, AllocError>
    ensures { IfOk result (λ command. app_of command ≡ placed (app_of before.entry) id.entry.now (option_map (λ place. place_of place.now) place.entry)) }
{
    match place {
        Some(place) => {
            let named = Arg::new(alloc, id).value_name(place.name);
            before.arg(named.help(place.help).required(place.is_wanted))
        }
        None => Ok(before),
    }
}

/// The command of a word of the program.
fn command_of<'a>(alloc: Global, verb: Verb) -> Result<Command<'a>, AllocError>
    ensures { IfOk result (λ command. shape_of command ≡ command_shape (row_of verb)) }
{
    let row = verb.row();
    let places = row.places;
    let named = Command::new(alloc, row.name)
        .about(row.about)
        .after_help(row.forms);
    let one = with_place(alloc, named, FIRST, places.get(0))?;
    let two = with_place(alloc, one, SECOND, places.get(1))?;
    let three = with_place(alloc, two, THIRD, places.get(2))?;
    let four = with_place(alloc, three, FOURTH, places.get(3))?;
    with_place(alloc, four, FIFTH, places.get(4))
}

/// The program's command line: a command of each word in the table.
pub(crate) fn command_line<'a>(alloc: Global) -> Result<Command<'a>, AllocError>
    ensures { IfOk result (λ command. app_of command ≡ program) }
{
    let mut command = no_command(alloc)?;
    for verb in &VERBS {
        command = command.subcommand(command_of(alloc, *verb)?)?;
    }
    Ok(command)
}

/// The program's command line without a command. Its usage has this name of the program, whatever its file is called.
fn no_command<'a>(alloc: Global) -> Result<Command<'a>, AllocError>
    ensures { IfOk result (λ command. app_of command ≡ without_command) }
{
    let named = Command::new(alloc, NAME)
        .about(
            "Plans networks of spanning trees. With no command it reads a script on standard input",
        )
        .after_help(PAGE)
        .version(VERSION)
        .disable_help_subcommand(true);
    named.bin_name(NAME)
}
