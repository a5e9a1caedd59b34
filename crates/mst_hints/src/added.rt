ghost use Rattle.std.specs.Prelude.{◌≡◌};
ghost use Rattle.std.specs.Option.{option_map};
ghost use Rattle.std.specs.Result.{result_ok};
ghost use Rattle.mst_lang.specs.Arguments as forms;
ghost use Rattle.mst_lang.specs.Words.{words};
ghost use Rattle.mst_hints.specs.Records.{added_of as added_of_line, added_by as added_by_words, added_bridge as bridge_of_words, added_port as port_of_words, added_lan as lan_of_words, command_meant as command_of_word};

use crate::form::form_of;
use crate::hint::LONGEST;
use crate::record::Record;
use crate::unknown::near_alone;
use crate::words::next_word;
use mst_ids::{Name, PortName, PortNumber};
use mst_lang::parse_number;

/// The record that a line was to add: the one that the words after `addbridge`, `addport` or `addlan` name, or after a
/// word that is no command and nearest to one of these, whatever else is wrong with the line. None for a line that is
/// too long, and for a comment.
pub(crate) fn added_of(line: &[u8]) -> Option<Record>
    ensures { result ≡ added_of_line line.now }
{
    if line.len() > LONGEST {
        return None;
    }
    match next_word(line) {
        None | Some(([b'#', ..], _)) => None,
        Some((word, arguments)) => added_by(command_meant(word)?, arguments),
    }
}

/// The command that a word is, or was to be: the nearest one where it is none and asks for nothing else.
fn command_meant(word: &[u8]) -> Option<&[u8]>
    ensures { option_map (λ text. text.now) result ≡ command_of_word word.now }
{
    match form_of(word) {
        Some(_) => Some(word),
        None => near_alone(word),
    }
}

/// The record that a command of these arguments was to add.
fn added_by(command: &[u8], arguments: &[u8]) -> Option<Record>
    ensures { result ≡ added_by_words command.now (words arguments.now) }
{
    if command == b"addbridge".as_slice() {
        added_bridge(arguments)
    } else if command == b"addport".as_slice() {
        added_port(arguments)
    } else if command == b"addlan".as_slice() {
        added_lan(arguments)
    } else {
        None
    }
}

fn added_bridge(arguments: &[u8]) -> Option<Record>
    ensures { result ≡ bridge_of_words (words arguments.now) }
{
    let (bridge, _) = next_word(arguments)?;
    Some(Record::Bridge(name(bridge)?))
}

fn added_port(arguments: &[u8]) -> Option<Record>
    ensures { result ≡ port_of_words (words arguments.now) }
{
    let (bridge, others) = next_word(arguments)?;
    let (number, _) = next_word(others)?;
    Some(Record::Port(PortName {
        bridge: name(bridge)?,
        number: port_number(number)?,
    }))
}

fn added_lan(arguments: &[u8]) -> Option<Record>
    ensures { result ≡ lan_of_words (words arguments.now) }
{
    let (lan, _) = next_word(arguments)?;
    Some(Record::Lan(name(lan)?))
}

fn name(word: &[u8]) -> Option<Name>
    ensures { result ≡ result_ok (forms.name word.now) }
{
    Name::parse(word).ok()
}

fn port_number(word: &[u8]) -> Option<PortNumber>
    ensures { result ≡ result_ok (forms.port_number word.now) }
{
    PortNumber::new(parse_number(word)?)
}
