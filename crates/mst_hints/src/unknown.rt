ghost use Rattle.std.specs.Prelude.{◌≡◌, ◌++◌, Some, OnOk};
ghost use Rattle.std.specs.Option.{option_map};
ghost use Rattle.mst_lang.specs.Words.{words};
ghost use Rattle.mst_hints.specs.Hints.{unknown_text, said_of, said_behind, besides, question, meant as meant_command, near_alone as nearest_alone, parted as parted_command, next_command as command_behind, by_changes as changed, nearest as nearest_of};

use crate::form::{command_by_one, command_by_two, command_in_case, command_joined, is_command};
use crate::tools::{asks, saying_among};
use crate::words::next_word;
use mst_ids::push_bytes;
use std::alloc::AllocError;

/// Appends what is said of a word that is no command.
pub(crate) fn push_unknown(
    word: &[u8],
    arguments: &[u8],
    out: &mut Vec<u8>,
) -> Result<(), AllocError>
    ensures { OnOk result (out.new.items ≡ out.old.items ++ unknown_text word.now (words arguments.now)) }
{
    push_bytes(b"no command ", out)?;
    push_bytes(word, out)?;
    push_said(word, arguments, out)
}

/// Appends the command that the word was to be, or what is said of it and of the words behind it, if something is.
fn push_said(word: &[u8], arguments: &[u8], out: &mut Vec<u8>) -> Result<(), AllocError>
    ensures { OnOk result (out.new.items ≡ out.old.items ++ besides (said_of word.now (words arguments.now))) }
{
    match meant(word, arguments) {
        Some(command) => push_question(command, out),
        None => push_said_behind(word, arguments, out),
    }
}

/// Appends what the word or one of those behind it asks for in other tools, or the command that stands behind it.
fn push_said_behind(word: &[u8], arguments: &[u8], out: &mut Vec<u8>) -> Result<(), AllocError>
    ensures { OnOk result (out.new.items ≡ out.old.items ++ besides (said_behind word.now (words arguments.now))) }
{
    if let Some(saying) = saying_among(word, arguments) {
        return push_saying(saying, out);
    }
    match next_command(arguments) {
        Some(command) => push_question(command, out),
        None => Ok(()),
    }
}

/// Appends a text behind what was said already.
pub fn push_saying(saying: &[u8], out: &mut Vec<u8>) -> Result<(), AllocError>
    ensures { OnOk result (out.new.items ≡ out.old.items ++ besides (Some saying.now)) }
{
    push_bytes(b"; ", out)?;
    push_bytes(saying, out)
}

/// Asks whether the command was meant.
pub fn push_question(command: &[u8], out: &mut Vec<u8>) -> Result<(), AllocError>
    ensures { OnOk result (out.new.items ≡ out.old.items ++ besides (Some (question command.now))) }
{
    push_bytes(b"; ", out)?;
    push_bytes(command, out)?;
    push_bytes(b"?", out)
}

/// The command that the word was to be: with the next one, or the nearest.
fn meant(word: &[u8], arguments: &[u8]) -> Option<&'static [u8]>
    ensures { option_map (λ text. text.now) result ≡ meant_command word.now (words arguments.now) }
{
    match parted(word, arguments) {
        Some(command) => Some(command),
        None => near_alone(word),
    }
}

/// The nearest command of a word that asks for nothing by itself.
pub(crate) fn near_alone(word: &[u8]) -> Option<&'static [u8]>
    ensures { option_map (λ text. text.now) result ≡ nearest_alone word.now }
{
    if asks(word) { None } else { nearest(word) }
}

/// The command that the word and the next one are, written apart, in either order.
fn parted(word: &[u8], arguments: &[u8]) -> Option<&'static [u8]>
    ensures { option_map (λ text. text.now) result ≡ parted_command word.now (words arguments.now) }
{
    let (behind, _) = next_word(arguments)?;
    match command_joined(word, behind) {
        Some(command) => Some(command),
        None => command_joined(behind, word),
    }
}

/// The command that stands behind a word.
fn next_command(arguments: &[u8]) -> Option<&[u8]>
    ensures { option_map (λ text. text.now) result ≡ command_behind (words arguments.now) }
{
    let (word, _) = next_word(arguments)?;
    is_command(word).then_some(word)
}

/// The command that is nearest to the word: it but for its case, or at most two changes from it.
#[tactic(auto, unfolding(crate::specs::Hints::nearest))]
fn nearest(word: &[u8]) -> Option<&'static [u8]>
    ensures { option_map (λ text. text.now) result ≡ nearest_of word.now }
{
    match command_in_case(word) {
        Some(command) => Some(command),
        None => by_changes(word),
    }
}

/// The command that is at most two changes from the word.
fn by_changes(word: &[u8]) -> Option<&'static [u8]>
    ensures { option_map (λ text. text.now) result ≡ changed word.now }
{
    match command_by_one(word) {
        Some(command) => Some(command),
        None => command_by_two(word),
    }
}
