ghost use Rattle.std.specs.Prelude.{◌≡◌, ◌∷◌, [], Err, Ok};
ghost use Rattle.std.specs.Option.{option_map_or};
ghost use Rattle.mst_lang.specs.Arguments.{is_text, with};
ghost use Rattle.mst_lang.specs.Forms.{command_of, form_of as arguments_of};
ghost use Rattle.mst_lang.specs.Reading.{reading, reading_as, says_as, says_version_2};
ghost use Rattle.mst_lang.specs.Values.{lesser_with, made_by};
ghost use Rattle.mst_lang.specs.Words.{words};
ghost use Rattle.mst_lang.specs.declared.line.Fault.TheVariants.{E01};

use crate::form::{Form, form_of};
use crate::line::{Command, Fault, Line, Version};
use crate::made::{made_of_four, made_of_none, made_of_one, made_of_three, made_of_two};
use crate::value::{Value, read_value};
use crate::words::{are_plain, four_words, next_word, one_word, three_words, two_words};

/// The most bytes that a line may have, its end aside.
pub const LONGEST: usize = 4096;

/// What a line of a script of version 1 says, or the least fault of it. The line comes without its end, and no
/// memory is taken.
pub fn parse_line(line: &[u8]) -> Result<Line, Fault>
    ensures { result ≡ reading line.now }
{
    parse_line_as(Version::V1, line)
}

/// Whether a script with this first line is of version 2: it has just the words `mstplan` and `2`, and 4,096
/// bytes at most. The line comes without its end, and no memory is taken.
pub fn is_version_2(line: &[u8]) -> bool
    ensures { result ≡ says_version_2 line.now }
{
    if line.len() > LONGEST {
        return false;
    }
    match two_words(line) {
        Some((first, second)) => is_word(first, b"mstplan") && is_word(second, b"2"),
        None => false,
    }
}

fn is_word(word: &[u8], text: &[u8]) -> bool
    ensures { result ≡ is_text word.now text.now }
{
    word == text
}

/// What a line of a script of this version says, or the least fault of it. The line comes without its end, and no
/// memory is taken.
pub fn parse_line_as(version: Version, line: &[u8]) -> Result<Line, Fault>
    ensures { result ≡ reading_as version line.now }
{
    if line.len() > LONGEST {
        return Err(Fault::E01);
    }
    let plain = are_plain(line);
    match next_word(line) {
        None => {
            if plain {
                Ok(Line::Blank)
            } else {
                Err(Fault::E01)
            }
        }
        Some(([b'#', ..], _)) => Ok(Line::Blank),
        Some((word, arguments)) => {
            if plain {
                read_command(version, word, arguments)
            } else {
                Err(Fault::E01)
            }
        }
    }
}

/// What a line says that begins with this word.
fn read_command(version: Version, word: &[u8], text: &[u8]) -> Result<Line, Fault>
    ensures { result ≡ option_map_or (λ command. says_as version command (words text.now)) (command_of word.now) (Err E01) }
{
    match form_of(word) {
        Some(form) => read_arguments(version, form, text),
        None => Err(Fault::E01),
    }
}

/// What a command makes of the words that follow it.
fn read_arguments(version: Version, form: &Form, text: &[u8]) -> Result<Line, Fault>
    requires { form.now.arguments.now ≡ arguments_of form.now.command }
    ensures { result ≡ says_as version form.now.command (words text.now) }
{
    match form.arguments {
        [] => match next_word(text) {
            None => made_of_none(form.command),
            Some(_) => Err(Fault::E01),
        },
        [first] => match one_word(text) {
            Some(a) => line_of_one(form.command, read_value(version, *first, a)),
            None => Err(Fault::E01),
        },
        [first, second] => match two_words(text) {
            Some((a, b)) => line_of_two(
                form.command,
                read_value(version, *first, a),
                read_value(version, *second, b),
            ),
            None => Err(Fault::E01),
        },
        [first, second, third] => match three_words(text) {
            Some((a, b, c)) => line_of_three(
                form.command,
                read_value(version, *first, a),
                read_value(version, *second, b),
                read_value(version, *third, c),
            ),
            None => Err(Fault::E01),
        },
        [first, second, third, fourth] => match four_words(text) {
            Some((a, b, c, d)) => line_of_four(
                form.command,
                read_value(version, *first, a),
                read_value(version, *second, b),
                read_value(version, *third, c),
                read_value(version, *fourth, d),
            ),
            None => Err(Fault::E01),
        },
        _ => Err(Fault::E01),
    }
}

/// The line of a command with one argument, or its fault.
fn line_of_one(command: Command, first: Result<Value, Fault>) -> Result<Line, Fault>
    ensures { result ≡ made_by command (with (Ok (λ a. a ∷ [])) first) }
{
    match first {
        Ok(first) => made_of_one(command, first),
        Err(fault) => Err(fault),
    }
}

/// The line of a command with two arguments, or the lesser fault.
fn line_of_two(
    command: Command,
    first: Result<Value, Fault>,
    second: Result<Value, Fault>,
) -> Result<Line, Fault>
    ensures { result ≡ made_by command (with (with (Ok (λ a b. a ∷ b ∷ [])) first) second) }
{
    match (first, second) {
        (Ok(a), Ok(b)) => made_of_two(command, a, b),
        _ => Err(lesser(lesser(Fault::E03, first), second)),
    }
}

/// The line of a command with three arguments, or the least fault.
fn line_of_three(
    command: Command,
    first: Result<Value, Fault>,
    second: Result<Value, Fault>,
    third: Result<Value, Fault>,
) -> Result<Line, Fault>
    ensures { result ≡ made_by command (with (with (with (Ok (λ a b c. a ∷ b ∷ c ∷ [])) first) second) third) }
{
    match (first, second, third) {
        (Ok(a), Ok(b), Ok(c)) => made_of_three(command, a, b, c),
        _ => Err(lesser(lesser(lesser(Fault::E03, first), second), third)),
    }
}

/// The line of a command with four arguments, or the least fault.
fn line_of_four(
    command: Command,
    first: Result<Value, Fault>,
    second: Result<Value, Fault>,
    third: Result<Value, Fault>,
    fourth: Result<Value, Fault>,
) -> Result<Line, Fault>
    ensures { result ≡ made_by command (with (with (with (with (Ok (λ a b c d. a ∷ b ∷ c ∷ d ∷ [])) first) second) third) fourth) }
{
    match first {
        Ok(a) => match second {
            Ok(b) => match (third, fourth) {
                (Ok(c), Ok(d)) => made_of_four(command, a, b, c, d),
                _ => Err(lesser(lesser(Fault::E03, third), fourth)),
            },
            Err(fault) => Err(lesser(lesser(fault, third), fourth)),
        },
        Err(fault) => Err(lesser(lesser(lesser(fault, second), third), fourth)),
    }
}

/// A fault, or that of another argument where it is less.
fn lesser(fault: Fault, value: Result<Value, Fault>) -> Fault
    ensures { result ≡ lesser_with fault value }
{
    match (fault, value) {
        (Fault::E03, Err(other)) => other,
        (_, Err(Fault::E01)) => Fault::E01,
        _ => fault,
    }
}
