ghost use Rattle.std.specs.Prelude.{◌≡◌, ◌++◌, ◌∷◌, [], true, Some, IfOk, OnOk, is_some, length, codes, decimal};
ghost use Rattle.mst_lang.specs.Forms.{command_of};
ghost use Rattle.mst_lang.specs.Words.{words};
ghost use Rattle.mst_hints.specs.Meant.{meaning};
ghost use Rattle.mst_hints.specs.Hints.{hint_of, hint_line, too_long, byte_text, is_pcap as pcap, is_utf16 as utf16, has_order_mark as order_mark, unknown_text as unknown_of, number_text, words_text, wrong_text, form_hint, command_hint, form_text as form_text_of, takes_text as takes_text_of, count_text as count_text_of, besides, word_is, pair_text, exchanged_text, right_text};

use crate::advice::push_advice;
use crate::form::form_of;
use crate::meant::{Meant, meant_by};
use crate::right::{exchanged, first_wrong};
use crate::unknown::push_unknown;
use crate::words::{are_plain, has_comment, next_word, word_count};
use mst_ids::{push_bytes, push_decimal, push_end, push_word};
use mst_lang::{Argument, Version};
use std::alloc::AllocError;

/// The most bytes that a line may have.
pub(crate) const LONGEST: usize = 4096;

/// Appends what would be right in a line that isn't read, as a line with the number of the line first, and before that what
/// tells its script from another one (`of`, as `old `, or nothing), and says whether there is such a hint: there is exactly
/// where the line isn't read in a script of this version. The line comes without its end. `AllocError`: memory was wanted and refused; part of the hint may have been appended.
pub fn push_hint(
    version: Version,
    of: &[u8],
    number: u64,
    line: &[u8],
    out: &mut Vec<u8>,
) -> Result<bool, AllocError>
    ensures hinted { IfOk result (λ there. there ≡ is_some (hint_of version line.now)) }
    ensures text { OnOk result (out.new.items ≡ out.old.items ++ hint_line of.now number (hint_of version line.now)) }
{
    if line.len() > LONGEST {
        return push_too_long(of, number, out);
    }
    let plain = are_plain(line);
    match next_word(line) {
        None => {
            if plain {
                Ok(false)
            } else {
                push_byte(of, number, line, out)
            }
        }
        Some(([b'#', ..], _)) => Ok(false),
        Some((word, arguments)) => {
            if plain {
                push_command_hint(version, of, number, word, arguments, out)
            } else {
                push_byte(of, number, line, out)
            }
        }
    }
}

/// Appends the hint of a line that holds a byte which no line may hold.
fn push_byte(of: &[u8], number: u64, line: &[u8], out: &mut Vec<u8>) -> Result<bool, AllocError>
    ensures hinted { IfOk result (λ there. there ≡ true) }
    ensures text { OnOk result (out.new.items ≡ out.old.items ++ hint_line of.now number (Some (byte_text line.now))) }
{
    push_text(of, number, byte_words(line), out)
}

/// What is told of such a line, by the bytes that it begins with.
#[tactic(auto, unfolding(crate::specs::Hints::bad_byte, crate::specs::Hints::order_mark_text, crate::specs::Hints::utf16_text, crate::specs::Hints::pcap_text))]
fn byte_words(line: &[u8]) -> &'static str
    ensures { result.now ≡ byte_text line.now }
{
    if has_order_mark(line) {
        "a byte order mark stands before the first word; a script has none"
    } else if is_utf16(line) {
        "this is UTF-16; a script is plain text of one byte a character"
    } else if is_pcap(line) {
        "this is a pcap file; tools/import/captures.py makes a script of it"
    } else {
        "a line has tabs and bytes of 20 to 7E hexadecimal alone"
    }
}

/// Whether it begins with a byte order mark.
pub fn has_order_mark(line: &[u8]) -> bool
    ensures { result ≡ order_mark line.now }
{
    line.starts_with(&[0xEF, 0xBB, 0xBF])
}

/// Whether it begins as a text in UTF-16 does, in either order of bytes.
pub fn is_utf16(line: &[u8]) -> bool
    ensures { result ≡ utf16 line.now }
{
    line.starts_with(&[0xFF, 0xFE]) || line.starts_with(&[0xFE, 0xFF])
}

/// Whether it begins as a pcap file does, of microseconds or nanoseconds, in either order of bytes.
fn is_pcap(line: &[u8]) -> bool
    ensures { result ≡ pcap line.now }
{
    line.starts_with(&[0xD4, 0xC3, 0xB2, 0xA1])
        || line.starts_with(&[0xA1, 0xB2, 0xC3, 0xD4])
        || line.starts_with(&[0x4D, 0x3C, 0xB2, 0xA1])
        || line.starts_with(&[0xA1, 0xB2, 0x3C, 0x4D])
}

/// Appends the hint of a line that is too long.
#[tactic(auto, unfolding(crate::specs::Hints::too_long))]
fn push_too_long(of: &[u8], number: u64, out: &mut Vec<u8>) -> Result<bool, AllocError>
    ensures hinted { IfOk result (λ there. there ≡ true) }
    ensures text { OnOk result (out.new.items ≡ out.old.items ++ hint_line of.now number (Some too_long)) }
{
    push_text(of, number, "a line has at most 4096 bytes", out)
}

/// Appends a hint that is this text, and says that there is one.
pub fn push_text(of: &[u8], number: u64, text: &str, out: &mut Vec<u8>) -> Result<bool, AllocError>
    ensures hinted { IfOk result (λ there. there ≡ true) }
    ensures text { OnOk result (out.new.items ≡ out.old.items ++ hint_line of.now number (Some text.now)) }
{
    push_start(of, number, out)?;
    push_bytes(text.as_bytes(), out)?;
    push_end(out)?;
    Ok(true)
}

/// Appends what a hint's line begins with.
pub fn push_start(of: &[u8], number: u64, out: &mut Vec<u8>) -> Result<(), AllocError>
    ensures { OnOk result (out.new.items ≡ out.old.items ++ of.now ++ codes "line " ++ decimal number ++ 32 ∷ []) }
{
    push_bytes(of, out)?;
    push_bytes(b"line ", out)?;
    push_decimal(number, out)?;
    push_bytes(b" ", out)
}

/// Appends the hint of a line of plain words, if there is one, and says whether there is.
fn push_command_hint(
    version: Version,
    of: &[u8],
    number: u64,
    word: &[u8],
    arguments: &[u8],
    out: &mut Vec<u8>,
) -> Result<bool, AllocError>
    ensures hinted { IfOk result (λ there. there ≡ is_some (command_hint version word.now (command_of word.now) (words arguments.now))) }
    ensures text { OnOk result (out.new.items ≡ out.old.items ++ hint_line of.now number (command_hint version word.now (command_of word.now) (words arguments.now))) }
{
    match form_of(word) {
        Some(form) => push_form_hint(version, of, number, word, form, arguments, out),
        None => push_unknown_hint(of, number, word, arguments, out),
    }
}

/// Appends the hint of a command's line, if there is one, and says whether there is.
fn push_form_hint(
    version: Version,
    of: &[u8],
    number: u64,
    word: &[u8],
    form: &[Argument],
    arguments: &[u8],
    out: &mut Vec<u8>,
) -> Result<bool, AllocError>
    ensures hinted { IfOk result (λ there. there ≡ is_some (form_hint version word.now form.now (words arguments.now))) }
    ensures text { OnOk result (out.new.items ≡ out.old.items ++ hint_line of.now number (form_hint version word.now form.now (words arguments.now))) }
{
    let count = word_count(arguments);
    if count != form.len() {
        push_start(of, number, out)?;
        push_words(word, form, arguments, count, out)?;
        push_end(out)?;
        return Ok(true);
    }
    match first_wrong(version, form, arguments) {
        None => Ok(false),
        Some((argument, wrong)) => {
            push_start(of, number, out)?;
            push_wrong(version, word, form, arguments, argument, wrong, out)?;
            push_end(out)?;
            Ok(true)
        }
    }
}

/// Appends the hint of a line whose first word is no command.
fn push_unknown_hint(
    of: &[u8],
    number: u64,
    word: &[u8],
    arguments: &[u8],
    out: &mut Vec<u8>,
) -> Result<bool, AllocError>
    ensures hinted { IfOk result (λ there. there ≡ true) }
    ensures text { OnOk result (out.new.items ≡ out.old.items ++ hint_line of.now number (Some (unknown_of word.now (words arguments.now)))) }
{
    push_start(of, number, out)?;
    push_unknown(word, arguments, out)?;
    push_end(out)?;
    Ok(true)
}

/// Appends what is said of a command with another number of words, or with a comment behind them.
#[tactic(auto, unfolding(crate::specs::Hints::comment_text))]
fn push_words(
    word: &[u8],
    form: &[Argument],
    arguments: &[u8],
    count: usize,
    out: &mut Vec<u8>,
) -> Result<(), AllocError>
    requires { count ≡ length (words arguments.now) }
    ensures { OnOk result (out.new.items ≡ out.old.items ++ words_text word.now form.now (words arguments.now)) }
{
    if has_comment(arguments) {
        push_bytes(b"a comment is a line of its own", out)
    } else {
        push_number(word, form, arguments, count, out)
    }
}

/// Appends what is said of a command with another number of words.
fn push_number(
    word: &[u8],
    form: &[Argument],
    arguments: &[u8],
    count: usize,
    out: &mut Vec<u8>,
) -> Result<(), AllocError>
    requires { count ≡ length (words arguments.now) }
    ensures { OnOk result (out.new.items ≡ out.old.items ++ number_text word.now form.now (words arguments.now)) }
{
    push_bytes(word, out)?;
    push_bytes(b" takes", out)?;
    push_taken(form, out)?;
    push_bytes(b"; ", out)?;
    push_count(count, out)?;
    push_advice(word, form, arguments, count, out)
}

fn push_taken(form: &[Argument], out: &mut Vec<u8>) -> Result<(), AllocError>
    ensures { OnOk result (out.new.items ≡ out.old.items ++ takes_text_of form.now) }
{
    if form.is_empty() {
        push_bytes(b" no words", out)
    } else {
        push_form(form, out)
    }
}

/// Appends how many words stand behind a first one. `AllocError`: memory was wanted and refused; part of the text may have been
/// appended, as with each function here.
pub fn push_count(count: usize, out: &mut Vec<u8>) -> Result<(), AllocError>
    ensures { OnOk result (out.new.items ≡ out.old.items ++ count_text_of count) }
{
    if count == 1 {
        push_bytes(b"1 word stands here", out)
    } else {
        push_decimal(count as u64, out)?;
        push_bytes(b" words stand here", out)
    }
}

/// Appends what is said of an argument that isn't in its form.
fn push_wrong(
    version: Version,
    word: &[u8],
    form: &[Argument],
    arguments: &[u8],
    argument: Argument,
    wrong: &[u8],
    out: &mut Vec<u8>,
) -> Result<(), AllocError>
    ensures { OnOk result (out.new.items ≡ out.old.items ++ wrong_text version word.now form.now (words arguments.now) (argument, wrong.now)) }
{
    push_bytes(word, out)?;
    push_form(form, out)?;
    push_bytes(b": ", out)?;
    push_bytes(argument.range(version).as_bytes(), out)?;
    push_right(version, form, arguments, argument, wrong, out)
}

/// Appends what the word was meant to be, or which words are to be exchanged, where that can be told.
fn push_right(
    version: Version,
    form: &[Argument],
    arguments: &[u8],
    argument: Argument,
    word: &[u8],
    out: &mut Vec<u8>,
) -> Result<(), AllocError>
    ensures { OnOk result (out.new.items ≡ out.old.items ++ besides (right_text version form.now (words arguments.now) (argument, word.now))) }
{
    match meant_by(version, argument, word) {
        Some(meant) => push_meant(word, meant, out),
        None => push_exchanged(version, form, arguments, out),
    }
}

/// Appends what the word was meant to be.
fn push_meant(word: &[u8], meant: Meant, out: &mut Vec<u8>) -> Result<(), AllocError>
    ensures { OnOk result (out.new.items ≡ out.old.items ++ besides (Some (word_is word.now (meaning word.now meant)))) }
{
    push_bytes(b"; ", out)?;
    push_bytes(word, out)?;
    push_bytes(b" is ", out)?;
    meant.push_text(word, out)
}

/// Appends which two words are to be exchanged, if that makes the line one that is read.
fn push_exchanged(
    version: Version,
    form: &[Argument],
    arguments: &[u8],
    out: &mut Vec<u8>,
) -> Result<(), AllocError>
    ensures { OnOk result (out.new.items ≡ out.old.items ++ besides (exchanged_text version form.now (words arguments.now))) }
{
    match exchanged(version, form, arguments) {
        Some((one, other)) => push_pair(one, other, out),
        None => Ok(()),
    }
}

/// Appends that two words are to be exchanged.
fn push_pair(one: &[u8], other: &[u8], out: &mut Vec<u8>) -> Result<(), AllocError>
    ensures { OnOk result (out.new.items ≡ out.old.items ++ besides (Some (pair_text (one.now, other.now)))) }
{
    push_bytes(b"; ", out)?;
    push_bytes(one, out)?;
    push_word(other, out)?;
    push_bytes(b" is ", out)?;
    push_bytes(other, out)?;
    push_word(one, out)
}

/// Appends the words of a form, each after a space.
fn push_form(form: &[Argument], out: &mut Vec<u8>) -> Result<(), AllocError>
    ensures { OnOk result (out.new.items ≡ out.old.items ++ form_text_of form.now) }
{
    for argument in form {
        push_word(argument.word().as_bytes(), out)?;
    }
    Ok(())
}
