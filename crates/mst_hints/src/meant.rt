ghost use Rattle.std.specs.Prelude.{◌≡◌, ◌<◌, ◌^◌, ◌++◌, ◌≤◌, not, length, count_by, filter, position, OnOk, IfSome};
ghost use Rattle.std.specs.Char.{is_ascii_digit};
ghost use Rattle.std.specs.List.{list_all};
ghost use Rattle.mst_hints.specs.Meant.{between as between_of, priority_meant as priority_of_word, is_mark as is_mark_byte, is_digit_or_mark as is_digit_or_mark_byte, is_spelled_mac as spelled_as_mac, paired_from, is_ending as is_ending_text, unit_size as size_of_unit, unit_of as unit_of_text, speed_of as speed_of_kbps, speed_meant as speed_of_word, meant_by as meant_by_word, meaning};

use crate::near::{is_in_case, lower};
use crate::right::priority;
use mst_ids::{parse_vids, push_bytes, push_decimal};
use mst_lang::{Argument, Version, parse_number};
use std::alloc::AllocError;

/// What a word was meant to be that isn't in the form of its argument.
#[derive(Clone, Copy)]
pub(crate) enum Meant {
    Number(u64),
    /// One of two numbers, the lesser first.
    Between(u64, u64),
    /// The word's digits in pairs, as a MAC address has them.
    Pairs,
    /// A list of VIDs, where one is taken.
    Vids,
}

impl Meant {
    /// Appends in words what the word was meant to be.
    pub(crate) fn push_text(&self, word: &[u8], out: &mut Vec<u8>) -> Result<(), AllocError>
        ensures { OnOk result (out.new.items ≡ out.old.items ++ meaning word.now self.now) }
    {
        match self {
            Meant::Number(number) => push_decimal(*number, out),
            Meant::Between(low, high) => {
                push_bytes(b"between ", out)?;
                push_decimal(*low, out)?;
                push_bytes(b" and ", out)?;
                push_decimal(*high, out)
            }
            Meant::Pairs => push_paired(0, word, out),
            Meant::Vids => push_bytes(b"a list of VIDs", out),
        }
    }
}

/// What a word was meant to be in the place of an argument, where that can be told.
pub(crate) fn meant_by(version: Version, argument: Argument, word: &[u8]) -> Option<Meant>
    ensures { result ≡ meant_by_word version argument word.now }
{
    match argument {
        Argument::BridgePriority => priority_meant(version, 4096, word),
        Argument::PortPriority => priority_meant(version, 16, word),
        Argument::MacAddress => is_spelled_mac(word).then_some(Meant::Pairs),
        Argument::PathCost => (word == b"auto".as_slice()).then_some(Meant::Number(0)),
        Argument::SpeedNumber => speed_meant(word),
        Argument::OneVid => parse_vids(word).is_ok().then_some(Meant::Vids),
        _ => None,
    }
}

/// The step that a priority of version 2 is in version 1, or the priorities of version 2 between which a number stands.
fn priority_meant(version: Version, step: u64, word: &[u8]) -> Option<Meant>
    requires some { 0 < step }
    requires few { step < 2 ^ 16 }
    ensures { result ≡ priority_of_word version step word.now }
{
    match version {
        Version::V1 => Some(Meant::Number(priority(step, word)?)),
        Version::V2 => between(step, parse_number(word)?),
    }
}

/// The two multiples of the step between which a number stands, of at most 15 steps.
fn between(step: u64, number: u64) -> Option<Meant>
    requires some { 0 < step }
    requires few { step < 2 ^ 16 }
    ensures { result ≡ between_of step number }
{
    if number < 15 * step {
        let low = number / step * step;
        Some(Meant::Between(low, low + step))
    } else {
        None
    }
}

// ---- a MAC address

/// Whether the word is twelve hexadecimal digits, with whatever of `:`, `-` and `.` between them.
fn is_spelled_mac(word: &[u8]) -> bool
    ensures { result ≡ spelled_as_mac word.now }
{
    digit_count(word) == 12 && are_digits_or_marks(word)
}

/// Whether it holds digits and marks alone.
fn are_digits_or_marks(word: &[u8]) -> bool
    ensures { result ≡ list_all is_digit_or_mark_byte word.now }
{
    word.iter().all(|byte| is_digit_or_mark(*byte))
}

fn is_digit_or_mark(byte: u8) -> bool
    ensures { result ≡ is_digit_or_mark_byte byte }
{
    is_mark(byte) || byte.is_ascii_hexdigit()
}

fn digit_count(word: &[u8]) -> usize
    ensures { result ≡ count_by (λ b. not (is_mark_byte b)) word.now }
{
    word.iter().filter(|byte| !is_mark(**byte)).count()
}

fn is_mark(byte: u8) -> bool
    ensures { result ≡ is_mark_byte byte }
{
    byte == b':' || byte == b'-' || byte == b'.'
}

/// Appends the word's digits in pairs, with `:` between two of these, where so many have come of the first pair.
fn push_paired(count: usize, word: &[u8], out: &mut Vec<u8>) -> Result<(), AllocError>
    requires { count ≤ 2 }
    ensures { OnOk result (out.new.items ≡ out.old.items ++ paired_from count (filter (λ b. not (is_mark_byte b)) word.now)) }
{
    match word {
        [] => Ok(()),
        [mark, word @ ..] if is_mark(*mark) => push_paired(count, word, out),
        [digit, word @ ..] => {
            if count == 2 {
                push_bytes(&[b':', *digit], out)?;
                push_paired(1, word, out)
            } else {
                push_bytes(&[*digit], out)?;
                push_paired(count + 1, word, out)
            }
        }
    }
}

// ---- a speed

/// The speed in kb/s that a number and a unit are, as 1G.
fn speed_meant(word: &[u8]) -> Option<Meant>
    ensures { result ≡ speed_of_word word.now }
{
    let end = digits_end(word)?;
    let number = parse_number(&word[..end])?;
    let unit = unit_of(&word[end..])?;
    speed_of(number.checked_mul(unit)?)
}

/// Where the first byte stands that is no digit.
fn digits_end(word: &[u8]) -> Option<usize>
    ensures value { result ≡ position (λ b. not (is_ascii_digit b)) word.now }
    ensures within { IfSome result (λ end. end < length word.now) }
{
    word.iter().position(|byte| !byte.is_ascii_digit())
}

fn speed_of(kbps: u64) -> Option<Meant>
    ensures { result ≡ speed_of_kbps kbps }
{
    (1 <= kbps && kbps <= 9_999_999_999).then_some(Meant::Number(kbps))
}

/// How many kb/s a unit is.
fn unit_of(text: &[u8]) -> Option<u64>
    ensures { result ≡ unit_of_text text.now }
{
    match text {
        [letter, ending @ ..] if is_ending(ending) => unit_size(lower(*letter)),
        _ => None,
    }
}

fn unit_size(letter: u8) -> Option<u64>
    ensures { result ≡ size_of_unit letter }
{
    match letter {
        b'k' => Some(1),
        b'm' => Some(1_000),
        b'g' => Some(1_000_000),
        _ => None,
    }
}

fn is_ending(text: &[u8]) -> bool
    ensures { result ≡ is_ending_text text.now }
{
    is_in_case(b"", text)
        || is_in_case(b"b", text)
        || is_in_case(b"bps", text)
        || is_in_case(b"b/s", text)
        || is_in_case(b"bit", text)
        || is_in_case(b"bit/s", text)
}
