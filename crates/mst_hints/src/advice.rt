ghost use Rattle.std.specs.Prelude.{◌≡◌, ◌<◌, ◌++◌, ◌==◌, ◌&&◌, ◌∷◌, Some, is_ok, length, position, OnOk, IfSome};
ghost use Rattle.std.specs.List.{list_any};
ghost use Rattle.std.specs.Option.{option_map};
ghost use Rattle.mst_lang.specs.Arguments.{name, port_number};
ghost use Rattle.mst_lang.specs.Words.{words};
ghost use Rattle.mst_hints.specs.Hints.{besides, halves as halves_of, is_list as is_list_argument, list_text, advice as advice_of, other_bridge, port_apart as port_text, word_is};

use crate::tools::saying_among;
use crate::unknown::push_saying;
use crate::words::next_word;
use mst_ids::{Name, PortNumber, push_bytes};
use mst_lang::{Argument, parse_number};
use std::alloc::AllocError;

/// Appends what else is said of a command with another number of words, if something is.
pub(crate) fn push_advice(
    word: &[u8],
    form: &[Argument],
    arguments: &[u8],
    count: usize,
    out: &mut Vec<u8>,
) -> Result<(), AllocError>
    requires { count ≡ length (words arguments.now) }
    ensures { OnOk result (out.new.items ≡ out.old.items ++ besides (advice_of word.now form.now (words arguments.now))) }
{
    if let Some((word, bridge, number)) = port_apart(form, arguments) {
        return push_port_apart(word, bridge, number, out);
    }
    if count > form.len() && has_list(form) {
        return push_list(out);
    }
    push_other_bridge(word, arguments, out)
}

// ---- a port in one word

/// The first argument, and what stands before and behind its colon, where it is a bridge and a port in the place of two
/// arguments.
fn port_apart<'a>(form: &[Argument], arguments: &'a [u8]) -> Option<(&'a [u8], &'a [u8], &'a [u8])>
    ensures { option_map (λ port. word_is port.0.now (port.1.now ++ 32 ∷ port.2.now)) result ≡ port_text form.now (words arguments.now) }
{
    match form {
        [Argument::BridgeName, Argument::PortNumber, ..] => {
            let (word, _) = next_word(arguments)?;
            let (bridge, number) = halves(word)?;
            are_right(bridge, number).then_some((word, bridge, number))
        }
        _ => None,
    }
}

/// What stands before the first colon of a word and what stands behind it.
fn halves(word: &[u8]) -> Option<(&[u8], &[u8])>
    ensures { option_map (λ halves. (halves.0.now, halves.1.now)) result ≡ halves_of word.now }
{
    let colon = first_colon(word)?;
    Some((&word[..colon], &word[colon + 1..]))
}

fn first_colon(word: &[u8]) -> Option<usize>
    ensures value { result ≡ position (λ b. b == 58) word.now }
    ensures within { IfSome result (λ colon. colon < length word.now) }
{
    word.iter().position(|byte| *byte == b':')
}

/// Whether they name a bridge and the number of a port.
fn are_right(bridge: &[u8], number: &[u8]) -> bool
    ensures { result ≡ is_ok (name bridge.now) && is_ok (port_number number.now) }
{
    Name::parse(bridge).is_ok() && is_port_number(number)
}

fn is_port_number(word: &[u8]) -> bool
    ensures { result ≡ is_ok (port_number word.now) }
{
    match parse_number(word) {
        Some(number) => PortNumber::new(number).is_some(),
        None => false,
    }
}

fn push_port_apart(
    word: &[u8],
    bridge: &[u8],
    number: &[u8],
    out: &mut Vec<u8>,
) -> Result<(), AllocError>
    ensures { OnOk result (out.new.items ≡ out.old.items ++ besides (Some (word_is word.now (bridge.now ++ 32 ∷ number.now)))) }
{
    push_bytes(b"; ", out)?;
    push_bytes(word, out)?;
    push_bytes(b" is ", out)?;
    push_bytes(bridge, out)?;
    push_bytes(b" ", out)?;
    push_bytes(number, out)
}

// ---- a list of VIDs

/// Whether an argument of a form is a list of VIDs.
fn has_list(form: &[Argument]) -> bool
    ensures { result ≡ list_any is_list_argument form.now }
{
    form.iter().any(|argument| is_list(*argument))
}

fn is_list(argument: Argument) -> bool
    ensures { result ≡ is_list_argument argument }
{
    matches!(argument, Argument::VidList | Argument::MemberList)
}

#[tactic(auto, unfolding(crate::specs::Hints::list_text))]
fn push_list(out: &mut Vec<u8>) -> Result<(), AllocError>
    ensures { OnOk result (out.new.items ≡ out.old.items ++ besides (Some list_text)) }
{
    push_saying(b"a list of VIDs is one word, as in 1-9,20", out)
}

// ---- another command of the name

/// Appends what the words behind `bridge` ask for in other tools, if one of them does.
fn push_other_bridge(word: &[u8], arguments: &[u8], out: &mut Vec<u8>) -> Result<(), AllocError>
    ensures { OnOk result (out.new.items ≡ out.old.items ++ besides (other_bridge word.now (words arguments.now))) }
{
    if word != b"bridge".as_slice() {
        return Ok(());
    }
    match saying_among(word, arguments) {
        Some(saying) => push_saying(saying, out),
        None => Ok(()),
    }
}
