ghost use Rattle.std.specs.Prelude.{◌≡◌, ◌++◌, OnOk};
ghost use Rattle.mst_hints.specs.Hints.{besides};
ghost use Rattle.mst_policy_hints.specs.Hints.{is_event as is_event_word, is_failing as is_failing_word, is_finally as is_finally_word, is_risk as is_risk_word, said_risk, is_scope as is_scope_word, said_failing, is_script_word as is_script_word_of, said_nearest, said_of, said_scope, unknown_text};

use crate::near::nearest;
use mst_hints::{is_command, push_question, push_saying};
use mst_ids::push_bytes;
use std::alloc::AllocError;

/// Whether what fails is of this kind: `lan` or `bridge`.
pub(crate) fn is_failing(word: &[u8]) -> bool
    ensures { result ≡ is_failing_word word.now }
{
    word == b"lan".as_slice() || word == b"bridge".as_slice()
}

/// Whether a word is `risk`.
pub(crate) fn is_risk(word: &[u8]) -> bool
    ensures { result ≡ is_risk_word word.now }
{
    word == b"risk".as_slice()
}

/// Whether it may stand behind `after`: a kind of failures, or `risk`.
pub(crate) fn is_event(word: &[u8]) -> bool
    ensures { result ≡ is_event_word word.now }
{
    is_failing(word) || is_risk(word)
}

/// Appends what is said of a word that is no expectation.
pub(crate) fn push_unknown(word: &[u8], out: &mut Vec<u8>) -> Result<(), AllocError>
    ensures { OnOk result (out.new.items ≡ out.old.items ++ unknown_text word.now) }
{
    push_bytes(b"no expectation ", out)?;
    push_bytes(word, out)?;
    push_said(word, out)
}

fn is_scope(word: &[u8]) -> bool
    ensures { result ≡ is_scope_word word.now }
{
    word == b"after".as_slice() || word == b"always".as_slice()
}

/// Whether a word is `finally`.
pub(crate) fn is_finally(word: &[u8]) -> bool
    ensures { result ≡ is_finally_word word.now }
{
    word == b"finally".as_slice()
}

/// Appends what is said of it, if something is: `finally` comes first.
#[tactic(auto, unfolding(crate::specs::Hints::comes_first_text))]
fn push_said(word: &[u8], out: &mut Vec<u8>) -> Result<(), AllocError>
    ensures { OnOk result (out.new.items ≡ out.old.items ++ besides (said_of word.now)) }
{
    if is_finally(word) {
        push_saying(b"finally comes first", out)
    } else {
        push_said_risk(word, out)
    }
}

/// Appends that a line of a risk begins with that word, or what else is said of it.
#[tactic(auto, unfolding(crate::specs::Hints::nothing_before_text))]
fn push_said_risk(word: &[u8], out: &mut Vec<u8>) -> Result<(), AllocError>
    ensures { OnOk result (out.new.items ≡ out.old.items ++ besides (said_risk word.now)) }
{
    if is_risk(word) {
        push_saying(b"a line of a risk begins with risk", out)
    } else {
        push_said_scope(word, out)
    }
}

/// Appends that a scope is one too many, or what else is said of the word.
#[tactic(auto, unfolding(crate::specs::Hints::one_scope_text))]
fn push_said_scope(word: &[u8], out: &mut Vec<u8>) -> Result<(), AllocError>
    ensures { OnOk result (out.new.items ≡ out.old.items ++ besides (said_scope word.now)) }
{
    if is_scope(word) {
        push_saying(b"a line has one scope", out)
    } else {
        push_said_failing(word, out)
    }
}

/// Appends that a kind of failures stands behind `after`, or what else is said of the word.
fn push_said_failing(word: &[u8], out: &mut Vec<u8>) -> Result<(), AllocError>
    ensures { OnOk result (out.new.items ≡ out.old.items ++ besides (said_failing word.now)) }
{
    if is_failing(word) {
        push_bytes(b"; after ", out)?;
        push_bytes(word, out)?;
        push_bytes(b"?", out)
    } else {
        push_nearest(word, out)
    }
}

/// Whether a word is a command of scripts.
#[tactic(auto, unfolding(crate::specs::Hints::is_script_word))]
fn is_script_word(word: &[u8]) -> bool
    ensures { result ≡ is_script_word_of word.now }
{
    is_command(word)
}

/// Appends that a word is a command of scripts, or the word of a policy that is nearest to it, if there is one.
#[tactic(auto, unfolding(crate::specs::Hints::command_text))]
fn push_nearest(word: &[u8], out: &mut Vec<u8>) -> Result<(), AllocError>
    ensures { OnOk result (out.new.items ≡ out.old.items ++ besides (said_nearest word.now)) }
{
    if is_script_word(word) {
        return push_saying(b"that is a command of scripts", out);
    }
    match nearest(word) {
        Some(text) => push_question(text, out),
        None => Ok(()),
    }
}
