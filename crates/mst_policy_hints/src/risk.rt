ghost use Rattle.std.specs.Prelude.{◌≡◌, ◌++◌, OnOk, Some};
ghost use Rattle.std.specs.Option.{option_map};
ghost use Rattle.mst_hints.specs.Hints.{hint_line};
ghost use Rattle.mst_lang.specs.Words.{words};
ghost use Rattle.mst_policy_hints.specs.Hints.{risk_form_text, risk_hint, risk_parts_hint, risk_wrong, risk_wrong_text};

use crate::form::push_form;
use crate::unknown::is_failing;
use mst_hints::{has_comment, push_start};
use mst_ids::{push_bytes, push_end};
use mst_lang::{name, three_words};
use mst_policy::{Argument, is_argument};
use std::alloc::AllocError;

/// Appends the hint of the words behind `risk`, if there is one.
pub(crate) fn push_risk_hint(
    of: &[u8],
    number: u64,
    text: &[u8],
    out: &mut Vec<u8>,
) -> Result<(), AllocError>
    ensures { OnOk result (out.new.items ≡ out.old.items ++ hint_line of.now number (risk_hint (words text.now))) }
{
    let Some((word, kind, list)) = three_words(text) else {
        return push_risk_form(of, number, text, out);
    };
    if is_failing(kind) {
        push_parts_hint(of, number, word, kind, list, out)
    } else {
        push_risk_form(of, number, text, out)
    }
}

/// Appends the hint of words that aren't three, or name no kind of failures.
fn push_risk_form(of: &[u8], number: u64, text: &[u8], out: &mut Vec<u8>) -> Result<(), AllocError>
    ensures { OnOk result (out.new.items ≡ out.old.items ++ hint_line of.now number (Some (risk_form_text (words text.now)))) }
{
    push_start(of, number, out)?;
    push_form_of_risk(text, out)?;
    push_end(out)
}

/// Appends what `risk` takes, or that a comment is a line of its own.
#[tactic(auto, unfolding(crate::specs::Hints::risk_text, mst_hints::specs::Hints::comment_text))]
fn push_form_of_risk(text: &[u8], out: &mut Vec<u8>) -> Result<(), AllocError>
    ensures { OnOk result (out.new.items ≡ out.old.items ++ risk_form_text (words text.now)) }
{
    if has_comment(text) {
        push_bytes(b"a comment is a line of its own", out)
    } else {
        push_bytes(b"risk takes NAME lan NAMES or NAME bridge NAMES", out)
    }
}

/// Appends the hint of the name of a risk and of its list, if one of them isn't in its form.
fn push_parts_hint(
    of: &[u8],
    number: u64,
    word: &[u8],
    kind: &[u8],
    list: &[u8],
    out: &mut Vec<u8>,
) -> Result<(), AllocError>
    ensures { OnOk result (out.new.items ≡ out.old.items ++ hint_line of.now number (risk_parts_hint word.now kind.now list.now)) }
{
    match wrong_part(word, list) {
        None => Ok(()),
        Some(wrong) => {
            push_start(of, number, out)?;
            push_wrong(kind, wrong, out)?;
            push_end(out)
        }
    }
}

/// Which words are in the form of the first part that isn't: of the name of a risk, which comes first, or of its list.
#[tactic(auto, unfolding(crate::specs::Hints::risk_wrong, crate::specs::Hints::risk_name_text))]
fn wrong_part(word: &[u8], list: &[u8]) -> Option<&'static str>
    ensures { option_map (λ text. text.now) result ≡ risk_wrong word.now list.now }
{
    if name(word).is_err() {
        Some("NAME is 1 to 16 letters, digits, _, - and ., the first a letter or a digit")
    } else if is_argument(Argument::Names, list) {
        None
    } else {
        Some(Argument::Names.range())
    }
}

/// Appends the form of a line of a risk of this kind, and what is wrong in it.
fn push_wrong(kind: &[u8], wrong: &str, out: &mut Vec<u8>) -> Result<(), AllocError>
    ensures { OnOk result (out.new.items ≡ out.old.items ++ risk_wrong_text kind.now wrong.now) }
{
    push_bytes(b"risk NAME ", out)?;
    push_bytes(kind, out)?;
    push_form(&[Argument::Names], out)?;
    push_bytes(b": ", out)?;
    push_bytes(wrong.as_bytes(), out)
}
