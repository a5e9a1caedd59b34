ghost use Rattle.std.specs.Prelude.{◌≡◌, ◌++◌, ◌∷◌, Some, OnOk};
ghost use Rattle.mst_hints.specs.Hints.{hint_line, too_long};
ghost use Rattle.mst_lang.specs.Words.{words};
ghost use Rattle.mst_policy.specs.Reading.{is_leaving as are_leaving};
ghost use Rattle.mst_policy_hints.specs.Hints.{after_hint, after_text, alone_text, behind_hint, behind_scope_hint, byte_text as byte_text_of, expected_hint, failing_text, finally_hint, finally_text, form_hint, form_of as form_of_words, formless_text, all_forms_text, has_form as has_form_of, hint_of, number_text, promise_hint, said_hint, scope_text, scoped_hint, words_text, wrong_text};

use crate::bytes::byte_text;
use crate::form::{first_wrong, form_of, is_expectation, push_form, push_forms};
use crate::risk::push_risk_hint;
use crate::unknown::{is_event, is_finally, is_risk, push_unknown};
use mst_hints::{has_comment, push_count, push_start, push_text, word_count};
use mst_ids::{push_bytes, push_end};
use mst_lang::{LONGEST, are_plain, next_word};
use mst_policy::{Argument, forms, is_argument};
use std::alloc::AllocError;

/// Appends what would be right in a line of a policy that isn't read, as a line with what says whose it is (`of`, as `policy `, or
/// nothing) and its number first, and nothing for a line that is read. The line comes without its end. `AllocError`: memory was
/// wanted and refused; part of the hint may have been appended.
pub fn push_hint(of: &[u8], number: u64, line: &[u8], out: &mut Vec<u8>) -> Result<(), AllocError>
    ensures { OnOk result (out.new.items ≡ out.old.items ++ hint_line of.now number (hint_of line.now)) }
{
    if line.len() > LONGEST {
        return push_too_long(of, number, out);
    }
    let plain = are_plain(line);
    match next_word(line) {
        None => {
            if plain {
                Ok(())
            } else {
                push_byte(of, number, line, out)
            }
        }
        Some(([b'#', ..], _)) => Ok(()),
        Some((word, others)) => {
            if plain {
                push_said_hint(of, number, line, word, others, out)
            } else {
                push_byte(of, number, line, out)
            }
        }
    }
}

/// Appends the hint of a line that holds a byte which no line may hold.
fn push_byte(of: &[u8], number: u64, line: &[u8], out: &mut Vec<u8>) -> Result<(), AllocError>
    ensures { OnOk result (out.new.items ≡ out.old.items ++ hint_line of.now number (Some (byte_text_of line.now))) }
{
    push_text(of, number, byte_text(line), out)?;
    Ok(())
}

/// Appends the hint of a line that is too long.
#[tactic(auto, unfolding(mst_hints::specs::Hints::too_long))]
fn push_too_long(of: &[u8], number: u64, out: &mut Vec<u8>) -> Result<(), AllocError>
    ensures { OnOk result (out.new.items ≡ out.old.items ++ hint_line of.now number (Some too_long)) }
{
    push_text(of, number, "a line has at most 4096 bytes", out)?;
    Ok(())
}

/// Appends the hint of a line of plain words, of which this is the first, if there is one.
fn push_said_hint(
    of: &[u8],
    number: u64,
    line: &[u8],
    word: &[u8],
    others: &[u8],
    out: &mut Vec<u8>,
) -> Result<(), AllocError>
    requires { words line.now ≡ word.now ∷ words others.now }
    ensures { OnOk result (out.new.items ≡ out.old.items ++ hint_line of.now number (said_hint word.now (words others.now))) }
{
    if is_risk(word) {
        push_risk_hint(of, number, others, out)
    } else {
        push_promise_hint(of, number, line, word, others, out)
    }
}

/// The same of a line that promises something.
fn push_promise_hint(
    of: &[u8],
    number: u64,
    line: &[u8],
    word: &[u8],
    others: &[u8],
    out: &mut Vec<u8>,
) -> Result<(), AllocError>
    requires { words line.now ≡ word.now ∷ words others.now }
    ensures { OnOk result (out.new.items ≡ out.old.items ++ hint_line of.now number (promise_hint word.now (words others.now))) }
{
    if is_finally(word) {
        push_finally_hint(of, number, others, out)
    } else {
        push_scoped_hint(of, number, line, word, others, out)
    }
}

/// Appends the hint of the words behind `finally`, if there is one.
fn push_finally_hint(
    of: &[u8],
    number: u64,
    text: &[u8],
    out: &mut Vec<u8>,
) -> Result<(), AllocError>
    ensures { OnOk result (out.new.items ≡ out.old.items ++ hint_line of.now number (finally_hint (words text.now))) }
{
    if is_leaving(text) {
        return push_alone(of, number, out);
    }
    match next_word(text) {
        Some((word, others)) => push_scoped_hint(of, number, text, word, others, out),
        None => push_finally(of, number, out),
    }
}

/// Appends that an expectation stands behind `finally`.
#[tactic(auto, unfolding(crate::specs::Hints::finally_text))]
fn push_finally(of: &[u8], number: u64, out: &mut Vec<u8>) -> Result<(), AllocError>
    ensures { OnOk result (out.new.items ≡ out.old.items ++ hint_line of.now number (Some finally_text)) }
{
    push_text(of, number, "finally has an expectation behind it", out)?;
    Ok(())
}

// ---- what stands by itself

/// Whether words are of what is meant to be cut.
fn is_leaving(text: &[u8]) -> bool
    ensures { result ≡ are_leaving (words text.now) }
{
    match next_word(text) {
        Some((word, _)) => word == b"leaves".as_slice(),
        None => false,
    }
}

/// Appends that neither a scope nor `finally` stands in front of what is meant to be cut.
#[tactic(auto, unfolding(crate::specs::Hints::alone_text))]
fn push_alone(of: &[u8], number: u64, out: &mut Vec<u8>) -> Result<(), AllocError>
    ensures { OnOk result (out.new.items ≡ out.old.items ++ hint_line of.now number (Some alone_text)) }
{
    push_text(
        of,
        number,
        "leaves stands by itself, without a scope or finally; it is judged in the last network",
        out,
    )?;
    Ok(())
}

/// Appends the hint of an expectation behind a scope, if there is one.
fn push_behind_scope(
    of: &[u8],
    number: u64,
    text: &[u8],
    out: &mut Vec<u8>,
) -> Result<(), AllocError>
    ensures { OnOk result (out.new.items ≡ out.old.items ++ hint_line of.now number (behind_scope_hint (words text.now))) }
{
    if is_leaving(text) {
        return push_alone(of, number, out);
    }
    push_expected_hint(of, number, text, out)
}

// ---- scopes

/// Appends the hint of an expectation, and of the scope that the first word says, if there is one.
fn push_scoped_hint(
    of: &[u8],
    number: u64,
    line: &[u8],
    word: &[u8],
    others: &[u8],
    out: &mut Vec<u8>,
) -> Result<(), AllocError>
    requires { words line.now ≡ word.now ∷ words others.now }
    ensures { OnOk result (out.new.items ≡ out.old.items ++ hint_line of.now number (scoped_hint word.now (words others.now))) }
{
    if word == b"after".as_slice() {
        push_after_hint(of, number, others, out)
    } else if word == b"always".as_slice() {
        push_behind_scope(of, number, others, out)
    } else {
        push_expected_hint(of, number, line, out)
    }
}

/// Appends the hint of the words behind `after`, if there is one.
fn push_after_hint(of: &[u8], number: u64, text: &[u8], out: &mut Vec<u8>) -> Result<(), AllocError>
    ensures { OnOk result (out.new.items ≡ out.old.items ++ hint_line of.now number (after_hint (words text.now))) }
{
    let Some((failing, behind)) = next_word(text) else {
        return push_after(of, number, out);
    };
    match next_word(behind) {
        Some((list, others)) if is_event(failing) => {
            push_behind_hint(of, number, failing, list, others, out)
        }
        _ => push_after(of, number, out),
    }
}

/// Appends what stands behind `after`.
#[tactic(auto, unfolding(crate::specs::Hints::after_text))]
fn push_after(of: &[u8], number: u64, out: &mut Vec<u8>) -> Result<(), AllocError>
    ensures { OnOk result (out.new.items ≡ out.old.items ++ hint_line of.now number (Some after_text)) }
{
    push_text(
        of,
        number,
        "after takes lan NAMES, bridge NAMES or risk NAMES, and an expectation behind it",
        out,
    )?;
    Ok(())
}

/// Appends the hint of what fails and of the expectation behind it, if there is one.
fn push_behind_hint(
    of: &[u8],
    number: u64,
    failing: &[u8],
    list: &[u8],
    others: &[u8],
    out: &mut Vec<u8>,
) -> Result<(), AllocError>
    ensures { OnOk result (out.new.items ≡ out.old.items ++ hint_line of.now number (behind_hint failing.now list.now (words others.now))) }
{
    if is_argument(Argument::Names, list) || !has_form(others) {
        push_behind_scope(of, number, others, out)
    } else {
        push_start(of, number, out)?;
        push_failing(failing, out)?;
        push_end(out)
    }
}

/// Whether words are of a form of an expectation that a scope may stand in front of.
fn has_form(text: &[u8]) -> bool
    ensures { result ≡ has_form_of (words text.now) }
{
    match next_word(text) {
        Some((word, arguments)) => !is_leaving(text) && form_of(word, arguments).is_some(),
        None => false,
    }
}

/// Appends what is said of a list of what fails.
fn push_failing(failing: &[u8], out: &mut Vec<u8>) -> Result<(), AllocError>
    ensures { OnOk result (out.new.items ≡ out.old.items ++ failing_text failing.now) }
{
    push_bytes(b"after ", out)?;
    push_bytes(failing, out)?;
    push_form(&[Argument::Names], out)?;
    push_bytes(b": ", out)?;
    push_bytes(Argument::Names.range().as_bytes(), out)
}

// ---- expectations

/// Appends the hint of an expectation, if there is one.
fn push_expected_hint(
    of: &[u8],
    number: u64,
    text: &[u8],
    out: &mut Vec<u8>,
) -> Result<(), AllocError>
    ensures { OnOk result (out.new.items ≡ out.old.items ++ hint_line of.now number (expected_hint (words text.now))) }
{
    match next_word(text) {
        Some((word, arguments)) => push_form_hint(of, number, word, arguments, out),
        None => push_scope(of, number, out),
    }
}

/// Appends that an expectation stands behind a scope.
#[tactic(auto, unfolding(crate::specs::Hints::scope_text))]
fn push_scope(of: &[u8], number: u64, out: &mut Vec<u8>) -> Result<(), AllocError>
    ensures { OnOk result (out.new.items ≡ out.old.items ++ hint_line of.now number (Some scope_text)) }
{
    push_text(of, number, "a scope has an expectation behind it", out)?;
    Ok(())
}

/// Appends the hint of an expectation that begins with this word, if there is one.
fn push_form_hint(
    of: &[u8],
    number: u64,
    word: &[u8],
    arguments: &[u8],
    out: &mut Vec<u8>,
) -> Result<(), AllocError>
    ensures { OnOk result (out.new.items ≡ out.old.items ++ hint_line of.now number (form_hint word.now (words arguments.now) (form_of_words word.now (words arguments.now)))) }
{
    match form_of(word, arguments) {
        None => push_formless_hint(of, number, word, arguments, out),
        Some(form) => push_wrong_hint(of, number, word, form, arguments, out),
    }
}

/// Appends the hint of words that are of no form.
fn push_formless_hint(
    of: &[u8],
    number: u64,
    word: &[u8],
    arguments: &[u8],
    out: &mut Vec<u8>,
) -> Result<(), AllocError>
    ensures { OnOk result (out.new.items ≡ out.old.items ++ hint_line of.now number (Some (formless_text word.now (words arguments.now)))) }
{
    push_start(of, number, out)?;
    push_formless(word, arguments, out)?;
    push_end(out)
}

fn push_formless(word: &[u8], arguments: &[u8], out: &mut Vec<u8>) -> Result<(), AllocError>
    ensures { OnOk result (out.new.items ≡ out.old.items ++ formless_text word.now (words arguments.now)) }
{
    if is_expectation(word) {
        push_words(word, arguments, out)
    } else {
        push_unknown(word, out)
    }
}

/// Appends what is said of an expectation with another number of words, or with a comment behind them.
#[tactic(auto, unfolding(mst_hints::specs::Hints::comment_text))]
fn push_words(word: &[u8], arguments: &[u8], out: &mut Vec<u8>) -> Result<(), AllocError>
    ensures { OnOk result (out.new.items ≡ out.old.items ++ words_text word.now (words arguments.now)) }
{
    if has_comment(arguments) {
        push_bytes(b"a comment is a line of its own", out)
    } else {
        push_number(word, arguments, out)
    }
}

/// Appends what is said of an expectation with another number of words.
fn push_number(word: &[u8], arguments: &[u8], out: &mut Vec<u8>) -> Result<(), AllocError>
    ensures { OnOk result (out.new.items ≡ out.old.items ++ number_text word.now (words arguments.now)) }
{
    push_bytes(word, out)?;
    push_bytes(b" takes", out)?;
    push_all_forms(word, out)?;
    push_bytes(b"; ", out)?;
    push_count(word_count(arguments), out)
}

/// Appends all forms of a word.
fn push_all_forms(word: &[u8], out: &mut Vec<u8>) -> Result<(), AllocError>
    ensures { OnOk result (out.new.items ≡ out.old.items ++ all_forms_text word.now) }
{
    push_forms(word, true, forms(), out)?;
    Ok(())
}

/// Appends the hint of words of a form, if one of them isn't in the form of its argument.
fn push_wrong_hint(
    of: &[u8],
    number: u64,
    word: &[u8],
    form: &[Argument],
    arguments: &[u8],
    out: &mut Vec<u8>,
) -> Result<(), AllocError>
    ensures { OnOk result (out.new.items ≡ out.old.items ++ hint_line of.now number (form_hint word.now (words arguments.now) (Some form.now))) }
{
    match first_wrong(form, arguments) {
        None => Ok(()),
        Some(argument) => {
            push_start(of, number, out)?;
            push_wrong(word, form, argument, out)?;
            push_end(out)
        }
    }
}

/// Appends what is said of an argument that isn't in its form.
fn push_wrong(
    word: &[u8],
    form: &[Argument],
    argument: Argument,
    out: &mut Vec<u8>,
) -> Result<(), AllocError>
    ensures { OnOk result (out.new.items ≡ out.old.items ++ wrong_text word.now form.now argument) }
{
    push_bytes(word, out)?;
    push_form(form, out)?;
    push_bytes(b": ", out)?;
    push_bytes(argument.range().as_bytes(), out)
}
