ghost use Rattle.std.specs.Prelude.{◌≡◌, ◌++◌, ◌==◌, OnOk, map};
ghost use Rattle.std.specs.List.{list_any};
ghost use Rattle.std.specs.Option.{option_map};
ghost use Rattle.mst_lang.specs.Arguments.{is_text};
ghost use Rattle.mst_lang.specs.Words.{words};
ghost use Rattle.mst_policy.specs.Forms.{written};
ghost use Rattle.mst_policy_hints.specs.Hints.{first_wrong as first_wrong_of, form_of as form_of_words, form_text, forms_text, is_expectation as is_word_of_form, or_text, places_text};

use mst_ids::{push_bytes, push_word};
use mst_lang::next_word;
use mst_policy::{Argument, Form, forms, is_argument};
use std::alloc::AllocError;

/// The arguments of the form that a word and those behind it are of.
pub(crate) fn form_of(word: &[u8], arguments: &[u8]) -> Option<&'static [Argument]>
    ensures { option_map (λ form. form.now) result ≡ form_of_words word.now (words arguments.now) }
{
    match mst_policy::form_of(word, arguments) {
        Some(form) => Some(form.arguments),
        None => None,
    }
}

/// Whether a word is an expectation.
pub(crate) fn is_expectation(word: &[u8]) -> bool
    ensures { result ≡ is_word_of_form word.now }
{
    is_among(forms(), word)
}

fn is_among(forms: &'static [Form], word: &[u8]) -> bool
    ensures { result ≡ list_any (λ form. is_text form.word.now word.now) forms.now }
{
    forms.iter().any(|form| form.word == word)
}

/// The first argument that isn't in its form.
pub(crate) fn first_wrong(form: &[Argument], arguments: &[u8]) -> Option<Argument>
    ensures { result ≡ first_wrong_of form.now (words arguments.now) }
{
    match form {
        [] => None,
        [argument, form @ ..] => {
            let (word, others) = next_word(arguments)?;
            if is_argument(*argument, word) {
                first_wrong(form, others)
            } else {
                Some(*argument)
            }
        }
    }
}

/// Appends the words of a form, each after a space.
pub(crate) fn push_form(form: &[Argument], out: &mut Vec<u8>) -> Result<(), AllocError>
    ensures { OnOk result (out.new.items ≡ out.old.items ++ form_text form.now) }
{
    for argument in form {
        push_word(argument.word().as_bytes(), out)?;
    }
    Ok(())
}

/// Appends each of the forms of a word, the first of which is the first one, or a further one.
pub(crate) fn push_forms(
    word: &[u8],
    first: bool,
    forms: &[Form],
    out: &mut Vec<u8>,
) -> Result<(), AllocError>
    ensures { OnOk result (out.new.items ≡ out.old.items ++ forms_text word.now first (map written forms.now)) }
{
    match forms {
        [] => Ok(()),
        [form, forms @ ..] => {
            if form.word == word {
                push_or(first, out)?;
                push_places(form.arguments, out)?;
                push_forms(word, false, forms, out)
            } else {
                push_forms(word, first, forms, out)
            }
        }
    }
}

fn push_or(first: bool, out: &mut Vec<u8>) -> Result<(), AllocError>
    ensures { OnOk result (out.new.items ≡ out.old.items ++ or_text first) }
{
    if first {
        Ok(())
    } else {
        push_bytes(b", or", out)
    }
}

fn push_places(form: &[Argument], out: &mut Vec<u8>) -> Result<(), AllocError>
    ensures { OnOk result (out.new.items ≡ out.old.items ++ places_text form.now) }
{
    if form.is_empty() {
        push_bytes(b" no words", out)
    } else {
        push_form(form, out)
    }
}
