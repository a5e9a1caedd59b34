ghost use Rattle.std.specs.Prelude.{◌≡◌, is_some, find};
ghost use Rattle.std.specs.Option.{option_map};
ghost use Rattle.mst_lang.specs.Forms.{command_of, form_of as form_of_command};
ghost use Rattle.mst_hints.specs.Hints.{command_where};
ghost use Rattle.mst_hints.specs.Near.{is_in_case as in_case, is_joined as joined, is_within_one as within_one, is_within_two as within_two};

use crate::near::{is_in_case, is_joined, is_within_one, is_within_two};
use mst_lang::{Argument, Form, forms};

/// The arguments of the command of this word.
pub(crate) fn form_of(word: &[u8]) -> Option<&'static [Argument]>
    ensures { option_map (λ form. form.now) result ≡ option_map form_of_command (command_of word.now) }
{
    match mst_lang::form_of(word) {
        Some(form) => Some(form.arguments),
        None => None,
    }
}

/// Whether the word is a command.
pub fn is_command(word: &[u8]) -> bool
    ensures { result ≡ is_some (command_of word.now) }
{
    form_of(word).is_some()
}

/// The first command that the word is but for its case.
pub(crate) fn command_in_case(word: &[u8]) -> Option<&'static [u8]>
    ensures { option_map (λ text. text.now) result ≡ command_where (λ text. in_case text word.now) }
{
    first_in_case(forms(), word)
}

fn first_in_case(forms: &'static [Form], word: &[u8]) -> Option<&'static [u8]>
    ensures { result ≡ option_map (λ form. form.word) (find (λ form. in_case form.word.now word.now) forms.now) }
{
    let form = forms.iter().find(|form| is_in_case(form.word, word))?;
    Some(form.word)
}

/// The first command that the word and the one behind it are, written apart.
pub(crate) fn command_joined(word: &[u8], behind: &[u8]) -> Option<&'static [u8]>
    ensures { option_map (λ text. text.now) result ≡ command_where (λ text. joined text word.now behind.now) }
{
    first_joined(forms(), word, behind)
}

fn first_joined(forms: &'static [Form], word: &[u8], behind: &[u8]) -> Option<&'static [u8]>
    ensures { result ≡ option_map (λ form. form.word) (find (λ form. joined form.word.now word.now behind.now) forms.now) }
{
    let form = forms
        .iter()
        .find(|form| is_joined(form.word, word, behind))?;
    Some(form.word)
}

/// The first command that is at most one change from the word.
pub(crate) fn command_by_one(word: &[u8]) -> Option<&'static [u8]>
    ensures { option_map (λ text. text.now) result ≡ command_where (λ text. within_one text word.now) }
{
    first_by_one(forms(), word)
}

fn first_by_one(forms: &'static [Form], word: &[u8]) -> Option<&'static [u8]>
    ensures { result ≡ option_map (λ form. form.word) (find (λ form. within_one form.word.now word.now) forms.now) }
{
    let form = forms.iter().find(|form| is_within_one(form.word, word))?;
    Some(form.word)
}

/// The first command that is at most two changes from the word.
pub(crate) fn command_by_two(word: &[u8]) -> Option<&'static [u8]>
    ensures { option_map (λ text. text.now) result ≡ command_where (λ text. within_two text word.now) }
{
    first_by_two(forms(), word)
}

fn first_by_two(forms: &'static [Form], word: &[u8]) -> Option<&'static [u8]>
    ensures { result ≡ option_map (λ form. form.word) (find (λ form. within_two form.word.now word.now) forms.now) }
{
    let form = forms.iter().find(|form| is_within_two(form.word, word))?;
    Some(form.word)
}
