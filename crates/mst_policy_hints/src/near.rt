ghost use Rattle.std.specs.Prelude.{◌≡◌, find};
ghost use Rattle.std.specs.Option.{option_map};
ghost use Rattle.mst_policy_hints.specs.Near.{by_changes as by_changes_of, expectation_near as expectation_near_to, is_near as is_near_to, front_near as front_near_to, nearest as nearest_of, word_near as word_near_to};

use mst_hints::{is_in_case, is_within_one, is_within_two};
use mst_policy::{Form, forms};

/// How near a word of a policy is to another word.
#[derive(Clone, Copy)]
pub(crate) enum Near {
    /// They differ at most in capital letters of the other one.
    InCase,
    /// They are at most one change from each other.
    ByOne,
    ByTwo,
}

fn is_near(near: Near, text: &[u8], word: &[u8]) -> bool
    ensures { result ≡ is_near_to near text.now word.now }
{
    match near {
        Near::InCase => is_in_case(text, word),
        Near::ByOne => is_within_one(text, word),
        Near::ByTwo => is_within_two(text, word),
    }
}

/// The word of a policy that is nearest to a word: it but for its case, or at most two changes from it.
#[tactic(auto, unfolding(crate::specs::Near::nearest))]
pub(crate) fn nearest(word: &[u8]) -> Option<&'static [u8]>
    ensures { option_map (λ text. text.now) result ≡ nearest_of word.now }
{
    match word_near(Near::InCase, word) {
        Some(text) => Some(text),
        None => by_changes(word),
    }
}

/// The word of a policy that is at most two changes from the word.
fn by_changes(word: &[u8]) -> Option<&'static [u8]>
    ensures { option_map (λ text. text.now) result ≡ by_changes_of word.now }
{
    match word_near(Near::ByOne, word) {
        Some(text) => Some(text),
        None => word_near(Near::ByTwo, word),
    }
}

/// The first word of a policy that is as near.
#[tactic(auto, unfolding(crate::specs::Near::word_near))]
fn word_near(near: Near, word: &[u8]) -> Option<&'static [u8]>
    ensures { option_map (λ text. text.now) result ≡ word_near_to near word.now }
{
    match expectation_near(near, word) {
        Some(text) => Some(text),
        None => front_near(near, word),
    }
}

/// The first expectation that is as near.
fn expectation_near(near: Near, word: &[u8]) -> Option<&'static [u8]>
    ensures { option_map (λ text. text.now) result ≡ expectation_near_to near word.now }
{
    first_near(forms(), near, word)
}

fn first_near(forms: &'static [Form], near: Near, word: &[u8]) -> Option<&'static [u8]>
    ensures { result ≡ option_map (λ form. form.word) (find (λ form. is_near_to near form.word.now word.now) forms.now) }
{
    let form = forms.iter().find(|form| is_near(near, form.word, word))?;
    Some(form.word)
}

/// The first word that stands before an expectation and is as near.
fn front_near(near: Near, word: &[u8]) -> Option<&'static [u8]>
    ensures { option_map (λ text. text.now) result ≡ front_near_to near word.now }
{
    if is_near(near, b"after", word) {
        Some(b"after")
    } else if is_near(near, b"always", word) {
        Some(b"always")
    } else if is_near(near, b"finally", word) {
        Some(b"finally")
    } else if is_near(near, b"risk", word) {
        Some(b"risk")
    } else {
        None
    }
}
