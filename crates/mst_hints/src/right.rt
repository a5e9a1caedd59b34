ghost use Rattle.std.specs.Prelude.{◌≡◌, ◌<◌, ◌∷◌};
ghost use Rattle.std.specs.Result.{result_ok};
ghost use Rattle.std.specs.Option.{option_map};
ghost use Rattle.mst_lang.specs.Arguments as forms;
ghost use Rattle.mst_lang.specs.Words.{words};
ghost use Rattle.mst_hints.specs.Hints.{are_numbers as are_numbers_of, exchanged as exchanged_of, first_wrong as first_wrong_of, reads_exchanged as reads_exchanged_of};

use crate::words::next_word;
use mst_lang::{Argument, Version, is_argument, parse_number};

/// The first argument that isn't in its form, and the word that stands there.
#[tactic(auto, using(crate::proofs::Wrong::none_left))]
pub(crate) fn first_wrong<'a>(
    version: Version,
    form: &[Argument],
    arguments: &'a [u8],
) -> Option<(Argument, &'a [u8])>
    ensures { option_map (λ p. (p.0, p.1.now)) result ≡ first_wrong_of version form.now (words arguments.now) }
{
    let mut rest = arguments;
    for argument in form {
        let Some((word, others)) = next_word(rest) else {
            return None;
        };
        if !is_argument(version, *argument, word) {
            return Some((*argument, word));
        }
        rest = others;
    }
    None
}

/// The first two neighbours among the words that are to be exchanged, so that each is in the form of its argument.
pub(crate) fn exchanged<'a>(
    version: Version,
    form: &[Argument],
    arguments: &'a [u8],
) -> Option<(&'a [u8], &'a [u8])>
    ensures { option_map (λ p. (p.0.now, p.1.now)) result ≡ exchanged_of version form.now (words arguments.now) }
{
    match form {
        [] => None,
        [argument, behind @ ..] => {
            let (one, others) = next_word(arguments)?;
            let (other, rest) = next_word(others)?;
            if reads_exchanged(version, form, one, other, rest) {
                Some((one, other))
            } else if is_argument(version, *argument, one) {
                exchanged(version, behind, others)
            } else {
                None
            }
        }
    }
}

/// Whether each word is in the form of its argument where the first two are exchanged, which aren't both numbers.
fn reads_exchanged(
    version: Version,
    form: &[Argument],
    one: &[u8],
    other: &[u8],
    rest: &[u8],
) -> bool
    ensures { result ≡ reads_exchanged_of version form.now (one.now ∷ other.now ∷ words rest.now) }
{
    match form {
        [first, second, form @ ..] => {
            !are_numbers(one, other)
                && is_argument(version, *first, other)
                && is_argument(version, *second, one)
                && first_wrong(version, form, rest).is_none()
        }
        _ => false,
    }
}

fn are_numbers(one: &[u8], other: &[u8]) -> bool
    ensures { result ≡ are_numbers_of one.now other.now }
{
    parse_number(one).is_some() && parse_number(other).is_some()
}

/// How many steps, 15 at most, a number is that is a multiple of a step.
pub(crate) fn priority(step: u64, word: &[u8]) -> Option<u64>
    requires { 0 < step }
    ensures { result ≡ result_ok (forms.priority step word.now) }
{
    let number = parse_number(word)?;
    if number % step == 0 && number / step <= 15 {
        Some(number / step)
    } else {
        None
    }
}
