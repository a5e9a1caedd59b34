ghost use Rattle.std.specs.Prelude.{◌≡◌, ℕ, ◌==◌, ◌||◌, [], filter, map, nat_eq, length};
ghost use Rattle.std.specs.Char.{to_ascii_lowercase};
ghost use Rattle.std.specs.Cmp.Lexicographic.{pointwise};
ghost use Rattle.mst_view.specs.Aggregation.{same_name};
ghost use Rattle.mst_slips.specs.Near.{are_numbered, are_one_in_lower_case, are_one_letter_apart, are_near, is_letter};

use mst_ids::ConfName;

/// Whether two texts are one but for the case of ASCII letters.
fn is_one_in_lower_case(a: &[u8], b: &[u8]) -> bool
    ensures { result ≡ are_one_in_lower_case a.now b.now }
{
    a.eq_ignore_ascii_case(b)
}

/// Whether two texts differ by one letter: behind those that both begin with one is exchanged, or stands in only one of
/// them.
fn is_one_letter_apart(a: &[u8], b: &[u8]) -> bool
    ensures { result ≡ are_one_letter_apart a.now b.now }
{
    match a {
        [] => b.len() == 1,
        [x, xs @ ..] => match b {
            [] => xs.is_empty(),
            [y, ys @ ..] => {
                if x == y {
                    is_one_letter_apart(xs, ys)
                } else {
                    xs == ys || xs == b || a == ys
                }
            }
        },
    }
}

/// Whether a text has no letter.
fn has_no_letter(text: &[u8]) -> bool
    ensures { result ≡ same_name [] (filter is_letter text.now) }
{
    match text {
        [] => true,
        [x, xs @ ..] => x.is_ascii_digit() && has_no_letter(xs),
    }
}

/// Whether two texts are one without their digits.
fn is_numbered(a: &[u8], b: &[u8]) -> bool
    ensures { result ≡ are_numbered a.now b.now }
{
    match a {
        [] => has_no_letter(b),
        [x, xs @ ..] => {
            if x.is_ascii_digit() {
                return is_numbered(xs, b);
            }
            match b {
                [] => false,
                [y, ys @ ..] => {
                    if y.is_ascii_digit() {
                        is_numbered(a, ys)
                    } else {
                        x == y && is_numbered(xs, ys)
                    }
                }
            }
        }
    }
}

/// Whether two names of configurations are nearly one: they differ only by the case of letters, or by one letter, and not in digits alone.
pub(crate) fn is_near(a: &ConfName, b: &ConfName) -> bool
    ensures { result ≡ are_near a.now b.now }
{
    let (a, b) = (a.as_bytes(), b.as_bytes());
    !is_numbered(a, b) && (is_one_in_lower_case(a, b) || is_one_letter_apart(a, b))
}
