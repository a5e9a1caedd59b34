ghost use Rattle.std.specs.Prelude.{◌≡◌};
ghost use Rattle.mst_lang.specs.Arguments.{is_text};
ghost use Rattle.mst_hints.specs.Near.{closed_up, one_change, put_back, is_in_case as in_case, is_joined as joined, is_within_one as within_one, is_within_two as within_two, lower_case, two_changes};

/// Whether one word becomes the other by at most one change: a letter put in, left out, or exchanged with its
/// neighbour.
pub fn is_within_one(one: &[u8], other: &[u8]) -> bool
    ensures { result ≡ within_one one.now other.now }
{
    if is_one_change(one, other) {
        return true;
    }
    match (one, other) {
        ([a, one @ ..], [b, other @ ..]) => *a == *b && is_within_one(one, other),
        _ => false,
    }
}

/// Whether they are equal, or become so by one change at the front.
fn is_one_change(one: &[u8], other: &[u8]) -> bool
    ensures { result ≡ one_change is_text one.now other.now }
{
    if one == other {
        return true;
    }
    if let [_, one @ ..] = one {
        if one == other {
            return true;
        }
    }
    if let [_, other @ ..] = other {
        if one == other {
            return true;
        }
    }
    match (one, other) {
        ([a, b, one @ ..], [c, d, other @ ..]) => *a == *d && *b == *c && one == other,
        _ => false,
    }
}

/// Whether one word becomes the other by at most two changes, also of the same letters.
pub fn is_within_two(one: &[u8], other: &[u8]) -> bool
    ensures { result ≡ within_two one.now other.now }
{
    if are_two_changes(one, other) {
        return true;
    }
    match (one, other) {
        ([a, one @ ..], [b, other @ ..]) => *a == *b && is_within_two(one, other),
        _ => false,
    }
}

/// Whether at most two changes are left.
fn are_two_changes(one: &[u8], other: &[u8]) -> bool
    ensures { result ≡ two_changes one.now other.now }
{
    is_one_more(one, other)
        || (is_closed_up(one, other) || is_closed_up(other, one))
        || (is_put_back(one, other) || is_put_back(other, one))
}

/// Whether at most one change is left, as they are or after one at the front.
fn is_one_more(one: &[u8], other: &[u8]) -> bool
    ensures { result ≡ one_change within_one one.now other.now }
{
    if is_within_one(one, other) {
        return true;
    }
    if let [_, one @ ..] = one {
        if is_within_one(one, other) {
            return true;
        }
    }
    if let [_, other @ ..] = other {
        if is_within_one(one, other) {
            return true;
        }
    }
    match (one, other) {
        ([a, b, one @ ..], [c, d, other @ ..]) => *a == *d && *b == *c && is_within_one(one, other),
        _ => false,
    }
}

/// Whether of three letters the middle one is left out, and its neighbours are exchanged.
fn is_closed_up(one: &[u8], other: &[u8]) -> bool
    ensures { result ≡ closed_up one.now other.now }
{
    match (one, other) {
        ([a, _, b, one @ ..], [c, d, other @ ..]) => *a == *d && *b == *c && one == other,
        _ => false,
    }
}

/// Whether the first letter is exchanged with the second, and then with the third.
fn is_put_back(one: &[u8], other: &[u8]) -> bool
    ensures { result ≡ put_back one.now other.now }
{
    match (one, other) {
        ([a, b, c, one @ ..], [d, e, f, other @ ..]) => {
            *a == *f && *b == *d && *c == *e && one == other
        }
        _ => false,
    }
}

/// Whether the word is the command but for its case.
pub fn is_in_case(command: &[u8], word: &[u8]) -> bool
    ensures { result ≡ in_case command.now word.now }
{
    match command {
        [] => word.is_empty(),
        [a, command @ ..] => match word {
            [] => false,
            [b, word @ ..] => *a == lower(*b) && is_in_case(command, word),
        },
    }
}

/// The small letter for a capital one.
pub(crate) fn lower(byte: u8) -> u8
    ensures { result ≡ lower_case byte }
{
    if (b'A'..=b'Z').contains(&byte) {
        byte + 32
    } else {
        byte
    }
}

/// Whether the word and the one behind it are the command, written apart.
pub(crate) fn is_joined(command: &[u8], word: &[u8], behind: &[u8]) -> bool
    ensures { result ≡ joined command.now word.now behind.now }
{
    match word {
        [] => command == behind,
        [b, word @ ..] => match command {
            [] => false,
            [a, command @ ..] => *a == *b && is_joined(command, word, behind),
        },
    }
}
