ghost use Rattle.std.specs.Prelude.{◌≡◌, ◌∷◌, [], ◌<◌, ◌≤◌, length, MatchOption, slice_index, false};
ghost use Rattle.std.specs.List.{list_all, list_any};
ghost use Rattle.mst_lang.specs.Arguments.{is_text};
ghost use Rattle.mst_lang.specs.Reading.{is_comment};
ghost use Rattle.mst_lang.specs.Words.{is_blank as blank_byte, is_plain as plain_byte, words};

fn is_blank(byte: u8) -> bool
    ensures { result ≡ blank_byte byte }
{
    byte == b' ' || byte == b'\t'
}

fn is_plain(byte: u8) -> bool
    ensures { result ≡ plain_byte byte }
{
    (b' '..=b'~').contains(&byte) || byte == b'\t'
}

/// Whether the bytes are those that a line may hold, comments aside.
pub(crate) fn are_plain(bytes: &[u8]) -> bool
    ensures { result ≡ list_all plain_byte bytes.now }
{
    bytes.iter().all(|byte| is_plain(*byte))
}

/// How many words there are.
pub fn word_count(text: &[u8]) -> usize
    ensures { result ≡ length (words text.now) }
{
    let mut count = 0;
    let mut rest = text;
    while let Some((_, others)) = next_word(rest) {
        count += 1;
        rest = others;
    }
    count
}

/// Whether some word begins a comment.
pub fn has_comment(text: &[u8]) -> bool
    ensures { result ≡ list_any is_comment (words text.now) }
{
    match next_word(text) {
        None => false,
        Some(([b'#', ..], _)) => true,
        Some((_, others)) => has_comment(others),
    }
}

/// Whether one of the words is this one.
pub(crate) fn has_word(text: &[u8], wanted: &[u8]) -> bool
    ensures { result ≡ list_any (is_text wanted.now) (words text.now) }
{
    match next_word(text) {
        None => false,
        Some((word, others)) => wanted == word || has_word(others, wanted),
    }
}

/// The first word and what follows it.
pub(crate) fn next_word(text: &[u8]) -> Option<(&[u8], &[u8])>
    ensures words { MatchOption result (words text.now ≡ []) (λ p. words text.now ≡ p.0.now ∷ words p.1.now) }
    ensures shorter { MatchOption result (words text.now ≡ []) (λ p. length p.1.now < length text.now) }
{
    let text = without_blanks(text);
    if text.is_empty() {
        return None;
    }
    Some(first_word(text))
}

/// What follows the blanks at the front.
fn without_blanks(text: &[u8]) -> &[u8]
    ensures same { words result.now ≡ words text.now }
    ensures begins { 0 < length result.now → blank_byte (slice_index result.now 0) ≡ false }
    ensures no_longer { length result.now ≤ length text.now }
{
    for (i, byte) in text.iter().enumerate() {
        if !is_blank(*byte) {
            return &text[i..];
        }
    }
    &[]
}

/// The word at the front and what follows it.
fn first_word(text: &[u8]) -> (&[u8], &[u8])
    requires some { 0 < length text.now }
    requires begins { blank_byte (slice_index text.now 0) ≡ false }
    ensures words { words text.now ≡ result.0.now ∷ words result.1.now }
    ensures shorter { length result.1.now < length text.now }
{
    for (i, byte) in text.iter().enumerate() {
        if is_blank(*byte) {
            return text.split_at(i);
        }
    }
    (text, &[])
}
