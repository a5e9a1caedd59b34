ghost use Rattle.std.specs.Prelude.{◌≡◌, ℕ, ◌∷◌, [], ◌<◌, length, MatchOption, slice_index, false};
ghost use Rattle.std.specs.Option.{option_map};
ghost use Rattle.std.specs.List.{list_all};
ghost use Rattle.mst_lang.specs.Words.{is_blank as blank_byte, is_plain as plain_byte, words, one_of, two_of, three_of, four_of};

fn is_blank(byte: u8) -> bool
    ensures { result ≡ blank_byte byte }
{
    byte == b' ' || byte == b'\t'
}

fn is_plain(byte: u8) -> bool
    ensures { result ≡ plain_byte byte }
{
    (b' '..=b'~').contains(&byte) || byte == b'\t'
}

/// Whether the bytes are those that a line may hold, comments aside: tabs and 20 to 7E hexadecimal.
pub fn are_plain(bytes: &[u8]) -> bool
    ensures { result ≡ list_all plain_byte bytes.now }
{
    bytes.iter().all(|byte| is_plain(*byte))
}

/// The first word of a text and what follows it, or nothing where the text has no word. Words have spaces and tabs
/// between.
pub fn next_word(text: &[u8]) -> Option<(&[u8], &[u8])>
    ensures { MatchOption result (words text.now ≡ []) (λ p. words text.now ≡ p.0.now ∷ words p.1.now) }
{
    let text = without_blanks(text);
    if text.is_empty() {
        return None;
    }
    Some(first_word(text))
}

/// What follows the blanks at the front.
fn without_blanks(text: &[u8]) -> &[u8]
    ensures same { words result.now ≡ words text.now }
    ensures begins { 0 < length result.now → blank_byte (slice_index result.now 0) ≡ false }
{
    for (i, byte) in text.iter().enumerate() {
        if !is_blank(*byte) {
            return &text[i..];
        }
    }
    &[]
}

/// The word at the front and what follows it.
fn first_word(text: &[u8]) -> (&[u8], &[u8])
    requires some { 0 < length text.now }
    requires begins { blank_byte (slice_index text.now 0) ≡ false }
    ensures { words text.now ≡ result.0.now ∷ words result.1.now }
{
    for (i, byte) in text.iter().enumerate() {
        if is_blank(*byte) {
            return text.split_at(i);
        }
    }
    (text, &[])
}

/// The word, if there is one and no more.
pub fn one_word(text: &[u8]) -> Option<&[u8]>
    ensures { option_map (λ w. w.now) result ≡ one_of (words text.now) }
{
    let (first, rest) = next_word(text)?;
    match next_word(rest) {
        Some(_) => None,
        None => Some(first),
    }
}

/// The two words, if there are two and no more.
pub fn two_words(text: &[u8]) -> Option<(&[u8], &[u8])>
    ensures { option_map (λ p. (p.0.now, p.1.now)) result ≡ two_of (words text.now) }
{
    let (first, rest) = next_word(text)?;
    Some((first, one_word(rest)?))
}

/// The three words, if there are three and no more.
pub fn three_words(text: &[u8]) -> Option<(&[u8], &[u8], &[u8])>
    ensures { option_map (λ p. (p.0.now, p.1.now, p.2.now)) result ≡ three_of (words text.now) }
{
    let (first, rest) = next_word(text)?;
    let (second, third) = two_words(rest)?;
    Some((first, second, third))
}

/// The four words, if there are four and no more.
pub fn four_words(text: &[u8]) -> Option<(&[u8], &[u8], &[u8], &[u8])>
    ensures { option_map (λ p. (p.0.now, p.1.now, p.2.now, p.3.now)) result ≡ four_of (words text.now) }
{
    let (first, rest) = next_word(text)?;
    let (second, third, fourth) = three_words(rest)?;
    Some((first, second, third, fourth))
}
