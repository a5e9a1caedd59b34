ghost use Rattle.std.specs.Prelude.{◌≡◌, ◌++◌, ◌∷◌, [], OnOk, map};
ghost use Rattle.std.specs.List.{flat_map};
ghost use Rattle.mst_ids.specs.Words.{after_space, line};

use crate::text::push_bytes;
use std::alloc::AllocError;

/// Appends a line of words: one space between two of them, and LF. `AllocError`: memory was wanted and refused;
/// part of the line may have been appended.
pub fn push_line(words: &[&[u8]], out: &mut Vec<u8>) -> Result<(), AllocError>
    ensures { OnOk result (out.new.items ≡ out.old.items ++ line (map (λ word. word.now) words.now)) }
{
    if let [first, rest @ ..] = words {
        push_bytes(*first, out)?;
        push_words(rest, out)?;
    }
    push_end(out)
}

/// Appends each word after a space. `AllocError`: memory was wanted and refused; some of them may have been
/// appended.
pub fn push_words(words: &[&[u8]], out: &mut Vec<u8>) -> Result<(), AllocError>
    ensures { OnOk result (out.new.items ≡ out.old.items ++ flat_map after_space (map (λ word. word.now) words.now)) }
{
    for word in words {
        push_word(*word, out)?;
    }
    Ok(())
}

/// Appends a word after a space. `AllocError`: memory was wanted and refused; the space may have been appended.
pub fn push_word(word: &[u8], out: &mut Vec<u8>) -> Result<(), AllocError>
    ensures { OnOk result (out.new.items ≡ out.old.items ++ after_space word.now) }
{
    push_bytes(b" ", out)?;
    push_bytes(word, out)
}

/// Appends the end of a line.
pub fn push_end(out: &mut Vec<u8>) -> Result<(), AllocError>
    ensures { OnOk result (out.new.items ≡ out.old.items ++ 10 ∷ []) }
{
    push_bytes(b"\n", out)
}
