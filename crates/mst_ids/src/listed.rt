ghost use Rattle.std.specs.Prelude.{◌≡◌, ◌++◌, OnOk, map, decimal};
ghost use Rattle.std.specs.List.{flat_map};
ghost use Rattle.mst_ids.specs.Words.{after_space, after_comma, comma_list, listed, port_text};

use crate::name::{Name, PortName};
use crate::number::Tree;
use crate::text::push_bytes;
use std::alloc::AllocError;

/// What is written as one word.
pub trait Word {
    ghost use Rattle.std.specs.Prelude.{List, ℕ};

    /// The word.
    ghost word: { Self → List ℕ };

    /// Appends the word. `AllocError`: memory was wanted and refused; part of the word may have been appended.
    fn push(&self, out: &mut Vec<u8>) -> Result<(), AllocError>
        ensures { OnOk result (out.new.items ≡ out.old.items ++ word self.now) };
}

impl Word for &[u8] {
    ghost word = { λ text. text.now };

    fn push(&self, out: &mut Vec<u8>) -> Result<(), AllocError> {
        push_bytes(self, out)
    }
}

impl Word for Name {
    ghost use Rattle.std.specs.Prelude.{List, ℕ};

    ghost word = { λ name. name };

    fn push(&self, out: &mut Vec<u8>) -> Result<(), AllocError> {
        self.push_text(out)
    }
}

impl Word for PortName {
    ghost word = { port_text };

    fn push(&self, out: &mut Vec<u8>) -> Result<(), AllocError> {
        self.push_text(out)
    }
}

impl Word for Tree {
    ghost word = { decimal };

    fn push(&self, out: &mut Vec<u8>) -> Result<(), AllocError> {
        self.push_text(out)
    }
}

/// Appends each word after a space, or `-` after one where there is none. `AllocError`: memory was wanted and
/// refused; some of them may have been appended.
pub fn push_listed<W: Word>(words: &[W], out: &mut Vec<u8>) -> Result<(), AllocError>
    ensures { OnOk result (out.new.items ≡ out.old.items ++ flat_map after_space (listed (map W.word words.now))) }
{
    if words.is_empty() {
        return push_bytes(b" -", out);
    }
    for word in words {
        push_bytes(b" ", out)?;
        word.push(out)?;
    }
    Ok(())
}

/// Appends each word after a `,`.
fn push_after_commas<W: Word>(words: &[W], out: &mut Vec<u8>) -> Result<(), AllocError>
    ensures { OnOk result (out.new.items ≡ out.old.items ++ flat_map after_comma (map W.word words.now)) }
{
    for word in words {
        push_bytes(b",", out)?;
        word.push(out)?;
    }
    Ok(())
}

/// Appends the words with `,` between two of them, or `-` where there is none. `AllocError`: memory was wanted and
/// refused; some of them may have been appended.
pub fn push_comma_list<W: Word>(words: &[W], out: &mut Vec<u8>) -> Result<(), AllocError>
    ensures { OnOk result (out.new.items ≡ out.old.items ++ comma_list (map W.word words.now)) }
{
    match words {
        [] => push_bytes(b"-", out),
        [first, others @ ..] => {
            first.push(out)?;
            push_after_commas(others, out)
        }
    }
}
