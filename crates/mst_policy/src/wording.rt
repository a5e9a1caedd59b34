ghost use Rattle.std.specs.Prelude.{◌≡◌, ◌++◌, [], IfOk, OnOk};
ghost use Rattle.std.specs.List.{flat_map};
ghost use Rattle.mst_ids.specs.Words.{after_space};
ghost use Rattle.mst_lang.specs.Words.{words};
ghost use Rattle.mst_policy.specs.Lines.{spaced};

use mst_ids::{push_bytes, push_word};
use mst_lang::next_word;
use std::alloc::{AllocError, Global};
use std::marker::Model;

/// The words of a line, with one space between two of them.
#[derive(Drop)]
pub struct Wording {
    bytes: Vec<u8>,
}

impl Model for Wording {
    ghost use Rattle.std.specs.Prelude.{ℕ, List};

    ghost Value = { List ℕ };

    ghost view = { λ w. w.bytes.items };
}

impl Wording {
    /// No words.
    pub(crate) fn none(alloc: Global) -> Wording
        ensures { result ≡ [] }
    {
        Wording {
            bytes: Vec::new(alloc),
        }
    }

    /// The words of a text.
    pub(crate) fn of(alloc: Global, text: &[u8]) -> Result<Wording, AllocError>
        ensures { IfOk result (λ wording. wording ≡ spaced (words text.now)) }
    {
        let mut bytes = Vec::new(alloc);
        if let Some((word, others)) = next_word(text) {
            push_bytes(word, &mut bytes)?;
            push_words(others, &mut bytes)?;
        }
        Ok(Wording { bytes })
    }

    /// Their bytes.
    pub fn as_bytes(&self) -> &[u8]
        ensures { result.now ≡ self.now }
    {
        self.bytes.as_slice()
    }
}

/// Appends the words of a text, each after a space.
fn push_words(text: &[u8], out: &mut Vec<u8>) -> Result<(), AllocError>
    ensures { OnOk result (out.new.items ≡ out.old.items ++ flat_map after_space (words text.now)) }
{
    match next_word(text) {
        None => Ok(()),
        Some((word, others)) => {
            push_word(word, out)?;
            push_words(others, out)
        }
    }
}
