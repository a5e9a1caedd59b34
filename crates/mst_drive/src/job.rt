ghost use Rattle.std.specs.Prelude.{◌≡◌, ◌+◌, ◌<◌, ◌^◌, ◌∷◌, ◌++◌, [], ℕ, List, IfOk, IsErr};

use crate::said::Says;
use std::alloc::AllocError;

/// What is done with the lines of an input: of each it says what is printed, and at last of the end.
pub trait Job {
    /// What it says of a line, and of the end.
    type Said: Says + Drop;

    /// The line of this number may come, or the end. Lines count from 1.
    ghost awaits: { Self → ℕ → Type 0 };

    /// What these lines print, the first of this number, and what the job is after them.
    ghost tells: { Self → ℕ → List (List ℕ) → List ℕ → Self → Type 0 };

    /// What the end prints, where the next line would have this number, and what the job is then.
    ghost ends: { Self → ℕ → List ℕ → Self → Type 0 };

    /// Want of memory may stop the job at the end.
    ghost lacks: { Type 0 };

    /// Takes a line, which comes without its end.
    fn take(&mut self, number: u64, line: &[u8]) -> Self::Said
        requires awaits { awaits self.old number }
        requires few { number < 2 ^ 60 }
        ensures awaits { awaits self.new (number + 1) }
        ensures tells { (others : List (List ℕ)) (more : List ℕ) (after : Self) → tells self.new (number + 1) others more after → tells self.old number (line.now ∷ others) (Self.Said.text result ++ more) after };

    /// Takes the end. `AllocError`: memory was wanted and refused.
    fn end(&mut self, number: u64) -> Result<Self::Said, AllocError>
        requires awaits { awaits self.old number }
        requires few { number < 2 ^ 60 }
        ensures ends { IfOk result (λ said. ends self.old number (Self.Said.text said) self.new) }
        ensures lacks { IsErr result → lacks };

    /// A law: whatever lines come, there is something that they print. It does nothing.
    fn goes_on(&self, number: u64)
        requires { awaits self.now number }
        ensures nothing { tells self.now number [] [] self.now }
        ensures some { (lines : List (List ℕ)) → (text : List ℕ) × (after : Self) × tells self.now number lines text after };
}
