//! Laws of slips. Their functions do nothing: a caller has their clauses.
ghost use Rattle.std.specs.Prelude.{◌≡◌, ℕ, List, true};
ghost use Rattle.mst_slips.specs.Near.{are_one_letter_apart, DifferByOneLetter};

/// Two names are told to be one letter apart just where one letter, or none, stands in place of another, or of none.
pub fn one_letter_told()
    ensures sound { (a b : List ℕ) → are_one_letter_apart a b ≡ true → DifferByOneLetter a b }
    ensures complete { (a b : List ℕ) → DifferByOneLetter a b → are_one_letter_apart a b ≡ true }
{}
