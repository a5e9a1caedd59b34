//! Laws of policies. Their functions do nothing: a caller has their clauses.
ghost use Rattle.std.specs.Prelude.{◌≡◌, ℕ, List, [], ◌∷◌, true, Ok, codes};
ghost use Rattle.mst_policy.specs.Arguments.{names};
ghost use Rattle.mst_policy.specs.Items.{has};
ghost use Rattle.mst_policy.specs.declared.item.NameItem.TheVariants.{Any};

/// The list `*` has every name.
pub fn star_has_all()
    ensures read { names (codes "*") ≡ Ok (Any ∷ []) }
    ensures all { (name : List ℕ) → has (Any ∷ []) name ≡ true }
{}
