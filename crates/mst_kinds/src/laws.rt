//! Laws of the table. Their functions do nothing: a caller has their clauses.
ghost use Rattle.std.specs.Prelude.{◌≡◌, true};
ghost use Rattle.mst_kinds.specs.Words.{key_text};
ghost use Rattle.mst_kinds.specs.Shapes.{has_keys_once, keeps_all_words, shape_of};

use crate::key::Key;
use crate::kind::Kind;

/// Two keys have two names.
pub fn keys_differ()
    ensures { (k l : Key) → key_text k ≡ key_text l → k ≡ l }
{}

/// What a record says beside its values tells its kind; no name stands in it twice, and for a key for which words of the table stand no
/// value ever does.
pub fn kinds_differ()
    ensures shape { (k l : Kind) → shape_of k ≡ shape_of l → k ≡ l }
    ensures once { (k : Kind) → has_keys_once k ≡ true }
    ensures words { (k : Kind) → keeps_all_words k ≡ true }
{}
