//! Laws of the edits between networks. Their functions do nothing: a caller has their clauses.
ghost use Rattle.std.specs.Prelude.{◌≡◌, ℕ, List, [], length};
ghost use Rattle.mst_lang.specs.Ranges.{IsName};
ghost use Rattle.mst_net.specs.tables.Tables.{Net, IsNetwork, IsTable};
ghost use Rattle.mst_edits.specs.Edits.{edits};
ghost use Rattle.mst_edits.specs.TableLines.{direct_moves, table_after, with_ways};

/// There is no edit from a network to itself.
pub fn none_where_equal()
    ensures { (net : Net) → IsNetwork net → edits net net ≡ [] }
{}

/// The lines of a table make the wanted table of the one before, those by way of tree 0 among them.
pub fn table_made()
    ensures { (bridge before after : List ℕ) → IsName bridge → length before ≡ 4094 → IsTable after → table_after before (with_ways bridge after before (direct_moves bridge before after)) ≡ after }
{}
