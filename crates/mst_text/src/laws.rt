//! Laws of the rows of a VID. Their functions do nothing: a caller has their clauses.
ghost use Rattle.std.specs.Prelude.{◌≡◌, ℕ, List};
ghost use Rattle.mst_tables.specs.Tables.{Net, IsNetwork};
ghost use Rattle.mst_vlan.specs.forest.Outcome.{Outcome};
ghost use Rattle.mst_rows.specs.Rows.{Row};
ghost use Rattle.mst_text.specs.VlanText.{AreBodyRows, AreVlanRows};

use mst_vlan::laws::islands_of_vid;

/// In each network a VID has rows, and a body under each heading.
pub fn has_rows()
    ensures body { (net : Net) (o : Outcome) (vid : ℕ) (runs : List (ℕ × ℕ)) → IsNetwork net → (body : List Row) × AreBodyRows net o vid runs body }
    ensures vlan { (net : Net) (o : Outcome) (vid : ℕ) → IsNetwork net → (rows : List Row) × AreVlanRows net o vid rows }
{
    islands_of_vid();
}

/// And it has them only.
pub fn one_rows()
    ensures body { (net : Net) (o : Outcome) (vid : ℕ) (runs : List (ℕ × ℕ)) (body other : List Row) → AreBodyRows net o vid runs body → AreBodyRows net o vid runs other → body ≡ other }
    ensures vlan { (net : Net) (o : Outcome) (vid : ℕ) (rows other : List Row) → AreVlanRows net o vid rows → AreVlanRows net o vid other → rows ≡ other }
{
    islands_of_vid();
}
