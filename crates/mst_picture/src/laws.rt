//! The laws of the pictures. Their functions do nothing: a caller has their clauses.
ghost use Rattle.std.specs.Prelude.{◌≡◌, ℕ, List};
ghost use Rattle.mst_tables.specs.Tables.{Net, IsNetwork};
ghost use Rattle.mst_roles.specs.forest.Outcome.{Outcome, IsOutcome};
ghost use Rattle.mst_picture.specs.Picture.{picture};
ghost use Rattle.mst_picture.specs.VlanPicture.{IsVlanPicture};

use mst_roles::forest_laws::one_outcome;
use mst_summary::vlan_laws::islands_of_vid;

/// A network has one picture with each tree, whichever settled outcome it is made by.
pub fn one_picture()
    ensures { (net : Net) (o q : Outcome) (tree : ℕ) → IsNetwork net → IsOutcome net o → IsOutcome net q → picture net o tree ≡ picture net q tree }
{
    one_outcome();
}

/// A network has a picture with each VLAN, one only, whichever settled outcome it is made by.
pub fn one_vlan_picture()
    ensures some { (net : Net) (o : Outcome) (vid : ℕ) → IsNetwork net → (text : List ℕ) × IsVlanPicture net o vid text }
    ensures one { (net : Net) (o q : Outcome) (vid : ℕ) (text other : List ℕ) → IsNetwork net → IsOutcome net o → IsOutcome net q → IsVlanPicture net o vid text → IsVlanPicture net q vid other → text ≡ other }
{
    one_outcome();
    islands_of_vid();
}
