ghost use Rattle.std.specs.Prelude.{◌≡◌, ℕ, List, None, Option};
ghost use Rattle.mst_ids.specs.declared.name.PortName.{PortName};
ghost use Rattle.mst_net.specs.tables.Tables.{Net, IsNetwork};
ghost use Rattle.mst_rows.specs.Rows.{Row};
ghost use Rattle.mst_questions.specs.Explaining.{Explains, unexplained_of};
ghost use Rattle.mst_questions.specs.Picturing.{Depicts, DepictsVlan};
ghost use Rattle.mst_questions.specs.Summarizing.{Summarizes};

use mst_advise::explain_laws::{one_explained, some_explained};
use mst_roles::forest_laws::has_outcome;

/// A port that isn't refused has rows that explain it, in the tree that is asked or in each of its bridge, and these alone: the
/// network settles it.
pub fn one_explanation()
    ensures some { (net : Net) (name : PortName) (tree : Option ℕ) → IsNetwork net → unexplained_of net name tree ≡ None → (rows : List Row) × Explains net name tree rows }
    ensures one { (net : Net) (name : PortName) (tree : Option ℕ) (rows other : List Row) → IsNetwork net → Explains net name tree rows → Explains net name tree other → rows ≡ other }
{
    has_outcome();
    one_explained();
    some_explained();
}

/// A network has one summary, which the network alone settles.
pub fn one_summary()
    ensures some { (net : Net) → IsNetwork net → (rows : List Row) × Summarizes net rows }
    ensures one { (net : Net) (rows other : List Row) → IsNetwork net → Summarizes net rows → Summarizes net other → rows ≡ other }
{
    has_outcome();
    mst_picture::summary_laws::one_summary();
}

/// A network has one picture with each tree, which the network alone settles.
pub fn one_picture()
    ensures some { (net : Net) (tree : ℕ) → IsNetwork net → (text : List ℕ) × Depicts net tree text }
    ensures one { (net : Net) (tree : ℕ) (text other : List ℕ) → IsNetwork net → Depicts net tree text → Depicts net tree other → text ≡ other }
{
    has_outcome();
    mst_picture::laws::one_picture();
}

/// A network has one picture with each VLAN, which the network alone settles.
pub fn one_vlan_picture()
    ensures some { (net : Net) (vid : ℕ) → IsNetwork net → (text : List ℕ) × DepictsVlan net vid text }
    ensures one { (net : Net) (vid : ℕ) (text other : List ℕ) → IsNetwork net → DepictsVlan net vid text → DepictsVlan net vid other → text ≡ other }
{
    has_outcome();
    mst_picture::laws::one_vlan_picture();
}
