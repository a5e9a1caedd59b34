//! Laws of explanations. Their functions do nothing: a caller has their clauses.
ghost use Rattle.std.specs.Prelude.{◌≡◌, ℕ, ◌==◌, ◌||◌, List, true};
ghost use Rattle.std.specs.List.{AllByRecursion, Contains};
ghost use Rattle.std.specs.declared.cmp.Ordering.TheVariants.{Less};
ghost use Rattle.mst_vector.specs.Cist.{cist_rules};
ghost use Rattle.mst_vector.specs.Msti.{msti_rules};
ghost use Rattle.mst_vector.specs.declared.cist.CistVector.{CistVector as Cist};
ghost use Rattle.mst_vector.specs.declared.cist.CistBridge.{CistBridge};
ghost use Rattle.mst_vector.specs.declared.msti.MstiBridge.{MstiBridge};
ghost use Rattle.mst_vector.specs.declared.msti.MstiVector.{MstiVector as Msti};
ghost use Rattle.mst_tables.specs.Tables.{Net, IsNetwork};
ghost use Rattle.mst_view.specs.View.{LogicalPort, view_ports};
ghost use Rattle.mst_roles.specs.forest.Outcome.{Outcome, IsOutcome};
ghost use Rattle.mst_roles.specs.forest.Cist.{cist_of};
ghost use Rattle.mst_roles.specs.forest.Msti.{msti_of, has_msti, is_internal};
ghost use Rattle.mst_roles.specs.Roles.{cist_role, msti_role};
ghost use Rattle.mst_rows.specs.Rows.{Row};
ghost use Rattle.mst_explain.specs.AsTold.{IsAsTold, TellsLowerFirst};
ghost use Rattle.mst_explain.specs.Contest.{IsDesignatedVectorOn, Gives};
ghost use Rattle.mst_explain.specs.Explained.{IsExplained, AreExplained};
ghost use Rattle.mst_explain.specs.Fields.{cist_fields, msti_fields, decided, TellsLower};

use mst_roles::forest_laws::one_outcome;

/// A port has one explanation in a tree, and one in any list of trees, whichever settled outcome it is made by.
pub fn one_explained()
    ensures one { (net : Net) (o q : Outcome) → IsNetwork net → IsOutcome net o → IsOutcome net q
        → (p : LogicalPort) (tree : ℕ) (rows other : List Row) → IsExplained net o tree p rows → IsExplained net q tree p other → rows ≡ other }
    ensures all { (net : Net) (o q : Outcome) → IsNetwork net → IsOutcome net o → IsOutcome net q
        → (p : LogicalPort) (trees : List ℕ) (rows other : List Row) → AreExplained net o p trees rows → AreExplained net q p trees other → rows ≡ other }
{
    one_outcome();
}

/// A port has an explanation in each tree that its bridge has, by each settled outcome: in the CIST, and in each MSTI of the
/// bridge. In any list of such trees it has one of each, one after another.
pub fn some_explained()
    ensures one { (net : Net) (o : Outcome) → IsNetwork net → IsOutcome net o → (p : LogicalPort) → Contains (view_ports net) p
        → (tree : ℕ) → (tree == 0 || has_msti net tree p.name.bridge) ≡ true → (rows : List Row) × IsExplained net o tree p rows }
    ensures all { (net : Net) (o : Outcome) → IsNetwork net → IsOutcome net o → (p : LogicalPort) → Contains (view_ports net) p
        → (trees : List ℕ) → AllByRecursion (λ tree. (tree == 0 || has_msti net tree p.name.bridge) ≡ true) trees → (rows : List Row) × AreExplained net o p trees rows }
{}

/// A row names the first component at which two vectors differ: the values before are equal, and there the lower vector has
/// the lower value.
pub fn decided_lower()
    ensures cist { (x y : Cist) → cist_rules.order x y ≡ Less → TellsLower (cist_fields x) (cist_fields y) (decided (cist_fields x) (cist_fields y)) }
    ensures msti { (x y : Msti) → msti_rules.order x y ≡ Less → TellsLower (msti_fields x) (msti_fields y) (decided (msti_fields x) (msti_fields y)) }
{}

/// In an explanation the vector that is first is lower than the one that it is told against, so the rows name the first
/// component at which they differ, with the lower value first: on each LAN, and at each bridge.
pub fn told_lower()
    ensures cist_lan { (net : Net) (o : Outcome) → IsNetwork net → IsOutcome net o → (lan : List ℕ) → TellsLowerFirst cist_rules cist_fields (IsDesignatedVectorOn cist_rules (cist_of net) o.cist.vector lan) }
    ensures cist_bridge { (net : Net) (o : Outcome) → IsNetwork net → IsOutcome net o → (name : List ℕ) (b : CistBridge) → TellsLowerFirst cist_rules cist_fields (Gives cist_rules (cist_of net) o.cist.vector name b) }
    ensures msti_lan { (net : Net) (o : Outcome) → IsNetwork net → IsOutcome net o → (tree : ℕ) (lan : List ℕ) → TellsLowerFirst msti_rules msti_fields (IsDesignatedVectorOn msti_rules (msti_of net tree o.cist.designated) (o.msti tree).vector lan) }
    ensures msti_bridge { (net : Net) (o : Outcome) → IsNetwork net → IsOutcome net o → (tree : ℕ) (name : List ℕ) (b : MstiBridge) → TellsLowerFirst msti_rules msti_fields (Gives msti_rules (msti_of net tree o.cist.designated) (o.msti tree).vector name b) }
{}

/// The role of an enabled port of a tree is the one that a reader finds in the explanation: Designated where it is the
/// designated port, Backup where another port of its bridge is, Root where it gives its bridge's root priority vector,
/// and else Alternate.
pub fn roles_as_told()
    ensures cist { (net : Net) (o : Outcome) → IsNetwork net → IsOutcome net o → (p : LogicalPort) → Contains (view_ports net) p → p.is_enabled ≡ true
        → IsAsTold cist_rules (cist_of net) o.cist p (cist_role net o p) }
    ensures msti { (net : Net) (o : Outcome) → IsNetwork net → IsOutcome net o → (p : LogicalPort) → Contains (view_ports net) p → p.is_enabled ≡ true
        → (tree : ℕ) → has_msti net tree p.name.bridge ≡ true → is_internal net o.cist.designated p ≡ true
        → IsAsTold msti_rules (msti_of net tree o.cist.designated) (o.msti tree) p (msti_role net o tree p) }
{}
