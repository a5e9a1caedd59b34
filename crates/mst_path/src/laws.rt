//! Laws of paths, at names. Their functions do nothing: a caller has their clauses.
ghost use Rattle.std.specs.Prelude.{◌≡◌, ◌≢◌, ◌↔◌, ◌≤◌, ℕ, List, Option, length};
ghost use Rattle.std.specs.List.{Contains};
ghost use Rattle.std.specs.Cmp.Lexicographic.{slice_cmp};
ghost use Rattle.std.specs.declared.cmp.Ordering.TheVariants.{Greater};
ghost use Rattle.mst_graph.specs.Islands.{Island};
ghost use Rattle.mst_ids.specs.Names.{name_cmp};
ghost use Rattle.mst_tables.specs.Tables.{Net, IsNetwork};
ghost use Rattle.mst_view.specs.View.{IsUnrestricted, LogicalPort};
ghost use Rattle.mst_vlan.specs.forest.Outcome.{Outcome, IsOutcome};
ghost use Rattle.mst_vlan.specs.Reach.{AreIslandsOf, bridges_on};
ghost use Rattle.mst_path.specs.Paths.{Hop, IsPath, IsFirstPath, IsPathOf, HasBoth, carrying, ends_of};

use mst_vlan::roles_laws::joined_without_loop;

/// The paths of a VID between bridges that are on. There is one from a bridge to another exactly where one island has both, also where
/// roles are restricted. Where no logical port's role is restricted, two paths are equal.
pub fn paths()
    ensures some { (net : Net) (o : Outcome) (vid : ℕ) (islands : List (Island (List ℕ) (List ℕ))) → AreIslandsOf net o vid islands → (a b : List ℕ) → Contains (bridges_on net) a → Contains (bridges_on net) b → HasBoth islands a b ↔ ((hops : List Hop) × IsPath (carrying net o vid) a b hops) }
    ensures one { (net : Net) (o : Outcome) (vid : ℕ) → IsNetwork net → IsOutcome net o → IsUnrestricted net → (a b : List ℕ) (hops others : List Hop) → IsPath (carrying net o vid) a b hops → IsPath (carrying net o vid) a b others → hops ≡ others }
{
    joined_without_loop();
}

/// The first of several paths has the fewest hops, and of those with as many the names of its bridges come first: no other one's come before.
pub fn first_path()
    ensures fewest { (ports : List LogicalPort) (a b : List ℕ) (hops others : List Hop) → IsFirstPath ports a b hops → IsPath ports a b others → length hops ≤ length others }
    ensures names { (ports : List LogicalPort) (a b : List ℕ) (hops others : List Hop) → IsFirstPath ports a b hops → IsPath ports a b others → length hops ≡ length others → slice_cmp name_cmp (ends_of hops) (ends_of others) ≢ Greater }
{}

/// A network has one answer to what its path of a VID from one bridge to another is: the first of its paths, or that there is none.
pub fn one_path()
    ensures some { (net : Net) (o : Outcome) (vid : ℕ) (a b : List ℕ) → IsNetwork net → (path : Option (List Hop)) × IsPathOf net o vid a b path }
    ensures one { (net : Net) (o : Outcome) (vid : ℕ) (a b : List ℕ) (path other : Option (List Hop)) → IsNetwork net → IsPathOf net o vid a b path → IsPathOf net o vid a b other → path ≡ other }
{}
