//! Laws of the active topology of a VID, of its islands and of the parts of regions, at names. Their functions do
//! nothing: a caller has their clauses. With a port whose role is restricted the active ports may leave apart what is
//! enabled, and may make a loop; the laws that need it ask that there is none (`IsUnrestricted`).
ghost use Rattle.std.specs.Prelude.{◌≡◌, ◌⊎◌, ◌↔◌, ℕ, suc, true, List, Some};
ghost use Rattle.mst_ids.specs.declared.name.PortName.{PortName as PortKey};
ghost use Rattle.mst_vector.specs.declared.cist.CistBridge.{CistBridge};
ghost use Rattle.mst_vector.specs.declared.cist.CistPort.{CistPort};
ghost use Rattle.mst_vector.specs.declared.cist.CistVector.{CistVector};
ghost use Rattle.mst_vector.specs.declared.msti.MstiVector.{MstiVector};
ghost use Rattle.mst_roles.specs.forest.topology.Topology.{TreePort, HasBridge};
ghost use Rattle.mst_graph.specs.Islands.{Island};
ghost use Rattle.mst_graph.specs.Joined.{HasNoLoop};
ghost use Rattle.mst_graph.specs.Walks.{Node, Walk, bridge_at, lan_at};
ghost use Rattle.mst_roles.specs.forest.nested.Exits.{IsCrossing, IsExit, HoldsRoot, HasOneExit};
ghost use Rattle.mst_roles.specs.forest.nested.Parts.{SameRoots, HasRoot, HasRegionalRoot, HasMstiRoot};
ghost use Rattle.mst_roles.specs.forest.nested.Ports.{port_ends as plug_ends};
ghost use Rattle.mst_roles.specs.forest.nested.Roles.{Forwards, ForwardsInside};
ghost use Rattle.mst_roles.specs.forest.nested.Trees.{SamePart, SameRegion, HasTree};
ghost use Rattle.mst_tables.specs.Tables.{Net, IsNetwork};
ghost use Rattle.mst_tables.specs.ByTree.{by_tree};
ghost use Rattle.mst_view.specs.View.{LogicalPort, IsUnrestricted};
ghost use Rattle.mst_roles.specs.forest.Cist.{cist_of, cist_port};
ghost use Rattle.mst_roles.specs.forest.Sight.{tree_port};
ghost use Rattle.mst_roles.specs.forest.Outcome.{Outcome, IsOutcome, trees_of};
ghost use Rattle.mst_roles.specs.Roles.{role_in, forwards};
ghost use Rattle.mst_roles.specs.declared.kind.Role.{Role as RoleOf};
ghost use Rattle.mst_roles.specs.Active.{IsEnabled};
ghost use Rattle.mst_vlan.specs.Reach.{AreIslandsOf};

use mst_ids::{Name, PortName};
use mst_roles::forest_laws::nested;
use mst_roles::laws::forwarding;
use mst_roles::nested_laws as laws;

/// A network has a list of the islands of a VID, one only.
pub fn islands_of_vid()
    ensures some { (net : Net) (o : Outcome) (vid : ℕ) → IsNetwork net → (islands : List (Island (List ℕ) (List ℕ))) × AreIslandsOf net o vid islands }
    ensures one { (net : Net) (o : Outcome) (vid : ℕ) (islands others : List (Island (List ℕ) (List ℕ))) → AreIslandsOf net o vid islands → AreIslandsOf net o vid others → islands ≡ others }
{}

/// The parts of regions in the CIST of a network: a bridge or LAN is in one, the LAN of an enabled port is in that of
/// a bridge, the bridges of one are of one region and name one root, external root path cost and regional root, and the
/// regional root is in the part, with internal root path costs that are those of cheapest walks from it.
pub fn parts()
    ensures one { (net : Net) (o : Outcome) (x y z : Node (List ℕ) (List ℕ)) → SamePart (trees_of net o) x y → SamePart (trees_of net o) x z → SamePart (trees_of net o) y z }
    ensures lans { (net : Net) (o : Outcome) → IsNetwork net → IsOutcome net o → (p : LogicalPort) → IsEnabled net p → (n : List ℕ) × (b : CistBridge) × HasBridge (cist_of net) n b × SamePart (trees_of net o) (lan_at p.lan) (bridge_at n) }
    ensures regions { (net : Net) (o : Outcome) → IsNetwork net → IsOutcome net o → (n k : List ℕ) (b : CistBridge) → HasBridge (cist_of net) n b → SamePart (trees_of net o) (bridge_at n) (bridge_at k) → SameRegion (trees_of net o) n k }
    ensures values { (net : Net) (o : Outcome) → IsNetwork net → IsOutcome net o → IsUnrestricted net → (n k : List ℕ) (x y : CistVector) → o.cist.vector n ≡ Some x → o.cist.vector k ≡ Some y → SamePart (trees_of net o) (bridge_at n) (bridge_at k) → SameRoots x y }
    ensures regional { (net : Net) (o : Outcome) → IsNetwork net → IsOutcome net o → IsUnrestricted net → (n : List ℕ) (x : CistVector) → o.cist.vector n ≡ Some x → HasRegionalRoot (trees_of net o) n x }
{
    nested();
    laws::parts::<Name, Name, PortName>();
    laws::roots::<Name, Name, PortName>();
}

/// The roots that a network's settled outcome names, where no logical port's role is restricted: the root of the CIST has
/// the least identifier of all bridges that enabled ports link to the one that names it; the regional root in an MSTI has
/// the least in that tree of the part's bridges, and internal root path costs are those of cheapest walks from it.
pub fn roots()
    ensures cist { (net : Net) (o : Outcome) → IsNetwork net → IsOutcome net o → IsUnrestricted net → (n : List ℕ) (x : CistVector) → o.cist.vector n ≡ Some x → HasRoot (trees_of net o) n x }
    ensures msti { (net : Net) (o : Outcome) → IsNetwork net → IsOutcome net o → IsUnrestricted net → (tree : ℕ) (n : List ℕ) (x : MstiVector) → (o.msti (suc tree)).vector n ≡ Some x → HasMstiRoot (trees_of net o) n (suc tree) x }
{
    nested();
    laws::roots::<Name, Name, PortName>();
}

/// The exits of parts. A port between parts that forwards in some tree is the exit of its bridge's part, and forwards
/// in every tree of its bridge. A part that holds the root of the CIST has no exit, each other part has one, to a part
/// of lower external root path cost.
pub fn exits()
    ensures only { (net : Net) (o : Outcome) → IsNetwork net → IsOutcome net o → IsUnrestricted net → (p : TreePort (List ℕ) (List ℕ) PortKey CistPort) (tree : ℕ) → IsCrossing (trees_of net o) p → Forwards (trees_of net o) tree p → IsExit (trees_of net o) p }
    ensures all { (net : Net) (o : Outcome) → IsNetwork net → IsOutcome net o → IsUnrestricted net → (p : TreePort (List ℕ) (List ℕ) PortKey CistPort) (tree : ℕ) → IsExit (trees_of net o) p → HasTree (trees_of net o) tree p.bridge → Forwards (trees_of net o) tree p }
    ensures top { (net : Net) (o : Outcome) → IsNetwork net → IsOutcome net o → IsUnrestricted net → (n : List ℕ) (x : CistVector) → o.cist.vector n ≡ Some x → HoldsRoot (trees_of net o) n x → (p : TreePort (List ℕ) (List ℕ) PortKey CistPort) → IsExit (trees_of net o) p → SamePart (trees_of net o) (bridge_at n) (bridge_at p.bridge) → ⊥ }
    ensures one { (net : Net) (o : Outcome) → IsNetwork net → IsOutcome net o → IsUnrestricted net → (n : List ℕ) (x : CistVector) → o.cist.vector n ≡ Some x → HoldsRoot (trees_of net o) n x ⊎ HasOneExit (trees_of net o) n x }
{
    nested();
    laws::exits::<Name, Name, PortName>();
}

/// A logical port whose ends are in different parts forwards in every tree of its bridge or in none, whatever its
/// role in each: it does exactly where it is the exit of its bridge's part, the root port in the CIST of the part's
/// regional root.
pub fn crossing()
    ensures { (net : Net) (o : Outcome) → IsNetwork net → IsOutcome net o → IsUnrestricted net → (p : LogicalPort) → IsEnabled net p → (SamePart (trees_of net o) (bridge_at p.name.bridge) (lan_at p.lan) → ⊥) → (tree : ℕ) (role : RoleOf) → role_in net o tree p ≡ Some role → forwards role ≡ true ↔ IsExit (trees_of net o) (tree_port p (cist_port (by_tree net) p)) }
{
    nested();
    forwarding();
    laws::exits::<Name, Name, PortName>();
}

/// In each tree that the bridges of a part have, the ports that forward inside it join all its bridges and LANs
/// without a loop.
pub fn inside()
    ensures joined { (net : Net) (o : Outcome) → IsNetwork net → IsOutcome net o → IsUnrestricted net → (tree : ℕ) (n : List ℕ) (y : Node (List ℕ) (List ℕ)) → HasTree (trees_of net o) tree n → SamePart (trees_of net o) (bridge_at n) y → Walk plug_ends (ForwardsInside (trees_of net o) tree) (bridge_at n) y }
    ensures no_loop { (net : Net) (o : Outcome) → IsNetwork net → IsOutcome net o → IsUnrestricted net → (tree : ℕ) → HasNoLoop plug_ends (ForwardsInside (trees_of net o) tree) }
{
    nested();
    laws::inside::<Name, Name, PortName>();
}
