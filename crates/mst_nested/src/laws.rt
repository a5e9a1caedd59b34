//! Laws of the settled trees of a network, of the roles of ports and of the active topology of a VID. Their
//! functions do nothing: a caller has their clauses. Bridges, LANs and ports go by keys of any types N, L and
//! K, as names or numbers.
ghost use Rattle.std.specs.Prelude.{◌≡◌, ◌≢◌, false, ℕ, suc, Option, Some, ◌⊎◌};
ghost use Rattle.mst_vector.specs.declared.cist.CistVector.{CistVector};
ghost use Rattle.mst_vector.specs.declared.cist.CistBridge.{CistBridge};
ghost use Rattle.mst_vector.specs.declared.cist.CistPort.{CistPort};
ghost use Rattle.mst_vector.specs.declared.msti.MstiVector.{MstiVector};
ghost use Rattle.mst_topology.specs.Topology.{TreePort, Topology, IsTopology, HasBridge, HasPort, KeyTests};
ghost use Rattle.mst_vector.specs.Cist.{cist_rules};
ghost use Rattle.mst_vector.specs.Msti.{msti_rules};
ghost use Rattle.mst_topology.specs.Settled.{IsDesignated};
ghost use Rattle.mst_graph.specs.Walks.{Node, bridge_at, lan_at, Walk};
ghost use Rattle.mst_nested.specs.Ports.{port_ends};
ghost use Rattle.mst_nested.specs.Trees.{Trees, IsSettled, IsFree, IsEnabled, SameRegion, SamePart, TakesPart, IsBoundary, HasTree};
ghost use Rattle.mst_nested.specs.Outcome.{MstiSettings, CanNest, IsOutcome};
ghost use Rattle.mst_nested.specs.Parts.{SameRoots, HasRoot, HasRegionalRoot, HasMstiRoot};
ghost use Rattle.mst_vector.specs.declared.msti.MstiPort.{MstiPort};
ghost use Rattle.mst_nested.specs.Roles.{IsDesignatedPort, HasOneRole, IsCistRoot, IsCistAlternate, IsMstiRoot, Forwards, ForwardsInside};
ghost use Rattle.mst_nested.specs.Active.{IsTreeOfVid, IsActive};
ghost use Rattle.mst_nested.specs.Exits.{IsCrossing, IsExit, HoldsRoot, HasOneExit};
ghost use Rattle.mst_graph.specs.Joined.{IsJoined, HasNoLoop};

use mst_vector::Metric;

/// A network has one outcome: there are settled trees, nested, for the CIST's topology and what is set for
/// the MSTIs, and these determine their vectors and designated ports.
pub fn outcome<N, L, K>()
    ensures some { (t : Topology N L K CistBridge CistPort) (s : MstiSettings N K) → KeyTests N L → IsTopology cist_rules t → ((p : TreePort N L K CistPort) → HasPort t p → p.settings.id ≢ 0) → CanNest t s → (f : Trees N L K) × IsOutcome t s f }
    ensures one_cist { (t : Topology N L K CistBridge CistPort) (s : MstiSettings N K) (f g : Trees N L K) → IsOutcome t s f → IsOutcome t s g → (n : N) → f.cist_vector n ≡ g.cist_vector n }
    ensures one_msti { (t : Topology N L K CistBridge CistPort) (s : MstiSettings N K) (f g : Trees N L K) → IsOutcome t s f → IsOutcome t s g → (i : ℕ) (n : N) → f.msti_vector (suc i) n ≡ g.msti_vector (suc i) n }
    ensures one_cist_port { (t : Topology N L K CistBridge CistPort) (s : MstiSettings N K) (f g : Trees N L K) → IsOutcome t s f → IsOutcome t s g → (lan : L) (o u : Option K) → IsDesignated cist_rules f.cist f.cist_vector lan o → IsDesignated cist_rules g.cist g.cist_vector lan u → o ≡ u }
    ensures one_msti_port { (t : Topology N L K CistBridge CistPort) (s : MstiSettings N K) (f g : Trees N L K) → IsOutcome t s f → IsOutcome t s g → (i : ℕ) (lan : L) (o u : Option K) → IsDesignated msti_rules (f.msti (suc i)) (f.msti_vector (suc i)) lan o → IsDesignated msti_rules (g.msti (suc i)) (g.msti_vector (suc i)) lan u → o ≡ u }
{}

/// Parts of regions in the CIST: a node is in one part; the LAN of an enabled port is in the part of a
/// bridge; a part is of one region, and its bridges name one root, external root path cost and regional
/// root; and bridges that name one regional root are in one part.
pub fn parts<N, L, K>()
    ensures one { (f : Trees N L K) (x y z : Node N L) → SamePart f x y → SamePart f x z → SamePart f y z }
    ensures lans { (f : Trees N L K) → KeyTests N L → IsSettled f → (p : TreePort N L K CistPort) → IsEnabled f p → (n : N) × (b : CistBridge) × HasBridge f.cist n b × SamePart f (lan_at p.lan) (bridge_at n) }
    ensures regions { (f : Trees N L K) → KeyTests N L → IsSettled f → (n k : N) (b : CistBridge) → HasBridge f.cist n b → SamePart f (bridge_at n) (bridge_at k) → SameRegion f n k }
    ensures values { (f : Trees N L K) → KeyTests N L → IsSettled f → IsFree f → (n k : N) (x y : CistVector) → f.cist_vector n ≡ Some x → f.cist_vector k ≡ Some y → SamePart f (bridge_at n) (bridge_at k) → SameRoots x y }
    ensures by_root { (f : Trees N L K) → KeyTests N L → IsSettled f → (n k : N) (x y : CistVector) → f.cist_vector n ≡ Some x → f.cist_vector k ≡ Some y → x.regional ≡ y.regional → SamePart f (bridge_at n) (bridge_at k) }
{}

/// The roots that vectors name: the root of a connected set, the regional root of a part in the CIST and
/// in each MSTI; and internal root path costs are those of cheapest walks.
pub fn roots<N, L, K>()
    ensures cist { (f : Trees N L K) → KeyTests N L → IsSettled f → IsFree f → (n : N) (x : CistVector) → f.cist_vector n ≡ Some x → HasRoot f n x }
    ensures regional { (f : Trees N L K) → KeyTests N L → IsSettled f → IsFree f → (n : N) (x : CistVector) → f.cist_vector n ≡ Some x → HasRegionalRoot f n x }
    ensures msti { (f : Trees N L K) → KeyTests N L → IsSettled f → IsFree f → (i : ℕ) (n : N) (x : MstiVector) → f.msti_vector (suc i) n ≡ Some x → HasMstiRoot f n (suc i) x }
{}

/// Each port that takes part in a tree has one role by rule of that tree's vectors. A port that received from
/// another region is the Root port or an Alternate port in the CIST.
pub fn roles<N, L, K>()
    ensures cist { (f : Trees N L K) → KeyTests N L → IsSettled f → (p : TreePort N L K CistPort) → IsEnabled f p → HasOneRole cist_rules f.cist f.cist_vector (λ x. x.receiver) p }
    ensures msti { (f : Trees N L K) → KeyTests N L → IsSettled f → (i : ℕ) (q : TreePort N L K MstiPort) → TakesPart (f.msti (suc i)) q → HasOneRole msti_rules (f.msti (suc i)) (f.msti_vector (suc i)) (λ x. x.receiver) q }
    ensures boundary { (f : Trees N L K) → KeyTests N L → IsSettled f → (p : TreePort N L K CistPort) → IsBoundary f p → IsCistRoot f p ⊎ IsCistAlternate f p }
{}

/// A port whose role is restricted is never the root port, in the CIST and in an MSTI.
pub fn restricted<N, L, K>()
    ensures cist { (f : Trees N L K) → KeyTests N L → IsSettled f → (p : TreePort N L K CistPort) → IsCistRoot f p → p.is_restricted ≡ false }
    ensures msti { (f : Trees N L K) → KeyTests N L → IsSettled f → (i : ℕ) (q : TreePort N L K MstiPort) → IsMstiRoot f (suc i) q → q.is_restricted ≡ false }
{}

/// A port is the designated port where its LAN's designated port has its key.
pub fn designated_by_key<M: Metric, N, L, K>()
    ensures key { (t : Topology N L K M.Bridge M.Port) (v : N → Option M.Vector) → IsTopology M.rules t → (p : TreePort N L K M.Port) (o : Option K) → IsDesignated M.rules t v p.lan o → IsDesignatedPort M.rules t v p → o ≡ Some p.number }
    ensures port { (t : Topology N L K M.Bridge M.Port) (v : N → Option M.Vector) → IsTopology M.rules t → (p : TreePort N L K M.Port) (o : Option K) → TakesPart t p → IsDesignated M.rules t v p.lan o → o ≡ Some p.number → IsDesignatedPort M.rules t v p }
{}

/// The active ports of a VID link the ends of each enabled port, so all that enabled ports link, and make
/// no loop, whatever trees the regions have for it.
pub fn active<N, L, K>()
    ensures joined { (f : Trees N L K) (tree : N → ℕ) → KeyTests N L → IsSettled f → IsFree f → IsTreeOfVid f tree → IsJoined port_ends (IsEnabled f) (IsActive f tree) }
    ensures sets { (f : Trees N L K) (tree : N → ℕ) → KeyTests N L → IsSettled f → IsFree f → IsTreeOfVid f tree → (x y : Node N L) → Walk port_ends (IsEnabled f) x y → Walk port_ends (IsActive f tree) x y }
    ensures no_loop { (f : Trees N L K) (tree : N → ℕ) → KeyTests N L → IsSettled f → IsFree f → IsTreeOfVid f tree → HasNoLoop port_ends (IsActive f tree) }
{}

/// A port between parts forwards in every tree of its bridge or in none: it does exactly where it is the
/// exit of its bridge's part. A part that holds the root of the CIST has no exit, each other part has one.
pub fn exits<N, L, K>()
    ensures only { (f : Trees N L K) → KeyTests N L → IsSettled f → IsFree f → (p : TreePort N L K CistPort) (i : ℕ) → IsCrossing f p → Forwards f i p → IsExit f p }
    ensures all { (f : Trees N L K) → KeyTests N L → IsSettled f → IsFree f → (p : TreePort N L K CistPort) (i : ℕ) → IsExit f p → HasTree f i p.bridge → Forwards f i p }
    ensures top { (f : Trees N L K) → KeyTests N L → IsSettled f → IsFree f → (n : N) (x : CistVector) → f.cist_vector n ≡ Some x → HoldsRoot f n x → (p : TreePort N L K CistPort) → IsExit f p → SamePart f (bridge_at n) (bridge_at p.bridge) → ⊥ }
    ensures one { (f : Trees N L K) → KeyTests N L → IsSettled f → IsFree f → (n : N) (x : CistVector) → f.cist_vector n ≡ Some x → HoldsRoot f n x ⊎ HasOneExit f n x }
{}

/// In each tree that the bridges of a part have, the ports that forward inside it join all its bridges and
/// LANs without a loop.
pub fn inside<N, L, K>()
    ensures joined { (f : Trees N L K) → KeyTests N L → IsSettled f → IsFree f → (i : ℕ) (n : N) (y : Node N L) → HasTree f i n → SamePart f (bridge_at n) y → Walk port_ends (ForwardsInside f i) (bridge_at n) y }
    ensures no_loop { (f : Trees N L K) → KeyTests N L → IsSettled f → IsFree f → (i : ℕ) → HasNoLoop port_ends (ForwardsInside f i) }
{}
