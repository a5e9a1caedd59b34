//! Laws of settled vectors. Their functions do nothing: a caller has their clauses. Bridges, LANs and
//! ports go by keys of any types N, L and K, as names or numbers.
ghost use Rattle.std.specs.Prelude.{◌≡◌, ◌-◌, ◌*◌, ◌≤◌, Option, Some, None, MatchOption, length};
ghost use Rattle.mst_topology.specs.Topology.{TreePort, Topology, IsTopology, HasBridge, HasPort, KeyTests};
ghost use Rattle.mst_topology.specs.Settled.{Settled, IsDesignated};
ghost use Rattle.mst_outcome.specs.Renamed.{Renaming, IsRenamed};
ghost use Rattle.mst_outcome.specs.Parts.{SameParts};

use mst_vector::Metric;

/// One topology has one outcome: vectors that are settled are the same, and so are the designated
/// ports of each LAN.
pub fn one_outcome<M: Metric, N, L, K>()
    ensures vectors { (t : Topology N L K M.Bridge M.Port) (v w : N → Option M.Vector) → IsTopology M.rules t → Settled M.rules t v → Settled M.rules t w → (n : N) → v n ≡ w n }
    ensures ports { (t : Topology N L K M.Bridge M.Port) (v w : N → Option M.Vector) → IsTopology M.rules t → Settled M.rules t v → Settled M.rules t w → (lan : L) (p q : Option K) → IsDesignated M.rules t v lan p → IsDesignated M.rules t w lan q → p ≡ q }
{}

/// Each topology has settled vectors, and each LAN then a designated port or none, where equal keys
/// can be told by a test.
pub fn has_outcome<M: Metric, N, L, K>()
    ensures vectors { (t : Topology N L K M.Bridge M.Port) → IsTopology M.rules t → KeyTests N L → (v : N → Option M.Vector) × Settled M.rules t v }
    ensures ports { (t : Topology N L K M.Bridge M.Port) (v : N → Option M.Vector) → IsTopology M.rules t → KeyTests N L → (lan : L) → (p : Option K) × IsDesignated M.rules t v lan p }
{}

/// No settled path cost is above 200,000,000 for each bridge but one.
pub fn costs_bounded<M: Metric, N, L, K>()
    ensures { (t : Topology N L K M.Bridge M.Port) (v : N → Option M.Vector) → IsTopology M.rules t → Settled M.rules t v → (n : N) (x : M.Vector) → v n ≡ Some x → M.rules.cost x ≤ 200_000_000 * (length t.bridges - 1) }
{}

/// Settled vectors and designated ports do not depend on the keys: where u is t with its keys
/// replaced, u is a topology too, each bridge has the same vector, and each port's LAN has the same
/// designated port.
pub fn renamed<M: Metric, N, L, K, N2, L2, K2>()
    ensures topology { (r : Renaming N L K N2 L2 K2) (t : Topology N L K M.Bridge M.Port) (u : Topology N2 L2 K2 M.Bridge M.Port) → IsTopology M.rules t → IsRenamed r t u → IsTopology M.rules u }
    ensures vectors { (r : Renaming N L K N2 L2 K2) (t : Topology N L K M.Bridge M.Port) (u : Topology N2 L2 K2 M.Bridge M.Port) (v : N → Option M.Vector) (w : N2 → Option M.Vector) → IsTopology M.rules t → IsRenamed r t u → Settled M.rules t v → Settled M.rules u w → (n : N) (b : M.Bridge) → HasBridge t n b → w (r.bridge n) ≡ v n }
    ensures ports { (r : Renaming N L K N2 L2 K2) (t : Topology N L K M.Bridge M.Port) (u : Topology N2 L2 K2 M.Bridge M.Port) (v : N → Option M.Vector) (w : N2 → Option M.Vector) → IsTopology M.rules t → IsRenamed r t u → Settled M.rules t v → Settled M.rules u w → (p : TreePort N L K M.Port) → HasPort t p → (o : Option K) (q : Option K2) → IsDesignated M.rules t v p.lan o → IsDesignated M.rules u w (r.lan p.lan) q → MatchOption o (q ≡ None) (λ k. q ≡ Some (r.port k)) }
{}

/// Settled vectors and designated ports depend on the bridges and on the ports that take part in the tree
/// alone, and on no order.
pub fn parts_alone<M: Metric, N, L, K>()
    ensures vectors { (t u : Topology N L K M.Bridge M.Port) (v : N → Option M.Vector) → SameParts t u → Settled M.rules t v → Settled M.rules u v }
    ensures ports { (t u : Topology N L K M.Bridge M.Port) (v : N → Option M.Vector) (lan : L) (p : Option K) → SameParts t u → IsDesignated M.rules t v lan p → IsDesignated M.rules u v lan p }
{}
