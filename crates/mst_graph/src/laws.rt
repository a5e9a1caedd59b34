//! Laws of groups, of islands and of trees in parts. Their functions do nothing: a caller has their clauses.
//! Bridges and LANs go by keys of any types, as names or record numbers.
ghost use Rattle.std.specs.Prelude.{◌≡◌, ℕ, Bool, IsTrue, List, map, true};
ghost use Rattle.std.specs.Cmp.{IsEquivalence};
ghost use Rattle.mst_graph.specs.Groups.{AreGroups, StandOnce};
ghost use Rattle.mst_graph.specs.Numbers.{AreNumbers, HaveBodies, AreBodies};
ghost use Rattle.mst_graph.specs.Islands.{Link as LinkOf, Island as IslandOf, AreIslands, HaveEnds};
ghost use Rattle.mst_graph.specs.Order.{AreInOrder};
ghost use Rattle.mst_graph.specs.Renaming.{KeepApart, link_by, island_by};
ghost use Rattle.mst_graph.specs.Walks.{Ends, Walk};
ghost use Rattle.mst_graph.specs.Joined.{IsJoined, HasNoLoop};
ghost use Rattle.mst_graph.specs.TreesInParts.{Levels, HasTreesInParts, HasTops};

/// There is at most one list of groups; and there is one, where each thing is related to itself and relations
/// go back and on.
pub fn group_lists<T>()
    ensures one { (same : T → T → Bool) (things : List T) (groups others : List (List T)) → StandOnce things → AreGroups (λ x y. same x y ≡ true) things groups → AreGroups (λ x y. same x y ≡ true) things others → groups ≡ others }
    ensures some { (same : T → T → Bool) (things : List T) → IsEquivalence same → (groups : List (List T)) × AreGroups (λ x y. same x y ≡ true) things groups }
{}

/// Where equal signatures give equal bodies, a body for each signature tells the body of each thing.
pub fn signatures<T, S, B>()
    ensures { (same : S → S → Bool) (alike : B → B → Bool) (signature : T → S) (body : T → B) (things : List T) (numbers firsts : List ℕ) (bodies : List B) → ((x y : T) → same (signature x) (signature y) ≡ true → alike (body x) (body y) ≡ true) → AreNumbers same (map signature things) numbers firsts → AreBodies body things firsts bodies → HaveBodies alike body things numbers bodies }
{}

/// There is at most one list of islands, where no bridge and no LAN is listed twice. Islands with a bridge come
/// first, by their first bridges, and the others after them, by their first LANs.
pub fn island_lists<N, L>()
    ensures one { (bridges : List N) (lans : List L) (links : List (LinkOf N L)) (islands others : List (IslandOf N L)) → StandOnce bridges → StandOnce lans → AreIslands bridges lans links islands → AreIslands bridges lans links others → islands ≡ others }
    ensures order { (bridges : List N) (lans : List L) (links : List (LinkOf N L)) (islands : List (IslandOf N L)) → AreIslands bridges lans links islands → AreInOrder bridges lans islands }
{}

/// There is a list of islands, by the numbers of records, for any bridges, LANs and links between them.
pub fn some_islands()
    ensures { (bridges lans : List ℕ) (links : List (LinkOf ℕ ℕ)) → HaveEnds bridges lans links → (islands : List (IslandOf ℕ ℕ)) × AreIslands bridges lans links islands }
{}

/// Islands do not depend on the keys: by new ones, as names for numbers, the islands are the same.
pub fn renamed<N, L, M, K>()
    ensures { (bridge_key : N → M) (lan_key : L → K) (bridges : List N) (lans : List L) (links : List (LinkOf N L)) (islands : List (IslandOf N L)) → KeepApart bridge_key bridges → KeepApart lan_key lans → HaveEnds bridges lans links → AreIslands bridges lans links islands → AreIslands (map bridge_key bridges) (map lan_key lans) (map (link_by bridge_key lan_key) links) (map (island_by bridge_key lan_key) islands) }
{}

/// Let each node lie in a part, with a rank in it, and each part have a height, one for all its nodes. Let no
/// node have two active edges up inside its part, none of these stay level, and no part have two active edges
/// out, each of which leads to a part of lower height. Then the active edges make no loop. If each node but one
/// of a part has an edge up, and each part but one of a connected set an edge out, they join what the enabled
/// edges join.
pub fn trees_in_parts<N, E>()
    ensures no_loop { (g : Ends N E) (active : E → Bool) (s : Levels N) → HasTreesInParts g (λ e. IsTrue (active e)) s → HasNoLoop g (λ e. IsTrue (active e)) }
    ensures joined { (g : Ends N E) (enabled active : E → Bool) (s : Levels N) (is_root is_top : N → Bool) → HasTreesInParts g (λ e. IsTrue (active e)) s → HasTops g (λ e. IsTrue (enabled e)) (λ e. IsTrue (active e)) s (λ x. IsTrue (is_root x)) (λ x. IsTrue (is_top x)) → IsJoined g (λ e. IsTrue (enabled e)) (λ e. IsTrue (active e)) }
    ensures sets { (g : Ends N E) (enabled active : E → Bool) (x y : N) → IsJoined g (λ e. IsTrue (enabled e)) (λ e. IsTrue (active e)) → Walk g (λ e. IsTrue (enabled e)) x y → Walk g (λ e. IsTrue (active e)) x y }
{}
