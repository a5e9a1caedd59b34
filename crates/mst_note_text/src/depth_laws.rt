//! Laws of parents and depths in the settled trees of a network. Their functions do nothing: a caller has
//! their clauses. Bridges, LANs and ports go by keys of any types N, L and K, as names or numbers.
ghost use Rattle.std.specs.Prelude.{◌≡◌, ◌⊎◌, ℕ, suc, ◌<◌, List, length, Option, Some};
ghost use Rattle.mst_vector.specs.declared.cist.CistVector.{CistVector};
ghost use Rattle.mst_vector.specs.declared.cist.CistBridge.{CistBridge};
ghost use Rattle.mst_vector.specs.declared.msti.MstiVector.{MstiVector};
ghost use Rattle.mst_vector.specs.declared.msti.MstiBridge.{MstiBridge};
ghost use Rattle.mst_roles.specs.forest.topology.Topology.{HasBridge, KeyTests};
ghost use Rattle.mst_roles.specs.forest.nested.Trees.{Trees, IsSettled, HasTree, SameRegion};
ghost use Rattle.mst_note_text.specs.declared.parent.Parent.{Parent};
ghost use Rattle.mst_note_text.specs.declared.parent.Depths.{Depths};
ghost use Rattle.mst_note_text.specs.Places.{IsForest, HasDepths};
ghost use Rattle.mst_note_text.specs.Listed.{IsListed};
ghost use Rattle.mst_note_text.specs.Depths.{ParentIn, ParentWithin, ParentBetween, InternalDepth, ExternalDepth};

/// A bridge has one parent at most in a tree, of its own region or of another; in an MSTI it is of its own. A
/// number falls along parents.
pub fn parents<N, L, K>()
    ensures one { (f : Trees N L K) → KeyTests N L → IsSettled f → (i : ℕ) (n k j : N) → ParentIn f i n k → ParentIn f i n j → k ≡ j }
    ensures sides { (f : Trees N L K) → KeyTests N L → IsSettled f → (n k : N) → ParentIn f 0 n k → ParentWithin f 0 n k ⊎ ParentBetween f n k }
    ensures regions { (f : Trees N L K) → KeyTests N L → IsSettled f → (i : ℕ) (n k : N) → ParentIn f (suc i) n k → SameRegion f n k }
    ensures falls { (f : Trees N L K) → KeyTests N L → IsSettled f → (i : ℕ) → (height : N → ℕ) × ((n k : N) → ParentIn f i n k → height k < height n) }
{}

/// Each bridge has one internal depth in each tree that it has, and one external depth.
pub fn depths<N, L, K>()
    ensures internal { (f : Trees N L K) → KeyTests N L → IsSettled f → (i : ℕ) (n : N) → HasTree f i n → (d : ℕ) × InternalDepth f i n d }
    ensures one_internal { (f : Trees N L K) → KeyTests N L → IsSettled f → (i : ℕ) (n : N) (d e : ℕ) → InternalDepth f i n d → InternalDepth f i n e → d ≡ e }
    ensures external { (f : Trees N L K) → KeyTests N L → IsSettled f → (n : N) (b : CistBridge) → HasBridge f.cist n b → (d : ℕ) × ExternalDepth f n d }
    ensures one_external { (f : Trees N L K) → KeyTests N L → IsSettled f → (n : N) (d e : ℕ) → ExternalDepth f n d → ExternalDepth f n e → d ≡ e }
{}

/// The chains end at the roots that a bridge's vectors name: within a region at the tree's regional root,
/// between regions at the CIST root.
pub fn ends<N, L, K>()
    ensures regional { (f : Trees N L K) → KeyTests N L → IsSettled f → (n : N) (x : CistVector) (d : ℕ) (depth : InternalDepth f 0 n d) → f.cist_vector n ≡ Some x → (b : CistBridge) × HasBridge f.cist depth.root b × (b.id ≡ x.regional) }
    ensures msti { (f : Trees N L K) → KeyTests N L → IsSettled f → (i : ℕ) (n : N) (x : MstiVector) (d : ℕ) (depth : InternalDepth f (suc i) n d) → f.msti_vector (suc i) n ≡ Some x → (b : MstiBridge) × HasBridge (f.msti (suc i)) depth.root b × (b.id ≡ x.regional) }
    ensures cist { (f : Trees N L K) → KeyTests N L → IsSettled f → (n : N) (x : CistVector) (d : ℕ) (depth : ExternalDepth f n d) → f.cist_vector n ≡ Some x → (b : CistBridge) × HasBridge f.cist depth.root b × (b.id ≡ x.root) }
{}

/// The parents of a tree's bridges, listed by places, make a forest, and the depths that follow in the list
/// are those of the bridges in the tree.
pub fn listed<N, L, K>()
    ensures forest { (f : Trees N L K) → KeyTests N L → IsSettled f → (i : ℕ) (bridge : ℕ → N) (parents : List (Option Parent)) → IsListed f i bridge parents → IsForest parents }
    ensures internal { (f : Trees N L K) → KeyTests N L → IsSettled f → (i : ℕ) (bridge : ℕ → N) (parents : List (Option Parent)) → IsListed f i bridge parents → (n : ℕ) (d : Depths) → n < length parents → HasDepths parents n d → InternalDepth f i (bridge n) d.internal }
    ensures external { (f : Trees N L K) → KeyTests N L → IsSettled f → (bridge : ℕ → N) (parents : List (Option Parent)) → IsListed f 0 bridge parents → (n : ℕ) (d : Depths) → n < length parents → HasDepths parents n d → ExternalDepth f (bridge n) d.external }
{}

/// A list of parents gives a bridge one pair of depths at most.
pub fn one_pair()
    ensures { (parents : List (Option Parent)) (n : ℕ) (d e : Depths) → HasDepths parents n d → HasDepths parents n e → d ≡ e }
{}
