ghost use Rattle.std.specs.Prelude.{◌≡◌};
ghost use Rattle.std.specs.List.Sorted.{IsNonDecreasingBy};
ghost use Rattle.mst_view.specs.Trees.{is_among};

use mst_ids::{BridgeNo, Tree};
use std::marker::Model;

/// Trees in rising order.
#[derive(Drop)]
pub struct RisingTrees {
    trees: Vec<Tree>,
}

impl Model for RisingTrees {
    ghost use Rattle.std.specs.Prelude.{ℕ, List};
    ghost use Rattle.std.specs.List.Sorted.{IsNonDecreasingBy};

    ghost Value = { List ℕ };

    ghost view = { λ r. r.trees.items };

    ghost invariant = { λ r. IsNonDecreasingBy (λ t. t) r.trees.items };
}

impl RisingTrees {
    /// These trees.
    pub fn new(trees: Vec<Tree>) -> Self
        requires { IsNonDecreasingBy (λ t. t) trees.items }
        ensures { result ≡ trees.items }
    {
        RisingTrees { trees }
    }

    /// The trees, in their order.
    pub fn as_slice(&self) -> &[Tree]
        ensures { result.now ≡ self.now }
    {
        self.trees.as_slice()
    }

    /// Whether a tree is one of these, found by halves.
    pub(crate) fn has(&self, tree: Tree) -> bool
        ensures { result ≡ is_among self.now tree }
    {
        self.trees
            .as_slice()
            .binary_search_by_key(&tree.value(), |it| it.value())
            .is_ok()
    }
}

/// A bridge's number, and the trees that it has beside the CIST.
#[derive(Drop)]
pub struct TreesInView {
    pub bridge: BridgeNo,
    pub trees: RisingTrees,
}
