ghost use Rattle.std.specs.Prelude.{◌≡◌, ◌==◌, ◌||◌};
ghost use Rattle.std.specs.List.{Contains};
ghost use Rattle.mst_net.specs.tables.ByTree.{by_tree};
ghost use Rattle.mst_forest.specs.Msti.{has_msti};
ghost use Rattle.mst_forest.specs.Settled.{outcome_of};

use crate::in_use::has_tree;
use crate::settled::Settled;
use mst_ids::Tree;
use mst_net::TreeSettings;
use mst_vector::{CistVector, MstiVector};
use mst_view::BridgeInView;

impl<'a> Settled<'a> {
    /// What is set by tree or VID.
    pub fn settings(&self) -> &TreeSettings
        ensures { result.now.set ≡ by_tree self.now.net }
    {
        self.known();
        self.view().settings()
    }

    /// Whether a bridge of the view has a tree: each has the CIST.
    pub fn has_tree(&self, tree: Tree, bridge: &BridgeInView) -> bool
        requires { Contains self.now.view.bridges bridge.now }
        ensures { result ≡ (tree == 0 || has_msti self.now.net tree bridge.now.name) }
    {
        self.known();
        has_tree(self.view(), bridge.bridge.number, tree)
    }

    /// The root priority vector of a bridge of the view in the CIST, or nothing where the bridge is off.
    pub fn cist(&self, bridge: &BridgeInView) -> Option<CistVector>
        requires { Contains self.now.view.bridges bridge.now }
        ensures { result ≡ (outcome_of self.now).cist.vector bridge.now.name }
    {
        self.known();
        self.forest().cist(bridge.bridge.number)
    }

    /// The root priority vector of a bridge of the view in an MSTI, or nothing where the bridge isn't in it.
    pub fn msti(&self, tree: Tree, bridge: &BridgeInView) -> Option<MstiVector>
        requires { Contains self.now.view.bridges bridge.now }
        ensures { result ≡ ((outcome_of self.now).msti tree).vector bridge.now.name }
    {
        self.known();
        self.forest().msti(tree, bridge.bridge.number)
    }
}
