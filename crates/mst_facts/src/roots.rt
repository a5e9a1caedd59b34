ghost use Rattle.std.specs.Prelude.{◌≡◌, map};
ghost use Rattle.std.specs.List.{Contains};
ghost use Rattle.mst_forest.specs.Settled.{outcome_of};
ghost use Rattle.mst_facts.specs.Roots.{root_of as root_in};
ghost use Rattle.mst_facts.specs.Named.{seen_root};

use crate::planned::Planned;
use mst_forest::Settled;
use mst_ids::{BridgeId, BridgeNo, Name, Tree};
use mst_view::BridgeInView;

/// A bridge's identifier in a tree, and its name.
#[derive(Clone, Copy)]
pub struct Identified {
    pub id: BridgeId,
    pub name: Name,
}

/// The identifier of a bridge's root in the CIST, or of its regional root in an MSTI.
pub fn root(plan: &Planned, tree: Tree, bridge: BridgeNo) -> Option<BridgeId>
    ensures { result ≡ seen_root plan.now.view.now plan.now.forest.now tree bridge }
{
    if tree.value() == 0 {
        return plan.forest.cist(bridge).map(|vector| vector.root);
    }
    if plan.view.has_tree(bridge, tree) {
        plan.forest.msti(tree, bridge).map(|vector| vector.regional)
    } else {
        None
    }
}

/// The identifier of the root of a bridge of the view in the CIST, or of its regional root in an MSTI.
pub fn root_of(plan: &Settled, tree: Tree, bridge: &BridgeInView) -> Option<BridgeId>
    requires { Contains plan.now.view.bridges bridge.now }
    ensures { result ≡ root_in plan.now.net (outcome_of plan.now) tree bridge.now.name }
{
    plan.known();
    if tree.value() == 0 {
        return plan.cist(bridge).map(|vector| vector.root);
    }
    if plan.has_tree(tree, bridge) {
        plan.msti(tree, bridge).map(|vector| vector.regional)
    } else {
        None
    }
}
