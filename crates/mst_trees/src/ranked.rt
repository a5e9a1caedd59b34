ghost use Rattle.std.specs.Prelude.{◌≡◌, IfOk};
ghost use Rattle.mst_view.specs.Trees.{is_among};
ghost use Rattle.mst_trees.specs.Ranked.{ranked as ranked_of, ranked_bridges as all_ranked, ranked_msti_bridge, ranked_priority};

use mst_ids::{BridgeId, BridgeNo, Priority, Tree};
use mst_net::TreeSettings;
use mst_vector::MstiBridge;
use mst_view::{BridgeInView, View};
use std::alloc::{AllocError, Global};
use std::marker::Model;

/// A bridge of a view, and the trees in which another priority than the default is set for it. In the others its priority
/// needs no look at what is set.
#[derive(Drop)]
pub(crate) struct RankedBridge {
    seen: BridgeInView,
    trees: Vec<Tree>,
}

impl Model for RankedBridge {
    ghost use Rattle.mst_view.specs.Trees.{is_among};
    ghost use Rattle.mst_trees.specs.Ranked.{Ranked};

    ghost Value = { Ranked };

    ghost view = { λ r. record { seen = r.seen; trees = r.trees.items } };
}

impl RankedBridge {
    /// A bridge with these settings.
    fn new(
        alloc: Global,
        settings: &TreeSettings,
        seen: &BridgeInView,
    ) -> Result<RankedBridge, AllocError>
        ensures { IfOk result (λ ranked. ranked ≡ ranked_of settings.now.set seen.now) }
    {
        let trees = settings.priority_trees(&seen.name, alloc)?;
        Ok(RankedBridge { seen: *seen, trees })
    }

    /// Whether another priority than the default is set for it in a tree.
    fn is_set(&self, tree: Tree) -> bool
        ensures { result ≡ is_among self.now.trees tree }
    {
        self.trees.iter().any(|it| it.value() == tree.value())
    }

    /// Its priority in a tree.
    fn priority(&self, settings: &TreeSettings, tree: Tree) -> Priority
        ensures { result ≡ ranked_priority settings.now.set self.now tree }
    {
        if self.is_set(tree) {
            settings.tree_priority(&self.seen.name, tree)
        } else {
            Priority::default()
        }
    }

    /// What an MSTI has to know of it, under its number, where it is on and has the tree.
    pub(crate) fn in_msti(&self, view: &View, tree: Tree) -> Option<(BridgeNo, MstiBridge)>
        ensures { result ≡ ranked_msti_bridge view.now tree self.now }
    {
        let bridge = &self.seen.bridge;
        if !bridge.is_on() || !view.has_tree(bridge.number, tree) {
            return None;
        }
        let priority = self.priority(view.settings(), tree);
        let id = BridgeId::new(priority, tree, bridge.mac);
        Some((bridge.number, MstiBridge { id }))
    }
}

/// The bridges of a view, each with the trees in which another priority than the default is set for it.
pub(crate) fn ranked_bridges(alloc: Global, view: &View) -> Result<Vec<RankedBridge>, AllocError>
    ensures { IfOk result (λ bridges. bridges.items ≡ all_ranked view.now) }
{
    let mut bridges = Vec::new(alloc);
    for seen in view.bridges() {
        bridges.push(RankedBridge::new(alloc, view.settings(), seen)?)?;
    }
    Ok(bridges)
}
