ghost use Rattle.std.specs.Prelude.{◌≡◌, IfOk, map};
ghost use Rattle.mst_tables.specs.Seen.{bridge_row};
ghost use Rattle.mst_view.specs.Trees.{mstis_of};
ghost use Rattle.mst_view.specs.Viewed.{bridge_trees};

use mst_ids::Tree;
use mst_lang::Kind;
use mst_tables::Contents;
use mst_view::{BridgeInView, RisingTrees, TreesInView};
use std::alloc::{AllocError, Global};

/// The trees of each of these bridges.
pub(crate) fn trees_in_view<C: Contents>(
    alloc: Global,
    contents: &C,
    bridges: &[BridgeInView],
) -> Result<Vec<TreesInView>, AllocError>
    ensures { IfOk result (λ v. map (λ t. (t.bridge, t.trees)) v.items ≡ map (bridge_trees (C.tables contents.now).net) bridges.now) }
{
    let mut all = Vec::new(alloc);
    for bridge in bridges {
        let trees = trees_of_bridge(alloc, contents, bridge)?;
        all.push(TreesInView {
            bridge: bridge.bridge.number,
            trees: RisingTrees::new(trees),
        })?;
    }
    Ok(all)
}

/// The trees that a bridge has beside the CIST.
fn trees_of_bridge<C: Contents>(
    alloc: Global,
    contents: &C,
    bridge: &BridgeInView,
) -> Result<Vec<Tree>, AllocError>
    ensures { IfOk result (λ v. v.items ≡ mstis_of (C.tables contents.now).net bridge.now.name (bridge_row bridge.now.bridge)) }
{
    match bridge.bridge.kind {
        Kind::Rstp => Ok(Vec::new(alloc)),
        Kind::Mstp => contents.mstis(&bridge.name, alloc),
    }
}
