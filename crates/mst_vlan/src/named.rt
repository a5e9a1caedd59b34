ghost use Rattle.std.specs.Prelude.{◌≡◌, IfOk, filter_map};
ghost use Rattle.mst_vlan.specs.Seen.{seen_bridge, seen_lan};

use mst_ids::{BridgeNo, LanNo, Name};
use mst_view::View;
use std::alloc::{AllocError, Global};

/// The names of the bridges of these numbers, those of which the view has one. `AllocError`: memory was wanted and
/// refused.
pub fn bridge_names(
    alloc: Global,
    view: &View,
    bridges: &[BridgeNo],
) -> Result<Vec<Name>, AllocError>
    ensures { IfOk result (λ names. names.items ≡ filter_map (seen_bridge view.now) bridges.now) }
{
    let mut names = Vec::new(alloc);
    for bridge in bridges {
        if let Some(bridge) = view.bridge(*bridge) {
            names.push(bridge.name)?;
        }
    }
    Ok(names)
}

/// The names of the logical LANs of these numbers, those of which the view has one. `AllocError`: memory was wanted and
/// refused.
pub fn lan_names(alloc: Global, view: &View, lans: &[LanNo]) -> Result<Vec<Name>, AllocError>
    ensures { IfOk result (λ names. names.items ≡ filter_map (seen_lan view.now) lans.now) }
{
    let mut names = Vec::new(alloc);
    for lan in lans {
        if let Some(lan) = view.lan(*lan) {
            names.push(lan.name)?;
        }
    }
    Ok(names)
}
