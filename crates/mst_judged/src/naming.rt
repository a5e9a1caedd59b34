ghost use Rattle.std.specs.Prelude.{◌≡◌, not, ◌&&◌, IfOk, filter};
ghost use Rattle.mst_reasons.specs.Named.{is_named as is_named_of};
ghost use Rattle.mst_judged.specs.Seen.{seen_named};

use crate::judged::Judged;
use mst_ids::Name;
use mst_policy::NameList;
use mst_reasons::{Failure, any_fails_bridge};
use mst_view::BridgeInView;
use std::alloc::{AllocError, Global};

/// Whether a bridge is one of these names: one that failed is none of them.
pub fn is_named(lost: &[Failure], names: &NameList, bridge: &Name) -> bool
    ensures { result ≡ is_named_of lost.now names.now bridge.now }
{
    names.has(bridge) && !any_fails_bridge(lost, bridge)
}

/// The bridges of these names, on or off, in byte order.
pub fn named(
    alloc: Global,
    judged: &Judged,
    names: &NameList,
) -> Result<Vec<BridgeInView>, AllocError>
    ensures { IfOk result (λ bridges. bridges.items ≡ seen_named judged.now.plan.now.view judged.now.lost.now names.now) }
{
    judged
        .plan
        .view()
        .bridges()
        .iter()
        .filter(|bridge| is_named(judged.lost, names, &bridge.name))
        .copied()
        .collect(alloc)
}
