ghost use Rattle.std.specs.Prelude.{◌≡◌, IfOk};
ghost use Rattle.mst_roles.specs.forest.Settled.{outcome_of};
ghost use Rattle.mst_judged.specs.Islands.{AreKept};
ghost use Rattle.mst_judged.specs.reasons.Named.{named as named_in};
ghost use Rattle.mst_judged.specs.reasons.Reasons.{AreHopsReasons};
ghost use Rattle.mst_judged.specs.reasons.Seen.{names_in};

use crate::asked::Asked;
use crate::judging::path_reasons;
use mst_ids::{Name, VidSet};
use mst_judged::{Judged, Reason, named};
use mst_policy::NameList;
use mst_view::BridgeInView;
use std::alloc::{AllocError, Global};

/// The names of these bridges.
fn names_of(alloc: Global, bridges: &[BridgeInView]) -> Result<Vec<Name>, AllocError>
    ensures { IfOk result (λ names. names.items ≡ names_in bridges.now) }
{
    bridges.iter().map(|bridge| bridge.name).collect(alloc)
}

/// For which VIDs a path between two of these bridges has more hops than so many: of such paths the most hops, and the first two bridges by
/// names that have them, VIDs of equal ones in one reason, by the least VID. `AllocError`: memory was wanted and refused.
///
/// It walks once from each of the bridges for VIDs that no table and no set of VLANs tells apart.
pub fn hops_reasons(
    alloc: Global,
    judged: &Judged,
    vids: &VidSet,
    most: u64,
    names: &NameList,
) -> Result<Vec<Reason>, AllocError>
    requires { AreKept judged.now.plan.now judged.now.before.now judged.now.homes.now }
    ensures { IfOk result (λ reasons. AreHopsReasons judged.now.plan.now.net (outcome_of judged.now.plan.now) vids.now most (named_in judged.now.plan.now.net judged.now.lost.now names.now) reasons.items) }
{
    judged.plan.known();
    let seen = named(alloc, judged, names)?;
    let concerned = names_of(alloc, seen.as_slice())?;
    let bridges = concerned.as_slice();
    let asked = Asked::Hops { most, bridges };
    path_reasons(alloc, judged, vids, &asked)
}
