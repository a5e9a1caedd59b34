ghost use Rattle.std.specs.Prelude.{IfOk};
ghost use Rattle.mst_roles.specs.forest.Settled.{outcome_of};
ghost use Rattle.mst_judged.specs.Islands.{AreKept};
ghost use Rattle.mst_judged.specs.reasons.Reasons.{AreViaReasons};

use crate::asked::Asked;
use crate::judging::path_reasons;
use mst_ids::{Name, VidSet};
use mst_judged::{Judged, Reason};
use std::alloc::{AllocError, Global};

/// For which VIDs the path from one bridge to another doesn't meet a third, and which bridges it meets, VIDs of equal ones in one reason, by the
/// least VID. `AllocError`: memory was wanted and refused.
///
/// A path is looked for once for VIDs that no table and no set of VLANs tells apart.
pub fn via_reasons(
    alloc: Global,
    judged: &Judged,
    vids: &VidSet,
    from: &Name,
    to: &Name,
    by: &Name,
) -> Result<Vec<Reason>, AllocError>
    requires { AreKept judged.now.plan.now judged.now.before.now judged.now.homes.now }
    ensures { IfOk result (λ reasons. AreViaReasons judged.now.plan.now.net (outcome_of judged.now.plan.now) vids.now from.now to.now by.now reasons.items) }
{
    let asked = Asked::Via {
        from: *from,
        to: *to,
        by: *by,
    };
    path_reasons(alloc, judged, vids, &asked)
}
