ghost use Rattle.std.specs.Prelude.{IfOk};
ghost use Rattle.mst_roles.specs.forest.Settled.{outcome_of};
ghost use Rattle.mst_judged.specs.Islands.{AreKept};
ghost use Rattle.mst_judged.specs.reasons.Reasons.{AreVidReasons};
ghost use Rattle.mst_path_judges.specs.Asked.{HasTold, tells};

use crate::asked::Asked;
use crate::telling::vid_reasons;
use crate::values::values;
use mst_ids::VidSet;
use mst_judged::{Judged, Reason, classes_asked};
use std::alloc::{AllocError, Global};

/// What is told of the paths of these VIDs, by what is asked of them.
pub(crate) fn path_reasons(
    alloc: Global,
    judged: &Judged,
    vids: &VidSet,
    asked: &Asked,
) -> Result<Vec<Reason>, AllocError>
    requires { AreKept judged.now.plan.now judged.now.before.now judged.now.homes.now }
    ensures { IfOk result (λ reasons. AreVidReasons (HasTold judged.now.plan.now.net (outcome_of judged.now.plan.now) asked.now) (tells asked.now) vids.now reasons.items) }
{
    judged.plan.known();
    let numbers = judged.before.classes.numbers.as_slice();
    let count = judged.before.classes.firsts.len();
    let flags = classes_asked(alloc, numbers, vids, count)?;
    let values = values(alloc, judged, asked, flags.as_slice())?;
    vid_reasons(alloc, asked, numbers, vids, values.as_slice())
}
