ghost use Rattle.std.specs.Prelude.{◌≡◌, ◌+◌, ◌<◌, None, true, IfOk, length, map, slice_index, vec_len};
ghost use Rattle.mst_roles.specs.forest.Settled.{outcome_of};
ghost use Rattle.mst_judged.specs.reasons.sweep.vlan.classes.Classes.{AreClasses};
ghost use Rattle.mst_judged.specs.reasons.Stretches.{HasStretch};
ghost use Rattle.mst_judged.specs.Valued.{AreValuesOf};
ghost use Rattle.mst_path_judges.specs.Asked.{HasTold, told_of};

use crate::asked::Asked;
use crate::longest::longest;
use crate::stretch::Stretch;
use mst_ids::{Name, Vid};
use mst_judged::Judged;
use mst_path::{Trace, bridges_met, path};
use mst_roles::Settled;
use std::alloc::{AllocError, Global};

/// The hops of the path of a VID from one bridge to another, and the bridges that it meets, if there is one.
fn stretch(
    alloc: Global,
    plan: &Settled,
    vid: Vid,
    from: &Name,
    to: &Name,
) -> Result<Option<Stretch>, AllocError>
    ensures { IfOk result (λ stretch. HasStretch plan.now.net (outcome_of plan.now) from.now to.now vid (told_of stretch)) }
{
    let trace = Trace {
        vid,
        from: *from,
        to: *to,
    };
    let Some(hops) = path(alloc, plan, &trace)? else {
        return Ok(None);
    };
    let bridges = bridges_met(alloc, from, hops.as_slice())?;
    Ok(Some(Stretch {
        hops: hops.len(),
        bridges,
    }))
}

/// What is told of the paths of a VID.
fn told(
    alloc: Global,
    plan: &Settled,
    asked: &Asked,
    vid: Vid,
) -> Result<Option<Stretch>, AllocError>
    ensures { IfOk result (λ stretch. HasTold plan.now.net (outcome_of plan.now) asked.now vid (told_of stretch)) }
{
    match asked {
        Asked::Hops { bridges, .. } => longest(alloc, plan, vid, *bridges),
        Asked::Via { from, to, .. } => stretch(alloc, plan, vid, from, to),
    }
}

/// What is told of the paths of the first VID of a class, if it has a flag.
fn told_at(
    alloc: Global,
    judged: &Judged,
    asked: &Asked,
    class: usize,
    flag: bool,
) -> Result<Option<Stretch>, AllocError>
    requires classes { AreClasses judged.now.plan.now.view judged.now.before.now.classes }
    requires there { class < length judged.now.before.now.classes.firsts.items }
    ensures { IfOk result (λ stretch. flag ≡ true → HasTold judged.now.plan.now.net (outcome_of judged.now.plan.now) asked.now (slice_index judged.now.before.now.classes.firsts.items class + 1) (told_of stretch)) }
{
    if !flag {
        return Ok(None);
    }
    let firsts = judged.before.classes.firsts.as_slice();
    let vid = Vid::new(firsts[class] as u64 + 1).unwrap();
    told(alloc, judged.plan, asked, vid)
}

/// What is told of the paths of the classes of VIDs that have a flag.
pub(crate) fn values(
    alloc: Global,
    judged: &Judged,
    asked: &Asked,
    flags: &[bool],
) -> Result<Vec<Option<Stretch>>, AllocError>
    requires classes { AreClasses judged.now.plan.now.view judged.now.before.now.classes }
    requires flags { length flags.now ≡ length judged.now.before.now.classes.firsts.items }
    ensures as_long { IfOk result (λ values. vec_len values ≡ length flags.now) }
    ensures told { IfOk result (λ values. AreValuesOf None (HasTold judged.now.plan.now.net (outcome_of judged.now.plan.now) asked.now) judged.now.before.now.classes.firsts.items flags.now (map told_of values.items)) }
{
    let mut values = Vec::new(alloc);
    for class in 0..flags.len() {
        let told = told_at(alloc, judged, asked, class, flags[class])?;
        values.push(told)?;
    }
    Ok(values)
}
