ghost use Rattle.std.specs.Prelude.{◌≡◌, ◌++◌, IfOk, OnOk, length, map};
ghost use Rattle.std.specs.List.{flat_map};
ghost use Rattle.mst_graph.specs.Lists.{has_any};
ghost use Rattle.mst_judged.specs.reasons.sweep.vlan.classes.AllVids.{NumberEach};
ghost use Rattle.mst_judged.specs.reasons.sweep.Cuts.{names_of, parts_at as parts_at_vid};
ghost use Rattle.mst_judged.specs.Islands.{HasBody};
ghost use Rattle.mst_island_judges.specs.Grouping.{reason_of as reason_of_parts, tells, tells_of};
ghost use Rattle.mst_judged.specs.reasons.Reasons.{AreVidReasons, group_reasons};

use crate::parting::{copy, grouped};
use mst_ids::{Name, Vid, VidSet};
use mst_judged::{Parts, Reason, class_of, has_two, set_of};
use std::alloc::{AllocError, Global};

/// What is told of VIDs that have parts.
#[derive(Clone, Copy)]
pub(crate) enum Telling {
    /// That bridges are in them, where there are two.
    Reach,
    /// That bridges of two lists are.
    Apart,
    /// That bridges of a list and others are.
    Leaves,
    /// That bridges came apart into them.
    Together,
}

/// Whether there are parts.
fn is_any(parts: &[Vec<Name>]) -> bool
    ensures { result ≡ has_any (map (λ part. part.items) parts.now) }
{
    match parts {
        [] => false,
        [..] => true,
    }
}

/// Whether parts are told.
fn is_told(telling: Telling, parts: &[Vec<Name>]) -> bool
    ensures { result ≡ tells_of telling (map (λ part. part.items) parts.now) }
{
    match telling {
        Telling::Reach => has_two(parts),
        Telling::Apart => is_any(parts),
        Telling::Leaves => is_any(parts),
        Telling::Together => is_any(parts),
    }
}

/// The reason of VIDs that have these parts.
fn reason_of(telling: Telling, vids: VidSet, parts: Parts) -> Reason
    ensures { result ≡ reason_of_parts telling vids parts }
{
    match telling {
        Telling::Reach => Reason::Reach { vids, parts },
        Telling::Apart => Reason::Apart { vids, parts },
        Telling::Leaves => Reason::Leaves { vids, parts },
        Telling::Together => Reason::Together { vids, parts },
    }
}

/// Adds the reason of a group of VIDs that have these parts, if they are told.
fn add_parts(
    alloc: Global,
    telling: Telling,
    group: &[Vid],
    parts: &[Vec<Name>],
    reasons: &mut Vec<Reason>,
) -> Result<(), AllocError>
    ensures { OnOk result (reasons.new.items ≡ reasons.old.items ++ tells telling group.now (map (λ part. part.items) parts.now)) }
{
    if is_told(telling, parts) {
        let copied = Parts::of(copy(alloc, parts)?);
        reasons.push(reason_of(telling, set_of(group), copied))?;
    }
    Ok(())
}

/// Adds the reason of a group of VIDs by the parts of its first, if they are told.
fn add_group(
    alloc: Global,
    telling: Telling,
    group: &[Vid],
    numbers: &[usize],
    bodies: &[Vec<Vec<Name>>],
    reasons: &mut Vec<Reason>,
) -> Result<(), AllocError>
    requires { NumberEach numbers.now (length bodies.now) }
    ensures { OnOk result (reasons.new.items ≡ reasons.old.items ++ group_reasons (tells telling) (parts_at_vid numbers.now (map names_of bodies.now)) group.now) }
{
    let Some(vid) = group.first() else {
        return Ok(());
    };
    let number = class_of(numbers, *vid, bodies.len());
    add_parts(alloc, telling, group, bodies[number].as_slice(), reasons)
}

/// The reasons of groups of VIDs.
fn told(
    alloc: Global,
    telling: Telling,
    groups: &[Vec<Vid>],
    numbers: &[usize],
    bodies: &[Vec<Vec<Name>>],
) -> Result<Vec<Reason>, AllocError>
    requires { NumberEach numbers.now (length bodies.now) }
    ensures { IfOk result (λ reasons. reasons.items ≡ flat_map (group_reasons (tells telling) (parts_at_vid numbers.now (map names_of bodies.now))) (map (λ group. group.items) groups.now)) }
{
    let mut reasons = Vec::new(alloc);
    for group in groups {
        add_group(
            alloc,
            telling,
            group.as_slice(),
            numbers,
            bodies,
            &mut reasons,
        )?;
    }
    Ok(reasons)
}

/// The reasons of these VIDs by the parts of their classes, VIDs of equal parts in one reason, by the least VID. `AllocError`: memory was wanted
/// and refused.
pub(crate) fn vid_reasons(
    alloc: Global,
    telling: Telling,
    numbers: &[usize],
    vids: &VidSet,
    bodies: &[Vec<Vec<Name>>],
) -> Result<Vec<Reason>, AllocError>
    requires { NumberEach numbers.now (length bodies.now) }
    ensures { IfOk result (λ reasons. AreVidReasons (HasBody numbers.now (map names_of bodies.now)) (tells telling) vids.now reasons.items) }
{
    let groups = grouped(alloc, numbers, vids, bodies)?;
    told(alloc, telling, groups.as_slice(), numbers, bodies)
}
