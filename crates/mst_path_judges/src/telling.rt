ghost use Rattle.std.specs.Prelude.{◌≡◌, ◌++◌, None, Some, IfOk, OnOk, length, map};
ghost use Rattle.std.specs.List.{flat_map, list_any};
ghost use Rattle.mst_graph.specs.Groups.{AreGroups};
ghost use Rattle.mst_view.specs.Aggregation.{same_name};
ghost use Rattle.mst_judged.specs.reasons.sweep.vlan.classes.AllVids.{NumberEach};
ghost use Rattle.mst_judged.specs.reasons.Named.{vids_in};
ghost use Rattle.mst_judged.specs.reasons.Reasons.{AreVidReasons, group_reasons, some_of};
ghost use Rattle.mst_judged.specs.Valued.{value_at};
ghost use Rattle.mst_path_judges.specs.Asked.{tells, told, told_of};

use crate::asked::Asked;
use crate::stretch::Stretch;
use mst_graph::groups_by_body;
use mst_ids::{Name, Vid, VidSet};
use mst_judged::{BridgeNames, Reason, class_of, classes_of, set_of, vids_of};
use std::alloc::{AllocError, Global};

/// Whether a bridge is one of these.
fn is_in(bridges: &[Name], bridge: &Name) -> bool
    ensures { result ≡ list_any (same_name bridge.now) bridges.now }
{
    bridges.iter().any(|other| *bridge == *other)
}

/// What is told of a group of VIDs that have this stretch, if something is.
fn reason(
    alloc: Global,
    asked: &Asked,
    group: &[Vid],
    stretch: &Stretch,
) -> Result<Option<Reason>, AllocError>
    ensures { IfOk result (λ reason. some_of reason ≡ tells asked.now group.now (Some (told stretch.now))) }
{
    match asked {
        Asked::Hops { most, .. } => {
            if stretch.hops as u64 <= *most {
                return Ok(None);
            }
            Ok(Some(Reason::TooManyHops {
                vids: set_of(group),
                hops: stretch.hops as u64,
                bridges: copied(alloc, stretch)?,
            }))
        }
        Asked::Via { by, .. } => {
            if is_in(stretch.bridges.as_slice(), by) {
                return Ok(None);
            }
            Ok(Some(Reason::NotVia {
                vids: set_of(group),
                bridges: copied(alloc, stretch)?,
            }))
        }
    }
}

/// The bridges of a stretch.
fn copied(alloc: Global, stretch: &Stretch) -> Result<BridgeNames, AllocError>
    ensures { IfOk result (λ bridges. bridges ≡ stretch.now.bridges.items) }
{
    let bridges = Vec::from_slice(alloc, stretch.bridges.as_slice())?;
    Ok(BridgeNames::of(bridges))
}

/// The same, where a stretch is kept for the VIDs.
fn group_reason(
    alloc: Global,
    asked: &Asked,
    group: &[Vid],
    value: &Option<Stretch>,
) -> Result<Option<Reason>, AllocError>
    ensures { IfOk result (λ reason. some_of reason ≡ tells asked.now group.now (told_of value.now)) }
{
    match value {
        None => Ok(None),
        Some(stretch) => reason(alloc, asked, group, stretch),
    }
}

/// Adds what is told of a group of VIDs, where this stretch is kept for them.
fn add_reason(
    alloc: Global,
    asked: &Asked,
    group: &[Vid],
    value: &Option<Stretch>,
    reasons: &mut Vec<Reason>,
) -> Result<(), AllocError>
    ensures { OnOk result (reasons.new.items ≡ reasons.old.items ++ tells asked.now group.now (told_of value.now)) }
{
    if let Some(told) = group_reason(alloc, asked, group, value)? {
        reasons.push(told)?;
    }
    Ok(())
}

/// Adds what is told of a group of VIDs by the stretch of its first.
fn add_group(
    alloc: Global,
    asked: &Asked,
    group: &[Vid],
    numbers: &[usize],
    values: &[Option<Stretch>],
    reasons: &mut Vec<Reason>,
) -> Result<(), AllocError>
    requires { NumberEach numbers.now (length values.now) }
    ensures { OnOk result (reasons.new.items ≡ reasons.old.items ++ group_reasons (tells asked.now) (value_at None numbers.now (map told_of values.now)) group.now) }
{
    let Some(vid) = group.first() else {
        return Ok(());
    };
    let number = class_of(numbers, *vid, values.len());
    add_reason(alloc, asked, group, &values[number], reasons)
}

/// What is told of groups of VIDs.
fn told_groups(
    alloc: Global,
    asked: &Asked,
    groups: &[Vec<Vid>],
    numbers: &[usize],
    values: &[Option<Stretch>],
) -> Result<Vec<Reason>, AllocError>
    requires { NumberEach numbers.now (length values.now) }
    ensures { IfOk result (λ reasons. reasons.items ≡ flat_map (group_reasons (tells asked.now) (value_at None numbers.now (map told_of values.now))) (map (λ group. group.items) groups.now)) }
{
    let mut reasons = Vec::new(alloc);
    for group in groups {
        add_group(
            alloc,
            asked,
            group.as_slice(),
            numbers,
            values,
            &mut reasons,
        )?;
    }
    Ok(reasons)
}

/// These stretches, borrowed.
fn borrowed<'a>(
    alloc: Global,
    values: &'a [Option<Stretch>],
) -> Result<Vec<&'a Option<Stretch>>, AllocError>
    ensures { IfOk result (λ borrowed. map (λ value. value.now) borrowed.items ≡ values.now) }
{
    let mut borrowed = Vec::new(alloc);
    for value in values {
        borrowed.push(value)?;
    }
    Ok(borrowed)
}

/// The groups of these VIDs whose classes have equal stretches, by their least VIDs.
fn grouped(
    alloc: Global,
    numbers: &[usize],
    vids: &VidSet,
    values: &[Option<Stretch>],
) -> Result<Vec<Vec<Vid>>, AllocError>
    requires { NumberEach numbers.now (length values.now) }
    ensures { IfOk result (λ groups. AreGroups (λ x y. value_at None numbers.now (map told_of values.now) x ≡ value_at None numbers.now (map told_of values.now) y) (vids_in vids.now) (map (λ group. group.items) groups.items)) }
{
    let vids = vids_of(alloc, vids)?;
    let classes = classes_of(alloc, numbers, vids.as_slice(), values.len())?;
    let borrowed = borrowed(alloc, values)?;
    groups_by_body(alloc, vids.as_slice(), classes.as_slice(), borrowed)
}

/// What is told of these VIDs by the stretches of their classes, VIDs of equal stretches in one reason, by the least VID. `AllocError`: memory
/// was wanted and refused.
pub(crate) fn vid_reasons(
    alloc: Global,
    asked: &Asked,
    numbers: &[usize],
    vids: &VidSet,
    values: &[Option<Stretch>],
) -> Result<Vec<Reason>, AllocError>
    requires { NumberEach numbers.now (length values.now) }
    ensures { IfOk result (λ reasons. AreVidReasons (λ vid value. value ≡ value_at None numbers.now (map told_of values.now) vid) (tells asked.now) vids.now reasons.items) }
{
    let groups = grouped(alloc, numbers, vids, values)?;
    told_groups(alloc, asked, groups.as_slice(), numbers, values)
}
