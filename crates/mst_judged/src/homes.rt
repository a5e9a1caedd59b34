ghost use Rattle.std.specs.Prelude.{◌≡◌, ◌<◌, ◌+◌, IfOk, MatchOption, [], length, ⊤};
ghost use Rattle.std.specs.List.{All};
ghost use Rattle.mst_roles.specs.forest.Settled.{outcome_of, SettledNet};
ghost use Rattle.mst_reasons.specs.sweep.vlan.classes.Classes.{AreClasses};
ghost use Rattle.mst_reasons.specs.sweep.Baseline.{AreHomes};
ghost use Rattle.mst_judged.specs.Islands.{AreAlike, AreKept, AreMade, AreMadeBy, HasHomesBy, HasIslandsOf};

use crate::before::Before;
use crate::vids::classes_asked;
use indexmap::IndexMap;
use mst_ids::{BridgeNo, Vid, VidSet};
use mst_reasons::{Carriage, Planned, differing, homes_by, homes_of};
use mst_roles::Settled;
use std::alloc::{AllocError, Global};

/// The islands of some classes of VIDs in a network, made once for all expectations that ask for them.
#[derive(Drop)]
pub struct Homes {
    // For each class, if they are made, the places of islands, by the numbers of the bridges in them.
    pub made: Vec<Option<IndexMap<BridgeNo, usize>>>,
    // For each class a flag, false only where what is kept of the network before the failure tells its islands here, too.
    pub differ: Vec<bool>,
}

/// The places of the islands of a VID, by the numbers of the bridges in them.
pub fn homes_in(
    alloc: Global,
    plan: &Settled,
    vid: Vid,
) -> Result<IndexMap<BridgeNo, usize>, AllocError>
    ensures { IfOk result (λ homes. AreHomes plan.now.net plan.now.numbers (outcome_of plan.now) vid homes.entries) }
{
    plan.known();
    let planned = Planned {
        view: plan.view(),
        forest: plan.forest(),
    };
    homes_of(alloc, &planned, vid)
}

/// Those of the VID at a place, which is counted from 0.
fn made_one(
    alloc: Global,
    carriage: &Carriage,
    place: usize,
) -> Result<IndexMap<BridgeNo, usize>, AllocError>
    requires { place < 4094 }
    ensures { IfOk result (λ homes. HasHomesBy carriage.now (place + 1) homes.entries) }
{
    let vid = Vid::new(place as u64 + 1).unwrap();
    homes_by(alloc, carriage, vid)
}

/// The same, where the flag says so and there is a table to make them by.
fn made_if(
    alloc: Global,
    carriage: &Carriage,
    place: usize,
    flag: bool,
) -> Result<Option<IndexMap<BridgeNo, usize>>, AllocError>
    requires { place < 4094 }
    ensures { IfOk result (λ made. MatchOption made ⊤ (λ homes. HasHomesBy carriage.now (place + 1) homes.entries)) }
{
    if flag {
        return Ok(Some(made_one(alloc, carriage, place)?));
    }
    Ok(None)
}

/// Those of the VIDs at these places, which are counted from 0, where the flags say so.
pub(crate) fn made_at(
    alloc: Global,
    carriage: &Carriage,
    places: &[usize],
    flags: &[bool],
) -> Result<Vec<Option<IndexMap<BridgeNo, usize>>>, AllocError>
    requires vids { All (λ place. place < 4094) places.now }
    requires flags { length flags.now ≡ length places.now }
    ensures { IfOk result (λ made. AreMadeBy carriage.now places.now made.items) }
{
    let mut made = Vec::new(alloc);
    for class in 0..places.len() {
        made.push(made_if(alloc, carriage, places[class], flags[class])?)?;
    }
    Ok(made)
}

/// None for each of these places.
fn none_at(
    alloc: Global,
    places: &[usize],
) -> Result<Vec<Option<IndexMap<BridgeNo, usize>>>, AllocError>
    ensures { IfOk result (λ made. (s : SettledNet) → AreMade s places.now made.items) }
{
    let mut made = Vec::new(alloc);
    for class in 0..places.len() {
        let _class = class;
        made.push(None)?;
    }
    Ok(made)
}

/// The same, by a table of the network that is made once, if any VID is asked for.
fn made_of(
    alloc: Global,
    plan: &Settled,
    places: &[usize],
    flags: &[bool],
    is_none: bool,
) -> Result<Vec<Option<IndexMap<BridgeNo, usize>>>, AllocError>
    requires vids { All (λ place. place < 4094) places.now }
    requires flags { length flags.now ≡ length places.now }
    ensures { IfOk result (λ made. AreMade plan.now places.now made.items) }
{
    if is_none {
        return none_at(alloc, places);
    }
    plan.known();
    let carriage = Carriage::new(alloc, plan.view(), plan.forest())?;
    made_at(alloc, &carriage, places, flags)
}

/// The classes that have both flags.
pub(crate) fn with_both(
    alloc: Global,
    asked: &[bool],
    differ: &[bool],
) -> Result<Vec<bool>, AllocError>
    requires { length asked.now ≡ length differ.now }
    ensures { IfOk result (λ flags. length flags.items ≡ length differ.now) }
{
    let mut flags = Vec::new(alloc);
    for class in 0..differ.len() {
        flags.push(asked[class] && differ[class])?;
    }
    Ok(flags)
}

impl Homes {
    /// The islands of those classes of a network's VIDs that have one of these. What is kept of the network before the failure has the
    /// classes. `AllocError`: memory was wanted and refused.
    pub fn new(
        alloc: Global,
        plan: &Settled,
        before: &Before,
        vids: &VidSet,
    ) -> Result<Homes, AllocError>
        requires { AreClasses plan.now.view before.now.classes }
        ensures made { IfOk result (λ homes. AreMade plan.now before.now.classes.firsts.items homes.made.items) }
        ensures none { IfOk result (λ homes. homes.differ.items ≡ []) }
        ensures kept { IfOk result (AreKept plan.now before.now) }
    {
        let flags = classes_asked(
            alloc,
            before.classes.numbers.as_slice(),
            vids,
            before.classes.firsts.len(),
        )?;
        let places = before.classes.firsts.as_slice();
        let made = made_of(alloc, plan, places, flags.as_slice(), vids.is_empty())?;
        let differ = Vec::new(alloc);
        Ok(Homes { made, differ })
    }

    /// The same, where islands are kept of the network before the failure, of which `old` tells what carries its VIDs: none are made for
    /// a class that the same ports carry in both networks, as what is kept of it tells its islands here, too. `AllocError`: memory was
    /// wanted and refused.
    pub fn beside(
        alloc: Global,
        old: &Carriage,
        plan: &Settled,
        before: &Before,
        vids: &VidSet,
    ) -> Result<Homes, AllocError>
        requires classes { AreClasses plan.now.view before.now.classes }
        requires islands { HasIslandsOf old.now plan.now.numbers before.now }
        ensures kept { IfOk result (AreKept plan.now before.now) }
        ensures alike { IfOk result (λ homes. AreAlike old.now plan.now before.now.classes.firsts.items homes.differ.items) }
    {
        if vids.is_empty() {
            return Homes::new(alloc, plan, before, vids);
        }
        plan.known();
        let places = before.classes.firsts.as_slice();
        let numbers = before.classes.numbers.as_slice();
        let asked = classes_asked(alloc, numbers, vids, places.len())?;
        let carriage = Carriage::new(alloc, plan.view(), plan.forest())?;
        let differ = differing(alloc, old, &carriage, places)?;
        let flags = with_both(alloc, asked.as_slice(), differ.as_slice())?;
        let made = made_at(alloc, &carriage, places, flags.as_slice())?;
        Ok(Homes { made, differ })
    }
}

/// Where a bridge is among the islands of a VID.
#[derive(Clone, Copy, PartialEq, Eq, Hash)]
pub enum Home {
    /// In the one at this place.
    Island(usize),
    /// In none, as it is off.
    Alone(BridgeNo),
}
