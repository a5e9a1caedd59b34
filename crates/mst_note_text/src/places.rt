ghost use Rattle.std.specs.Prelude.{IfOk};
ghost use Rattle.mst_note_text.specs.declared.member.Member.{Member as MemberOf};
ghost use Rattle.mst_view.specs.declared.in_view.BridgeInView.{BridgeInView as BridgeOf};
ghost use Rattle.mst_note_text.specs.Placed.{ArePlaces};

use crate::member::Member;
use indexmap::IndexMap;
use mst_ids::{BridgeNo, Mac};
use mst_view::BridgeInView;
use std::alloc::{AllocError, Global};

/// The places of the bridges of a tree, by the numbers of their records.
pub(crate) type Places = IndexMap<BridgeNo, usize>;

/// The places of the bridges of a view, by their MACs.
pub(crate) type Macs = IndexMap<Mac, usize>;

/// The places of these bridges.
pub(crate) fn places_of(alloc: Global, members: &[Member]) -> Result<Places, AllocError>
    ensures { IfOk result (λ places. ArePlaces (λ (m : MemberOf). m.number) members.now places.entries) }
{
    let mut places = IndexMap::new(alloc);
    for (place, member) in members.iter().enumerate() {
        places.insert(member.number, place)?;
    }
    Ok(places)
}

/// The places of these bridges.
pub(crate) fn macs_of(alloc: Global, bridges: &[BridgeInView]) -> Result<Macs, AllocError>
    ensures { IfOk result (λ macs. ArePlaces (λ (b : BridgeOf). b.bridge.mac) bridges.now macs.entries) }
{
    let mut macs = IndexMap::new(alloc);
    for (place, bridge) in bridges.iter().enumerate() {
        macs.insert(bridge.bridge.mac, place)?;
    }
    Ok(macs)
}
