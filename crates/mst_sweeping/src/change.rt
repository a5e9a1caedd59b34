ghost use Rattle.std.specs.Prelude.{◌≡◌, ℕ, List};
ghost use Rattle.std.specs.HashSet.{contains};
ghost use Rattle.mst_view.specs.Aggregation.{same_name};
ghost use Rattle.mst_sweep.specs.facts.Both.{seen_both};
ghost use Rattle.mst_sweep.specs.Breaking.{IsCarriageOf};
ghost use Rattle.mst_sweeping.specs.Seen.{seen_on, seen_stays};

use indexmap::IndexSet;
use mst_ids::Name;
use mst_policy::Leaving;
use mst_sweep::{Both, Carriage, Planned};

/// Two settled networks, one before a step and one after it, what carries each VID in them, the bridges that both have, in the order of
/// the one and in that of the other, the names of the bridges that are on in each, and which are meant to leave VIDs.
#[derive(Clone, Copy)]
pub(crate) struct Change<'a> {
    pub(crate) old: &'a Planned<'a>,
    pub(crate) new: &'a Planned<'a>,
    pub(crate) before: &'a Carriage<'a>,
    pub(crate) afterwards: &'a Carriage<'a>,
    pub(crate) both: &'a [Both],
    pub(crate) turned: &'a [Both],
    pub(crate) old_on: &'a IndexSet<Name>,
    pub(crate) new_on: &'a IndexSet<Name>,
    pub(crate) leaving: &'a Leaving<'a>,
    ghost is_before: { IsCarriageOf old.now before.now },
    ghost is_afterwards: { IsCarriageOf new.now afterwards.now },
    ghost are_both: { both.now ≡ seen_both old.now.view.now new.now.view.now },
    ghost are_turned: { turned.now ≡ seen_both new.now.view.now old.now.view.now },
    ghost are_old_on: { (name : List ℕ) → contains same_name old_on.now name ≡ seen_on old.now.view.now name },
    ghost are_new_on: { (name : List ℕ) → contains same_name new_on.now name ≡ seen_on new.now.view.now name },
}

/// Whether a bridge is on in both networks.
pub(crate) fn stays(change: &Change, bridge: &Name) -> bool
    ensures { result ≡ seen_stays change.now.old.now.view.now change.now.new.now.view.now bridge.now }
{
    change.old_on.contains(bridge) && change.new_on.contains(bridge)
}
