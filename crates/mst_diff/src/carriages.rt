ghost use Rattle.std.specs.Prelude.{◌≡◌};
ghost use Rattle.mst_vlan.specs.Carried.{with_trees};

use mst_vlan::{Carriage, Settled};

/// Two settled networks, one before a change and one after it, each with the table of the ports that carry each VID.
#[derive(Clone, Copy)]
pub(crate) struct Carriages<'a> {
    pub(crate) old: &'a Settled<'a>,
    pub(crate) new: &'a Settled<'a>,
    pub(crate) before: &'a Carriage<'a>,
    pub(crate) after: &'a Carriage<'a>,
    ghost is_before: { before.now ≡ with_trees old.now },
    ghost is_after: { after.now ≡ with_trees new.now },
}
