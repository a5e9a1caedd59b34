ghost use Rattle.std.specs.Prelude.{◌≡◌};
ghost use Rattle.mst_vlan.specs.forest.InUse.{AreInUse};
ghost use Rattle.mst_facts.specs.Both.{seen_both};

use mst_facts::Both;
use mst_vlan::Settled;

/// Two settled networks, one before a change and one after it, the bridges that both have, and the trees that each has
/// beside the CIST.
#[derive(Clone, Copy)]
pub(crate) struct Change<'a> {
    pub(crate) old: &'a Settled<'a>,
    pub(crate) new: &'a Settled<'a>,
    pub(crate) both: &'a [Both],
    pub(crate) used: &'a [bool; 4095],
    pub(crate) used_too: &'a [bool; 4095],
    ghost are_both: { both.now ≡ seen_both old.now.view new.now.view },
    ghost are_used: { AreInUse old.now.view used.now },
    ghost are_used_too: { AreInUse new.now.view used_too.now },
}
