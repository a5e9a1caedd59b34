ghost use Rattle.std.specs.Prelude.{◌≡◌, filter};
ghost use Rattle.mst_judged.specs.reasons.sweep.facts.Both.{seen_both};
ghost use Rattle.mst_judged.specs.reasons.Named.{is_named};

use mst_judged::{Both, Judged, Prior};
use mst_policy::NameList;

/// The network that is judged and the one that is prior to it, with the bridges of some names that both have.
#[derive(Clone, Copy)]
pub(crate) struct Compared<'a> {
    pub judged: &'a Judged<'a>,
    pub prior: &'a Prior<'a>,
    pub names: &'a NameList,
    pub(crate) both: &'a [Both],
    ghost are_both: { both.now ≡ filter (λ b. is_named judged.now.lost.now names.now b.old.name) (seen_both prior.now.old.now.view judged.now.plan.now.view) },
}
