ghost use Rattle.std.specs.Prelude.{◌≡◌, true, false, IfOk, OnOk, OnErr};
ghost use Rattle.mst_config.specs.Touching.{touches_regions};
ghost use Rattle.mst_net.specs.tables.Contents.{CanCommit, ahead_of};
ghost use Rattle.mst_plan.specs.Kept.{HasRegions, IsKept, WasKept, is_settled_of, regions_stand_in, settled_by, standing_in};
ghost use Rattle.mst_plan.specs.Plan.{IsPlan};
ghost use Rattle.mst_plan.specs.Standing.{KeepsBounds, msti_settlings, settlings_of, standing_of};
ghost use Rattle.mst_trees.specs.Bound.{SettlesNoUnused};

use crate::plan::{Plan, next_trees, plan_from, regions_now};
use mst_config::laws::regions_stay;
use mst_config::{Regions, regions_of, touches_regions};
use mst_ids::Tree;
use mst_lang::Edit;
use mst_net::{Contents, Network, Ready};
use mst_trees::Forest;
use std::alloc::{AllocError, Global};
use std::mem::replace;

/// What is kept of what follows from a network.
pub enum KeptPlan {
    /// Nothing: no plan was settled yet.
    Nothing,
    /// The plan of the network as it is now.
    Settled(Plan),
    /// The plan of the network before edits.
    Earlier {
        /// That plan: its trees are those that stand.
        plan: Plan,
        /// Its regions are the network's still: no edit since has touched one.
        regions_stand: bool,
        /// Its view is the network's: the one edit since was one for which it was renewed.
        view_stands: bool,
    },
}

// By hand, as a plan's.
impl Drop for KeptPlan {
    fn drop(self) {
        match self {
            KeptPlan::Nothing => {}
            KeptPlan::Settled(_) => {}
            KeptPlan::Earlier {
                plan: _,
                regions_stand: _,
                view_stands: _,
            } => {}
        }
    }
}

impl KeptPlan {
    /// Whether the plan is that of the network as it is now.
    pub fn is_settled(&self) -> bool
        ensures { result ≡ is_settled_of self.now }
    {
        matches!(self, KeptPlan::Settled(_))
    }

    /// The plan.
    pub fn plan(&self) -> &Plan
        requires { is_settled_of self.now ≡ true }
        ensures { self.now ≡ KeptPlan.Settled result.now }
    {
        match self {
            KeptPlan::Settled(plan) => plan,
            _ => unreachable!(),
        }
    }

    /// Takes the plan, and keeps nothing.
    pub fn take(&mut self) -> Plan
        requires { is_settled_of self.old ≡ true }
        ensures plan { self.old ≡ KeptPlan.Settled result }
        ensures nothing { self.new ≡ KeptPlan.Nothing }
    {
        let kept = replace(self, KeptPlan::Nothing);
        kept.into_plan()
    }

    /// The plan, which is settled.
    fn into_plan(self) -> Plan
        requires { is_settled_of self ≡ true }
        ensures { self ≡ KeptPlan.Settled result }
    {
        match self {
            KeptPlan::Settled(plan) => plan,
            KeptPlan::Nothing
            | KeptPlan::Earlier {
                plan: _,
                regions_stand: _,
                view_stands: _,
            } => unreachable!(),
        }
    }

    /// How often a bridge was settled in a tree when the plan was settled last, and 0 where none was.
    pub fn settlings(&self, tree: Tree) -> u64
        ensures { result ≡ settlings_of (standing_in self.now) tree }
    {
        match self {
            KeptPlan::Nothing => 0,
            KeptPlan::Settled(plan) | KeptPlan::Earlier { plan, .. } => plan.forest.settlings(tree),
        }
    }

    /// The plan of a network as it will be once an edit is made: its trees are repaired from those that stand, and its
    /// regions are copied where they stand. `AllocError`: memory was wanted and refused.
    pub fn ahead(
        &self,
        alloc: Global,
        network: &Network,
        ready: &Ready,
        edit: &Edit,
    ) -> Result<Plan, AllocError>
        requires kept { IsKept network.now.net network.now.numbers self.now }
        requires ready { CanCommit ready.now network.now }
        requires edit { ready.now ≡ edit.now }
        ensures plan { IfOk result (IsPlan (ahead_of network.now edit.now).net (ahead_of network.now edit.now).numbers) }
        ensures bounds { IfOk result (λ plan. KeepsBounds (standing_in self.now) (standing_of plan.forest)) }
        ensures unused { IfOk result (λ plan. SettlesNoUnused (ahead_of network.now edit.now).net (msti_settlings (standing_of plan.forest))) }
    {
        regions_stay();
        let regions_stand = self.regions_outlast(edit);
        self.next(alloc, &network.ahead(ready), regions_stand)
    }

    /// Keeps what stands once an edit was made in the network. The view of a plan that was settled is renewed, where that can be
    /// done for the edit. That of an earlier one isn't: a script of many edits would renew a view for each, which no query asks
    /// for.
    pub fn edited(&mut self, alloc: Global, network: &Network, edit: &Edit)
        requires { WasKept edit.now network.now self.old }
        ensures kept { IsKept network.now.net network.now.numbers self.new }
        ensures settled { is_settled_of self.new ≡ false }
        ensures standing { standing_in self.new ≡ standing_in self.old }
    {
        let kept = replace(self, KeptPlan::Nothing);
        *self = kept.after(alloc, network, edit);
    }

    /// Brings the plan up to the network: by its view, where that is the network's, and else by one made anew. Each tree is
    /// repaired from the one that stands. `AllocError`: memory was wanted and refused, and what is kept is as it was.
    pub fn settle(&mut self, alloc: Global, network: &Network) -> Result<(), AllocError>
        requires { IsKept network.now.net network.now.numbers self.old }
        ensures kept { IsKept network.now.net network.now.numbers self.new }
        ensures settled { OnOk result (is_settled_of self.new ≡ true) }
        ensures idle { is_settled_of self.old ≡ true → self.new ≡ self.old }
        ensures bounds { OnOk result (is_settled_of self.old ≡ false → KeepsBounds (standing_in self.old) (standing_in self.new)) }
        ensures unused { OnOk result (is_settled_of self.old ≡ false → SettlesNoUnused network.now.net (msti_settlings (standing_in self.new))) }
        ensures as_it_was { OnErr result (self.new ≡ self.old) }
    {
        match self {
            KeptPlan::Settled(_) => Ok(()),
            KeptPlan::Earlier {
                plan,
                regions_stand,
                view_stands: true,
            } => {
                let (regions, forest) = next_trees(alloc, network, plan, *regions_stand)?;
                let kept = replace(self, KeptPlan::Nothing);
                *self = kept.settled_by(regions, forest);
                Ok(())
            }
            _ => {
                let plan = self.next(alloc, network, self.regions_stand())?;
                *self = KeptPlan::Settled(plan);
                Ok(())
            }
        }
    }

    /// The plan, settled by these regions and trees in the place of its own.
    fn settled_by(self, regions: Regions, forest: Forest) -> KeptPlan
        ensures { result ≡ settled_by self regions forest }
    {
        match self {
            KeptPlan::Nothing => KeptPlan::Nothing,
            KeptPlan::Settled(plan)
            | KeptPlan::Earlier {
                plan,
                regions_stand: _,
                view_stands: _,
            } => KeptPlan::Settled(plan.with(regions, forest)),
        }
    }

    /// What stands once an edit was made.
    fn after(self, alloc: Global, network: &Network, edit: &Edit) -> KeptPlan
        requires { WasKept edit.now network.now self }
        ensures kept { IsKept network.now.net network.now.numbers result }
        ensures settled { is_settled_of result ≡ false }
        ensures standing { standing_in result ≡ standing_in self }
    {
        regions_stay();
        let regions_stand = self.regions_outlast(edit);
        match self {
            KeptPlan::Nothing => KeptPlan::Nothing,
            KeptPlan::Settled(plan) => {
                let (plan, view_stands) = plan.after(alloc, network, edit);
                KeptPlan::Earlier {
                    plan,
                    regions_stand,
                    view_stands,
                }
            }
            KeptPlan::Earlier {
                plan,
                regions_stand: _,
                view_stands: _,
            } => KeptPlan::Earlier {
                plan,
                regions_stand,
                view_stands: false,
            },
        }
    }

    /// Whether its regions are the network's still once an edit is made: they are before, and it touches none.
    fn regions_outlast(&self, edit: &Edit) -> bool
        ensures stood { result ≡ true → regions_stand_in self.now ≡ true }
        ensures untouched { result ≡ true → touches_regions edit.now ≡ false }
    {
        self.regions_stand() && !touches_regions(edit)
    }

    /// Whether its regions are known to be the network's.
    fn regions_stand(&self) -> bool
        ensures { result ≡ regions_stand_in self.now }
    {
        match self {
            KeptPlan::Nothing => false,
            KeptPlan::Settled(_) => true,
            KeptPlan::Earlier { regions_stand, .. } => *regions_stand,
        }
    }

    /// The plan of a network, or of one as it will be once an edit is made: its trees are repaired from those that stand, if any
    /// do, and its regions are copied where they stand. `AllocError`: memory was wanted and refused.
    fn next<C: Contents>(
        &self,
        alloc: Global,
        contents: &C,
        regions_stand: bool,
    ) -> Result<Plan, AllocError>
        requires { regions_stand ≡ true → HasRegions (C.tables contents.now).net (C.tables contents.now).numbers self.now }
        ensures plan { IfOk result (IsPlan (C.tables contents.now).net (C.tables contents.now).numbers) }
        ensures bounds { IfOk result (λ plan. KeepsBounds (standing_in self.now) (standing_of plan.forest)) }
        ensures unused { IfOk result (λ plan. SettlesNoUnused (C.tables contents.now).net (msti_settlings (standing_of plan.forest))) }
    {
        match self {
            KeptPlan::Nothing => {
                let regions = regions_of(alloc, contents)?;
                plan_from(alloc, contents, regions, &Forest::empty(alloc))
            }
            KeptPlan::Settled(plan) | KeptPlan::Earlier { plan, .. } => {
                let regions = regions_now(alloc, contents, plan, regions_stand)?;
                plan_from(alloc, contents, regions, &plan.forest)
            }
        }
    }
}
