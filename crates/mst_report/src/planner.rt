ghost use Rattle.std.specs.Prelude.{◌≡◌, ◌≢◌, ◌≤◌, ◌<◌, ◌^◌, ◌+◌, ◌++◌, length, true, false, List, None, Err, IsOk, IfOk, IfErr, OnOk, OnErr, IsTrue};
ghost use Rattle.mst_net.specs.tables.After.{after};
ghost use Rattle.mst_net.specs.tables.Contents.{SameContents, CanCommit, Commits, room_for};
ghost use Rattle.std.specs.Option.{option_map};
ghost use Rattle.mst_plan_text.specs.forest.Agrees.{AreOf};
ghost use Rattle.mst_plan_text.specs.forest.Forest.{IsForest};
ghost use Rattle.mst_plan.specs.trees.Bound.{SettlesNoUnused};
ghost use Rattle.mst_plan_text.specs.view.Viewed.{IsView};
ghost use Rattle.mst_changes.specs.Stored.{kept_entries};

use crate::laws::entries_of_network;
use mst_changes::Entries;
use mst_ids::Tree;
use mst_lang::Edit;
use mst_net::{Contents, Network, Refusal};
use mst_plan::{KeptPlan, Plan};
use mst_plan_text::{Forest, Settled, View};
use std::alloc::{AllocError, Global};
use std::marker::Model;
use std::mem;

/// A network and what follows from it: its view, its regions, and its trees, settled (802.1Q-2022, 13).
///
/// `apply` makes an edit and settles at once. A long script is loaded faster by `stage`, which makes an edit in
/// the network alone, and one `settle` before the plan is asked.
pub struct Planner {
    alloc: Global,
    network: Network,
    // What is kept of what follows from it.
    kept: KeptPlan,
    // What is kept of the marked network, if one was marked.
    mark: Option<Entries>,
}

// By hand, as a network's.
impl Drop for Planner {
    fn drop(self) {
        let Planner {
            alloc: _,
            network: _,
            kept: _,
            mark: _,
        } = self;
    }
}

impl Model for Planner {
    ghost use Rattle.mst_report.specs.Planned.{Planned};

    ghost Value = { Planned };

    ghost use Rattle.std.specs.Coded.{codes};
    ghost use Rattle.mst_net.specs.tables.Contents.{contents_code};

    ghost coded = { Prim.hlevel (codes, contents_code) };

    ghost use Rattle.mst_report.specs.Kept.{HasMark, mark_entries};
    ghost use Rattle.mst_plan.specs.Kept.{IsKept, is_settled_of, standing_in};

    ghost view = { λ p. record { contents = p.network; is_settled = is_settled_of p.kept; standing = standing_in p.kept; mark = mark_entries p.mark } };

    ghost invariant = { λ p. IsKept p.network.net p.network.numbers p.kept × HasMark p.mark };
}

impl Planner {
    ghost use Rattle.mst_plan.specs.Plan.{IsPlan};
    ghost use Rattle.mst_report.specs.Planned.{planned_state};
    ghost use Rattle.mst_plan.specs.Standing.{Standing, nothing, standing_of, settlings_of, msti_settlings, KeepsBounds};
    ghost use Rattle.mst_report.specs.State.{IsState, IsMarkNow, AreEntriesNow, empty_state};

    /// The planner of the network with no records, which isn't settled yet: so it takes no memory.
    pub fn new(alloc: Global) -> Planner
        ensures state { planned_state result ≡ empty_state }
        ensures standing { result.standing ≡ nothing }
    {
        Planner {
            alloc,
            network: Network::new(alloc),
            kept: KeptPlan::Nothing,
            mark: None,
        }
    }

    /// Does nothing: its clause says that the network is one, and that the mark, if there is one, is of one.
    pub fn known(&self)
        ensures { IsState (planned_state self.now) }
    {
        self.network.known();
    }

    /// The network.
    pub fn network(&self) -> &Network
        ensures { result.now ≡ self.now.contents }
    {
        &self.network
    }

    /// Whether the plan is that of the network as it is now: no edit was staged since it was settled.
    pub fn is_settled(&self) -> bool
        ensures { result ≡ self.now.is_settled }
    {
        self.kept.is_settled()
    }

    /// The network's view.
    pub fn view(&self) -> &View
        requires { self.now.is_settled ≡ true }
        ensures { IsView self.now.contents.net self.now.contents.numbers result.now }
    {
        &self.plan().view
    }

    /// The network's trees, settled.
    pub fn forest(&self) -> &Forest
        requires { self.now.is_settled ≡ true }
        ensures of { IsForest self.now.contents.net self.now.contents.numbers result.now }
        ensures standing { standing_of result.now ≡ self.now.standing }
    {
        &self.plan().forest
    }

    /// The network with its view and its trees, settled, as one value: what is told of the network takes it.
    pub fn settled(&self) -> Settled<'_>
        requires { self.now.is_settled ≡ true }
        ensures { result.net ≡ self.now.contents.net }
    {
        let plan = self.plan();
        Settled::new(self.network(), &plan.view, &plan.forest)
    }

    /// How often a bridge was settled in a tree when the plan was brought up to the network last, and 0 where it never
    /// was or no bridge of that network had the tree. It is at least the number of bridges whose vector in the tree was another one
    /// afterwards, and at most twice the number of those whose vector was another one or none.
    pub fn settlings(&self, tree: Tree) -> u64
        ensures { result ≡ settlings_of self.now.standing tree }
    {
        self.kept.settlings(tree)
    }

    /// Makes an edit in the network and leaves the plan for later. Each record that stays keeps its number. An edit is
    /// refused with the least number that applies, and with E99 only where none does and there was no room for it; the
    /// planner is then as it was, record numbers and all.
    pub fn stage(&mut self, edit: &Edit) -> Result<(), Refusal>
        ensures ok { OnOk result (Commits edit.now self.old.contents self.new.contents) }
        ensures same { OnErr result (SameContents self.old.contents self.new.contents) }
        ensures settled { OnErr result (self.new.is_settled ≡ self.old.is_settled) }
        ensures standing { self.new.standing ≡ self.old.standing }
        ensures mark { self.new.mark ≡ self.old.mark }
        ensures refused { IfErr result (λ refusal. refusal ≢ Refusal.E99 → after edit.now self.old.contents.net ≡ Err refusal) }
        ensures memory { result ≡ Err Refusal.E99 → IsOk (after edit.now self.old.contents.net) }
        ensures no_room { result ≡ Err Refusal.E99 → room_for edit.now self.old.contents.room ≡ 0 }
    {
        let ready = self.network.prepare(edit)?;
        self.network.known();
        self.network.commit(ready);
        self.kept.edited(self.alloc, &self.network, edit);
        Ok(())
    }

    /// Whether an edit would be made: nothing is made of it. It is refused with the least number that applies, which takes no memory,
    /// and with E99 only where none does and there was no room for it. The planner is as it was in either case, but for room: where the
    /// edit would be made there is room for it then, so that it is made without memory.
    pub fn rehearse(&mut self, edit: &Edit) -> Result<(), Refusal>
        ensures accepted { OnOk result (IsOk (after edit.now self.old.contents.net)) }
        ensures refused { IfErr result (λ refusal. refusal ≢ Refusal.E99 → after edit.now self.old.contents.net ≡ Err refusal) }
        ensures memory { result ≡ Err Refusal.E99 → IsOk (after edit.now self.old.contents.net) }
        ensures no_room { result ≡ Err Refusal.E99 → room_for edit.now self.old.contents.room ≡ 0 }
        ensures room { OnOk result (0 < room_for edit.now self.new.contents.room) }
        ensures same { SameContents self.old.contents self.new.contents }
        ensures settled { self.new.is_settled ≡ self.old.is_settled }
        ensures standing { self.new.standing ≡ self.old.standing }
        ensures mark { self.new.mark ≡ self.old.mark }
    {
        let prepared = self.network.prepare(edit)?;
        self.network.abandon(prepared);
        Ok(())
    }

    /// Brings the plan up to the network, whatever edits were staged since: each tree is repaired from the one that
    /// stands. `AllocError`: memory was wanted and refused, and the planner is as it was.
    pub fn settle(&mut self) -> Result<(), AllocError>
        ensures same { self.new.contents ≡ self.old.contents }
        ensures mark { self.new.mark ≡ self.old.mark }
        ensures settled { OnOk result (self.new.is_settled ≡ true) }
        ensures idle { self.old.is_settled ≡ true → self.new ≡ self.old }
        ensures bounds { OnOk result (self.old.is_settled ≡ false → KeepsBounds self.old.standing self.new.standing) }
        ensures unused { OnOk result (self.old.is_settled ≡ false → SettlesNoUnused self.old.contents.net (msti_settlings self.new.standing)) }
        ensures as_it_was { OnErr result (self.new ≡ self.old) }
    {
        self.kept.settle(self.alloc, &self.network)
    }

    /// Makes an edit and settles the network that it makes: each record that stays keeps its number, and each tree is
    /// repaired from the one that stands. An edit is refused with the least number that applies, and with E99 only where
    /// none does and memory was wanted and refused; the planner is then as it was, record numbers and all. Where there
    /// was room for the edit, it was refused for the plan, and there is room for the edit still.
    pub fn apply(&mut self, edit: &Edit) -> Result<(), Refusal>
        ensures ok { OnOk result (Commits edit.now self.old.contents self.new.contents) }
        ensures settled { OnOk result (self.new.is_settled ≡ true) }
        ensures bounds { OnOk result (KeepsBounds self.old.standing self.new.standing) }
        ensures unused { OnOk result (SettlesNoUnused self.new.contents.net (msti_settlings self.new.standing)) }
        ensures same { OnErr result (SameContents self.old.contents self.new.contents) }
        ensures as_it_was { OnErr result (self.new.is_settled ≡ self.old.is_settled) }
        ensures standing { OnErr result (self.new.standing ≡ self.old.standing) }
        ensures mark { self.new.mark ≡ self.old.mark }
        ensures refused { IfErr result (λ refusal. refusal ≢ Refusal.E99 → after edit.now self.old.contents.net ≡ Err refusal) }
        ensures memory { result ≡ Err Refusal.E99 → IsOk (after edit.now self.old.contents.net) }
        ensures no_room { result ≡ Err Refusal.E99 → room_for edit.now self.old.contents.room ≢ 0 → CanCommit edit.now self.new.contents }
    {
        let ready = self.network.prepare(edit)?;
        match self.kept.ahead(self.alloc, &self.network, &ready, edit) {
            Ok(plan) => {
                self.network.commit(ready);
                self.kept = KeptPlan::Settled(plan);
                Ok(())
            }
            Err(_) => {
                self.network.abandon(ready);
                Err(Refusal::E99)
            }
        }
    }

    /// Takes the network out, with its plan: the planner is then that of the network with no records, which isn't settled. It keeps its mark.
    pub fn take(&mut self) -> (Network, Plan)
        requires { self.old.is_settled ≡ true }
        ensures network { result.0 ≡ self.old.contents }
        ensures plan { IsPlan self.old.contents.net self.old.contents.numbers result.1 }
        ensures settled { self.new.is_settled ≡ false }
        ensures mark { self.new.mark ≡ self.old.mark }
    {
        let plan = self.kept.take();
        let network = mem::replace(&mut self.network, Network::new(self.alloc));
        (network, plan)
    }

    /// Takes over a network with its plan, in the place of what this planner has. It keeps its mark.
    pub fn give(&mut self, network: Network, plan: Plan)
        requires { IsPlan network.net network.numbers plan }
        ensures network { self.new.contents ≡ network }
        ensures settled { self.new.is_settled ≡ true }
        ensures mark { self.new.mark ≡ self.old.mark }
    {
        self.network = network;
        self.kept = KeptPlan::Settled(plan);
    }

    /// What the rows take memory from.
    pub fn alloc(&self) -> Global {
        self.alloc
    }

    /// Marks the network as it is now, for what changes from it: its entries take the place of those of an earlier mark.
    /// E99 alone refuses it, where memory was wanted and refused; the planner is then as it was.
    pub fn mark(&mut self) -> Result<(), Refusal>
        requires { self.old.is_settled ≡ true }
        ensures same { self.new.contents ≡ self.old.contents }
        ensures settled { self.new.is_settled ≡ true }
        ensures standing { self.new.standing ≡ self.old.standing }
        ensures marked { OnOk result (AreEntriesNow self.old.contents.net self.new.mark) }
        ensures as_it_was { OnErr result (self.new.mark ≡ self.old.mark) }
        ensures refused { IfErr result (λ refusal. refusal ≡ Refusal.E99) }
    {
        self.known();
        entries_of_network();
        match self.entries() {
            Ok(entries) => {
                self.mark = Some(entries);
                Ok(())
            }
            Err(_) => Err(Refusal::E99),
        }
    }

    /// Takes over what another planner keeps of the network that it has marked, in the place of what this one keeps. The other
    /// has no mark then.
    pub fn take_mark(&mut self, other: &mut Planner)
        ensures same { self.new.contents ≡ self.old.contents }
        ensures settled { self.new.is_settled ≡ self.old.is_settled }
        ensures standing { self.new.standing ≡ self.old.standing }
        ensures mark { self.new.mark ≡ other.old.mark }
    {
        self.mark = other.mark.take();
    }

    /// What is kept of the network as it is now.
    fn entries(&self) -> Result<Entries, AllocError>
        requires { self.now.is_settled ≡ true }
        ensures { IfOk result (λ entries. IsMarkNow self.now.contents.net (kept_entries entries)) }
    {
        let plan = self.settled();
        plan.known();
        let entries = Entries::new(self.alloc, &plan)?;
        Ok(entries)
    }

    /// The entries of the mark, if there is one.
    pub(crate) fn marked(&self) -> Option<&Entries>
        ensures { option_map (λ entries. kept_entries entries.now) result ≡ self.now.mark }
    {
        self.mark.as_ref()
    }

    /// The plan, for the rows.
    pub fn plan(&self) -> &Plan
        requires { self.now.is_settled ≡ true }
        ensures of { IsPlan self.now.contents.net self.now.contents.numbers result.now }
        ensures standing { standing_of result.now.forest ≡ self.now.standing }
    {
        self.kept.plan()
    }
}
