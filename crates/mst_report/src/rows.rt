ghost use Rattle.std.specs.Prelude.{◌≡◌, ◌++◌, true, List, Ok, Some, OnOk};
ghost use Rattle.mst_lang.specs.declared.line.Query.TheVariants.{ShowPlan, ShowTree, ShowVlan, ShowNotes, ShowLag, ShowRegions, ShowConfiguration, Changes, Save, Digest};
ghost use Rattle.mst_changes.specs.Stored.{kept_entries};
ghost use Rattle.mst_rows.specs.Rows.{Row};
ghost use Rattle.mst_report.specs.Answers.{Answers, asks_plan as is_of_plan};
ghost use Rattle.mst_report.specs.Planned.{planned_state};
ghost use Rattle.mst_report.specs.Refusing.{HasRows};

use crate::planner::Planner;
use mst_changes::{Entries, put_changes};
use mst_edits::{put_digest, put_saved};
use mst_ids::{Name, Tree, Vid};
use mst_lang::Query;
use mst_note_text::laws::notes;
use mst_note_text::put_notes;
use mst_plan_text::{put_configuration, put_lags, put_plan, put_regions, put_tree, put_vlan};
use mst_rows::Rows;
use std::alloc::AllocError;

impl Planner {
    /// Puts the rows that answer a query, which nothing [refuses](Planner::refusal): the state of the plan alone settles
    /// them. `AllocError`: memory was wanted and refused; some of the rows may have been put.
    pub fn put<R: Rows>(&self, query: &Query, out: &mut R) -> Result<(), AllocError>
        requires settled { is_of_plan query.now ≡ true → self.now.is_settled ≡ true }
        requires rows { HasRows query.now (planned_state self.now) }
        ensures { (first : R) (before : List Row) → R.grew first out.old before
            → OnOk result ((rows : List Row) × Answers query.now (planned_state self.now) (Ok rows) × R.grew first out.new (before ++ rows)) }
    {
        match query {
            Query::ShowPlan => self.whole_plan(out),
            Query::ShowTree { tree } => self.tree(*tree, out),
            Query::ShowVlan { vid } => self.vlan(*vid, out),
            Query::ShowNotes => self.notes(out),
            Query::ShowLag => self.lags(out),
            Query::ShowRegions => self.regions(out),
            Query::ShowConfiguration { bridge } => self.configuration(bridge, out),
            Query::Changes => self.changes(out),
            Query::Save => self.saved(out),
            Query::Digest => self.digest(out),
        }
    }

    /// Puts the rows of the whole plan.
    fn whole_plan<R: Rows>(&self, out: &mut R) -> Result<(), AllocError>
        requires { self.now.is_settled ≡ true }
        ensures { (first : R) (before : List Row) → R.grew first out.old before
            → OnOk result ((rows : List Row) × Answers ShowPlan (planned_state self.now) (Ok rows) × R.grew first out.new (before ++ rows)) }
    {
        let plan = self.settled();
        plan.known();
        put_plan(self.alloc(), &plan, out)
    }

    /// Puts the rows of a tree.
    fn tree<R: Rows>(&self, tree: Tree, out: &mut R) -> Result<(), AllocError>
        requires { self.now.is_settled ≡ true }
        ensures { (first : R) (before : List Row) → R.grew first out.old before
            → OnOk result ((rows : List Row) × Answers (ShowTree tree) (planned_state self.now) (Ok rows) × R.grew first out.new (before ++ rows)) }
    {
        let plan = self.settled();
        plan.known();
        put_tree(self.alloc(), &plan, tree, out)
    }

    /// Puts the rows of a VID.
    fn vlan<R: Rows>(&self, vid: Vid, out: &mut R) -> Result<(), AllocError>
        requires { self.now.is_settled ≡ true }
        ensures { (first : R) (before : List Row) → R.grew first out.old before
            → OnOk result ((rows : List Row) × Answers (ShowVlan vid) (planned_state self.now) (Ok rows) × R.grew first out.new (before ++ rows)) }
    {
        let plan = self.settled();
        plan.known();
        put_vlan(self.alloc(), &plan, vid, out)
    }

    /// Puts the notes.
    fn notes<R: Rows>(&self, out: &mut R) -> Result<(), AllocError>
        requires { self.now.is_settled ≡ true }
        ensures { (first : R) (before : List Row) → R.grew first out.old before
            → OnOk result ((rows : List Row) × Answers ShowNotes (planned_state self.now) (Ok rows) × R.grew first out.new (before ++ rows)) }
    {
        notes();
        let plan = self.settled();
        plan.known();
        put_notes(self.alloc(), &plan, out)
    }

    /// Puts the rows of the classes of links.
    fn lags<R: Rows>(&self, out: &mut R) -> Result<(), AllocError>
        requires { self.now.is_settled ≡ true }
        ensures { (first : R) (before : List Row) → R.grew first out.old before
            → OnOk result ((rows : List Row) × Answers ShowLag (planned_state self.now) (Ok rows) × R.grew first out.new (before ++ rows)) }
    {
        put_lags(self.alloc(), &self.plan().view, out)
    }

    /// Puts the rows of the regions.
    fn regions<R: Rows>(&self, out: &mut R) -> Result<(), AllocError>
        requires { self.now.is_settled ≡ true }
        ensures { (first : R) (before : List Row) → R.grew first out.old before
            → OnOk result ((rows : List Row) × Answers ShowRegions (planned_state self.now) (Ok rows) × R.grew first out.new (before ++ rows)) }
    {
        let plan = self.plan();
        put_regions(self.alloc(), &plan.view, &plan.regions, out)
    }

    /// Puts the rows of the MST configuration of a bridge that is there.
    fn configuration<R: Rows>(&self, bridge: &Name, out: &mut R) -> Result<(), AllocError>
        requires { HasRows (ShowConfiguration bridge.now) (planned_state self.now) }
        ensures { (first : R) (before : List Row) → R.grew first out.old before
            → OnOk result ((rows : List Row) × Answers (ShowConfiguration bridge.now) (planned_state self.now) (Ok rows) × R.grew first out.new (before ++ rows)) }
    {
        put_configuration(self.alloc(), self.network(), bridge, out)?;
        Ok(())
    }

    /// Puts the rows of what has changed since the network was marked.
    fn changes<R: Rows>(&self, out: &mut R) -> Result<(), AllocError>
        requires settled { self.now.is_settled ≡ true }
        requires rows { HasRows Changes (planned_state self.now) }
        ensures { (first : R) (before : List Row) → R.grew first out.old before
            → OnOk result ((rows : List Row) × Answers Changes (planned_state self.now) (Ok rows) × R.grew first out.new (before ++ rows)) }
    {
        match self.marked() {
            None => Ok(()),
            Some(mark) => self.changes_from(mark, out),
        }
    }

    /// Puts the rows that save the network.
    fn saved<R: Rows>(&self, out: &mut R) -> Result<(), AllocError>
        ensures { (first : R) (before : List Row) → R.grew first out.old before
            → OnOk result ((rows : List Row) × Answers Save (planned_state self.now) (Ok rows) × R.grew first out.new (before ++ rows)) }
    {
        put_saved(self.alloc(), self.network(), out)
    }

    /// Puts the row of the network's digest.
    fn digest<R: Rows>(&self, out: &mut R) -> Result<(), AllocError>
        ensures { (first : R) (before : List Row) → R.grew first out.old before
            → OnOk result ((rows : List Row) × Answers Digest (planned_state self.now) (Ok rows) × R.grew first out.new (before ++ rows)) }
    {
        put_digest(self.alloc(), self.network(), out)
    }

    /// Puts the rows of what has changed since this mark.
    fn changes_from<R: Rows>(&self, mark: &Entries, out: &mut R) -> Result<(), AllocError>
        requires settled { self.now.is_settled ≡ true }
        requires marked { self.now.mark ≡ Some (kept_entries mark.now) }
        requires rows { HasRows Changes (planned_state self.now) }
        ensures { (first : R) (before : List Row) → R.grew first out.old before
            → OnOk result ((rows : List Row) × Answers Changes (planned_state self.now) (Ok rows) × R.grew first out.new (before ++ rows)) }
    {
        let plan = self.settled();
        plan.known();
        put_changes(self.alloc(), mark, &plan, out)
    }
}
