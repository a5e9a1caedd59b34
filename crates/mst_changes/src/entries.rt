ghost use Rattle.std.specs.Prelude.{◌≡◌, ◌++◌, ◌==◌, IfOk, OnOk, filter};
ghost use Rattle.mst_roles.specs.forest.InUse.{AreInUse};
ghost use Rattle.mst_roles.specs.forest.Settled.{outcome_of};
ghost use Rattle.mst_changes.specs.Kept.{AreEntries, entries_in};
ghost use Rattle.mst_changes.specs.Stored.{kept_of, kept_entries};

use crate::kept::{TreeEntries, bridge_names, port_names, push_kept, tree_entries};
use crate::subject::Entry;
use mst_ids::{Name, PortName, Tree};
use mst_roles::{Settled, is_had, trees_in_use};
use std::alloc::{AllocError, Global};

/// What is kept of a network's outcome, by names: the root priority vectors of bridges and the roles of logical ports in
/// each tree that some bridge has, rising. The names stand in it once, and not for each tree.
pub struct Entries {
    pub(crate) bridges: Vec<Name>,
    pub(crate) ports: Vec<PortName>,
    pub(crate) trees: Vec<TreeEntries>,
}

// By hand, as a view's.
impl Drop for Entries {
    fn drop(self) {
        let Entries {
            bridges: _,
            ports: _,
            trees: _,
        } = self;
    }
}

/// Adds what is kept of a tree: nothing where no bridge has it.
fn keep_tree(
    alloc: Global,
    plan: &Settled,
    used: &[bool; 4095],
    tree: Tree,
    trees: &mut Vec<TreeEntries>,
) -> Result<(), AllocError>
    requires { AreInUse plan.now.view used.now }
    ensures { OnOk result (kept_of plan.now.view trees.new.items ≡ kept_of plan.now.view trees.old.items ++ entries_in plan.now.net (outcome_of plan.now) tree) }
{
    plan.known();
    let view = plan.view();
    let forest = plan.forest();
    if !is_had(used, tree) {
        return Ok(());
    }
    let kept = tree_entries(alloc, view, forest, tree)?;
    trees.push(kept)?;
    Ok(())
}

impl Entries {
    /// What is kept of a settled network's outcome. `AllocError`: memory was wanted and refused.
    ///
    /// For each tree that some bridge has it goes once over the bridges and once over the logical ports.
    pub fn new(alloc: Global, plan: &Settled) -> Result<Entries, AllocError>
        ensures { IfOk result (λ entries. AreEntries plan.now.net (outcome_of plan.now) entries) }
    {
        let view = plan.view();
        let used = trees_in_use(view);
        let bridges = bridge_names(alloc, view)?;
        let ports = port_names(alloc, view)?;
        let mut trees = Vec::new(alloc);
        for number in 0..4095 {
            if let Some(tree) = Tree::new(number) {
                keep_tree(alloc, plan, &used, tree, &mut trees)?;
            }
        }
        Ok(Entries {
            bridges,
            ports,
            trees,
        })
    }

    /// Appends the entries of a tree.
    pub(crate) fn push_tree(&self, tree: Tree, entries: &mut Vec<Entry>) -> Result<(), AllocError>
        ensures { OnOk result (entries.new.items ≡ entries.old.items ++ filter (λ entry. entry.tree == tree) (kept_entries self.now)) }
    {
        for kept in &self.trees {
            if kept.tree == tree {
                push_kept(
                    kept,
                    self.bridges.as_slice(),
                    self.ports.as_slice(),
                    entries,
                )?;
            }
        }
        Ok(())
    }
}
