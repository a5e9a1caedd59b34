ghost use Rattle.std.specs.Prelude.{◌≡◌, ◌++◌, ◌∷◌, [], List, true, IfOk, OnOk, None, Some, map, vec_len};
ghost use Rattle.std.specs.HashSet.{contains};
ghost use Rattle.mst_ids.specs.Vids.{runs_from};
ghost use Rattle.mst_rows.specs.Rows.{Row};
ghost use Rattle.mst_net.specs.tables.Tables.{port_eq};
ghost use Rattle.mst_plan.specs.forest.Agrees.{Known};
ghost use Rattle.mst_sweep.specs.vlan.classes.AllVids.{NumberEach};
ghost use Rattle.mst_graph.specs.Lists.{has_any};
ghost use Rattle.mst_sweep.specs.facts.Both.{seen_both};
ghost use Rattle.mst_sweep.specs.Between.{OfNetworks};
ghost use Rattle.mst_sweep.specs.declared.cuts.CutBy.{CutBy as CutByOf};
ghost use Rattle.mst_sweep.specs.Cuts.{rows_of, runs_of, AreCutsBy};
ghost use Rattle.mst_sweeping.specs.MovedVids.{ArePartsBut, AreVidsWhere, IsJoinedBut, IsMoved};
ghost use Rattle.mst_sweeping.specs.Restarts.{restarting as all_restarting};
ghost use Rattle.mst_sweeping.specs.Seen.{seen_both_ports, turning_of};
ghost use Rattle.mst_sweeping.specs.StepText.{cut_by as cut_by_of, deed_row, does_row, last_row, restart_rows, rows_behind, step_row, turn_row, turn_rows, AreRepluggedIn, AreStepRows};
ghost use Rattle.mst_sweeping.specs.Turns.{turning as all_turning};
ghost use Rattle.mst_sweeping.specs.declared.step.Deed.TheVariants.{Step as StepOf};

use crate::change::Change;
use crate::fates::are_some;
use crate::on::bridges_on;
use crate::ports::{BothPorts, moved_ports, ports_of_both};
use crate::restarts::restarting;
use crate::told::{Told, told_of};
use crate::turns::{TreeTurns, lists_of, trees_with, turning};
use indexmap::IndexSet;
use mst_ids::{Name, PortName, Tree, VidSet};
use mst_kinds::{AdviseLine, Kind, StepLine};
use mst_policy::Leaving;
use mst_rows::{Rows, Value, put};
use mst_sweep::{Both, Carriage, CutBy, Planned, bridges_of_both, moved_roots, put_cuts, set_of};
use std::alloc::{AllocError, Global};

/// A step of a change.
#[derive(Clone, Copy)]
pub struct Step {
    /// Its number, counted from 1.
    pub number: u64,
    /// The number of its first line with an edit.
    pub first: u64,
    /// And of its last.
    pub last: u64,
}

/// What makes one network of another: a step of a change, or edits that are advised.
#[derive(Clone, Copy)]
pub enum Deed {
    /// A step.
    Step(Step),
    /// Edits.
    Edits,
}

/// Whether a step moves some VID, and whether it cuts some.
#[derive(Clone, Copy)]
pub struct Stepped {
    pub moves: bool,
    pub cuts: bool,
}

/// Behind how many steps a policy isn't kept that was kept before, and how many of its lines aren't in the end.
#[derive(Clone, Copy)]
pub struct PolicyCounts {
    pub failing: u64,
    pub unkept: u64,
}

/// How many steps a change has, how many of them move some VID, and how many cut some.
#[derive(Clone, Copy)]
pub struct Walked {
    pub steps: u64,
    pub moving: u64,
    pub cutting: u64,
}

/// Puts the row of a step.
fn put_row<'a, R: Rows>(
    step: &Step,
    roots: &'a [Tree],
    ports: u64,
    moved: &'a VidSet,
    cut: &'a VidSet,
    joined: &'a VidSet,
    out: &mut R,
) -> Result<(), AllocError>
    ensures { (first : R) (rows : List Row) → R.grew first out.old rows
        → OnOk result (R.grew first out.new (rows ++ step_row step.now roots.now ports (runs_from 0 moved.now) (runs_from 0 cut.now) (runs_from 0 joined.now) ∷ [])) }
{
    let values = [
        Value::Number(step.number),
        Value::Lines(step.first, step.last),
        Value::Trees(roots),
        Value::Number(ports),
        Value::Vids(moved),
        Value::Vids(cut),
        Value::Vids(joined),
    ];
    put::<R>(Kind::Step(StepLine::Step), &values, out)
}

/// Puts the row of edits that are advised.
fn put_does<'a, R: Rows>(
    roots: &'a [Tree],
    ports: u64,
    moved: &'a VidSet,
    cut: &'a VidSet,
    joined: &'a VidSet,
    out: &mut R,
) -> Result<(), AllocError>
    ensures { (first : R) (rows : List Row) → R.grew first out.old rows
        → OnOk result (R.grew first out.new (rows ++ does_row roots.now ports (runs_from 0 moved.now) (runs_from 0 cut.now) (runs_from 0 joined.now) ∷ [])) }
{
    let values = [
        Value::Trees(roots),
        Value::Number(ports),
        Value::Vids(moved),
        Value::Vids(cut),
        Value::Vids(joined),
    ];
    put::<R>(Kind::Advise(AdviseLine::Does), &values, out)
}

/// Puts the row of either.
fn put_deed<R: Rows>(
    deed: &Deed,
    roots: &[Tree],
    ports: u64,
    moved: &VidSet,
    cut: &VidSet,
    joined: &VidSet,
    out: &mut R,
) -> Result<(), AllocError>
    ensures { (first : R) (rows : List Row) → R.grew first out.old rows
        → OnOk result (R.grew first out.new (rows ++ deed_row deed.now roots.now ports (runs_from 0 moved.now) (runs_from 0 cut.now) (runs_from 0 joined.now) ∷ [])) }
{
    match deed {
        Deed::Step(step) => put_row(step, roots, ports, moved, cut, joined, out),
        Deed::Edits => put_does(roots, ports, moved, cut, joined, out),
    }
}

/// By what VIDs are cut.
fn cut_by(deed: &Deed) -> CutBy
    ensures { result ≡ cut_by_of deed.now }
{
    match deed {
        Deed::Step(step) => CutBy::Step(step.number),
        Deed::Edits => CutBy::Edits,
    }
}

/// Puts the row of the bridges that turn in these trees.
fn put_turn_row<'a, R: Rows>(
    step: &Step,
    trees: &'a [Tree],
    bridges: &'a [Name],
    out: &mut R,
) -> Result<(), AllocError>
    ensures { (first : R) (rows : List Row) → R.grew first out.old rows → OnOk result (R.grew first out.new (rows ++ turn_row step.now trees.now bridges.now ∷ [])) }
{
    let values = [
        Value::Number(step.number),
        Value::Trees(trees),
        Value::Names(bridges),
    ];
    put::<R>(Kind::Step(StepLine::Turns), &values, out)
}

/// Puts the rows of the bridges that turn in a step: one for each list of them, with the trees in which these turn.
fn put_turn_rows<R: Rows>(
    alloc: Global,
    step: &Step,
    turning: &[TreeTurns],
    out: &mut R,
) -> Result<(), AllocError>
    ensures { (first : R) (rows : List Row) → R.grew first out.old rows → OnOk result (R.grew first out.new (rows ++ turn_rows (StepOf step.now) (map turning_of turning.now))) }
{
    let lists = lists_of(alloc, turning)?;
    for bridges in lists.as_slice() {
        let trees = trees_with(alloc, turning, bridges.as_slice())?;
        put_turn_row(step, trees.as_slice(), bridges.as_slice(), out)?;
    }
    Ok(())
}

/// Puts these rows behind a step.
fn put_turns<R: Rows>(
    alloc: Global,
    deed: &Deed,
    turning: &[TreeTurns],
    out: &mut R,
) -> Result<(), AllocError>
    ensures { (first : R) (rows : List Row) → R.grew first out.old rows → OnOk result (R.grew first out.new (rows ++ turn_rows deed.now (map turning_of turning.now))) }
{
    match deed {
        Deed::Step(step) => put_turn_rows(alloc, step, turning, out),
        Deed::Edits => Ok(()),
    }
}

/// Puts the row of the ports that start anew in a step.
fn put_restart_row<'a, R: Rows>(
    step: &Step,
    ports: &'a [PortName],
    out: &mut R,
) -> Result<(), AllocError>
    requires { has_any ports.now ≡ true }
    ensures { (first : R) (rows : List Row) → R.grew first out.old rows → OnOk result (R.grew first out.new (rows ++ restart_rows (StepOf step.now) ports.now)) }
{
    let values = [Value::Number(step.number), Value::Ports(ports)];
    put::<R>(Kind::Step(StepLine::Restarts), &values, out)
}

/// Puts that row behind a step, if there are such ports.
fn put_restarts<R: Rows>(deed: &Deed, ports: &[PortName], out: &mut R) -> Result<(), AllocError>
    ensures { (first : R) (rows : List Row) → R.grew first out.old rows → OnOk result (R.grew first out.new (rows ++ restart_rows deed.now ports.now)) }
{
    match (deed, ports) {
        (Deed::Edits, _) => Ok(()),
        (Deed::Step(_), []) => Ok(()),
        (Deed::Step(step), [..]) => put_restart_row(step, ports, out),
    }
}

/// Puts the rows behind those of what a step cuts: of the bridges that turn, and of the ports that start anew.
fn put_behind<R: Rows>(
    alloc: Global,
    deed: &Deed,
    turning: &[TreeTurns],
    restarting: &[PortName],
    out: &mut R,
) -> Result<(), AllocError>
    ensures { (first : R) (rows : List Row) → R.grew first out.old rows → OnOk result (R.grew first out.new (rows ++ rows_behind deed.now (map turning_of turning.now) restarting.now)) }
{
    put_turns(alloc, deed, turning, out)?;
    put_restarts(deed, restarting, out)
}

/// Puts the row of a step and those of what it cuts, by what is told of it.
fn put_told<R: Rows>(
    deed: &Deed,
    roots: &[Tree],
    ports: u64,
    told: &Told,
    out: &mut R,
) -> Result<Stepped, AllocError>
    requires { NumberEach told.now.classes.numbers.items (vec_len told.now.cuts.parts) }
    ensures { IfOk result (λ stepped. (stepped.moves ≡ has_any told.now.moved.items) × (stepped.cuts ≡ has_any told.now.cuts.vids.items)
        × ((first : R) (rows : List Row) → R.grew first out.old rows
        → R.grew first out.new (rows ++ (deed_row deed.now roots.now ports (runs_of told.now.moved.items) (runs_of told.now.cuts.vids.items) (runs_of told.now.joined.items) ∷ rows_of (cut_by_of deed.now) told.now.classes.numbers.items told.now.cuts)))) }
{
    let moved = told.moved.as_slice();
    let cut = told.cuts.vids.as_slice();
    let joined = told.joined.as_slice();
    put_deed(
        deed,
        roots,
        ports,
        &set_of(moved),
        &set_of(cut),
        &set_of(joined),
        out,
    )?;
    put_cuts(&cut_by(deed), &told.classes, &told.cuts, out)?;
    Ok(Stepped {
        moves: are_some(moved),
        cuts: are_some(cut),
    })
}

/// The VIDs that a step cuts, joins and moves, by the bridges that both networks have and those that are meant to leave.
fn told_between(
    alloc: Global,
    old: &Planned,
    new: &Planned,
    both: &[Both],
    leaving: &Leaving,
) -> Result<Told, AllocError>
    requires old { Known old.now.view.now old.now.forest.now.regions }
    requires new { Known new.now.view.now new.now.forest.now.regions }
    requires both { both.now ≡ seen_both old.now.view.now new.now.view.now }
    ensures numbered { IfOk result (λ told. NumberEach told.classes.numbers.items (vec_len told.cuts.parts)) }
    ensures cut { IfOk result (λ told. OfNetworks old.now new.now (λ a before b afterwards.
        (by : CutByOf) → AreCutsBy (ArePartsBut leaving.now a before b afterwards) by told.cuts.vids.items (rows_of by told.classes.numbers.items told.cuts))) }
    ensures joined { IfOk result (λ told. OfNetworks old.now new.now (λ a before b afterwards. AreVidsWhere (IsJoinedBut leaving.now a before b afterwards) told.joined.items)) }
    ensures moved { IfOk result (λ told. OfNetworks old.now new.now (λ a before b afterwards. AreVidsWhere (IsMoved a before b afterwards) told.moved.items)) }
{
    let before = Carriage::new(alloc, old.view, old.forest)?;
    let afterwards = Carriage::new(alloc, new.view, new.forest)?;
    let turned = bridges_of_both(alloc, new.view, old.view)?;
    let old_on = bridges_on(alloc, old.view)?;
    let new_on = bridges_on(alloc, new.view)?;
    let change = Change {
        old,
        new,
        before: &before,
        afterwards: &afterwards,
        both,
        turned: turned.as_slice(),
        old_on: &old_on,
        new_on: &new_on,
        leaving,
    };
    told_of(alloc, &change)
}

/// The bridges that turn in a step, by trees: none where edits are advised, of which that isn't told.
fn turning_in(
    alloc: Global,
    deed: &Deed,
    old: &Planned,
    new: &Planned,
    both: &[Both],
) -> Result<Vec<TreeTurns>, AllocError>
    requires { both.now ≡ seen_both old.now.view.now new.now.view.now }
    ensures { IfOk result (λ turning. OfNetworks old.now new.now (λ a before b afterwards. turn_rows deed.now (map turning_of turning.items) ≡ turn_rows deed.now (all_turning a before b afterwards))) }
{
    match deed {
        Deed::Step(_) => turning(alloc, old, new, both),
        Deed::Edits => Ok(Vec::new(alloc)),
    }
}

/// The logical ports that start anew in a step: none where edits are advised, of which that isn't told.
fn restarting_in(
    alloc: Global,
    deed: &Deed,
    old: &Planned,
    new: &Planned,
    both: &[Both],
    shared: &[BothPorts],
    replugged: &IndexSet<PortName>,
) -> Result<Vec<PortName>, AllocError>
    requires both { both.now ≡ seen_both old.now.view.now new.now.view.now }
    requires shared { shared.now ≡ seen_both_ports old.now.view.now new.now.view.now }
    ensures { IfOk result (λ names. OfNetworks old.now new.now (λ a before b afterwards. AreRepluggedIn deed.now a b (contains port_eq replugged.now)
        → restart_rows deed.now names.items ≡ restart_rows deed.now (all_restarting a b))) }
{
    match deed {
        Deed::Step(_) => restarting(alloc, old, new, both, shared, replugged),
        Deed::Edits => Ok(Vec::new(alloc)),
    }
}

/// Puts the rows of a step, or of edits that are advised: which trees' roots move, how many roles, which VIDs move, which are cut and into which parts, and which are
/// joined, and of a step which bridges turn in which trees and which logical ports start anew, and answers whether some move and whether some are cut. `old` is the plan of the network before the step, `new` that of the
/// network after it; `replugged` has the ports that a step plugs into other LANs, and nothing is told by it of edits that are advised; what is meant to leave a
/// VID is neither cut off nor joined. `AllocError`: memory was wanted and refused; some of the
/// rows may have been put.
///
/// It looks at the roles of each logical port twice for each tree, and once at what carries each class of VIDs that nothing tells apart in
/// either network. Islands are made only of a class of which that isn't the same.
pub fn put_step<R: Rows>(
    alloc: Global,
    deed: &Deed,
    old: &Planned,
    new: &Planned,
    replugged: &IndexSet<PortName>,
    leaving: &Leaving,
    out: &mut R,
) -> Result<Stepped, AllocError>
    requires old { Known old.now.view.now old.now.forest.now.regions }
    requires new { Known new.now.view.now new.now.forest.now.regions }
    ensures { IfOk result (λ told. OfNetworks old.now new.now (λ a before b afterwards. AreRepluggedIn deed.now a b (contains port_eq replugged.now)
        → (own : List Row) × AreStepRows leaving.now a before b afterwards deed.now own told × ((first : R) (rows : List Row) → R.grew first out.old rows → R.grew first out.new (rows ++ own)))) }
{
    let both = bridges_of_both(alloc, old.view, new.view)?;
    let told = told_between(alloc, old, new, both.as_slice(), leaving)?;
    let roots = moved_roots(alloc, old, new, both.as_slice())?;
    let shared = ports_of_both(alloc, old.view, new.view)?;
    let ports = moved_ports(old, new, shared.as_slice());
    let anew = restarting_in(
        alloc,
        deed,
        old,
        new,
        both.as_slice(),
        shared.as_slice(),
        replugged,
    )?;
    let turning = turning_in(alloc, deed, old, new, both.as_slice())?;
    let stepped = put_told(deed, roots.as_slice(), ports, &told, out)?;
    put_behind(alloc, deed, turning.as_slice(), anew.as_slice(), out)?;
    Ok(stepped)
}

/// Puts the row of how many steps there are, how many of them move some VID and how many cut some.
fn put_counts<R: Rows>(walked: &Walked, out: &mut R) -> Result<(), AllocError>
    ensures { (first : R) (rows : List Row) → R.grew first out.old rows → OnOk result (R.grew first out.new (rows ++ last_row walked.now None ∷ [])) }
{
    let values = [
        Value::Number(walked.steps),
        Value::Number(walked.moving),
        Value::Number(walked.cutting),
    ];
    put::<R>(Kind::Step(StepLine::Counts), &values, out)
}

/// Puts that row with what a policy comes to.
fn put_judged_counts<R: Rows>(
    walked: &Walked,
    policy: &PolicyCounts,
    out: &mut R,
) -> Result<(), AllocError>
    ensures { (first : R) (rows : List Row) → R.grew first out.old rows → OnOk result (R.grew first out.new (rows ++ last_row walked.now (Some policy.now) ∷ [])) }
{
    let values = [
        Value::Number(walked.steps),
        Value::Number(walked.moving),
        Value::Number(walked.cutting),
        Value::Number(policy.failing),
        Value::Number(policy.unkept),
    ];
    put::<R>(Kind::Step(StepLine::JudgedCounts), &values, out)
}

/// Puts the last row: how many steps there are, how many of them move some VID, how many cut some, and with a policy what it comes to.
/// `AllocError`: memory was wanted and refused; part of the row may have been put.
pub fn put_last<R: Rows>(
    walked: &Walked,
    judged: Option<PolicyCounts>,
    out: &mut R,
) -> Result<(), AllocError>
    ensures { (first : R) (rows : List Row) → R.grew first out.old rows → OnOk result (R.grew first out.new (rows ++ last_row walked.now judged ∷ [])) }
{
    match judged {
        None => put_counts(walked, out),
        Some(policy) => put_judged_counts(walked, &policy, out),
    }
}
