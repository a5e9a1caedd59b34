ghost use Rattle.std.specs.Prelude.{◌≡◌, ◌∷◌, ◌++◌, [], true, false, List, Ok, IfOk, OnOk, IsErr, map};
ghost use Rattle.std.specs.Option.{option_map};
ghost use Rattle.mst_advise.specs.Hindrances.{hindrance_of};
ghost use Rattle.mst_advise.specs.Made.{after_settings};
ghost use Rattle.mst_advise.specs.Settings.{alone, edit_of as its_edit};
ghost use Rattle.mst_advise.specs.Told.{because_row, none_row};
ghost use Rattle.mst_advise.specs.declared.goal.Goal.TheVariants as goal_is;
ghost use Rattle.mst_net.specs.tables.After.{after};
ghost use Rattle.mst_net.specs.tables.Contents.{CanCommit, SameContents, ahead_of};
ghost use Rattle.mst_net.specs.tables.Tables.{Net, Numbers};
ghost use Rattle.mst_roles.specs.forest.Agrees.{Known};
ghost use Rattle.mst_advise.specs.Advising.{Advises, AdvisesIn, Tries, TriesEach, TriesRoot};
ghost use Rattle.mst_sweeping.specs.plan.Plan.{IsPlan};
ghost use Rattle.mst_sweeping.specs.Sweeping.{Puts};
ghost use Rattle.mst_rows.specs.Rows.{Row};

use crate::goal::Goal;
use crate::hindrance::{Hindrance, apart, hindered_by};
use crate::holding::holds;
use crate::in_question::port_settings;
use crate::priorities::root_settings;
use crate::setting::{Setting, edit_of};
use crate::told::{put_because, put_count, put_none, put_settings};
use indexmap::IndexSet;
use mst_ids::{Name, PortName, Tree};
use mst_net::{Network, Ready, Refusal};
use mst_policy::Leaving;
use mst_roles::Settled;
use mst_roles::forest_laws::one_outcome;
use mst_rows::Rows;
use mst_sweeping::{Deed, Plan, plan_beside, put_between};
use std::alloc::{AllocError, Global};
use std::slice::from_ref;

/// What is advised.
#[derive(Clone, Copy, Debug, PartialEq, Eq)]
pub enum Advised {
    /// The goal holds already.
    Already,
    /// So many edits bring it about.
    Edits(u64),
    /// No candidate does.
    Nothing,
}

/// Where the network that settings make has a goal: puts them, and what they do, by the plan before them and the one after them. The
/// answer is whether it has.
fn put_if_had<R: Rows>(
    alloc: Global,
    goal: &Goal,
    settings: &[Setting],
    old: &Plan,
    new: &Plan,
    settled: &Settled,
    out: &mut R,
) -> Result<bool, AllocError>
    requires old { Known old.now.view old.now.forest.regions }
    requires new { IsPlan settled.now.net settled.now.numbers new.now }
    ensures { IfOk result (λ found. (net : Net) (numbers : Numbers) (is : IsPlan net numbers old.now) → after_settings net settings.now ≡ Ok settled.now.net
        → (rows : List Row) × Tries goal.now net is.forest.outcome settings.now found rows × Puts R.grew out.old out.new rows) }
{
    one_outcome();
    settled.known();
    if !holds(alloc, settled, goal)? {
        return Ok(false);
    }
    let replugged = IndexSet::new(alloc);
    put_settings(settings, out)?;
    let leaving = Leaving::none(alloc);
    put_between(alloc, &Deed::Edits, old, new, &replugged, &leaving, out)?;
    put_count(settings.len() as u64, out)?;
    Ok(true)
}

/// Tries one setting ahead of its edit.
fn try_ahead<R: Rows>(
    alloc: Global,
    goal: &Goal,
    setting: &Setting,
    network: &Network,
    ready: &Ready,
    plan: &Plan,
    out: &mut R,
) -> Result<bool, AllocError>
    requires plan { IsPlan network.now.net network.now.numbers plan.now }
    requires ready { CanCommit ready.now network.now }
    requires edit { ready.now ≡ its_edit setting.now }
    requires made { after_settings network.now.net (setting.now ∷ []) ≡ Ok (ahead_of network.now ready.now).net }
    ensures { IfOk result (λ found. (is : IsPlan network.now.net network.now.numbers plan.now)
        → (rows : List Row) × Tries goal.now network.now.net is.forest.outcome (setting.now ∷ []) found rows × Puts R.grew out.old out.new rows) }
{
    let edits = [edit_of(*setting)];
    let next = plan_beside(alloc, &network.ahead(ready), plan, false)?;
    let settled = Settled::ahead(network, &edits, &next.view, &next.forest);
    put_if_had(alloc, goal, from_ref(setting), plan, &next, &settled, out)
}

/// Tries one setting, and leaves the network as it is.
fn try_setting<R: Rows>(
    alloc: Global,
    goal: &Goal,
    setting: &Setting,
    network: &mut Network,
    plan: &Plan,
    out: &mut R,
) -> Result<bool, AllocError>
    requires { IsPlan network.old.net network.old.numbers plan.now }
    ensures told { IfOk result (λ found. (is : IsPlan network.old.net network.old.numbers plan.now)
        → (rows : List Row) × Tries goal.now network.old.net is.forest.outcome (setting.now ∷ []) found rows × Puts R.grew out.old out.new rows) }
    ensures same { SameContents network.old network.new }
{
    let edit = edit_of(*setting);
    match network.prepare(&edit) {
        Ok(ready) => {
            let found = try_ahead(alloc, goal, setting, network, &ready, plan, out);
            network.abandon(ready);
            found
        }
        Err(Refusal::E99) => Err(AllocError),
        Err(_) => Ok(false),
    }
}

/// Tries settings, each by itself, one after another, up to the first that brings the goal about, and leaves the network as it is.
fn try_each<R: Rows>(
    alloc: Global,
    goal: &Goal,
    settings: &[Setting],
    network: &mut Network,
    plan: &Plan,
    out: &mut R,
) -> Result<bool, AllocError>
    requires { IsPlan network.old.net network.old.numbers plan.now }
    ensures told { IfOk result (λ found. (is : IsPlan network.old.net network.old.numbers plan.now)
        → (rows : List Row) × TriesEach goal.now network.old.net is.forest.outcome settings.now found rows × Puts R.grew out.old out.new rows) }
    ensures same { SameContents network.old network.new }
{
    for setting in settings {
        if try_setting(alloc, goal, setting, network, plan, out)? {
            return Ok(true);
        }
    }
    Ok(false)
}

/// Makes a setting in a network, and answers whether it isn't refused. `AllocError`: memory was wanted and refused.
fn make_setting(setting: &Setting, network: &mut Network) -> Result<bool, AllocError>
    ensures made { result ≡ Ok true → after (its_edit setting.now) network.old.net ≡ Ok network.new.net }
    ensures refused { result ≡ Ok false → IsErr (after (its_edit setting.now) network.old.net) }
{
    let edit = edit_of(*setting);
    match network.prepare(&edit) {
        Ok(ready) => {
            network.commit(ready);
            Ok(true)
        }
        Err(Refusal::E99) => Err(AllocError),
        Err(_) => Ok(false),
    }
}

/// Makes settings in a network, one after another, and answers whether none is refused.
fn make_settings(settings: &[Setting], network: &mut Network) -> Result<bool, AllocError>
    ensures made { result ≡ Ok true → after_settings network.old.net settings.now ≡ Ok network.new.net }
    ensures refused { result ≡ Ok false → IsErr (after_settings network.old.net settings.now) }
{
    for setting in settings {
        if !make_setting(setting, network)? {
            return Ok(false);
        }
    }
    Ok(true)
}

/// Tries settings with which a bridge may be the root of a tree, all together: nothing where they bring that about, or else the bridges that
/// have another root still. They are made in the network.
fn try_root<R: Rows>(
    alloc: Global,
    tree: Tree,
    bridge: &Name,
    settings: &[Setting],
    network: &mut Network,
    plan: &Plan,
    out: &mut R,
) -> Result<Option<Vec<Name>>, AllocError>
    requires { IsPlan network.old.net network.old.numbers plan.now }
    ensures { IfOk result (λ apart. (is : IsPlan network.old.net network.old.numbers plan.now)
        → (rows : List Row) × TriesRoot tree bridge.now network.old.net is.forest.outcome settings.now (option_map (λ names. names.items) apart) rows × Puts R.grew out.old out.new rows) }
{
    if !make_settings(settings, network)? {
        return Ok(Some(Vec::new(alloc)));
    }
    let goal = Goal::Root {
        tree,
        bridge: *bridge,
    };
    let next = plan_beside(alloc, network, plan, false)?;
    let settled = Settled::new(network, &next.view, &next.forest);
    settled.known();
    if put_if_had(alloc, &goal, settings, plan, &next, &settled, out)? {
        return Ok(None);
    }
    let names = apart(alloc, &settled, tree, bridge)?;
    Ok(Some(names))
}

/// Puts why there is no advice, and that there is none.
fn put_nothing<R: Rows>(
    hindrance: &Option<Hindrance>,
    apart: &[Name],
    tried: u64,
    out: &mut R,
) -> Result<(), AllocError>
    ensures { (first : R) (rows : List Row) → R.grew first out.old rows → OnOk result (R.grew first out.new (rows ++ because_row hindrance.now apart.now tried ∷ none_row ∷ [])) }
{
    put_because(hindrance, apart, tried, out)?;
    put_none(out)
}

/// Puts the advice where a bridge isn't the root of a tree yet, by these settings and by what is in the way.
fn advise_root<R: Rows>(
    alloc: Global,
    tree: Tree,
    bridge: &Name,
    settings: &[Setting],
    hindrance: &Option<Hindrance>,
    network: &mut Network,
    plan: &Plan,
    out: &mut R,
) -> Result<Advised, AllocError>
    requires plan { IsPlan network.old.net network.old.numbers plan.now }
    requires hindrance { hindrance.now ≡ hindrance_of network.old.net (goal_is.Root tree bridge.now) }
    ensures { IfOk result (λ advice. (is : IsPlan network.old.net network.old.numbers plan.now)
        → (rows : List Row) × AdvisesIn (goal_is.Root tree bridge.now) network.old.net is.forest.outcome (settings.now ∷ []) advice rows × Puts R.grew out.old out.new rows) }
{
    let tried = try_root(alloc, tree, bridge, settings, network, plan, out)?;
    match tried {
        None => Ok(Advised::Edits(settings.len() as u64)),
        Some(apart) => {
            put_nothing(hindrance, apart.as_slice(), 1, out)?;
            Ok(Advised::Nothing)
        }
    }
}

/// Puts the advice where a port doesn't forward in a tree yet, by these settings and by what is in the way.
fn advise_port<R: Rows>(
    alloc: Global,
    tree: Tree,
    port: &PortName,
    settings: &[Setting],
    hindrance: &Option<Hindrance>,
    network: &mut Network,
    plan: &Plan,
    out: &mut R,
) -> Result<Advised, AllocError>
    requires plan { IsPlan network.old.net network.old.numbers plan.now }
    requires hindrance { hindrance.now ≡ hindrance_of network.old.net (goal_is.Forward tree port.now) }
    ensures { IfOk result (λ advice. (is : IsPlan network.old.net network.old.numbers plan.now)
        → (rows : List Row) × AdvisesIn (goal_is.Forward tree port.now) network.old.net is.forest.outcome (map alone settings.now) advice rows × Puts R.grew out.old out.new rows) }
{
    let goal = Goal::Forward { tree, port: *port };
    if try_each(alloc, &goal, settings, network, plan, out)? {
        return Ok(Advised::Edits(1));
    }
    put_nothing(hindrance, &[], settings.len() as u64, out)?;
    Ok(Advised::Nothing)
}

/// Puts the advice for a network by its plan: nothing where the goal holds already, or the first of its candidates after which it holds,
/// with what that does; or why there is none. `AllocError`: memory was wanted and refused; some of the rows may have been put. The network
/// is any one in either case.
pub fn advise_network<R: Rows>(
    alloc: Global,
    goal: &Goal,
    network: &mut Network,
    plan: &Plan,
    out: &mut R,
) -> Result<Advised, AllocError>
    requires { IsPlan network.old.net network.old.numbers plan.now }
    ensures { IfOk result (λ advice. (rows : List Row) × Advises network.old.net goal.now advice rows × Puts R.grew out.old out.new rows) }
{
    let settled = Settled::new(network, &plan.view, &plan.forest);
    settled.known();
    one_outcome();
    if holds(alloc, &settled, goal)? {
        put_count(0, out)?;
        return Ok(Advised::Already);
    }
    let hindrance = hindered_by(&settled, goal);
    match goal {
        Goal::Root { tree, bridge } => {
            let settings = root_settings(alloc, &settled, *tree, bridge)?;
            advise_root(
                alloc,
                *tree,
                bridge,
                settings.as_slice(),
                &hindrance,
                network,
                plan,
                out,
            )
        }
        Goal::Forward { tree, port } => {
            let settings = port_settings(alloc, &settled, *tree, port)?;
            advise_port(
                alloc,
                *tree,
                port,
                settings.as_slice(),
                &hindrance,
                network,
                plan,
                out,
            )
        }
    }
}
