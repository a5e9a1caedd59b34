ghost use Rattle.std.specs.Prelude.{◌≡◌, true, IfOk};
ghost use Rattle.mst_config.specs.Shared.{AreRegions};
ghost use Rattle.mst_plan.specs.Plan.{IsPlan, AreTrees, WasViewed};
ghost use Rattle.mst_view.specs.Viewed.{IsView};
ghost use Rattle.mst_plan.specs.Standing.{standing_of, msti_settlings, KeepsBounds};
ghost use Rattle.mst_trees.specs.Bound.{SettlesNoUnused};

use mst_config::{Regions, regions_of};
use mst_lag::laws::{bridge_alone, lan_alone, port_alone, ports_alone, set_alone};
use mst_lag::{
    leaves_key, leaves_links, leaves_tables, renew_bridge, renew_lan, renew_links, renew_port,
    renew_settings, renew_tables, view,
};
use mst_lang::Edit;
use mst_net::{Contents, Network};
use mst_trees::{Forest, repaired_forest};
use mst_view::View;
use std::alloc::{AllocError, Global};

/// What follows from a network: its view, its regions, and its trees, settled.
pub struct Plan {
    /// Its logical ports and LANs.
    pub view: View,
    /// Its regions, by the numbers of bridges.
    pub regions: Regions,
    /// Its trees.
    pub forest: Forest,
}

// By hand, as a view's.
impl Drop for Plan {
    fn drop(self) {
        let Plan {
            view: _,
            regions: _,
            forest: _,
        } = self;
    }
}

/// The plan of a network beside another that stands: its trees are repaired from those, and its regions are copied where they stand.
/// `AllocError`: memory was wanted and refused.
pub fn plan_beside<C: Contents>(
    alloc: Global,
    contents: &C,
    standing: &Plan,
    regions_stand: bool,
) -> Result<Plan, AllocError>
    requires { regions_stand ≡ true → AreRegions (C.tables contents.now).net (C.tables contents.now).numbers standing.now.regions }
    ensures { IfOk result (IsPlan (C.tables contents.now).net (C.tables contents.now).numbers) }
{
    let regions = regions_now(alloc, contents, standing, regions_stand)?;
    plan_from(alloc, contents, regions, &standing.forest)
}

/// The regions and the trees of a network, by a plan whose view is the network's.
pub(crate) fn next_trees<C: Contents>(
    alloc: Global,
    contents: &C,
    standing: &Plan,
    regions_stand: bool,
) -> Result<(Regions, Forest), AllocError>
    requires view { IsView (C.tables contents.now).net (C.tables contents.now).numbers standing.now.view }
    requires regions { regions_stand ≡ true → AreRegions (C.tables contents.now).net (C.tables contents.now).numbers standing.now.regions }
    ensures trees { IfOk result (λ trees. AreTrees (C.tables contents.now).net (C.tables contents.now).numbers standing.now.view trees.0 trees.1) }
    ensures bounds { IfOk result (λ trees. KeepsBounds (standing_of standing.now.forest) (standing_of trees.1)) }
    ensures unused { IfOk result (λ trees. SettlesNoUnused (C.tables contents.now).net (msti_settlings (standing_of trees.1))) }
{
    contents.known();
    let regions = regions_now(alloc, contents, standing, regions_stand)?;
    let forest = repaired_forest(alloc, &standing.forest, &standing.view, &regions)?;
    Ok((regions, forest))
}

/// The regions of a network: a copy of those of this plan, where they stand, and else made anew.
pub(crate) fn regions_now<C: Contents>(
    alloc: Global,
    contents: &C,
    standing: &Plan,
    regions_stand: bool,
) -> Result<Regions, AllocError>
    requires { regions_stand ≡ true → AreRegions (C.tables contents.now).net (C.tables contents.now).numbers standing.now.regions }
    ensures { IfOk result (AreRegions (C.tables contents.now).net (C.tables contents.now).numbers) }
{
    if regions_stand {
        standing.regions.copy()
    } else {
        regions_of(alloc, contents)
    }
}

impl Plan {
    /// The plan with these regions and trees in the place of its own.
    pub(crate) fn with(self, regions: Regions, forest: Forest) -> Plan
        ensures { result ≡ record { view = self.view; regions = regions; forest = forest } }
    {
        let Plan {
            view,
            regions: _,
            forest: _,
        } = self;
        Plan {
            view,
            regions,
            forest,
        }
    }

    /// The plan once an edit was made, and whether its view is the network's: it was before, and is renewed.
    pub(crate) fn after(self, alloc: Global, network: &Network, edit: &Edit) -> (Plan, bool)
        requires { WasViewed edit.now network.now self.view }
        ensures stands { result.1 ≡ true → IsView network.now.net network.now.numbers result.0.view }
        ensures forest { result.0.forest ≡ self.forest }
        ensures regions { result.0.regions ≡ self.regions }
    {
        let Plan {
            mut view,
            regions,
            forest,
        } = self;
        let stands = renews_view(alloc, network, &mut view, edit);
        let plan = Plan {
            view,
            regions,
            forest,
        };
        (plan, stands)
    }
}

/// Renews the view of a plan for an edit that was made, where it was that of the network before. Answers whether it is the
/// network's now.
fn renews_view(alloc: Global, network: &Network, view: &mut View, edit: &Edit) -> bool
    requires { WasViewed edit.now network.now view.old }
    ensures { result ≡ true → IsView network.now.net network.now.numbers view.new }
{
    lan_alone();
    bridge_alone();
    port_alone();
    ports_alone();
    set_alone();
    match edit {
        Edit::SetLan { lan, change: _ } => renew_lan(alloc, view, network, lan).is_ok(),
        Edit::SetBridge { bridge, change } => {
            leaves_links(change) && renew_bridge(alloc, view, network, bridge).is_ok()
        }
        Edit::SetPort { port, change } => {
            if leaves_key(change) {
                renew_port(alloc, view, network, port).is_ok()
            } else {
                renew_links(alloc, view, network).is_ok()
            }
        }
        Edit::Plug { port: _, lan: _ } => renew_links(alloc, view, network).is_ok(),
        Edit::Unplug { port: _ } => renew_links(alloc, view, network).is_ok(),
        Edit::SetByTree(change) => {
            if leaves_tables(change) {
                renew_settings(view, network).is_ok()
            } else {
                renew_tables(alloc, view, network).is_ok()
            }
        }
        _ => false,
    }
}

/// The plan of a network with these regions, its trees repaired from these.
pub(crate) fn plan_from<C: Contents>(
    alloc: Global,
    contents: &C,
    regions: Regions,
    standing: &Forest,
) -> Result<Plan, AllocError>
    requires { AreRegions (C.tables contents.now).net (C.tables contents.now).numbers regions }
    ensures plan { IfOk result (IsPlan (C.tables contents.now).net (C.tables contents.now).numbers) }
    ensures bounds { IfOk result (λ plan. KeepsBounds (standing_of standing.now) (standing_of plan.forest)) }
    ensures unused { IfOk result (λ plan. SettlesNoUnused (C.tables contents.now).net (msti_settlings (standing_of plan.forest))) }
{
    contents.known();
    let view = view(alloc, contents)?;
    let forest = repaired_forest(alloc, standing, &view, &regions)?;
    Ok(Plan {
        view,
        regions,
        forest,
    })
}
