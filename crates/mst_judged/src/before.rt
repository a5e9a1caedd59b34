ghost use Rattle.std.specs.Prelude.{◌≡◌, ◌&&◌, IfOk};
ghost use Rattle.std.specs.List.{list_any};
ghost use Rattle.std.specs.HashSet.{contains};
ghost use Rattle.mst_ids.specs.declared.name.PortName.{PortName as PortNameOf};
ghost use Rattle.mst_tables.specs.Tables.{port_eq};
ghost use Rattle.mst_policy.specs.Leaving.{sets_of};
ghost use Rattle.mst_reasons.specs.sweep.vlan.classes.Classes.{AreClasses, AreInSame};
ghost use Rattle.mst_judged.specs.Islands.{HasIslandsOf, IsOfPlan};
ghost use Rattle.mst_judged.specs.Seen.{IsBefore};

use crate::homes::made_at;
use crate::vids::classes_asked;
use indexmap::{IndexMap, IndexSet};
use mst_graph::Numbering;
use mst_ids::{BridgeNo, PortName, VidSet};
use mst_policy::Leaving;
use mst_reasons::{Carriage, classes_of_vids_in};
use mst_roles::Settled;
use mst_view::View;
use std::alloc::{AllocError, Global};

/// What is kept of a network for all its failures: the classes of its VIDs that no table and no set of VLANs tells apart, which no failure
/// changes, its enabled logical ports, and the islands of some classes.
#[derive(Drop)]
pub struct Before {
    pub classes: Numbering,
    pub enabled: IndexSet<PortName>,
    // For each class, if they are kept, the places of islands, by the numbers of the bridges in them.
    pub homes: Vec<Option<IndexMap<BridgeNo, usize>>>,
}

/// The names of the enabled logical ports.
fn enabled_ports(alloc: Global, view: &View) -> Result<IndexSet<PortName>, AllocError>
    ensures { IfOk result (λ names. (port : PortNameOf) → contains port_eq names port ≡ list_any (λ p. p.is_enabled && port_eq p.name port) view.now.ports) }
{
    let mut names = IndexSet::new(alloc);
    for port in view.ports() {
        if port.is_enabled {
            names.insert(port.name)?;
        }
    }
    Ok(names)
}

impl Before {
    /// Of this network, with classes that nothing tells apart which is meant to leave. `AllocError`: memory was wanted and refused.
    pub fn new(alloc: Global, plan: &Settled, leaving: &Leaving) -> Result<Before, AllocError>
        ensures classes { IfOk result (λ before. AreClasses plan.now.view before.classes) }
        ensures same { IfOk result (λ before. AreInSame (sets_of leaving.now) before.classes) }
        ensures ports { IfOk result (IsBefore plan.now.net) }
    {
        plan.known();
        let view = plan.view();
        let left = leaving.sets(alloc)?;
        let classes = classes_of_vids_in(alloc, view, left.as_slice())?;
        let enabled = enabled_ports(alloc, view)?;
        let homes = Vec::new(alloc);
        Ok(Before {
            classes,
            enabled,
            homes,
        })
    }

    /// The same, with the islands of the classes that have one of these VIDs, where `carriage` tells what carries the network's VIDs.
    /// `AllocError`: memory was wanted and refused.
    pub fn with_islands(
        alloc: Global,
        plan: &Settled,
        carriage: &Carriage,
        vids: &VidSet,
        leaving: &Leaving,
    ) -> Result<Before, AllocError>
        requires { IsOfPlan plan.now carriage.now }
        ensures classes { IfOk result (λ before. AreClasses plan.now.view before.classes) }
        ensures same { IfOk result (λ before. AreInSame (sets_of leaving.now) before.classes) }
        ensures ports { IfOk result (IsBefore plan.now.net) }
        ensures islands { IfOk result (HasIslandsOf carriage.now plan.now.numbers) }
    {
        plan.known();
        let mut before = Before::new(alloc, plan, leaving)?;
        let places = before.classes.firsts.as_slice();
        let numbers = before.classes.numbers.as_slice();
        let asked = classes_asked(alloc, numbers, vids, places.len())?;
        let homes = made_at(alloc, carriage, places, asked.as_slice())?;
        before.homes = homes;
        Ok(before)
    }
}
