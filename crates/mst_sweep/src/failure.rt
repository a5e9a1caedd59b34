ghost use Rattle.std.specs.Prelude.{◌≡◌, IfOk, map, filter};
ghost use Rattle.mst_net.specs.tables.Seen.{bridge_row};
ghost use Rattle.mst_net.specs.tables.Tables.{Net, Numbers};
ghost use Rattle.mst_view.specs.Viewed.{IsView};
ghost use Rattle.mst_sweep.specs.Failures.{edit_of, failures as all_failures};

use mst_ids::Name;
use mst_lang::{BridgeChange, Edit, LanChange, LanState, Power};
use mst_view::{BridgeInView, MemberLan, View};
use std::alloc::{AllocError, Global};

/// A single failure.
#[derive(Clone, Copy)]
pub enum Failure {
    /// A LAN that goes down.
    Lan(Name),
    /// A bridge that goes off.
    Bridge(Name),
}

impl Failure {
    /// The edit that makes the network that failed.
    pub fn edit(&self) -> Edit
        ensures { result ≡ edit_of self.now }
    {
        match self {
            Failure::Lan(lan) => Edit::SetLan {
                lan: *lan,
                change: LanChange::State(LanState::Down),
            },
            Failure::Bridge(bridge) => Edit::SetBridge {
                bridge: *bridge,
                change: BridgeChange::Power(Power::Off),
            },
        }
    }
}

/// The failures of those of these LANs that are up.
fn of_lans(alloc: Global, lans: &[MemberLan]) -> Result<Vec<Failure>, AllocError>
    ensures { IfOk result (λ failures. failures.items ≡ map (λ lan. Failure.Lan lan.name) (filter (λ lan. lan.is_up) lans.now)) }
{
    lans.iter()
        .filter(|lan| lan.is_up)
        .map(|lan| Failure::Lan(lan.name))
        .collect(alloc)
}

/// The failures of those of these bridges that are on.
fn of_bridges(alloc: Global, bridges: &[BridgeInView]) -> Result<Vec<Failure>, AllocError>
    ensures { IfOk result (λ failures. failures.items ≡ map (λ bridge. Failure.Bridge bridge.name) (filter (λ bridge. (bridge_row bridge.bridge).is_on) bridges.now)) }
{
    bridges
        .iter()
        .filter(|bridge| bridge.bridge.is_on())
        .map(|bridge| Failure::Bridge(bridge.name))
        .collect(alloc)
}

/// The single failures of a network, by its view: each LAN that is up, in use or not, and then each bridge that is on, by
/// name. `AllocError`: memory was wanted and refused.
pub fn failures(alloc: Global, view: &View) -> Result<Vec<Failure>, AllocError>
    ensures { IfOk result (λ failures. (net : Net) (numbers : Numbers) → IsView net numbers view.now → failures.items ≡ all_failures net) }
{
    let mut failures = of_lans(alloc, view.member_lans())?;
    let bridges = of_bridges(alloc, view.bridges())?;
    failures.extend_from_slice(bridges.as_slice())?;
    Ok(failures)
}
