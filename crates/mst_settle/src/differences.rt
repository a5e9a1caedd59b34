ghost use Rattle.std.specs.Prelude.{◌≡◌, ◌⊎◌, ◌↔◌, ℕ, OnOk, IsTrue};
ghost use Rattle.std.specs.List.{Contains};
ghost use Rattle.mst_topology.specs.Topology.{TreePort as TreePortOf, HasBridge, HasPort};
ghost use Rattle.mst_settle.specs.Settler.{HasSpaceFor, KeepsOutcome};
ghost use Rattle.mst_topology.specs.Places.{in_map};
ghost use Rattle.mst_topology.specs.Wiring.{topology_of};
ghost use Rattle.mst_settle.specs.Differences.{IsTouched, PortIsDone, NumberIsDone, LansAreTouched, BridgeIsDone, TouchesMissing, HasSpaceOn};

use crate::rewiring::Rewiring;
use crate::settler::Settler;
use mst_ids::{BridgeNo, PortNo};
use mst_outcome::own::same_own;
use mst_outcome::{TellsApart, has_bridge, same_bridges, same_tree_port};
use mst_topology::{ByNumber, Topology};
use std::alloc::AllocError;

/// Makes the space that touches and a repair for a topology need, where there is space for its ports. `AllocError`: memory was
/// wanted and refused, and the outcome, the touches and the space that was there stay.
pub fn reserve_bridges<M: TellsApart>(
    settler: &mut Settler<M>,
    topology: &Topology<M>,
) -> Result<(), AllocError>
    requires { HasSpaceOn topology.now.ports settler.old }
    ensures keeps { KeepsOutcome settler.old settler.new }
    ensures ok { OnOk result (HasSpaceFor topology.now settler.new) }
{
    for bridge in topology.bridges() {
        settler.reserve_bridge(bridge.0)?;
    }
    Ok(())
}

/// Touches the bridge and the LAN of the port of that number, if the topology has one.
fn touch_port<M: TellsApart>(settler: &mut Settler<M>, topology: &Topology<M>, number: PortNo)
    requires { HasSpaceFor topology.now settler.old }
    ensures keeps { KeepsOutcome settler.old settler.new }
    ensures touched { (p : TreePortOf ℕ ℕ ℕ M.Port) → HasPort topology.now p → p.number ≡ number → IsTouched settler.new p }
{
    topology.known();
    if let Some(port) = topology.port(number) {
        settler.touch(port.lan);
        settler.touch_bridge(port.bridge);
    }
}

/// Touches the bridges and LANs of the ports of that number in both topologies, unless they have the same port of it.
fn touch_number<M: TellsApart>(
    settler: &mut Settler<M>,
    from: &Topology<M>,
    to: &Topology<M>,
    number: PortNo,
)
    requires from { HasSpaceFor from.now settler.old }
    requires to { HasSpaceFor to.now settler.old }
    ensures keeps { KeepsOutcome settler.old settler.new }
    ensures done { NumberIsDone from.now to.now settler.new number }
{
    if !same_at::<M>(from, to, number) {
        touch_port::<M>(settler, from, number);
        touch_port::<M>(settler, to, number);
    }
}

/// Touches the bridges and LANs of those ports of these numbers that differ between the topologies.
fn touch_numbers<M: TellsApart>(
    settler: &mut Settler<M>,
    from: &Topology<M>,
    to: &Topology<M>,
    numbers: &[PortNo],
)
    requires from { HasSpaceFor from.now settler.old }
    requires to { HasSpaceFor to.now settler.old }
    ensures keeps { KeepsOutcome settler.old settler.new }
    ensures done { (p : TreePortOf ℕ ℕ ℕ M.Port) → HasPort from.now p ⊎ HasPort to.now p → Contains numbers.now p.number → PortIsDone from.now to.now settler.new p }
{
    for number in numbers {
        touch_number::<M>(settler, from, to, *number);
    }
}

/// Touches the bridges and LANs of those ports that differ between the topologies and haven't the same settings of
/// their own. No port is looked up where it is known that all have the same.
fn touch_own<M: TellsApart>(
    settler: &mut Settler<M>,
    from: &Topology<M>,
    to: &Topology<M>,
    own_from: &ByNumber<M::Port>,
    own_to: &ByNumber<M::Port>,
    same: bool,
)
    requires same { IsTrue same → own_from.now ≡ own_to.now }
    requires from { HasSpaceFor from.now settler.old }
    requires to { HasSpaceFor to.now settler.old }
    ensures keeps { KeepsOutcome settler.old settler.new }
    ensures done { (p : TreePortOf ℕ ℕ ℕ M.Port) → HasPort from.now p ⊎ HasPort to.now p → (in_map own_from.now p.number ≡ in_map own_to.now p.number) ⊎ PortIsDone from.now to.now settler.new p }
{
    if same {
        return;
    }
    let bound = own_from.bound().max(own_to.bound());
    for number in 0..bound {
        if !same_own::<M>(own_from, own_to, number) {
            touch_number::<M>(settler, from, to, PortNo(number));
        }
    }
}

/// Touches the LANs of the ports of a bridge.
fn touch_lans_of<M: TellsApart>(settler: &mut Settler<M>, topology: &Topology<M>, bridge: BridgeNo)
    requires { HasSpaceFor topology.now settler.old }
    ensures keeps { KeepsOutcome settler.old settler.new }
    ensures touched { LansAreTouched topology.now settler.new bridge }
{
    let mut next = topology.last_of(bridge);
    while let Some(place) = next {
        settler.touch(topology.at(place).lan);
        next = topology.before_of(place);
    }
}

/// Touches a bridge of the first topology, and the LANs of its ports in both, if the second hasn't the same bridge.
fn touch_bridge<M: TellsApart>(
    settler: &mut Settler<M>,
    here: &Topology<M>,
    there: &Topology<M>,
    number: BridgeNo,
    bridge: &M::Bridge,
)
    requires here { HasSpaceFor here.now settler.old }
    requires there { HasSpaceFor there.now settler.old }
    requires bridge { HasBridge here.now number bridge.now }
    ensures keeps { KeepsOutcome settler.old settler.new }
    ensures done { BridgeIsDone here.now there.now settler.new number bridge.now }
{
    if !has_bridge::<M>(there, number, bridge) {
        settler.touch_bridge(number);
        touch_lans_of::<M>(settler, here, number);
        touch_lans_of::<M>(settler, there, number);
    }
}

/// Touches the bridges of the first topology that the second hasn't, and the LANs of their ports in both.
fn touch_bridges<M: TellsApart>(settler: &mut Settler<M>, here: &Topology<M>, there: &Topology<M>)
    requires here { HasSpaceFor here.now settler.old }
    requires there { HasSpaceFor there.now settler.old }
    ensures keeps { KeepsOutcome settler.old settler.new }
    ensures done { (n : ℕ) (b : M.Bridge) → HasBridge here.now n b → BridgeIsDone here.now there.now settler.new n b }
{
    for bridge in here.bridges() {
        touch_bridge::<M>(settler, here, there, bridge.0, &bridge.1);
    }
}

/// Touches where two topologies on two wirings differ, whose ports of these numbers have settings of their own. `same`
/// says that these are known to be the same.
pub fn touch_differences<M: TellsApart>(
    settler: &mut Settler<M>,
    rewiring: &Rewiring<M>,
    from: &Topology<M>,
    to: &Topology<M>,
    own_from: &ByNumber<M::Port>,
    own_to: &ByNumber<M::Port>,
    same: bool,
)
    requires from { from.now ≡ topology_of rewiring.now.from from.now.bridges own_from.now }
    requires to { to.now ≡ topology_of rewiring.now.to to.now.bridges own_to.now }
    requires same { IsTrue same → own_from.now ≡ own_to.now }
    requires space_from { HasSpaceFor from.now settler.old }
    requires space_to { HasSpaceFor to.now settler.old }
    ensures keeps { KeepsOutcome settler.old settler.new }
    ensures there { TouchesMissing from.now to.now settler.new }
    ensures back { TouchesMissing to.now from.now settler.new }
{
    touch_numbers::<M>(settler, from, to, rewiring.differing());
    touch_own::<M>(settler, from, to, own_from, own_to, same);
    touch_bridges::<M>(settler, from, to);
    touch_bridges::<M>(settler, to, from);
}

/// Whether two topologies have the same port of a number, or none.
fn same_at<M: TellsApart>(from: &Topology<M>, to: &Topology<M>, number: PortNo) -> bool
    ensures { IsTrue result → (p : TreePortOf ℕ ℕ ℕ M.Port) → p.number ≡ number → HasPort from.now p ↔ HasPort to.now p }
{
    from.known();
    to.known();
    match (from.port(number), to.port(number)) {
        (None, None) => true,
        (Some(a), Some(b)) => same_tree_port::<M>(&a, &b),
        _ => false,
    }
}

/// Whether two topologies have the same ports of these numbers.
fn same_at_numbers<M: TellsApart>(from: &Topology<M>, to: &Topology<M>, numbers: &[PortNo]) -> bool
    ensures { IsTrue result → (p : TreePortOf ℕ ℕ ℕ M.Port) → Contains numbers.now p.number → HasPort from.now p ↔ HasPort to.now p }
{
    for number in numbers {
        if !same_at::<M>(from, to, *number) {
            return false;
        }
    }
    true
}

/// Whether two topologies have the same ports of those numbers that haven't the same settings of their own. No port is
/// looked up where it is known that all have the same.
fn same_at_own<M: TellsApart>(
    from: &Topology<M>,
    to: &Topology<M>,
    own_from: &ByNumber<M::Port>,
    own_to: &ByNumber<M::Port>,
    same: bool,
) -> bool
    requires { IsTrue same → own_from.now ≡ own_to.now }
    ensures { IsTrue result → (p : TreePortOf ℕ ℕ ℕ M.Port) → (in_map own_from.now p.number ≡ in_map own_to.now p.number) ⊎ (HasPort from.now p ↔ HasPort to.now p) }
{
    if same {
        return true;
    }
    let bound = own_from.bound().max(own_to.bound());
    for number in 0..bound {
        if !same_own::<M>(own_from, own_to, number) && !same_at::<M>(from, to, PortNo(number)) {
            return false;
        }
    }
    true
}

/// Whether two topologies on two wirings are the same. `same` says that the settings of their own that ports have are known
/// to be.
pub fn is_same<M: TellsApart>(
    rewiring: &Rewiring<M>,
    from: &Topology<M>,
    to: &Topology<M>,
    own_from: &ByNumber<M::Port>,
    own_to: &ByNumber<M::Port>,
    same: bool,
) -> bool
    requires from { from.now ≡ topology_of rewiring.now.from from.now.bridges own_from.now }
    requires to { to.now ≡ topology_of rewiring.now.to to.now.bridges own_to.now }
    requires same { IsTrue same → own_from.now ≡ own_to.now }
    ensures bridges { IsTrue result → from.now.bridges ≡ to.now.bridges }
    ensures ports { IsTrue result → (p : TreePortOf ℕ ℕ ℕ M.Port) → HasPort from.now p ↔ HasPort to.now p }
{
    same_bridges::<M>(from.bridges(), to.bridges())
        && same_at_numbers::<M>(from, to, rewiring.differing())
        && same_at_own::<M>(from, to, own_from, own_to, same)
}
