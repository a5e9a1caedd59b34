ghost use Rattle.std.specs.Prelude.{◌≡◌, ◌⊎◌, ℕ, Option, Some};
ghost use Rattle.mst_topology.specs.Places.{in_map, option_at};
ghost use Rattle.mst_topology.specs.Effects.{IsLanOf};

use mst_ids::{BridgeNo, LanNo, PortNo};
use mst_topology::{ByNumber, Topology};
use mst_vector::Metric;

/// Notes the designated port of a LAN, if it has room.
fn note_one(former: &mut ByNumber<Option<PortNo>>, ports: &ByNumber<Option<PortNo>>, lan: LanNo)
    ensures here { (o : Option ℕ) → in_map former.new lan ≡ Some o → o ≡ option_at ports.now lan }
    ensures others { (k : ℕ) (o : Option ℕ) → in_map former.new k ≡ Some o → (k ≡ lan) ⊎ (in_map former.old k ≡ Some o) }
{
    if former.has(lan.0) {
        former.write_at(lan.0, ports.get(lan.0).flatten());
    }
}

/// Notes the designated ports of a bridge's LANs.
pub fn note<M: Metric>(
    former: &mut ByNumber<Option<PortNo>>,
    topology: &Topology<M>,
    ports: &ByNumber<Option<PortNo>>,
    bridge: BridgeNo,
)
    ensures { (lan : ℕ) (o : Option ℕ) → IsLanOf topology.now bridge lan → in_map former.new lan ≡ Some o → o ≡ option_at ports.now lan }
{
    let mut next = topology.last_of(bridge);
    while let Some(place) = next {
        let port = topology.at(place);
        note_one(former, ports, port.lan);
        next = topology.before_of(place);
    }
}
