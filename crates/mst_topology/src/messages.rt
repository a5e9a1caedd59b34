ghost use Rattle.std.specs.Prelude.{◌≡◌, None};
ghost use Rattle.std.specs.Option.{ForSome};
ghost use Rattle.mst_topology.specs.Places.{option_at};
ghost use Rattle.mst_topology.specs.Topology.{HasPort};
ghost use Rattle.mst_topology.specs.Settled.{IsDesignatedVector};

use crate::by_number::ByNumber;
use crate::topology::Topology;
use crate::wiring::TreePort;
use mst_vector::Metric;

/// The designated priority vector of the port, if it is one of the tree and its bridge has a vector.
pub fn designated_vector<M: Metric>(
    topology: &Topology<M>,
    vectors: &ByNumber<Option<M::Vector>>,
    port: &TreePort<M::Port>,
) -> Option<M::Vector>
    requires { HasPort topology.now port.now }
    ensures some { ForSome result (λ x. IsDesignatedVector M.rules topology.now (option_at vectors.now) port.now x) }
    ensures none { result ≡ None → (x : M.Vector) → IsDesignatedVector M.rules topology.now (option_at vectors.now) port.now x → ⊥ }
{
    if !port.is_part {
        return None;
    }
    let bridge = topology.bridge(port.bridge)?;
    let root = vectors.get(port.bridge.0).flatten()?;
    Some(M::designated_vector(root, bridge, &port.settings))
}

/// The designated priority vector that the port had, if it is one of the tree, when its bridge had this vector.
pub fn designated_vector_with<M: Metric>(
    topology: &Topology<M>,
    stored: Option<M::Vector>,
    port: &TreePort<M::Port>,
) -> Option<M::Vector>
    requires { HasPort topology.now port.now }
    ensures some { ForSome result (λ x. IsDesignatedVector M.rules topology.now (λ n. stored) port.now x) }
    ensures none { result ≡ None → (x : M.Vector) → IsDesignatedVector M.rules topology.now (λ n. stored) port.now x → ⊥ }
{
    if !port.is_part {
        return None;
    }
    let bridge = topology.bridge(port.bridge)?;
    let root = stored?;
    Some(M::designated_vector(root, bridge, &port.settings))
}
