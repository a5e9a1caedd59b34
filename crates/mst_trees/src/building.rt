ghost use Rattle.std.specs.Prelude.{◌≡◌, ◌≢◌, IfOk};
ghost use Rattle.mst_forest.specs.Apart.{Apart};
ghost use Rattle.mst_trees.specs.Wirings.{HaveNumbers};

use mst_forest::{Bridges, TreePort, Wiring};
use mst_ids::BridgeNo;
use mst_vector::Metric;
use std::alloc::{AllocError, Global};

/// The wiring of these ports.
pub(crate) fn wiring_of<P: Copy>(
    alloc: Global,
    ports: Vec<TreePort<P>>,
) -> Result<Wiring<P>, AllocError>
    requires { HaveNumbers ports.items }
    ensures { IfOk result (λ wiring. wiring ≡ ports.items) }
{
    let mut wiring = Wiring::new(alloc);
    for port in ports {
        wiring.add(port)?;
    }
    Ok(wiring)
}

/// These bridges, to be found by number.
pub(crate) fn bridges_of<M: Metric>(
    alloc: Global,
    list: Vec<(BridgeNo, M::Bridge)>,
) -> Result<Bridges<M>, AllocError>
    requires { Apart (λ a b. a.0 ≢ b.0) list.items }
    ensures { IfOk result (λ bridges. bridges ≡ list.items) }
{
    let mut bridges = Bridges::new(alloc);
    for (number, bridge) in list {
        bridges.add(number, bridge)?;
    }
    Ok(bridges)
}
