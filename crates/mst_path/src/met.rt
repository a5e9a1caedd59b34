ghost use Rattle.std.specs.Prelude.{◌≡◌, IfOk, map};
ghost use Rattle.mst_path.specs.Paths.{bridges_met as bridges_met_by};
ghost use Rattle.mst_path.specs.Places.{named_hop};

use crate::hop::Hop;
use mst_ids::Name;
use std::alloc::{AllocError, Global};

/// The bridges that a path from this one meets, its two ends among them, in its order. `AllocError`: memory was wanted and refused.
pub fn bridges_met(alloc: Global, from: &Name, hops: &[Hop]) -> Result<Vec<Name>, AllocError>
    ensures { IfOk result (λ bridges. bridges.items ≡ bridges_met_by from.now (map named_hop hops.now)) }
{
    let mut bridges = Vec::new(alloc);
    bridges.push(*from)?;
    for hop in hops {
        bridges.push(hop.arriving.name.bridge)?;
    }
    Ok(bridges)
}
