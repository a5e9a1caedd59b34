ghost use Rattle.std.specs.Prelude.{◌≡◌, ◌++◌, ◌∷◌, [], OnOk};

use mst_ids::{BridgeNo, LanNo};
use std::alloc::{AllocError, Global};
use std::marker::Model;

/// Bridges and LANs that links join, by the numbers of their records.
#[derive(Drop)]
pub struct Island {
    bridges: Vec<BridgeNo>,
    lans: Vec<LanNo>,
}

impl Model for Island {
    ghost use Rattle.std.specs.Prelude.{ℕ};
    ghost use Rattle.mst_graph.specs.Islands.{Island as IslandOf};

    ghost Value = { IslandOf ℕ ℕ };

    ghost view = { λ i. record { bridges = i.bridges.items; lans = i.lans.items } };
}

impl Island {
    /// The bridges, in their order.
    pub fn bridges(&self) -> &[BridgeNo]
        ensures { result.now ≡ self.now.bridges }
    {
        self.bridges.as_slice()
    }

    /// The LANs, in their order.
    pub fn lans(&self) -> &[LanNo]
        ensures { result.now ≡ self.now.lans }
    {
        self.lans.as_slice()
    }

    /// An island with no bridge and no LAN.
    pub(crate) fn new(alloc: Global) -> Island
        ensures bridges { result.bridges ≡ [] }
        ensures lans { result.lans ≡ [] }
    {
        Island {
            bridges: Vec::new(alloc),
            lans: Vec::new(alloc),
        }
    }

    /// Adds a bridge after the others.
    pub(crate) fn add_bridge(&mut self, bridge: BridgeNo) -> Result<(), AllocError>
        ensures bridges { OnOk result (self.new.bridges ≡ self.old.bridges ++ bridge ∷ []) }
        ensures lans { OnOk result (self.new.lans ≡ self.old.lans) }
    {
        self.bridges.push(bridge)?;
        Ok(())
    }

    /// Adds a LAN after the others.
    pub(crate) fn add_lan(&mut self, lan: LanNo) -> Result<(), AllocError>
        ensures bridges { OnOk result (self.new.bridges ≡ self.old.bridges) }
        ensures lans { OnOk result (self.new.lans ≡ self.old.lans ++ lan ∷ []) }
    {
        self.lans.push(lan)?;
        Ok(())
    }
}
