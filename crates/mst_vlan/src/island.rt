ghost use Rattle.std.specs.Prelude.{◌≡◌, IfOk, false};
ghost use Rattle.mst_graph.specs.Lists.{has_any};

use mst_ids::{BridgeNo, LanNo};
use std::alloc::{AllocError, Global};
use std::marker::Model;

/// The numbers of bridges, in byte order of the bridges' names.
#[derive(Drop)]
pub struct BridgeList {
    numbers: Vec<BridgeNo>,
}

/// The numbers of logical LANs, in byte order of the LANs' names.
#[derive(Drop)]
pub struct LanList {
    numbers: Vec<LanNo>,
}

impl Model for BridgeList {
    ghost use Rattle.std.specs.Prelude.{ℕ, List};

    ghost Value = { List ℕ };

    ghost view = { λ l. l.numbers.items };
}

impl Model for LanList {
    ghost use Rattle.std.specs.Prelude.{ℕ, List};

    ghost Value = { List ℕ };

    ghost view = { λ l. l.numbers.items };
}

impl BridgeList {
    /// These numbers. `AllocError`: memory was wanted and refused.
    pub(crate) fn of(alloc: Global, numbers: &[BridgeNo]) -> Result<BridgeList, AllocError>
        ensures { IfOk result (λ list. list ≡ numbers.now) }
    {
        let numbers = Vec::from_slice(alloc, numbers)?;
        Ok(BridgeList { numbers })
    }

    /// The numbers.
    pub fn as_slice(&self) -> &[BridgeNo]
        ensures { result.now ≡ self.now }
    {
        self.numbers.as_slice()
    }
}

impl LanList {
    /// These numbers. `AllocError`: memory was wanted and refused.
    pub(crate) fn of(alloc: Global, numbers: &[LanNo]) -> Result<LanList, AllocError>
        ensures { IfOk result (λ list. list ≡ numbers.now) }
    {
        let numbers = Vec::from_slice(alloc, numbers)?;
        Ok(LanList { numbers })
    }

    /// The numbers.
    pub fn as_slice(&self) -> &[LanNo]
        ensures { result.now ≡ self.now }
    {
        self.numbers.as_slice()
    }
}

/// Bridges that are on and logical LANs that are up, which reach each other.
#[derive(Drop)]
pub struct Island {
    pub bridges: BridgeList,
    pub lans: LanList,
}

/// Whether an island has a bridge.
pub fn has_bridge(island: &Island) -> bool
    ensures { result ≡ has_any island.now.bridges }
{
    match island.bridges.as_slice() {
        [] => false,
        [..] => true,
    }
}
