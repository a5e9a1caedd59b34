use mst_ids::{BridgeNo, LanNo};
use std::marker::Model;

/// A link between a bridge and a LAN, by the numbers of their records.
#[derive(Clone, Copy)]
pub struct Link {
    /// The number of the bridge.
    pub bridge: BridgeNo,
    /// The number of the LAN.
    pub lan: LanNo,
}

impl Model for Link {
    ghost use Rattle.std.specs.Prelude.{ℕ};
    ghost use Rattle.mst_graph.specs.Islands.{Link as LinkOf};

    ghost Value = { LinkOf ℕ ℕ };

    ghost view = { λ k. record { bridge = k.bridge; lan = k.lan } };

    ghost inverse = { λ k. record { bridge = k.bridge; lan = k.lan } };
}
