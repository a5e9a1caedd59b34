ghost use Rattle.mst_vector.specs.Msti.{msti_rules};
ghost use Rattle.mst_vector.specs.MstiLaws.{msti_lawful};

use crate::metric::Metric;
use mst_ids::{BridgeId, Cost, PortId};
use std::cmp::Ordering;

/// A priority vector of an MSTI (802.1Q-2022, 13.11). Vectors are compared by their components in
/// this order, and the lower one is better.
#[derive(Clone, Copy, PartialEq, Eq, PartialOrd, Ord)]
pub struct MstiVector {
    /// The regional root's identifier.
    pub regional: BridgeId,
    /// The internal root path cost.
    pub internal: u64,
    /// The designated bridge's identifier.
    pub designated: BridgeId,
    /// The designated port's identifier; 0 in a bridge priority vector.
    pub port: PortId,
    /// The receiving port's identifier; 0 in a bridge priority vector.
    pub receiver: PortId,
}

/// What an MSTI has to know of a bridge.
#[derive(Clone, Copy)]
pub struct MstiBridge {
    /// The bridge's identifier in this tree.
    pub id: BridgeId,
}

/// What an MSTI has to know of a port.
#[derive(Clone, Copy)]
pub struct MstiPort {
    /// The port's identifier in this tree.
    pub id: PortId,
    /// The internal port path cost in this tree.
    pub internal: Cost,
}

/// The vectors of an MSTI.
#[derive(Drop)]
pub struct MstiMetric;

impl Metric for MstiMetric {
    type Bridge = MstiBridge;

    type Port = MstiPort;

    type Vector = MstiVector;

    ghost rules = { msti_rules };

    fn order(x: MstiVector, y: MstiVector) -> Ordering {
        x.cmp(&y)
    }

    fn bridge_vector(bridge: &MstiBridge) -> MstiVector {
        MstiVector {
            regional: bridge.id,
            internal: 0,
            designated: bridge.id,
            port: PortId::none(),
            receiver: PortId::none(),
        }
    }

    fn designated_vector(vector: MstiVector, bridge: &MstiBridge, port: &MstiPort) -> MstiVector {
        MstiVector {
            designated: bridge.id,
            port: port.id,
            ..vector
        }
    }

    fn root_path_vector(
        message: MstiVector,
        _sender: &MstiBridge,
        _receiver: &MstiBridge,
        port: &MstiPort,
    ) -> MstiVector {
        MstiVector {
            internal: message.internal + port.internal.value(),
            receiver: port.id,
            ..message
        }
    }

    ghost lawful = { msti_lawful };
}
