ghost use Rattle.mst_vector.specs.Cist.{cist_rules};
ghost use Rattle.mst_vector.specs.CistLaws.{cist_lawful};

use crate::metric::Metric;
use mst_ids::{BridgeId, Cost, PortId};
use std::cmp::Ordering;

/// A priority vector of the CIST (802.1Q-2022, 13.10). Vectors are compared by their components in
/// this order, and the lower one is better.
#[derive(Clone, Copy, PartialEq, Eq, PartialOrd, Ord)]
pub struct CistVector {
    /// The root's identifier.
    pub root: BridgeId,
    /// The external root path cost.
    pub external: u64,
    /// The regional root's identifier.
    pub regional: BridgeId,
    /// The internal root path cost.
    pub internal: u64,
    /// The designated bridge's identifier.
    pub designated: BridgeId,
    /// The designated port's identifier; 0 in a bridge priority vector.
    pub port: PortId,
    /// The receiving port's identifier; 0 in a bridge priority vector.
    pub receiver: PortId,
}

/// What the CIST has to know of a bridge.
#[derive(Clone, Copy)]
pub struct CistBridge {
    /// The bridge's identifier.
    pub id: BridgeId,
    /// The Bridge Identifier that stands for the bridge's region: bridges of one region, and no
    /// others, have the same.
    pub region: BridgeId,
    /// Whether the bridge runs RSTP, and so does not tell a regional root from a designated bridge.
    pub is_rstp: bool,
}

/// What the CIST has to know of a port.
#[derive(Clone, Copy)]
pub struct CistPort {
    /// The port's identifier.
    pub id: PortId,
    /// The external port path cost, which counts between regions.
    pub external: Cost,
    /// The internal port path cost, which counts within a region.
    pub internal: Cost,
}

/// The vectors of the CIST.
#[derive(Drop)]
pub struct CistMetric;

impl Metric for CistMetric {
    type Bridge = CistBridge;

    type Port = CistPort;

    type Vector = CistVector;

    ghost rules = { cist_rules };

    fn order(x: CistVector, y: CistVector) -> Ordering {
        x.cmp(&y)
    }

    fn bridge_vector(bridge: &CistBridge) -> CistVector {
        CistVector {
            root: bridge.id,
            external: 0,
            regional: bridge.id,
            internal: 0,
            designated: bridge.id,
            port: PortId::none(),
            receiver: PortId::none(),
        }
    }

    fn designated_vector(vector: CistVector, bridge: &CistBridge, port: &CistPort) -> CistVector {
        CistVector {
            designated: bridge.id,
            port: port.id,
            ..vector
        }
    }

    fn root_path_vector(
        message: CistVector,
        sender: &CistBridge,
        receiver: &CistBridge,
        port: &CistPort,
    ) -> CistVector {
        if sender.region == receiver.region {
            return CistVector {
                internal: message.internal + port.internal.value(),
                receiver: port.id,
                ..message
            };
        }
        CistVector {
            external: message.external + port.external.value(),
            regional: receiver.id,
            internal: 0,
            designated: if receiver.is_rstp {
                message.regional
            } else {
                message.designated
            },
            receiver: port.id,
            ..message
        }
    }

    ghost lawful = { cist_lawful };
}
