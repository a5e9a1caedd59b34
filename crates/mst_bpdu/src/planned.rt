ghost use Rattle.std.specs.Prelude.{◌≡◌, [], ◌∷◌, ◌++◌, OnOk, OnErr};

use crate::bpdu::ConfigurationId;
use crate::flags::RoleCode;
use mst_ids::{BridgeId, PortId, Priority, Tree};
use std::alloc::{AllocError, Global};
use std::marker::Model;

/// What a plan has for the BPDUs of a port. An RST BPDU is compared with the part of the CIST alone.
#[derive(Drop)]
pub struct Planned {
    pub cist: PlannedCist,
    pub configuration: ConfigurationId,
    pub mstis: PlannedMstis,
}

/// The role of a port in the CIST, whether it forwards, and its designated priority vector (802.1Q-2022, clause
/// 13).
#[derive(Clone, Copy)]
pub struct PlannedCist {
    pub role: RoleCode,
    /// Whether the port forwards, which stands for learning and for forwarding.
    pub forwards: bool,
    pub root: BridgeId,
    pub external_cost: u64,
    pub regional_root: BridgeId,
    pub internal_cost: u64,
    pub bridge: BridgeId,
    pub port: PortId,
}

/// The role of a port in an MSTI, whether it forwards, and its designated priority vector by what a message tells of
/// it.
#[derive(Clone, Copy)]
pub struct PlannedMsti {
    /// The MSTI's number.
    pub tree: Tree,
    pub role: RoleCode,
    /// Whether the port forwards, which stands for learning and for forwarding.
    pub forwards: bool,
    pub regional_root: BridgeId,
    pub internal_cost: u64,
    pub bridge_priority: Priority,
    pub port_priority: Priority,
}

/// What a plan has for a port in each MSTI of its bridge, in the order in which it is added: rising by tree, so that
/// MSTIs without a message are told in that order.
#[derive(Drop)]
pub struct PlannedMstis {
    mstis: Vec<PlannedMsti>,
}

impl Model for PlannedMstis {
    ghost use Rattle.std.specs.Prelude.{List};
    ghost use Rattle.mst_bpdu.specs.declared.planned.PlannedMsti.{PlannedMsti};

    ghost Value = { List PlannedMsti };

    ghost view = { λ a. a.mstis.items };
}

impl PlannedMstis {
    /// No MSTI. This takes no memory.
    pub fn new(alloc: Global) -> PlannedMstis
        ensures { result ≡ [] }
    {
        PlannedMstis {
            mstis: Vec::new(alloc),
        }
    }

    /// Adds an MSTI at the end. `AllocError`: memory was wanted and refused, and the MSTIs are as they were.
    pub fn push(&mut self, msti: PlannedMsti) -> Result<(), AllocError>
        ensures ok { OnOk result (self.new ≡ self.old ++ msti ∷ []) }
        ensures err { OnErr result (self.new ≡ self.old) }
    {
        self.mstis.push(msti)?;
        Ok(())
    }

    /// The MSTIs.
    pub fn as_slice(&self) -> &[PlannedMsti]
        ensures { result.now ≡ self.now }
    {
        &self.mstis
    }
}
