ghost use Rattle.std.specs.Prelude.{◌≡◌};
ghost use Rattle.mst_bpdu.specs.Sender.{bridge_of, port_of};

use crate::flags::Flags;
use crate::messages::MstiMessages;
use mst_ids::{BridgeId, PortId, Priority};

/// What a captured BPDU says (802.1Q-2022, clause 14). It is of fixed size, and its fields may have any value of
/// their octets, whether or not some bridge sends it.
#[derive(Drop)]
pub enum Bpdu {
    /// An RST BPDU, of version 2.
    Rst(RstBpdu),
    /// An MST BPDU, of version 3.
    Mst(MstBpdu),
}

impl Bpdu {
    /// The identifier of the bridge that sent it: the Bridge Identifier of an RST BPDU, the CIST Bridge Identifier
    /// of an MST BPDU.
    pub fn bridge(&self) -> BridgeId
        ensures { result ≡ bridge_of self.now }
    {
        match self {
            Bpdu::Rst(bpdu) => bpdu.bridge,
            Bpdu::Mst(bpdu) => bpdu.bridge,
        }
    }

    /// The identifier of the port that sent it: the Port Identifier or the CIST Port Identifier.
    pub fn port(&self) -> PortId
        ensures { result ≡ port_of self.now }
    {
        match self {
            Bpdu::Rst(bpdu) => bpdu.port,
            Bpdu::Mst(bpdu) => bpdu.port,
        }
    }
}

/// The fields of an RST BPDU (802.1Q-2022, clause 14), but for those that are the same in each.
#[derive(Clone, Copy)]
pub struct RstBpdu {
    pub flags: Flags,
    /// The Root Identifier.
    pub root: BridgeId,
    pub root_path_cost: u32,
    /// The Bridge Identifier of the sender.
    pub bridge: BridgeId,
    /// The Port Identifier of the sender.
    pub port: PortId,
    pub times: Times,
}

/// The fields of an MST BPDU (802.1Q-2022, clause 14), but for those that are the same in each, and for its
/// Version 3 Length, which the number of messages tells.
#[derive(Drop)]
pub struct MstBpdu {
    /// The CIST flags.
    pub flags: Flags,
    /// The CIST Root Identifier.
    pub root: BridgeId,
    /// The CIST External Root Path Cost.
    pub external_cost: u32,
    /// The CIST Regional Root Identifier.
    pub regional_root: BridgeId,
    /// The CIST Port Identifier of the sender.
    pub port: PortId,
    pub times: Times,
    pub configuration: ConfigurationId,
    /// The CIST Internal Root Path Cost.
    pub internal_cost: u32,
    /// The CIST Bridge Identifier of the sender.
    pub bridge: BridgeId,
    /// How many bridges of the region the CIST part may still go over.
    pub remaining_hops: u8,
    pub messages: MstiMessages,
}

/// Times in 256ths of a second.
#[derive(Clone, Copy)]
pub struct Times {
    pub message_age: u16,
    pub max_age: u16,
    pub hello_time: u16,
    pub forward_delay: u16,
}

/// An MST Configuration Identifier (802.1Q-2022, 13.8).
#[derive(Clone, Copy)]
pub struct ConfigurationId {
    /// The Format Selector, 0 for the format of the standard.
    pub selector: u8,
    /// The name, with zeros after it.
    pub name: [u8; 32],
    pub revision: u16,
    /// The Configuration Digest.
    pub digest: [u8; 16],
}

/// What an MST BPDU says of one MSTI (802.1Q-2022, clause 14).
#[derive(Clone, Copy)]
pub struct MstiMessage {
    pub flags: Flags,
    /// The MSTI Regional Root Identifier, whose system ID extension is the number of the tree.
    pub regional_root: BridgeId,
    /// The MSTI Internal Root Path Cost.
    pub internal_cost: u32,
    /// The priority of the sender in the tree.
    pub bridge_priority: Priority,
    /// The priority of the sender's port in the tree.
    pub port_priority: Priority,
    /// How many bridges of the region the message may still go over.
    pub remaining_hops: u8,
}
