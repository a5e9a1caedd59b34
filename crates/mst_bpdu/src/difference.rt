use mst_ids::{BridgeId, PortId};

/// What differs: a field of a BPDU or of an MSTI message, or an MSTI as a whole.
#[derive(Clone, Copy)]
pub enum Field {
    /// The role's two bits.
    Role,
    /// The flag, 0 or 1.
    Learning,
    /// The flag, 0 or 1.
    Forwarding,
    /// The root of the CIST.
    Root,
    /// The external root path cost, the root path cost of an RST BPDU.
    ExternalCost,
    /// The regional root, of the CIST or of an MSTI.
    RegionalRoot,
    /// The internal root path cost, of the CIST or of an MSTI.
    InternalCost,
    /// The sender.
    Bridge,
    /// The sender's port.
    Port,
    /// The Format Selector of the configuration.
    Selector,
    /// The name of the configuration.
    Name,
    /// The revision of the configuration.
    Revision,
    /// The digest of the configuration.
    Digest,
    /// The sender's priority in an MSTI, 0 to 15.
    BridgePriority,
    /// The priority of the sender's port in an MSTI, 0 to 15.
    PortPriority,
    /// A message of a tree that the plan hasn't for the sender. Without values, as the next two.
    Unplanned,
    /// A message of a tree that a message before it has.
    Repeated,
    /// A tree that the plan has for the sender and no message is of.
    Missing,
}

/// The value of a field.
#[derive(Clone, Copy, PartialEq, Eq)]
pub enum Value {
    /// None, of an MSTI as a whole.
    Nil,
    /// A cost, a priority, a flag, the role's two bits, a Format Selector or a revision.
    Number(u64),
    /// A Bridge Identifier.
    Bridge(BridgeId),
    /// A Port Identifier.
    Port(PortId),
    /// The name of a configuration, with zeros after it.
    Name([u8; 32]),
    /// A Configuration Digest.
    Digest([u8; 16]),
}

/// Where a capture differs from a plan.
#[derive(Clone, Copy)]
pub struct Difference {
    /// The MSTI's number, or 0 for the CIST.
    pub tree: u16,
    pub field: Field,
    /// The value that the plan has.
    pub plan: Value,
    /// The value that the capture has.
    pub capture: Value,
}
