use mst_ids::{BridgeId, ConfName, Mac, Name, PortId, PortName, Tree, VidSet};

/// A value that stands in a row.
#[derive(Clone, Copy)]
pub enum Value<'a> {
    /// Nothing: `-` in a line, `null` in a record.
    Absent,
    /// A word of a fixed set, as a role, or the name of a configuration.
    Word(&'a [u8]),
    /// A name.
    Name(&'a Name),
    /// A number: of a port, of a tree; a cost, a count.
    Number(u64),
    /// The identifier of a bridge.
    BridgeId(BridgeId),
    /// The identifier of a port.
    PortId(PortId),
    /// A MAC address.
    Mac(Mac),
    /// A port: `B:P` in a line, and an object in a record.
    Port(&'a PortName),
    /// VIDs: their longest runs.
    Vids(&'a VidSet),
    /// Names, one word each, or `-` where there is none. A part may put `,` between them; so with ports and trees.
    Names(&'a [Name]),
    /// Ports.
    Ports(&'a [PortName]),
    /// Trees.
    Trees(&'a [Tree]),
    /// Lists of names, each one word with `,` between its names, or `-` where there is none.
    Groups(&'a [Vec<Name>]),
    /// Active ports, one word each, or `-` where there is none.
    Active(&'a [ActivePort]),
    /// A port, or a bridge's own vector: `own` in a line, `null` in a record.
    Giver(&'a Option<PortName>),
    /// A priority vector: its components in a line, and an object in a record.
    Vector(&'a Vector),
    /// What tells a region: a name, a revision and its first bridge in a line, or `rstp`, `-` and its bridge; in a record an object.
    Region(&'a RegionSide),
    /// A LAN that fails: `lan L` in a line, and an object in a record.
    FailedLan(&'a Name),
    /// A bridge that fails: `bridge B` in a line, and an object in a record.
    FailedBridge(&'a Name),
    /// The failures of a risk, at once: `risk NAME` in a line, and an object in a record.
    FailedRisk(&'a Name),
    /// Nothing fails: `now` in a line, and `null` in a record.
    NoFailure,
    /// The numbers of a first line and of a last one: `N-M` in a line, and an array in a record.
    Lines(u64, u64),
    /// Promises: nothing in a line, and an array of objects in a record.
    Promises(&'a [PromiseTold<'a>]),
}

/// After which failures a promise is judged.
#[derive(Clone, Copy)]
pub enum PromiseScope {
    /// In the network itself.
    Now,
    /// In the network itself, and after each failure.
    Always,
    /// After the failure of each of some LANs.
    AfterLan,
    /// After the failure of each of some bridges.
    AfterBridge,
    /// After each of some risks.
    AfterRisk,
}

/// A promise of a policy, and whether it holds.
#[derive(Clone, Copy)]
pub struct PromiseTold<'a> {
    /// The number of its line.
    pub line: u64,
    /// The words of its line, with one space between.
    pub promise: &'a [u8],
    pub scope: PromiseScope,
    /// Whether it is one of the end alone.
    pub is_final: bool,
    /// In how many networks it was judged.
    pub networks: u64,
    /// Whether it holds; nothing where it was judged in no network.
    pub holds: Option<bool>,
}

/// A port that is active for a VLAN, and whether it is a member: `B:P` in a line, or `[B:P]`.
#[derive(Clone, Copy)]
pub struct ActivePort {
    pub port: PortName,
    pub is_member: bool,
}

/// A priority vector.
#[derive(Clone, Copy)]
pub struct Vector {
    /// The root, and the external root path cost; in an MSTI nothing.
    pub root: Option<(BridgeId, u64)>,
    pub regional: BridgeId,
    pub int: u64,
    pub designated: BridgeId,
    pub port: PortId,
    pub receiver: PortId,
}

/// What tells a region.
#[derive(Clone, Copy)]
pub struct RegionSide {
    /// The name and the revision of its configuration; nothing in a region of kind rstp.
    pub configuration: Option<(ConfName, u16)>,
    /// Its first bridge.
    pub first: Name,
}
