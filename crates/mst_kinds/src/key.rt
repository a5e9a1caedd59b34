ghost use Rattle.std.specs.Prelude.{◌≡◌};
ghost use Rattle.mst_kinds.specs.Words.{key_text};

/// The name that a value has in records. Each has one meaning, and so one type of value: `sort_of` of `specs/Sorts.antt`.
#[derive(Clone, Copy)]
pub enum Key {
    /// The number of a tree; 0 is the CIST.
    Tree,
    /// A VID.
    Vid,
    /// The name of a bridge.
    Bridge,
    /// The number of a port; `bridge` beside it says whose.
    Port,
    /// Which part of the failures, from 1 on.
    Part,
    /// How many parts there are.
    PartCount,
    /// `pairs`, where pairs of failures are asked for, and `risks`, where those of a policy are.
    Of,
    /// `off`, or `on` where it is set so: whether a bridge is on.
    Power,
    /// The identifier of the bridge.
    BridgeId,
    /// The identifier of the root.
    RootId,
    /// An external cost.
    Ext,
    /// The identifier of the regional root.
    RegionalId,
    /// The name of the bridge that has the identifier of the regional root, or null.
    Regional,
    /// An internal cost.
    Int,
    /// The identifier of the designated bridge.
    DesignatedId,
    /// The name of the bridge that has the identifier of the designated bridge, or null.
    DesignatedBridge,
    /// The identifier of the designated port.
    DesignatedPortId,
    /// The identifier of the receiving port.
    ReceiverId,
    /// The name of a LAN.
    Lan,
    /// The role of the port; null in `fails` where it has none.
    Role,
    /// The identifier of the port.
    PortId,
    /// A set of VIDs.
    Vids,
    /// The active ports, and whether each is a member of the VLAN.
    Active,
    /// The names of bridges.
    Bridges,
    /// The names of LANs.
    Lans,
    /// A region, by the name of its first bridge.
    Region,
    /// `mstp` or `rstp`; of a side of `diff` only the latter.
    RegionKind,
    /// The name of an MST configuration.
    Name,
    /// The revision of an MST configuration.
    Revision,
    /// The digest of an MST configuration.
    Digest,
    /// The identifier of a class of links.
    LagId,
    /// A speed in kb/s.
    Speed,
    /// The names of the LANs of a class that are up.
    Up,
    /// Ports.
    Ports,
    /// What is noted: `hops`, `age`, `cost` or `restricted`.
    Note,
    /// How deep the bridge is.
    Depth,
    /// The limit of the depth.
    Limit,
    /// The root priority vector before, or null.
    OldVector,
    /// The root priority vector afterwards, or null.
    NewVector,
    /// The role before, or null.
    OldRole,
    /// The role afterwards, or null.
    NewRole,
    /// What tells the region before.
    OldRegion,
    /// What tells the region afterwards.
    NewRegion,
    /// The name of the root before.
    OldRoot,
    /// The name of the root afterwards.
    NewRoot,
    /// Islands before, each by its bridges.
    OldIslands,
    /// Islands afterwards, each by its bridges.
    NewIslands,
    /// How many regions, or lines of regions.
    RegionCount,
    /// How many lines of roots.
    RootCount,
    /// How many ports, or roles of ports.
    PortCount,
    /// How many VIDs.
    VlanCount,
    /// The version of a script.
    Version,
    /// The MAC address of a bridge.
    Mac,
    /// The kind of a bridge: `rstp`, or `mstp` where it is set so.
    BridgeKind,
    /// The system priority of a bridge.
    SystemPriority,
    /// The limit of hops.
    MaxHops,
    /// The limit of age.
    MaxAge,
    /// The priority of a bridge in a tree, a multiple of 4096.
    Priority,
    /// The aggregation key of a port.
    AggregationKey,
    /// The priority of a port in a tree, a multiple of 16.
    PortPriority,
    /// `none`, of a port that is a member of no VLAN, or `all` where it is set so.
    Vlans,
    /// `yes`, of a port whose role is restricted, or `no` where it is set so.
    Restricted,
    /// `down`, of a LAN that is down, or `up` where it is set so.
    State,
    /// The designated port of the LAN in tree 0.
    Designated,
    /// The name of the bridge that is off.
    OffBridge,
    /// The name of the LAN that is down.
    DownLan,
    /// The port whose vector is the least; null where it is the bridge's own.
    Winner,
    /// The port that it is compared with; null where that is the bridge's own.
    Loser,
    /// The first component in which two vectors differ.
    Field,
    /// The value of the winner, of a cost.
    Value,
    /// The value of the loser, of a cost.
    LoserValue,
    /// The value of the winner, of an identifier.
    ValueId,
    /// The value of the loser, of an identifier.
    LoserId,
    /// What fails, or null where nothing does.
    Failure,
    /// What fails, too.
    OtherFailure,
    /// Trees.
    Trees,
    /// The parts of islands that came apart, each by its bridges.
    Parts,
    /// How many failures of LANs.
    LanCount,
    /// How many bridges, or failures of bridges.
    BridgeCount,
    /// How many failures cut some VID.
    CutCount,
    /// How many pairs of failures.
    PairCount,
    /// The name of a risk.
    Risk,
    /// How many risks.
    RiskCount,
    /// How many bridges are on.
    OnCount,
    /// How many ports are enabled.
    EnabledCount,
    /// How many trees.
    TreeCount,
    /// The name of a root, or null where there is none, or none that has its identifier.
    Root,
    /// The name of the bridge that would be the root next, or null.
    Next,
    /// Its priority.
    NextPriority,
    /// How many islands with a bridge.
    IslandCount,
    /// The number of a line, from 1 on; 0 of a policy as a whole.
    Line,
    /// `agrees`, `unplanned`, `repeated` or `missing` of a capture; `none` of advice and of a path.
    Result,
    /// `cist` or `msti`: which part of the message.
    TreeKind,
    /// The value of the plan, of a number.
    Plan,
    /// The value of the capture, of a number.
    Captured,
    /// The value of the plan, of an identifier, a name or a digest.
    PlanText,
    /// The value of the capture, of an identifier, a name or a digest.
    CapturedText,
    /// The code of a refusal.
    Error,
    /// What a refusal says: the words behind its code.
    Text,
    /// What would be right.
    Hint,
    /// `old` or `new`: of which of two scripts.
    Side,
    /// How an answer of a standing planner ends: 0, 1 or 3, as the exit status of the program that is asked alone.
    Status,
    /// The expectation of a policy, by its word.
    Expectation,
    /// Bridges that are in one island, each island by these.
    Joined,
    /// How many expectations are judged.
    ExpectationCount,
    /// How many of them hold.
    HoldCount,
    /// The number of a step, from 1 on; 0 of what is before the first.
    Step,
    /// The numbers of the first and of the last line of a step that has an edit.
    Lines,
    /// The VIDs whose links, or whose islands, a step changes.
    MovedVids,
    /// The VIDs that a step cuts.
    CutVids,
    /// The VIDs of which a step joins islands.
    JoinedVids,
    /// How many steps.
    StepCount,
    /// How many of them move some VID.
    MovingCount,
    /// How many of them cut some VID.
    CuttingCount,
    /// How many of them break a promise.
    FailingCount,
    /// `root` or `forward`: what advice is asked for.
    Goal,
    /// The command of an edit, its first word.
    Command,
    /// How many edits.
    EditCount,
    /// `region`, `lan` or `vlans`: where a slip may be.
    Look,
    /// The name of an MST configuration, too.
    OtherName,
    /// The names of bridges, too.
    OtherBridges,
    /// The least speed of the other LANs, in kb/s.
    NextSpeed,
    /// How many captured messages.
    CaptureCount,
    /// How many of them agree with the plan.
    AgreeCount,
    /// How many lines of a policy aren't kept in a network.
    UnkeptCount,
    /// How many failures; in `same` those after which a reason is there that is told without them.
    FailureCount,
    /// In how many networks a promise is judged.
    NetworkCount,
    /// How many settings are tried.
    TrialCount,
    /// Each promise of a policy, with whether it holds.
    Promises,
    /// The words of a promise, with one space between.
    Promise,
    /// `always`, `after lan`, `after bridge` or `after risk`: the scope of a promise, null where it has none; `always` of a path.
    Scope,
    /// Whether a promise is one of the end alone.
    Finally,
    /// Whether a promise holds; null where it is judged in no network.
    Holds,
    /// Why there is no advice: `off`, `down`, `apart`, `restricted` or `tried`.
    Because,
    /// The other port of the LAN.
    OtherPort,
    /// The VIDs of the other port.
    OtherVids,
    /// The name of the bridge that a path leads from.
    From,
    /// The name of the bridge that a path leads to.
    To,
    /// The number of a hop, from 1 on.
    Hop,
    /// How many hops a path has.
    HopCount,
    /// After how many failures a path is another one.
    OtherCount,
    /// After how many failures there is no path any more.
    NoneCount,
}

impl Key {
    /// The name.
    pub fn text(self) -> &'static [u8]
        ensures { result.now ≡ key_text self }
    {
        match self {
            Key::Tree => b"tree",
            Key::Vid => b"vid",
            Key::Bridge => b"bridge",
            Key::Port => b"port",
            Key::Part => b"part",
            Key::PartCount => b"part_count",
            Key::Of => b"of",
            Key::Power => b"power",
            Key::BridgeId => b"bridge_id",
            Key::RootId => b"root_id",
            Key::Ext => b"ext",
            Key::RegionalId => b"regional_id",
            Key::Regional => b"regional",
            Key::Int => b"int",
            Key::DesignatedId => b"designated_id",
            Key::DesignatedBridge => b"designated_bridge",
            Key::DesignatedPortId => b"designated_port_id",
            Key::ReceiverId => b"receiver_id",
            Key::Lan => b"lan",
            Key::Role => b"role",
            Key::PortId => b"port_id",
            Key::Vids => b"vids",
            Key::Active => b"active",
            Key::Bridges => b"bridges",
            Key::Lans => b"lans",
            Key::Region => b"region",
            Key::RegionKind => b"region_kind",
            Key::Name => b"name",
            Key::Revision => b"revision",
            Key::Digest => b"digest",
            Key::LagId => b"lag_id",
            Key::Speed => b"speed",
            Key::Up => b"up",
            Key::Ports => b"ports",
            Key::Note => b"note",
            Key::Depth => b"depth",
            Key::Limit => b"limit",
            Key::OldVector => b"old_vector",
            Key::NewVector => b"new_vector",
            Key::OldRole => b"old_role",
            Key::NewRole => b"new_role",
            Key::OldRegion => b"old_region",
            Key::NewRegion => b"new_region",
            Key::OldRoot => b"old_root",
            Key::NewRoot => b"new_root",
            Key::OldIslands => b"old_islands",
            Key::NewIslands => b"new_islands",
            Key::RegionCount => b"region_count",
            Key::RootCount => b"root_count",
            Key::PortCount => b"port_count",
            Key::VlanCount => b"vlan_count",
            Key::Version => b"version",
            Key::Mac => b"mac",
            Key::BridgeKind => b"bridge_kind",
            Key::SystemPriority => b"system_priority",
            Key::MaxHops => b"max_hops",
            Key::MaxAge => b"max_age",
            Key::Priority => b"priority",
            Key::AggregationKey => b"aggregation_key",
            Key::PortPriority => b"port_priority",
            Key::Vlans => b"vlans",
            Key::Restricted => b"restricted",
            Key::State => b"state",
            Key::Designated => b"designated",
            Key::OffBridge => b"off_bridge",
            Key::DownLan => b"down_lan",
            Key::Winner => b"winner",
            Key::Loser => b"loser",
            Key::Field => b"field",
            Key::Value => b"value",
            Key::LoserValue => b"loser_value",
            Key::ValueId => b"value_id",
            Key::LoserId => b"loser_id",
            Key::Failure => b"failure",
            Key::OtherFailure => b"other_failure",
            Key::Trees => b"trees",
            Key::Parts => b"parts",
            Key::LanCount => b"lan_count",
            Key::BridgeCount => b"bridge_count",
            Key::CutCount => b"cut_count",
            Key::PairCount => b"pair_count",
            Key::Risk => b"risk",
            Key::RiskCount => b"risk_count",
            Key::OnCount => b"on_count",
            Key::EnabledCount => b"enabled_count",
            Key::TreeCount => b"tree_count",
            Key::Root => b"root",
            Key::Next => b"next",
            Key::NextPriority => b"next_priority",
            Key::IslandCount => b"island_count",
            Key::Line => b"line",
            Key::Result => b"result",
            Key::TreeKind => b"tree_kind",
            Key::Plan => b"plan",
            Key::Captured => b"capture",
            Key::PlanText => b"plan_text",
            Key::CapturedText => b"capture_text",
            Key::Error => b"error",
            Key::Text => b"text",
            Key::Hint => b"hint",
            Key::Side => b"side",
            Key::Status => b"status",
            Key::Expectation => b"expectation",
            Key::Joined => b"joined",
            Key::ExpectationCount => b"expectation_count",
            Key::HoldCount => b"hold_count",
            Key::Step => b"step",
            Key::Lines => b"lines",
            Key::MovedVids => b"moved_vids",
            Key::CutVids => b"cut_vids",
            Key::JoinedVids => b"joined_vids",
            Key::StepCount => b"step_count",
            Key::MovingCount => b"moving_count",
            Key::CuttingCount => b"cutting_count",
            Key::FailingCount => b"failing_count",
            Key::Goal => b"goal",
            Key::Command => b"command",
            Key::EditCount => b"edit_count",
            Key::Look => b"look",
            Key::OtherName => b"other_name",
            Key::OtherBridges => b"other_bridges",
            Key::NextSpeed => b"next_speed",
            Key::CaptureCount => b"capture_count",
            Key::AgreeCount => b"agree_count",
            Key::UnkeptCount => b"unkept_count",
            Key::FailureCount => b"failure_count",
            Key::NetworkCount => b"network_count",
            Key::TrialCount => b"trial_count",
            Key::Promises => b"promises",
            Key::Promise => b"promise",
            Key::Scope => b"scope",
            Key::Finally => b"finally",
            Key::Holds => b"holds",
            Key::Because => b"because",
            Key::OtherPort => b"other_port",
            Key::OtherVids => b"other_vids",
            Key::From => b"from",
            Key::To => b"to",
            Key::Hop => b"hop",
            Key::HopCount => b"hop_count",
            Key::OtherCount => b"other_count",
            Key::NoneCount => b"none_count",
        }
    }
}
