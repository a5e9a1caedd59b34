ghost use Rattle.std.specs.Prelude.{◌≡◌};
ghost use Rattle.mst_kinds.specs.Kinds.{first_of_port_command, parts_of_port_command};

use crate::mark::Mark;
use crate::part::{Part, parts};

/// A line of a saved network that is of a port or of a LAN.
#[derive(Clone, Copy)]
pub enum PortCommand {
    /// `addport B P`
    Add,
    /// `setkey B P KEY`
    Key,
    /// `setportpathcost B P COST`
    ExternalCost,
    /// `settreeportcost B P TREE COST`
    InternalCost,
    /// `settreeportprio B P TREE PRIO`
    Priority,
    /// `setportvlans B P VIDS`
    Vlans,
    /// `setportvlans B P none`
    NoVlans,
    /// `setportrestrrole B P yes`
    Restricted,
    /// `plug B P L`
    Plug,
    /// `addlan L`
    AddLan,
    /// `lan L down`
    LanDown,
    /// `speed L KBPS`
    Speed,
    /// `delport B P`
    Delete,
    /// `setportvlans B P all`
    AllVlans,
    /// `setportrestrrole B P no`
    Unrestricted,
    /// `unplug B P`
    Unplug,
    /// `dellan L`
    DeleteLan,
    /// `lan L up`
    LanUp,
}

impl PortCommand {
    /// The first word.
    pub fn first(self) -> Mark
        ensures { result ≡ first_of_port_command self }
    {
        match self {
            PortCommand::Add => Mark::AddPort,
            PortCommand::Key => Mark::SetKey,
            PortCommand::ExternalCost => Mark::SetPortPathCost,
            PortCommand::InternalCost => Mark::SetTreePortCost,
            PortCommand::Priority => Mark::SetTreePortPrio,
            PortCommand::Vlans => Mark::SetPortVlans,
            PortCommand::NoVlans => Mark::SetPortVlans,
            PortCommand::Restricted => Mark::SetPortRestrRole,
            PortCommand::Plug => Mark::Plug,
            PortCommand::AddLan => Mark::AddLan,
            PortCommand::LanDown => Mark::Lan,
            PortCommand::Speed => Mark::Speed,
            PortCommand::Delete => Mark::DelPort,
            PortCommand::AllVlans => Mark::SetPortVlans,
            PortCommand::Unrestricted => Mark::SetPortRestrRole,
            PortCommand::Unplug => Mark::Unplug,
            PortCommand::DeleteLan => Mark::DelLan,
            PortCommand::LanUp => Mark::Lan,
        }
    }

    /// What stands behind it.
    pub fn parts(self) -> &'static [Part]
        ensures { result.now ≡ parts_of_port_command self }
    {
        match self {
            PortCommand::Add => parts![Key Bridge, Key Port],
            PortCommand::Key => parts![Key Bridge, Key Port, Key AggregationKey],
            PortCommand::ExternalCost => parts![Key Bridge, Key Port, Key Ext],
            PortCommand::InternalCost => parts![Key Bridge, Key Port, Key Tree, Key Int],
            PortCommand::Priority => parts![Key Bridge, Key Port, Key Tree, Key PortPriority],
            PortCommand::Vlans => parts![Key Bridge, Key Port, Key Vids],
            PortCommand::NoVlans => parts![Key Bridge, Key Port, Said Vlans None, Above Vids],
            PortCommand::Restricted => parts![Key Bridge, Key Port, Said Restricted Yes],
            PortCommand::Plug => parts![Key Bridge, Key Port, Key Lan],
            PortCommand::AddLan => parts![Key Lan],
            PortCommand::LanDown => parts![Key Lan, Said State Down],
            PortCommand::Speed => parts![Key Lan, Key Speed],
            PortCommand::Delete => parts![Key Bridge, Key Port],
            PortCommand::AllVlans => parts![Key Bridge, Key Port, Said Vlans All, Above Vids],
            PortCommand::Unrestricted => parts![Key Bridge, Key Port, Said Restricted No],
            PortCommand::Unplug => parts![Key Bridge, Key Port],
            PortCommand::DeleteLan => parts![Key Lan],
            PortCommand::LanUp => parts![Key Lan, Said State Up],
        }
    }
}
