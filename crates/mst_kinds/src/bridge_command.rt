ghost use Rattle.std.specs.Prelude.{◌≡◌};
ghost use Rattle.mst_kinds.specs.Kinds.{first_of_bridge_command, parts_of_bridge_command};

use crate::mark::Mark;
use crate::part::{Part, parts};

/// A line of a saved network that is of a bridge, and its first line.
#[derive(Clone, Copy)]
pub enum BridgeCommand {
    /// `mstplan 2`
    Version,
    /// `addbridge B MAC`
    Add,
    /// `bridge B off`
    Off,
    /// `kind B rstp`
    Rstp,
    /// `setsyspri B SYS`
    SystemPriority,
    /// `setmstconfid B REV CNAME`
    Configuration,
    /// `setvid2mstid B TREE VIDS`
    Msti,
    /// `setmaxhops B LIM`
    MaxHops,
    /// `setmaxage B LIM`
    MaxAge,
    /// `settreeprio B TREE PRIO`
    Priority,
    /// `delbridge B`
    Delete,
    /// `bridge B on`
    On,
    /// `kind B mstp`
    Mstp,
}

impl BridgeCommand {
    /// The first word.
    pub fn first(self) -> Mark
        ensures { result ≡ first_of_bridge_command self }
    {
        match self {
            BridgeCommand::Version => Mark::Mstplan,
            BridgeCommand::Add => Mark::AddBridge,
            BridgeCommand::Off => Mark::Bridge,
            BridgeCommand::Rstp => Mark::Kind,
            BridgeCommand::SystemPriority => Mark::SetSysPri,
            BridgeCommand::Configuration => Mark::SetMstconfid,
            BridgeCommand::Msti => Mark::SetVid2Mstid,
            BridgeCommand::MaxHops => Mark::SetMaxHops,
            BridgeCommand::MaxAge => Mark::SetMaxAge,
            BridgeCommand::Priority => Mark::SetTreePrio,
            BridgeCommand::Delete => Mark::DelBridge,
            BridgeCommand::On => Mark::Bridge,
            BridgeCommand::Mstp => Mark::Kind,
        }
    }

    /// What stands behind it.
    pub fn parts(self) -> &'static [Part]
        ensures { result.now ≡ parts_of_bridge_command self }
    {
        match self {
            BridgeCommand::Version => parts![Key Version],
            BridgeCommand::Add => parts![Key Bridge, Key Mac],
            BridgeCommand::Off => parts![Key Bridge, Said Power Off],
            BridgeCommand::Rstp => parts![Key Bridge, Said BridgeKind Rstp],
            BridgeCommand::SystemPriority => parts![Key Bridge, Key SystemPriority],
            BridgeCommand::Configuration => parts![Key Bridge, Key Revision, Key Name],
            BridgeCommand::Msti => parts![Key Bridge, Key Tree, Key Vids],
            BridgeCommand::MaxHops => parts![Key Bridge, Key MaxHops],
            BridgeCommand::MaxAge => parts![Key Bridge, Key MaxAge],
            BridgeCommand::Priority => parts![Key Bridge, Key Tree, Key Priority],
            BridgeCommand::Delete => parts![Key Bridge],
            BridgeCommand::On => parts![Key Bridge, Said Power On],
            BridgeCommand::Mstp => parts![Key Bridge, Said BridgeKind Mstp],
        }
    }
}
