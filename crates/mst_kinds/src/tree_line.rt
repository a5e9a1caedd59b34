ghost use Rattle.std.specs.Prelude.{◌≡◌};
ghost use Rattle.mst_kinds.specs.Kinds.{first_of_tree_line, parts_of_tree_line};

use crate::mark::Mark;
use crate::part::{Part, parts};

/// A line of the text of a tree.
#[derive(Clone, Copy)]
pub enum TreeLine {
    /// `tree T`
    Heading,
    /// `bridge B off`
    BridgeOff,
    /// `bridge B ID root R ext ERC regional RR int IRC from D PD at PB`
    BridgeInCist,
    /// `bridge B ID regional RR int IRC from D PD at PB`
    BridgeInMsti,
    /// `port B P LAN ROLE`
    PortDisabled,
    /// `port B P LAN PID ext EXT int INT ROLE`
    PortInCist,
    /// `port B P LAN PID int INT ROLE`
    PortInMsti,
}

impl TreeLine {
    /// The first word.
    pub fn first(self) -> Mark
        ensures { result ≡ first_of_tree_line self }
    {
        match self {
            TreeLine::Heading => Mark::Tree,
            TreeLine::BridgeOff => Mark::Bridge,
            TreeLine::BridgeInCist => Mark::Bridge,
            TreeLine::BridgeInMsti => Mark::Bridge,
            TreeLine::PortDisabled => Mark::Port,
            TreeLine::PortInCist => Mark::Port,
            TreeLine::PortInMsti => Mark::Port,
        }
    }

    /// What stands behind it.
    pub fn parts(self) -> &'static [Part]
        ensures { result.now ≡ parts_of_tree_line self }
    {
        match self {
            TreeLine::Heading => parts![Key Tree],
            TreeLine::BridgeOff => parts![Above Tree, Key Bridge, Said Power Off],
            TreeLine::BridgeInCist =>
                parts![Above Tree, Key Bridge, Key BridgeId, Mark Root, Key RootId, Above Root, Mark Ext, Key Ext, Mark Regional, Key RegionalId, Above Regional, Mark Int, Key Int, Mark From, Key DesignatedId, Above DesignatedBridge, Key DesignatedPortId, Mark At, Key ReceiverId],
            TreeLine::BridgeInMsti =>
                parts![Above Tree, Key Bridge, Key BridgeId, Mark Regional, Key RegionalId, Above Regional, Mark Int, Key Int, Mark From, Key DesignatedId, Above DesignatedBridge, Key DesignatedPortId, Mark At, Key ReceiverId],
            TreeLine::PortDisabled => parts![Above Tree, Key Bridge, Key Port, Key Lan, Key Role],
            TreeLine::PortInCist =>
                parts![Above Tree, Key Bridge, Key Port, Key Lan, Key PortId, Mark Ext, Key Ext, Mark Int, Key Int, Key Role],
            TreeLine::PortInMsti =>
                parts![Above Tree, Key Bridge, Key Port, Key Lan, Key PortId, Mark Int, Key Int, Key Role],
        }
    }
}
