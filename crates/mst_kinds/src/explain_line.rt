ghost use Rattle.std.specs.Prelude.{◌≡◌};
ghost use Rattle.mst_kinds.specs.Kinds.{first_of_explain_line, parts_of_explain_line};

use crate::mark::Mark;
use crate::part::{Part, parts};

/// A line of why a port has its role.
#[derive(Clone, Copy)]
pub enum ExplainLine {
    /// `explain T B:P LAN ROLE`
    Port,
    /// `restricted`
    Restricted,
    /// `boundary ROLE designated B:P`
    Boundary,
    /// `off B`
    BridgeOff,
    /// `down L`
    LanDown,
}

impl ExplainLine {
    /// The first word.
    pub fn first(self) -> Mark
        ensures { result ≡ first_of_explain_line self }
    {
        match self {
            ExplainLine::Port => Mark::Explain,
            ExplainLine::Restricted => Mark::Restricted,
            ExplainLine::Boundary => Mark::Boundary,
            ExplainLine::BridgeOff => Mark::Off,
            ExplainLine::LanDown => Mark::Down,
        }
    }

    /// What stands behind it.
    pub fn parts(self) -> &'static [Part]
        ensures { result.now ≡ parts_of_explain_line self }
    {
        match self {
            ExplainLine::Port => parts![Key Tree, Port, Key Lan, Key Role],
            ExplainLine::Restricted => parts![Above Tree, AbovePort],
            ExplainLine::Boundary =>
                parts![Above Tree, AbovePort, Key Role, Mark Designated, Key Designated],
            ExplainLine::BridgeOff => parts![Above Tree, AbovePort, Key OffBridge],
            ExplainLine::LanDown => parts![Above Tree, AbovePort, Key DownLan],
        }
    }
}
