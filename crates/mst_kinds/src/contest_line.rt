ghost use Rattle.std.specs.Prelude.{◌≡◌};
ghost use Rattle.mst_kinds.specs.Kinds.{first_of_contest_line, parts_of_contest_line};

use crate::mark::Mark;
use crate::part::{Part, parts};

/// A line of what won over what, for the role of a port.
#[derive(Clone, Copy)]
pub enum ContestLine {
    /// `designated W alone`
    DesignatedAlone,
    /// `designated W over X`, where no component differs
    DesignatedOver,
    /// `designated W over X FIELD w x`, of a cost
    DesignatedByCost,
    /// `designated W over X FIELD w x`, of an identifier
    DesignatedById,
    /// `root W alone`
    RootAlone,
    /// `root W over X`, where no component differs
    RootOver,
    /// `root W over X FIELD w x`, of a cost
    RootByCost,
    /// `root W over X FIELD w x`, of an identifier
    RootById,
}

impl ContestLine {
    /// The first word.
    pub fn first(self) -> Mark
        ensures { result ≡ first_of_contest_line self }
    {
        match self {
            ContestLine::DesignatedAlone => Mark::Designated,
            ContestLine::DesignatedOver => Mark::Designated,
            ContestLine::DesignatedByCost => Mark::Designated,
            ContestLine::DesignatedById => Mark::Designated,
            ContestLine::RootAlone => Mark::Root,
            ContestLine::RootOver => Mark::Root,
            ContestLine::RootByCost => Mark::Root,
            ContestLine::RootById => Mark::Root,
        }
    }

    /// What stands behind it.
    pub fn parts(self) -> &'static [Part]
        ensures { result.now ≡ parts_of_contest_line self }
    {
        match self {
            ContestLine::DesignatedAlone => parts![Above Tree, AbovePort, Key Winner, Mark Alone],
            ContestLine::DesignatedOver =>
                parts![Above Tree, AbovePort, Key Winner, Mark Over, Key Loser],
            ContestLine::DesignatedByCost =>
                parts![Above Tree, AbovePort, Key Winner, Mark Over, Key Loser, Key Field, Key Value, Key LoserValue],
            ContestLine::DesignatedById =>
                parts![Above Tree, AbovePort, Key Winner, Mark Over, Key Loser, Key Field, Key ValueId, Key LoserId],
            ContestLine::RootAlone => parts![Above Tree, AbovePort, Key Winner, Mark Alone],
            ContestLine::RootOver =>
                parts![Above Tree, AbovePort, Key Winner, Mark Over, Key Loser],
            ContestLine::RootByCost =>
                parts![Above Tree, AbovePort, Key Winner, Mark Over, Key Loser, Key Field, Key Value, Key LoserValue],
            ContestLine::RootById =>
                parts![Above Tree, AbovePort, Key Winner, Mark Over, Key Loser, Key Field, Key ValueId, Key LoserId],
        }
    }
}
