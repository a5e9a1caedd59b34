ghost use Rattle.std.specs.Prelude.{◌≡◌};
ghost use Rattle.mst_kinds.specs.Kinds.{first_of_advise_line, parts_of_advise_line};

use crate::mark::Mark;
use crate::part::{Part, parts};

/// A line of which settings bring about what is wanted.
#[derive(Clone, Copy)]
pub enum AdviseLine {
    /// `edit settreeprio B T PRIO`
    Priority,
    /// `edit setportpathcost B P COST`
    ExternalCost,
    /// `edit settreeportcost B P T COST`
    InternalCost,
    /// `edit settreeportprio B P T PRIO`
    PortPriority,
    /// `does roots T,.. ports N moved VIDS cut VIDS joined VIDS`
    Does,
    /// `cut VIDS parts B,.. ..`, behind what the edits do
    Cut,
    /// `advise edits N`
    Counts,
    /// `advise none`
    None,
    /// `because off B`
    BecauseOff,
    /// `because down L`
    BecauseDown,
    /// `because apart B,..`
    BecauseApart,
    /// `because restricted`
    BecauseRestricted,
    /// `because tried N`
    BecauseTried,
}

impl AdviseLine {
    /// The first word.
    pub fn first(self) -> Mark
        ensures { result ≡ first_of_advise_line self }
    {
        match self {
            AdviseLine::Priority => Mark::Edit,
            AdviseLine::ExternalCost => Mark::Edit,
            AdviseLine::InternalCost => Mark::Edit,
            AdviseLine::PortPriority => Mark::Edit,
            AdviseLine::Does => Mark::Does,
            AdviseLine::Cut => Mark::Cut,
            AdviseLine::Counts => Mark::Advise,
            AdviseLine::None => Mark::Advise,
            AdviseLine::BecauseOff => Mark::Because,
            AdviseLine::BecauseDown => Mark::Because,
            AdviseLine::BecauseApart => Mark::Because,
            AdviseLine::BecauseRestricted => Mark::Because,
            AdviseLine::BecauseTried => Mark::Because,
        }
    }

    /// What stands behind it.
    pub fn parts(self) -> &'static [Part]
        ensures { result.now ≡ parts_of_advise_line self }
    {
        match self {
            AdviseLine::Priority =>
                parts![Said Command SetTreePrio, Key Bridge, Key Tree, Key Priority],
            AdviseLine::ExternalCost =>
                parts![Said Command SetPortPathCost, Key Bridge, Key Port, Key Ext],
            AdviseLine::InternalCost =>
                parts![Said Command SetTreePortCost, Key Bridge, Key Port, Key Tree, Key Int],
            AdviseLine::PortPriority =>
                parts![Said Command SetTreePortPrio, Key Bridge, Key Port, Key Tree, Key PortPriority],
            AdviseLine::Does =>
                parts![Mark Roots, Commas Trees, Mark Ports, Key PortCount, Mark Moved, Key MovedVids, Mark Cut, Key CutVids, Mark Joined, Key JoinedVids],
            AdviseLine::Cut => parts![Key Vids, Mark Parts, Key Parts],
            AdviseLine::Counts => parts![Mark Edits, Key EditCount],
            AdviseLine::None => parts![Said Result None],
            AdviseLine::BecauseOff => parts![Said Because Off, Key OffBridge],
            AdviseLine::BecauseDown => parts![Said Because Down, Key DownLan],
            AdviseLine::BecauseApart => parts![Said Because Apart, Commas Bridges],
            AdviseLine::BecauseRestricted => parts![Said Because Restricted],
            AdviseLine::BecauseTried => parts![Said Because Tried, Key TrialCount],
        }
    }
}
