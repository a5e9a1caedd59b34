ghost use Rattle.std.specs.Prelude.{◌≡◌};
ghost use Rattle.mst_kinds.specs.Kinds.{first_of_step_line, parts_of_step_line};

use crate::mark::Mark;
use crate::part::{Part, parts};

/// A line of what the steps of a change do.
#[derive(Clone, Copy)]
pub enum StepLine {
    /// `step K lines N-M roots T,.. ports N moved VIDS cut VIDS joined VIDS`
    Step,
    /// `cut VIDS parts B,.. ..`, behind a step
    Cut,
    /// `start unkept S`
    Start,
    /// `mends N`
    Mends,
    /// `turns T,.. B,..`
    Turns,
    /// `restarts B:P,..`
    Restarts,
    /// `steps K moving M cutting N`
    Counts,
    /// `steps K moving M cutting N failing F unkept U`
    JudgedCounts,
}

impl StepLine {
    /// The first word.
    pub fn first(self) -> Mark
        ensures { result ≡ first_of_step_line self }
    {
        match self {
            StepLine::Step => Mark::Step,
            StepLine::Cut => Mark::Cut,
            StepLine::Start => Mark::Start,
            StepLine::Mends => Mark::Mends,
            StepLine::Turns => Mark::Turns,
            StepLine::Restarts => Mark::Restarts,
            StepLine::Counts => Mark::Steps,
            StepLine::JudgedCounts => Mark::Steps,
        }
    }

    /// What stands behind it.
    pub fn parts(self) -> &'static [Part]
        ensures { result.now ≡ parts_of_step_line self }
    {
        match self {
            StepLine::Step =>
                parts![Key Step, Mark Lines, Key Lines, Mark Roots, Commas Trees, Mark Ports, Key PortCount, Mark Moved, Key MovedVids, Mark Cut, Key CutVids, Mark Joined, Key JoinedVids],
            StepLine::Cut => parts![Above Step, Key Vids, Mark Parts, Key Parts],
            StepLine::Start => parts![Above Step, Mark Unkept, Key UnkeptCount],
            StepLine::Mends => parts![Above Step, Key Line],
            StepLine::Turns => parts![Above Step, Commas Trees, Commas Bridges],
            StepLine::Restarts => parts![Above Step, Commas Ports],
            StepLine::Counts =>
                parts![Key StepCount, Mark Moving, Key MovingCount, Mark Cutting, Key CuttingCount],
            StepLine::JudgedCounts =>
                parts![Key StepCount, Mark Moving, Key MovingCount, Mark Cutting, Key CuttingCount, Mark Failing, Key FailingCount, Mark Unkept, Key UnkeptCount],
        }
    }
}
