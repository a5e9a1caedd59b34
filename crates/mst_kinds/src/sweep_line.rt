ghost use Rattle.std.specs.Prelude.{◌≡◌};
ghost use Rattle.mst_kinds.specs.Kinds.{first_of_sweep_line, parts_of_sweep_line};

use crate::mark::Mark;
use crate::part::{Part, parts};

/// A line of what failures do.
#[derive(Clone, Copy)]
pub enum SweepLine {
    /// `lan L roots T,.. ports N cut VIDS`
    Lan,
    /// `bridge B roots T,.. ports N cut VIDS`
    Bridge,
    /// `risk NAME roots T,.. ports N cut VIDS`
    Risk,
    /// `cut VIDS parts B,.. ..`
    Cut,
    /// `sweep lans N bridges N cuts N`
    Counts,
    /// `pair lan L bridge B cut VIDS`
    Pair,
    /// `cut VIDS parts B,.. ..`, behind a pair
    CutByPair,
    /// `sweep pairs N cuts N`
    PairCounts,
    /// `sweep risks N cuts N`
    RiskCounts,
}

impl SweepLine {
    /// The first word.
    pub fn first(self) -> Mark
        ensures { result ≡ first_of_sweep_line self }
    {
        match self {
            SweepLine::Lan => Mark::Lan,
            SweepLine::Bridge => Mark::Bridge,
            SweepLine::Risk => Mark::Risk,
            SweepLine::Cut => Mark::Cut,
            SweepLine::Counts => Mark::Sweep,
            SweepLine::Pair => Mark::Pair,
            SweepLine::CutByPair => Mark::Cut,
            SweepLine::PairCounts => Mark::Sweep,
            SweepLine::RiskCounts => Mark::Sweep,
        }
    }

    /// What stands behind it.
    pub fn parts(self) -> &'static [Part]
        ensures { result.now ≡ parts_of_sweep_line self }
    {
        match self {
            SweepLine::Lan =>
                parts![Above Failure, Key Lan, Mark Roots, Commas Trees, Mark Ports, Key PortCount, Mark Cut, Key Vids],
            SweepLine::Bridge =>
                parts![Above Failure, Key Bridge, Mark Roots, Commas Trees, Mark Ports, Key PortCount, Mark Cut, Key Vids],
            SweepLine::Risk =>
                parts![Above Failure, Key Risk, Mark Roots, Commas Trees, Mark Ports, Key PortCount, Mark Cut, Key Vids],
            SweepLine::Cut => parts![Above Failure, Key Vids, Mark Parts, Key Parts],
            SweepLine::Counts =>
                parts![Mark Lans, Key LanCount, Mark Bridges, Key BridgeCount, Mark Cuts, Key CutCount],
            SweepLine::Pair => parts![Key Failure, Key OtherFailure, Mark Cut, Key Vids],
            SweepLine::CutByPair =>
                parts![Above Failure, Above OtherFailure, Key Vids, Mark Parts, Key Parts],
            SweepLine::PairCounts => parts![Mark Pairs, Key PairCount, Mark Cuts, Key CutCount],
            SweepLine::RiskCounts => parts![Mark Risks, Key RiskCount, Mark Cuts, Key CutCount],
        }
    }
}
