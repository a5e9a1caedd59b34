ghost use Rattle.std.specs.Prelude.{◌≡◌, ◌++◌, true, List, IfOk};
ghost use Rattle.mst_advise.specs.sweeping.Pairing.{SweepsPairs};
ghost use Rattle.mst_advise.specs.sweeping.Sweeping.{SweepsPart};
ghost use Rattle.mst_rows.specs.Rows.{Row};

use mst_advise::{SweepPart, sweep_network, sweep_pairs};
use mst_rows::Rows;
use mst_tool::Planner;
use std::alloc::AllocError;

/// Puts what each single failure of a part does to the network: each LAN that is up goes down, and each bridge that is on goes
/// off, one at a time. Each is told of by one repair of the plan that stands, as soon as it is known, and isn't made. A last
/// row counts them, and the answer is how many of them cut some VID. So a sweep can be made in parts, each by a planner of its
/// own. `AllocError`: memory was wanted and refused; some of the rows may have been put.
pub fn put_sweep<R: Rows>(
    planner: &Planner,
    part: SweepPart,
    out: &mut R,
) -> Result<u64, AllocError>
    requires { planner.now.is_settled ≡ true }
    ensures { (first : R) (before : List Row) → R.grew first out.old before
        → IfOk result (λ cuts. (rows : List Row) × SweepsPart part planner.now.contents.net cuts rows × R.grew first out.new (before ++ rows)) }
{
    sweep_network(
        planner.alloc(),
        planner.network(),
        planner.plan(),
        part,
        out,
    )
}

/// Puts what each pair of a part of those of the network's failures does: in the order of the failures of a sweep, each with each
/// behind it, by the first and then by the second. For those pairs that part bridges of some VIDs which either failure alone leaves joined
/// a row with these VIDs, and the rows of their parts, as soon as they are known; and a last row that counts the pairs and those of
/// them. The answer is how many these are.
///
/// `AllocError`: memory was wanted and refused; some of the rows may have been put.
pub fn put_pairs<R: Rows>(
    planner: &Planner,
    part: SweepPart,
    out: &mut R,
) -> Result<u64, AllocError>
    requires { planner.now.is_settled ≡ true }
    ensures { (first : R) (before : List Row) → R.grew first out.old before
        → IfOk result (λ cuts. (rows : List Row) × SweepsPairs part planner.now.contents.net cuts rows × R.grew first out.new (before ++ rows)) }
{
    sweep_pairs(
        planner.alloc(),
        planner.network(),
        planner.plan(),
        part,
        out,
    )
}
