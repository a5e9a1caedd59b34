ghost use Rattle.std.specs.Prelude.{List, IfOk};
ghost use Rattle.std.specs.HashSet.{contains};
ghost use Rattle.mst_net.specs.tables.Tables.{Net, Numbers, port_eq};
ghost use Rattle.mst_plan.specs.forest.Agrees.{Known};
ghost use Rattle.mst_plan.specs.Plan.{IsPlan};
ghost use Rattle.mst_sweeping.specs.Sweeping.{Puts};
ghost use Rattle.mst_rows.specs.Rows.{Row};
ghost use Rattle.mst_sweeping.specs.StepText.{AreRepluggedIn, AreStepRows};

use crate::step::{Deed, Stepped, put_step};
use indexmap::IndexSet;
use mst_ids::PortName;
use mst_plan::Plan;
use mst_policy::Leaving;
use mst_rows::Rows;
use mst_sweep::Planned;
use std::alloc::{AllocError, Global};

/// Puts what a step does, or edits that are advised, by the plan before it and the one after it, by the ports that a step plugs into other LANs, and by what is
/// meant to leave VIDs. `AllocError`: memory was wanted and refused; some of the rows may have been put.
pub fn put_between<R: Rows>(
    alloc: Global,
    deed: &Deed,
    old: &Plan,
    new: &Plan,
    replugged: &IndexSet<PortName>,
    leaving: &Leaving,
    out: &mut R,
) -> Result<Stepped, AllocError>
    requires old { Known old.now.view old.now.forest.regions }
    requires new { Known new.now.view new.now.forest.regions }
    ensures { IfOk result (λ does. (a b : Net) (n k : Numbers) (is : IsPlan a n old.now) (are : IsPlan b k new.now) → AreRepluggedIn deed.now a b (contains port_eq replugged.now)
        → (own : List Row) × AreStepRows leaving.now a is.forest.outcome b are.forest.outcome deed.now own does × Puts R.grew out.old out.new own) }
{
    let old = Planned {
        view: &old.view,
        forest: &old.forest,
    };
    let new = Planned {
        view: &new.view,
        forest: &new.forest,
    };
    put_step(alloc, deed, &old, &new, replugged, leaving, out)
}
