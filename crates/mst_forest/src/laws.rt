//! Laws of outcomes. Their functions do nothing: a caller has their clauses.
ghost use Rattle.std.specs.Prelude.{◌≡◌};
ghost use Rattle.mst_net.specs.tables.Tables.{Net, IsNetwork};
ghost use Rattle.mst_view.specs.View.{IsUnrestricted};
ghost use Rattle.mst_forest.specs.Outcome.{Outcome, IsOutcome, trees_of};
ghost use Rattle.mst_nested.specs.Trees.{IsSettled, IsFree};

use mst_ids::{Name, PortName};
use mst_outcome::laws;
use mst_vector::{CistMetric, MstiMetric};

/// Each network has a settled outcome.
pub fn has_outcome()
    ensures { (net : Net) → IsNetwork net → (o : Outcome) × IsOutcome net o }
{
    laws::has_outcome::<CistMetric, Name, Name, PortName>();
    laws::has_outcome::<MstiMetric, Name, Name, PortName>();
}

/// One network has one settled outcome: the same vectors and the same designated ports in each tree.
pub fn one_outcome()
    ensures { (net : Net) (o p : Outcome) → IsNetwork net → IsOutcome net o → IsOutcome net p → o ≡ p }
{
    laws::one_outcome::<CistMetric, Name, Name, PortName>();
    laws::one_outcome::<MstiMetric, Name, Name, PortName>();
}

/// The trees of an outcome are settled and nested: an MSTI is that of regions of the CIST. Where no logical port's role
/// is restricted, none is in any tree.
pub fn nested()
    ensures settled { (net : Net) (o : Outcome) → IsNetwork net → IsOutcome net o → IsSettled (trees_of net o) }
    ensures free { (net : Net) (o : Outcome) → IsNetwork net → IsOutcome net o → IsUnrestricted net → IsFree (trees_of net o) }
{
    laws::one_outcome::<CistMetric, Name, Name, PortName>();
}
