//! A law of what is told of a path, at names. Its function does nothing: a caller has its clauses.
ghost use Rattle.std.specs.Prelude.{◌≡◌, List, Bool};
ghost use Rattle.mst_net.specs.tables.Tables.{Net, IsNetwork};
ghost use Rattle.mst_rows.specs.Rows.{Row};
ghost use Rattle.mst_tracing.specs.Tracing.{Traces};
ghost use Rattle.mst_tracing.specs.declared.asked.Asked.{Asked};

use mst_path::laws::one_path;
use mst_roles::forest_laws::{has_outcome, one_outcome};

/// A network has one answer to what its path between two bridges is and what becomes of it after failures: the network alone settles it.
pub fn one_trace()
    ensures some { (net : Net) (asked : Asked) → IsNetwork net → (is_broken : Bool) × (rows : List Row) × Traces net asked is_broken rows }
    ensures one { (net : Net) (asked : Asked) (broken other : Bool) (rows others : List Row) → IsNetwork net → Traces net asked broken rows → Traces net asked other others → (broken ≡ other) × (rows ≡ others) }
{
    has_outcome();
    one_outcome();
    one_path();
}
