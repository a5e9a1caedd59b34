ghost use Rattle.std.specs.Prelude.{◌≡◌};
ghost use Rattle.mst_changes.specs.Values.{same_side};

use mst_roles::Role;
use mst_vector::{CistVector, MstiVector};

/// What an outcome has of a bridge or a logical port in a tree: the bridge's root priority vector, in the CIST or in an
/// MSTI, or the port's role.
#[derive(Clone, Copy, PartialEq, Eq)]
pub(crate) enum VectorOrRole {
    InCist(CistVector),
    InMsti(MstiVector),
    HasRole(Role),
}

/// Whether two outcomes have the same of a subject.
pub(crate) fn is_same(old: &Option<VectorOrRole>, new: &Option<VectorOrRole>) -> bool
    ensures { result ≡ same_side old.now new.now }
{
    old == new
}
