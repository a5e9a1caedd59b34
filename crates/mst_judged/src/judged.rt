use crate::before::Before;
use crate::homes::Homes;
use crate::prior::Prior;
use mst_policy::Leaving;
use mst_reasons::Failure;
use mst_roles::Settled;

/// A network that is judged, with what is kept of the one before all failures, and of the one that is prior to it, if there is one: of that
/// without these failures, or of another one that it came from.
#[derive(Clone, Copy)]
pub struct Judged<'a> {
    pub plan: &'a Settled<'a>,
    pub before: &'a Before,
    /// Islands that are made already.
    pub homes: &'a Homes,
    /// What failed.
    pub lost: &'a [Failure],
    pub prior: Option<Prior<'a>>,
    /// Which bridges are meant to leave which VIDs.
    pub leaving: &'a Leaving<'a>,
}
