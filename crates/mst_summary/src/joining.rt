ghost use Rattle.std.specs.Prelude.{◌≡◌, ℕ, List, IfOk, filter};
ghost use Rattle.mst_slips.specs.Kept.{kept_at};
ghost use Rattle.mst_summary.specs.Seen.{seen_joins, seen_joining_lans, seen_lans_up, seen_on};

use crate::over::joins;
use indexmap::IndexMap;
use mst_ids::Name;
use mst_slips::kept_for;
use mst_view::{PortInView, View};
use std::alloc::{AllocError, Global};

/// The logical LANs that are up.
fn lans_up(alloc: Global, view: &View) -> Result<Vec<Name>, AllocError>
    ensures { IfOk result (λ lans. lans.items ≡ seen_lans_up view.now) }
{
    view.lans()
        .iter()
        .filter(|lan| lan.is_up)
        .map(|lan| lan.name)
        .collect(alloc)
}

/// Those of these logical LANs that join bridges, by the ports that are kept for each.
fn joining(
    alloc: Global,
    kept: &IndexMap<Name, Vec<PortInView>>,
    lans: &[Name],
) -> Result<Vec<Name>, AllocError>
    ensures { IfOk result (λ joining. joining.items ≡ filter (λ lan. seen_joins (kept_at kept.now lan)) lans.now) }
{
    let mut joining = Vec::new(alloc);
    for lan in lans {
        if joins(alloc, kept_for(kept, lan))? {
            joining.push(*lan)?;
        }
    }
    Ok(joining)
}

/// The logical LANs that are up and join bridges, by name.
pub(crate) fn joining_lans(
    alloc: Global,
    view: &View,
    kept: &IndexMap<Name, Vec<PortInView>>,
) -> Result<Vec<Name>, AllocError>
    requires { (name : List ℕ) → kept_at kept.now name ≡ seen_on view.now name }
    ensures { IfOk result (λ lans. lans.items ≡ seen_joining_lans view.now) }
{
    let lans = lans_up(alloc, view)?;
    joining(alloc, kept, lans.as_slice())
}
