ghost use Rattle.std.specs.Prelude.{◌≡◌, ◌==◌, ◌&&◌, ◌++◌, ◌∷◌, [], List, IfOk, OnOk};
ghost use Rattle.mst_rows.specs.Rows.{Row};
ghost use Rattle.mst_diff.specs.DiffText.{diff_row};
ghost use Rattle.mst_diff.specs.Seen.{AreDiffRows};

use crate::all_roots::{changed_roots, put_roots};
use crate::change::Change;
use crate::ports::put_ports;
use crate::reach::put_reach;
use crate::regions::{changed_regions, put_regions};
use mst_facts::bridges_of_both;
use mst_kinds::{ChangeLine, Kind};
use mst_rows::{Rows, Value, put};
use mst_vlan::{Settled, trees_in_use};
use std::alloc::{AllocError, Global};

/// How much differs: rows of regions, of roots and of ports, and VIDs.
#[derive(Clone, Copy)]
pub struct Differing {
    pub regions: u64,
    pub roots: u64,
    pub ports: u64,
    pub vlans: u64,
}

impl Differing {
    /// Whether nothing differs.
    pub fn is_nothing(&self) -> bool
        ensures { result ≡ (self.now.regions == 0 && self.now.roots == 0 && self.now.ports == 0 && self.now.vlans == 0) }
    {
        self.regions == 0 && self.roots == 0 && self.ports == 0 && self.vlans == 0
    }
}

/// Puts the row of how much differs.
fn put_counts<R: Rows>(differing: &Differing, out: &mut R) -> Result<(), AllocError>
    ensures { (first : R) (rows : List Row) → R.grew first out.old rows → OnOk result (R.grew first out.new (rows ++ diff_row differing.now ∷ [])) }
{
    let values = [
        Value::Number(differing.regions),
        Value::Number(differing.roots),
        Value::Number(differing.ports),
        Value::Number(differing.vlans),
    ];
    put::<R>(Kind::Change(ChangeLine::Counts), &values, out)
}

/// Puts the rows of what a change does, and answers how much of each.
fn put_change<R: Rows>(alloc: Global, change: &Change, out: &mut R) -> Result<Differing, AllocError>
    ensures { (first : R) (before : List Row) → R.grew first out.old before
        → IfOk result (λ differing. (rows : List Row) × AreDiffRows change.now.old.now change.now.new.now differing rows × R.grew first out.new (before ++ rows)) }
{
    let regions = changed_regions(alloc, change)?;
    let roots = changed_roots(alloc, change)?;
    put_regions(regions.as_slice(), out)?;
    put_roots(roots.as_slice(), out)?;
    let ports = put_ports(alloc, change, out)?;
    let vlans = put_reach(alloc, change.old, change.new, out)?;
    let differing = Differing {
        regions: regions.len() as u64,
        roots: roots.len() as u64,
        ports,
        vlans,
    };
    put_counts(&differing, out)?;
    Ok(differing)
}

/// Puts the rows of what a change does, from one settled network to another: the bridges of both whose region is another
/// one, the roots, the roles of logical ports and the islands of VIDs that are, and a last row of how much of each, which it
/// answers, too. `AllocError`: memory was wanted and refused; some of the rows may have been put.
///
/// It goes over the bridges and the logical ports of both once in each tree, and makes islands once for VIDs that are
/// alike in both.
pub fn put_diff<R: Rows>(
    alloc: Global,
    old: &Settled,
    new: &Settled,
    out: &mut R,
) -> Result<Differing, AllocError>
    ensures { (first : R) (before : List Row) → R.grew first out.old before
        → IfOk result (λ differing. (rows : List Row) × AreDiffRows old.now new.now differing rows × R.grew first out.new (before ++ rows)) }
{
    let both = bridges_of_both(alloc, old.view(), new.view())?;
    let used = trees_in_use(old.view());
    let used_too = trees_in_use(new.view());
    let change = Change {
        old,
        new,
        both: both.as_slice(),
        used: &used,
        used_too: &used_too,
    };
    put_change(alloc, &change, out)
}
