ghost use Rattle.std.specs.Prelude.{◌≡◌, ◌++◌, List, OnOk};
ghost use Rattle.mst_rows.specs.Rows.{Row};
ghost use Rattle.mst_tables.specs.Tables.{Net, Numbers, IsNetwork};
ghost use Rattle.mst_view.specs.Viewed.{IsView};
ghost use Rattle.mst_config.specs.Shared.{AreRegions};
ghost use Rattle.mst_slips.specs.Slips.{slip_rows};

use crate::kept::keep;
use crate::lans::put_slow_lans;
use crate::regions::put_near_regions;
use crate::tables::put_odd_tables;
use crate::vlans::put_links;
use mst_config::Regions;
use mst_rows::Rows;
use mst_view::View;
use std::alloc::{AllocError, Global};

/// Puts what of a network is most often a slip, by its view and its regions: a row for each two regions of kind mstp that
/// have one revision and one table, and names that differ only by the case of letters or by one letter; one for each bridge of
/// kind mstp whose table differs from the one that all others of its name and revision have, where these are at least two; one
/// for each logical LAN that is up, has ports of just two bridges, and is at least 100 times slower than each other one that is
/// up of these bridges; and one for each logical LAN that is up and has just two ports, of two bridges, whose VLANs differ.
///
/// `AllocError`: memory was wanted and refused; some of the rows may have been put. It compares the names of regions that
/// were given one two by two, goes over the bridges twice for each row of regions and for each region beside which there is
/// just one other of its name and revision, and for each logical LAN over the ports of its bridges.
pub fn put_slips<R: Rows>(
    alloc: Global,
    view: &View,
    regions: &Regions,
    out: &mut R,
) -> Result<(), AllocError>
    ensures { (net : Net) (numbers : Numbers) → IsNetwork net → IsView net numbers view.now → AreRegions net numbers regions.now
        → (first : R) (rows : List Row) → R.grew first out.old rows → OnOk result (R.grew first out.new (rows ++ slip_rows net)) }
{
    put_near_regions(alloc, view, regions, out)?;
    put_odd_tables(alloc, view, regions, out)?;
    let kept = keep(alloc, view.ports())?;
    put_slow_lans(alloc, view, &kept, out)?;
    put_links(view, &kept, out)
}
