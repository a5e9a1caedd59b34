ghost use Rattle.std.specs.Prelude.{◌≡◌, ◌++◌, [], ◌∷◌, List, IfOk, OnOk, is_some, unwrap_or};
ghost use Rattle.hex.specs.Hex.{encode_lower};
ghost use Rattle.mst_vlan.specs.forest.config.Digest.{digest_of};
ghost use Rattle.mst_tables.specs.Seen.{bridge_row};
ghost use Rattle.mst_rows.specs.Rows.{Row};
ghost use Rattle.mst_text.specs.ConfigurationText.{vids_in, msti_row, mstis_rows, configuration_row, configuration_rows};

use crate::digits::digest_digits;
use mst_ids::{Name, Tree, Vid, VidSet};
use mst_kinds::{Kind, RegionLine};
use mst_rows::{Rows, Value, put};
use mst_tables::{Bridge, Contents, Table};
use std::alloc::{AllocError, Global};

/// Puts the rows of the MST configuration that a bridge keeps (802.1Q-2022, 13.8), and answers whether there
/// is a bridge of this name: its name, revision and digest in a row, and then a row for each tree beside the
/// CIST that its table maps some VID to, with these VIDs. Where there is no such bridge it puts nothing.
///
/// `AllocError`: memory was wanted and refused; some of the rows may have been put. It goes over the 4,094
/// VIDs once for each of the trees, which are 64 at most.
pub fn put_configuration<C: Contents, R: Rows>(
    alloc: Global,
    contents: &C,
    bridge: &Name,
    out: &mut R,
) -> Result<bool, AllocError>
    ensures there { IfOk result (λ there. there ≡ is_some (configuration_rows (C.tables contents.now).net bridge.now)) }
    ensures rows { (first : R) (rows : List Row) → R.grew first out.old rows
        → OnOk result (R.grew first out.new (rows ++ unwrap_or (configuration_rows (C.tables contents.now).net bridge.now) [])) }
{
    let Some(row) = contents.bridge(bridge) else {
        return Ok(false);
    };
    let table = contents.table(bridge);
    put_bridge(bridge, &row, &table, out)?;
    put_mstis(alloc, bridge, &table, out)?;
    Ok(true)
}

/// Puts the row of a bridge's configuration.
fn put_bridge<R: Rows>(
    name: &Name,
    bridge: &Bridge,
    table: &Table,
    out: &mut R,
) -> Result<(), AllocError>
    ensures { (first : R) (rows : List Row) → R.grew first out.old rows
        → OnOk result (R.grew first out.new (rows ++ configuration_row name.now (bridge_row bridge.now) (encode_lower (digest_of table.now)) ∷ [])) }
{
    put_with_digest(name, bridge, &digest_digits(table), out)
}

/// Puts the row of a bridge's configuration, whose digest has these digits.
fn put_with_digest<'a, R: Rows>(
    name: &'a Name,
    bridge: &'a Bridge,
    digest: &'a [u8],
    out: &mut R,
) -> Result<(), AllocError>
    ensures { (first : R) (rows : List Row) → R.grew first out.old rows → OnOk result (R.grew first out.new (rows ++ configuration_row name.now (bridge_row bridge.now) digest.now ∷ [])) }
{
    let values = [
        Value::Name(name),
        Value::Word(bridge.conf_name.as_bytes()),
        Value::Number(u64::from(bridge.revision)),
        Value::Word(digest),
    ];
    put::<R>(Kind::Region(RegionLine::Configuration), &values, out)
}

/// Puts a row for each tree beside the CIST that the table of a bridge maps some VID to, in rising order.
fn put_mstis<R: Rows>(
    alloc: Global,
    bridge: &Name,
    table: &Table,
    out: &mut R,
) -> Result<(), AllocError>
    ensures { (first : R) (rows : List Row) → R.grew first out.old rows → OnOk result (R.grew first out.new (rows ++ mstis_rows bridge.now table.now)) }
{
    let trees = table.mstis(alloc)?;
    for tree in trees.as_slice() {
        put_msti(bridge, *tree, &vids_of(table, *tree), out)?;
    }
    Ok(())
}

/// Puts the row of a tree and of the VIDs that the table of a bridge maps to it.
fn put_msti<'a, R: Rows>(
    bridge: &'a Name,
    tree: Tree,
    vids: &'a VidSet,
    out: &mut R,
) -> Result<(), AllocError>
    ensures { (first : R) (rows : List Row) → R.grew first out.old rows → OnOk result (R.grew first out.new (rows ++ msti_row bridge.now tree vids.now ∷ [])) }
{
    let values = [
        Value::Name(bridge),
        Value::Number(u64::from(tree.value())),
        Value::Vids(vids),
    ];
    put::<R>(Kind::Region(RegionLine::Msti), &values, out)
}

/// The VIDs that the table maps to the tree.
fn vids_of(table: &Table, tree: Tree) -> VidSet
    ensures { result ≡ vids_in table.now tree }
{
    let mut vids = VidSet::none();
    for number in 1..4095 {
        let vid = Vid::new(number).unwrap();
        if table.tree(vid) == tree {
            vids.insert(vid);
        }
    }
    vids
}
