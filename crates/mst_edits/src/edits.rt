ghost use Rattle.std.specs.Prelude.{◌≡◌, ◌++◌, List, OnOk, IfOk, false};
ghost use Rattle.mst_rows.specs.Rows.{Row};
ghost use Rattle.mst_edits.specs.Edits.{coming, edits, has_any, joined};
ghost use Rattle.mst_edits.specs.EditRows.{change_rows, edits_rows};

use crate::bridges::{add_bridges, add_powers};
use crate::going::add_going;
use crate::homes::homes_of;
use crate::lans::{add_lans, add_states};
use crate::ports::add_plugs;
use crate::rows::put_edit;
use crate::save::put_version;
use mst_lang::Edit;
use mst_net::Saved;
use mst_rows::Rows;
use std::alloc::{AllocError, Global};

/// Puts the rows of a script of version 2 that makes the new network of the old one, and tells whether there is an
/// edit: first what goes, then what comes and is set, then plugs, and states last. A setting that is equal in both has
/// no row.
///
/// `AllocError`: memory was wanted and refused; part of the rows may have been put.
pub fn put_edits<C: Saved, D: Saved, R: Rows>(
    alloc: Global,
    old: &C,
    new: &D,
    out: &mut R,
) -> Result<bool, AllocError>
    ensures { (first : R) (rows : List Row) → R.grew first out.old rows
        → IfOk result (λ differs. (differs ≡ has_any (edits (C.tables old.now).net (D.tables new.now).net)) × R.grew first out.new (rows ++ change_rows (C.tables old.now).net (D.tables new.now).net)) }
{
    let all = edits_between(alloc, old, new)?;
    put_version(out)?;
    put_rows(&all, out)?;
    Ok(is_any(&all))
}

/// The edits that make the new network of the old one.
fn edits_between<C: Saved, D: Saved>(
    alloc: Global,
    old: &C,
    new: &D,
) -> Result<Vec<Edit>, AllocError>
    ensures { IfOk result (λ all. all.items ≡ edits (C.tables old.now).net (D.tables new.now).net) }
{
    let mut all = Vec::new(alloc);
    add_going(alloc, old, new, &mut all)?;
    add_coming(alloc, old, new, &mut all)?;
    Ok(all)
}

/// Adds the edits of what comes and is set, plugs and states.
fn add_coming<C: Saved, D: Saved>(
    alloc: Global,
    old: &C,
    new: &D,
    all: &mut Vec<Edit>,
) -> Result<(), AllocError>
    ensures { OnOk result (all.new.items ≡ all.old.items ++ joined (coming false (C.tables old.now).net (D.tables new.now).net)) }
{
    let ports = new.port_names(alloc)?;
    let homes = homes_of(alloc, &ports)?;
    add_bridges(alloc, old, new, &homes, all)?;
    add_lans(alloc, false, old, new, all)?;
    add_plugs(old, new, &ports, all)?;
    add_powers(alloc, old, new, all)?;
    add_states(alloc, old, new, all)
}

fn is_any(all: &[Edit]) -> bool
    ensures { result ≡ has_any all.now }
{
    match all {
        [] => false,
        [_, ..] => true,
    }
}

/// Puts the row of each edit.
pub(crate) fn put_rows<R: Rows>(all: &[Edit], out: &mut R) -> Result<(), AllocError>
    ensures { (first : R) (rows : List Row) → R.grew first out.old rows → OnOk result (R.grew first out.new (rows ++ edits_rows all.now)) }
{
    for edit in all {
        put_edit(edit, out)?;
    }
    Ok(())
}
