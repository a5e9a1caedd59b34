ghost use Rattle.std.specs.Prelude.{◌≡◌, ℕ, false, IfOk, length, vec_len};
ghost use Rattle.mst_vlan.specs.forest.InUse.{seen_mstis};
ghost use Rattle.mst_vlan.specs.roles.SeenRoles.{seen_role};
ghost use Rattle.mst_sweep.specs.Touched.{differ, KeepsRoles, HaveSameRoles, AreTouched, ArePlaces};

use mst_facts::Planned;
use mst_ids::Tree;
use mst_view::PortInView;
use mst_vlan::{Role, mstis_in_use, port_role};
use std::alloc::{AllocError, Global};

/// Whether two roles aren't the same, or just one of them is there.
fn differs(old: Option<Role>, new: Option<Role>) -> bool
    ensures { result ≡ differ old new }
{
    match (old, new) {
        (Some(old), Some(new)) => old != new,
        (None, None) => false,
        _ => true,
    }
}

/// Whether a port has another role in a tree than it had.
fn has_other(
    old: &Planned,
    new: &Planned,
    tree: Tree,
    before: &PortInView,
    afterwards: &PortInView,
) -> bool
    ensures { result ≡ false → seen_role old.now.view.now old.now.forest.now tree before.now ≡ seen_role new.now.view.now new.now.forest.now tree afterwards.now }
{
    let old_role = port_role(old.view, old.forest, before, tree);
    let new_role = port_role(new.view, new.forest, afterwards, tree);
    differs(old_role, new_role)
}

/// Whether a port has another role than it had in the CIST or in one of these MSTIs.
fn has_any_other(
    old: &Planned,
    new: &Planned,
    mstis: &[Tree],
    before: &PortInView,
    afterwards: &PortInView,
) -> bool
    ensures { result ≡ false → HaveSameRoles old.now.view.now old.now.forest.now new.now.view.now new.now.forest.now mstis.now before.now afterwards.now }
{
    if has_other(old, new, Tree::cist(), before, afterwards) {
        return true;
    }
    for tree in mstis {
        if has_other(old, new, *tree, before, afterwards) {
            return true;
        }
    }
    false
}

/// Whether the port at a place does, or isn't in both views.
fn is_touched(old: &Planned, new: &Planned, mstis: &[Tree], place: usize) -> bool
    ensures { result ≡ false → KeepsRoles old.now.view.now old.now.forest.now new.now.view.now new.now.forest.now mstis.now place }
{
    let Some(before) = old.view.ports().get(place) else {
        return true;
    };
    let Some(afterwards) = new.view.ports().get(place) else {
        return true;
    };
    has_any_other(old, new, mstis, before, afterwards)
}

/// For each logical port, in the order of the view, whether it has another role than it had in some tree of the old network.
/// `AllocError`: memory was wanted and refused.
///
/// It looks at the roles of each port once in each of these trees.
pub(crate) fn touched(alloc: Global, old: &Planned, new: &Planned) -> Result<Vec<bool>, AllocError>
    ensures as_long { IfOk result (λ flags. vec_len flags ≡ length old.now.view.now.ports) }
    ensures touched { IfOk result (λ flags. AreTouched old.now.view.now old.now.forest.now new.now.view.now new.now.forest.now flags.items) }
{
    let mstis = mstis_in_use(alloc, old.view)?;
    let mut touched = Vec::new(alloc);
    for place in 0..old.view.ports().len() {
        touched.push(is_touched(old, new, mstis.as_slice(), place))?;
    }
    Ok(touched)
}

/// The places of these flags that are set. `AllocError`: memory was wanted and refused.
pub(crate) fn places_of(alloc: Global, flags: &[bool]) -> Result<Vec<usize>, AllocError>
    ensures { IfOk result (λ places. ArePlaces flags.now places.items) }
{
    let mut places = Vec::new(alloc);
    for place in 0..flags.len() {
        if flags[place] {
            places.push(place)?;
        }
    }
    Ok(places)
}
