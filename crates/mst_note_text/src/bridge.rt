ghost use Rattle.std.specs.Prelude.{◌≡◌, ◌++◌, List, length, OnOk};
ghost use Rattle.std.specs.Option.{option_copied};
ghost use Rattle.mst_rows.specs.Rows.{Row};
ghost use Rattle.mst_note_text.specs.SeenNotes.{bridge_of as bridge_at, seen_hops, seen_age, seen_path, seen_notes, members_notes};

use crate::lines::{put_age, put_external, put_hops, put_internal};
use crate::member::{Member, RootPath};
use crate::parent::Depths;
use crate::places::Macs;
use mst_ids::{BridgeId, Tree};
use mst_rows::Rows;
use mst_view::BridgeInView;
use std::alloc::AllocError;

/// The bridge that an identifier names.
fn bridge_of<'a>(bridges: &'a [BridgeInView], macs: &Macs, id: BridgeId) -> Option<&'a BridgeInView>
    ensures { option_copied result ≡ bridge_at bridges.now macs.now.entries id }
{
    let place = *macs.get(&id.mac())?;
    bridges.get(place)
}

/// Puts the notes on the bridges of a tree, by their depths.
pub(crate) fn put_members<R: Rows>(
    bridges: &[BridgeInView],
    macs: &Macs,
    tree: Tree,
    members: &[Member],
    depths: &[Depths],
    out: &mut R,
) -> Result<(), AllocError>
    requires { length depths.now ≡ length members.now }
    ensures { (first : R) (rows : List Row) → R.grew first out.old rows → OnOk result (R.grew first out.new (rows ++ members_notes bridges.now macs.now.entries tree members.now depths.now)) }
{
    for (place, member) in members.iter().enumerate() {
        put_member(bridges, macs, tree, member, &depths[place], out)?;
    }
    Ok(())
}

/// Puts the notes on a bridge of a tree, by its depths.
fn put_member<R: Rows>(
    bridges: &[BridgeInView],
    macs: &Macs,
    tree: Tree,
    member: &Member,
    depths: &Depths,
    out: &mut R,
) -> Result<(), AllocError>
    ensures { (first : R) (rows : List Row) → R.grew first out.old rows → OnOk result (R.grew first out.new (rows ++ seen_notes bridges.now macs.now.entries tree member.now depths.now)) }
{
    put_member_hops(bridges, macs, tree, member, depths.internal, out)?;
    if let Some(path) = &member.root_path {
        put_root_path(bridges, macs, tree, member, depths.external, path, out)?;
    }
    put_internal(tree, &member.name, member.internal, out)
}

/// Puts a note where hops bind.
fn put_member_hops<R: Rows>(
    bridges: &[BridgeInView],
    macs: &Macs,
    tree: Tree,
    member: &Member,
    depth: usize,
    out: &mut R,
) -> Result<(), AllocError>
    ensures { (first : R) (rows : List Row) → R.grew first out.old rows → OnOk result (R.grew first out.new (rows ++ seen_hops bridges.now macs.now.entries tree member.now depth)) }
{
    match bridge_of(bridges, macs, member.regional) {
        None => Ok(()),
        Some(root) => put_hops(tree, &member.name, depth, root.bridge.max_hops, out),
    }
}

/// Puts the notes on the path to the root: where age binds, and the external path cost.
fn put_root_path<R: Rows>(
    bridges: &[BridgeInView],
    macs: &Macs,
    tree: Tree,
    member: &Member,
    depth: usize,
    path: &RootPath,
    out: &mut R,
) -> Result<(), AllocError>
    ensures { (first : R) (rows : List Row) → R.grew first out.old rows → OnOk result (R.grew first out.new (rows ++ seen_path bridges.now macs.now.entries tree member.now depth path.now)) }
{
    put_member_age(bridges, macs, member, path, depth, out)?;
    put_external(tree, &member.name, path.external, out)
}

/// Puts a note where age binds.
fn put_member_age<R: Rows>(
    bridges: &[BridgeInView],
    macs: &Macs,
    member: &Member,
    path: &RootPath,
    depth: usize,
    out: &mut R,
) -> Result<(), AllocError>
    ensures { (first : R) (rows : List Row) → R.grew first out.old rows → OnOk result (R.grew first out.new (rows ++ seen_age bridges.now macs.now.entries member.now path.now depth)) }
{
    match bridge_of(bridges, macs, path.root) {
        None => Ok(()),
        Some(root) => put_age(&member.name, depth, root.bridge.max_age, out),
    }
}
