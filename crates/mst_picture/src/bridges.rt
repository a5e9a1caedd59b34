ghost use Rattle.std.specs.Prelude.{◌≡◌, ◌++◌, OnOk};
ghost use Rattle.std.specs.List.{Contains, flat_map};
ghost use Rattle.mst_view.specs.Viewed.{named_bridge};
ghost use Rattle.mst_tables.specs.Seen.{bridge_row};
ghost use Rattle.mst_roles.specs.forest.Settled.{outcome_of};
ghost use Rattle.mst_picture.specs.Bridges.{bridge_line, is_root as is_root_in, style as style_by};
ghost use Rattle.mst_picture.specs.InView.{style_of as style_in, bridge_of, off_of};

use crate::pieces::push_pieces;
use mst_ids::Tree;
use mst_lang::Power;
use mst_roles::{Settled, bridge_id};
use mst_summary::root_of;
use mst_view::BridgeInView;
use std::alloc::AllocError;

/// Whether a bridge is on.
fn is_on(bridge: &BridgeInView) -> bool
    ensures { result ≡ (bridge_row bridge.now.bridge).is_on }
{
    matches!(bridge.bridge.power, Power::On)
}

/// Whether a bridge names itself as its root in a tree, in an MSTI as its regional root.
pub(crate) fn is_root(plan: &Settled, tree: Tree, bridge: &BridgeInView) -> bool
    requires { Contains plan.now.view.bridges bridge.now }
    ensures { result ≡ is_root_in plan.now.net (outcome_of plan.now) tree (named_bridge bridge.now) }
{
    match root_of(plan, tree, bridge) {
        None => false,
        Some(root) => root == bridge_id(plan.settings(), tree, bridge),
    }
}

/// How a bridge is drawn.
fn style(is_on: bool, has_tree: bool, is_root: bool) -> &'static str
    ensures { result.now ≡ style_by is_on has_tree is_root }
{
    if !is_on {
        " [style=dashed, color=gray, fontcolor=gray]"
    } else if !has_tree {
        " [color=gray, fontcolor=gray]"
    } else if is_root {
        " [peripheries=2]"
    } else {
        ""
    }
}

/// How a bridge is drawn with a tree.
fn style_of(plan: &Settled, tree: Tree, bridge: &BridgeInView) -> &'static str
    requires { Contains plan.now.view.bridges bridge.now }
    ensures { result.now ≡ style_in plan.now tree bridge.now }
{
    style(
        is_on(bridge),
        plan.has_tree(tree, bridge),
        is_root(plan, tree, bridge),
    )
}

/// Appends the node of a bridge that is drawn so.
fn push_styled(bridge: &BridgeInView, style: &str, out: &mut Vec<u8>) -> Result<(), AllocError>
    ensures { OnOk result (out.new.items ≡ out.old.items ++ bridge_line bridge.now.name style.now) }
{
    let pieces: [&[u8]; 5] = [
        b"  \"",
        bridge.name.as_bytes(),
        b"\"",
        style.as_bytes(),
        b";\n",
    ];
    push_pieces(&pieces, out)
}

/// Appends the node of a bridge.
fn push_bridge(
    plan: &Settled,
    tree: Tree,
    bridge: &BridgeInView,
    out: &mut Vec<u8>,
) -> Result<(), AllocError>
    requires { Contains plan.now.view.bridges bridge.now }
    ensures { OnOk result (out.new.items ≡ out.old.items ++ bridge_of plan.now tree bridge.now) }
{
    push_styled(bridge, style_of(plan, tree, bridge), out)
}

/// Appends the nodes of the bridges, by their names.
pub(crate) fn push_bridges(plan: &Settled, tree: Tree, out: &mut Vec<u8>) -> Result<(), AllocError>
    ensures { OnOk result (out.new.items ≡ out.old.items ++ flat_map (bridge_of plan.now tree) plan.now.view.bridges) }
{
    for bridge in plan.view().bridges() {
        push_bridge(plan, tree, bridge, out)?;
    }
    Ok(())
}

/// Appends the node of a bridge, if it is off.
fn push_unless_on(bridge: &BridgeInView, out: &mut Vec<u8>) -> Result<(), AllocError>
    ensures { OnOk result (out.new.items ≡ out.old.items ++ off_of bridge.now) }
{
    if is_on(bridge) {
        return Ok(());
    }
    push_styled(bridge, style(false, false, false), out)
}

/// Appends the nodes of the bridges that are off, by their names.
pub(crate) fn push_off(plan: &Settled, out: &mut Vec<u8>) -> Result<(), AllocError>
    ensures { OnOk result (out.new.items ≡ out.old.items ++ flat_map off_of plan.now.view.bridges) }
{
    for bridge in plan.view().bridges() {
        push_unless_on(bridge, out)?;
    }
    Ok(())
}
