ghost use Rattle.std.specs.Prelude.{◌≡◌, ℕ, ◌++◌, List, OnOk};
ghost use Rattle.std.specs.List.{Contains, flat_map};
ghost use Rattle.mst_roles.specs.forest.Settled.{outcome_of};
ghost use Rattle.mst_graph.specs.Islands.{Island as NamedIsland};
ghost use Rattle.mst_summary.specs.vlan.Reach.{AreIslandsOf};
ghost use Rattle.mst_picture.specs.VlanPicture.{node_line, node_end as node_end_by, cluster_opening, clusters};
ghost use Rattle.mst_picture.specs.InView.{node_of, node_at, cluster_of, clusters_of};

use crate::bridges::is_root;
use crate::pieces::push_pieces;
use itoa::Buffer;
use mst_ids::{BridgeNo, Name, Tree, Vid, push_bytes};
use mst_roles::{Settled, active_ports, vid_tree};
use mst_summary::{Island, has_bridge, reach_from};
use mst_view::BridgeInView;
use std::alloc::{AllocError, Global};

/// The end of a node's text, which has two borders for a root.
fn node_end(is_root: bool) -> &'static str
    ensures { result.now ≡ node_end_by is_root }
{
    if is_root {
        "\", peripheries=2];\n"
    } else {
        "\"];\n"
    }
}

/// Appends the node of the bridge of this name, with its tree of the VID.
fn push_line(name: &Name, tree: Tree, is_root: bool, out: &mut Vec<u8>) -> Result<(), AllocError>
    ensures { OnOk result (out.new.items ≡ out.old.items ++ node_line name.now tree is_root) }
{
    let pieces: [&[u8]; 5] = [
        b"    \"",
        name.as_bytes(),
        b"\" [label=\"",
        name.as_bytes(),
        b"\\ntree ",
    ];
    push_pieces(&pieces, out)?;
    tree.push_text(out)?;
    push_bytes(node_end(is_root).as_bytes(), out)
}

/// Appends the node of a bridge, with its tree of the VID.
fn push_node(
    plan: &Settled,
    tree: Tree,
    bridge: &BridgeInView,
    out: &mut Vec<u8>,
) -> Result<(), AllocError>
    requires { Contains plan.now.view.bridges bridge.now }
    ensures { OnOk result (out.new.items ≡ out.old.items ++ node_of plan.now tree bridge.now) }
{
    push_line(&bridge.name, tree, is_root(plan, tree, bridge), out)
}

/// Appends the node of the bridge of this number, if there is one.
fn push_at(plan: &Settled, vid: Vid, number: BridgeNo, out: &mut Vec<u8>) -> Result<(), AllocError>
    ensures { OnOk result (out.new.items ≡ out.old.items ++ node_at plan.now vid number) }
{
    match plan.view().bridge(number) {
        None => Ok(()),
        Some(bridge) => push_node(plan, vid_tree(plan.view(), number, vid), bridge, out),
    }
}

/// Appends the nodes of the bridges of these numbers.
fn push_nodes(
    plan: &Settled,
    vid: Vid,
    numbers: &[BridgeNo],
    out: &mut Vec<u8>,
) -> Result<(), AllocError>
    ensures { OnOk result (out.new.items ≡ out.old.items ++ flat_map (node_at plan.now vid) numbers.now) }
{
    for number in numbers {
        push_at(plan, vid, *number, out)?;
    }
    Ok(())
}

/// Appends the first line of the cluster of this number.
fn push_cluster_opening(number: usize, out: &mut Vec<u8>) -> Result<(), AllocError>
    ensures { OnOk result (out.new.items ≡ out.old.items ++ cluster_opening number) }
{
    let mut digits = Buffer::new();
    let number = digits.format(number).as_bytes();
    let pieces: [&[u8]; 3] = [b"  subgraph \"cluster ", number, b"\" {\n"];
    push_pieces(&pieces, out)
}

/// Appends the cluster of this number, of an island.
fn push_cluster(
    plan: &Settled,
    vid: Vid,
    number: usize,
    island: &Island,
    out: &mut Vec<u8>,
) -> Result<(), AllocError>
    ensures { OnOk result (out.new.items ≡ out.old.items ++ cluster_of plan.now vid number island.now) }
{
    push_cluster_opening(number, out)?;
    push_nodes(plan, vid, island.bridges.as_slice(), out)?;
    push_bytes(b"  }\n", out)
}

/// Appends the clusters of those of these islands that have a bridge, numbered from 1 on.
fn push_clusters(
    plan: &Settled,
    vid: Vid,
    islands: &[Island],
    out: &mut Vec<u8>,
) -> Result<(), AllocError>
    ensures { OnOk result (out.new.items ≡ out.old.items ++ clusters_of plan.now vid islands.now) }
{
    let mut count = 0;
    for island in islands {
        if has_bridge(island) {
            count += 1;
            push_cluster(plan, vid, count, island, out)?;
        }
    }
    Ok(())
}

/// Appends the clusters of the islands of a VID that have a bridge. It makes the islands once.
pub(crate) fn push_islands(
    alloc: Global,
    plan: &Settled,
    vid: Vid,
    out: &mut Vec<u8>,
) -> Result<(), AllocError>
    ensures { OnOk result ((islands : List (NamedIsland (List ℕ) (List ℕ))) × AreIslandsOf plan.now.net (outcome_of plan.now) vid islands × (out.new.items ≡ out.old.items ++ clusters plan.now.net (outcome_of plan.now) vid islands)) }
{
    plan.known();
    let active = active_ports(alloc, plan, vid)?;
    let islands = reach_from(alloc, plan, active.as_slice(), vid)?;
    push_clusters(plan, vid, islands.as_slice(), out)
}
