ghost use Rattle.std.specs.Prelude.{◌≡◌, ◌++◌, OnOk};
ghost use Rattle.mst_roles.specs.forest.Settled.{outcome_of};
ghost use Rattle.mst_picture.specs.Picture.{opening, picture};

use crate::bridges::push_bridges;
use crate::ends::Drawn;
use crate::lans::push_lans;
use crate::pieces::push_pieces;
use itoa::Buffer;
use mst_ids::{Tree, push_bytes};
use mst_roles::Settled;
use std::alloc::{AllocError, Global};

/// Appends the first lines, which name a tree or a VLAN by this word and this number.
pub(crate) fn push_opening(word: &[u8], number: u16, out: &mut Vec<u8>) -> Result<(), AllocError>
    ensures { OnOk result (out.new.items ≡ out.old.items ++ opening word.now number) }
{
    let mut digits = Buffer::new();
    let number = digits.format(number).as_bytes();
    let pieces: [&[u8]; 9] = [
        b"graph \"",
        word,
        number,
        b"\" {\n",
        b"  graph [label=\"",
        word,
        number,
        b"\", nodesep=0.6, ranksep=0.8];\n",
        b"  edge [fontsize=10, labeldistance=1.8];\n",
    ];
    push_pieces(&pieces, out)
}

/// Appends the picture of a settled network with a tree: a text for Graphviz. Bridges are nodes, the root or the regional
/// roots with two borders; a logical LAN of two logical ports is a line between their bridges, from the designated port, and
/// any other a box with a line to each port's bridge. The ends of the lines have the ports' numbers and the letters of their
/// roles, and a line is dashed where an end of it doesn't forward. Where no bridge has the tree the bridges are drawn without
/// it. `AllocError`: memory was wanted and refused; part of the text may have been appended.
///
/// It goes over the ports twice.
pub fn push_picture(
    alloc: Global,
    plan: &Settled,
    tree: Tree,
    out: &mut Vec<u8>,
) -> Result<(), AllocError>
    ensures { OnOk result (out.new.items ≡ out.old.items ++ picture plan.now.net (outcome_of plan.now) tree) }
{
    plan.known();
    push_opening(b"tree ", tree.value(), out)?;
    push_bridges(plan, tree, out)?;
    push_lans(alloc, plan, Drawn::Tree(tree), out)?;
    push_bytes(b"}\n", out)
}
