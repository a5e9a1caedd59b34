ghost use Rattle.std.specs.Prelude.{◌≡◌, ℕ, ◌++◌, List, OnOk};
ghost use Rattle.mst_roles.specs.forest.Settled.{outcome_of};
ghost use Rattle.mst_picture.specs.VlanPicture.{IsVlanPicture};

use crate::bridges::push_off;
use crate::clusters::push_islands;
use crate::ends::Drawn;
use crate::lans::push_lans;
use crate::picture::push_opening;
use mst_ids::{Vid, push_bytes};
use mst_roles::Settled;
use std::alloc::{AllocError, Global};

/// Appends the picture of a settled network with a VLAN: a text for Graphviz. Each island of the VID that has a bridge is a
/// cluster of its bridges, which have their own trees of the VID beside their names, and two borders where they are the roots
/// of these trees, in an MSTI the regional roots. The bridges that are off and the logical LANs are drawn as with a tree; the
/// letters at the ends of a line are those of the ports' roles in their own bridges' trees of the VID, and a line is dashed
/// where an end of it isn't active for the VID or isn't a member of the VLAN. `AllocError`: memory was wanted and refused; part
/// of the text may have been appended.
///
/// It makes the islands of the VID, which for n ports takes about n log n steps, and goes over the ports twice.
pub fn push_vlan_picture(
    alloc: Global,
    plan: &Settled,
    vid: Vid,
    out: &mut Vec<u8>,
) -> Result<(), AllocError>
    ensures { OnOk result ((text : List ℕ) × IsVlanPicture plan.now.net (outcome_of plan.now) vid text × (out.new.items ≡ out.old.items ++ text)) }
{
    plan.known();
    push_opening(b"vlan ", vid.value(), out)?;
    push_islands(alloc, plan, vid, out)?;
    push_off(plan, out)?;
    push_lans(alloc, plan, Drawn::Vlan(vid), out)?;
    push_bytes(b"}\n", out)
}
