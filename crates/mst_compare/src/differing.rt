ghost use Rattle.std.specs.Prelude.{◌≡◌, Some, IfOk, IfErr, IsSome};
ghost use Rattle.mst_tables.specs.Seen.{bridge_row};
ghost use Rattle.mst_bpdu.specs.Differences.{differences_of};
ghost use Rattle.mst_bpdu.specs.declared.planned.Planned.{Planned as PlannedOf};
ghost use Rattle.mst_compare.specs.Sender.{sender_of};
ghost use Rattle.mst_compare.specs.Comparison.{AreDifferences, fault_of};
ghost use Rattle.mst_compare.specs.Seen.{seen_cist, seen_planned};

use crate::digests::Digests;
use crate::planned::planned;
use crate::senders::{Origin, sender_in};
use mst_bpdu::{Bpdu, BpduFault, Difference, differences};
use mst_roles::{Forest, Settled};
use mst_tables::Contents;
use mst_view::View;
use std::alloc::{AllocError, Global};

/// Where a BPDU differs from what the plan has for the port that sent it, in the order in which fields are compared.
/// The plan has the port's designated priority vector, its role and whether it forwards, in the CIST and in each MSTI
/// of its bridge, and the bridge's MST Configuration Identifier.
///
/// B07: the BPDU has no sender, as [`sender`](crate::sender) tells. B99: it has one, and memory was wanted and
/// refused. There is no other fault.
pub fn compare(alloc: Global, plan: &Settled, bpdu: &Bpdu) -> Result<Vec<Difference>, BpduFault>
    ensures found { IfOk result (λ found. AreDifferences plan.now.net bpdu.now found.items) }
    ensures fault { IfErr result (λ fault. fault ≡ fault_of (sender_of plan.now.net bpdu.now)) }
{
    let mut digests = Digests::new(alloc);
    compare_with(alloc, plan, &mut digests, bpdu)
}

/// The same as [`compare`], with the digests that are kept from other BPDUs, of this network or another.
pub fn compare_with(
    alloc: Global,
    plan: &Settled,
    digests: &mut Digests,
    bpdu: &Bpdu,
) -> Result<Vec<Difference>, BpduFault>
    ensures found { IfOk result (λ found. AreDifferences plan.now.net bpdu.now found.items) }
    ensures fault { IfErr result (λ fault. fault ≡ fault_of (sender_of plan.now.net bpdu.now)) }
{
    plan.known();
    let view = plan.view();
    let forest = plan.forest();
    match sender_in(view, bpdu) {
        None => Err(BpduFault::B07),
        Some(sender) => match from_plan(alloc, view, forest, digests, &sender, bpdu) {
            Ok(found) => Ok(found),
            Err(_) => Err(BpduFault::B99),
        },
    }
}

/// Where a BPDU differs from what the plan has for its sender, whose bridge has a root priority vector in the CIST.
fn from_plan(
    alloc: Global,
    view: &View,
    forest: &Forest,
    digests: &mut Digests,
    sender: &Origin,
    bpdu: &Bpdu,
) -> Result<Vec<Difference>, AllocError>
    requires { IsSome (seen_cist view.now forest.now (bridge_row sender.now.bridge.bridge) sender.now.port) }
    ensures { IfOk result (λ found. (plan : PlannedOf) × (seen_planned view.now forest.now sender.now ≡ Some plan) × (found.items ≡ differences_of plan bpdu.now)) }
{
    let plan = planned(alloc, view, forest, digests, sender)?;
    let found = differences(alloc, &plan, bpdu)?;
    Ok(found)
}
