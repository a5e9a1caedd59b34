ghost use Rattle.std.specs.Prelude.{◌≡◌, ◌++◌, ◌∷◌, [], OnOk, IfOk, find, ◌==◌};
ghost use Rattle.std.specs.Option.{option_copied};
ghost use Rattle.mst_bpdu.specs.Differences.{differing, tree_of as tree_of_message, has_message as has_message_of, without_values, of_message, of_messages, missing, differences_of};

use crate::bpdu::{Bpdu, MstBpdu, MstiMessage};
use crate::difference::{Difference, Field, Value};
use crate::fields::{Compared, mst_fields, msti_fields, rst_fields};
use crate::planned::{Planned, PlannedMsti};
use std::alloc::{AllocError, Global};

/// Where a BPDU differs from what a plan has for its port, in the order in which fields are compared: those of the
/// CIST, those of each message in the capture's order, and the MSTIs without a message. A message of a tree that
/// the plan hasn't, or that an earlier message is of, is not compared further. Times, remaining hops and the other
/// flags are not compared.
///
/// `AllocError`: memory was wanted and refused.
pub fn differences(
    alloc: Global,
    planned: &Planned,
    bpdu: &Bpdu,
) -> Result<Vec<Difference>, AllocError>
    ensures { IfOk result (λ found. found.items ≡ differences_of planned.now bpdu.now) }
{
    let mut out = Vec::new(alloc);
    match bpdu {
        Bpdu::Rst(bpdu) => push_differing(0, &rst_fields(&planned.cist, bpdu), &mut out)?,
        Bpdu::Mst(bpdu) => push_mst(planned, bpdu, &mut out)?,
    }
    Ok(out)
}

/// Appends the differences of an MST BPDU.
fn push_mst(planned: &Planned, bpdu: &MstBpdu, out: &mut Vec<Difference>) -> Result<(), AllocError>
    ensures { OnOk result (out.new.items ≡ out.old.items ++ differences_of planned.now (Bpdu.Mst bpdu.now)) }
{
    push_differing(0, &mst_fields(planned, bpdu), out)?;
    let mstis = planned.mstis.as_slice();
    let messages = bpdu.messages.as_slice();
    push_messages(mstis, messages, out)?;
    push_missing(mstis, messages, out)
}

/// Appends those of a tree's fields that differ.
fn push_differing(
    tree: u16,
    fields: &[Compared],
    out: &mut Vec<Difference>,
) -> Result<(), AllocError>
    ensures { OnOk result (out.new.items ≡ out.old.items ++ differing tree fields.now) }
{
    for compared in fields {
        if compared.plan != compared.capture {
            out.push(Difference {
                tree,
                field: compared.field,
                plan: compared.plan,
                capture: compared.capture,
            })?;
        }
    }
    Ok(())
}

/// Appends the differences of MSTI messages.
fn push_messages(
    mstis: &[PlannedMsti],
    messages: &[MstiMessage],
    out: &mut Vec<Difference>,
) -> Result<(), AllocError>
    ensures { OnOk result (out.new.items ≡ out.old.items ++ of_messages mstis.now [] messages.now) }
{
    for (i, message) in messages.iter().enumerate() {
        push_message(mstis, &messages[..i], message, out)?;
    }
    Ok(())
}

/// Appends the differences of a message that follows earlier ones.
#[tactic(auto, unfolding(crate::specs::Differences::of_message))]
fn push_message(
    mstis: &[PlannedMsti],
    earlier: &[MstiMessage],
    message: &MstiMessage,
    out: &mut Vec<Difference>,
) -> Result<(), AllocError>
    ensures { OnOk result (out.new.items ≡ out.old.items ++ of_message mstis.now earlier.now message.now) }
{
    let tree = tree_of(message);
    match planned_for(tree, mstis) {
        None => push_without_values(Field::Unplanned, tree, out),
        Some(_) if has_message(tree, earlier) => push_without_values(Field::Repeated, tree, out),
        Some(msti) => push_differing(tree, &msti_fields(msti, message), out),
    }
}

/// Appends that trees are without a message.
fn push_missing(
    mstis: &[PlannedMsti],
    messages: &[MstiMessage],
    out: &mut Vec<Difference>,
) -> Result<(), AllocError>
    ensures { OnOk result (out.new.items ≡ out.old.items ++ missing mstis.now messages.now) }
{
    for msti in mstis {
        let tree = msti.tree.value();
        if !has_message(tree, messages) {
            push_without_values(Field::Missing, tree, out)?;
        }
    }
    Ok(())
}

/// Appends what differs of a tree as a whole.
fn push_without_values(field: Field, tree: u16, out: &mut Vec<Difference>) -> Result<(), AllocError>
    ensures { OnOk result (out.new.items ≡ out.old.items ++ without_values field tree ∷ []) }
{
    out.push(Difference {
        tree,
        field,
        plan: Value::Nil,
        capture: Value::Nil,
    })?;
    Ok(())
}

/// What the plan has for the tree, where the sender has it.
fn planned_for(tree: u16, mstis: &[PlannedMsti]) -> Option<&PlannedMsti>
    ensures { option_copied result ≡ find (λ msti. msti.tree == tree) mstis.now }
{
    mstis.iter().find(|msti| msti.tree.value() == tree)
}

/// Whether one of the messages is of the tree.
fn has_message(tree: u16, messages: &[MstiMessage]) -> bool
    ensures { result ≡ has_message_of tree messages.now }
{
    messages.iter().any(|message| tree_of(message) == tree)
}

/// The tree of a message.
fn tree_of(message: &MstiMessage) -> u16
    ensures { result ≡ tree_of_message message.now }
{
    message.regional_root.system_id()
}
