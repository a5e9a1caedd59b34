ghost use Rattle.std.specs.Prelude.{◌≡◌, not, true, false, Ok, Some, IfOk};
ghost use Rattle.std.specs.List.{find, flat_map};
ghost use Rattle.std.specs.Option.{option_copied};
ghost use Rattle.mst_compare.specs.Sender.{sender_of};
ghost use Rattle.mst_bpdu.specs.CaptureText.{comparison_rows};
ghost use Rattle.mst_report.specs.Planned.{planned_state};
ghost use Rattle.mst_report.specs.State.{State};
ghost use Rattle.mst_engine.specs.Captures.{is_skipped as skipped, ServesCapture, ServesMessage, ServesSent, compared};
ghost use Rattle.mst_engine.specs.Engine.{shape_of, replied};
ghost use Rattle.mst_engine.specs.declared.engine.Input.TheVariants.{Captures};
ghost use Rattle.mst_lang.specs.Words.{is_blank as blank};
ghost use Rattle.mst_print.specs.Shape.{listed};
ghost use Rattle.mst_rows.specs.Answers.{record_line};
ghost use Rattle.mst_rows.specs.Lines.{row_line};

use crate::engine::Reply;
use mst_bpdu::{Bpdu, BpduFault, Difference, put_comparison, read_line};
use mst_compare::laws::has_list;
use mst_compare::{Digests, compare_with, sender};
use mst_ids::PortName;
use mst_io::is_blank;
use mst_print::Form;
use mst_report::Planner;
use mst_rows::JsonLines;
use std::alloc::{AllocError, Global};

/// Compares a line of captures with a settled plan.
pub(crate) fn compare_line(
    alloc: Global,
    planner: &Planner,
    digests: &mut Digests,
    form: Form,
    number: u64,
    line: &[u8],
) -> Reply
    requires { planner.now.is_settled ≡ true }
    ensures { ServesCapture form number (planned_state planner.now) line.now (replied (shape_of (Captures form)) number (planned_state planner.now) result) }
{
    if is_skipped(line) {
        return Reply::Silent;
    }
    match read_line(line) {
        Err(fault) => Reply::Faulty(fault),
        Ok(bpdu) => compare_bpdu(alloc, planner, digests, form, number, &bpdu),
    }
}

/// Whether a line of captures has nothing to compare: it is blank, or a comment.
fn is_skipped(line: &[u8]) -> bool
    ensures { result ≡ skipped line.now }
{
    match first_byte(line) {
        None => true,
        Some(byte) => *byte == b'#',
    }
}

/// The first byte other than space and tab.
fn first_byte(line: &[u8]) -> Option<&u8>
    ensures { option_copied result ≡ find (λ b. not (blank b)) line.now }
{
    line.iter().find(|byte| !is_blank(**byte))
}

/// Compares a captured message.
fn compare_bpdu(
    alloc: Global,
    planner: &Planner,
    digests: &mut Digests,
    form: Form,
    number: u64,
    bpdu: &Bpdu,
) -> Reply
    requires { planner.now.is_settled ≡ true }
    ensures { ServesMessage form number (planned_state planner.now) (Some (Ok bpdu.now)) (replied (shape_of (Captures form)) number (planned_state planner.now) result) }
{
    let plan = planner.settled();
    match sender(&plan, bpdu) {
        None => Reply::Faulty(BpduFault::B07),
        Some(port) => compare_sent(alloc, planner, digests, form, number, &port, bpdu),
    }
}

/// Compares a captured message that this port sent.
fn compare_sent(
    alloc: Global,
    planner: &Planner,
    digests: &mut Digests,
    form: Form,
    number: u64,
    port: &PortName,
    bpdu: &Bpdu,
) -> Reply
    requires settled { planner.now.is_settled ≡ true }
    requires sent { sender_of planner.now.contents.net bpdu.now ≡ Some port.now }
    ensures { ServesSent form number (planned_state planner.now) bpdu.now (Some port.now) (replied (shape_of (Captures form)) number (planned_state planner.now) result) }
{
    planner.known();
    has_list();
    let plan = planner.settled();
    match compare_with(alloc, &plan, digests, bpdu) {
        Err(_) => Reply::Uncompared,
        Ok(differences) => match told(alloc, form, number, port, differences.as_slice()) {
            Err(_) => Reply::Uncompared,
            Ok(reply) => reply,
        }
    }
}

/// What tells of a captured message that was compared: what is printed of it, and whether it differs. `AllocError`: memory was
/// wanted and refused.
fn told(
    alloc: Global,
    form: Form,
    number: u64,
    port: &PortName,
    differences: &[Difference],
) -> Result<Reply, AllocError>
    ensures { IfOk result (λ reply. (now : State) → replied (shape_of (Captures form)) number now reply ≡ compared form false number now port.now differences.now) }
{
    let text = text_of(alloc, form, number, port, differences)?;
    if differences.is_empty() {
        Ok(Reply::Text(text))
    } else {
        Ok(Reply::Differing(text))
    }
}

/// What is printed of a captured message that was compared. `AllocError`: memory was wanted and refused.
fn text_of(
    alloc: Global,
    form: Form,
    number: u64,
    port: &PortName,
    differences: &[Difference],
) -> Result<Vec<u8>, AllocError>
    ensures { IfOk result (λ text. text.items ≡ listed form (comparison_rows number port.now differences.now)) }
{
    match form {
        Form::Text => lines_of(alloc, number, port, differences),
        Form::Json => records_of(alloc, number, port, differences),
    }
}

/// Its lines.
fn lines_of(
    alloc: Global,
    number: u64,
    port: &PortName,
    differences: &[Difference],
) -> Result<Vec<u8>, AllocError>
    ensures { IfOk result (λ text. text.items ≡ flat_map row_line (comparison_rows number port.now differences.now)) }
{
    let mut text = Vec::new(alloc);
    put_comparison::<Vec<u8>>(number, port, differences, &mut text)?;
    Ok(text)
}

/// Its records, each on a line of its own.
fn records_of(
    alloc: Global,
    number: u64,
    port: &PortName,
    differences: &[Difference],
) -> Result<Vec<u8>, AllocError>
    ensures { IfOk result (λ text. text.items ≡ flat_map record_line (comparison_rows number port.now differences.now)) }
{
    let out = Vec::new(alloc);
    let mut lines = JsonLines { out };
    put_comparison::<JsonLines>(number, port, differences, &mut lines)?;
    Ok(lines.out)
}
