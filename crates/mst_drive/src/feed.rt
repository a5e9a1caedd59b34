ghost use Rattle.std.specs.Prelude.{◌≡◌, ◌+◌, ◌<◌, ◌^◌, ◌∷◌, [], ℕ, List, false, length, OnOk, OnErr};
ghost use Rattle.std.specs.Io.KnownBytes.{Appends};
ghost use Rattle.mst_io.specs.Devices.{Works, IsStopped, stopped_by};
ghost use Rattle.mst_io.specs.Held.{ending};
ghost use Rattle.mst_drive.specs.Feeding.{Breaks, EndsFront, Feeds, Leaves};

use crate::job::Job;
use crate::said::Says;
use mst_io::{HeldLine, RunFault, Sink, WriteFailed};

/// Gives the job the line that has come, writes what it says, and begins the next.
fn end_line<J: Job, K: Sink>(
    job: &mut J,
    number: &mut u64,
    held: &mut HeldLine,
    sink: &mut K,
) -> Result<(), WriteFailed>
    requires awaits { J.awaits job.old number.old }
    requires few { number.old < 2 ^ 60 }
    requires working { (K.told sink.old).failed ≡ false }
    ensures awaits { J.awaits job.new number.new }
    ensures ok { OnOk result ((text : List ℕ) × Feeds J.tells job.old number.old held.old (10 ∷ []) text job.new number.new held.new × Appends (K.contents sink.old) (K.contents sink.new) text) }
    ensures err { OnErr result (Breaks J.tells (K.contents sink.old) (K.contents sink.new) job.old number.old held.old (10 ∷ [])) }
    ensures cleared { held.new ≡ [] }
    ensures works { OnOk result (Works (K.told sink.old) (K.told sink.new)) }
    ensures broken { OnErr result (IsStopped (K.told sink.old) (K.told sink.new)) }
    ensures lent { K.lent sink.new ≡ K.lent sink.old }
{
    let at = *number;
    let said = job.take(at, held.line());
    *number = at + 1;
    held.clear();
    job.goes_on(at + 1);
    said.put(sink)
}

/// Takes a byte of an input.
fn take_byte<J: Job, K: Sink>(
    job: &mut J,
    number: &mut u64,
    held: &mut HeldLine,
    sink: &mut K,
    byte: u8,
) -> Result<(), WriteFailed>
    requires awaits { J.awaits job.old number.old }
    requires few { number.old < 2 ^ 60 }
    requires working { (K.told sink.old).failed ≡ false }
    ensures awaits { J.awaits job.new number.new }
    ensures ok { OnOk result ((text : List ℕ) × Feeds J.tells job.old number.old held.old (byte ∷ []) text job.new number.new held.new × Appends (K.contents sink.old) (K.contents sink.new) text) }
    ensures err { OnErr result (Breaks J.tells (K.contents sink.old) (K.contents sink.new) job.old number.old held.old (byte ∷ [])) }
    ensures ended { byte ≡ 10 → held.new ≡ [] }
    ensures works { OnOk result (Works (K.told sink.old) (K.told sink.new)) }
    ensures broken { OnErr result (IsStopped (K.told sink.old) (K.told sink.new)) }
    ensures lent { K.lent sink.new ≡ K.lent sink.old }
{
    if byte == b'\n' {
        return end_line(job, number, held, sink);
    }
    held.push(byte);
    Ok(())
}

/// Takes bytes of an input.
pub(crate) fn feed<J: Job, K: Sink>(
    job: &mut J,
    number: &mut u64,
    held: &mut HeldLine,
    sink: &mut K,
    bytes: &[u8],
) -> Result<(), WriteFailed>
    requires awaits { J.awaits job.old number.old }
    requires few { number.old + length bytes.now < 2 ^ 60 }
    requires working { (K.told sink.old).failed ≡ false }
    ensures awaits { J.awaits job.new number.new }
    ensures ok { OnOk result ((text : List ℕ) × Feeds J.tells job.old number.old held.old bytes.now text job.new number.new held.new × Appends (K.contents sink.old) (K.contents sink.new) text) }
    ensures err { OnErr result (Breaks J.tells (K.contents sink.old) (K.contents sink.new) job.old number.old held.old bytes.now) }
    ensures works { OnOk result (Works (K.told sink.old) (K.told sink.new)) }
    ensures broken { OnErr result (IsStopped (K.told sink.old) (K.told sink.new)) }
    ensures lent { K.lent sink.new ≡ K.lent sink.old }
{
    for byte in bytes {
        take_byte(job, number, held, sink, *byte)?;
    }
    Ok(())
}

/// Takes the last line, if it has a byte.
pub(crate) fn finish<J: Job, K: Sink>(
    job: &mut J,
    number: &mut u64,
    held: &mut HeldLine,
    sink: &mut K,
) -> Result<(), WriteFailed>
    requires awaits { J.awaits job.old number.old }
    requires few { number.old < 2 ^ 60 }
    requires working { (K.told sink.old).failed ≡ false }
    ensures awaits { J.awaits job.new number.new }
    ensures ok { OnOk result ((text : List ℕ) × Feeds J.tells job.old number.old held.old (ending held.old) text job.new number.new held.new × Appends (K.contents sink.old) (K.contents sink.new) text) }
    ensures err { OnErr result (Breaks J.tells (K.contents sink.old) (K.contents sink.new) job.old number.old held.old (ending held.old)) }
    ensures cleared { held.new ≡ [] }
    ensures works { OnOk result (Works (K.told sink.old) (K.told sink.new)) }
    ensures broken { OnErr result (IsStopped (K.told sink.old) (K.told sink.new)) }
    ensures lent { K.lent sink.new ≡ K.lent sink.old }
{
    if held.is_empty() {
        return Ok(());
    }
    take_byte(job, number, held, sink, b'\n')
}

/// Gives the job the end of its input, and writes what it says. [`RunFault::Write`] where that failed, and [`RunFault::Memory`] where the
/// job wanted memory for it.
pub(crate) fn end_input<J: Job, K: Sink>(
    job: &mut J,
    number: u64,
    sink: &mut K,
) -> Result<(), RunFault>
    requires awaits { J.awaits job.old number }
    requires few { number < 2 ^ 60 }
    requires working { (K.told sink.old).failed ≡ false }
    ensures ok { OnOk result ((said : List ℕ) × J.ends job.old number said job.new × Appends (K.contents sink.old) (K.contents sink.new) said) }
    ensures err { OnErr result (EndsFront J.ends (K.contents sink.old) (K.contents sink.new) job.old number (stopped_by result)) }
    ensures leaves { Leaves J.lacks (K.told sink.old) (K.told sink.new) (stopped_by result) }
    ensures lent { K.lent sink.new ≡ K.lent sink.old }
{
    let said = match job.end(number) {
        Err(_) => return Err(RunFault::Memory),
        Ok(said) => said,
    };
    match said.put(sink) {
        Err(_) => Err(RunFault::Write),
        Ok(()) => Ok(()),
    }
}
