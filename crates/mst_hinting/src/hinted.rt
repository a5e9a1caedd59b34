ghost use Rattle.std.specs.Prelude.{◌≡◌, ◌+◌, ◌<◌, ◌≤◌, ◌^◌, [], ◌∷◌, length, OnOk};
ghost use Rattle.mst_io.specs.Held.{ending};
ghost use Rattle.mst_hinting.specs.Hinted.{IsTold};
ghost use Rattle.mst_hinting.specs.Kept.{IsKept, number_of};
ghost use Rattle.mst_hinting.specs.Lines.{Before};

use crate::lines::LineHints;
use mst_hints::Script;
use mst_io::HeldLine;
use std::alloc::{AllocError, Global};

/// Takes bytes of a script and appends the hints of the lines that they complete. `AllocError`: memory was wanted and
/// refused; some of them may have been appended, and nothing is kept of the script.
pub(crate) fn take_bytes(
    alloc: Global,
    hints: &mut LineHints,
    held: &mut HeldLine,
    bytes: &[u8],
    out: &mut Vec<u8>,
) -> Result<(), AllocError>
    requires few { number_of hints.old + length bytes.now < 2 ^ 60 }
    ensures told { OnOk result ((past : Before) → IsKept past hints.old → IsTold past held.old bytes.now hints.new held.new out.old.items out.new.items) }
    ensures few { number_of hints.new ≤ number_of hints.old + length bytes.now }
{
    for byte in bytes {
        take_byte(alloc, hints, held, *byte, out)?;
    }
    Ok(())
}

/// Takes the last line of a script, if it has a byte, and appends the hint of it, if it has one. `AllocError`: memory was
/// wanted and refused; part of the hint may have been appended, and nothing is kept of the script.
pub(crate) fn take_last(
    alloc: Global,
    hints: &mut LineHints,
    held: &mut HeldLine,
    out: &mut Vec<u8>,
) -> Result<(), AllocError>
    requires few { number_of hints.old < 2 ^ 60 }
    ensures told { OnOk result ((past : Before) → IsKept past hints.old → IsTold past held.old (ending held.old) hints.new [] out.old.items out.new.items) }
    ensures few { number_of hints.new ≤ number_of hints.old + 1 }
{
    if held.is_empty() {
        return Ok(());
    }
    end_line(alloc, hints, held, out)
}

/// Takes a byte of a script and appends the hint of the line that it completes, if it has one. `AllocError`: memory was
/// wanted and refused; part of the hint may have been appended, and nothing is kept of the script.
fn take_byte(
    alloc: Global,
    hints: &mut LineHints,
    held: &mut HeldLine,
    byte: u8,
    out: &mut Vec<u8>,
) -> Result<(), AllocError>
    requires few { number_of hints.old < 2 ^ 60 }
    ensures told { OnOk result ((past : Before) → IsKept past hints.old → IsTold past held.old (byte ∷ []) hints.new held.new out.old.items out.new.items) }
    ensures few { number_of hints.new ≤ number_of hints.old + 1 }
    ensures ended { OnOk result (byte ≡ 10 → held.new ≡ []) }
{
    if byte == b'\n' {
        return end_line(alloc, hints, held, out);
    }
    held.push(byte);
    Ok(())
}

/// Ends the line and appends its hint, if it has one. `AllocError`: as above. It is a function of its own, since what it makes anew
/// where memory is refused takes more room than a byte that ends no line should pay for.
fn end_line(
    alloc: Global,
    hints: &mut LineHints,
    held: &mut HeldLine,
    out: &mut Vec<u8>,
) -> Result<(), AllocError>
    requires few { number_of hints.old < 2 ^ 60 }
    ensures told { OnOk result ((past : Before) → IsKept past hints.old → IsTold past held.old (10 ∷ []) hints.new held.new out.old.items out.new.items) }
    ensures few { number_of hints.new ≤ number_of hints.old + 1 }
    ensures ended { OnOk result (held.new ≡ []) }
{
    match hints.push_hint(held.line(), out) {
        Ok(()) => {
            held.clear();
            Ok(())
        }
        Err(error) => {
            *hints = LineHints::new(alloc, Script::Loaded);
            Err(error)
        }
    }
}
