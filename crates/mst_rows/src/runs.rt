ghost use Rattle.std.specs.Prelude.{◌≡◌, ◌++◌, false, OnOk, map};
ghost use Rattle.mst_ids.specs.Vids.{runs_from};
ghost use Rattle.mst_rows.specs.Answers.{array_text, joined, run_json};

use crate::answer::push_comma;
use mst_ids::{VidSet, push_bytes, push_decimal};
use std::alloc::AllocError;

/// Appends an array of the longest runs of VIDs, each an array of its first and its last.
pub(crate) fn push_runs(vids: &VidSet, out: &mut Vec<u8>) -> Result<(), AllocError>
    ensures { OnOk result (out.new.items ≡ out.old.items ++ array_text (map run_json (runs_from 0 vids.now))) }
{
    push_bytes(b"[", out)?;
    push_each(vids, out)?;
    push_bytes(b"]", out)
}

fn push_each(vids: &VidSet, out: &mut Vec<u8>) -> Result<(), AllocError>
    ensures { OnOk result (out.new.items ≡ out.old.items ++ joined false (map run_json (runs_from 0 vids.now))) }
{
    let mut follows = false;
    let mut next = 0;
    while let Some((first, last)) = vids.run_from(next) {
        push_comma(follows, out)?;
        push_run(u64::from(first), u64::from(last), out)?;
        follows = true;
        next = last + 1;
    }
    Ok(())
}

/// Appends an array of a first number and a last one.
pub(crate) fn push_run(first: u64, last: u64, out: &mut Vec<u8>) -> Result<(), AllocError>
    ensures { OnOk result (out.new.items ≡ out.old.items ++ run_json (first, last)) }
{
    push_bytes(b"[", out)?;
    push_decimal(first, out)?;
    push_bytes(b",", out)?;
    push_decimal(last, out)?;
    push_bytes(b"]", out)
}
