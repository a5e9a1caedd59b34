ghost use Rattle.std.specs.Prelude.{◌≡◌, ℕ, ◌≤◌, ◌++◌, ◌∷◌, [], List, decimal, length, ◌||◌};
ghost use Rattle.mst_ids.specs.Vids.{has, is_within, run_text, set_where};
ghost use Rattle.mst_edits.specs.Runs.{vids_of};

use itoa::Buffer;
use mst_ids::{Vid, VidSet};

/// How long the text of a run is.
pub(crate) fn run_length(run: (u16, u16)) -> usize
    requires greatest { run.1 ≤ 4094 }
    requires order { run.0 ≤ run.1 }
    ensures value { result ≡ length (run_text run) }
    ensures small { result ≤ 32 }
{
    let (first, last) = run;
    if first == last {
        return digits(first);
    }
    digits(first) + 1 + digits(last)
}

/// How many digits a number has.
pub(crate) fn digits(number: u16) -> usize
    ensures value { result ≡ length (decimal number) }
    ensures small { result ≤ 5 }
{
    let mut buffer = Buffer::new();
    buffer.format(number).len()
}

/// A set with the VIDs of one more run.
pub(crate) fn with_run(vids: &VidSet, run: (u16, u16)) -> VidSet
    requires least { 1 ≤ run.0 }
    requires order { run.0 ≤ run.1 }
    requires greatest { run.1 ≤ 4094 }
    ensures { (runs : List (ℕ × ℕ)) → vids.now ≡ vids_of runs → result ≡ vids_of (runs ++ run ∷ []) }
{
    let mut more = *vids;
    for number in run.0..run.1 + 1 {
        insert(number, &mut more);
    }
    more
}

/// Adds a VID to a set.
pub(crate) fn insert(number: u16, vids: &mut VidSet)
    requires least { 1 ≤ number }
    requires greatest { number ≤ 4094 }
    ensures { vids.new ≡ set_where (λ n. has vids.old n || is_within (number, number) n) }
{
    if let Some(vid) = Vid::new(u64::from(number)) {
        vids.insert(vid);
    }
}
