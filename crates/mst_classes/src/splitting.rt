ghost use Rattle.std.specs.Prelude.{◌≡◌, ℕ, ◌+◌, ◌<◌, ◌≤◌, ◌⊎◌, false, length, slice_index, IfOk, IsTrue};
ghost use Rattle.mst_ids.specs.Vids.{has};
ghost use Rattle.mst_classes.specs.Alike.{IsSplit};
ghost use Rattle.mst_classes.specs.Splitting.{AreApart, IsKnown, IsFresh, IsReady, IsReadyFor};

use mst_ids::VidSet;
use std::alloc::{AllocError, Global};

/// Numbers for how many there is room.
pub(crate) const ROOM: usize = 16_384;

/// A number for each VID, while sets split those of one number.
#[derive(Drop)]
pub(crate) struct Splitting {
    // The number of each VID, 1 to 4094.
    pub(crate) numbers: Vec<usize>,
    // For each number the one that VIDs of a set got last in place of it.
    pub(crate) given: Vec<usize>,
    // The number that is given next: all that were given are less.
    pub(crate) next: usize,
}

impl Splitting {
    /// Begins with these numbers. `AllocError`: memory was wanted and refused.
    pub(crate) fn new(alloc: Global, numbers: Vec<usize>) -> Result<Splitting, AllocError>
        requires long { length numbers.items ≡ 4094 }
        requires small { (i : ℕ) → slice_index numbers.items i < 4096 }
        ensures ready { IfOk result IsReady }
        ensures numbers { IfOk result (λ s. s.numbers ≡ numbers) }
    {
        let given = vec![in alloc; 0; ROOM]?;
        Ok(Splitting {
            numbers,
            given,
            next: 4096,
        })
    }

    /// Begins with small numbers in place of these. `AllocError`: memory was wanted and refused.
    pub(crate) fn anew(alloc: Global, numbers: Vec<usize>) -> Result<Splitting, AllocError>
        requires long { length numbers.items ≡ 4094 }
        requires within { (i : ℕ) → slice_index numbers.items i < 16384 }
        ensures ready { IfOk result IsReady }
        ensures few { IfOk result (λ s. s.next ≤ 4095) }
        ensures split { IfOk result (λ s. (i j : ℕ) → i < 4094 → j < 4094 → slice_index s.numbers.items i ≡ slice_index s.numbers.items j → slice_index numbers.items i ≡ slice_index numbers.items j) }
    {
        let given = vec![in alloc; 0; ROOM]?;
        let mut splitting = Splitting {
            numbers,
            given,
            next: 1,
        };
        splitting.split_members(&VidSet::all());
        Ok(splitting)
    }

    /// The VIDs of the set that have one number get another one, and the others keep theirs. Whether each VID is seen to
    /// have a number of its own, so that no set tells more apart: it is looked for where numbers are made small again.
    pub(crate) fn split(&mut self, vids: &VidSet) -> bool
        requires { IsReady self.old }
        ensures ready { IsReady self.new }
        ensures split { IsSplit (has vids.now) self.old.numbers.items self.new.numbers.items }
        ensures apart { IsTrue result → AreApart self.new.numbers.items }
    {
        if self.next > ROOM - 4094 {
            self.renew();
            if self.are_apart() {
                return true;
            }
        }
        self.split_members(vids);
        false
    }

    /// Whether the numbers are 1 to 4094 in their order, as those of VIDs that are all told apart are once they are small
    /// again.
    fn are_apart(&self) -> bool
        requires { length self.now.numbers.items ≡ 4094 }
        ensures { IsTrue result → AreApart self.now.numbers.items }
    {
        for place in 0..4094 {
            if self.numbers[place] != place + 1 {
                return false;
            }
        }
        true
    }

    /// Numbers that are alike stay alike, and are small again.
    fn renew(&mut self)
        requires { IsReady self.old }
        ensures ready { IsReady self.new }
        ensures room { self.new.next ≤ 12290 }
        ensures split { (i j : ℕ) → i < 4094 → j < 4094 → slice_index self.new.numbers.items i ≡ slice_index self.new.numbers.items j → slice_index self.old.numbers.items i ≡ slice_index self.old.numbers.items j }
    {
        self.given.fill(0);
        self.next = 1;
        self.split_members(&VidSet::all());
    }

    /// The VIDs of the set that have one number get another one, and the others keep theirs. Only VIDs of the set may
    /// have numbers from the next on.
    fn split_members(&mut self, vids: &VidSet)
        requires { IsReadyFor vids.now self.old }
        ensures ready { IsReady self.new }
        ensures few { self.new.next ≤ self.old.next + 4094 }
        ensures split { IsSplit (has vids.now) self.old.numbers.items self.new.numbers.items }
    {
        let start = self.next;
        for block in 0..64u16 {
            if !vids.misses(block) {
                let first = (block * 64).max(1);
                let end = (block * 64 + 64).min(4095);
                for vid in first..end {
                    if vids.contains(vid) {
                        self.give(usize::from(vid) - 1, start);
                    }
                }
            }
        }
    }

    /// Gives the VID at a place the number that VIDs of its number get: the one that was given, if that is no less than
    /// the start, else the next.
    fn give(&mut self, place: usize, start: usize)
        requires place { place < length self.old.numbers.items }
        requires number { slice_index self.old.numbers.items place < length self.old.given.items }
        requires room { self.old.next ≤ 16384 }
        ensures { IsKnown place start self.old self.new ⊎ IsFresh place start self.old self.new }
    {
        let number = self.numbers[place];
        let given = self.given[number];
        if given >= start {
            self.numbers[place] = given;
            return;
        }
        self.given[number] = self.next;
        self.numbers[place] = self.next;
        self.next += 1;
    }
}
