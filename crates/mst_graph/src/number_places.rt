ghost use Rattle.std.specs.Prelude.{◌≡◌, ◌≤◌, ◌<◌, ◌^◌, ℕ, EachIndex, IfOk, true, length, nat_eq, slice_index};
ghost use Rattle.std.specs.List.{list_any, position_or_len};
ghost use Rattle.mst_graph.specs.Places.{placed};

use indexmap::IndexSet;
use std::alloc::{AllocError, Global};

/// Places for numbers.
pub(crate) enum NumberPlaces {
    /// All numbers up to a greatest one, each at its own place.
    UpTo(u32),
    /// Numbers that are far between, in the order in which they come first.
    Listed(IndexSet<usize>),
}

// By hand, as a set's.
impl Drop for NumberPlaces {
    fn drop(self) {
        match self {
            NumberPlaces::UpTo(_) => {}
            NumberPlaces::Listed(_) => {}
        }
    }
}

/// The greatest of some numbers, or 0 where there is none.
fn greatest(numbers: &[usize]) -> usize
    ensures { EachIndex numbers.now (λ k. slice_index numbers.now k ≤ result) }
{
    let mut greatest = 0;
    for number in numbers {
        greatest = greatest.max(*number);
    }
    greatest
}

/// The set of the numbers, in the order in which they come first.
fn set_of(alloc: Global, numbers: &[usize]) -> Result<IndexSet<usize>, AllocError>
    ensures { IfOk result (λ set. (n : ℕ) → list_any (nat_eq n) numbers.now ≡ true → list_any (nat_eq n) set.keys ≡ true) }
{
    let mut set = IndexSet::new(alloc);
    for number in numbers {
        set.insert(*number)?;
    }
    Ok(set)
}

impl NumberPlaces {
    /// Gives each of some numbers a place. Where they are close together, so that the greatest is at most about four
    /// times as many as they are, each number up to it has one, and none is looked up.
    pub(crate) fn new(alloc: Global, numbers: &[usize]) -> Result<NumberPlaces, AllocError>
        ensures { IfOk result (λ s. (n : ℕ) → list_any (nat_eq n) numbers.now ≡ true → list_any (nat_eq n) (placed s) ≡ true) }
    {
        let greatest = greatest(numbers);
        match u32::try_from(greatest) {
            Ok(up_to) if greatest / 4 <= numbers.len() => Ok(NumberPlaces::UpTo(up_to)),
            _ => Ok(NumberPlaces::Listed(set_of(alloc, numbers)?)),
        }
    }

    /// How many places there are.
    pub(crate) fn len(&self) -> usize
        ensures len { result ≡ length (placed self.now) }
        ensures small { result < 2 ^ 63 }
    {
        match self {
            NumberPlaces::UpTo(greatest) => *greatest as usize + 1,
            NumberPlaces::Listed(set) => set.len(),
        }
    }

    /// The place of a number, or how many places there are where it has none.
    pub(crate) fn place(&self, number: usize) -> usize
        ensures place { result ≡ position_or_len (nat_eq number) (placed self.now) }
        ensures small { result < 2 ^ 63 }
    {
        match self {
            NumberPlaces::UpTo(greatest) => number.min(*greatest as usize + 1),
            NumberPlaces::Listed(set) => {
                let len = set.len();
                set.get_index_of(&number).unwrap_or(len)
            }
        }
    }
}
