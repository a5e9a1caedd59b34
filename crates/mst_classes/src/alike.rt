ghost use Rattle.std.specs.Prelude.{◌≡◌, ℕ, ◌<◌, [], IfOk, length, slice_index};
ghost use Rattle.mst_classes.specs.Alike.{TellApart, SplitBySets};

use crate::by_table::split_by_table;
use crate::splitting::Splitting;
use indexmap::IndexSet;
use mst_ids::VidSet;
use mst_tables::Table;
use std::alloc::{AllocError, Global};

/// A number for each of the VIDs 1 to 4094. Two of one number have one tree in each of these tables and are in the same
/// of these sets. `AllocError`: memory was wanted and refused.
///
/// Each table takes a step for each VID, and each set one for each of its VIDs and of 64 blocks. One that is given again
/// takes no more than to find it.
pub(crate) fn numbers_of_vids(
    alloc: Global,
    tables: &[Table],
    sets: &[VidSet],
) -> Result<Vec<usize>, AllocError>
    ensures { IfOk result (λ numbers. TellApart tables.now sets.now numbers.items) }
{
    let numbers = split_by_tables(alloc, tables)?;
    split_by_sets(alloc, numbers, sets)
}

/// A number for each VID. Two of one number have one tree in each of these tables.
fn split_by_tables(alloc: Global, tables: &[Table]) -> Result<Vec<usize>, AllocError>
    ensures told { IfOk result (λ numbers. TellApart tables.now [] numbers.items) }
    ensures small { IfOk result (λ numbers. (i : ℕ) → slice_index numbers.items i < 4096) }
{
    let mut numbers = zeros(alloc)?;
    for table in tables {
        numbers = split_by_table(alloc, numbers.as_slice(), table)?;
    }
    Ok(numbers)
}

/// The number 0 for each VID.
fn zeros(alloc: Global) -> Result<Vec<usize>, AllocError>
    ensures long { IfOk result (λ numbers. length numbers.items ≡ 4094) }
    ensures zeros { IfOk result (λ numbers. (i : ℕ) → slice_index numbers.items i < 4096) }
{
    vec![in alloc; 0; 4094]
}

/// A number for each VID. Two of one number had one number, and are in the same of these sets.
fn split_by_sets(
    alloc: Global,
    numbers: Vec<usize>,
    sets: &[VidSet],
) -> Result<Vec<usize>, AllocError>
    requires long { length numbers.items ≡ 4094 }
    requires small { (i : ℕ) → slice_index numbers.items i < 4096 }
    ensures { IfOk result (λ split. SplitBySets sets.now numbers.items split.items) }
{
    let mut splitting = Splitting::new(alloc, numbers)?;
    let mut met = IndexSet::new(alloc);
    for set in sets {
        if met.insert(*set)? {
            if splitting.split(set) {
                return Ok(splitting.numbers);
            }
        }
    }
    Ok(splitting.numbers)
}
