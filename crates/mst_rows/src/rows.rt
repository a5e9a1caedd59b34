ghost use Rattle.std.specs.Prelude.{List, [], ◌∷◌, ◌++◌, OnOk, map};
ghost use Rattle.mst_rows.specs.Cells.{Cell};
ghost use Rattle.mst_rows.specs.Rows.{AreCells, Row, cell, row_of};

use crate::value::Value;
use mst_kinds::Kind;
use std::alloc::AllocError;

/// What rows are put into.
pub trait Rows {
    /// How it was first, how it is, and the rows that were put between.
    ghost grew: { Self → Self → List Row → Type 0 };

    /// Puts one row more. `AllocError`: memory was wanted and refused; part of the row may have been put.
    fn row(&mut self, kind: Kind, values: &[Value<'_>]) -> Result<(), AllocError>
        ensures { (first : Self) (rows : List Row) → grew first self.old rows → OnOk result (grew first self.new (rows ++ row_of kind (map cell values.now) ∷ [])) };
}

/// Puts a row: what a text calls with an array of its values. They are as many as the parts of the kind that take one, and each is
/// of its key's type.
///
/// ```text
/// let values = [Value::Number(u64::from(tree.value())), Value::Name(&bridge.name)];
/// put::<R>(Kind::Tree(TreeLine::BridgeOff), &values, out)
/// ```
///
/// A function that does so ensures of its printer, for any first and rows before, that it grew by its row. Over a loop of such calls the
/// invariant says the same of the elements so far (`proofs/Loops.antt`). Where the printer is a `Vec<u8>`, that is the text of the rows
/// behind what it had (`proofs/Printers.antt`).
pub fn put<R: Rows>(kind: Kind, values: &[Value<'_>], rows: &mut R) -> Result<(), AllocError>
    ensures { (first : R) (before : List Row) (cells : List Cell) → AreCells values.now cells → R.grew first rows.old before
        → OnOk result (R.grew first rows.new (before ++ row_of kind cells ∷ [])) }
{
    rows.row(kind, values)
}
