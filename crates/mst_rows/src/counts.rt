ghost use Rattle.std.specs.Prelude.{◌≡◌, ◌+◌, min, length};

use crate::rows::Rows;
use crate::value::Value;
use mst_kinds::Kind;
use std::alloc::AllocError;

/// How many rows there are, to the greatest number of 64 bits: it prints nothing.
#[derive(Clone, Copy)]
pub struct Counts {
    pub rows: u64,
}

impl Rows for Counts {
    ghost use Rattle.std.specs.Prelude.{◌≡◌, ◌+◌, min, length};

    ghost grew = { λ first now rows. now.rows ≡ min (first.rows + length rows) 18446744073709551615 };

    fn row(&mut self, _kind: Kind, _values: &[Value<'_>]) -> Result<(), AllocError> {
        self.rows = self.rows.saturating_add(1);
        Ok(())
    }
}
