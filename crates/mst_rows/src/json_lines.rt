ghost use Rattle.std.specs.Prelude.{◌≡◌, ◌++◌, OnOk};
ghost use Rattle.std.specs.List.{flat_map};
ghost use Rattle.mst_rows.specs.Answers.{record_line};

use crate::answer::push_record;
use crate::rows::Rows;
use crate::value::Value;
use mst_ids::push_end;
use mst_kinds::Kind;
use std::alloc::AllocError;

/// Records, each an object of JSON on a line of its own, behind what is written yet.
#[derive(Drop)]
pub struct JsonLines {
    /// What is written yet.
    pub out: Vec<u8>,
}

impl Rows for JsonLines {
    ghost grew = { λ first now rows. now.out.items ≡ first.out.items ++ flat_map record_line rows };

    fn row(&mut self, kind: Kind, values: &[Value<'_>]) -> Result<(), AllocError> {
        push_record(kind, values, &mut self.out)?;
        push_end(&mut self.out)
    }
}
