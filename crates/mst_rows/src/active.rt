ghost use Rattle.std.specs.Prelude.{◌≡◌, ◌++◌, OnOk};
ghost use Rattle.mst_rows.specs.Lines.{active_text};

use crate::value::ActivePort;
use mst_ids::{Word, push_bytes};
use std::alloc::AllocError;

impl Word for ActivePort {
    ghost word = { active_text };

    fn push(&self, out: &mut Vec<u8>) -> Result<(), AllocError> {
        if self.is_member {
            return self.port.push_text(out);
        }
        push_bytes(b"[", out)?;
        self.port.push_text(out)?;
        push_bytes(b"]", out)
    }
}
