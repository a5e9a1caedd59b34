ghost use Rattle.std.specs.Prelude.{◌≡◌, ◌+◌, ◌<◌, ◌^◌, ◌++◌, OnOk};
ghost use Rattle.mst_hints.specs.Hints.{hint_line};
ghost use Rattle.mst_hints.specs.Scripts.{text_before};
ghost use Rattle.mst_policy_hints.specs.Hints.{hint_of};

use mst_hints::Script;
use mst_policy_hints::push_hint;
use std::alloc::AllocError;

/// Tells what would be right in the lines of a policy, one after another.
#[derive(Drop)]
pub(crate) struct PolicyHints {
    /// The number of the next line, from 1.
    pub(crate) number: u64,
}

impl PolicyHints {
    /// Before the first line.
    pub(crate) fn new() -> PolicyHints
        ensures { result.number ≡ 1 }
    {
        PolicyHints { number: 1 }
    }

    /// Takes the next line, without its end, and appends the hint of it, if it has one. `AllocError`: memory was wanted and
    /// refused; part of the hint may have been appended, and what is appended of later lines is not told.
    pub(crate) fn push_hint(&mut self, line: &[u8], out: &mut Vec<u8>) -> Result<(), AllocError>
        requires few { self.old.number < 2 ^ 60 }
        ensures number { OnOk result (self.new.number ≡ self.old.number + 1) }
        ensures text { OnOk result (out.new.items ≡ out.old.items ++ hint_line (text_before Script.Policy) self.old.number (hint_of line.now)) }
    {
        push_hint(Script::Policy.text_before(), self.number, line, out)?;
        self.number += 1;
        Ok(())
    }
}
