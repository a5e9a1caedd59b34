ghost use Rattle.std.specs.Prelude.{◌≡◌, ◌+◌, ◌<◌, ◌^◌, ◌++◌, OnOk};
ghost use Rattle.mst_hinting.specs.Kept.{IsKept, number_of};
ghost use Rattle.mst_hinting.specs.Lines.{Before, nothing, past_after, hint_after};

use crate::change::ChangeHints;
use crate::policy::PolicyHints;
use mst_hints::{Script, ScriptHints};
use std::alloc::{AllocError, Global};

/// Tells what would be right in the lines of a script, of a policy or of a change, one after another.
#[derive(Drop)]
pub(crate) enum LineHints {
    Script(ScriptHints),
    Policy(PolicyHints),
    Change(ChangeHints),
}

impl LineHints {
    /// Before the first line of what this is. It takes no memory.
    pub(crate) fn new(alloc: Global, of: Script) -> LineHints
        ensures { IsKept (nothing of) result }
    {
        match of {
            Script::Run | Script::Loaded | Script::Old | Script::New => {
                LineHints::Script(ScriptHints::new(alloc, of))
            }
            Script::Policy => LineHints::Policy(PolicyHints::new()),
            Script::Change => LineHints::Change(ChangeHints::new()),
        }
    }

    /// Takes the next line, without its end, and appends the hint of it, if it has one. `AllocError`: memory was wanted and
    /// refused; part of the hint may have been appended, and what is appended of later lines is not told.
    pub(crate) fn push_hint(&mut self, line: &[u8], out: &mut Vec<u8>) -> Result<(), AllocError>
        requires few { number_of self.old < 2 ^ 60 }
        ensures kept { OnOk result ((past : Before) → IsKept past self.old → IsKept (past_after past line.now) self.new) }
        ensures number { OnOk result (number_of self.new ≡ number_of self.old + 1) }
        ensures text { OnOk result ((past : Before) → IsKept past self.old → out.new.items ≡ out.old.items ++ hint_after past line.now) }
    {
        match self {
            LineHints::Script(hints) => hints.push_hint(line, out),
            LineHints::Policy(hints) => hints.push_hint(line, out),
            LineHints::Change(hints) => hints.push_hint(line, out),
        }
    }
}
