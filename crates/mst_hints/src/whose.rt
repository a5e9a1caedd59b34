ghost use Rattle.std.specs.Prelude.{◌≡◌};
ghost use Rattle.mst_hints.specs.Scripts.{is_run as asks_of, text_before};

/// What hints are of: a script, by what is done with it, or a policy.
#[derive(Clone, Copy, Debug, PartialEq, Eq)]
pub enum Script {
    /// One that is run: its queries are asked, and its marks are made.
    Run,
    /// One whose network alone is loaded: a query and a mark say nothing there, and none is refused.
    Loaded,
    /// The old one of two whose networks are compared. They are loaded alone, too.
    Old,
    /// The new one of the two.
    New,
    /// A policy, whose lines are none of a script: `mst_policy_hints` tells their hints, and not [`ScriptHints`](crate::ScriptHints).
    Policy,
    /// A change: a script whose edits are made in the network of another script, of which whoever tells its hints knows nothing. So
    /// it has the hints of lines that aren't read (E01 to E03), as a script of its version has them ([`push_hint`](crate::push_hint)),
    /// and none of edits that the network refuses (E04 on), nor of queries and marks, which say nothing in a change.
    Change,
}

impl Script {
    /// What stands before each hint.
    pub fn text_before(self) -> &'static [u8]
        ensures { result.now ≡ text_before self }
    {
        match self {
            Script::Run | Script::Loaded => b"",
            Script::Old => b"old ",
            Script::New => b"new ",
            Script::Policy => b"policy ",
            Script::Change => b"change ",
        }
    }

    /// Whether its queries are asked, and its marks made.
    pub(crate) fn is_run(self) -> bool
        ensures { result ≡ asks_of self }
    {
        matches!(self, Script::Run)
    }
}
