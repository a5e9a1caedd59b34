ghost use Rattle.std.specs.Prelude.{◌≡◌};
ghost use Rattle.mst_kinds.specs.Kinds.{first_of_ask_line, parts_of_ask_line};

use crate::mark::Mark;
use crate::part::{Part, parts};

/// A line of a standing planner, beside those of its answers.
#[derive(Clone, Copy)]
pub enum AskLine {
    /// `undone LINE`
    Undone,
    /// `done STATUS`
    Done,
}

impl AskLine {
    /// The first word.
    pub fn first(self) -> Mark
        ensures { result ≡ first_of_ask_line self }
    {
        match self {
            AskLine::Undone => Mark::Undone,
            AskLine::Done => Mark::Done,
        }
    }

    /// What stands behind it.
    pub fn parts(self) -> &'static [Part]
        ensures { result.now ≡ parts_of_ask_line self }
    {
        match self {
            AskLine::Undone => parts![Key Text],
            AskLine::Done => parts![Key Status],
        }
    }
}
