ghost use Rattle.std.specs.Prelude.{◌≡◌};
ghost use Rattle.mst_kinds.specs.Kinds.{first_of_refusal_line, parts_of_refusal_line};

use crate::mark::Mark;
use crate::part::{Part, parts};

/// A line that says what is refused.
#[derive(Clone, Copy)]
pub enum RefusalLine {
    /// `line N CODE TEXT`
    Line,
    /// `line N CODE TEXT`, with a hint
    Hinted,
    /// `old line N CODE TEXT`
    OldLine,
    /// `new line N CODE TEXT`
    NewLine,
    /// `explain CODE TEXT`
    Explain,
    /// `dot CODE TEXT`
    Dot,
    /// `policy N CODE TEXT`
    Policy,
    /// `change N CODE TEXT`
    Change,
    /// `advise CODE TEXT`
    Advise,
    /// `policy N CODE TEXT`, behind a step
    StepPolicy,
    /// `change N CODE TEXT`, behind a step
    StepChange,
    /// `path CODE TEXT`
    Path,
}

impl RefusalLine {
    /// The first word.
    pub fn first(self) -> Mark
        ensures { result ≡ first_of_refusal_line self }
    {
        match self {
            RefusalLine::Line => Mark::Line,
            RefusalLine::Hinted => Mark::Line,
            RefusalLine::OldLine => Mark::Old,
            RefusalLine::NewLine => Mark::New,
            RefusalLine::Explain => Mark::Explain,
            RefusalLine::Dot => Mark::Dot,
            RefusalLine::Policy => Mark::Policy,
            RefusalLine::Change => Mark::Change,
            RefusalLine::Advise => Mark::Advise,
            RefusalLine::StepPolicy => Mark::Policy,
            RefusalLine::StepChange => Mark::Change,
            RefusalLine::Path => Mark::Path,
        }
    }

    /// What stands behind it.
    pub fn parts(self) -> &'static [Part]
        ensures { result.now ≡ parts_of_refusal_line self }
    {
        match self {
            RefusalLine::Line => parts![Key Line, Key Error, Key Text],
            RefusalLine::Hinted => parts![Key Line, Key Error, Key Text, Above Hint],
            RefusalLine::OldLine => parts![Told Side Old, Mark Line, Key Line, Key Error, Key Text],
            RefusalLine::NewLine => parts![Told Side New, Mark Line, Key Line, Key Error, Key Text],
            RefusalLine::Explain => parts![Key Error, Key Text],
            RefusalLine::Dot => parts![Key Error, Key Text],
            RefusalLine::Policy => parts![Key Line, Key Error, Key Text],
            RefusalLine::Change => parts![Key Line, Key Error, Key Text],
            RefusalLine::Advise => parts![Key Error, Key Text],
            RefusalLine::StepPolicy => parts![Above Step, Key Line, Key Error, Key Text],
            RefusalLine::StepChange => parts![Above Step, Key Line, Key Error, Key Text],
            RefusalLine::Path => parts![Key Error, Key Text],
        }
    }
}
