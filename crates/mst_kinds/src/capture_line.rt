ghost use Rattle.std.specs.Prelude.{◌≡◌};
ghost use Rattle.mst_kinds.specs.Kinds.{first_of_capture_line, parts_of_capture_line};

use crate::mark::Mark;
use crate::part::{Part, parts};

/// A line of what a capture has.
#[derive(Clone, Copy)]
pub enum CaptureLine {
    /// `capture N B:P agrees`
    Agrees,
    /// `capture N B:P FIELD plan X capture Y`, of a number
    Number,
    /// `capture N B:P FIELD plan X capture Y`, of an identifier, a name or a digest
    Text,
    /// `capture N B:P msti T FIELD plan X capture Y`, of a number
    MstiNumber,
    /// `capture N B:P msti T FIELD plan X capture Y`, of an identifier
    MstiText,
    /// `capture N B:P msti T unplanned`
    Unplanned,
    /// `capture N B:P msti T repeated`
    Repeated,
    /// `capture N B:P msti T missing`
    Missing,
    /// `capture N CODE TEXT`
    Unread,
    /// `check captures N agree M`
    Counts,
}

impl CaptureLine {
    /// The first word.
    pub fn first(self) -> Mark
        ensures { result ≡ first_of_capture_line self }
    {
        match self {
            CaptureLine::Agrees => Mark::Capture,
            CaptureLine::Number => Mark::Capture,
            CaptureLine::Text => Mark::Capture,
            CaptureLine::MstiNumber => Mark::Capture,
            CaptureLine::MstiText => Mark::Capture,
            CaptureLine::Unplanned => Mark::Capture,
            CaptureLine::Repeated => Mark::Capture,
            CaptureLine::Missing => Mark::Capture,
            CaptureLine::Unread => Mark::Capture,
            CaptureLine::Counts => Mark::Check,
        }
    }

    /// What stands behind it.
    pub fn parts(self) -> &'static [Part]
        ensures { result.now ≡ parts_of_capture_line self }
    {
        match self {
            CaptureLine::Agrees => parts![Key Line, Port, Said Result Agrees],
            CaptureLine::Number =>
                parts![Key Line, Port, Told TreeKind Cist, Above Tree, Key Field, Mark Plan, Key Plan, Mark Capture, Key Captured],
            CaptureLine::Text =>
                parts![Key Line, Port, Told TreeKind Cist, Above Tree, Key Field, Mark Plan, Key PlanText, Mark Capture, Key CapturedText],
            CaptureLine::MstiNumber =>
                parts![Key Line, Port, Said TreeKind Msti, Key Tree, Key Field, Mark Plan, Key Plan, Mark Capture, Key Captured],
            CaptureLine::MstiText =>
                parts![Key Line, Port, Said TreeKind Msti, Key Tree, Key Field, Mark Plan, Key PlanText, Mark Capture, Key CapturedText],
            CaptureLine::Unplanned =>
                parts![Key Line, Port, Said TreeKind Msti, Key Tree, Said Result Unplanned],
            CaptureLine::Repeated =>
                parts![Key Line, Port, Said TreeKind Msti, Key Tree, Said Result Repeated],
            CaptureLine::Missing =>
                parts![Key Line, Port, Said TreeKind Msti, Key Tree, Said Result Missing],
            CaptureLine::Unread => parts![Key Line, Key Error, Key Text],
            CaptureLine::Counts =>
                parts![Mark Captures, Key CaptureCount, Mark Agree, Key AgreeCount],
        }
    }
}
