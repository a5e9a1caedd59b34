ghost use Rattle.std.specs.Prelude.{◌≡◌};
ghost use Rattle.mst_kinds.specs.Kinds.{first_of_note_line, parts_of_note_line};

use crate::mark::Mark;
use crate::part::{Part, parts};

/// A note.
#[derive(Clone, Copy)]
pub enum NoteLine {
    /// `note hops T B depth D limit H`
    Hops,
    /// `note age B depth D limit M`
    Age,
    /// `note cost T B ext C`
    ExternalCost,
    /// `note cost T B int C`
    InternalCost,
    /// `note restricted B P`
    Restricted,
}

impl NoteLine {
    /// The first word.
    pub fn first(self) -> Mark
        ensures { result ≡ first_of_note_line self }
    {
        match self {
            NoteLine::Hops => Mark::Note,
            NoteLine::Age => Mark::Note,
            NoteLine::ExternalCost => Mark::Note,
            NoteLine::InternalCost => Mark::Note,
            NoteLine::Restricted => Mark::Note,
        }
    }

    /// What stands behind it.
    pub fn parts(self) -> &'static [Part]
        ensures { result.now ≡ parts_of_note_line self }
    {
        match self {
            NoteLine::Hops =>
                parts![Said Note Hops, Key Tree, Key Bridge, Mark Depth, Key Depth, Mark Limit, Key Limit],
            NoteLine::Age =>
                parts![Said Note Age, Above Tree, Key Bridge, Mark Depth, Key Depth, Mark Limit, Key Limit],
            NoteLine::ExternalCost =>
                parts![Said Note Cost, Key Tree, Key Bridge, Mark Ext, Key Ext],
            NoteLine::InternalCost =>
                parts![Said Note Cost, Key Tree, Key Bridge, Mark Int, Key Int],
            NoteLine::Restricted => parts![Said Note Restricted, Key Bridge, Key Port],
        }
    }
}
