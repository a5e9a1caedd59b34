ghost use Rattle.std.specs.Prelude.{◌≡◌};
ghost use Rattle.mst_kinds.specs.Kinds.{first_of_query, parts_of_query};

use crate::mark::Mark;
use crate::part::{Part, parts};

/// A query, with its words.
#[derive(Clone, Copy)]
pub enum Query {
    /// `showtree T`
    ShowTree,
    /// `showplan`
    ShowPlan,
    /// `showvlan V`
    ShowVlan,
    /// `showlag`
    ShowLag,
    /// `showregions`
    ShowRegions,
    /// `showmstconfid B`
    ShowMstconfid,
    /// `shownotes`
    ShowNotes,
    /// `changes`
    Changes,
    /// `save`
    Save,
    /// `explain B P`
    Explain,
    /// `explain B P TREE`
    ExplainIn,
    /// `diff`
    Diff,
    /// `sweep`
    Sweep,
    /// `sweep K/N`
    SweepPart,
    /// `sweep pairs`
    SweepPairs,
    /// `sweep risks`
    SweepRisks,
    /// `sweep pairs K/N`
    SweepPairsPart,
    /// `summary`
    Summary,
    /// `check`
    Check,
    /// `verify`
    Verify,
    /// `steps`
    Steps,
    /// `edits`
    Edits,
    /// `advise root T B`
    AdviseRoot,
    /// `advise forward T B P`
    AdviseForward,
    /// `digest`
    Digest,
    /// `path VID A B`
    Path,
    /// `path VID A B always`
    PathAlways,
}

impl Query {
    /// The first word.
    pub fn first(self) -> Mark
        ensures { result ≡ first_of_query self }
    {
        match self {
            Query::ShowTree => Mark::ShowTree,
            Query::ShowPlan => Mark::ShowPlan,
            Query::ShowVlan => Mark::ShowVlan,
            Query::ShowLag => Mark::ShowLag,
            Query::ShowRegions => Mark::ShowRegions,
            Query::ShowMstconfid => Mark::ShowMstconfid,
            Query::ShowNotes => Mark::ShowNotes,
            Query::Changes => Mark::Changes,
            Query::Save => Mark::Save,
            Query::Explain => Mark::Explain,
            Query::ExplainIn => Mark::Explain,
            Query::Diff => Mark::Diff,
            Query::Sweep => Mark::Sweep,
            Query::SweepPart => Mark::Sweep,
            Query::SweepPairs => Mark::Sweep,
            Query::SweepRisks => Mark::Sweep,
            Query::SweepPairsPart => Mark::Sweep,
            Query::Summary => Mark::Summary,
            Query::Check => Mark::Check,
            Query::Verify => Mark::Verify,
            Query::Steps => Mark::Steps,
            Query::Edits => Mark::Edits,
            Query::AdviseRoot => Mark::Advise,
            Query::AdviseForward => Mark::Advise,
            Query::Digest => Mark::Digest,
            Query::Path => Mark::Path,
            Query::PathAlways => Mark::Path,
        }
    }

    /// What stands behind it.
    pub fn parts(self) -> &'static [Part]
        ensures { result.now ≡ parts_of_query self }
    {
        match self {
            Query::ShowTree => parts![Key Tree],
            Query::ShowPlan => parts![],
            Query::ShowVlan => parts![Key Vid],
            Query::ShowLag => parts![],
            Query::ShowRegions => parts![],
            Query::ShowMstconfid => parts![Key Bridge],
            Query::ShowNotes => parts![],
            Query::Changes => parts![],
            Query::Save => parts![],
            Query::Explain => parts![Key Bridge, Key Port],
            Query::ExplainIn => parts![Key Bridge, Key Port, Key Tree],
            Query::Diff => parts![],
            Query::Sweep => parts![],
            Query::SweepPart => parts![Key Part, Key PartCount],
            Query::SweepPairs => parts![Said Of Pairs],
            Query::SweepRisks => parts![Said Of Risks],
            Query::SweepPairsPart => parts![Said Of Pairs, Key Part, Key PartCount],
            Query::Summary => parts![],
            Query::Check => parts![],
            Query::Verify => parts![],
            Query::Steps => parts![],
            Query::Edits => parts![],
            Query::AdviseRoot => parts![Said Goal Root, Key Tree, Key Bridge],
            Query::AdviseForward => parts![Said Goal Forward, Key Tree, Key Bridge, Key Port],
            Query::Digest => parts![],
            Query::Path => parts![Key Vid, Key From, Key To],
            Query::PathAlways => parts![Key Vid, Key From, Key To, Said Scope Always],
        }
    }
}
