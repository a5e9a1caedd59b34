ghost use Rattle.std.specs.Prelude.{◌≡◌};
ghost use Rattle.mst_kinds.specs.Kinds.{first_of_path_line, parts_of_path_line};

use crate::mark::Mark;
use crate::part::{Part, parts};

/// A line of the path between two bridges.
#[derive(Clone, Copy)]
pub enum PathLine {
    /// `path VID A B hops N`
    Path,
    /// `path VID A B none`
    None,
    /// `hop K B:P L C:Q`
    Hop,
    /// `lan L hops N by A,..,B`
    Lan,
    /// `bridge B hops N by A,..,B`
    Bridge,
    /// `lan L none`
    NoneByLan,
    /// `bridge B none`
    NoneByBridge,
    /// `path failures N other N none N`
    Counts,
}

impl PathLine {
    /// The first word.
    pub fn first(self) -> Mark
        ensures { result ≡ first_of_path_line self }
    {
        match self {
            PathLine::Path => Mark::Path,
            PathLine::None => Mark::Path,
            PathLine::Hop => Mark::Hop,
            PathLine::Lan => Mark::Lan,
            PathLine::Bridge => Mark::Bridge,
            PathLine::NoneByLan => Mark::Lan,
            PathLine::NoneByBridge => Mark::Bridge,
            PathLine::Counts => Mark::Path,
        }
    }

    /// What stands behind it.
    pub fn parts(self) -> &'static [Part]
        ensures { result.now ≡ parts_of_path_line self }
    {
        match self {
            PathLine::Path => parts![Key Vid, Key From, Key To, Mark Hops, Key HopCount],
            PathLine::None => parts![Key Vid, Key From, Key To, Said Result None],
            PathLine::Hop =>
                parts![Above Vid, Above From, Above To, Key Hop, Port, Key Lan, Key OtherPort],
            PathLine::Lan =>
                parts![Above Vid, Above From, Above To, Above Failure, Key Lan, Mark Hops, Key HopCount, Mark By, Commas Bridges],
            PathLine::Bridge =>
                parts![Above Vid, Above From, Above To, Above Failure, Key Bridge, Mark Hops, Key HopCount, Mark By, Commas Bridges],
            PathLine::NoneByLan =>
                parts![Above Vid, Above From, Above To, Above Failure, Key Lan, Said Result None],
            PathLine::NoneByBridge =>
                parts![Above Vid, Above From, Above To, Above Failure, Key Bridge, Said Result None],
            PathLine::Counts =>
                parts![Above Vid, Above From, Above To, Mark Failures, Key FailureCount, Mark Other, Key OtherCount, Mark None, Key NoneCount],
        }
    }
}
