ghost use Rattle.std.specs.Prelude.{◌≡◌};
ghost use Rattle.mst_kinds.specs.Kinds.{first_of_region_line, parts_of_region_line};

use crate::mark::Mark;
use crate::part::{Part, parts};

/// A line of regions, of an MST configuration or of a class of links.
#[derive(Clone, Copy)]
pub enum RegionLine {
    /// `region mstp CNAME REV DIGEST bridges B ..`
    Mstp,
    /// `region rstp bridges B`
    Rstp,
    /// `mstconfid B name CNAME revision REV digest DIGEST`
    Configuration,
    /// `msti T vids VIDS`
    Msti,
    /// `lag LAN LAGID speed S up L,.. lans L,.. ports B:P,..`
    Lag,
}

impl RegionLine {
    /// The first word.
    pub fn first(self) -> Mark
        ensures { result ≡ first_of_region_line self }
    {
        match self {
            RegionLine::Mstp => Mark::Region,
            RegionLine::Rstp => Mark::Region,
            RegionLine::Configuration => Mark::Mstconfid,
            RegionLine::Msti => Mark::Msti,
            RegionLine::Lag => Mark::Lag,
        }
    }

    /// What stands behind it.
    pub fn parts(self) -> &'static [Part]
        ensures { result.now ≡ parts_of_region_line self }
    {
        match self {
            RegionLine::Mstp =>
                parts![Above Region, Said RegionKind Mstp, Key Name, Key Revision, Key Digest, Mark Bridges, Key Bridges],
            RegionLine::Rstp =>
                parts![Above Region, Said RegionKind Rstp, Mark Bridges, Key Bridges],
            RegionLine::Configuration =>
                parts![Key Bridge, Mark Name, Key Name, Mark Revision, Key Revision, Mark Digest, Key Digest],
            RegionLine::Msti => parts![Above Bridge, Key Tree, Mark Vids, Key Vids],
            RegionLine::Lag =>
                parts![Key Lan, Key LagId, Mark Speed, Key Speed, Mark Up, Commas Up, Mark Lans, Commas Lans, Mark Ports, Commas Ports],
        }
    }
}
