ghost use Rattle.std.specs.Prelude.{◌≡◌};
ghost use Rattle.mst_kinds.specs.Kinds.{first_of_change_line, parts_of_change_line};

use crate::mark::Mark;
use crate::part::{Part, parts};

/// A line of how two networks differ.
#[derive(Clone, Copy)]
pub enum ChangeLine {
    /// `bridge T B V -> V`
    Bridge,
    /// `port T B P ROLE -> ROLE`
    Port,
    /// `region B NAME REV FIRST -> NAME REV FIRST`
    Region,
    /// `root T B -> B`
    Root,
    /// `reach VIDS B,.. .. -> B,.. ..`
    Reach,
    /// `diff regions N roots N ports N vlans N`
    Counts,
}

impl ChangeLine {
    /// The first word.
    pub fn first(self) -> Mark
        ensures { result ≡ first_of_change_line self }
    {
        match self {
            ChangeLine::Bridge => Mark::Bridge,
            ChangeLine::Port => Mark::Port,
            ChangeLine::Region => Mark::Region,
            ChangeLine::Root => Mark::Root,
            ChangeLine::Reach => Mark::Reach,
            ChangeLine::Counts => Mark::Diff,
        }
    }

    /// What stands behind it.
    pub fn parts(self) -> &'static [Part]
        ensures { result.now ≡ parts_of_change_line self }
    {
        match self {
            ChangeLine::Bridge =>
                parts![Key Tree, Key Bridge, Key OldVector, Mark Arrow, Key NewVector],
            ChangeLine::Port =>
                parts![Key Tree, Key Bridge, Key Port, Key OldRole, Mark Arrow, Key NewRole],
            ChangeLine::Region => parts![Key Bridge, Key OldRegion, Mark Arrow, Key NewRegion],
            ChangeLine::Root => parts![Key Tree, Key OldRoot, Mark Arrow, Key NewRoot],
            ChangeLine::Reach => parts![Key Vids, Key OldIslands, Mark Arrow, Key NewIslands],
            ChangeLine::Counts =>
                parts![Mark Regions, Key RegionCount, Mark Roots, Key RootCount, Mark Ports, Key PortCount, Mark Vlans, Key VlanCount],
        }
    }
}
