ghost use Rattle.std.specs.Prelude.{◌≡◌};
ghost use Rattle.mst_kinds.specs.Kinds.{first_of_vlan_line, parts_of_vlan_line};

use crate::mark::Mark;
use crate::part::{Part, parts};

/// A line of what VLANs reach.
#[derive(Clone, Copy)]
pub enum VlanLine {
    /// `vlan VIDS`
    Heading,
    /// `active B:P [B:P] ..`
    Active,
    /// `island bridges B .. lans L ..`
    Island,
}

impl VlanLine {
    /// The first word.
    pub fn first(self) -> Mark
        ensures { result ≡ first_of_vlan_line self }
    {
        match self {
            VlanLine::Heading => Mark::Vlan,
            VlanLine::Active => Mark::Active,
            VlanLine::Island => Mark::Island,
        }
    }

    /// What stands behind it.
    pub fn parts(self) -> &'static [Part]
        ensures { result.now ≡ parts_of_vlan_line self }
    {
        match self {
            VlanLine::Heading => parts![Key Vids],
            VlanLine::Active => parts![Above Vids, Key Active],
            VlanLine::Island => parts![Above Vids, Mark Bridges, Key Bridges, Mark Lans, Key Lans],
        }
    }
}
