ghost use Rattle.std.specs.Prelude.{◌≡◌};
ghost use Rattle.mst_kinds.specs.Kinds.{first_of_summary_line, parts_of_summary_line};

use crate::mark::Mark;
use crate::part::{Part, parts};

/// A line of a summary.
#[derive(Clone, Copy)]
pub enum SummaryLine {
    /// `bridges N on N ports N enabled N regions N trees N`
    Counts,
    /// `tree T root B PRIO of N next B PRIO`
    Root,
    /// `tree T root B PRIO of N next -`
    RootAlone,
    /// `blocked T B:P,..`
    Blocked,
    /// `vlan VIDS islands N`
    Vlan,
    /// `carries LAN VIDS`
    Carries,
    /// `carries * L,..`
    CarriesAll,
    /// `look region CNAME B,.. CNAME B,..`
    LookRegion,
    /// `look region NAME REV B table without VIDS`
    LookTable,
    /// `look lan L speed S next S`
    LookLan,
    /// `look vlans B:P VIDS C:Q VIDS`
    LookVlans,
    /// `digest DIGEST`, of the network
    Digest,
}

impl SummaryLine {
    /// The first word.
    pub fn first(self) -> Mark
        ensures { result ≡ first_of_summary_line self }
    {
        match self {
            SummaryLine::Counts => Mark::Bridges,
            SummaryLine::Root => Mark::Tree,
            SummaryLine::RootAlone => Mark::Tree,
            SummaryLine::Blocked => Mark::Blocked,
            SummaryLine::Vlan => Mark::Vlan,
            SummaryLine::Carries => Mark::Carries,
            SummaryLine::CarriesAll => Mark::Carries,
            SummaryLine::LookRegion => Mark::Look,
            SummaryLine::LookTable => Mark::Look,
            SummaryLine::LookLan => Mark::Look,
            SummaryLine::LookVlans => Mark::Look,
            SummaryLine::Digest => Mark::Digest,
        }
    }

    /// What stands behind it.
    pub fn parts(self) -> &'static [Part]
        ensures { result.now ≡ parts_of_summary_line self }
    {
        match self {
            SummaryLine::Counts =>
                parts![Key BridgeCount, Mark On, Key OnCount, Mark Ports, Key PortCount, Mark Enabled, Key EnabledCount, Mark Regions, Key RegionCount, Mark Trees, Key TreeCount],
            SummaryLine::Root =>
                parts![Key Tree, Mark Root, Key Root, Key Priority, Mark Of, Key BridgeCount, Mark Next, Key Next, Key NextPriority],
            SummaryLine::RootAlone =>
                parts![Key Tree, Mark Root, Key Root, Key Priority, Mark Of, Key BridgeCount, Mark Next, Key Next],
            SummaryLine::Blocked => parts![Key Tree, Commas Ports],
            SummaryLine::Vlan => parts![Key Vids, Mark Islands, Key IslandCount],
            SummaryLine::Carries => parts![Key Lan, Key Vids],
            SummaryLine::CarriesAll => parts![Mark Every, Commas Lans],
            SummaryLine::LookRegion =>
                parts![Said Look Region, Key Name, Commas Bridges, Key OtherName, Commas OtherBridges],
            SummaryLine::LookTable =>
                parts![Said Look Region, Key Name, Key Revision, Key Bridge, Mark Table, Mark Without, Key Vids],
            SummaryLine::LookLan =>
                parts![Said Look Lan, Key Lan, Mark Speed, Key Speed, Mark Next, Key NextSpeed],
            SummaryLine::LookVlans =>
                parts![Said Look Vlans, Port, Key Vids, Key OtherPort, Key OtherVids],
            SummaryLine::Digest => parts![Key Digest],
        }
    }
}
