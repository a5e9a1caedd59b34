ghost use Rattle.std.specs.Prelude.{◌≡◌, ◌+◌, ◌<◌, OnOk, IfOk, length, map, nat_eq, true};
ghost use Rattle.std.specs.List.{All};
ghost use Rattle.mst_graph.specs.Groups.{AreGroups};
ghost use Rattle.mst_graph.specs.Islands.{members, nodes};
ghost use Rattle.mst_graph.specs.Labels.{AreParents};
ghost use Rattle.mst_graph.specs.Places.{placed};
ghost use Rattle.mst_graph.specs.Labelling.{IsPlaced, label_of};
ghost use Rattle.mst_graph.specs.Walks.{bridge_at, lan_at};
ghost use Rattle.mst_graph.specs.Filling.{island_place, islands_with, counts_with};

use crate::island::Island;
use crate::places::Places;
use mst_ids::{BridgeNo, LanNo};
use std::alloc::{AllocError, Global};

/// The place of a label's island: of a new one after the others, where the label has none. A label's count is how
/// many islands there were once its own was made, or 0 where it has none.
fn island_of(
    alloc: Global,
    counts: &mut [usize],
    islands: &mut Vec<Island>,
    label: usize,
) -> Result<usize, AllocError>
    requires { label < length counts.old }
    ensures place { IfOk result (λ place. place ≡ island_place counts.old islands.old.items label) }
    ensures counts { OnOk result (counts.new ≡ counts_with counts.old islands.old.items label) }
    ensures islands { OnOk result (islands.new.items ≡ islands_with counts.old islands.old.items label) }
{
    let count = counts[label];
    if count != 0 {
        return Ok(count - 1);
    }
    let place = islands.len();
    islands.push(Island::new(alloc))?;
    counts[label] = place + 1;
    Ok(place)
}

/// An island for each label, of the bridges and the LANs that have it.
pub(crate) fn islands_by(
    alloc: Global,
    places: &Places,
    labels: &[usize],
    bridges: &[BridgeNo],
    lans: &[LanNo],
) -> Result<Vec<Island>, AllocError>
    requires as_long { length labels.now ≡ length (placed places.now.bridges) + length (placed places.now.lans) }
    requires labels { AreParents labels.now }
    requires bridges { All (λ n. IsPlaced (placed places.now.bridges) (placed places.now.lans) (bridge_at n)) bridges.now }
    requires lans { All (λ n. IsPlaced (placed places.now.bridges) (placed places.now.lans) (lan_at n)) lans.now }
    ensures { IfOk result (λ islands. AreGroups (λ a b. nat_eq (label_of (placed places.now.bridges) (placed places.now.lans) labels.now a) (label_of (placed places.now.bridges) (placed places.now.lans) labels.now b) ≡ true) (nodes bridges.now lans.now) (map members islands.items)) }
{
    let mut counts = vec![in alloc; 0; labels.len()]?;
    let mut islands = Vec::new(alloc);
    for bridge in bridges {
        let label = labels[places.bridge(*bridge)];
        let place = island_of(alloc, counts.as_mut_slice(), &mut islands, label)?;
        islands[place].add_bridge(*bridge)?;
    }
    for lan in lans {
        let label = labels[places.lan(*lan)];
        let place = island_of(alloc, counts.as_mut_slice(), &mut islands, label)?;
        islands[place].add_lan(*lan)?;
    }
    Ok(islands)
}
