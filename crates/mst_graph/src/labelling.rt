ghost use Rattle.std.specs.Prelude.{IfOk};
ghost use Rattle.mst_graph.specs.Labels.{AreParents};
ghost use Rattle.mst_graph.specs.Places.{placed};
ghost use Rattle.mst_graph.specs.Labelling.{HavePlaces, AreLabels};

use crate::labels::{join, own_parents, settle};
use crate::node::Link;
use crate::places::Places;
use std::alloc::{AllocError, Global};

/// Labels that are equal just where links join the nodes. No label is greater than its place.
pub(crate) fn labels_by(
    alloc: Global,
    places: &Places,
    links: &[Link],
) -> Result<Vec<usize>, AllocError>
    requires { HavePlaces (placed places.now.bridges) (placed places.now.lans) links.now }
    ensures below { IfOk result (λ labels. AreParents labels.items) }
    ensures labels { IfOk result (λ labels. AreLabels (placed places.now.bridges) (placed places.now.lans) links.now labels.items) }
{
    let mut parents = own_parents(alloc, places.len())?;
    for link in links {
        join(
            parents.as_mut_slice(),
            places.bridge(link.bridge),
            places.lan(link.lan),
        );
    }
    settle(parents.as_mut_slice());
    Ok(parents)
}
