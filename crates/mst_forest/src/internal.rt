ghost use Rattle.std.specs.Prelude.{◌≡◌};
ghost use Rattle.mst_outcome.specs.Assignment.{designated_of};
ghost use Rattle.mst_forest.specs.Seen.{seen_internal};

use mst_config::Regions;
use mst_outcome::SpanningTree;
use mst_vector::CistMetric;
use mst_view::{PortInView, View};

/// Whether a port is enabled and its LAN belongs to the region of its bridge: its designated port in the CIST is
/// on a bridge of that region.
pub fn is_internal(
    view: &View,
    regions: &Regions,
    cist: &SpanningTree<CistMetric>,
    port: &PortInView,
) -> bool
    ensures { result ≡ seen_internal view.now regions.now (designated_of cist.now.outcome) port.now }
{
    if !port.is_enabled {
        return false;
    }
    let Some(number) = cist.designated(port.lan_number) else {
        return false;
    };
    match view.port(number) {
        None => false,
        Some(designated) => regions.same(designated.bridge, port.bridge),
    }
}
