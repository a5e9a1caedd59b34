ghost use Rattle.std.specs.Prelude.{◌≡◌, ◌<◌, length};
ghost use Rattle.std.specs.List.{All};
ghost use Rattle.mst_summary.specs.Places.{no_port, with_bridge as with_port_of, with_places};

use mst_ids::{Name, Vid};
use mst_vlan::Carriage;

/// What is known of the ports of a logical LAN so far: the bridge of the first one, and whether another one is of another
/// bridge.
#[derive(Clone, Copy)]
pub(crate) struct Crossing {
    pub(crate) first: Option<Name>,
    pub(crate) is_of_two: bool,
}

/// With one more port, of this bridge.
fn with_bridge(crossing: &Crossing, bridge: &Name) -> Crossing
    ensures { result ≡ with_port_of crossing.now bridge.now }
{
    match crossing.first {
        None => Crossing {
            first: Some(*bridge),
            is_of_two: crossing.is_of_two,
        },
        Some(first) => Crossing {
            first: Some(first),
            is_of_two: crossing.is_of_two || *bridge != first,
        },
    }
}

/// Of those of the ports at these places that carry a VID.
fn crossing_at(carriage: &Carriage, places: &[usize], vid: Vid) -> Crossing
    requires { All (λ place. place < length carriage.now.view.ports) places.now }
    ensures { result ≡ with_places carriage.now.view carriage.now.forest vid places.now }
{
    let ports = carriage.view().ports();
    let mut crossing = Crossing {
        first: None,
        is_of_two: false,
    };
    for place in places {
        if carriage.carries(*place, vid) {
            crossing = with_bridge(&crossing, &ports[*place].name.bridge);
        }
    }
    crossing
}

/// Whether frames of a VID go over a logical LAN whose ports stand at these places: those that carry the VID are of two
/// bridges.
pub(crate) fn goes_over_at(carriage: &Carriage, places: &[usize], vid: Vid) -> bool
    requires { All (λ place. place < length carriage.now.view.ports) places.now }
    ensures { result ≡ (with_places carriage.now.view carriage.now.forest vid places.now).is_of_two }
{
    crossing_at(carriage, places, vid).is_of_two
}
