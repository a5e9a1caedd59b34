ghost use Rattle.std.specs.Prelude.{◌≡◌, ◌↔◌, true, map};
ghost use Rattle.mst_path.specs.Paths.{hop_told, hops_told, path_told};
ghost use Rattle.mst_path.specs.Places.{named_hop, named_path};

use mst_view::PortInView;

/// A hop from a bridge to another one: by this port on to a logical LAN, and off it by that one.
#[derive(Clone, Copy)]
pub struct Hop {
    pub leaving: PortInView,
    pub arriving: PortInView,
}

/// A hop by the places of its ports.
#[derive(Clone, Copy)]
pub(crate) struct PlaceHop {
    pub(crate) leaving: usize,
    pub(crate) arriving: usize,
}

/// Whether two hops take the same ports and the same logical LAN, by name.
fn is_same_hop(hop: &Hop, other: &Hop) -> bool
    ensures { result ≡ true ↔ hop_told (named_hop hop.now) ≡ hop_told (named_hop other.now) }
{
    hop.leaving.name == other.leaving.name
        && hop.leaving.lan == other.leaving.lan
        && hop.arriving.name == other.arriving.name
}

/// Whether two lists of hops take the same ports and logical LANs, by name.
fn are_same_hops(hops: &[Hop], others: &[Hop]) -> bool
    ensures { result ≡ true ↔ hops_told (map named_hop hops.now) ≡ hops_told (map named_hop others.now) }
{
    if hops.len() != others.len() {
        return false;
    }
    for place in 0..hops.len() {
        if !is_same_hop(&hops[place], &others[place]) {
            return false;
        }
    }
    true
}

/// Whether two paths are the same one: of both the same hops, by name, or of neither a hop since there is no path.
pub fn is_same(path: &Option<Vec<Hop>>, other: &Option<Vec<Hop>>) -> bool
    ensures { result ≡ true ↔ path_told (named_path path.now) ≡ path_told (named_path other.now) }
{
    match (path, other) {
        (None, None) => true,
        (Some(hops), Some(others)) => are_same_hops(hops.as_slice(), others.as_slice()),
        (None, Some(_)) | (Some(_), None) => false,
    }
}
