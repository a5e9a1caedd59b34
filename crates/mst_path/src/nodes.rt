ghost use Rattle.std.specs.Prelude.{◌≡◌, ◌+◌, ◌<◌, ◌^◌, IfOk, map, length};
ghost use Rattle.std.specs.List.{All};
ghost use Rattle.mst_path.specs.Places.{AreNodesOf, bridge_names, lan_names};

use mst_graph::{Numbering, number_keys};
use mst_ids::Name;
use mst_view::PortInView;
use std::alloc::{AllocError, Global};

/// The nodes that ports join: for each port that of its bridge and that of its logical LAN.
#[derive(Drop)]
pub struct Nodes {
    pub bridges: Vec<usize>,
    pub lans: Vec<usize>,
    /// How many nodes there are.
    pub count: usize,
}

/// The names of the ports' bridges.
fn bridges_of(alloc: Global, ports: &[PortInView]) -> Result<Vec<Name>, AllocError>
    ensures { IfOk result (λ names. names.items ≡ bridge_names ports.now) }
{
    ports.iter().map(|port| port.name.bridge).collect(alloc)
}

/// The names of the ports' logical LANs.
fn lans_of(alloc: Global, ports: &[PortInView]) -> Result<Vec<Name>, AllocError>
    ensures { IfOk result (λ names. names.items ≡ lan_names ports.now) }
{
    ports.iter().map(|port| port.lan).collect(alloc)
}

/// These numbers, each with this one added.
fn shifted(alloc: Global, numbers: &[usize], by: usize) -> Result<Vec<usize>, AllocError>
    requires by { by < 2 ^ 63 }
    requires numbers { All (λ n. n < 2 ^ 63) numbers.now }
    ensures { IfOk result (λ new. new.items ≡ map (λ n. by + n) numbers.now) }
{
    let mut new = Vec::new(alloc);
    for number in numbers {
        new.push(by + *number)?;
    }
    Ok(new)
}

impl Nodes {
    /// A node for each bridge and each logical LAN of these ports. `AllocError`: memory was wanted and refused.
    pub fn new(alloc: Global, ports: &[PortInView]) -> Result<Nodes, AllocError>
        ensures { IfOk result (λ n. AreNodesOf ports.now n.bridges.items n.lans.items n.count) }
    {
        let bridge_names = bridges_of(alloc, ports)?;
        let Numbering {
            numbers: bridges,
            firsts: first_bridges,
        } = number_keys(alloc, bridge_names)?;
        let lan_names = lans_of(alloc, ports)?;
        let Numbering {
            numbers: lan_numbers,
            firsts: first_lans,
        } = number_keys(alloc, lan_names)?;
        let by = first_bridges.len();
        let lans = shifted(alloc, lan_numbers.as_slice(), by)?;
        let count = by + first_lans.len();
        Ok(Nodes {
            bridges,
            lans,
            count,
        })
    }
}
