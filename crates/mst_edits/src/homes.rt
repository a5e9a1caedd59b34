ghost use Rattle.std.specs.Prelude.{◌≡◌, ◌++◌, ◌∷◌, [], ℕ, List, IfOk, OnOk, filter, nat_eq, if◌then◌else◌};
ghost use Rattle.std.specs.Cmp.Lexicographic.{pointwise};
ghost use Rattle.mst_edits.specs.Homes.{kept_for};

use mst_ids::{Name, PortName};
use std::alloc::{AllocError, Global};
use std::collections::BTreeMap;

/// Ports by the names of their bridges.
pub(crate) type Homes = BTreeMap<Name, Vec<PortName>>;

/// These ports by their bridges, each bridge's in the order that they have, in one pass.
pub(crate) fn homes_of(alloc: Global, ports: &[PortName]) -> Result<Homes, AllocError>
    ensures { IfOk result (λ homes. (bridge : List ℕ) → kept_for homes bridge ≡ filter (λ port. pointwise nat_eq bridge port.bridge) ports.now) }
{
    let mut homes = BTreeMap::new(alloc);
    for port in ports {
        add(alloc, port, &mut homes)?;
    }
    Ok(homes)
}

/// Adds a port after those of its bridge.
fn add(alloc: Global, port: &PortName, homes: &mut Homes) -> Result<(), AllocError>
    ensures { OnOk result ((bridge : List ℕ) → kept_for homes.new bridge ≡ kept_for homes.old bridge ++ (if pointwise nat_eq bridge port.now.bridge then port.now ∷ [] else [])) }
{
    match homes.get_mut(&port.bridge) {
        Some(ports) => ports.push(*port)?,
        None => {
            let ports = vec![in alloc; *port]?;
            homes.insert(port.bridge, ports)?;
        }
    }
    Ok(())
}

/// The ports of a bridge.
pub(crate) fn ports_of<'a>(homes: &'a Homes, bridge: &Name) -> &'a [PortName]
    ensures { result.now ≡ kept_for homes.now bridge.now }
{
    match homes.get(bridge) {
        Some(ports) => ports.as_slice(),
        None => &[],
    }
}
