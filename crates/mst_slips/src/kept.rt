ghost use Rattle.std.specs.Prelude.{◌≡◌, ◌++◌, ◌∷◌, [], List, ℕ, IfOk, OnOk, None, cond};
ghost use Rattle.indexmap.specs.IndexMap.{get};
ghost use Rattle.mst_view.specs.Aggregation.{same_name};
ghost use Rattle.mst_slips.specs.Kept.{kept_at, AreKept};

use indexmap::IndexMap;
use mst_ids::Name;
use mst_view::PortInView;
use std::alloc::{AllocError, Global};
use std::slice::from_ref;

/// Logical ports by the names of their logical LANs, and by those of their bridges.
#[derive(Drop)]
pub(crate) struct Kept {
    pub(crate) by_lan: IndexMap<Name, Vec<PortInView>>,
    pub(crate) by_bridge: IndexMap<Name, Vec<PortInView>>,
}

/// These logical ports, in one pass.
pub(crate) fn keep(alloc: Global, ports: &[PortInView]) -> Result<Kept, AllocError>
    ensures { IfOk result (AreKept ports.now) }
{
    let mut by_lan = IndexMap::new(alloc);
    let mut by_bridge = IndexMap::new(alloc);
    for port in ports {
        add_port(alloc, &port.lan, port, &mut by_lan)?;
        add_port(alloc, &port.name.bridge, port, &mut by_bridge)?;
    }
    Ok(Kept { by_lan, by_bridge })
}

/// What is kept for a name: nothing where it has no port.
pub fn kept_for<'a>(kept: &'a IndexMap<Name, Vec<PortInView>>, name: &Name) -> &'a [PortInView]
    ensures { result.now ≡ kept_at kept.now name.now }
{
    match kept.get(name) {
        Some(ports) => ports.as_slice(),
        None => &[],
    }
}

/// Adds a logical port to those that are kept for a name. `AllocError`: memory was wanted and refused; what was kept for the name may be gone.
pub fn add_port(
    alloc: Global,
    name: &Name,
    port: &PortInView,
    kept: &mut IndexMap<Name, Vec<PortInView>>,
) -> Result<(), AllocError>
    ensures { OnOk result ((q : List ℕ) → kept_at kept.new q ≡ kept_at kept.old q ++ cond (same_name name.now q) (port.now ∷ []) []) }
{
    let ports = with_port(taken(alloc, name, kept), port)?;
    kept.insert(*name, ports)?;
    Ok(())
}

/// These ports with one more.
fn with_port(mut ports: Vec<PortInView>, port: &PortInView) -> Result<Vec<PortInView>, AllocError>
    ensures { IfOk result (λ more. more.items ≡ ports.items ++ port.now ∷ []) }
{
    ports.extend_from_slice(from_ref(port))?;
    Ok(ports)
}

/// What is kept for a name, which is taken away.
fn taken(alloc: Global, name: &Name, kept: &mut IndexMap<Name, Vec<PortInView>>) -> Vec<PortInView>
    ensures kept { result.items ≡ kept_at kept.old name.now }
    ensures gone { (q : List ℕ) → get same_name kept.new q ≡ cond (same_name name.now q) None (get same_name kept.old q) }
{
    match kept.swap_remove(name) {
        Some(ports) => ports,
        None => Vec::new(alloc),
    }
}
