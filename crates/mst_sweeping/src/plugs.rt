ghost use Rattle.std.specs.Prelude.{◌≡◌, ◌&&◌, IfOk};
ghost use Rattle.std.specs.HashSet.{contains};
ghost use Rattle.std.specs.List.{list_any};
ghost use Rattle.mst_ids.specs.declared.name.PortName.{PortName as PortNameOf};
ghost use Rattle.mst_net.specs.tables.Tables.{Net, port_eq};
ghost use Rattle.mst_sweeping.specs.Restarts.{is_elsewhere as elsewhere, own_lan as lan_of, own_plug, own_plugs};
ghost use Rattle.mst_sweeping.specs.Seen.{AreReplugged};

use indexmap::IndexSet;
use mst_ids::{Name, PortName};
use mst_net::Contents;
use std::alloc::{AllocError, Global};
use std::marker::Model;

/// The LANs that the ports of a network are plugged into themselves, whatever LANs these count as one with: what is to be kept of
/// a network before edits to tell which of its ports they plug over.
#[derive(Drop)]
pub struct Plugs {
    plugs: Vec<(PortName, Name)>,
}

impl Model for Plugs {
    ghost use Rattle.std.specs.Prelude.{ℕ, List};
    ghost use Rattle.mst_ids.specs.declared.name.PortName.{PortName as NameOfPort};

    ghost Value = { List (NameOfPort × List ℕ) };

    ghost view = { λ p. p.plugs.items };
}

/// The LAN that a port is plugged into.
fn own_lan<C: Contents>(contents: &C, name: &PortName) -> Option<Name>
    ensures { result ≡ lan_of (C.tables contents.now).net name.now }
{
    let port = contents.port(name)?;
    port.lan
}

/// A port with the LAN that it is plugged into.
fn plug_of<C: Contents>(contents: &C, name: &PortName) -> Option<(PortName, Name)>
    ensures { result ≡ own_plug (C.tables contents.now).net name.now }
{
    match own_lan(contents, name) {
        Some(lan) => Some((*name, lan)),
        None => None,
    }
}

/// Whether a port that was plugged into this LAN is plugged into another one now.
fn is_elsewhere<C: Contents>(contents: &C, plug: &(PortName, Name)) -> bool
    ensures { result ≡ elsewhere (C.tables contents.now).net plug.now }
{
    match own_lan(contents, &plug.0) {
        Some(lan) => plug.1 != lan,
        None => false,
    }
}

/// Those of these ports that are plugged into another LAN now.
fn replugged_of<C: Contents>(
    alloc: Global,
    contents: &C,
    plugs: &[(PortName, Name)],
) -> Result<IndexSet<PortName>, AllocError>
    ensures { IfOk result (λ over. (port : PortNameOf) → contains port_eq over port ≡ list_any (λ plug. elsewhere (C.tables contents.now).net plug && port_eq plug.0 port) plugs.now) }
{
    let mut over = IndexSet::new(alloc);
    for plug in plugs {
        if is_elsewhere(contents, plug) {
            over.insert(plug.0)?;
        }
    }
    Ok(over)
}

impl Plugs {
    /// Those of a network. `AllocError`: memory was wanted and refused.
    pub fn new<C: Contents>(alloc: Global, contents: &C) -> Result<Plugs, AllocError>
        ensures { IfOk result (λ plugs. plugs ≡ own_plugs (C.tables contents.now).net) }
    {
        let names = contents.port_names(alloc)?;
        let plugs = names
            .iter()
            .filter_map(|name| plug_of(contents, name))
            .collect(alloc)?;
        Ok(Plugs { plugs })
    }

    /// Which ports of the network that these are of are plugged into LANs of other names in this one. `AllocError`: memory was wanted
    /// and refused.
    pub fn replugged<C: Contents>(
        &self,
        alloc: Global,
        contents: &C,
    ) -> Result<IndexSet<PortName>, AllocError>
        ensures { IfOk result (λ over. (net : Net) → self.now ≡ own_plugs net → AreReplugged net (C.tables contents.now).net (contains port_eq over)) }
    {
        replugged_of(alloc, contents, self.plugs.as_slice())
    }
}
