ghost use Rattle.std.specs.Prelude.{◌≡◌};
ghost use Rattle.std.specs.List.{list_any};
ghost use Rattle.mst_net.specs.tables.Seen.{bridge_row, lan_row};
ghost use Rattle.mst_sweep.specs.Failing.{fails_lan as fails_lan_of, fails_bridge as fails_bridge_of, down_if as row_down_if, off_if as row_off_if};

use crate::failure::Failure;
use mst_ids::{BridgeNo, LanNo, Name, PortName, PortNo, Tree};
use mst_lang::{LanState, Power};
use mst_net::{Bridge, Contents, Lan, Network, Port, Table, TreeSettings};
use std::alloc::{AllocError, Global};

/// A network as it would be with these failures: nothing is made in it. A look-up takes a step more for each failure.
#[derive(Drop)]
pub struct Failing<'a> {
    pub network: &'a Network,
    pub failures: &'a [Failure],
}

/// Whether it is this LAN that fails.
fn fails_lan(failure: &Failure, name: &Name) -> bool
    ensures { result ≡ fails_lan_of name.now failure.now }
{
    match failure {
        Failure::Lan(lan) => *lan == *name,
        Failure::Bridge(_) => false,
    }
}

/// Whether it is this bridge that fails.
fn fails_bridge(failure: &Failure, name: &Name) -> bool
    ensures { result ≡ fails_bridge_of name.now failure.now }
{
    match failure {
        Failure::Lan(_) => false,
        Failure::Bridge(bridge) => *bridge == *name,
    }
}

/// Whether one of these failures is of this LAN.
fn any_fails_lan(failures: &[Failure], name: &Name) -> bool
    ensures { result ≡ list_any (fails_lan_of name.now) failures.now }
{
    failures.iter().any(|failure| fails_lan(failure, name))
}

/// Whether one of these failures is of this bridge.
pub fn any_fails_bridge(failures: &[Failure], name: &Name) -> bool
    ensures { result ≡ list_any (fails_bridge_of name.now) failures.now }
{
    failures.iter().any(|failure| fails_bridge(failure, name))
}

/// A bridge, off where it fails.
fn off_if(bridge: Bridge, fails: bool) -> Bridge
    ensures row { bridge_row result ≡ row_off_if fails (bridge_row bridge) }
    ensures number { result.number ≡ bridge.number }
{
    if fails {
        return Bridge {
            power: Power::Off,
            ..bridge
        };
    }
    bridge
}

/// A LAN, down where it fails.
fn down_if(lan: Lan, fails: bool) -> Lan
    ensures row { lan_row result ≡ row_down_if fails (lan_row lan) }
    ensures number { result.number ≡ lan.number }
{
    if fails {
        return Lan {
            state: LanState::Down,
            ..lan
        };
    }
    lan
}

impl Contents for Failing<'_> {
    ghost use Rattle.mst_net.specs.tables.Contents.{Tables};
    ghost use Rattle.mst_sweep.specs.Failures.{failed};

    ghost tables = { λ f. record { net = failed f.failures.now f.network.now.net; numbers = f.network.now.numbers } };

    fn known(&self) {
        self.network.known();
    }

    fn bridge(&self, name: &Name) -> Option<Bridge> {
        match self.network.bridge(name) {
            None => None,
            Some(bridge) => Some(off_if(bridge, any_fails_bridge(self.failures, name))),
        }
    }

    fn port(&self, name: &PortName) -> Option<Port> {
        self.network.port(name)
    }

    fn lan(&self, name: &Name) -> Option<Lan> {
        match self.network.lan(name) {
            None => None,
            Some(lan) => Some(down_if(lan, any_fails_lan(self.failures, name))),
        }
    }

    fn bridge_name(&self, number: BridgeNo) -> Option<Name> {
        self.network.bridge_name(number)
    }

    fn port_name(&self, number: PortNo) -> Option<PortName> {
        self.network.port_name(number)
    }

    fn lan_name(&self, number: LanNo) -> Option<Name> {
        self.network.lan_name(number)
    }

    fn bridge_names(&self, alloc: Global) -> Result<Vec<Name>, AllocError> {
        self.network.bridge_names(alloc)
    }

    fn port_names(&self, alloc: Global) -> Result<Vec<PortName>, AllocError> {
        self.network.port_names(alloc)
    }

    fn lan_names(&self, alloc: Global) -> Result<Vec<Name>, AllocError> {
        self.network.lan_names(alloc)
    }

    fn mstis(&self, bridge: &Name, alloc: Global) -> Result<Vec<Tree>, AllocError> {
        self.network.mstis(bridge, alloc)
    }

    fn table(&self, bridge: &Name) -> Table {
        self.network.table(bridge)
    }

    fn settings(&self) -> Result<TreeSettings, AllocError> {
        self.network.settings()
    }
}
