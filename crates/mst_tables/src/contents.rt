ghost use Rattle.std.specs.Prelude.{◌≡◌, List, ℕ, Some, None, IfOk};
ghost use Rattle.std.specs.Option.{option_map, ForSome};
ghost use Rattle.std.specs.FinMap as fin;
ghost use Rattle.mst_tables.specs.ByTree.{by_tree};
ghost use Rattle.mst_tables.specs.Tables.{IsNetwork};
ghost use Rattle.mst_ids.specs.declared.name.PortName.{PortName};
ghost use Rattle.mst_tables.specs.Contents.{Tables, IsNumbered};
ghost use Rattle.mst_tables.specs.After.{table_of};
ghost use Rattle.mst_tables.specs.Table.{mstis_in};
ghost use Rattle.mst_tables.specs.Seen.{bridge_row, port_row, lan_row};

use crate::settings::{BridgeSettings, KeptPort, LanSettings, PortSettings};
use crate::table::Table;
use crate::tree_settings::TreeSettings;
use mst_ids::{
    BridgeNo, ConfName, LanNo, Mac, MaxAge, MaxHops, Name, PortName, PortNo, Speed, Tree,
};
use mst_lang::{Kind, LanState, Power};
use std::alloc::{AllocError, Global};

/// A bridge's number and settings.
#[derive(Clone, Copy)]
pub struct Bridge {
    pub number: BridgeNo,
    pub mac: Mac,
    pub kind: Kind,
    pub power: Power,
    /// Its priority in the identifiers of link aggregation groups.
    pub system_priority: u16,
    /// The revision of its MST configuration.
    pub revision: u16,
    /// The name of its MST configuration.
    pub conf_name: ConfName,
    pub max_hops: MaxHops,
    pub max_age: MaxAge,
}

impl Bridge {
    /// Whether the bridge is on.
    pub fn is_on(&self) -> bool
        ensures { result ≡ (bridge_row self.now).is_on }
    {
        match self.power {
            Power::On => true,
            Power::Off => false,
        }
    }
}

/// A port's number, the LAN that it is plugged into, if there is one, and its settings.
#[derive(Clone, Copy)]
pub struct Port {
    pub number: PortNo,
    pub lan: Option<Name>,
    pub settings: PortSettings,
}

/// A LAN's number, its speed and its state.
#[derive(Clone, Copy)]
pub struct Lan {
    pub number: LanNo,
    pub speed: Speed,
    pub state: LanState,
}

/// The records of a network, or of one as it will be. A look-up takes no memory, and a time that doesn't
/// grow with the network. A list or a copy takes memory, and a time that grows with it.
pub trait Contents {
    /// What is seen of it.
    ghost tables: { Self → Tables };

    /// What holds of every network.
    fn known(&self)
        ensures network { IsNetwork (tables self.now).net }
        ensures numbered { IsNumbered (tables self.now).net (tables self.now).numbers };

    /// The bridge of this name.
    fn bridge(&self, name: &Name) -> Option<Bridge>
        ensures row { option_map bridge_row result ≡ fin.get (tables self.now).net.bridges name.now }
        ensures number { option_map (λ bridge. bridge.number) result ≡ fin.get (tables self.now).numbers.bridges name.now };

    /// The port of this name.
    fn port(&self, name: &PortName) -> Option<Port>
        ensures row { option_map port_row result ≡ fin.get (tables self.now).net.ports name.now }
        ensures number { option_map (λ port. port.number) result ≡ fin.get (tables self.now).numbers.ports name.now };

    /// The LAN of this name.
    fn lan(&self, name: &Name) -> Option<Lan>
        ensures row { option_map lan_row result ≡ fin.get (tables self.now).net.lans name.now }
        ensures number { option_map (λ lan. lan.number) result ≡ fin.get (tables self.now).numbers.lans name.now };

    /// The name of the bridge that has the number.
    fn bridge_name(&self, number: BridgeNo) -> Option<Name>
        ensures found { ForSome result (λ name. fin.get (tables self.now).numbers.bridges name ≡ Some number) }
        ensures none { result ≡ None → (name : List ℕ) → fin.get (tables self.now).numbers.bridges name ≡ Some number → ⊥ };

    /// The name of the port that has the number.
    fn port_name(&self, number: PortNo) -> Option<PortName>
        ensures found { ForSome result (λ name. fin.get (tables self.now).numbers.ports name ≡ Some number) }
        ensures none { result ≡ None → (name : PortName) → fin.get (tables self.now).numbers.ports name ≡ Some number → ⊥ };

    /// The name of the LAN that has the number.
    fn lan_name(&self, number: LanNo) -> Option<Name>
        ensures found { ForSome result (λ name. fin.get (tables self.now).numbers.lans name ≡ Some number) }
        ensures none { result ≡ None → (name : List ℕ) → fin.get (tables self.now).numbers.lans name ≡ Some number → ⊥ };

    /// The names of the bridges, in the order of their bytes. It takes memory, as every list does.
    fn bridge_names(&self, alloc: Global) -> Result<Vec<Name>, AllocError>
        ensures { IfOk result (λ names. names.items ≡ fin.keys (tables self.now).net.bridges) };

    /// The names of the ports, by the names of their bridges, and then by number. It takes memory.
    fn port_names(&self, alloc: Global) -> Result<Vec<PortName>, AllocError>
        ensures { IfOk result (λ names. names.items ≡ fin.keys (tables self.now).net.ports) };

    /// The names of the LANs, in the order of their bytes. It takes memory.
    fn lan_names(&self, alloc: Global) -> Result<Vec<Name>, AllocError>
        ensures { IfOk result (λ names. names.items ≡ fin.keys (tables self.now).net.lans) };

    /// The MSTIs of the table of a bridge, in rising order, none where it maps all VIDs to the CIST. It takes
    /// memory.
    fn mstis(&self, bridge: &Name, alloc: Global) -> Result<Vec<Tree>, AllocError>
        ensures { IfOk result (λ trees. trees.items ≡ mstis_in (table_of (tables self.now).net bridge.now)) };

    /// The table of a bridge, with all VIDs in the CIST where it maps none to another tree.
    fn table(&self, bridge: &Name) -> Table
        ensures { result ≡ table_of (tables self.now).net bridge.now };

    /// A copy of what is set by tree or VID. It takes memory.
    fn settings(&self) -> Result<TreeSettings, AllocError>
        ensures { IfOk result (λ copy. copy.set ≡ by_tree (tables self.now).net) };
}

/// A bridge of this number with these settings.
pub fn seen_bridge(number: BridgeNo, row: BridgeSettings) -> Bridge
    ensures row { bridge_row result ≡ row }
    ensures number { result.number ≡ number }
{
    Bridge {
        number,
        mac: row.mac,
        kind: row.kind,
        power: row.power,
        system_priority: row.system_priority,
        revision: row.revision,
        conf_name: row.conf_name,
        max_hops: row.max_hops,
        max_age: row.max_age,
    }
}

/// A port of this number with these settings.
pub fn seen_port(number: PortNo, row: KeptPort) -> Port
    ensures row { port_row result ≡ row }
    ensures number { result.number ≡ number }
{
    Port {
        number,
        lan: row.lan,
        settings: row.settings,
    }
}

/// A LAN of this number with these settings.
pub fn seen_lan(number: LanNo, row: LanSettings) -> Lan
    ensures row { lan_row result ≡ row }
    ensures number { result.number ≡ number }
{
    Lan {
        number,
        speed: row.speed,
        state: row.state,
    }
}
