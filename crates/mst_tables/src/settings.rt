ghost use Rattle.std.specs.Prelude.{◌≡◌, ℕ, ◌<◌, ◌≤◌, ◌/◌, cond, None};
ghost use Rattle.std.specs.Map.{lookup};
ghost use Rattle.indexmap.specs.IndexMap.{spare};
ghost use Rattle.mst_tables.specs.After.{new_bridge, new_settings, new_port, new_lan, bridge_with, settings_with, port_with, lan_with, in_lan as put_in_lan};
ghost use Rattle.mst_tables.specs.Tables.{BridgeTree, PortTree, bridge_tree_eq, port_tree_eq};
ghost use Rattle.mst_tables.specs.SetByTree.{in_trees_of_bridge, in_trees_of_port};

use indexmap::IndexMap;
use mst_ids::{ConfName, Cost, Mac, MaxAge, MaxHops, Name, PortName, Priority, Speed, Tree};
use mst_lang::{BridgeChange, Kind, LanChange, LanState, PortChange, Power};
use mst_records::Blocks;
use std::hash::Hash;
use std::marker::Model;

/// A bridge's settings.
#[derive(Clone, Copy)]
pub struct BridgeSettings {
    pub mac: Mac,
    pub(crate) kind: Kind,
    pub(crate) power: Power,
    pub(crate) system_priority: u16,
    pub(crate) revision: u16,
    pub(crate) conf_name: ConfName,
    pub(crate) max_hops: MaxHops,
    pub(crate) max_age: MaxAge,
}

impl Model for BridgeSettings {
    ghost use Rattle.mst_tables.specs.Tables.{BridgeRow, bridge_row_code};

    ghost Value = { BridgeRow };

    ghost coded = { bridge_row_code };

    ghost use Rattle.mst_tables.specs.After.{is_rstp, is_on};
    ghost use Rattle.mst_tables.specs.Settings.{kind_of, kind_of-is_rstp, power_of, power_of-is_on};

    ghost view = { λ a. record { mac = a.mac; is_rstp = is_rstp a.kind; is_on = is_on a.power; system_priority = a.system_priority; revision = a.revision; conf_name = a.conf_name; max_hops = a.max_hops; max_age = a.max_age } };

    ghost inverse = { λ r. record { mac = r.mac; kind = kind_of r.is_rstp; power = power_of r.is_on; system_priority = r.system_priority; revision = r.revision; conf_name = r.conf_name; max_hops = r.max_hops; max_age = r.max_age } };

    ghost inverse_ok = { λ a h i. record { mac = a.mac; kind = kind_of-is_rstp a.kind i; power = power_of-is_on a.power i; system_priority = a.system_priority; revision = a.revision; conf_name = a.conf_name; max_hops = a.max_hops; max_age = a.max_age } };
}

impl BridgeSettings {
    /// The settings of a new bridge.
    pub fn new(mac: Mac) -> BridgeSettings
        ensures { result ≡ new_bridge mac }
    {
        BridgeSettings {
            mac,
            kind: Kind::Mstp,
            power: Power::On,
            system_priority: 32_768,
            revision: 0,
            conf_name: ConfName::of_mac(mac),
            max_hops: MaxHops::default(),
            max_age: MaxAge::default(),
        }
    }

    /// These settings with a change.
    pub fn with(self, change: &BridgeChange) -> BridgeSettings
        ensures { result ≡ bridge_with change.now self }
    {
        match *change {
            BridgeChange::Power(power) => BridgeSettings { power, ..self },
            BridgeChange::Kind(kind) => BridgeSettings { kind, ..self },
            BridgeChange::SystemPriority(priority) => BridgeSettings {
                system_priority: priority,
                ..self
            },
            BridgeChange::Configuration { revision, name } => BridgeSettings {
                revision,
                conf_name: name,
                ..self
            },
            BridgeChange::MaxHops(limit) => BridgeSettings {
                max_hops: limit,
                ..self
            },
            BridgeChange::MaxAge(limit) => BridgeSettings {
                max_age: limit,
                ..self
            },
        }
    }
}

/// A port's settings: its aggregation key, of which 0 is none, its external path cost, or none where it is
/// automatic, and whether its role is restricted.
#[derive(Clone, Copy)]
pub struct PortSettings {
    pub key: u16,
    pub external: Option<Cost>,
    pub is_restricted: bool,
}

impl PortSettings {
    /// The settings of a new port.
    pub fn new() -> PortSettings
        ensures { result ≡ new_settings }
    {
        PortSettings {
            key: 0,
            external: None,
            is_restricted: false,
        }
    }

    /// These settings with a change.
    pub fn with(self, change: &PortChange) -> PortSettings
        ensures { result ≡ settings_with change.now self }
    {
        match *change {
            PortChange::Key(key) => PortSettings { key, ..self },
            PortChange::PathCost(cost) => PortSettings {
                external: cost,
                ..self
            },
            PortChange::RestrictedRole(yes) => PortSettings {
                is_restricted: yes,
                ..self
            },
        }
    }
}

/// What is kept of a port: the LAN that it is plugged into, if there is one, and its settings.
#[derive(Clone, Copy)]
pub struct KeptPort {
    pub lan: Option<Name>,
    pub settings: PortSettings,
}

impl Model for KeptPort {
    ghost use Rattle.mst_tables.specs.Tables.{PortRow, port_row_code};

    ghost Value = { PortRow };

    ghost coded = { port_row_code };

    ghost view = { λ a. record { lan = a.lan; settings = a.settings } };

    ghost inverse = { λ r. record { lan = r.lan; settings = r.settings } };
}

impl KeptPort {
    /// A new port.
    pub fn new() -> KeptPort
        ensures { result ≡ new_port }
    {
        KeptPort {
            lan: None,
            settings: PortSettings::new(),
        }
    }

    /// This port with a change of its settings.
    pub fn with(self, change: &PortChange) -> KeptPort
        ensures { result ≡ port_with change.now self }
    {
        KeptPort {
            settings: self.settings.with(change),
            ..self
        }
    }

    /// This port in a LAN, or in none.
    pub fn in_lan(self, lan: Option<Name>) -> KeptPort
        ensures { result ≡ put_in_lan lan self }
    {
        KeptPort { lan, ..self }
    }
}

/// A LAN's settings: its speed and its state.
#[derive(Clone, Copy)]
pub struct LanSettings {
    pub(crate) speed: Speed,
    pub(crate) state: LanState,
}

impl Model for LanSettings {
    ghost use Rattle.mst_tables.specs.Tables.{LanRow, lan_row_code};

    ghost Value = { LanRow };

    ghost coded = { lan_row_code };

    ghost use Rattle.mst_tables.specs.After.{is_up};
    ghost use Rattle.mst_tables.specs.Settings.{state_of, state_of-is_up};

    ghost view = { λ a. record { speed = a.speed; is_up = is_up a.state } };

    ghost inverse = { λ r. record { speed = r.speed; state = state_of r.is_up } };

    ghost inverse_ok = { λ a h i. record { speed = a.speed; state = state_of-is_up a.state i } };
}

impl LanSettings {
    /// The settings of a new LAN.
    pub fn new() -> LanSettings
        ensures { result ≡ new_lan }
    {
        LanSettings {
            speed: Speed::default(),
            state: LanState::Up,
        }
    }

    /// These settings with a change.
    pub fn with(self, change: &LanChange) -> LanSettings
        ensures { result ≡ lan_with change.now self }
    {
        match *change {
            LanChange::State(state) => LanSettings { state, ..self },
            LanChange::Speed(speed) => LanSettings { speed, ..self },
        }
    }
}

/// A bridge in a tree, for which a priority may be set.
#[derive(Clone, Copy, PartialEq, Eq, Hash)]
pub struct BridgeInTree {
    pub bridge: Name,
    pub tree: Tree,
}

impl Model for BridgeInTree {
    ghost use Rattle.mst_tables.specs.Tables.{BridgeTree, bridge_tree_code};

    ghost Value = { BridgeTree };

    ghost coded = { bridge_tree_code };

    ghost view = { λ a. record { bridge = a.bridge; tree = a.tree } };

    ghost inverse = { λ k. record { bridge = k.bridge; tree = k.tree } };
}

/// A port in a tree, for which a priority or an internal path cost may be set.
#[derive(Clone, Copy, PartialEq, Eq, Hash)]
pub struct PortInTree {
    pub port: PortName,
    pub tree: Tree,
}

impl Model for PortInTree {
    ghost use Rattle.mst_tables.specs.Tables.{PortTree, port_tree_code};

    ghost Value = { PortTree };

    ghost coded = { port_tree_code };

    ghost view = { λ a. record { port = a.port; tree = a.tree } };

    ghost inverse = { λ k. record { port = k.port; tree = k.tree } };
}

/// Takes away what is set for the bridge, in every tree that is marked. It passes by the others.
pub fn forget_bridge(table: &mut IndexMap<BridgeInTree, Priority>, bridge: &Name, blocks: &Blocks)
    ensures { (q : BridgeTree) → lookup (bridge_tree_eq q) table.new.entries ≡ cond (in_trees_of_bridge bridge.now blocks.now q) None (lookup (bridge_tree_eq q) table.old.entries) }
{
    let mut number = 0;
    while number < 4095 {
        if blocks.has(number) {
            let tree = Tree::new(number).unwrap();
            let key = BridgeInTree {
                bridge: *bridge,
                tree,
            };
            let _ = table.swap_remove(&key);
            number += 1;
        } else {
            number = blocks.after(number);
        }
    }
}

/// Takes away what is set for the port, in every tree that is marked. It passes by the others.
pub fn forget_port<V: Copy>(table: &mut IndexMap<PortInTree, V>, port: &PortName, blocks: &Blocks)
    ensures { (q : PortTree) → lookup (port_tree_eq q) table.new.entries ≡ cond (in_trees_of_port port.now blocks.now q) None (lookup (port_tree_eq q) table.old.entries) }
{
    let mut number = 0;
    while number < 4095 {
        if blocks.has(number) {
            let tree = Tree::new(number).unwrap();
            let key = PortInTree { port: *port, tree };
            let _ = table.swap_remove(&key);
            number += 1;
        } else {
            number = blocks.after(number);
        }
    }
}
