ghost use Rattle.std.specs.Prelude.{◌≡◌, ◌==◌, if◌then◌else◌};
ghost use Rattle.std.specs.Option.{option_map};
ghost use Rattle.mst_net.specs.tables.Seen.{bridge_row, lan_row, port_row};
ghost use Rattle.mst_net.specs.tables.After.{has_lan as has_lan_of, new_bridge, new_port};
ghost use Rattle.mst_edits.specs.Staying.{has_mac as has_mac_of, bridge_stays as bridge_stays_in, port_stays as port_stays_in, lan_of as lan_in, is_same_lan as are_same_lan, plug_stays as plug_stays_in, bridge_before as bridge_was, settings_before as settings_were, lan_before as lan_was, priority_before as priority_was, port_priority_before as port_priority_was, port_cost_before as port_cost_was, vlans_before as vlans_were};

use mst_ids::{
    ConfName, Cost, Mac, MaxAge, MaxHops, Name, PortName, Priority, Speed, Tree, VidSet,
};
use mst_lang::{Kind, LanState, Power};
use mst_net::{Bridge, Contents, Lan, PortSettings, Saved};

/// The system priority of a bridge where none was set.
const SYSTEM_PRIORITY: u16 = 32_768;

/// Whether a bridge stays: both networks have one of that name with the same MAC address.
pub(crate) fn bridge_stays<C: Contents, D: Contents>(old: &C, new: &D, name: &Name) -> bool
    ensures { result ≡ bridge_stays_in (C.tables old.now).net (D.tables new.now).net name.now }
{
    match new.bridge(name) {
        Some(bridge) => has_mac(bridge.mac, old.bridge(name)),
        None => false,
    }
}

/// Whether there is a bridge and it has this MAC address.
fn has_mac(mac: Mac, bridge: Option<Bridge>) -> bool
    ensures { result ≡ has_mac_of mac (option_map bridge_row bridge) }
{
    match bridge {
        Some(bridge) => bridge.mac == mac,
        None => false,
    }
}

/// Whether a port stays: its bridge does and has that number in both networks.
pub(crate) fn port_stays<C: Contents, D: Contents>(old: &C, new: &D, name: &PortName) -> bool
    ensures { result ≡ port_stays_in (C.tables old.now).net (D.tables new.now).net name.now }
{
    bridge_stays(old, new, &name.bridge) && old.port(name).is_some() && new.port(name).is_some()
}

/// The LAN that a port is in.
pub(crate) fn lan_of<C: Contents>(contents: &C, name: &PortName) -> Option<Name>
    ensures { result ≡ lan_in (C.tables contents.now).net name.now }
{
    match contents.port(name) {
        Some(port) => port.lan,
        None => None,
    }
}

/// Whether both are LANs of one name.
fn is_same_lan(lan: Option<Name>, other: Option<Name>) -> bool
    ensures { result ≡ are_same_lan lan other }
{
    match lan {
        Some(lan) => match other {
            Some(other) => lan == other,
            None => false,
        },
        None => false,
    }
}

/// Whether a plug stays: its port does and is in a LAN of the same name in both networks.
pub(crate) fn plug_stays<C: Contents, D: Contents>(old: &C, new: &D, name: &PortName) -> bool
    ensures { result ≡ plug_stays_in (C.tables old.now).net (D.tables new.now).net name.now }
{
    port_stays(old, new, name) && is_same_lan(lan_of(old, name), lan_of(new, name))
}

/// Whether there is a LAN of this name.
pub(crate) fn has_lan<C: Contents>(contents: &C, name: &Name) -> bool
    ensures { result ≡ has_lan_of name.now (C.tables contents.now).net }
{
    contents.lan(name).is_some()
}

/// A bridge with the MAC address of another one and no setting of its own.
fn new_like(bridge: &Bridge) -> Bridge
    ensures { bridge_row result ≡ new_bridge bridge.now.mac }
{
    Bridge {
        number: bridge.number,
        mac: bridge.mac,
        kind: Kind::Mstp,
        power: Power::On,
        system_priority: SYSTEM_PRIORITY,
        revision: 0,
        conf_name: ConfName::of_mac(bridge.mac),
        max_hops: MaxHops::default(),
        max_age: MaxAge::default(),
    }
}

/// What the bridge of this name was: the old one where it stays, else a new one.
pub(crate) fn bridge_before<C: Contents>(old: &C, name: &Name, bridge: &Bridge) -> Bridge
    ensures { bridge_row result ≡ bridge_was (C.tables old.now).net name.now (bridge_row bridge.now) }
{
    match old.bridge(name) {
        Some(before) => before_or_new(&before, bridge),
        None => new_like(bridge),
    }
}

fn before_or_new(before: &Bridge, bridge: &Bridge) -> Bridge
    ensures { bridge_row result ≡ (if (bridge_row before.now).mac == bridge.now.mac then bridge_row before.now else new_bridge bridge.now.mac) }
{
    if before.mac == bridge.mac {
        *before
    } else {
        new_like(bridge)
    }
}

/// What was set for the port of this name: for the old one where it stays, else nothing.
pub(crate) fn settings_before<C: Contents>(old: &C, stays: bool, name: &PortName) -> PortSettings
    ensures { result ≡ settings_were (C.tables old.now).net stays name.now }
{
    if !stays {
        return no_settings();
    }
    match old.port(name) {
        Some(port) => port.settings,
        None => no_settings(),
    }
}

fn no_settings() -> PortSettings
    ensures { result ≡ new_port.settings }
{
    PortSettings {
        key: 0,
        external: None,
        is_restricted: false,
    }
}

/// What the LAN of this name was: the old one, else a new one.
pub(crate) fn lan_before<C: Contents>(old: &C, name: &Name, lan: &Lan) -> Lan
    ensures { lan_row result ≡ lan_was (C.tables old.now).net name.now }
{
    match old.lan(name) {
        Some(before) => before,
        None => Lan {
            number: lan.number,
            speed: Speed::default(),
            state: LanState::Up,
        },
    }
}

/// The priority that a bridge had in a tree.
pub(crate) fn priority_before<C: Saved>(old: &C, stays: bool, name: &Name, tree: Tree) -> Priority
    ensures { result ≡ priority_was (C.tables old.now).net stays name.now tree }
{
    if stays {
        old.tree_priority(name, tree)
    } else {
        Priority::default()
    }
}

/// The priority that a port had in a tree.
pub(crate) fn port_priority_before<C: Saved>(
    old: &C,
    stays: bool,
    name: &PortName,
    tree: Tree,
) -> Priority
    ensures { result ≡ port_priority_was (C.tables old.now).net stays name.now tree }
{
    if stays {
        old.port_priority(name, tree)
    } else {
        Priority::default()
    }
}

/// The internal path cost that a port had in a tree, or none where it was automatic.
pub(crate) fn port_cost_before<C: Saved>(
    old: &C,
    stays: bool,
    name: &PortName,
    tree: Tree,
) -> Option<Cost>
    ensures { result ≡ port_cost_was (C.tables old.now).net stays name.now tree }
{
    if stays {
        old.port_cost(name, tree)
    } else {
        None
    }
}

/// The VLANs that a port was a member of.
pub(crate) fn vlans_before<C: Saved>(old: &C, stays: bool, name: &PortName) -> VidSet
    ensures { result ≡ vlans_were (C.tables old.now).net stays name.now }
{
    if stays {
        old.port_vlans(name)
    } else {
        VidSet::all()
    }
}
