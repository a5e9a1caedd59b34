ghost use Rattle.std.specs.Prelude.{◌≡◌, IfOk, OnOk, OnErr, map, filter, filter_map, length, ◌≤◌, Some};
ghost use Rattle.std.specs.List.{find, AllByRecursion};
ghost use Rattle.std.specs.FinMap as fin;
ghost use Rattle.std.specs.Option.{option_copied};
ghost use Rattle.mst_view.specs.Aggregation.{same_name};
ghost use Rattle.mst_view.specs.View.{is_on as bridge_is_on};
ghost use Rattle.mst_view.specs.Viewed.{IsView, named_bridge};
ghost use Rattle.mst_lag.specs.Seen.{total_of, named_row};
ghost use Rattle.mst_lag.specs.Renewed.{IsViewButLan, IsViewButBridge, IsViewButSet, IsViewButSettings, leaves_links as leaves_what_links, leaves_tables as leaves_all_tables, leaves_key as leaves_own_key, IsViewButPort, IsViewButPorts, settings_there, port_set, port_with as set_of_port, port_powered, powered, is_up_there, logical_among, seen_member, member_again, lan_again as lan_renewed, port_again as port_renewed, port_giving};

use crate::members::{LanSeen, Total, total_at, totals};
use crate::viewed::{Links, links_now, listed_bridges, listed_trees};
use mst_ids::{Name, PortName};
use mst_lang::{BridgeChange, LanState, PortChange, TreeChange};
use mst_tables::{Contents, PortSettings};
use mst_view::{BridgeInView, LanInView, Listed, MemberLan, PortInView, View};
use std::alloc::{AllocError, Global};

/// The member of this name.
fn member_named<'a>(members: &'a [MemberLan], lan: &Name) -> Option<&'a MemberLan>
    ensures { option_copied result ≡ find (λ m. same_name m.name lan.now) members.now }
{
    members.iter().find(|member| member.name == *lan)
}

/// The logical LAN of a LAN, by the members of logical LANs.
fn logical_of(members: &[MemberLan], lan: &Name) -> Name
    ensures { result ≡ logical_among members.now lan.now }
{
    match member_named(members, lan).copied() {
        None => *lan,
        Some(member) => member.lan,
    }
}

/// Whether the LAN of this name is up, if there is one.
fn is_up_now<C: Contents>(contents: &C, lan: &Name) -> bool
    ensures { result ≡ is_up_there (C.tables contents.now).net lan.now }
{
    match contents.lan(lan) {
        None => false,
        Some(lan) => match lan.state {
            LanState::Up => true,
            LanState::Down => false,
        },
    }
}

/// Whether the bridge of this name is on, if there is one.
fn is_on_now<C: Contents>(contents: &C, bridge: &Name) -> bool
    ensures { result ≡ bridge_is_on (C.tables contents.now).net bridge.now }
{
    match contents.bridge(bridge) {
        None => false,
        Some(bridge) => bridge.is_on(),
    }
}

/// A member as its LAN is now.
fn member_seen<C: Contents>(contents: &C, member: &MemberLan) -> Option<LanSeen>
    ensures { result ≡ seen_member (C.tables contents.now).net (C.tables contents.now).numbers member.now }
{
    let lan = contents.lan(&member.name)?;
    let is_up = match lan.state {
        LanState::Up => true,
        LanState::Down => false,
    };
    Some(LanSeen {
        name: member.name,
        number: lan.number,
        lan: member.lan,
        speed: lan.speed,
        is_up,
    })
}

/// The members of a logical LAN, as their LANs are now.
fn members_seen<C: Contents>(
    alloc: Global,
    contents: &C,
    members: &[MemberLan],
    lan: &Name,
) -> Result<Vec<LanSeen>, AllocError>
    ensures { IfOk result (λ v. v.items ≡ filter_map (seen_member (C.tables contents.now).net (C.tables contents.now).numbers) (filter (λ m. same_name m.lan lan.now) members.now)) }
{
    members
        .iter()
        .filter(|member| member.lan == *lan)
        .filter_map(|member| member_seen(contents, member))
        .collect(alloc)
}

/// What the members of a logical LAN give together now.
fn total_now<C: Contents>(
    alloc: Global,
    contents: &C,
    members: &[MemberLan],
    lan: &Name,
) -> Result<Total, AllocError>
    requires { length members.now ≤ 8192 }
    ensures { IfOk result (λ total. total ≡ total_of (filter (λ x. same_name x.lan lan.now) (filter_map (seen_member (C.tables contents.now).net (C.tables contents.now).numbers) (filter (λ m. same_name m.lan lan.now) members.now)))) }
{
    let seen = members_seen(alloc, contents, members, lan)?;
    let totals = totals(alloc, seen.as_slice())?;
    Ok(total_at(&totals, lan))
}

/// A member, where this LAN is up or down now.
fn renewed_member(member: &MemberLan, lan: &Name, is_up: bool) -> MemberLan
    ensures { result ≡ member_again lan.now is_up member.now }
{
    if member.name != *lan {
        return *member;
    }
    MemberLan {
        name: member.name,
        lan: member.lan,
        is_up,
    }
}

/// Renews these members, where this LAN is up or down now.
fn renew_members(members: &mut Vec<MemberLan>, lan: &Name, is_up: bool)
    ensures { members.new.items ≡ map (member_again lan.now is_up) members.old.items }
{
    for member in members.as_mut_slice().iter_mut() {
        let renewed = renewed_member(member, lan, is_up);
        *member = renewed;
    }
}

/// Renews these logical LANs, where the members of this one give this together now.
fn renew_lans(lans: &mut Listed<LanInView>, lan: &Name, total: Total)
    ensures { lans.new ≡ map (lan_renewed lan.now total) lans.old }
{
    for place in 0..lans.len() {
        let seen = lans.as_slice()[place];
        if seen.name == *lan {
            let renewed = LanInView {
                name: seen.name,
                number: seen.number,
                speed: total.speed,
                is_up: total.is_up,
                lag: seen.lag,
            };
            lans.write(place, renewed);
        }
    }
}

/// A logical port, where the members of its logical LAN give this together now.
fn renewed_port<C: Contents>(contents: &C, seen: &PortInView, total: Total) -> PortInView
    ensures { result ≡ port_giving (C.tables contents.now).net total seen.now }
{
    PortInView {
        name: seen.name,
        number: seen.number,
        bridge: seen.bridge,
        lan: seen.lan,
        lan_number: seen.lan_number,
        speed: total.speed,
        settings: seen.settings,
        is_enabled: is_on_now(contents, &seen.name.bridge) && total.is_up,
    }
}

/// Renews these logical ports, where the members of this logical LAN give this together now.
fn renew_ports<C: Contents>(ports: &mut Listed<PortInView>, contents: &C, lan: &Name, total: Total)
    ensures { ports.new ≡ map (port_renewed (C.tables contents.now).net lan.now total) ports.old }
{
    for place in 0..ports.len() {
        let seen = ports.as_slice()[place];
        if seen.lan == *lan {
            ports.write(place, renewed_port(contents, &seen, total));
        }
    }
}

/// A logical port, where its bridge is on or off now.
fn powered_port(seen: &PortInView, is_on: bool) -> PortInView
    ensures { result ≡ powered is_on seen.now }
{
    PortInView {
        name: seen.name,
        number: seen.number,
        bridge: seen.bridge,
        lan: seen.lan,
        lan_number: seen.lan_number,
        speed: seen.speed,
        settings: seen.settings,
        is_enabled: is_on && seen.speed > 0,
    }
}

/// Renews these logical ports, where this bridge is on or off now.
fn power_ports(ports: &mut Listed<PortInView>, bridge: &Name, is_on: bool)
    ensures { ports.new ≡ map (port_powered bridge.now is_on) ports.old }
{
    for place in 0..ports.len() {
        let seen = ports.as_slice()[place];
        if seen.name.bridge == *bridge {
            ports.write(place, powered_port(&seen, is_on));
        }
    }
}

/// The bridges, to be found by number.
fn bridges_again<C: Contents>(
    alloc: Global,
    contents: &C,
) -> Result<Listed<BridgeInView>, AllocError>
    ensures rows { IfOk result (λ v. map named_bridge v ≡ filter_map (named_row (C.tables contents.now).net) (fin.keys (C.tables contents.now).net.bridges)) }
    ensures numbers { IfOk result (λ v. AllByRecursion (λ b. fin.get (C.tables contents.now).numbers.bridges b.name ≡ Some b.bridge.number) v) }
{
    let names = contents.bridge_names(alloc)?;
    listed_bridges(alloc, contents, names.as_slice())
}

/// The settings of this port, and those of a new one where there is none.
fn settings_now<C: Contents>(contents: &C, port: &PortName) -> PortSettings
    ensures { result ≡ settings_there (C.tables contents.now).net port.now }
{
    match contents.port(port) {
        None => PortSettings {
            key: 0,
            external: None,
            is_restricted: false,
        },
        Some(port) => port.settings,
    }
}

/// A logical port that has these settings now.
fn port_with(seen: &PortInView, settings: &PortSettings) -> PortInView
    ensures { result ≡ set_of_port settings.now seen.now }
{
    PortInView {
        name: seen.name,
        number: seen.number,
        bridge: seen.bridge,
        lan: seen.lan,
        lan_number: seen.lan_number,
        speed: seen.speed,
        settings: *settings,
        is_enabled: seen.is_enabled,
    }
}

/// Renews these logical ports, where this one has these settings now.
fn set_port(ports: &mut Listed<PortInView>, port: &PortName, settings: &PortSettings)
    ensures { ports.new ≡ map (port_set port.now settings.now) ports.old }
{
    for place in 0..ports.len() {
        let seen = ports.as_slice()[place];
        if seen.name == *port {
            ports.write(place, port_with(&seen, settings));
        }
    }
}

/// Whether a change of a port leaves what links go by: then `renew_port` renews a view.
pub fn leaves_key(change: &PortChange) -> bool
    ensures { result ≡ leaves_own_key change.now }
{
    !matches!(change, PortChange::Key(_))
}

/// Whether a change of a bridge leaves what links and trees go by, but for whether it is on: then `renew_bridge` renews a view.
pub fn leaves_links(change: &BridgeChange) -> bool
    ensures { result ≡ leaves_what_links change.now }
{
    !matches!(
        change,
        BridgeChange::Kind(_) | BridgeChange::SystemPriority(_)
    )
}

/// Whether a change of what is set by tree or VID leaves the tables of bridges: then `renew_settings` renews a view, and else
/// `renew_tables`.
pub fn leaves_tables(change: &TreeChange) -> bool
    ensures { result ≡ leaves_all_tables change.now }
{
    !matches!(change, TreeChange::Table { .. })
}

/// Renews the view, which is that of the network before the state or the speed of this LAN was changed. It goes over three
/// lists, in one pass each, writes what is on the logical LAN alone, and takes memory for the members of that. `AllocError`:
/// memory was wanted and refused, and the view is as it was.
pub fn renew_lan<C: Contents>(
    alloc: Global,
    view: &mut View,
    contents: &C,
    lan: &Name,
) -> Result<(), AllocError>
    requires { IsViewButLan lan.now (C.tables contents.now).net (C.tables contents.now).numbers view.old }
    ensures ok { OnOk result (IsView (C.tables contents.now).net (C.tables contents.now).numbers view.new) }
    ensures err { OnErr result (view.new ≡ view.old) }
{
    contents.known();
    let logical = logical_of(view.member_lans.as_slice(), lan);
    let total = total_now(alloc, contents, view.member_lans.as_slice(), &logical)?;
    let is_up = is_up_now(contents, lan);
    renew_members(&mut view.member_lans, lan, is_up);
    renew_lans(&mut view.lans, &logical, total);
    renew_ports(&mut view.ports, contents, &logical, total);
    Ok(())
}

/// Renews the view, which is that of the network before another setting of this bridge was changed than its kind and its
/// system priority. It looks up each bridge, and goes over the list of ports in one pass. `AllocError`: memory was wanted
/// and refused, and the view is as it was.
pub fn renew_bridge<C: Contents>(
    alloc: Global,
    view: &mut View,
    contents: &C,
    bridge: &Name,
) -> Result<(), AllocError>
    requires { IsViewButBridge bridge.now (C.tables contents.now).net (C.tables contents.now).numbers view.old }
    ensures ok { OnOk result (IsView (C.tables contents.now).net (C.tables contents.now).numbers view.new) }
    ensures err { OnErr result (view.new ≡ view.old) }
{
    contents.known();
    let is_on = is_on_now(contents, bridge);
    let bridges = bridges_again(alloc, contents)?;
    view.bridges = bridges;
    power_ports(&mut view.ports, bridge, is_on);
    Ok(())
}

/// Renews the view, which is that of the network before something else was set by tree or VID than a table. It copies what
/// is set. `AllocError`: memory was wanted and refused, and the view is as it was.
pub fn renew_settings<C: Contents>(view: &mut View, contents: &C) -> Result<(), AllocError>
    requires { IsViewButSettings (C.tables contents.now).net (C.tables contents.now).numbers view.old }
    ensures ok { OnOk result (IsView (C.tables contents.now).net (C.tables contents.now).numbers view.new) }
    ensures err { OnErr result (view.new ≡ view.old) }
{
    let settings = contents.settings()?;
    view.settings = settings;
    Ok(())
}

/// Renews the view, which is that of the network before something was set by tree or VID. It copies what is set, and goes
/// over the table of each bridge. `AllocError`: memory was wanted and refused, and the view is as it was.
pub fn renew_tables<C: Contents>(
    alloc: Global,
    view: &mut View,
    contents: &C,
) -> Result<(), AllocError>
    requires { IsViewButSet (C.tables contents.now).net (C.tables contents.now).numbers view.old }
    ensures ok { OnOk result (IsView (C.tables contents.now).net (C.tables contents.now).numbers view.new) }
    ensures err { OnErr result (view.new ≡ view.old) }
{
    let trees = listed_trees(alloc, contents, &view.bridges)?;
    let settings = contents.settings()?;
    view.trees = trees;
    view.settings = settings;
    Ok(())
}

/// Renews the view, which is that of the network before another setting of this port was changed than its key. It goes over
/// the list of ports in one pass, and takes no memory, so that no `AllocError` comes.
pub fn renew_port<C: Contents>(
    _alloc: Global,
    view: &mut View,
    contents: &C,
    port: &PortName,
) -> Result<(), AllocError>
    requires { IsViewButPort port.now (C.tables contents.now).net (C.tables contents.now).numbers view.old }
    ensures ok { OnOk result (IsView (C.tables contents.now).net (C.tables contents.now).numbers view.new) }
    ensures err { OnErr result (view.new ≡ view.old) }
{
    let settings = settings_now(contents, port);
    set_port(&mut view.ports, port, &settings);
    Ok(())
}

/// Renews the view, which is that of the network before ports were plugged or unplugged or had other settings. It finds the
/// classes of links anew, and all that goes by them, and leaves the bridges, their trees, and what is set by tree or VID.
/// `AllocError`: memory was wanted and refused, and the view is as it was.
pub fn renew_links<C: Contents>(
    alloc: Global,
    view: &mut View,
    contents: &C,
) -> Result<(), AllocError>
    requires { IsViewButPorts (C.tables contents.now).net (C.tables contents.now).numbers view.old }
    ensures ok { OnOk result (IsView (C.tables contents.now).net (C.tables contents.now).numbers view.new) }
    ensures err { OnErr result (view.new ≡ view.old) }
{
    let links = links_now(alloc, contents)?;
    view.ports = links.ports;
    view.lans = links.lans;
    view.member_lans = links.member_lans;
    view.member_ports = links.member_ports;
    view.lags = links.lags;
    Ok(())
}
