ghost use Rattle.std.specs.Prelude.{◌≡◌, ◌++◌, OnOk};
ghost use Rattle.std.specs.FinMap as fin;
ghost use Rattle.std.specs.List.{flat_map};
ghost use Rattle.mst_edits.specs.Edits.{going, joined, unplug_edits, del_port_edits, del_lan_edits, del_bridge_edits};

use crate::list::push_when;
use crate::staying::{bridge_stays, has_lan, lan_of, plug_stays, port_stays};
use mst_ids::{Name, PortName};
use mst_lang::Edit;
use mst_net::Contents;
use std::alloc::{AllocError, Global};

/// Adds the edits of what goes: its plugs and ports by bridge and number, and LANs and bridges by name.
pub(crate) fn add_going<C: Contents, D: Contents>(
    alloc: Global,
    old: &C,
    new: &D,
    edits: &mut Vec<Edit>,
) -> Result<(), AllocError>
    ensures { OnOk result (edits.new.items ≡ edits.old.items ++ joined (going (C.tables old.now).net (D.tables new.now).net)) }
{
    let ports = old.port_names(alloc)?;
    add_unplugs(old, new, &ports, edits)?;
    add_del_ports(old, new, &ports, edits)?;
    add_del_lans(alloc, old, new, edits)?;
    add_del_bridges(alloc, old, new, edits)
}

fn add_unplugs<C: Contents, D: Contents>(
    old: &C,
    new: &D,
    ports: &[PortName],
    edits: &mut Vec<Edit>,
) -> Result<(), AllocError>
    ensures { OnOk result (edits.new.items ≡ edits.old.items ++ flat_map (unplug_edits (C.tables old.now).net (D.tables new.now).net) ports.now) }
{
    for port in ports {
        add_unplug(old, new, port, edits)?;
    }
    Ok(())
}

fn add_unplug<C: Contents, D: Contents>(
    old: &C,
    new: &D,
    port: &PortName,
    edits: &mut Vec<Edit>,
) -> Result<(), AllocError>
    ensures { OnOk result (edits.new.items ≡ edits.old.items ++ unplug_edits (C.tables old.now).net (D.tables new.now).net port.now) }
{
    let goes = lan_of(old, port).is_some() && !plug_stays(old, new, port);
    push_when(goes, &Edit::Unplug { port: *port }, edits)
}

fn add_del_ports<C: Contents, D: Contents>(
    old: &C,
    new: &D,
    ports: &[PortName],
    edits: &mut Vec<Edit>,
) -> Result<(), AllocError>
    ensures { OnOk result (edits.new.items ≡ edits.old.items ++ flat_map (del_port_edits (C.tables old.now).net (D.tables new.now).net) ports.now) }
{
    for port in ports {
        add_del_port(old, new, port, edits)?;
    }
    Ok(())
}

fn add_del_port<C: Contents, D: Contents>(
    old: &C,
    new: &D,
    port: &PortName,
    edits: &mut Vec<Edit>,
) -> Result<(), AllocError>
    ensures { OnOk result (edits.new.items ≡ edits.old.items ++ del_port_edits (C.tables old.now).net (D.tables new.now).net port.now) }
{
    let goes = !port_stays(old, new, port);
    push_when(goes, &Edit::DelPort { port: *port }, edits)
}

fn add_del_lans<C: Contents, D: Contents>(
    alloc: Global,
    old: &C,
    new: &D,
    edits: &mut Vec<Edit>,
) -> Result<(), AllocError>
    ensures { OnOk result (edits.new.items ≡ edits.old.items ++ flat_map (del_lan_edits (D.tables new.now).net) (fin.keys (C.tables old.now).net.lans)) }
{
    let lans = old.lan_names(alloc)?;
    for lan in lans.as_slice() {
        add_del_lan(new, lan, edits)?;
    }
    Ok(())
}

fn add_del_lan<D: Contents>(new: &D, lan: &Name, edits: &mut Vec<Edit>) -> Result<(), AllocError>
    ensures { OnOk result (edits.new.items ≡ edits.old.items ++ del_lan_edits (D.tables new.now).net lan.now) }
{
    push_when(!has_lan(new, lan), &Edit::DelLan { lan: *lan }, edits)
}

fn add_del_bridges<C: Contents, D: Contents>(
    alloc: Global,
    old: &C,
    new: &D,
    edits: &mut Vec<Edit>,
) -> Result<(), AllocError>
    ensures { OnOk result (edits.new.items ≡ edits.old.items ++ flat_map (del_bridge_edits (C.tables old.now).net (D.tables new.now).net) (fin.keys (C.tables old.now).net.bridges)) }
{
    let bridges = old.bridge_names(alloc)?;
    for bridge in bridges.as_slice() {
        add_del_bridge(old, new, bridge, edits)?;
    }
    Ok(())
}

fn add_del_bridge<C: Contents, D: Contents>(
    old: &C,
    new: &D,
    bridge: &Name,
    edits: &mut Vec<Edit>,
) -> Result<(), AllocError>
    ensures { OnOk result (edits.new.items ≡ edits.old.items ++ del_bridge_edits (C.tables old.now).net (D.tables new.now).net bridge.now) }
{
    let goes = !bridge_stays(old, new, bridge);
    push_when(goes, &Edit::DelBridge { bridge: *bridge }, edits)
}
