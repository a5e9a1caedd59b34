ghost use Rattle.std.specs.Prelude.{◌≡◌};
ghost use Rattle.std.specs.Option.{option_map};
ghost use Rattle.mst_tables.specs.After.{bridge_with, port_with, lan_with, in_lan};
ghost use Rattle.mst_net.specs.Foreseen.{bridge_row_after, port_row_after, lan_row_after, bridge_number_after, port_number_after, lan_number_after, bridge_name_after, port_name_after, lan_name_after, table_after};

use crate::names::{with_name, without_name};
use crate::network::{Network, kept_bridge, kept_lan, kept_port};
use mst_ids::{BridgeNo, LanNo, Name, PortName, PortNo, Tree};
use mst_lang::{BridgeChange, Edit, LanChange, PortChange, TreeChange};
use mst_records::Record;
use mst_tables::{
    Bridge, BridgeSettings, Contents, KeptPort, Lan, LanSettings, Port, Table, TreeSettings,
};
use std::alloc::{AllocError, Global};
use std::marker::Model;

/// A network as it will be once an edit is made.
#[derive(Drop)]
pub struct Ahead<'a> {
    pub(crate) network: &'a Network,
    pub(crate) edit: &'a Edit,
}

impl<'a> Model for Ahead<'a> {
    ghost use Rattle.mst_tables.specs.Contents.{CanCommit, Tables, tables_code, ahead_of};

    ghost Value = { Tables };

    ghost coded = { tables_code };

    ghost view = { λ a. ahead_of a.network.now a.edit.now };

    ghost invariant = { λ a. CanCommit a.edit.now a.network.now };
}

impl Contents for Ahead<'_> {
    ghost tables = { λ a. a };

    fn known(&self) {
        self.network.known();
        let _next = (
            self.network.next_bridge(),
            self.network.next_port(),
            self.network.next_lan(),
        );
    }

    fn bridge(&self, name: &Name) -> Option<Bridge> {
        kept_bridge(bridge_after(
            self.edit,
            self.network.next_bridge(),
            name,
            self.network.bridge_record(name),
        ))
    }

    fn port(&self, name: &PortName) -> Option<Port> {
        kept_port(port_after(
            self.edit,
            self.network.next_port(),
            name,
            self.network.port_record(name),
        ))
    }

    fn lan(&self, name: &Name) -> Option<Lan> {
        kept_lan(lan_after(
            self.edit,
            self.network.next_lan(),
            name,
            self.network.lan_record(name),
        ))
    }

    fn bridge_name(&self, number: BridgeNo) -> Option<Name> {
        self.network.known();
        bridge_name_ahead(
            self.edit,
            BridgeNo(self.network.next_bridge()),
            number,
            self.network.bridge_name(number),
        )
    }

    fn port_name(&self, number: PortNo) -> Option<PortName> {
        self.network.known();
        port_name_ahead(
            self.edit,
            PortNo(self.network.next_port()),
            number,
            self.network.port_name(number),
        )
    }

    fn lan_name(&self, number: LanNo) -> Option<Name> {
        self.network.known();
        lan_name_ahead(
            self.edit,
            LanNo(self.network.next_lan()),
            number,
            self.network.lan_name(number),
        )
    }

    fn bridge_names(&self, alloc: Global) -> Result<Vec<Name>, AllocError> {
        let names = self.network.bridge_names(alloc)?;
        match *self.edit {
            Edit::AddBridge { bridge, .. } => with_name(names, bridge),
            Edit::DelBridge { bridge } => Ok(without_name(names, bridge)),
            _ => Ok(names),
        }
    }

    fn port_names(&self, alloc: Global) -> Result<Vec<PortName>, AllocError> {
        let names = self.network.port_names(alloc)?;
        match *self.edit {
            Edit::AddPort { port } => with_name(names, port),
            Edit::DelPort { port } => Ok(without_name(names, port)),
            _ => Ok(names),
        }
    }

    fn lan_names(&self, alloc: Global) -> Result<Vec<Name>, AllocError> {
        let names = self.network.lan_names(alloc)?;
        match *self.edit {
            Edit::AddLan { lan } => with_name(names, lan),
            Edit::DelLan { lan } => Ok(without_name(names, lan)),
            _ => Ok(names),
        }
    }

    fn mstis(&self, bridge: &Name, alloc: Global) -> Result<Vec<Tree>, AllocError> {
        let table = self.table(bridge);
        table.mstis(alloc)
    }

    fn table(&self, bridge: &Name) -> Table {
        table_ahead(self.edit, bridge, self.network.table(bridge))
    }

    fn settings(&self) -> Result<TreeSettings, AllocError> {
        self.network.known();
        let mut settings = self.network.settings()?;
        settings.reserve(self.edit)?;
        settings.make(self.edit);
        Ok(settings)
    }
}

/// What the edit makes of the record of the bridge of this name.
fn bridge_after(
    edit: &Edit,
    next: usize,
    name: &Name,
    there: Option<Record<BridgeSettings>>,
) -> Option<Record<BridgeSettings>>
    ensures row { option_map (λ found. found.row) result ≡ bridge_row_after edit.now name.now (option_map (λ found. found.row) there) }
    ensures number { option_map (λ found. found.number) result ≡ bridge_number_after edit.now next name.now (option_map (λ found. found.number) there) }
{
    match *edit {
        Edit::AddBridge { bridge, mac } if bridge == *name => Some(Record {
            number: next,
            row: BridgeSettings::new(mac),
        }),
        Edit::DelBridge { bridge } if bridge == *name => None,
        Edit::SetBridge { bridge, change } if bridge == *name => with_bridge_set(there, &change),
        _ => there,
    }
}

/// The record of a bridge, if it is there, with a change.
fn with_bridge_set(
    there: Option<Record<BridgeSettings>>,
    change: &BridgeChange,
) -> Option<Record<BridgeSettings>>
    ensures row { option_map (λ found. found.row) result ≡ option_map (bridge_with change.now) (option_map (λ found. found.row) there) }
    ensures number { option_map (λ found. found.number) result ≡ option_map (λ found. found.number) there }
{
    let Record { number, row } = there?;
    Some(Record {
        number,
        row: row.with(change),
    })
}

/// What the edit makes of the record of the port of this name.
fn port_after(
    edit: &Edit,
    next: usize,
    name: &PortName,
    there: Option<Record<KeptPort>>,
) -> Option<Record<KeptPort>>
    ensures row { option_map (λ found. found.row) result ≡ port_row_after edit.now name.now (option_map (λ found. found.row) there) }
    ensures number { option_map (λ found. found.number) result ≡ port_number_after edit.now next name.now (option_map (λ found. found.number) there) }
{
    match *edit {
        Edit::AddPort { port } if port == *name => Some(Record {
            number: next,
            row: KeptPort::new(),
        }),
        Edit::DelPort { port } if port == *name => None,
        Edit::Plug { port, lan } if port == *name => in_other_lan(there, Some(lan)),
        Edit::Unplug { port } if port == *name => in_other_lan(there, None),
        Edit::SetPort { port, change } if port == *name => with_port_set(there, &change),
        _ => there,
    }
}

/// The record of a port, if it is there, with a change.
fn with_port_set(there: Option<Record<KeptPort>>, change: &PortChange) -> Option<Record<KeptPort>>
    ensures row { option_map (λ found. found.row) result ≡ option_map (port_with change.now) (option_map (λ found. found.row) there) }
    ensures number { option_map (λ found. found.number) result ≡ option_map (λ found. found.number) there }
{
    let Record { number, row } = there?;
    Some(Record {
        number,
        row: row.with(change),
    })
}

/// The record of a port, if it is there, in a LAN or in none.
fn in_other_lan(there: Option<Record<KeptPort>>, lan: Option<Name>) -> Option<Record<KeptPort>>
    ensures row { option_map (λ found. found.row) result ≡ option_map (in_lan lan) (option_map (λ found. found.row) there) }
    ensures number { option_map (λ found. found.number) result ≡ option_map (λ found. found.number) there }
{
    let Record { number, row } = there?;
    Some(Record {
        number,
        row: row.in_lan(lan),
    })
}

/// What the edit makes of the record of the LAN of this name.
fn lan_after(
    edit: &Edit,
    next: usize,
    name: &Name,
    there: Option<Record<LanSettings>>,
) -> Option<Record<LanSettings>>
    ensures row { option_map (λ found. found.row) result ≡ lan_row_after edit.now name.now (option_map (λ found. found.row) there) }
    ensures number { option_map (λ found. found.number) result ≡ lan_number_after edit.now next name.now (option_map (λ found. found.number) there) }
{
    match *edit {
        Edit::AddLan { lan } if lan == *name => Some(Record {
            number: next,
            row: LanSettings::new(),
        }),
        Edit::DelLan { lan } if lan == *name => None,
        Edit::SetLan { lan, change } if lan == *name => with_lan_set(there, &change),
        _ => there,
    }
}

/// The record of a LAN, if it is there, with a change.
fn with_lan_set(
    there: Option<Record<LanSettings>>,
    change: &LanChange,
) -> Option<Record<LanSettings>>
    ensures row { option_map (λ found. found.row) result ≡ option_map (lan_with change.now) (option_map (λ found. found.row) there) }
    ensures number { option_map (λ found. found.number) result ≡ option_map (λ found. found.number) there }
{
    let Record { number, row } = there?;
    Some(Record {
        number,
        row: row.with(change),
    })
}

/// What the edit makes of the name of the bridge that has a number.
fn bridge_name_ahead(
    edit: &Edit,
    next: BridgeNo,
    number: BridgeNo,
    there: Option<Name>,
) -> Option<Name>
    ensures { result ≡ bridge_name_after edit.now next number there }
{
    match *edit {
        Edit::AddBridge { bridge, .. } if next == number => Some(bridge),
        Edit::DelBridge { bridge } if there == Some(bridge) => None,
        _ => there,
    }
}

/// What the edit makes of the name of the port that has a number.
fn port_name_ahead(
    edit: &Edit,
    next: PortNo,
    number: PortNo,
    there: Option<PortName>,
) -> Option<PortName>
    ensures { result ≡ port_name_after edit.now next number there }
{
    match *edit {
        Edit::AddPort { port } if next == number => Some(port),
        Edit::DelPort { port } if there == Some(port) => None,
        _ => there,
    }
}

/// What the edit makes of the name of the LAN that has a number.
fn lan_name_ahead(edit: &Edit, next: LanNo, number: LanNo, there: Option<Name>) -> Option<Name>
    ensures { result ≡ lan_name_after edit.now next number there }
{
    match *edit {
        Edit::AddLan { lan } if next == number => Some(lan),
        Edit::DelLan { lan } if there == Some(lan) => None,
        _ => there,
    }
}

/// What the edit makes of the table of a bridge.
fn table_ahead(edit: &Edit, name: &Name, there: Table) -> Table
    ensures { result ≡ table_after edit.now name.now there }
{
    match *edit {
        Edit::DelBridge { bridge } if bridge == *name => Table::new(),
        Edit::SetByTree(TreeChange::Table { bridge, tree, vids }) if bridge == *name => {
            let mut table = there;
            table.map(&vids, tree);
            table
        }
        _ => there,
    }
}
