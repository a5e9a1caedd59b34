ghost use Rattle.std.specs.Prelude.{◌≡◌, Err, ok_or, if◌then◌else◌};
ghost use Rattle.std.specs.FinMap as fin;
ghost use Rattle.mst_lang.specs.declared.line.Edit.TheVariants.{AddBridge, DelBridge, AddPort, DelPort, AddLan, DelLan, Plug, Unplug, SetByTree};
ghost use Rattle.mst_lang.specs.declared.line.TreeChange.TheVariants.{Table};
ghost use Rattle.mst_tables.specs.After.{first_of, of_bridge, of_port, of_lan, refusal_of};
ghost use Rattle.mst_net.specs.Checks.{answer_of};

use crate::network::Network;
use mst_ids::{Mac, Name, PortName, Tree, VidSet};
use mst_lang::{Edit, TreeChange};
use mst_tables::{KeptPort, Refusal, TREE_LIMIT};

const BRIDGE_LIMIT: usize = 1024;

const PORT_LIMIT: usize = 16_384;

const LAN_LIMIT: usize = 8192;

// What refuses an edit.
impl Network {
    /// Whether nothing refuses the edit, else the least refusal that applies.
    pub(crate) fn check(&self, edit: &Edit) -> Result<(), Refusal>
        ensures { result ≡ answer_of (refusal_of edit.now self.now.net) }
    {
        match *edit {
            Edit::AddBridge { bridge, mac } => self.check_add_bridge(&bridge, mac),
            Edit::DelBridge { bridge } => self.check_del_bridge(&bridge),
            Edit::SetBridge { bridge, .. } => self.check_bridge(&bridge),
            Edit::AddPort { port } => self.check_add_port(&port),
            Edit::DelPort { port } => self.check_del_port(&port),
            Edit::SetPort { port, .. } => self.check_port(&port),
            Edit::AddLan { lan } => self.check_add_lan(&lan),
            Edit::DelLan { lan } => self.check_del_lan(&lan),
            Edit::SetLan { lan, .. } => self.check_lan(&lan),
            Edit::Plug { port, lan } => self.check_plug(&port, &lan),
            Edit::Unplug { port } => self.check_unplug(&port),
            Edit::SetByTree(change) => self.check_by_tree(&change),
        }
    }

    fn check_by_tree(&self, change: &TreeChange) -> Result<(), Refusal>
        ensures { result ≡ answer_of (refusal_of (SetByTree change.now) self.now.net) }
    {
        match *change {
            TreeChange::Priority { bridge, .. } => self.check_bridge(&bridge),
            TreeChange::PortPriority { port, .. } => self.check_port(&port),
            TreeChange::PortCost { port, .. } => self.check_port(&port),
            TreeChange::Table { bridge, tree, vids } => self.check_table(&bridge, tree, &vids),
            TreeChange::Vlans { port, .. } => self.check_port(&port),
        }
    }

    fn check_add_bridge(&self, bridge: &Name, mac: Mac) -> Result<(), Refusal>
        ensures { result ≡ answer_of (refusal_of (AddBridge bridge.now mac) self.now.net) }
    {
        if self.has_bridge(bridge) {
            return Err(Refusal::E07);
        }
        if self.has_mac(mac) {
            return Err(Refusal::E08);
        }
        if self.bridge_count() >= BRIDGE_LIMIT {
            return Err(Refusal::E14);
        }
        Ok(())
    }

    fn check_del_bridge(&self, bridge: &Name) -> Result<(), Refusal>
        ensures { result ≡ answer_of (refusal_of (DelBridge bridge.now) self.now.net) }
    {
        self.check_bridge(bridge)?;
        if self.has_ports(bridge) {
            return Err(Refusal::E12);
        }
        Ok(())
    }

    fn check_bridge(&self, bridge: &Name) -> Result<(), Refusal>
        ensures { result ≡ answer_of (first_of (of_bridge bridge.now self.now.net)) }
    {
        if self.has_bridge(bridge) {
            Ok(())
        } else {
            Err(Refusal::E04)
        }
    }

    fn check_add_port(&self, port: &PortName) -> Result<(), Refusal>
        ensures { result ≡ answer_of (refusal_of (AddPort port.now) self.now.net) }
    {
        if !self.has_bridge(&port.bridge) {
            return Err(Refusal::E04);
        }
        if self.has_port(port) {
            return Err(Refusal::E09);
        }
        if self.port_count() >= PORT_LIMIT {
            return Err(Refusal::E14);
        }
        Ok(())
    }

    fn check_del_port(&self, port: &PortName) -> Result<(), Refusal>
        ensures { result ≡ answer_of (refusal_of (DelPort port.now) self.now.net) }
    {
        if self.known_port(port)?.lan.is_some() {
            return Err(Refusal::E10);
        }
        Ok(())
    }

    fn check_add_lan(&self, lan: &Name) -> Result<(), Refusal>
        ensures { result ≡ answer_of (refusal_of (AddLan lan.now) self.now.net) }
    {
        if self.has_lan(lan) {
            return Err(Refusal::E07);
        }
        if self.lan_count() >= LAN_LIMIT {
            return Err(Refusal::E14);
        }
        Ok(())
    }

    fn check_del_lan(&self, lan: &Name) -> Result<(), Refusal>
        ensures { result ≡ answer_of (refusal_of (DelLan lan.now) self.now.net) }
    {
        self.check_lan(lan)?;
        if self.has_plugs(lan) {
            return Err(Refusal::E13);
        }
        Ok(())
    }

    fn check_lan(&self, lan: &Name) -> Result<(), Refusal>
        ensures { result ≡ answer_of (first_of (of_lan lan.now self.now.net)) }
    {
        if self.has_lan(lan) {
            Ok(())
        } else {
            Err(Refusal::E06)
        }
    }

    /// The settings of a port, or why there are none.
    fn known_port(&self, port: &PortName) -> Result<KeptPort, Refusal>
        ensures { result ≡ (if fin.contains_key self.now.net.bridges port.now.bridge then ok_or (fin.get self.now.net.ports port.now) Refusal.E05 else Err Refusal.E04) }
    {
        if !self.has_bridge(&port.bridge) {
            return Err(Refusal::E04);
        }
        self.port_settings(port).ok_or(Refusal::E05)
    }

    fn check_port(&self, port: &PortName) -> Result<(), Refusal>
        ensures { result ≡ answer_of (first_of (of_port port.now self.now.net)) }
    {
        let _settings = self.known_port(port)?;
        Ok(())
    }

    fn check_plug(&self, port: &PortName, lan: &Name) -> Result<(), Refusal>
        ensures { result ≡ answer_of (refusal_of (Plug port.now lan.now) self.now.net) }
    {
        let settings = self.known_port(port)?;
        if !self.has_lan(lan) {
            return Err(Refusal::E06);
        }
        if settings.lan.is_some() {
            return Err(Refusal::E10);
        }
        Ok(())
    }

    fn check_unplug(&self, port: &PortName) -> Result<(), Refusal>
        ensures { result ≡ answer_of (refusal_of (Unplug port.now) self.now.net) }
    {
        let settings = self.known_port(port)?;
        if settings.lan.is_some() {
            Ok(())
        } else {
            Err(Refusal::E11)
        }
    }

    fn check_table(&self, bridge: &Name, tree: Tree, vids: &VidSet) -> Result<(), Refusal>
        ensures { result ≡ answer_of (refusal_of (SetByTree (Table bridge.now tree vids.now)) self.now.net) }
    {
        self.check_bridge(bridge)?;
        if self.settings.has_room_for_tree(bridge) {
            return Ok(());
        }
        let table = self.settings.table_with(bridge, tree, vids);
        if table.tree_count() > TREE_LIMIT {
            return Err(Refusal::E15);
        }
        Ok(())
    }
}
