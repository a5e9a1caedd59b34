ghost use Rattle.mst_lang.specs.declared.line.Edit.TheVariants.{AddBridge, DelBridge, SetBridge, AddPort, DelPort, SetPort, AddLan, DelLan, SetLan, Plug, Unplug, SetByTree};
ghost use Rattle.mst_tables.specs.Contents.{CanCommit, Makes};

use crate::network::Network;
use mst_ids::{Mac, Name, PortName};
use mst_lang::{BridgeChange, Edit, LanChange, PortChange, TreeChange};
use mst_tables::{BridgeSettings, KeptPort, LanSettings};

// What edits make of the records.
impl Network {
    /// Makes an edit. It takes no memory.
    pub(crate) fn make(&mut self, edit: &Edit)
        requires { CanCommit edit.now self.old }
        ensures { Makes edit.now self.old self.new }
    {
        match *edit {
            Edit::AddBridge { bridge, mac } => self.add_bridge(bridge, mac),
            Edit::DelBridge { bridge } => self.del_bridge(&bridge),
            Edit::SetBridge { bridge, change } => self.set_bridge(&bridge, &change),
            Edit::AddPort { port } => self.add_port(port),
            Edit::DelPort { port } => self.del_port(&port),
            Edit::SetPort { port, change } => self.set_port(&port, &change),
            Edit::AddLan { lan } => self.add_lan(lan),
            Edit::DelLan { lan } => self.del_lan(&lan),
            Edit::SetLan { lan, change } => self.set_lan(&lan, &change),
            Edit::Plug { port, lan } => self.plug(&port, lan),
            Edit::Unplug { port } => self.unplug(&port),
            Edit::SetByTree(change) => self.set_by_tree(&change),
        }
    }

    fn add_bridge(&mut self, bridge: Name, mac: Mac)
        requires { CanCommit (AddBridge bridge mac) self.old }
        ensures { Makes (AddBridge bridge mac) self.old self.new }
    {
        let _ = self.macs.insert(mac).unwrap();
        self.bridges.add(bridge, BridgeSettings::new(mac));
    }

    fn del_bridge(&mut self, bridge: &Name)
        requires { CanCommit (DelBridge bridge.now) self.old }
        ensures { Makes (DelBridge bridge.now) self.old self.new }
    {
        let settings = self.bridge_settings(bridge).unwrap();
        let _ = self.macs.swap_remove(&settings.mac);
        self.bridges.remove(bridge);
        self.settings.forget_bridge(bridge);
    }

    /// Sets something of the bridge of this name.
    fn set_bridge(&mut self, bridge: &Name, change: &BridgeChange)
        requires { CanCommit (SetBridge bridge.now change.now) self.old }
        ensures { Makes (SetBridge bridge.now change.now) self.old self.new }
    {
        let settings = self.bridge_settings(bridge).unwrap();
        self.bridges.set(bridge, settings.with(change));
    }

    fn add_port(&mut self, port: PortName)
        requires { CanCommit (AddPort port) self.old }
        ensures { Makes (AddPort port) self.old self.new }
    {
        let bridge = port.bridge;
        self.ports.add(port, KeptPort::new());
        self.port_counts.raise(bridge);
    }

    fn del_port(&mut self, port: &PortName)
        requires { CanCommit (DelPort port.now) self.old }
        ensures { Makes (DelPort port.now) self.old self.new }
    {
        self.ports.remove(port);
        self.port_counts.lower(&port.bridge);
        self.settings.forget_port(port);
    }

    /// Sets something of the port of this name, but for the LAN that it is in.
    fn set_port(&mut self, port: &PortName, change: &PortChange)
        requires { CanCommit (SetPort port.now change.now) self.old }
        ensures { Makes (SetPort port.now change.now) self.old self.new }
    {
        let settings = self.port_settings(port).unwrap();
        self.ports.set(port, settings.with(change));
    }

    fn plug(&mut self, port: &PortName, lan: Name)
        requires { CanCommit (Plug port.now lan) self.old }
        ensures { Makes (Plug port.now lan) self.old self.new }
    {
        let settings = self.port_settings(port).unwrap();
        self.ports.set(port, settings.in_lan(Some(lan)));
        self.plug_counts.raise(lan);
    }

    fn unplug(&mut self, port: &PortName)
        requires { CanCommit (Unplug port.now) self.old }
        ensures { Makes (Unplug port.now) self.old self.new }
    {
        let settings = self.port_settings(port).unwrap();
        let lan = settings.lan.unwrap();
        self.ports.set(port, settings.in_lan(None));
        self.plug_counts.lower(&lan);
    }

    fn add_lan(&mut self, lan: Name)
        requires { CanCommit (AddLan lan) self.old }
        ensures { Makes (AddLan lan) self.old self.new }
    {
        self.lans.add(lan, LanSettings::new());
    }

    fn del_lan(&mut self, lan: &Name)
        requires { CanCommit (DelLan lan.now) self.old }
        ensures { Makes (DelLan lan.now) self.old self.new }
    {
        self.lans.remove(lan);
    }

    /// Sets something of the LAN of this name.
    fn set_lan(&mut self, lan: &Name, change: &LanChange)
        requires { CanCommit (SetLan lan.now change.now) self.old }
        ensures { Makes (SetLan lan.now change.now) self.old self.new }
    {
        let settings = self.lan_settings(lan).unwrap();
        self.lans.set(lan, settings.with(change));
    }

    /// Sets something by tree or VID.
    fn set_by_tree(&mut self, change: &TreeChange)
        requires { CanCommit (SetByTree change.now) self.old }
        ensures { Makes (SetByTree change.now) self.old self.new }
    {
        self.settings.set(change);
    }
}
