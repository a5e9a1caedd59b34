//! Laws of views. Their functions do nothing: a caller has their clauses.
ghost use Rattle.std.specs.Prelude.{◌≡◌, List, ℕ, true};
ghost use Rattle.mst_lang.specs.declared.line.Edit.TheVariants.{SetBridge, SetLan, SetPort, SetByTree, Plug, Unplug};
ghost use Rattle.mst_lang.specs.declared.line.BridgeChange.{BridgeChange};
ghost use Rattle.mst_lang.specs.declared.line.LanChange.{LanChange};
ghost use Rattle.mst_ids.specs.declared.name.PortName.{PortName};
ghost use Rattle.mst_lang.specs.declared.line.PortChange.{PortChange};
ghost use Rattle.mst_lang.specs.declared.line.TreeChange.{TreeChange};
ghost use Rattle.mst_tables.specs.Tables.{Net, Numbers, IsNetwork};
ghost use Rattle.mst_tables.specs.After.{effect};
ghost use Rattle.mst_tables.specs.Contents.{Contents, Commits, IsNumbered};
ghost use Rattle.mst_view.specs.Viewed.{Viewed, IsView};
ghost use Rattle.mst_lag.specs.Renewed.{IsViewButLan, IsViewButBridge, IsViewButSet, IsViewButSettings, leaves_links, leaves_tables, leaves_key, IsViewButPort, IsViewButPorts};

/// An edit of the state or the speed of a LAN changes nothing else: the view before it is that of the network that it makes,
/// but for this LAN, and the view after it that of the network before.
pub fn lan_alone()
    ensures ahead { (lan : List ℕ) (change : LanChange) (net : Net) (numbers : Numbers) (v : Viewed) → IsView net numbers v → IsViewButLan lan (effect (SetLan lan change) net) numbers v }
    ensures back { (lan : List ℕ) (change : LanChange) (net : Net) (numbers : Numbers) (v : Viewed) → IsView (effect (SetLan lan change) net) numbers v → IsViewButLan lan net numbers v }
    ensures made { (lan : List ℕ) (change : LanChange) (old new : Contents) (v : Viewed) → Commits (SetLan lan change) old new → IsView old.net old.numbers v → IsViewButLan lan new.net new.numbers v }
{}

/// An edit of a bridge's power, its configuration or its limits changes nothing else: the view before it is that of the network
/// that it makes, but for this bridge, and the view after it that of the network before.
pub fn bridge_alone()
    ensures ahead { (bridge : List ℕ) (change : BridgeChange) (net : Net) (numbers : Numbers) (v : Viewed) → leaves_links change ≡ true → IsView net numbers v → IsViewButBridge bridge (effect (SetBridge bridge change) net) numbers v }
    ensures back { (bridge : List ℕ) (change : BridgeChange) (net : Net) (numbers : Numbers) (v : Viewed) → leaves_links change ≡ true → IsView (effect (SetBridge bridge change) net) numbers v → IsViewButBridge bridge net numbers v }
    ensures made { (bridge : List ℕ) (change : BridgeChange) (old new : Contents) (v : Viewed) → leaves_links change ≡ true → Commits (SetBridge bridge change) old new → IsView old.net old.numbers v → IsViewButBridge bridge new.net new.numbers v }
{}

/// An edit of what is set by tree or VID changes nothing else.
pub fn set_alone()
    ensures made { (change : TreeChange) (old new : Contents) (v : Viewed) → Commits (SetByTree change) old new → IsView old.net old.numbers v → IsViewButSet new.net new.numbers v }
    ensures settings { (change : TreeChange) (old new : Contents) (v : Viewed) → leaves_tables change ≡ true → Commits (SetByTree change) old new → IsView old.net old.numbers v → IsViewButSettings new.net new.numbers v }
{}

/// An edit of another setting of a port than its key changes nothing else.
pub fn port_alone()
    ensures { (port : PortName) (change : PortChange) (old new : Contents) (v : Viewed) → leaves_key change ≡ true → IsNetwork old.net → IsNumbered old.net old.numbers
        → Commits (SetPort port change) old new → IsView old.net old.numbers v → IsViewButPort port new.net new.numbers v }
{}

/// An edit of a port, or of where it is plugged, changes nothing else.
pub fn ports_alone()
    ensures set { (port : PortName) (change : PortChange) (old new : Contents) (v : Viewed) → Commits (SetPort port change) old new → IsView old.net old.numbers v → IsViewButPorts new.net new.numbers v }
    ensures plugged { (port : PortName) (lan : List ℕ) (old new : Contents) (v : Viewed) → Commits (Plug port lan) old new → IsView old.net old.numbers v → IsViewButPorts new.net new.numbers v }
    ensures unplugged { (port : PortName) (old new : Contents) (v : Viewed) → Commits (Unplug port) old new → IsView old.net old.numbers v → IsViewButPorts new.net new.numbers v }
{}
