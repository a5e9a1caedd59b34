ghost use Rattle.std.specs.Prelude.{◌≡◌, ◌∷◌, ◌++◌, [], OnOk, OnErr};
ghost use Rattle.mst_policy.specs.Items.{item_has, item_is, ports_have, port_item, port_item_has, has, lists, has_port};

use mst_ids::{Name, PortName, PortNumber};
use std::alloc::{AllocError, Global};
use std::marker::Model;

/// An item of a list of names.
#[derive(Clone, Copy)]
pub enum NameItem {
    /// A name.
    Is(Name),
    /// A beginning of names: it has the form of a name.
    Begins(Name),
    /// Every name.
    Any,
}

impl NameItem {
    /// Whether it has a name.
    pub fn has(&self, name: &Name) -> bool
        ensures { result ≡ item_has self.now name.now }
    {
        match self {
            NameItem::Is(own) => *own == *name,
            NameItem::Begins(front) => name.as_bytes().starts_with(front.as_bytes()),
            NameItem::Any => true,
        }
    }

    /// Whether it is the name itself, and no beginning of it.
    pub fn is(&self, name: &Name) -> bool
        ensures { result ≡ item_is self.now name.now }
    {
        match self {
            NameItem::Is(own) => *own == *name,
            NameItem::Begins(_) => false,
            NameItem::Any => false,
        }
    }
}

/// Which ports of a bridge an item has.
#[derive(Clone, Copy)]
pub enum PortsOf {
    /// The one of this number.
    One(PortNumber),
    /// Every port.
    All,
}

/// An item of a list of ports: those of some numbers on the bridges of some names.
#[derive(Clone, Copy)]
pub struct PortItem {
    pub bridge: NameItem,
    pub ports: PortsOf,
}

impl PortItem {
    /// Whether it has a port.
    pub fn has(&self, port: &PortName) -> bool
        ensures { result ≡ port_item_has self.now port.now }
    {
        self.bridge.has(&port.bridge) && have_number(self.ports, port.number)
    }
}

fn have_number(ports: PortsOf, number: PortNumber) -> bool
    ensures { result ≡ ports_have ports number }
{
    match ports {
        PortsOf::One(own) => own == number,
        PortsOf::All => true,
    }
}

/// A list of names, as its items.
#[derive(Drop)]
pub struct NameList {
    items: Vec<NameItem>,
}

impl Model for NameList {
    ghost use Rattle.std.specs.Prelude.{List};
    ghost use Rattle.mst_policy.specs.declared.item.NameItem.{NameItem as NameItemOf};

    ghost Value = { List NameItemOf };

    ghost view = { λ l. l.items.items };
}

impl NameList {
    /// No items.
    pub(crate) fn new(alloc: Global) -> NameList
        ensures { result ≡ [] }
    {
        NameList {
            items: Vec::new(alloc),
        }
    }

    /// Puts an item behind the others, or changes nothing.
    pub(crate) fn push(&mut self, item: NameItem) -> Result<(), AllocError>
        ensures ok { OnOk result (self.new ≡ self.old ++ item ∷ []) }
        ensures err { OnErr result (self.new ≡ self.old) }
    {
        self.items.push(item)?;
        Ok(())
    }

    /// The items, in their order.
    pub fn as_slice(&self) -> &[NameItem]
        ensures { result.now ≡ self.now }
    {
        self.items.as_slice()
    }

    /// Whether some item has a name.
    pub fn has(&self, name: &Name) -> bool
        ensures { result ≡ has self.now name.now }
    {
        self.items.iter().any(|item| item.has(name))
    }

    /// Whether the name itself is an item.
    pub fn lists(&self, name: &Name) -> bool
        ensures { result ≡ lists self.now name.now }
    {
        self.items.iter().any(|item| item.is(name))
    }
}

/// A list of ports, as its items.
#[derive(Drop)]
pub struct PortList {
    items: Vec<PortItem>,
}

impl Model for PortList {
    ghost use Rattle.std.specs.Prelude.{List};
    ghost use Rattle.mst_policy.specs.declared.item.PortItem.{PortItem as PortItemOf};

    ghost Value = { List PortItemOf };

    ghost view = { λ l. l.items.items };
}

impl PortList {
    /// No items.
    pub(crate) fn new(alloc: Global) -> PortList
        ensures { result ≡ [] }
    {
        PortList {
            items: Vec::new(alloc),
        }
    }

    /// Puts an item behind the others, or changes nothing.
    pub(crate) fn push(&mut self, bridge: NameItem, ports: PortsOf) -> Result<(), AllocError>
        ensures ok { OnOk result (self.new ≡ self.old ++ port_item bridge ports ∷ []) }
        ensures err { OnErr result (self.new ≡ self.old) }
    {
        self.items.push(PortItem { bridge, ports })?;
        Ok(())
    }

    /// The items, in their order.
    pub fn as_slice(&self) -> &[PortItem]
        ensures { result.now ≡ self.now }
    {
        self.items.as_slice()
    }

    /// Whether some item has a port.
    pub fn has(&self, port: &PortName) -> bool
        ensures { result ≡ has_port self.now port.now }
    {
        self.items.iter().any(|item| item.has(port))
    }
}
