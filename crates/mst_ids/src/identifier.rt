ghost use Rattle.std.specs.Prelude.{◌≡◌, ℕ, ◌+◌, ◌*◌, ◌/◌, ◌%◌, ◌^◌, ◌<◌, ◌≤◌, ◌++◌, OnOk, OnErr};
ghost use Rattle.std.specs.Option.{SomeIff};
ghost use Rattle.mst_ids.specs.Identifiers.{bridge_id, port_id, priority_of, system_id_of, mac_of, port_priority_of, port_number_of};
ghost use Rattle.mst_ids.specs.Texts.{bridge_id_text, port_id_text};

use crate::mac::{Mac, digits_of as mac_digits_of};
use crate::number::{PortNumber, Priority, Tree};
use crate::text::{hex_four, push_bytes};
use std::alloc::AllocError;
use std::marker::Model;

/// A Bridge Identifier (802.1Q-2022, 13.26.2): 4 bits of priority, the 12-bit system ID extension,
/// which is the tree's number, and the MAC address. The lower number is the better.
#[derive(Clone, Copy, Debug, PartialEq, Eq, PartialOrd, Ord)]
pub struct BridgeId {
    number: u64,
}

impl Model for BridgeId {
    ghost use Rattle.std.specs.Prelude.{ℕ};

    ghost Value = { ℕ };

    ghost view = { λ a. a.number };

    ghost inverse = { λ n. record { number = n } };
}

impl BridgeId {
    /// The identifier of a bridge in a tree.
    pub fn new(priority: Priority, tree: Tree, mac: Mac) -> BridgeId
        ensures { result ≡ bridge_id priority tree mac }
    {
        let first = u64::from(priority.step()) * 4096 + u64::from(tree.value());
        BridgeId {
            number: first * 0x1_0000_0000_0000 + mac.number(),
        }
    }

    /// The identifier of this number. Each number of 64 bits is one: a received identifier may have any.
    pub fn from_number(number: u64) -> BridgeId
        ensures { result ≡ number }
    {
        BridgeId { number }
    }

    /// The identifier that stands for a region: priority 0, system ID extension 0 and the MAC address of
    /// one of its bridges.
    pub fn of_region(mac: Mac) -> BridgeId
        ensures { result ≡ bridge_id 0 0 mac }
    {
        BridgeId {
            number: mac.number(),
        }
    }

    /// The priority, 0 to 15.
    pub fn priority(self) -> Priority
        ensures { result ≡ priority_of self }
    {
        Priority::of_top_bits((self.number / 0x1000_0000_0000_0000) as u8)
    }

    /// The system ID extension of 12 bits: the number of a tree, or 4095, which no tree has.
    pub fn system_id(self) -> u16
        ensures { result ≡ system_id_of self }
    {
        (self.number / 0x1_0000_0000_0000 % 4096) as u16
    }

    /// The MAC address.
    pub fn mac(self) -> Mac
        ensures { result ≡ mac_of self }
    {
        Mac::from_number(self.number % 0x1_0000_0000_0000)
    }

    /// The identifier as a number of 64 bits.
    pub fn number(self) -> u64
        ensures { result ≡ self }
    {
        self.number
    }

    /// The text: four lower case digits, `.` and the MAC's text.
    pub fn text(self) -> [u8; 22]
        ensures { result ≡ bridge_id_text self }
    {
        digits_of(self.number)
    }

    /// Appends the text, or changes nothing.
    pub fn push_text(&self, out: &mut Vec<u8>) -> Result<(), AllocError>
        ensures ok { OnOk result (out.new.items ≡ out.old.items ++ bridge_id_text self.now) }
        ensures err { OnErr result (out.new.items ≡ out.old.items) }
    {
        push_bytes(&digits_of(self.number), out)
    }
}

/// The text of a Bridge Identifier's number.
#[tactic(auto, unfolding(crate::specs::Texts::bridge_id_text, crate::specs::Texts::mac_text))]
fn digits_of(number: u64) -> [u8; 22]
    ensures { result ≡ bridge_id_text number }
{
    let [a, b, c, d] = hex_four((number / 0x1_0000_0000_0000) as u16);
    let [e, f, g, h, i, j, k, l, m, n, o, p, q, r, s, t, u] = mac_digits_of(
        number % 0x1_0000_0000_0000,
    );
    [
        a, b, c, d, b'.', e, f, g, h, i, j, k, l, m, n, o, p, q, r, s, t, u,
    ]
}

/// A Port Identifier (802.1Q-2022, 13.27.46): 4 bits of priority and the 12-bit port number. The
/// lower number is the better.
#[derive(Clone, Copy, Debug, PartialEq, Eq, PartialOrd, Ord)]
pub struct PortId {
    number: u16,
}

impl Model for PortId {
    ghost use Rattle.std.specs.Prelude.{ℕ};

    ghost Value = { ℕ };

    ghost view = { λ a. a.number };

    ghost inverse = { λ n. record { number = n } };
}

impl PortId {
    /// The identifier of a port, by its priority and its number.
    pub fn new(priority: Priority, port: PortNumber) -> PortId
        ensures { result ≡ port_id priority port }
    {
        PortId {
            number: u16::from(priority.step()) * 4096 + port.value(),
        }
    }

    /// The identifier of this number. Each number of 16 bits is one: a received identifier may have any.
    pub fn from_number(number: u16) -> PortId
        ensures { result ≡ number }
    {
        PortId { number }
    }

    /// The priority, 0 to 15.
    pub fn priority(self) -> Priority
        ensures { result ≡ port_priority_of self }
    {
        Priority::of_top_bits((self.number / 4096) as u8)
    }

    /// The port number, or nothing for 0, which no port has.
    pub fn port(self) -> Option<PortNumber>
        ensures { SomeIff result (1 ≤ port_number_of self) (port_number_of self) }
    {
        PortNumber::new(u64::from(self.number % 4096))
    }

    /// The number 0, which stands in a vector where no port does.
    pub fn none() -> PortId
        ensures { result ≡ 0 }
    {
        PortId { number: 0 }
    }

    /// The identifier as a number of 16 bits.
    pub fn number(self) -> u16
        ensures { result ≡ self }
    {
        self.number
    }

    /// The text: four lower case digits.
    #[tactic(auto, unfolding(crate::specs::Texts::port_id_text))]
    pub fn text(self) -> [u8; 4]
        ensures { result ≡ port_id_text self }
    {
        hex_four(self.number)
    }

    /// Appends the text, or changes nothing.
    pub fn push_text(&self, out: &mut Vec<u8>) -> Result<(), AllocError>
        ensures ok { OnOk result (out.new.items ≡ out.old.items ++ port_id_text self.now) }
        ensures err { OnErr result (out.new.items ≡ out.old.items) }
    {
        push_bytes(&self.text(), out)
    }
}
