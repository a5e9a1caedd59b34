ghost use Rattle.std.specs.Prelude.{◌≡◌, ◌==◌, true};
ghost use Rattle.std.specs.List.{find};
ghost use Rattle.std.specs.Option.{option_copied, option_map};
ghost use Rattle.mst_ids.specs.Identifiers.{port_number_of};
ghost use Rattle.mst_tables.specs.After.{is_rstp};
ghost use Rattle.mst_view.specs.Viewed.{named_port};
ghost use Rattle.mst_bpdu.specs.Sender.{port_of as port_id_of};
ghost use Rattle.mst_compare.specs.Sender.{sends as is_sent_by, is_port, sender_of};
ghost use Rattle.mst_compare.specs.Seen.{seen_sender};

use mst_bpdu::Bpdu;
use mst_ids::{Mac, Name, PortName};
use mst_lang::Kind;
use mst_roles::Settled;
use mst_view::{BridgeInView, PortInView, View};

/// Who sent a BPDU: a bridge of the view, and a logical port of that bridge.
#[derive(Clone, Copy)]
pub(crate) struct Origin {
    pub(crate) bridge: BridgeInView,
    pub(crate) port: PortInView,
}

/// The logical port that sent a BPDU, by the plan: of the bridge with the MAC of the BPDU's bridge, the enabled one
/// with its port number. Nothing where no bridge has the MAC, or it runs another protocol than the BPDU is of, or it
/// is off or has no such port that is enabled.
///
/// It goes once over the bridges and once over the logical ports, and takes no memory.
pub fn sender(plan: &Settled, bpdu: &Bpdu) -> Option<PortName>
    ensures { result ≡ sender_of plan.now.net bpdu.now }
{
    plan.known();
    sender_name(plan.view(), bpdu)
}

/// The name of the port that sent a BPDU, by a view.
fn sender_name(view: &View, bpdu: &Bpdu) -> Option<PortName>
    ensures { result ≡ option_map (λ sender. sender.port.name) (seen_sender view.now bpdu.now) }
{
    match sender_in(view, bpdu) {
        None => None,
        Some(sender) => Some(port_name(&sender)),
    }
}

/// The name of a sender's port.
fn port_name(sender: &Origin) -> PortName
    ensures { result ≡ sender.now.port.name }
{
    sender.port.name
}

/// The sender of a BPDU in a view.
pub(crate) fn sender_in(view: &View, bpdu: &Bpdu) -> Option<Origin>
    ensures { result ≡ seen_sender view.now bpdu.now }
{
    let bridge = bridge_with(view, bpdu.bridge().mac())?;
    if !sends(bridge.bridge.kind, bpdu) {
        return None;
    }
    let port = enabled_port(view, &bridge.name, port_number(bpdu))?;
    Some(Origin {
        bridge: *bridge,
        port: *port,
    })
}

/// The bridge with this MAC.
fn bridge_with(view: &View, mac: Mac) -> Option<&BridgeInView>
    ensures { option_copied result ≡ find (λ bridge. bridge.bridge.mac == mac) view.now.bridges }
{
    view.bridges()
        .iter()
        .find(|bridge| bridge.bridge.mac == mac)
}

/// Whether bridges of this kind send such BPDUs.
fn sends(kind: Kind, bpdu: &Bpdu) -> bool
    ensures { result ≡ is_sent_by bpdu.now (is_rstp kind) }
{
    match bpdu {
        Bpdu::Rst(_) => kind == Kind::Rstp,
        Bpdu::Mst(_) => kind == Kind::Mstp,
    }
}

/// The port number of 12 bits in the Port Identifier of a BPDU.
fn port_number(bpdu: &Bpdu) -> u16
    ensures { result ≡ port_number_of (port_id_of bpdu.now) }
{
    bpdu.port().number() % 4096
}

/// The enabled logical port of a bridge with this number.
fn enabled_port<'a>(view: &'a View, bridge: &Name, number: u16) -> Option<&'a PortInView>
    ensures { option_copied result ≡ find (λ port. is_port bridge.now number (named_port port)) view.now.ports }
{
    view.ports()
        .iter()
        .find(|port| is_enabled_port(port, bridge, number))
}

/// Whether a port is enabled, has this number and is of this bridge.
fn is_enabled_port(port: &PortInView, bridge: &Name, number: u16) -> bool
    ensures { result ≡ is_port bridge.now number (named_port port.now) }
{
    port.is_enabled && port.name.number.value() == number && port.name.bridge == *bridge
}
