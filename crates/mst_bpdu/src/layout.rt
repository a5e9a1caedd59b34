//! The fields of BPDUs, by their octets.
ghost use Rattle.std.specs.Prelude.{◌≡◌, ◌+◌, ◌*◌, ◌≤◌, ◌/◌, length};
ghost use Rattle.mst_bpdu.specs.Layout.{rst_bpdu as rst_bpdu_of, mst_bpdu as mst_bpdu_of, times as times_of, configuration_id as configuration_id_of, msti_message as msti_message_of, message_count, version_3_length};

use crate::bpdu::{ConfigurationId, MstBpdu, MstiMessage, RstBpdu, Times};
use crate::flags::Flags;
use crate::messages::MstiMessages;
use crate::octets::{array_at, octet_at, rest_from, u16_at, u32_at, u64_at};
use mst_ids::{BridgeId, PortId, Priority};

/// The fields of an RST BPDU.
#[tactic(auto, unfolding(crate::specs::Layout::rst_bpdu))]
pub(crate) fn rst_bpdu(bpdu: &[u8]) -> RstBpdu
    requires { 36 ≤ length bpdu.now }
    ensures { result ≡ rst_bpdu_of bpdu.now }
{
    RstBpdu {
        flags: Flags::from_octet(octet_at(bpdu, 5)),
        root: BridgeId::from_number(u64_at(bpdu, 6)),
        root_path_cost: u32_at(bpdu, 14),
        bridge: BridgeId::from_number(u64_at(bpdu, 18)),
        port: PortId::from_number(u16_at(bpdu, 26)),
        times: times(bpdu),
    }
}

/// The fields of an MST BPDU with this many messages.
#[tactic(auto, unfolding(crate::specs::Layout::mst_bpdu))]
pub(crate) fn mst_bpdu(bpdu: &[u8], messages: usize) -> MstBpdu
    requires most { messages ≤ 64 }
    requires whole { 102 + 16 * messages ≤ length bpdu.now }
    requires counted { messages ≡ message_count (version_3_length bpdu.now) }
    ensures { result ≡ mst_bpdu_of bpdu.now }
{
    MstBpdu {
        flags: Flags::from_octet(octet_at(bpdu, 5)),
        root: BridgeId::from_number(u64_at(bpdu, 6)),
        external_cost: u32_at(bpdu, 14),
        regional_root: BridgeId::from_number(u64_at(bpdu, 18)),
        port: PortId::from_number(u16_at(bpdu, 26)),
        times: times(bpdu),
        configuration: configuration_id(rest_from(bpdu, 39)),
        internal_cost: u32_at(bpdu, 90),
        bridge: BridgeId::from_number(u64_at(bpdu, 94)),
        remaining_hops: octet_at(bpdu, 102),
        messages: MstiMessages::read(bpdu, messages),
    }
}

/// The times of either BPDU.
fn times(bpdu: &[u8]) -> Times
    requires { 35 ≤ length bpdu.now }
    ensures { result ≡ times_of bpdu.now }
{
    Times {
        message_age: u16_at(bpdu, 28),
        max_age: u16_at(bpdu, 30),
        hello_time: u16_at(bpdu, 32),
        forward_delay: u16_at(bpdu, 34),
    }
}

/// The fields of an MST Configuration Identifier.
#[tactic(auto, unfolding(crate::specs::Layout::configuration_id))]
fn configuration_id(octets: &[u8]) -> ConfigurationId
    requires { 51 ≤ length octets.now }
    ensures { result ≡ configuration_id_of octets.now }
{
    ConfigurationId {
        selector: octet_at(octets, 1),
        name: array_at::<32>(octets, 2),
        revision: u16_at(octets, 34),
        digest: array_at::<16>(octets, 36),
    }
}

/// The fields of an MSTI message.
#[tactic(auto, unfolding(crate::specs::Layout::msti_message))]
pub(crate) fn msti_message(octets: &[u8]) -> MstiMessage
    requires { 16 ≤ length octets.now }
    ensures { result ≡ msti_message_of octets.now }
{
    MstiMessage {
        flags: Flags::from_octet(octet_at(octets, 1)),
        regional_root: BridgeId::from_number(u64_at(octets, 2)),
        internal_cost: u32_at(octets, 10),
        bridge_priority: priority(octet_at(octets, 14)),
        port_priority: priority(octet_at(octets, 15)),
        remaining_hops: octet_at(octets, 16),
    }
}

/// The priority in the upper four bits of an octet.
fn priority(octet: u8) -> Priority
    ensures { result ≡ octet / 16 }
{
    match Priority::new(u64::from(octet / 16)) {
        Some(priority) => priority,
        None => unreachable!(),
    }
}
