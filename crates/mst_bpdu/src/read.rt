ghost use Rattle.std.specs.Prelude.{◌≡◌, ◌-◌, length, None, Some, if◌then◌else◌};
ghost use Rattle.mst_bpdu.specs.Layout.{message_count as messages_of, version_3_length};
ghost use Rattle.mst_bpdu.specs.Reading.{reading};
ghost use Rattle.mst_bpdu.specs.Versions.{by_version, reading_rst, reading_mst};

use crate::bpdu::Bpdu;
use crate::capture::LineOctets;
use crate::fault::BpduFault;
use crate::layout::{mst_bpdu, rst_bpdu};
use crate::messages::MOST_MESSAGES;
use crate::octets::{octet_at, u16_at};

/// The protocol identifier of the spanning tree protocols.
const PROTOCOL: u16 = 0;

/// The version of RST BPDUs, that of MST BPDUs, and the type of both.
const RST_VERSION: u8 = 2;

const MST_VERSION: u8 = 3;

const RST_TYPE: u8 = 2;

/// What a capture line says (802.1Q-2022, clause 14). The line comes without its end.
///
/// Spaces, tabs, colons and hyphens are skipped; what is left is the digits of octets, in either case. A BPDU
/// stands behind the header of a frame, or at the first octet. Octets after its end are ignored.
///
/// An `Err` is the first of the faults [`B01`](BpduFault::B01) to [`B06`](BpduFault::B06) that the line has, as
/// `checks` of `specs/Reading.antt` lists them. Nothing is read as a BPDU of a lower version. No memory is taken.
#[tactic(auto, using(crate::proofs::ReadingLemmas::reading_by_version))]
pub fn read_line(line: &[u8]) -> Result<Bpdu, BpduFault>
    ensures { result ≡ reading line.now }
{
    let octets = LineOctets::read(line)?;
    read_bpdu(octets.bpdu())
}

/// What the octets of a BPDU say, or the first fault of them.
#[tactic(auto, unfolding(crate::specs::Versions::by_version))]
fn read_bpdu(bpdu: &[u8]) -> Result<Bpdu, BpduFault>
    ensures { result ≡ by_version bpdu.now }
{
    if bpdu.len() < 4 {
        return Err(BpduFault::B02);
    }
    if u16_at(bpdu, 1) != PROTOCOL {
        return Err(BpduFault::B03);
    }
    let version = octet_at(bpdu, 3);
    let bpdu_type = octet_at(bpdu, 4);
    if version == RST_VERSION && bpdu_type == RST_TYPE {
        read_rst(bpdu)
    } else if version == MST_VERSION && bpdu_type == RST_TYPE {
        read_mst(bpdu)
    } else {
        Err(BpduFault::B04)
    }
}

/// What an RST BPDU says, or the first fault of it.
fn read_rst(bpdu: &[u8]) -> Result<Bpdu, BpduFault>
    ensures { result ≡ reading_rst bpdu.now }
{
    if bpdu.len() < 36 {
        return Err(BpduFault::B02);
    }
    Ok(Bpdu::Rst(rst_bpdu(bpdu)))
}

/// What an MST BPDU says, or the first fault of it.
fn read_mst(bpdu: &[u8]) -> Result<Bpdu, BpduFault>
    ensures { result ≡ reading_mst bpdu.now }
{
    if bpdu.len() < 102 {
        return Err(BpduFault::B02);
    }
    if octet_at(bpdu, 36) != 0 {
        return Err(BpduFault::B05);
    }
    let length = usize::from(u16_at(bpdu, 37));
    let messages = length.saturating_sub(64) / 16;
    if length != 64 + 16 * messages || messages > MOST_MESSAGES || length > bpdu.len() - 38 {
        return Err(BpduFault::B06);
    }
    Ok(Bpdu::Mst(mst_bpdu(bpdu, messages)))
}
