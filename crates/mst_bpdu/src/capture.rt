ghost use Rattle.std.specs.Prelude.{◌≡◌, ◌≤◌, length, take};
ghost use Rattle.mst_bpdu.specs.Reading.{octets_of, is_skipped as skipped, without_separators as digits_of, has_frame_header as has_header_of, bpdu_in};

use crate::fault::BpduFault;
use std::marker::Model;

/// The most bytes that a line may have.
const LONGEST: usize = 4096;

/// The most octets that a line may have.
const MOST_OCTETS: usize = 2048;

/// The octets of a capture line.
#[derive(Drop)]
pub(crate) struct LineOctets {
    octets: [u8; MOST_OCTETS],
    count: usize,
}

impl Model for LineOctets {
    ghost use Rattle.std.specs.Prelude.{List, ℕ, take, ◌≤◌};

    ghost Value = { List ℕ };

    ghost view = { λ a. take a.count a.octets };

    ghost invariant = { λ a. a.count ≤ 2048 };
}

impl LineOctets {
    /// The octets of this line.
    #[tactic(auto, unfolding(crate::specs::Reading::octets_of))]
    pub(crate) fn read(line: &[u8]) -> Result<LineOctets, BpduFault>
        ensures { result ≡ octets_of line.now }
    {
        if line.len() > LONGEST {
            return Err(BpduFault::B01);
        }
        let mut digits = [0; LONGEST];
        let length = without_separators(line, &mut digits);
        let mut octets = [0; MOST_OCTETS];
        let count = length / 2;
        match hex::decode_to_slice(&digits[..length], &mut octets[..count]) {
            Ok(()) => Ok(LineOctets { octets, count }),
            Err(_) => Err(BpduFault::B01),
        }
    }

    /// The octets of the BPDU: those behind the header of a frame, or all of them.
    pub(crate) fn bpdu(&self) -> &[u8]
        ensures { result.now ≡ bpdu_in self.now }
    {
        let octets = &self.octets[..self.count];
        if has_frame_header(octets) {
            &octets[17..]
        } else {
            octets
        }
    }
}

/// The destination of BPDUs, the Bridge Group Address.
const BRIDGE_GROUP_ADDRESS: [u8; 6] = [0x01, 0x80, 0xc2, 0x00, 0x00, 0x00];

/// The LLC header of BPDUs.
const LLC_HEADER: [u8; 3] = [0x42, 0x42, 0x03];

/// Whether the octets are those of a frame: addresses, a length field and the LLC header.
fn has_frame_header(octets: &[u8]) -> bool
    ensures { result ≡ has_header_of octets.now }
{
    if octets.len() < 17 {
        return false;
    }
    octets.starts_with(&BRIDGE_GROUP_ADDRESS) && octets[14..].starts_with(&LLC_HEADER)
}

/// Copies what isn't skipped to the front of the digits, and tells how many bytes these are.
fn without_separators(line: &[u8], digits: &mut [u8; LONGEST]) -> usize
    requires { length line.now ≤ 4096 }
    ensures within { result ≤ 4096 }
    ensures copied { take result digits.new ≡ digits_of line.now }
{
    let mut count = 0;
    for byte in line {
        if !is_skipped(*byte) {
            digits[count] = *byte;
            count += 1;
        }
    }
    count
}

fn is_skipped(byte: u8) -> bool
    ensures { result ≡ skipped byte }
{
    matches!(byte, b' ' | b'\t' | b':' | b'-')
}
