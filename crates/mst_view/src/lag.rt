ghost use Rattle.std.specs.Prelude.{◌≡◌, ◌++◌, IfOk, OnOk};
ghost use Rattle.mst_view.specs.Lag.{lag_between, system as system_number, end_text, lag_id_text};

use mst_ids::{Mac, push_bytes, push_hex_four};
use std::alloc::{AllocError, Global};

/// One end of a link aggregation group: its system, which is a system priority and a MAC, and the key.
#[derive(Clone, Copy, PartialEq, Eq)]
pub struct LagEnd {
    /// The system priority of the bridge.
    pub priority: u16,
    /// The bridge's MAC.
    pub mac: Mac,
    /// The key of the ports, of which 0 says that a port isn't aggregated.
    pub key: u16,
}

impl LagEnd {
    /// The system as a number: 16 bits of priority, then 48 bits of MAC.
    fn system(&self) -> u64
        ensures { result ≡ system_number self.now }
    {
        u64::from(self.priority) * 0x1_0000_0000_0000 + self.mac.number()
    }

    /// Appends `SYS.MAC.KEY`.
    fn push_text(&self, out: &mut Vec<u8>) -> Result<(), AllocError>
        ensures { OnOk result (out.new.items ≡ out.old.items ++ end_text self.now) }
    {
        push_hex_four(self.priority, out)?;
        push_bytes(b".", out)?;
        self.mac.push_text(out)?;
        push_bytes(b".", out)?;
        push_hex_four(self.key, out)
    }
}

/// The identifier of a link aggregation group (802.1AX-2020, 6.3.6): its two ends, of which the one with the
/// lower system comes first.
#[derive(Clone, Copy, PartialEq, Eq)]
pub struct LagId {
    /// The end with the lower system.
    pub lower: LagEnd,
    /// The other end.
    pub higher: LagEnd,
}

impl LagId {
    /// The identifier of the group between two ends, in whichever order they are given, where their systems
    /// differ.
    pub fn between(a: LagEnd, b: LagEnd) -> LagId
        ensures { result ≡ lag_between a b }
    {
        if a.system() < b.system() {
            LagId {
                lower: a,
                higher: b,
            }
        } else {
            LagId {
                lower: b,
                higher: a,
            }
        }
    }
}

/// The text of a group's identifier: `SYS.MAC.KEY+SYS.MAC.KEY`, priorities and keys as four lower case
/// hexadecimal digits. `AllocError`: memory was wanted and refused.
pub fn lag_text(alloc: Global, id: &LagId) -> Result<Vec<u8>, AllocError>
    ensures { IfOk result (λ text. text.items ≡ lag_id_text id.now) }
{
    let mut text = Vec::new(alloc);
    id.lower.push_text(&mut text)?;
    push_bytes(b"+", &mut text)?;
    id.higher.push_text(&mut text)?;
    Ok(text)
}
