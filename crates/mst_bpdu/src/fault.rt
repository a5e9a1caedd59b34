ghost use Rattle.std.specs.Prelude.{◌≡◌};
ghost use Rattle.mst_bpdu.specs.Faults.{fault_code, fault_text};

use thiserror::Error;

/// Why a capture isn't read or compared. It is displayed as its [`text`](BpduFault::text).
#[derive(Clone, Copy, Debug, Error, PartialEq, Eq)]
#[error("{}", self.text())]
pub enum BpduFault {
    /// The line is longer than 4,096 bytes, holds a byte that is neither skipped nor a digit, or has an odd number
    /// of digits.
    B01,
    /// The BPDU has fewer than 4 octets, or fewer than its version needs: 36 for version 2, 102 for version 3.
    B02,
    /// The protocol identifier isn't 0.
    B03,
    /// The BPDU is neither an RST BPDU (version 2, type 2) nor an MST BPDU (version 3, type 2).
    B04,
    /// The Version 1 Length of an MST BPDU isn't 0.
    B05,
    /// The Version 3 Length of an MST BPDU isn't 64 + 16n with n of 0 to 64, or goes past the octets.
    B06,
    /// No enabled port of the network, on a bridge of the BPDU's kind, sends such a BPDU. Reading never gives it.
    B07,
    /// Memory was wanted and refused. Reading never gives it.
    B99,
}

impl BpduFault {
    /// The number of the fault, as it is printed.
    pub fn code(self) -> &'static str
        ensures { result.now ≡ fault_code self }
    {
        match self {
            BpduFault::B01 => "B01",
            BpduFault::B02 => "B02",
            BpduFault::B03 => "B03",
            BpduFault::B04 => "B04",
            BpduFault::B05 => "B05",
            BpduFault::B06 => "B06",
            BpduFault::B07 => "B07",
            BpduFault::B99 => "B99",
        }
    }

    /// What is printed after the number.
    pub fn text(self) -> &'static str
        ensures { result.now ≡ fault_text self }
    {
        match self {
            BpduFault::B01 => "not hexadecimal",
            BpduFault::B02 => "too short",
            BpduFault::B03 => "protocol identifier",
            BpduFault::B04 => "version or type",
            BpduFault::B05 => "version 1 length",
            BpduFault::B06 => "version 3 length",
            BpduFault::B07 => "unknown sender",
            BpduFault::B99 => "want of memory",
        }
    }
}
