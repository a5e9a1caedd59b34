ghost use Rattle.std.specs.Prelude.{◌≡◌, ◌<◌};
ghost use Rattle.mst_bpdu.specs.Flags.{role_of_code, code_of_role, flags_of};

/// The role of a port, as two bits of the flags tell it (802.1Q-2022, clause 14).
#[derive(Clone, Copy, PartialEq, Eq)]
pub enum RoleCode {
    /// 0: Master in an MSTI; no role in the CIST.
    Master,
    /// 1: Alternate or Backup.
    AlternateOrBackup,
    /// 2: Root.
    Root,
    /// 3: Designated.
    Designated,
}

impl RoleCode {
    /// The role of two bits.
    fn from_code(code: u8) -> RoleCode
        requires { code < 4 }
        ensures { result ≡ role_of_code code }
    {
        match code {
            0 => RoleCode::Master,
            1 => RoleCode::AlternateOrBackup,
            2 => RoleCode::Root,
            _ => RoleCode::Designated,
        }
    }

    /// The two bits, as a number of 0 to 3.
    pub fn code(self) -> u8
        ensures { result ≡ code_of_role self }
    {
        match self {
            RoleCode::Master => 0,
            RoleCode::AlternateOrBackup => 1,
            RoleCode::Root => 2,
            RoleCode::Designated => 3,
        }
    }
}

/// The flags of a BPDU or of an MSTI message, by their bits from the lowest on (802.1Q-2022, clause 14).
#[derive(Clone, Copy)]
pub struct Flags {
    /// Bit 1.
    pub topology_change: bool,
    /// Bit 2.
    pub proposal: bool,
    /// Bits 3 and 4.
    pub role: RoleCode,
    /// Bit 5.
    pub learning: bool,
    /// Bit 6.
    pub forwarding: bool,
    /// Bit 7.
    pub agreement: bool,
    /// Bit 8: Topology Change Acknowledgement in the CIST, Master in an MSTI.
    pub acknowledgement_or_master: bool,
}

impl Flags {
    /// The flags of an octet.
    pub(crate) fn from_octet(octet: u8) -> Flags
        ensures { result ≡ flags_of octet }
    {
        Flags {
            topology_change: octet % 2 == 1,
            proposal: octet / 2 % 2 == 1,
            role: RoleCode::from_code(octet / 4 % 4),
            learning: octet / 16 % 2 == 1,
            forwarding: octet / 32 % 2 == 1,
            agreement: octet / 64 % 2 == 1,
            acknowledgement_or_master: octet / 128 == 1,
        }
    }
}
