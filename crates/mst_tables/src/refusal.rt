ghost use Rattle.std.specs.Prelude.{◌≡◌};
ghost use Rattle.mst_tables.specs.Refusals.{code_of, text_of};

use thiserror::Error;

/// Why an edit is refused. Where several apply, the one with the least number is answered. It is
/// displayed as its [`text`](Refusal::text).
#[derive(Clone, Copy, Debug, Error, PartialEq, Eq)]
#[error("{}", self.text())]
pub enum Refusal {
    /// There is no bridge of that name.
    E04,
    /// The bridge has no port of that number.
    E05,
    /// There is no LAN of that name.
    E06,
    /// A bridge, or a LAN, has that name already.
    E07,
    /// A bridge has that MAC address already.
    E08,
    /// The bridge has a port of that number already.
    E09,
    /// The port is plugged already.
    E10,
    /// The port isn't plugged.
    E11,
    /// The bridge has ports.
    E12,
    /// The LAN has plugs.
    E13,
    /// There are as many bridges, ports or LANs as there may be.
    E14,
    /// The bridge's MST configuration would have more than 64 trees other than the CIST.
    E15,
    /// There is no marked network. No edit is refused so.
    E16,
    /// Memory was wanted and refused.
    E99,
}

impl Refusal {
    /// The number of the refusal, as it is printed.
    pub fn code(self) -> &'static str
        ensures { result.now ≡ code_of self }
    {
        match self {
            Refusal::E04 => "E04",
            Refusal::E05 => "E05",
            Refusal::E06 => "E06",
            Refusal::E07 => "E07",
            Refusal::E08 => "E08",
            Refusal::E09 => "E09",
            Refusal::E10 => "E10",
            Refusal::E11 => "E11",
            Refusal::E12 => "E12",
            Refusal::E13 => "E13",
            Refusal::E14 => "E14",
            Refusal::E15 => "E15",
            Refusal::E16 => "E16",
            Refusal::E99 => "E99",
        }
    }

    /// What is printed after the number.
    pub fn text(self) -> &'static str
        ensures { result.now ≡ text_of self }
    {
        match self {
            Refusal::E04 => "no such bridge",
            Refusal::E05 => "no such port",
            Refusal::E06 => "no such LAN",
            Refusal::E07 => "name taken",
            Refusal::E08 => "MAC taken",
            Refusal::E09 => "port number taken",
            Refusal::E10 => "port plugged",
            Refusal::E11 => "port not plugged",
            Refusal::E12 => "bridge has ports",
            Refusal::E13 => "LAN has plugs",
            Refusal::E14 => "limit",
            Refusal::E15 => "more than 64 trees",
            Refusal::E16 => "no mark",
            Refusal::E99 => "want of memory",
        }
    }
}
