ghost use Rattle.std.specs.Prelude.{◌≡◌, ◌≤◌, ◌++◌, OnOk, OnErr, decimal};
ghost use Rattle.std.specs.Option.{SomeIff};

use crate::text::push_decimal;
use std::alloc::AllocError;
use std::marker::Model;

/// A priority as a script writes it, in steps from 0, the best, to 15 (802.1Q-2022, 13.26 and 13.27).
#[derive(Clone, Copy, PartialEq, Eq)]
pub struct Priority {
    step: u8,
}

impl Model for Priority {
    ghost use Rattle.std.specs.Prelude.{ℕ, ◌≤◌};

    ghost Value = { ℕ };

    ghost view = { λ a. a.step };

    ghost invariant = { λ a. a.step ≤ 15 };

    ghost inverse = { λ n. record { step = n } };
}

impl Priority {
    /// The steps of a bridge's or a port's priority where none was set.
    pub const DEFAULT: u8 = 8;

    /// The priority of a bridge or a port where none was set.
    pub fn default() -> Priority
        ensures { result ≡ 8 }
    {
        Priority {
            step: Priority::DEFAULT,
        }
    }

    /// The priority of this many steps, or nothing above 15.
    pub fn new(step: u64) -> Option<Priority>
        ensures { SomeIff result (step ≤ 15) step }
    {
        if step > 15 {
            return None;
        }
        Some(Priority { step: step as u8 })
    }

    /// The priority of the top 4 bits of an identifier.
    pub(crate) fn of_top_bits(step: u8) -> Priority
        requires { step ≤ 15 }
        ensures { result ≡ step }
    {
        Priority { step }
    }

    /// The steps, 0 to 15.
    pub fn step(self) -> u8
        ensures value { result ≡ self }
        ensures small { result ≤ 15 }
    {
        self.step
    }
}

/// The number of a port on its bridge, 1 to 4095.
#[derive(Clone, Copy, PartialEq, Eq, PartialOrd, Ord, Hash)]
pub struct PortNumber {
    number: u16,
}

impl Model for PortNumber {
    ghost use Rattle.std.specs.Prelude.{ℕ, ◌≤◌};

    ghost Value = { ℕ };

    ghost view = { λ a. a.number };

    ghost invariant = { λ a. (1 ≤ a.number) × (a.number ≤ 4095) };

    ghost inverse = { λ n. record { number = n } };
}

impl PortNumber {
    /// The port number of this value, or nothing for 0 and above 4095.
    pub fn new(number: u64) -> Option<PortNumber>
        ensures { SomeIff result ((1 ≤ number) × (number ≤ 4095)) number }
    {
        if number < 1 || number > 4095 {
            return None;
        }
        Some(PortNumber {
            number: number as u16,
        })
    }

    /// The value, 1 to 4095.
    pub fn value(self) -> u16
        ensures value { result ≡ self }
        ensures range { (1 ≤ result) × (result ≤ 4095) }
    {
        self.number
    }

    /// Appends the number in decimal, or changes nothing.
    pub fn push_text(&self, out: &mut Vec<u8>) -> Result<(), AllocError>
        ensures ok { OnOk result (out.new.items ≡ out.old.items ++ decimal self.now) }
        ensures err { OnErr result (out.new.items ≡ out.old.items) }
    {
        let number = u64::from(self.number);
        push_decimal(number, out)
    }
}

/// A spanning tree: 0 is the CIST, and 1 to 4094 are MSTIs by their MSTIDs.
#[derive(Clone, Copy, PartialEq, Eq, Hash)]
pub struct Tree {
    number: u16,
}

impl Model for Tree {
    ghost use Rattle.std.specs.Prelude.{ℕ, ◌≤◌};

    ghost Value = { ℕ };

    ghost view = { λ a. a.number };

    ghost invariant = { λ a. a.number ≤ 4094 };

    ghost inverse = { λ n. record { number = n } };
}

impl Tree {
    /// The CIST.
    pub fn cist() -> Tree
        ensures { result ≡ 0 }
    {
        Tree { number: 0 }
    }

    /// The tree of this number, or nothing above 4094.
    pub fn new(number: u64) -> Option<Tree>
        ensures { SomeIff result (number ≤ 4094) number }
    {
        if number > 4094 {
            return None;
        }
        Some(Tree {
            number: number as u16,
        })
    }

    /// The number, 0 to 4094.
    pub fn value(self) -> u16
        ensures value { result ≡ self }
        ensures small { result ≤ 4094 }
    {
        self.number
    }

    /// Appends the number in decimal, or changes nothing.
    pub fn push_text(&self, out: &mut Vec<u8>) -> Result<(), AllocError>
        ensures ok { OnOk result (out.new.items ≡ out.old.items ++ decimal self.now) }
        ensures err { OnErr result (out.new.items ≡ out.old.items) }
    {
        push_decimal(u64::from(self.number), out)
    }
}

/// A VLAN's identifier, 1 to 4094 (802.1Q-2022, 9.6).
#[derive(Clone, Copy, PartialEq, Eq)]
pub struct Vid {
    number: u16,
}

impl Model for Vid {
    ghost use Rattle.std.specs.Prelude.{ℕ, ◌≤◌};

    ghost Value = { ℕ };

    ghost view = { λ a. a.number };

    ghost invariant = { λ a. (1 ≤ a.number) × (a.number ≤ 4094) };

    ghost inverse = { λ n. record { number = n } };
}

impl Vid {
    /// The VID of this value, or nothing for 0 and above 4094.
    pub fn new(number: u64) -> Option<Vid>
        ensures { SomeIff result ((1 ≤ number) × (number ≤ 4094)) number }
    {
        if number < 1 || number > 4094 {
            return None;
        }
        Some(Vid {
            number: number as u16,
        })
    }

    /// The value, 1 to 4094.
    pub fn value(self) -> u16
        ensures value { result ≡ self }
        ensures range { (1 ≤ result) × (result ≤ 4094) }
    {
        self.number
    }

    /// Appends the number in decimal, or changes nothing.
    pub fn push_text(&self, out: &mut Vec<u8>) -> Result<(), AllocError>
        ensures ok { OnOk result (out.new.items ≡ out.old.items ++ decimal self.now) }
        ensures err { OnErr result (out.new.items ≡ out.old.items) }
    {
        push_decimal(u64::from(self.value()), out)
    }
}

/// The speed of a LAN, 1 to 9,999,999,999 kb/s.
#[derive(Clone, Copy, PartialEq, Eq)]
pub struct Speed {
    kbps: u64,
}

impl Model for Speed {
    ghost use Rattle.std.specs.Prelude.{ℕ, ◌≤◌};

    ghost Value = { ℕ };

    ghost view = { λ a. a.kbps };

    ghost invariant = { λ a. (1 ≤ a.kbps) × (a.kbps ≤ 9_999_999_999) };

    ghost inverse = { λ n. record { kbps = n } };
}

impl Speed {
    /// The speed of a LAN where none was set, 1 Gb/s.
    pub fn default() -> Speed
        ensures { result ≡ 1_000_000 }
    {
        Speed { kbps: 1_000_000 }
    }

    /// The speed of this many kb/s, or nothing for 0 and above 9,999,999,999.
    pub fn new(kbps: u64) -> Option<Speed>
        ensures { SomeIff result ((1 ≤ kbps) × (kbps ≤ 9_999_999_999)) kbps }
    {
        if kbps < 1 || kbps > 9_999_999_999 {
            return None;
        }
        Some(Speed { kbps })
    }

    /// The speed in kb/s, 1 to 9,999,999,999.
    pub fn value(self) -> u64
        ensures value { result ≡ self }
        ensures range { (1 ≤ result) × (result ≤ 9_999_999_999) }
    {
        self.kbps
    }
}

/// Max Hops of a bridge, 6 to 40: over how many bridges what a regional root says of a tree may go inside its
/// region (802.1Q-2022, 13.26).
#[derive(Clone, Copy, PartialEq, Eq)]
pub struct MaxHops {
    value: u8,
}

impl Model for MaxHops {
    ghost use Rattle.std.specs.Prelude.{ℕ, ◌≤◌};

    ghost Value = { ℕ };

    ghost view = { λ a. a.value };

    ghost invariant = { λ a. (6 ≤ a.value) × (a.value ≤ 40) };

    ghost inverse = { λ n. record { value = n } };
}

impl MaxHops {
    /// Max Hops where none was set.
    pub fn default() -> MaxHops
        ensures { result ≡ 20 }
    {
        MaxHops { value: 20 }
    }

    /// Max Hops of this value, or nothing below 6 and above 40.
    pub fn new(value: u64) -> Option<MaxHops>
        ensures { SomeIff result ((6 ≤ value) × (value ≤ 40)) value }
    {
        if value < 6 || value > 40 {
            return None;
        }
        Some(MaxHops { value: value as u8 })
    }

    /// The value, 6 to 40.
    pub fn value(self) -> u64
        ensures value { result ≡ self }
        ensures range { (6 ≤ result) × (result ≤ 40) }
    {
        u64::from(self.value)
    }
}

/// Max Age of a bridge, 6 to 40: over how many regions what the CIST root says may go, each of which adds 1 to its age
/// (802.1Q-2022, 13.26).
#[derive(Clone, Copy, PartialEq, Eq)]
pub struct MaxAge {
    value: u8,
}

impl Model for MaxAge {
    ghost use Rattle.std.specs.Prelude.{ℕ, ◌≤◌};

    ghost Value = { ℕ };

    ghost view = { λ a. a.value };

    ghost invariant = { λ a. (6 ≤ a.value) × (a.value ≤ 40) };

    ghost inverse = { λ n. record { value = n } };
}

impl MaxAge {
    /// Max Age where none was set.
    pub fn default() -> MaxAge
        ensures { result ≡ 20 }
    {
        MaxAge { value: 20 }
    }

    /// Max Age of this value, or nothing below 6 and above 40.
    pub fn new(value: u64) -> Option<MaxAge>
        ensures { SomeIff result ((6 ≤ value) × (value ≤ 40)) value }
    {
        if value < 6 || value > 40 {
            return None;
        }
        Some(MaxAge { value: value as u8 })
    }

    /// The value, 6 to 40.
    pub fn value(self) -> u64
        ensures value { result ≡ self }
        ensures range { (6 ≤ result) × (result ≤ 40) }
    {
        u64::from(self.value)
    }
}
