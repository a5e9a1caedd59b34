ghost use Rattle.std.specs.Prelude.{◌≡◌, ◌≤◌, ◌++◌, OnOk, OnErr, decimal};
ghost use Rattle.std.specs.Option.{SomeIff};
ghost use Rattle.mst_ids.specs.Costs.{automatic_cost};

use crate::text::push_decimal;
use std::alloc::AllocError;
use std::marker::Model;

/// The greatest path cost of a port (802.1Q-2022, 13.27.25 and table 13-4).
const GREATEST: u64 = 200_000_000;

/// A port's path cost, 1 to 200,000,000. Costs are ordered by their values.
#[derive(Clone, Copy, PartialEq, Eq, PartialOrd, Ord)]
pub struct Cost {
    value: u32,
}

impl Model for Cost {
    ghost use Rattle.std.specs.Prelude.{ℕ, ◌≤◌};

    ghost Value = { ℕ };

    ghost view = { λ a. a.value };

    ghost invariant = { λ a. (1 ≤ a.value) × (a.value ≤ 200_000_000) };

    ghost inverse = { λ n. record { value = n } };
}

impl Cost {
    /// The cost of this value, or nothing for 0 and above 200,000,000.
    pub fn new(value: u64) -> Option<Cost>
        ensures { SomeIff result ((1 ≤ value) × (value ≤ 200_000_000)) value }
    {
        if value < 1 || value > GREATEST {
            return None;
        }
        Some(Cost {
            value: value as u32,
        })
    }

    /// The value, 1 to 200,000,000.
    pub fn value(self) -> u64
        ensures value { result ≡ self }
        ensures range { (1 ≤ result) × (result ≤ 200_000_000) }
    {
        u64::from(self.value)
    }

    /// Appends the cost in decimal, or changes nothing.
    pub fn push_text(&self, out: &mut Vec<u8>) -> Result<(), AllocError>
        ensures ok { OnOk result (out.new.items ≡ out.old.items ++ decimal self.now) }
        ensures err { OnErr result (out.new.items ≡ out.old.items) }
    {
        push_decimal(u64::from(self.value), out)
    }
}

/// The cost of a port whose cost is automatic, on a LAN of this speed in kb/s: 20,000,000,000 divided
/// by the speed, rounded down and held within the range of a cost.
pub fn auto_cost(kbps: u64) -> Cost
    requires { 1 ≤ kbps }
    ensures { result ≡ automatic_cost kbps }
{
    let cost = 20_000_000_000 / kbps;
    Cost {
        value: cost.clamp(1, GREATEST) as u32,
    }
}
