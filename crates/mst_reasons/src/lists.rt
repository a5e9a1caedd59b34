ghost use Rattle.std.specs.Prelude.{◌≡◌, map};
ghost use Rattle.mst_reasons.specs.Reasons.{has_two as has_two_of};

use mst_ids::{Name, PortName};
use std::marker::Model;

/// Names of bridges.
#[derive(Drop)]
pub struct BridgeNames {
    names: Vec<Name>,
}

/// Parts of bridges, each by its names.
#[derive(Drop)]
pub struct Parts {
    parts: Vec<Vec<Name>>,
}

/// Names of ports.
#[derive(Drop)]
pub struct PortNames {
    names: Vec<PortName>,
}

/// A word of a row.
#[derive(Drop)]
pub struct Word {
    bytes: Vec<u8>,
}

impl Model for BridgeNames {
    ghost use Rattle.std.specs.Prelude.{List, ℕ};

    ghost Value = { List (List ℕ) };

    ghost view = { λ l. l.names.items };
}

impl Model for Parts {
    ghost use Rattle.std.specs.Prelude.{List, ℕ, map};

    ghost Value = { List (List (List ℕ)) };

    ghost view = { λ l. map (λ part. part.items) l.parts.items };
}

impl Model for PortNames {
    ghost use Rattle.std.specs.Prelude.{List};
    ghost use Rattle.mst_ids.specs.declared.name.PortName.{PortName as PortNameOf};

    ghost Value = { List PortNameOf };

    ghost view = { λ l. l.names.items };
}

impl Model for Word {
    ghost use Rattle.std.specs.Prelude.{List, ℕ};

    ghost Value = { List ℕ };

    ghost view = { λ w. w.bytes.items };
}

impl BridgeNames {
    /// These names.
    pub fn of(names: Vec<Name>) -> BridgeNames
        ensures { result ≡ names.items }
    {
        BridgeNames { names }
    }

    /// The names.
    pub fn as_slice(&self) -> &[Name]
        ensures { result.now ≡ self.now }
    {
        self.names.as_slice()
    }
}

impl Parts {
    /// These parts.
    pub fn of(parts: Vec<Vec<Name>>) -> Parts
        ensures { result ≡ map (λ part. part.items) parts.items }
    {
        Parts { parts }
    }

    /// The parts.
    pub fn as_slice(&self) -> &[Vec<Name>]
        ensures { map (λ part. part.items) result.now ≡ self.now }
    {
        self.parts.as_slice()
    }
}

impl PortNames {
    /// These names.
    pub fn of(names: Vec<PortName>) -> PortNames
        ensures { result ≡ names.items }
    {
        PortNames { names }
    }

    /// The names.
    pub fn as_slice(&self) -> &[PortName]
        ensures { result.now ≡ self.now }
    {
        self.names.as_slice()
    }
}

impl Word {
    /// These bytes.
    pub fn of(bytes: Vec<u8>) -> Word
        ensures { result ≡ bytes.items }
    {
        Word { bytes }
    }

    /// The bytes.
    pub fn as_slice(&self) -> &[u8]
        ensures { result.now ≡ self.now }
    {
        self.bytes.as_slice()
    }
}

/// Whether there are two parts.
pub fn has_two(parts: &[Vec<Name>]) -> bool
    ensures { result ≡ has_two_of parts.now }
{
    match parts {
        [] => false,
        [_] => false,
        [_, _, ..] => true,
    }
}
