ghost use Rattle.std.specs.Prelude.{◌≡◌, ℕ, ◌+◌, ◌-◌, ◌<◌, ◌≤◌, List, [], ◌∷◌, ◌++◌, length, take, replicate, IsTrue, true, Some, OnOk, OnErr, nat_eq};
ghost use Rattle.std.specs.Result.{OkIff};
ghost use Rattle.std.specs.List.{list_all};
ghost use Rattle.std.specs.Cmp.{on_per, on_equiv, partial_equiv_from_equiv};
ghost use Rattle.std.specs.Cmp.Lexicographic.{pointwise, nat_list_eq_equiv, slice_cmp, nat_list_cmp_total, texts_po, texts_ties};
ghost use Rattle.std.specs.Ordering.{nat_cmp};
ghost use Rattle.std.specs.Prelude.{refl};
ghost use Rattle.mst_ids.specs.Words.{port_text};
ghost use Rattle.mst_ids.specs.Texts.{is_name as name_text, is_name_byte as name_byte};

use crate::number::PortNumber;
use crate::text::{BadText, padded, push_bytes};
use std::alloc::AllocError;
use std::cmp::Ordering;
use std::hash::{Hash, Hasher};
use std::marker::Model;

/// The name of a bridge or a LAN: 1 to 16 letters, digits, `_`, `-` and `.`, the first a letter or a
/// digit. Names are ordered by their bytes.
#[derive(Clone, Copy)]
pub struct Name {
    bytes: [u8; 16],
    len: usize,
}

impl Model for Name {
    ghost use Rattle.std.specs.Prelude.{List, ℕ};
    ghost use Rattle.std.specs.Coded.{coded_ℕ, coded_list};

    ghost Value = { List ℕ };

    ghost coded = { coded_list coded_ℕ };

    ghost use Rattle.mst_ids.specs.Fields.{name_of, IsKeptName, kept_name, kept_name-name_of};

    ghost view = { name_of };

    ghost invariant = { IsKeptName };

    ghost inverse = { kept_name };

    ghost inverse_ok = { kept_name-name_of };
}

impl Name {
    /// The name of this text.
    pub fn parse(text: &[u8]) -> Result<Name, BadText>
        ensures { OkIff result (IsTrue (name_text text.now)) text.now }
    {
        if !is_name(text) {
            return Err(BadText);
        }
        Ok(Name {
            bytes: padded(text),
            len: text.len(),
        })
    }

    /// The text.
    pub fn as_bytes(&self) -> &[u8]
        ensures text { result.now ≡ self.now }
        ensures named { IsTrue (name_text self.now) }
    {
        &self.bytes[..self.len]
    }

    /// Appends the text, or changes nothing.
    pub fn push_text(&self, out: &mut Vec<u8>) -> Result<(), AllocError>
        ensures ok { OnOk result (out.new.items ≡ out.old.items ++ self.now) }
        ensures err { OnErr result (out.new.items ≡ out.old.items) }
    {
        push_bytes(self.as_bytes(), out)
    }
}

impl PartialEq for Name {
    ghost eq = { pointwise nat_eq };

    ghost laws = { partial_equiv_from_equiv nat_list_eq_equiv };

    fn eq(&self, other: &Self) -> bool {
        self.as_bytes() == other.as_bytes()
    }
}

impl Eq for Name {
    ghost laws = { nat_list_eq_equiv };
}

impl PartialOrd for Name {
    ghost partial_cmp = { λ a b. Some (slice_cmp nat_cmp a b) };

    ghost laws = { texts_po };

    fn partial_cmp(&self, other: &Self) -> Option<Ordering> {
        Some(self.cmp(other))
    }
}

impl Ord for Name {
    ghost cmp = { slice_cmp nat_cmp };

    ghost total = { nat_list_cmp_total };

    ghost matches_partial_cmp = { λ a b. refl };

    ghost matches_eq = { texts_ties };

    fn cmp(&self, other: &Self) -> Ordering {
        self.as_bytes().cmp(other.as_bytes())
    }
}

impl Hash for Name {
    ghost use Rattle.std.proofs.Common.{rules};
    ghost use Rattle.std.specs.Hash as fed;
    ghost use Rattle.std.specs.Cmp.Rules.{hashing};

    ghost hash_input = { fed.slice fed.u8 };

    ghost respects_eq = { Prim.search (hashing, rules) };

    fn hash<H: Hasher>(&self, state: &mut H) {
        self.as_bytes().hash(state);
    }
}

fn is_name(text: &[u8]) -> bool
    ensures { result ≡ name_text text.now }
{
    match text {
        [] => false,
        [first, others @ ..] => {
            first.is_ascii_alphanumeric() && others.len() < 16 && are_name_bytes(others)
        }
    }
}

fn are_name_bytes(bytes: &[u8]) -> bool
    ensures { result ≡ list_all name_byte bytes.now }
{
    bytes.iter().all(|byte| is_name_byte(byte))
}

fn is_name_byte(byte: &u8) -> bool
    ensures { result ≡ name_byte byte.now }
{
    byte.is_ascii_alphanumeric() || matches!(*byte, b'_' | b'-' | b'.')
}

/// A port by the name of its bridge and its number there.
#[derive(Clone, Copy, PartialEq, Eq, PartialOrd, Ord, Hash)]
pub struct PortName {
    pub bridge: Name,
    pub number: PortNumber,
}

impl PortName {
    /// Appends the name of the port's bridge, `:` and the port's number, or changes nothing.
    pub fn push_text(&self, out: &mut Vec<u8>) -> Result<(), AllocError>
        ensures ok { OnOk result (out.new.items ≡ out.old.items ++ port_text self.now) }
        ensures err { OnErr result (out.new.items ≡ out.old.items) }
    {
        let len = out.len();
        let pushed = self.push_parts(out);
        if pushed.is_err() {
            out.truncate(len);
        }
        pushed
    }

    /// Appends the same, or a part of it.
    fn push_parts(&self, out: &mut Vec<u8>) -> Result<(), AllocError>
        ensures ok { OnOk result (out.new.items ≡ out.old.items ++ port_text self.now) }
        ensures err { OnErr result (take (length out.old.items) out.new.items ≡ out.old.items) }
    {
        self.bridge.push_text(out)?;
        push_bytes(b":", out)?;
        self.number.push_text(out)
    }
}
