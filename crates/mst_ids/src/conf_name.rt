ghost use Rattle.std.specs.Prelude.{◌≡◌, ℕ, ◌-◌, ◌<◌, ◌≤◌, List, ◌++◌, length, replicate, IsTrue, Some, OnOk, OnErr, nat_eq, refl};
ghost use Rattle.std.specs.Result.{OkIff};
ghost use Rattle.std.specs.List.{list_all};
ghost use Rattle.std.specs.Cmp.{partial_equiv_from_equiv};
ghost use Rattle.std.specs.Cmp.Lexicographic.{pointwise, nat_list_eq_equiv, slice_cmp, nat_list_cmp_total, texts_po, texts_ties};
ghost use Rattle.std.specs.Ordering.{nat_cmp};
ghost use Rattle.mst_ids.specs.Texts.{is_conf_name as conf_name_text, is_conf_name_byte as conf_name_byte, mac_text};

use crate::mac::{Mac, digits_of};
use crate::text::{BadText, padded, push_bytes};
use std::alloc::AllocError;
use std::cmp::Ordering;
use std::marker::Model;

/// The name of an MST configuration (802.1Q-2022, 13.8): 1 to 32 bytes, each of 21 to 7E
/// hexadecimal. Names are ordered by their bytes.
#[derive(Clone, Copy)]
pub struct ConfName {
    bytes: [u8; 32],
    len: usize,
}

impl Model for ConfName {
    ghost use Rattle.std.specs.Prelude.{List, ℕ};
    ghost use Rattle.std.specs.Coded.{coded_ℕ, coded_list};

    ghost Value = { List ℕ };

    ghost coded = { coded_list coded_ℕ };

    ghost use Rattle.mst_ids.specs.Fields.{conf_name_of, IsKeptConfName, kept_conf_name, kept_conf_name-conf_name_of};

    ghost view = { conf_name_of };

    ghost invariant = { IsKeptConfName };

    ghost inverse = { kept_conf_name };

    ghost inverse_ok = { kept_conf_name-conf_name_of };
}

impl ConfName {
    /// The name of this text, or `BadText` where it is none.
    pub fn parse(text: &[u8]) -> Result<ConfName, BadText>
        ensures { OkIff result (IsTrue (conf_name_text text.now)) text.now }
    {
        if !is_conf_name(text) {
            return Err(BadText);
        }
        Ok(ConfName::of_text(text))
    }

    /// The name of a bridge that was given none: the text of its MAC address, six pairs of lower
    /// case digits with `:` between.
    pub fn of_mac(mac: Mac) -> ConfName
        ensures { result ≡ mac_text mac }
    {
        ConfName::of_text(&digits_of(mac.number()))
    }

    fn of_text(text: &[u8]) -> ConfName
        requires { IsTrue (conf_name_text text.now) }
        ensures { result ≡ text.now }
    {
        ConfName {
            bytes: padded(text),
            len: text.len(),
        }
    }

    /// The text.
    pub fn as_bytes(&self) -> &[u8]
        ensures text { result.now ≡ self.now }
        ensures named { IsTrue (conf_name_text self.now) }
    {
        &self.bytes[..self.len]
    }

    /// Appends the text, or changes nothing.
    pub fn push_text(&self, out: &mut Vec<u8>) -> Result<(), AllocError>
        ensures ok { OnOk result (out.new.items ≡ out.old.items ++ self.now) }
        ensures err { OnErr result (out.new.items ≡ out.old.items) }
    {
        push_bytes(self.as_bytes(), out)
    }
}

impl PartialEq for ConfName {
    ghost eq = { pointwise nat_eq };

    ghost laws = { partial_equiv_from_equiv nat_list_eq_equiv };

    fn eq(&self, other: &Self) -> bool {
        self.as_bytes() == other.as_bytes()
    }
}

impl Eq for ConfName {
    ghost laws = { nat_list_eq_equiv };
}

impl PartialOrd for ConfName {
    ghost partial_cmp = { λ a b. Some (slice_cmp nat_cmp a b) };

    ghost laws = { texts_po };

    fn partial_cmp(&self, other: &Self) -> Option<Ordering> {
        Some(self.cmp(other))
    }
}

impl Ord for ConfName {
    ghost cmp = { slice_cmp nat_cmp };

    ghost total = { nat_list_cmp_total };

    ghost matches_partial_cmp = { λ a b. refl };

    ghost matches_eq = { texts_ties };

    fn cmp(&self, other: &Self) -> Ordering {
        self.as_bytes().cmp(other.as_bytes())
    }
}

fn is_conf_name(text: &[u8]) -> bool
    ensures { result ≡ conf_name_text text.now }
{
    !text.is_empty() && text.len() <= 32 && are_conf_name_bytes(text)
}

fn are_conf_name_bytes(bytes: &[u8]) -> bool
    ensures { result ≡ list_all conf_name_byte bytes.now }
{
    bytes.iter().all(|byte| is_conf_name_byte(byte))
}

fn is_conf_name_byte(byte: &u8) -> bool
    ensures { result ≡ conf_name_byte byte.now }
{
    byte.is_ascii_graphic()
}
