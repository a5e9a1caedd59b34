ghost use Rattle.std.specs.Prelude.{◌≡◌, ℕ, ◌+◌, ◌-◌, ◌*◌, ◌^◌, ◌<◌, ◌≤◌, List, [], ◌∷◌, ◌++◌, length, slice_index, OnOk, OnErr, IfSome};
ghost use Rattle.std.specs.List.{list_all};
ghost use Rattle.std.specs.Option.{SomeIff};
ghost use Rattle.std.specs.Result.{result_ok};
ghost use Rattle.mst_ids.specs.Texts.{hex_value as value_of_digit, octet_at, is_separator as is_separator_byte, mac_value, mac_text};

use crate::text::{BadText, hex_pair, push_bytes};
use std::alloc::AllocError;
use std::marker::Model;

/// A MAC address, as a number of 48 bits. Addresses are ordered by their numbers.
#[derive(Clone, Copy, PartialEq, Eq, PartialOrd, Ord, Hash)]
pub struct Mac {
    number: u64,
}

impl Model for Mac {
    ghost use Rattle.std.specs.Prelude.{ℕ, ◌<◌, ◌^◌};

    ghost Value = { ℕ };

    ghost view = { λ a. a.number };

    ghost invariant = { λ a. a.number < 2 ^ 48 };

    ghost inverse = { λ n. record { number = n } };
}

impl Mac {
    /// The address of this number, or nothing from 2^48 on.
    pub fn new(number: u64) -> Option<Mac>
        ensures { SomeIff result (number < 2 ^ 48) number }
    {
        if number >= 0x1_0000_0000_0000 {
            return None;
        }
        Some(Mac { number })
    }

    /// The address of this number of 48 bits.
    pub(crate) fn from_number(number: u64) -> Mac
        requires { number < 2 ^ 48 }
        ensures { result ≡ number }
    {
        Mac { number }
    }

    /// The number of 48 bits.
    pub fn number(self) -> u64
        ensures value { result ≡ self }
        ensures small { result < 2 ^ 48 }
    {
        self.number
    }

    /// Appends the text, six pairs of lower case digits with `:` between, or changes nothing.
    pub fn push_text(&self, out: &mut Vec<u8>) -> Result<(), AllocError>
        ensures ok { OnOk result (out.new.items ≡ out.old.items ++ mac_text self.now) }
        ensures err { OnErr result (out.new.items ≡ out.old.items) }
    {
        push_bytes(&digits_of(self.number), out)
    }
}

/// The text of a MAC's number.
#[tactic(auto, unfolding(crate::specs::Texts::mac_text))]
pub(crate) fn digits_of(number: u64) -> [u8; 17]
    requires { number < 2 ^ 48 }
    ensures { result ≡ mac_text number }
{
    let [a, b] = hex_pair((number / 0x100_0000_0000) as u8);
    let [c, d] = hex_pair((number / 0x1_0000_0000 % 256) as u8);
    let [e, f] = hex_pair((number / 0x100_0000 % 256) as u8);
    let [g, h] = hex_pair((number / 0x1_0000 % 256) as u8);
    let [i, j] = hex_pair((number / 0x100 % 256) as u8);
    let [k, l] = hex_pair((number % 256) as u8);
    [
        a, b, b':', c, d, b':', e, f, b':', g, h, b':', i, j, b':', k, l,
    ]
}

/// The MAC of this text: six pairs of hexadecimal digits of either case, with `:` or `-` between two
/// pairs.
pub fn parse_mac(text: &[u8]) -> Result<Mac, BadText>
    ensures { result_ok result ≡ mac_value text.now }
{
    match mac_number(text) {
        Some(number) => Ok(Mac { number }),
        None => Err(BadText),
    }
}

fn mac_number(text: &[u8]) -> Option<u64>
    ensures value { result ≡ mac_value text.now }
    ensures small { IfSome result (λ n. n < 2 ^ 48) }
{
    if text.len() != 17 || !are_separated(text) {
        return None;
    }
    let a = octet(text, 0)?;
    let b = octet(text, 3)?;
    let c = octet(text, 6)?;
    let d = octet(text, 9)?;
    let e = octet(text, 12)?;
    let f = octet(text, 15)?;
    Some(a * 0x100_0000_0000 + b * 0x1_0000_0000 + c * 0x100_0000 + d * 0x1_0000 + e * 0x100 + f)
}

fn are_separated(text: &[u8]) -> bool
    requires { length text.now ≡ 17 }
    ensures { result ≡ list_all (λ i. is_separator_byte (slice_index text.now i)) (2 ∷ 5 ∷ 8 ∷ 11 ∷ 14 ∷ []) }
{
    is_separator(text[2])
        && is_separator(text[5])
        && is_separator(text[8])
        && is_separator(text[11])
        && is_separator(text[14])
}

fn is_separator(byte: u8) -> bool
    ensures { result ≡ is_separator_byte byte }
{
    byte == b':' || byte == b'-'
}

fn octet(text: &[u8], i: usize) -> Option<u64>
    requires { i + 1 < length text.now }
    ensures value { result ≡ octet_at text.now i }
    ensures small { IfSome result (λ n. n < 256) }
{
    let high = hex_value(text[i])?;
    let low = hex_value(text[i + 1])?;
    Some(high * 16 + low)
}

fn hex_value(digit: u8) -> Option<u64>
    ensures value { result ≡ value_of_digit digit }
    ensures small { IfSome result (λ x. x < 16) }
{
    match digit {
        b'0'..=b'9' => Some(u64::from(digit - b'0')),
        b'a'..=b'f' => Some(u64::from(digit - b'a' + 10)),
        b'A'..=b'F' => Some(u64::from(digit - b'A' + 10)),
        _ => None,
    }
}
