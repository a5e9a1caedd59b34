ghost use Rattle.std.specs.Prelude.{◌≡◌, ◌-◌, ◌<◌, ◌≤◌, ◌++◌, length, replicate, OnOk, OnErr, decimal};
ghost use Rattle.mst_ids.specs.Texts.{hex_digit as digit_of, hex_pair as pair_of, hex_four as four_of};

use itoa::Buffer;
use std::alloc::AllocError;
use thiserror::Error;

/// The text stands for no value.
#[derive(Clone, Copy, Debug, Error, PartialEq, Eq)]
#[error("the text stands for no value")]
pub struct BadText;

/// Appends a number in decimal, without leading zeros, or changes nothing.
pub fn push_decimal(number: u64, out: &mut Vec<u8>) -> Result<(), AllocError>
    ensures ok { OnOk result (out.new.items ≡ out.old.items ++ decimal number) }
    ensures err { OnErr result (out.new.items ≡ out.old.items) }
{
    let mut buffer = Buffer::new();
    push_bytes(buffer.format(number).as_bytes(), out)
}

/// Appends a number of 16 bits as four lower case hexadecimal digits, or changes nothing.
pub fn push_hex_four(number: u16, out: &mut Vec<u8>) -> Result<(), AllocError>
    ensures ok { OnOk result (out.new.items ≡ out.old.items ++ four_of number) }
    ensures err { OnErr result (out.new.items ≡ out.old.items) }
{
    push_bytes(&hex_four(number), out)
}

/// The four lower case digits of a number of 16 bits.
pub(crate) fn hex_four(number: u16) -> [u8; 4]
    ensures { result ≡ four_of number }
{
    let [a, b] = hex_pair((number / 256) as u8);
    let [c, d] = hex_pair((number % 256) as u8);
    [a, b, c, d]
}

/// Appends the bytes, or changes nothing.
pub fn push_bytes(bytes: &[u8], out: &mut Vec<u8>) -> Result<(), AllocError>
    ensures ok { OnOk result (out.new.items ≡ out.old.items ++ bytes.now) }
    ensures err { OnErr result (out.new.items ≡ out.old.items) }
{
    out.extend_from_slice(bytes)
}

/// The text, and zeros after it up to N octets.
pub fn padded<const N: usize>(text: &[u8]) -> [u8; N]
    requires { length text.now ≤ N }
    ensures { result ≡ text.now ++ replicate (N - length text.now) 0 }
{
    let mut bytes = [0; N];
    bytes[..text.len()].copy_from_slice(text);
    bytes
}

/// The lower case digit of a number below 16.
pub(crate) fn hex_digit(number: u8) -> u8
    requires { number < 16 }
    ensures { result ≡ digit_of number }
{
    if number < 10 {
        b'0' + number
    } else {
        b'a' + (number - 10)
    }
}

/// The two lower case digits of an octet.
pub(crate) fn hex_pair(octet: u8) -> [u8; 2]
    ensures { result ≡ pair_of octet }
{
    [hex_digit(octet / 16), hex_digit(octet % 16)]
}
