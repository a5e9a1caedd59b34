ghost use Rattle.std.specs.Prelude.{◌≡◌, ◌≤◌, ◌*◌, ◌∷◌, [], length, take, true};
ghost use Rattle.hex.specs.Hex.{encode_lower};
ghost use Rattle.mst_rows.specs.Cells.{word};
ghost use Rattle.mst_rows.specs.Rows.{cell};
ghost use Rattle.mst_bpdu.specs.CaptureText.{octets_cell, value_cell, without_trailing_zeros};
ghost use Rattle.mst_bpdu.specs.Shown.{shown_cell};

use crate::difference::Value;
use mst_ids::{BridgeId, PortId};
use mst_rows::Value as RowValue;

/// What is shown of a value, with the digits of octets.
#[derive(Clone, Copy)]
pub(crate) enum Shown {
    Nothing,
    Number(u64),
    Bridge(BridgeId),
    Port(PortId),
    /// Digits, and how many of them.
    Digits([u8; 64], usize),
}

/// What is shown of a value.
pub(crate) fn value_shown(value: &Value) -> Shown
    ensures { shown_cell result ≡ value_cell value.now }
{
    match value {
        Value::Nil => Shown::Nothing,
        Value::Number(number) => Shown::Number(*number),
        Value::Bridge(bridge) => Shown::Bridge(*bridge),
        Value::Port(port) => Shown::Port(*port),
        Value::Name(name) => octets(trimmed(name)),
        Value::Digest(digest) => octets(digest),
    }
}

/// It as the value of a row.
pub(crate) fn row_value<'a>(shown: &'a Shown) -> RowValue<'a>
    ensures { cell result ≡ shown_cell shown.now }
{
    match shown {
        Shown::Nothing => RowValue::Absent,
        Shown::Number(number) => RowValue::Number(*number),
        Shown::Bridge(bridge) => RowValue::BridgeId(*bridge),
        Shown::Port(port) => RowValue::PortId(*port),
        Shown::Digits(digits, length) => RowValue::Word(&digits[..(*length).min(64)]),
    }
}

/// Octets as lower case digits, or nothing.
fn octets(octets: &[u8]) -> Shown
    requires { length octets.now ≤ 32 }
    ensures { shown_cell result ≡ octets_cell octets.now }
{
    if octets.is_empty() {
        return Shown::Nothing;
    }
    digits(octets)
}

fn digits(octets: &[u8]) -> Shown
    requires { length octets.now ≤ 32 }
    ensures { shown_cell result ≡ word (encode_lower octets.now) }
{
    let mut room = [0; 64];
    let length = 2 * octets.len();
    match hex::encode_to_slice(octets, &mut room[..length]) {
        Ok(()) => Shown::Digits(room, length),
        Err(_) => unreachable!(),
    }
}

/// The octets without the zeros at the end.
fn trimmed(octets: &[u8]) -> &[u8]
    ensures same { result.now ≡ without_trailing_zeros octets.now }
    ensures within { length result.now ≤ length octets.now }
{
    let mut rest = octets;
    while let Some((last, front)) = rest.split_last() {
        if *last != 0 {
            return rest;
        }
        rest = front;
    }
    rest
}
