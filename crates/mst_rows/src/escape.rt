ghost use Rattle.std.specs.Prelude.{◌≡◌, ◌<◌, ◌++◌, OnOk};
ghost use Rattle.std.specs.Char.{digit_char};
ghost use Rattle.std.specs.List.{list_all};
ghost use Rattle.json.specs.Print.{escape, escape_byte, quoted};
ghost use Rattle.json.specs.Run.{is_plain as plain_byte};

use mst_ids::push_bytes;
use std::alloc::AllocError;

/// Appends a text as a string of JSON.
pub(crate) fn push_quoted(text: &[u8], out: &mut Vec<u8>) -> Result<(), AllocError>
    ensures { OnOk result (out.new.items ≡ out.old.items ++ quoted text.now) }
{
    push_bytes(b"\"", out)?;
    push_content(text, out)?;
    push_bytes(b"\"", out)
}

/// Appends what stands between a string's quotes.
fn push_content(text: &[u8], out: &mut Vec<u8>) -> Result<(), AllocError>
    ensures { OnOk result (out.new.items ≡ out.old.items ++ escape text.now) }
{
    if is_plain(text) {
        push_bytes(text, out)
    } else {
        push_escaped(text, out)
    }
}

/// Whether no byte of a text needs an escape.
fn is_plain(text: &[u8]) -> bool
    ensures { result ≡ list_all plain_byte text.now }
{
    text.iter().all(|byte| is_plain_byte(*byte))
}

fn is_plain_byte(byte: u8) -> bool
    ensures { result ≡ plain_byte byte }
{
    byte != b'"' && byte != b'\\' && byte >= b' '
}

/// Appends a text with its escapes.
fn push_escaped(text: &[u8], out: &mut Vec<u8>) -> Result<(), AllocError>
    ensures { OnOk result (out.new.items ≡ out.old.items ++ escape text.now) }
{
    for byte in text {
        push_byte(*byte, out)?;
    }
    Ok(())
}

#[tactic(auto, unfolding(json::specs::Print::escape_byte))]
fn push_byte(byte: u8, out: &mut Vec<u8>) -> Result<(), AllocError>
    ensures { OnOk result (out.new.items ≡ out.old.items ++ escape_byte byte) }
{
    match byte {
        b'"' | b'\\' => push_bytes(&[b'\\', byte], out),
        8 => push_bytes(b"\\b", out),
        9 => push_bytes(b"\\t", out),
        10 => push_bytes(b"\\n", out),
        12 => push_bytes(b"\\f", out),
        13 => push_bytes(b"\\r", out),
        0..=31 => push_bytes(
            &[
                b'\\',
                b'u',
                b'0',
                b'0',
                hex_digit(byte / 16),
                hex_digit(byte % 16),
            ],
            out,
        ),
        _ => push_bytes(&[byte], out),
    }
}

/// The lower case digit of a number below 16.
fn hex_digit(number: u8) -> u8
    requires { number < 16 }
    ensures { result ≡ digit_char number }
{
    if number < 10 {
        b'0' + number
    } else {
        b'a' + (number - 10)
    }
}
