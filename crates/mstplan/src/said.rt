ghost use Rattle.std.specs.Prelude.{◌≡◌, ◌<◌, false, true, OnOk, OnErr};
ghost use Rattle.std.specs.Char.{is_control};
ghost use Rattle.std.specs.Io.KnownBytes.{Appends};
ghost use Rattle.mst_io.specs.Devices.{Works, IsStopped, seen_by};
ghost use Rattle.mst_io.specs.Written.{AppendsFront};
ghost use Rattle.mstplan.specs.Said.{IsSaid, coded, hex_digit as hex, part_text, parts_text, shown, shown_char};

use mst_io::{Sink, WriteFailed, put};

/// A part of what is said.
#[derive(Clone, Copy)]
pub(crate) enum Part<'a> {
    /// A text, as it is.
    Text(&'a [u8]),
    /// The name of a file, with each control character as its code, so that it says nothing to a terminal.
    Name(&'a str),
}

/// Writes the parts of what is to be said on standard error, unless that has failed before. Whatever becomes of it, the program
/// goes on.
pub(crate) fn say<K: Sink>(errors: &mut K, parts: &[Part<'_>])
    ensures { IsSaid (seen_by K.told K.contents K.lent errors.old) (seen_by K.told K.contents K.lent errors.new) (parts_text parts.now) }
{
    if errors.failed() {
        return;
    }
    match put_each(errors, parts) {
        Ok(()) => {}
        Err(_) => {}
    }
}

/// Writes the parts in turn. After a failure a front of them went out.
fn put_each<K: Sink>(sink: &mut K, parts: &[Part<'_>]) -> Result<(), WriteFailed>
    requires working { (K.told sink.old).failed ≡ false }
    ensures ok { OnOk result (Appends (K.contents sink.old) (K.contents sink.new) (parts_text parts.now)) }
    ensures err { OnErr result (AppendsFront (K.contents sink.old) (K.contents sink.new) (parts_text parts.now)) }
    ensures works { OnOk result (Works (K.told sink.old) (K.told sink.new)) }
    ensures broken { OnErr result (IsStopped (K.told sink.old) (K.told sink.new)) }
    ensures lent { K.lent sink.new ≡ K.lent sink.old }
{
    for part in parts {
        put_part(sink, *part)?;
    }
    Ok(())
}

fn put_part<K: Sink>(sink: &mut K, part: Part<'_>) -> Result<(), WriteFailed>
    requires working { (K.told sink.old).failed ≡ false }
    ensures ok { OnOk result (Appends (K.contents sink.old) (K.contents sink.new) (part_text part.entry)) }
    ensures err { OnErr result (AppendsFront (K.contents sink.old) (K.contents sink.new) (part_text part.entry)) }
    ensures works { OnOk result (Works (K.told sink.old) (K.told sink.new)) }
    ensures broken { OnErr result (IsStopped (K.told sink.old) (K.told sink.new)) }
    ensures lent { K.lent sink.new ≡ K.lent sink.old }
{
    match part {
        Part::Text(text) => put(sink, text),
        Part::Name(name) => put_name(sink, name),
    }
}

/// Writes a name as it is shown, character by character.
fn put_name<K: Sink>(sink: &mut K, name: &str) -> Result<(), WriteFailed>
    requires working { (K.told sink.old).failed ≡ false }
    ensures ok { OnOk result (Appends (K.contents sink.old) (K.contents sink.new) (shown name.now)) }
    ensures err { OnErr result (AppendsFront (K.contents sink.old) (K.contents sink.new) (shown name.now)) }
    ensures works { OnOk result (Works (K.told sink.old) (K.told sink.new)) }
    ensures broken { OnErr result (IsStopped (K.told sink.old) (K.told sink.new)) }
    ensures lent { K.lent sink.new ≡ K.lent sink.old }
{
    for c in name.chars() {
        put_char(sink, c)?;
    }
    Ok(())
}

/// Writes a character of a name as it is shown.
fn put_char<K: Sink>(sink: &mut K, c: char) -> Result<(), WriteFailed>
    requires working { (K.told sink.old).failed ≡ false }
    ensures ok { OnOk result (Appends (K.contents sink.old) (K.contents sink.new) (shown_char c)) }
    ensures err { OnErr result (AppendsFront (K.contents sink.old) (K.contents sink.new) (shown_char c)) }
    ensures works { OnOk result (Works (K.told sink.old) (K.told sink.new)) }
    ensures broken { OnErr result (IsStopped (K.told sink.old) (K.told sink.new)) }
    ensures lent { K.lent sink.new ≡ K.lent sink.old }
{
    if c.is_control() {
        put(sink, &code_of(c))
    } else {
        let mut bytes = [0; 4];
        put(sink, c.encode_utf8(&mut bytes).as_bytes())
    }
}

/// What a control character is shown as: its code, to the base 16.
fn code_of(c: char) -> [u8; 4]
    requires { is_control c ≡ true }
    ensures { result ≡ coded c }
{
    let code = u32::from(c) as u8;
    [b'\\', b'x', hex_digit(code / 16), hex_digit(code % 16)]
}

/// A digit to the base 16.
fn hex_digit(value: u8) -> u8
    requires { value < 16 }
    ensures { result ≡ hex value }
{
    if value < 10 {
        b'0' + value
    } else {
        b'a' - 10 + value
    }
}
