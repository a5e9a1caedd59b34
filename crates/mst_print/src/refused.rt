ghost use Rattle.std.specs.Prelude.{◌≡◌, ◌∷◌, [], false, OnOk, OnErr};
ghost use Rattle.std.specs.Io.KnownBytes.{Appends};
ghost use Rattle.mst_tables.specs.Refusals.{code_of as refusal_code, text_of as refusal_text};
ghost use Rattle.mst_bpdu.specs.CaptureText.{fault_row};
ghost use Rattle.mst_io.specs.Devices.{Works, IsStopped};
ghost use Rattle.mst_io.specs.Written.{AppendsFront};
ghost use Rattle.mst_rows.specs.Answers.{IsPlain};
ghost use Rattle.mst_print.specs.Shape.{coded, listed};
ghost use Rattle.mst_print.specs.Parts.{code_line, code_object, side_word, side_member as member_of};

use crate::form::{Form, Shape, Side};
use itoa::Buffer;
use mst_bpdu::BpduFault;
use mst_io::{Sink, WriteFailed, put_parts};
use mst_tables::Refusal;

/// The words that the line of a refusal begins with.
fn word(side: Side) -> &'static str
    ensures { result.now ≡ side_word side }
{
    match side {
        Side::Only => "line ",
        Side::Old => "old line ",
        Side::New => "new line ",
    }
}

/// What an object of JSON says of its script, where there are two.
fn side_member(side: Side) -> &'static str
    ensures { result.now ≡ member_of side }
{
    match side {
        Side::Only => "",
        Side::Old => "\"side\":\"old\",",
        Side::New => "\"side\":\"new\",",
    }
}

/// Writes that a line of a script is refused.
pub fn put_refusal<K: Sink>(
    sink: &mut K,
    shape: Shape,
    number: u64,
    refusal: Refusal,
) -> Result<(), WriteFailed>
    requires working { (K.told sink.old).failed ≡ false }
    ensures ok { OnOk result (Appends (K.contents sink.old) (K.contents sink.new) (coded shape number (refusal_code refusal) (refusal_text refusal))) }
    ensures err { OnErr result (AppendsFront (K.contents sink.old) (K.contents sink.new) (coded shape number (refusal_code refusal) (refusal_text refusal))) }
    ensures works { OnOk result (Works (K.told sink.old) (K.told sink.new)) }
    ensures broken { OnErr result (IsStopped (K.told sink.old) (K.told sink.new)) }
    ensures lent { K.lent sink.new ≡ K.lent sink.old }
{
    put_coded(sink, shape, number, refusal.code(), refusal.text())
}

/// Writes that a line of a script is refused, by this code and text, which need no escapes.
pub fn put_coded<'a, K: Sink>(
    sink: &mut K,
    shape: Shape,
    number: u64,
    code: &'a str,
    text: &'a str,
) -> Result<(), WriteFailed>
    requires working { (K.told sink.old).failed ≡ false }
    requires plain_code { IsPlain code.now }
    requires plain_text { IsPlain text.now }
    ensures ok { OnOk result (Appends (K.contents sink.old) (K.contents sink.new) (coded shape number code.now text.now)) }
    ensures err { OnErr result (AppendsFront (K.contents sink.old) (K.contents sink.new) (coded shape number code.now text.now)) }
    ensures works { OnOk result (Works (K.told sink.old) (K.told sink.new)) }
    ensures broken { OnErr result (IsStopped (K.told sink.old) (K.told sink.new)) }
    ensures lent { K.lent sink.new ≡ K.lent sink.old }
{
    match shape.form {
        Form::Text => put_line(sink, word(shape.side), number, code, text),
        Form::Json => put_object(sink, side_member(shape.side), number, code, text),
    }
}

/// Writes that a captured message isn't compared.
pub fn put_fault<K: Sink>(
    sink: &mut K,
    form: Form,
    number: u64,
    fault: BpduFault,
) -> Result<(), WriteFailed>
    requires working { (K.told sink.old).failed ≡ false }
    ensures ok { OnOk result (Appends (K.contents sink.old) (K.contents sink.new) (listed form (fault_row number fault ∷ []))) }
    ensures err { OnErr result (AppendsFront (K.contents sink.old) (K.contents sink.new) (listed form (fault_row number fault ∷ []))) }
    ensures works { OnOk result (Works (K.told sink.old) (K.told sink.new)) }
    ensures broken { OnErr result (IsStopped (K.told sink.old) (K.told sink.new)) }
    ensures lent { K.lent sink.new ≡ K.lent sink.old }
{
    let code = fault.code();
    let text = fault.text();
    match form {
        Form::Text => put_line(sink, "capture ", number, code, text),
        Form::Json => put_object(sink, "\"kind\":\"capture\",", number, code, text),
    }
}

/// Writes an object of JSON that says what is refused, behind the members that stand first.
fn put_object<'a, K: Sink>(
    sink: &mut K,
    first: &'a str,
    number: u64,
    code: &'a str,
    text: &'a str,
) -> Result<(), WriteFailed>
    requires working { (K.told sink.old).failed ≡ false }
    ensures ok { OnOk result (Appends (K.contents sink.old) (K.contents sink.new) (code_object first.now number code.now text.now)) }
    ensures err { OnErr result (AppendsFront (K.contents sink.old) (K.contents sink.new) (code_object first.now number code.now text.now)) }
    ensures works { OnOk result (Works (K.told sink.old) (K.told sink.new)) }
    ensures broken { OnErr result (IsStopped (K.told sink.old) (K.told sink.new)) }
    ensures lent { K.lent sink.new ≡ K.lent sink.old }
{
    let mut buffer = Buffer::new();
    let digits = buffer.format(number).as_bytes();
    let parts: [&[u8]; 9] = [
        b"{",
        first.as_bytes(),
        b"\"line\":",
        digits,
        b",\"error\":\"",
        code.as_bytes(),
        b"\",\"text\":\"",
        text.as_bytes(),
        b"\"}\n",
    ];
    put_parts(sink, &parts)
}

/// Writes the first words, `N CODE TEXT` and the end of the line.
fn put_line<'a, K: Sink>(
    sink: &mut K,
    first: &'a str,
    number: u64,
    code: &'a str,
    text: &'a str,
) -> Result<(), WriteFailed>
    requires working { (K.told sink.old).failed ≡ false }
    ensures ok { OnOk result (Appends (K.contents sink.old) (K.contents sink.new) (code_line first.now number code.now text.now)) }
    ensures err { OnErr result (AppendsFront (K.contents sink.old) (K.contents sink.new) (code_line first.now number code.now text.now)) }
    ensures works { OnOk result (Works (K.told sink.old) (K.told sink.new)) }
    ensures broken { OnErr result (IsStopped (K.told sink.old) (K.told sink.new)) }
    ensures lent { K.lent sink.new ≡ K.lent sink.old }
{
    let mut buffer = Buffer::new();
    let digits = buffer.format(number).as_bytes();
    let parts: [&[u8]; 7] = [
        first.as_bytes(),
        digits,
        b" ",
        code.as_bytes(),
        b" ",
        text.as_bytes(),
        b"\n",
    ];
    put_parts(sink, &parts)
}
