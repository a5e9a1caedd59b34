ghost use Rattle.std.specs.Prelude.{◌≡◌, false, OnOk, OnErr};
ghost use Rattle.std.specs.Io.KnownBytes.{Appends};
ghost use Rattle.mst_io.specs.Devices.{Works, IsStopped};
ghost use Rattle.mst_io.specs.Written.{AppendsFront};
ghost use Rattle.mst_rows.specs.Answers.{IsPlain};
ghost use Rattle.mst_print.specs.Shape.{IsOfQuestion, unanswered};
ghost use Rattle.mst_print.specs.Parts.{word_line, word_object};

use crate::form::Form;
use mst_io::{Sink, WriteFailed, put_parts};
use mst_kinds::RefusalLine;

/// Writes that a question isn't answered, by this code and text, which need no escapes. The kind of the row says what is asked.
pub fn put_unanswered<'a, K: Sink>(
    sink: &mut K,
    form: Form,
    line: RefusalLine,
    code: &'a str,
    text: &'a str,
) -> Result<(), WriteFailed>
    requires working { (K.told sink.old).failed ≡ false }
    requires question { IsOfQuestion line }
    requires plain_code { IsPlain code.now }
    requires plain_text { IsPlain text.now }
    ensures ok { OnOk result (Appends (K.contents sink.old) (K.contents sink.new) (unanswered form line code.now text.now)) }
    ensures err { OnErr result (AppendsFront (K.contents sink.old) (K.contents sink.new) (unanswered form line code.now text.now)) }
    ensures works { OnOk result (Works (K.told sink.old) (K.told sink.new)) }
    ensures broken { OnErr result (IsStopped (K.told sink.old) (K.told sink.new)) }
    ensures lent { K.lent sink.new ≡ K.lent sink.old }
{
    let word = line.first().text();
    match form {
        Form::Text => put_line(sink, word, code, text),
        Form::Json => put_object(sink, word, code, text),
    }
}

/// Writes that what this word asks isn't answered, as an object of JSON.
fn put_object<'a, K: Sink>(
    sink: &mut K,
    word: &'a [u8],
    code: &'a str,
    text: &'a str,
) -> Result<(), WriteFailed>
    requires working { (K.told sink.old).failed ≡ false }
    ensures ok { OnOk result (Appends (K.contents sink.old) (K.contents sink.new) (word_object word.now code.now text.now)) }
    ensures err { OnErr result (AppendsFront (K.contents sink.old) (K.contents sink.new) (word_object word.now code.now text.now)) }
    ensures works { OnOk result (Works (K.told sink.old) (K.told sink.new)) }
    ensures broken { OnErr result (IsStopped (K.told sink.old) (K.told sink.new)) }
    ensures lent { K.lent sink.new ≡ K.lent sink.old }
{
    let parts: [&[u8]; 7] = [
        b"{\"query\":\"",
        word,
        b"\",\"error\":\"",
        code.as_bytes(),
        b"\",\"text\":\"",
        text.as_bytes(),
        b"\"}\n",
    ];
    put_parts(sink, &parts)
}

/// Writes that what this word asks isn't answered, as a line.
fn put_line<'a, K: Sink>(
    sink: &mut K,
    word: &'a [u8],
    code: &'a str,
    text: &'a str,
) -> Result<(), WriteFailed>
    requires working { (K.told sink.old).failed ≡ false }
    ensures ok { OnOk result (Appends (K.contents sink.old) (K.contents sink.new) (word_line word.now code.now text.now)) }
    ensures err { OnErr result (AppendsFront (K.contents sink.old) (K.contents sink.new) (word_line word.now code.now text.now)) }
    ensures works { OnOk result (Works (K.told sink.old) (K.told sink.new)) }
    ensures broken { OnErr result (IsStopped (K.told sink.old) (K.told sink.new)) }
    ensures lent { K.lent sink.new ≡ K.lent sink.old }
{
    let parts: [&[u8]; 6] = [word, b" ", code.as_bytes(), b" ", text.as_bytes(), b"\n"];
    put_parts(sink, &parts)
}
