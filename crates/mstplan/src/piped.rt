ghost use Rattle.std.specs.Prelude.{◌≡◌, ◌||◌, false};
ghost use Rattle.std.specs.Io.{WritesAtMost};
ghost use Rattle.std.specs.Io.KnownBytes.{Keeps, WriteAppends};
ghost use Rattle.mstplan.specs.Piped.{closes as closes_pipe};

use std::io::{ErrorKind, Result, Write};

/// A writer that notes whether who reads it has closed it.
#[derive(Drop)]
pub(crate) struct Piped<W: Drop> {
    writer: W,
    is_closed: bool,
}

impl<W: Drop> Piped<W> {
    /// A writer that wasn't called yet.
    pub(crate) fn new(writer: W) -> Piped<W>
        ensures writer { result.writer ≡ writer }
        ensures closed { result.is_closed ≡ false }
    {
        Piped {
            writer,
            is_closed: false,
        }
    }

    /// Whether a call has failed since no one reads any more what is written.
    pub(crate) fn is_closed(&self) -> bool
        ensures { result ≡ self.now.is_closed }
    {
        self.is_closed
    }

    /// Notes what a call was answered.
    fn note<T>(&mut self, answer: &Result<T>)
        ensures { self.new ≡ record self.old { is_closed = self.old.is_closed || closes_pipe answer.now } }
    {
        self.is_closed = self.is_closed || closes(answer);
    }
}

impl<W: Write + Drop> Write for Piped<W> {
    ghost contents = { λ p. W.contents p.writer };

    fn write(&mut self, buf: &[u8]) -> Result<usize>
        ensures bound { WritesAtMost result buf.now }
        ensures bytes { WriteAppends (W.contents self.old.writer) (W.contents self.new.writer) result buf.now }
        ensures closed { self.new.is_closed ≡ (self.old.is_closed || closes_pipe result) }
    {
        let answer = self.writer.write(buf);
        self.note(&answer);
        answer
    }

    fn flush(&mut self) -> Result<()>
        ensures bytes { Keeps (W.contents self.old.writer) (W.contents self.new.writer) }
        ensures closed { self.new.is_closed ≡ (self.old.is_closed || closes_pipe result) }
    {
        let answer = self.writer.flush();
        self.note(&answer);
        answer
    }
}

/// Whether a call has failed since no one reads any more what is written.
fn closes<T>(answer: &Result<T>) -> bool
    ensures { result ≡ closes_pipe answer.now }
{
    match answer {
        Ok(_) => false,
        Err(error) => error.kind() == ErrorKind::BrokenPipe,
    }
}
