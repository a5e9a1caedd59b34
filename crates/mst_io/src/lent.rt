ghost use Rattle.std.specs.Prelude.{◌≤◌};

use crate::devices::{Failed, Sink, Source};
use std::io::{Read, Write};

/// What is counted of the calls of a device.
#[derive(Clone, Copy)]
struct Count {
    /// Whether a call has failed.
    is_broken: bool,
    /// How many calls were answered, one with an error included.
    calls: u64,
    /// How many bytes went through in them.
    bytes: u64,
    /// How many of these answered 0, though there was a byte to take, or room for one.
    zeros: u64,
    /// Whether the last one did.
    at_zero: bool,
    /// Whether a call came since it was last flushed.
    unsent: bool,
    ghost few: { zeros ≤ calls },
}

impl Count {
    ghost use Rattle.std.specs.Prelude.{◌≡◌, ◌==◌, ◌||◌, ◌<◌, ◌+◌, ◌-◌, ◌^◌, nat_lt, true, false, IsOk, IfOk, Err};
    ghost use Rattle.mst_io.specs.Devices.{told_by, uncalled, called, flushed};

    /// Of a device that was not called yet.
    fn new() -> Count
        ensures { told_by result ≡ uncalled }
    {
        Count {
            is_broken: false,
            calls: 0,
            bytes: 0,
            zeros: 0,
            at_zero: false,
            unsent: false,
        }
    }

    /// Whether the device has failed.
    fn failed(&self) -> bool
        ensures { result ≡ (told_by self.now).failed }
    {
        self.is_broken || self.calls == u64::MAX
    }

    /// Whether there is no call left with a buffer, or a part, of this size, but one that fails.
    fn is_spent(&self, size: usize) -> bool
        requires { (told_by self.now).failed ≡ false }
        ensures exact { result ≡ (self.now.calls == 2 ^ 64 - 2 || nat_lt (2 ^ 64 - 1 - size) self.now.bytes) }
        ensures left { result ≡ false → self.now.calls + 1 < 2 ^ 64 - 1 }
        ensures room { result ≡ false → self.now.bytes + size < 2 ^ 64 }
    {
        self.calls == u64::MAX - 1 || self.bytes > u64::MAX - size as u64
    }

    /// Counts a call with a buffer, or a part, of this size.
    fn add(&mut self, answer: Result<usize, Failed>, size: usize)
        requires working { (told_by self.old).failed ≡ false }
        requires left { IsOk answer → self.old.calls + 1 < 2 ^ 64 - 1 }
        requires room { IfOk answer (λ count. self.old.bytes + count < 2 ^ 64) }
        ensures { told_by self.new ≡ called (told_by self.old) answer size }
    {
        let at_zero = answer == Ok(0) && size != 0;
        *self = Count {
            is_broken: answer.is_err(),
            calls: self.calls + 1,
            bytes: match answer {
                Ok(count) => self.bytes + count as u64,
                Err(_) => self.bytes,
            },
            zeros: if at_zero { self.zeros + 1 } else { self.zeros },
            at_zero,
            unsent: true,
        };
    }

    /// Notes whether what was held back could be sent on.
    fn note(&mut self, answer: Result<(), Failed>)
        requires { (told_by self.old).failed ≡ false }
        ensures { told_by self.new ≡ flushed (told_by self.old) answer }
    {
        self.is_broken = answer.is_err();
        self.unsent = self.is_broken;
    }
}

/// A reader as a source, of the same bytes. An error of any kind is its failure, an interrupted call included.
///
/// It counts its calls and their bytes, and gives up as failed before there are 2^64 of either.
#[derive(Drop)]
pub struct FromRead<'a, R> {
    reader: &'a mut R,
    count: Count,
}

impl<'a, R: Read> FromRead<'a, R> {
    ghost use Rattle.std.specs.Prelude.{◌≡◌, Some};
    ghost use Rattle.mst_io.specs.Devices.{uncalled};

    /// The reader as a source that was not called yet.
    pub fn new(reader: &'a mut R) -> FromRead<'a, R>
        ensures bytes { ⟦<FromRead<'a, R> as Source>⟧.remaining result ≡ R.remaining reader.old }
        ensures told { ⟦<FromRead<'a, R> as Source>⟧.told result ≡ uncalled }
        ensures lent { ⟦<FromRead<'a, R> as Source>⟧.lent result ≡ Some reader.entry.ghost_name }
    {
        FromRead {
            reader,
            count: Count::new(),
        }
    }
}

impl<R: Read> Source for FromRead<'_, R> {
    ghost use Rattle.std.specs.Prelude.{Some};
    ghost use Rattle.mst_io.specs.Devices.{told_by};

    ghost remaining = { λ s. R.remaining s.reader.now };

    ghost told = { λ s. told_by s.count };

    ghost lent = { λ s. Some s.reader.ghost_name };

    fn failed(&self) -> bool {
        self.count.failed()
    }

    fn fill<K: Sink>(&mut self, buffer: &mut [u8], _sink: &K) -> Result<usize, Failed> {
        let answer = if self.count.is_spent(buffer.len()) {
            Err(Failed)
        } else {
            match self.reader.read(buffer) {
                Ok(count) => Ok(count),
                Err(_) => Err(Failed),
            }
        };
        self.count.add(answer, buffer.len());
        answer
    }
}

/// A writer as a sink, of the same bytes. An error of any kind is its failure, an interrupted call included. It is
/// flushed where the sink is.
///
/// It counts its calls and their bytes, and gives up as failed before there are 2^64 of either.
#[derive(Drop)]
pub struct ToWrite<'a, W> {
    writer: &'a mut W,
    count: Count,
}

impl<'a, W: Write> ToWrite<'a, W> {
    ghost use Rattle.std.specs.Prelude.{◌≡◌, Some};
    ghost use Rattle.mst_io.specs.Devices.{uncalled};

    /// The writer as a sink that was not called yet.
    pub fn new(writer: &'a mut W) -> ToWrite<'a, W>
        ensures bytes { ⟦<ToWrite<'a, W> as Sink>⟧.contents result ≡ W.contents writer.old }
        ensures told { ⟦<ToWrite<'a, W> as Sink>⟧.told result ≡ uncalled }
        ensures lent { ⟦<ToWrite<'a, W> as Sink>⟧.lent result ≡ Some writer.entry.ghost_name }
    {
        ToWrite {
            writer,
            count: Count::new(),
        }
    }
}

impl<W: Write> Sink for ToWrite<'_, W> {
    ghost use Rattle.std.specs.Prelude.{Some};
    ghost use Rattle.mst_io.specs.Devices.{told_by};

    ghost contents = { λ s. W.contents s.writer.now };

    ghost told = { λ s. told_by s.count };

    ghost lent = { λ s. Some s.writer.ghost_name };

    fn failed(&self) -> bool {
        self.count.failed()
    }

    fn put(&mut self, part: &[u8]) -> Result<usize, Failed> {
        let answer = if self.count.is_spent(part.len()) {
            Err(Failed)
        } else {
            match self.writer.write(part) {
                Ok(count) => Ok(count),
                Err(_) => Err(Failed),
            }
        };
        self.count.add(answer, part.len());
        answer
    }

    fn flush(&mut self) -> Result<(), Failed> {
        let answer = match self.writer.flush() {
            Ok(()) => Ok(()),
            Err(_) => Err(Failed),
        };
        self.count.note(answer);
        answer
    }
}
