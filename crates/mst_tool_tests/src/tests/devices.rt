//! How often devices are called.

use super::counts;
use mst_ask::run_from;
use mst_io::RunFault;
use std::io::{self, ErrorKind, Read, Write};

/// Gives at most `step` bytes a call, and fails at the end, if it is to.
#[derive(Drop)]
struct Source<'a> {
    left: &'a [u8],
    step: usize,
    fails: bool,
    calls: u32,
}

impl<'a> Read for Source<'a> {
    fn read(&mut self, buf: &mut [u8]) -> io::Result<usize> {
        self.calls = self.calls.saturating_add(1);
        if self.left.is_empty() && self.fails {
            return Err(io::Error::from(ErrorKind::Interrupted));
        }
        let most = buf.len().min(self.step);
        self.left.read(&mut buf[..most])
    }
}

/// Takes at most 16 bytes a call, and `room` in all. At the next call it takes none, or fails, if it is to, and then takes everything.
#[derive(Drop)]
struct Sink {
    taken: Vec<u8>,
    room: usize,
    fails: bool,
    flushes: u32,
}

impl Write for Sink {
    fn write(&mut self, buf: &[u8]) -> io::Result<usize> {
        if self.room == 0 {
            self.room = usize::MAX;
            if self.fails {
                return Err(io::Error::from(ErrorKind::Interrupted));
            }
            return Ok(0);
        }
        let count = buf.len().min(16).min(self.room);
        self.taken.extend_from_slice(&buf[..count])?;
        self.room -= count;
        Ok(count)
    }

    fn flush(&mut self) -> io::Result<()> {
        self.flushes = self.flushes.saturating_add(1);
        Ok(())
    }
}

/// Two lines that are refused, and a part of one.
const LINES: &[u8] = b"one\ntwo\nthree";

const PRINTED: &[u8] = b"line 1 E01 no such command\nline 2 E01 no such command\n";

/// What a writer takes that fails then, or takes nothing.
const CUT: &[u8] = b"line 1 E01 no such command\nlin";

/// A reader that fails, or whose first answer is the end, and a writer that fails, or takes nothing: neither device is called again, and the
/// writer is flushed before each call of the reader, and at no other time.
#[test]
fn writers_are_flushed(rt: HostRuntime) {
    for (script, step, ended, printed, calls) in [
        (LINES, 1, Err(RunFault::Read), PRINTED, 14),
        (LINES, 4, Err(RunFault::Read), PRINTED, 5),
        (LINES, 4096, Err(RunFault::Read), PRINTED, 2),
        (b"", 1, Ok(counts(0, 0)), b"", 1),
        (LINES, 1, Err(RunFault::Write), CUT, 8),
        (LINES, 4096, Err(RunFault::Write), CUT, 1),
    ] {
        let room = if ended == Err(RunFault::Write) {
            CUT.len()
        } else {
            usize::MAX
        };
        let mut reader = Source {
            left: script,
            step,
            fails: ended.is_err(),
            calls: 0,
        };
        let mut writer = Sink {
            taken: Vec::new(rt.alloc()),
            room,
            fails: step == 1,
            flushes: 0,
        };
        let ran = run_from(rt.alloc(), &mut reader, &mut writer);
        assert!(rt;
            ran == ended
                && writer.taken.as_slice() == printed
                && reader.calls == calls
                && writer.flushes == calls,
            "{step} {room}"
        );
    }
}
