ghost use Rattle.std.specs.Prelude.{◌≡◌, ◌+◌, ◌<◌, ◌^◌};
ghost use Rattle.std.specs.Io.{ReadsAtMost};
ghost use Rattle.mst_io.specs.Devices.{seen_by};
ghost use Rattle.mst_hinting.specs.Kept.{number_of};

use crate::hinted::{take_bytes, take_last};
use crate::lines::LineHints;
use mst_hints::Script;
use mst_io::{Failed, HeldLine, RunFault, Sink, put};
use std::alloc::Global;

/// How many bytes of a script are taken at most. Its lines are no more, so their numbers are below 2^60.
const MOST_BYTES: u64 = (1 << 60) - 2;

/// Whether hints are told.
#[derive(Clone, Copy)]
pub(crate) enum State {
    /// None are wanted.
    Off,
    On,
    /// Nothing more is told: this stopped them.
    Stopped(RunFault),
}

/// What is told of the lines of a script that came so far.
#[derive(Drop)]
pub struct Telling {
    alloc: Global,
    state: State,
    hints: LineHints,
    /// What has come of the next line.
    held: HeldLine,
    /// The hints that are still to be written.
    text: Vec<u8>,
    /// Whether the end of the script was found.
    at_end: bool,
    /// How many bytes more are taken.
    room: u64,
    ghost few: { number_of hints + room < 2 ^ 60 },
}

impl Telling {
    ghost use Rattle.mst_hinting.specs.Listening.{Wrote, Took, Heard, Ended, Finishes, IsFirst, is_on, answer_of};
    ghost use Rattle.mst_hinting.specs.declared.telling.State.TheVariants.{Stopped};

    /// Of a script of which nothing has come. Where hints are `wanted`, they are those of the script that this is `of`, and each
    /// says so where there is another one.
    pub fn new(alloc: Global, wanted: bool, of: Script) -> Telling
        ensures { IsFirst wanted of result }
    {
        Telling {
            alloc,
            state: if wanted { State::On } else { State::Off },
            hints: LineHints::new(alloc, of),
            held: HeldLine::new(),
            text: Vec::new(alloc),
            at_end: false,
            room: MOST_BYTES,
        }
    }

    fn is_on(&self) -> bool
        ensures { result ≡ is_on self.now.state }
    {
        matches!(self.state, State::On)
    }

    /// What stopped the hints, if something did.
    fn answer(&self) -> Result<(), RunFault>
        ensures { result ≡ answer_of self.now.state }
    {
        match self.state {
            State::Off | State::On => Ok(()),
            State::Stopped(fault) => Err(fault),
        }
    }

    /// Tells nothing more: this stopped the hints.
    fn stop(&mut self, fault: RunFault)
        ensures { self.new.state ≡ Stopped fault }
    {
        self.text.clear();
        self.state = State::Stopped(fault);
    }

    /// Writes the hints that are still to be written.
    pub(crate) fn write<E: Sink>(&mut self, errors: &mut E)
        ensures wrote { Wrote (seen_by E.told E.contents E.lent errors.old) (seen_by E.told E.contents E.lent errors.new) self.old self.new }
        ensures lent { E.lent errors.new ≡ E.lent errors.old }
    {
        if !self.is_on() {
            return;
        }
        if errors.failed() {
            self.stop(RunFault::Write);
            return;
        }
        match put(errors, self.text.as_slice()) {
            Ok(()) => self.text.clear(),
            Err(_) => self.stop(RunFault::Write),
        }
    }

    /// Takes what a call of the source answered, which was lent this buffer.
    pub(crate) fn hear(&mut self, answer: Result<usize, Failed>, buffer: &[u8])
        requires { ReadsAtMost answer buffer.now }
        ensures { Heard answer buffer.now self.old self.new }
    {
        match answer {
            Err(_) => self.at_end = false,
            Ok(count) => {
                self.at_end = self.at_end || (count == 0 && !buffer.is_empty());
                self.take(&buffer[..count]);
            }
        }
    }

    /// Takes bytes of the script, as far as hints are told.
    fn take(&mut self, bytes: &[u8])
        ensures { Took bytes.now self.old self.new }
    {
        if !self.is_on() {
            return;
        }
        let count = bytes.len() as u64;
        if count > self.room {
            self.stop(RunFault::Memory);
            return;
        }
        self.room -= count;
        match take_bytes(
            self.alloc,
            &mut self.hints,
            &mut self.held,
            bytes,
            &mut self.text,
        ) {
            Ok(()) => {}
            Err(_) => self.stop(RunFault::Memory),
        }
    }

    /// Takes the last line of the script, if it has come to its end.
    fn end(&mut self)
        ensures { Ended self.old self.new }
    {
        if !self.at_end || !self.is_on() {
            return;
        }
        if self.room == 0 {
            self.stop(RunFault::Memory);
            return;
        }
        self.room -= 1;
        match take_last(self.alloc, &mut self.hints, &mut self.held, &mut self.text) {
            Ok(()) => {}
            Err(_) => self.stop(RunFault::Memory),
        }
    }

    /// Writes the hints that are still to be written, with that of the last line where the script has come to its end, and
    /// tells what stopped them, if something did.
    pub(crate) fn finish<E: Sink>(&mut self, errors: &mut E) -> Result<(), RunFault>
        ensures finishes { Finishes (seen_by E.told E.contents E.lent errors.old) (seen_by E.told E.contents E.lent errors.new) self.old result }
        ensures lent { E.lent errors.new ≡ E.lent errors.old }
    {
        self.write(errors);
        self.end();
        self.write(errors);
        self.answer()
    }
}
