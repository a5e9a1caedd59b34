ghost use Rattle.std.specs.Prelude.{◌≡◌, ◌∷◌, ◌++◌, ◌+◌, [], ℕ, List, OnOk, OnErr};
ghost use Rattle.mst_change.specs.Reading.{line_read, parts_steps, reading_at, version_at as at_version};
ghost use Rattle.mst_change.specs.Steps.{ended, nothing_read, steps_with};

use mst_lang::{Edit, Fault, Line, Version, is_version_2, next_word, parse_line_as};
use std::alloc::{AllocError, Global};
use std::marker::Model;
use std::mem::replace;

/// A line of a change that does something.
#[derive(Drop)]
pub struct StepLine {
    number: u64,
    read: Result<Edit, Fault>,
}

impl Model for StepLine {
    ghost use Rattle.mst_change.specs.Reading.{LineRead};

    ghost Value = { LineRead };

    ghost view = { λ l. record { number = l.number; read = l.read } };
}

impl StepLine {
    /// Its number among all lines.
    pub fn number(&self) -> u64
        ensures { result ≡ self.now.number }
    {
        self.number
    }

    /// The edit that it says, or the least fault of it.
    pub fn read(&self) -> &Result<Edit, Fault>
        ensures { result.now ≡ self.now.read }
    {
        &self.read
    }
}

/// A step of a change: its lines that do something, in their order.
#[derive(Drop)]
pub struct ChangeStep {
    lines: Vec<StepLine>,
}

impl Model for ChangeStep {
    ghost use Rattle.std.specs.Prelude.{List};
    ghost use Rattle.mst_change.specs.Reading.{LineRead};

    ghost Value = { List LineRead };

    ghost view = { λ s. s.lines.items };
}

impl ChangeStep {
    /// No lines.
    fn new(alloc: Global) -> ChangeStep
        ensures { result ≡ [] }
    {
        ChangeStep {
            lines: Vec::new(alloc),
        }
    }

    /// Puts a line behind the others, or changes nothing.
    fn push(&mut self, line: StepLine) -> Result<(), AllocError>
        ensures ok { OnOk result (self.new ≡ self.old ++ line ∷ []) }
        ensures err { OnErr result (self.new ≡ self.old) }
    {
        self.lines.push(line)?;
        Ok(())
    }

    /// The lines.
    pub fn lines(&self) -> &[StepLine]
        ensures { result.now ≡ self.now }
    {
        self.lines.as_slice()
    }
}

/// A change: its steps, in their order.
///
/// Each of its lines is [`read`](Change::read), and then it is [ended](Change::end).
#[derive(Drop)]
pub struct Change {
    version: Version,
    steps: Vec<ChangeStep>,
    // The lines of the step that has begun.
    begun: ChangeStep,
}

impl Model for Change {
    ghost use Rattle.mst_change.specs.Steps.{ReadSoFar};

    ghost Value = { ReadSoFar };

    ghost view = { λ c. record { version = c.version; ended = c.steps.items; begun = c.begun } };
}

impl Change {
    /// A change of which no line was read.
    pub fn new(alloc: Global) -> Change
        ensures { result ≡ nothing_read }
    {
        Change {
            version: Version::V1,
            steps: Vec::new(alloc),
            begun: ChangeStep::new(alloc),
        }
    }

    /// Reads the next line, which has this number, from 1 on, and comes without its end. The first line may say that the change
    /// is of version 2. `AllocError`: memory was wanted and refused, and the change isn't to be read on.
    pub fn read(&mut self, alloc: Global, number: u64, line: &[u8]) -> Result<(), AllocError>
        ensures { OnOk result ((others : List (List ℕ)) → steps_with self.new (number + 1) others ≡ steps_with self.old number (line.now ∷ others)) }
    {
        self.version = version_at(self.version, number, line);
        let read = read_line(self.version, number, line);
        if stands_between(&read, line) {
            return self.end(alloc);
        }
        match read {
            Err(fault) => self.begun.push(StepLine {
                number,
                read: Err(fault),
            }),
            Ok(Line::Edit(edit)) => self.begun.push(StepLine {
                number,
                read: Ok(edit),
            }),
            Ok(_) => Ok(()),
        }
    }

    /// Ends the step that has begun, if one has: behind the last line all steps are ended so. `AllocError`: memory was wanted and
    /// refused, and the change isn't to be read on.
    pub fn end(&mut self, alloc: Global) -> Result<(), AllocError>
        ensures { OnOk result (self.new ≡ ended self.old) }
    {
        if self.begun.lines().is_empty() {
            return Ok(());
        }
        let step = replace(&mut self.begun, ChangeStep::new(alloc));
        self.steps.push(step)?;
        Ok(())
    }

    /// The steps that have ended.
    pub fn steps(&self) -> &[ChangeStep]
        ensures { result.now ≡ self.now.ended }
    {
        self.steps.as_slice()
    }
}

/// The version of a change, at the line of this number.
fn version_at(known: Version, number: u64, line: &[u8]) -> Version
    ensures { result ≡ at_version known number line.now }
{
    if number != 1 {
        return known;
    }
    if is_version_2(line) {
        Version::V2
    } else {
        Version::V1
    }
}

/// What a line of a change says.
fn read_line(version: Version, number: u64, line: &[u8]) -> Result<Line, Fault>
    ensures { result ≡ reading_at version number line.now }
{
    match version {
        Version::V1 => parse_line_as(Version::V1, line),
        Version::V2 => {
            if number == 1 {
                Ok(Line::Blank)
            } else {
                parse_line_as(Version::V2, line)
            }
        }
    }
}

/// Whether a line stands between steps.
fn stands_between(read: &Result<Line, Fault>, line: &[u8]) -> bool
    ensures { result ≡ parts_steps read.now line.now }
{
    match read {
        Ok(Line::Blank) => next_word(line).is_none(),
        _ => false,
    }
}
