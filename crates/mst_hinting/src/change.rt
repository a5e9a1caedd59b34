ghost use Rattle.std.specs.Prelude.{◌≡◌, ◌+◌, ◌<◌, ◌^◌, ◌++◌, Some, OnOk};
ghost use Rattle.mst_hints.specs.Hints.{hint_line};
ghost use Rattle.mst_hints.specs.Scripts.{text_before, version_with};
ghost use Rattle.mst_hinting.specs.Lines.{change_hint};

use mst_hints::{Script, push_hint};
use mst_lang::{Version, is_version_2};
use std::alloc::AllocError;

/// Tells what would be right in the lines of a change that aren't read, one after another.
#[derive(Drop)]
pub(crate) struct ChangeHints {
    /// The version of the change, once its first line has come.
    pub(crate) version: Option<Version>,
    /// The number of the next line, from 1.
    pub(crate) number: u64,
}

impl ChangeHints {
    /// Before the first line.
    pub(crate) fn new() -> ChangeHints
        ensures version { result.version ≡ None }
        ensures number { result.number ≡ 1 }
    {
        ChangeHints {
            version: None,
            number: 1,
        }
    }

    /// Takes the next line, without its end, and appends the hint of it, if it isn't read. `AllocError`: memory was wanted and
    /// refused; part of the hint may have been appended, and what is appended of later lines is not told.
    pub(crate) fn push_hint(&mut self, line: &[u8], out: &mut Vec<u8>) -> Result<(), AllocError>
        requires few { self.old.number < 2 ^ 60 }
        ensures version { OnOk result (self.new.version ≡ Some (version_with self.old.version line.now)) }
        ensures number { OnOk result (self.new.number ≡ self.old.number + 1) }
        ensures text { OnOk result (out.new.items ≡ out.old.items ++ hint_line (text_before Script.Change) self.old.number (change_hint self.old.version line.now)) }
    {
        match self.version {
            Some(version) => push_line_hint(version, self.number, line, out)?,
            None => push_first_hint(self.number, line, out)?,
        }
        self.version = Some(version_at(self.version, line));
        self.number += 1;
        Ok(())
    }
}

/// Appends the hint of a line of a change of this version, if it isn't read.
fn push_line_hint(
    version: Version,
    number: u64,
    line: &[u8],
    out: &mut Vec<u8>,
) -> Result<(), AllocError>
    ensures { OnOk result (out.new.items ≡ out.old.items ++ hint_line (text_before Script.Change) number (change_hint (Some version) line.now)) }
{
    push_hint(version, Script::Change.text_before(), number, line, out)?;
    Ok(())
}

/// Appends the hint of the first line, if it isn't read. Where it says that the change is of version 2, it says nothing else.
fn push_first_hint(number: u64, line: &[u8], out: &mut Vec<u8>) -> Result<(), AllocError>
    ensures { OnOk result (out.new.items ≡ out.old.items ++ hint_line (text_before Script.Change) number (change_hint None line.now)) }
{
    if is_version_2(line) {
        Ok(())
    } else {
        push_line_hint(Version::V1, number, line, out)
    }
}

/// The version at the next line: it is known already, or this line, the first one, says it.
fn version_at(known: Option<Version>, line: &[u8]) -> Version
    ensures { result ≡ version_with known line.now }
{
    match known {
        Some(version) => version,
        None => {
            if is_version_2(line) {
                Version::V2
            } else {
                Version::V1
            }
        }
    }
}
