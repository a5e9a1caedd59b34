ghost use Rattle.std.specs.Prelude.{◌≡◌, ℕ, List, [], Some, true, false, OnOk};
ghost use Rattle.mst_hints.specs.Kept.{AreKept, AreMade};
ghost use Rattle.mst_hints.specs.Scripts.{Adding, noted, last_adding, with_making};
ghost use Rattle.mst_hints.specs.Standing.{Making, last_making};

use crate::record::{Record, same_records};
use indexmap::IndexMap;
use std::alloc::{AllocError, Global};

/// The lines that were to add a record and were refused or not read, and those that made one.
pub(crate) struct Adds {
    /// By the record the number of the last line that was to add it, where this line was refused or not read.
    pub(crate) refused: IndexMap<Record, u64>,
    /// By the record the number of the last line that made it.
    pub(crate) made: IndexMap<Record, u64>,
}

// By hand, so that the check of a drop of what holds it takes this one as one call.
impl Drop for Adds {
    fn drop(self) {
        let Adds {
            refused: _,
            made: _,
        } = self;
    }
}

impl Adds {
    /// No lines.
    pub(crate) fn new(alloc: Global) -> Adds
        ensures refused { AreKept [] result }
        ensures made { AreMade [] result }
    {
        Adds {
            refused: IndexMap::new(alloc),
            made: IndexMap::new(alloc),
        }
    }

    /// The number of the last line that was to add the record, where this line was refused or not read.
    pub(crate) fn last_refused(&self, wanted: &Record) -> Option<u64>
        ensures { (adds : List Adding) → AreKept adds self.now → result ≡ last_adding wanted.now adds }
    {
        same_records();
        self.refused.get(wanted).copied()
    }

    /// The number of the last line that made the record.
    pub(crate) fn last_made(&self, wanted: &Record) -> Option<u64>
        ensures { (makings : List Making) → AreMade makings self.now → result ≡ last_making wanted.now makings }
    {
        same_records();
        self.made.get(wanted).copied()
    }

    /// Notes a line that was to add a record, if it was to, by whether it was made. `AllocError`: memory was wanted and
    /// refused, and nothing is noted.
    pub(crate) fn note(
        &mut self,
        number: u64,
        added: Option<Record>,
        made: bool,
    ) -> Result<(), AllocError>
        ensures noted { OnOk result ((adds : List Adding) → AreKept adds self.old → AreKept (noted number adds added made) self.new) }
        ensures made { OnOk result (self.new.made.entries ≡ self.old.made.entries) }
    {
        match added {
            None => Ok(()),
            Some(added) => {
                if made {
                    self.forget(&added);
                    Ok(())
                } else {
                    self.note_refused(number, added)
                }
            }
        }
    }

    /// Notes a line that was to add the record and wasn't made.
    fn note_refused(&mut self, number: u64, added: Record) -> Result<(), AllocError>
        ensures noted { OnOk result ((adds : List Adding) → AreKept adds self.old → AreKept (noted number adds (Some added) false) self.new) }
        ensures made { OnOk result (self.new.made.entries ≡ self.old.made.entries) }
    {
        same_records();
        match self.refused.insert(added, number) {
            Ok(_) => Ok(()),
            Err(_) => Err(AllocError),
        }
    }

    /// Notes that a line added the record.
    fn forget(&mut self, added: &Record)
        ensures noted { (number : ℕ) (adds : List Adding) → AreKept adds self.old → AreKept (noted number adds (Some added.now) true) self.new }
        ensures made { self.new.made.entries ≡ self.old.made.entries }
    {
        same_records();
        let _ = self.refused.swap_remove(added);
    }

    /// Notes the line that made a record, if it did. `AllocError`: memory was wanted and refused, and nothing is noted.
    pub(crate) fn note_made(&mut self, number: u64, made: Option<Record>) -> Result<(), AllocError>
        ensures noted { OnOk result ((makings : List Making) → AreMade makings self.old → AreMade (with_making number makings made) self.new) }
        ensures refused { OnOk result (self.new.refused.entries ≡ self.old.refused.entries) }
    {
        match made {
            None => Ok(()),
            Some(made) => self.note_making(number, made),
        }
    }

    /// Notes the line that made this record.
    fn note_making(&mut self, number: u64, made: Record) -> Result<(), AllocError>
        ensures noted { OnOk result ((makings : List Making) → AreMade makings self.old → AreMade (with_making number makings (Some made)) self.new) }
        ensures refused { OnOk result (self.new.refused.entries ≡ self.old.refused.entries) }
    {
        same_records();
        match self.made.insert(made, number) {
            Ok(_) => Ok(()),
            Err(_) => Err(AllocError),
        }
    }
}
