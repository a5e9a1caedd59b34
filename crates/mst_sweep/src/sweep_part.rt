ghost use Rattle.std.specs.Prelude.{◌≡◌, ◌≤◌, ◌-◌};
ghost use Rattle.mst_sweep.specs.SweepParts.{end_of as end_of_parts, part_at, part_of, whole_part, IsPart};

use crate::failure::Failure;
use std::marker::Model;

/// One of so many equal parts of a sweep: a run of the failures, of which the next part has the next ones.
#[derive(Clone, Copy)]
pub struct SweepPart {
    number: u64,
    count: u64,
}

impl Model for SweepPart {
    ghost use Rattle.mst_sweep.specs.SweepParts.{PartOf, IsPart};

    ghost Value = { PartOf };

    ghost view = { λ p. record { number = p.number; count = p.count } };

    ghost invariant = { λ p. IsPart (record { number = p.number; count = p.count }) };

    ghost inverse = { λ p. record { number = p.number; count = p.count } };
}

impl SweepPart {
    /// The part of this number, of so many: the first is 1. Nothing for 0, for a number above that of the parts, and for more
    /// than 65,536 parts.
    pub fn new(number: u64, count: u64) -> Option<SweepPart>
        ensures { result ≡ part_at number count }
    {
        if number < 1 || number > count || count > 65_536 {
            return None;
        }
        Some(SweepPart { number, count })
    }

    /// The whole sweep: its only part.
    pub fn whole() -> SweepPart
        ensures { result ≡ whole_part }
    {
        SweepPart {
            number: 1,
            count: 1,
        }
    }

    /// Its number.
    pub fn number(self) -> u64
        ensures { result ≡ self.number }
    {
        self.number
    }

    /// Of how many parts it is one.
    pub fn count(self) -> u64
        ensures { result ≡ self.count }
    {
        self.count
    }

    /// This part of these failures. The lengths of two parts differ by 1 at most.
    pub fn of<'a>(self, failures: &'a [Failure]) -> &'a [Failure]
        ensures { result.now ≡ part_of self failures.now }
    {
        let begin = self.begin(failures.len());
        let end = self.end(failures.len());
        &failures[begin..end]
    }

    /// The place in a list of this length at which this part of it begins, counted from 0.
    pub fn begin(self, len: usize) -> usize
        ensures { result ≡ end_of_parts (self.number - 1) self.count len }
    {
        end_of(self.number - 1, self.count, len)
    }

    /// The place in a list of this length at which this part of it ends. A part is one of so many.
    pub fn end(self, len: usize) -> usize
        ensures end { result ≡ end_of_parts self.number self.count len }
        ensures part { IsPart self }
    {
        end_of(self.number, self.count, len)
    }
}

/// The place in a list of this length at which so many of its equal parts end.
fn end_of(parts: u64, count: u64, len: usize) -> usize
    requires some { 1 ≤ count }
    requires within { parts ≤ count }
    requires few { count ≤ 65536 }
    ensures { result ≡ end_of_parts parts count len }
{
    (u128::from(parts) * len as u128 / u128::from(count)) as usize
}
