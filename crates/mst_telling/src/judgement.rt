ghost use Rattle.std.specs.Prelude.{◌≡◌, ◌++◌, List, IfOk, OnOk, if◌then◌else◌, map};
ghost use Rattle.mst_policy.specs.declared.policy.PolicyLine.{PolicyLine as LineOf};
ghost use Rattle.mst_rows.specs.Rows.{Row};
ghost use Rattle.mst_telling.specs.Judged.{found_at, line_lacks, reasons_in, told_in};
ghost use Rattle.mst_telling.specs.Rows.{row_at};
ghost use Rattle.mst_telling.specs.Steps.{no_rows};
ghost use Rattle.mst_telling.specs.Told.{found_rows, reason_rows};

use crate::kept::{KeptReason, all_kept};
use crate::reason::{At, put_reason};
use mst_reasons::{Cause, Missing, Reason};
use mst_rows::Rows;
use std::alloc::{AllocError, Global};

/// Why lines of a policy aren't kept in one place: in the network itself, or in that of an event, by what that is told by.
#[derive(Drop)]
pub struct Finding {
    pub place: Option<Cause>,
    /// For each line: none where it is kept there, or the place isn't looked at for it.
    pub reasons: Vec<Vec<KeptReason>>,
}

/// What the lines of a policy were judged by in a network.
#[derive(Drop)]
pub struct Judgement {
    /// Of each line what it names and the network hasn't.
    pub missing: Vec<Option<Missing>>,
    /// The places where some line isn't kept, in their order.
    pub found: Vec<Finding>,
}

impl Finding {
    /// Of these reasons of lines in a place, kept by those of the first of these places. `AllocError`: memory was wanted and refused.
    pub fn beside(
        alloc: Global,
        found: &[Finding],
        place: Option<Cause>,
        reasons: Vec<Vec<Reason>>,
    ) -> Result<Finding, AllocError>
        ensures place { IfOk result (λ finding. finding.place ≡ place) }
        ensures reasons { IfOk result (λ finding. reasons_in finding.reasons ≡ reasons_in reasons) }
    {
        let first = found.first().map(|finding| &finding.reasons);
        let reasons = all_kept(alloc, first, &place, reasons)?;
        Ok(Finding { place, reasons })
    }

    /// The reasons of the line at a place of the list.
    pub(crate) fn reasons_of(&self, n: usize) -> &[KeptReason]
        ensures { result.now ≡ (found_at n self.now).reasons }
    {
        match self.reasons.get(n) {
            Some(reasons) => reasons.as_slice(),
            None => &[],
        }
    }
}

impl Judgement {
    /// Of which no line has rows.
    pub fn none(alloc: Global) -> Judgement
        ensures { (lines : List LineOf) → told_in lines result ≡ no_rows lines }
    {
        let missing = Vec::new(alloc);
        let found = Vec::new(alloc);
        Judgement { missing, found }
    }

    /// What the line at a place of the list names and the network hasn't.
    pub(crate) fn lacks(&self, n: usize) -> Option<Missing>
        ensures { result ≡ line_lacks n self.now }
    {
        match self.missing.get(n) {
            Some(missing) => *missing,
            None => None,
        }
    }
}

/// One, where it is so.
pub(crate) fn one_if(is_so: bool) -> u64
    ensures { result ≡ (if is_so then 1 else 0) }
{
    if is_so { 1 } else { 0 }
}

/// Puts why a line isn't kept in one place.
pub(crate) fn put_reasons<R: Rows>(
    alloc: Global,
    at: At,
    place: &Option<Cause>,
    reasons: &[KeptReason],
    out: &mut R,
) -> Result<(), AllocError>
    ensures { (first : R) (rows : List Row) → R.grew first out.old rows → OnOk result (R.grew first out.new (rows ++ map (row_at at.step) (reason_rows at.number place.now reasons.now))) }
{
    for reason in reasons {
        put_reason(alloc, at, place, reason, out)?;
    }
    Ok(())
}

/// Puts why the line at a place of the list isn't kept.
pub(crate) fn put_found<R: Rows>(
    alloc: Global,
    at: At,
    n: usize,
    found: &[Finding],
    out: &mut R,
) -> Result<(), AllocError>
    ensures { (first : R) (rows : List Row) → R.grew first out.old rows → OnOk result (R.grew first out.new (rows ++ map (row_at at.step) (found_rows at.number (map (found_at n) found.now)))) }
{
    for finding in found {
        put_reasons(alloc, at, &finding.place, finding.reasons_of(n), out)?;
    }
    Ok(())
}
