ghost use Rattle.std.specs.Prelude.{◌≡◌, IfOk, IsTrue, MatchOption, map, unwrap_or, ⊤};
ghost use Rattle.mst_telling.specs.Kept.{but_for, names_but, parts_but};

use mst_ids::{Name, VidSet};
use mst_reasons::{Cause, Failure, Parts, Reason};
use std::alloc::{AllocError, Global};
use std::marker::Model;
use std::rc::Rc;

/// A reason as it is kept: one that is the same in several places, or the same but for the bridge that failed, is kept once.
#[derive(Drop)]
pub struct KeptReason {
    reason: Rc<Reason>,
    // The bridge that is left out of its parts.
    lost: Option<Name>,
}

impl Model for KeptReason {
    ghost use Rattle.mst_reasons.specs.declared.reason.Reason.{Reason as ReasonOf};
    ghost use Rattle.mst_telling.specs.Kept.{but_for_some};

    ghost Value = { ReasonOf };

    ghost view = { λ kept. but_for_some kept.lost kept.reason.value };
}

/// A reason for the time in which it is told.
#[derive(Drop)]
pub(crate) struct Told<'a> {
    kept: &'a Reason,
    made: Option<Reason>,
}

impl<'a> Model for Told<'a> {
    ghost use Rattle.std.specs.Prelude.{unwrap_or};
    ghost use Rattle.mst_reasons.specs.declared.reason.Reason.{Reason as ReasonOf};

    ghost Value = { ReasonOf };

    ghost view = { λ told. unwrap_or told.made told.kept.now };
}

impl<'a> Told<'a> {
    /// The reason.
    pub(crate) fn reason(&self) -> &Reason
        ensures { result.now ≡ self.now }
    {
        match &self.made {
            Some(made) => made,
            None => self.kept,
        }
    }
}

/// These names but for one.
fn names_without(alloc: Global, names: &[Name], name: &Name) -> Result<Vec<Name>, AllocError>
    ensures { IfOk result (λ others. others.items ≡ names_but name.now names.now) }
{
    names
        .iter()
        .filter(|own| **own != *name)
        .copied()
        .collect(alloc)
}

/// These parts but for a bridge, and for a part that has no other.
fn parts_without(
    alloc: Global,
    parts: &[Vec<Name>],
    name: &Name,
) -> Result<Vec<Vec<Name>>, AllocError>
    ensures { IfOk result (λ others. map (λ part. part.items) others.items ≡ parts_but name.now (map (λ part. part.items) parts.now)) }
{
    let mut others = Vec::new(alloc);
    for part in parts {
        let names = names_without(alloc, part.as_slice(), name)?;
        if names.is_empty() {
            drop(names);
        } else {
            others.push(names)?;
        }
    }
    Ok(others)
}

/// A reason of parts but for a bridge, or nothing for any other.
fn without(alloc: Global, reason: &Reason, name: &Name) -> Result<Option<Reason>, AllocError>
    ensures { IfOk result (λ made. unwrap_or made reason.now ≡ but_for name.now reason.now) }
{
    match reason {
        Reason::Reach { vids, parts } => {
            let parts = Parts::of(parts_without(alloc, parts.as_slice(), name)?);
            Ok(Some(Reason::Reach { vids: *vids, parts }))
        }
        Reason::Apart { vids, parts } => {
            let parts = Parts::of(parts_without(alloc, parts.as_slice(), name)?);
            Ok(Some(Reason::Apart { vids: *vids, parts }))
        }
        Reason::Leaves { vids, parts } => {
            let parts = Parts::of(parts_without(alloc, parts.as_slice(), name)?);
            Ok(Some(Reason::Leaves { vids: *vids, parts }))
        }
        Reason::Together { vids, parts } => {
            let parts = Parts::of(parts_without(alloc, parts.as_slice(), name)?);
            Ok(Some(Reason::Together { vids: *vids, parts }))
        }
        _ => Ok(None),
    }
}

/// Whether VIDs and parts are the same.
fn are_same(vids: &VidSet, parts: &Parts, others: &VidSet, their: &Parts) -> bool
    ensures { IsTrue result → (vids.now ≡ others.now) × (parts.now ≡ their.now) }
{
    *vids == *others && parts.as_slice() == their.as_slice()
}

/// Whether two reasons of parts are the same; not of any other.
fn is_same(a: &Reason, b: &Reason) -> bool
    ensures { IsTrue result → a.now ≡ b.now }
{
    match (a, b) {
        (
            Reason::Reach { vids, parts },
            Reason::Reach {
                vids: others,
                parts: their,
            },
        ) => are_same(vids, parts, others, their),
        (
            Reason::Apart { vids, parts },
            Reason::Apart {
                vids: others,
                parts: their,
            },
        ) => are_same(vids, parts, others, their),
        (
            Reason::Leaves { vids, parts },
            Reason::Leaves {
                vids: others,
                parts: their,
            },
        ) => are_same(vids, parts, others, their),
        (
            Reason::Together { vids, parts },
            Reason::Together {
                vids: others,
                parts: their,
            },
        ) => are_same(vids, parts, others, their),
        _ => false,
    }
}

/// The VIDs of a reason of parts.
fn vids_of(reason: &Reason) -> Option<&VidSet> {
    match reason {
        Reason::Reach { vids, .. } => Some(vids),
        Reason::Apart { vids, .. } => Some(vids),
        Reason::Leaves { vids, .. } => Some(vids),
        Reason::Together { vids, .. } => Some(vids),
        _ => None,
    }
}

/// Whether two reasons are of parts and of the same VIDs.
fn have_same_vids(a: &Reason, b: &Reason) -> bool {
    match (vids_of(a), vids_of(b)) {
        (Some(vids), Some(others)) => *vids == *others,
        _ => false,
    }
}

impl KeptReason {
    /// This one, whole.
    fn whole(alloc: Global, reason: Reason) -> Result<KeptReason, AllocError>
        ensures { IfOk result (λ kept. kept ≡ reason) }
    {
        let reason = Rc::new(alloc, reason)?;
        Ok(KeptReason { reason, lost: None })
    }

    /// The reason, to be told.
    pub(crate) fn told(&self, alloc: Global) -> Result<Told<'_>, AllocError>
        ensures { IfOk result (λ told. told ≡ self.now) }
    {
        let kept: &Reason = &self.reason;
        match &self.lost {
            None => Ok(Told { kept, made: None }),
            Some(name) => {
                let made = without(alloc, kept, name)?;
                Ok(Told { kept, made })
            }
        }
    }

    /// A reason by this one, if it is the same, or the same but for a bridge that failed.
    fn beside(
        &self,
        alloc: Global,
        lost: &Option<Name>,
        reason: &Reason,
    ) -> Result<Option<KeptReason>, AllocError>
        ensures { IfOk result (λ kept. MatchOption kept ⊤ (λ kept. kept ≡ reason.now)) }
    {
        let own: &Reason = &self.reason;
        if self.lost.is_some() || !have_same_vids(own, reason) {
            return Ok(None);
        }
        if is_same(own, reason) {
            return Ok(Some(KeptReason {
                reason: self.reason.clone()?,
                lost: None,
            }));
        }
        let Some(name) = lost else {
            return Ok(None);
        };
        match without(alloc, own, name)? {
            Some(made) if is_same(&made, reason) => Ok(Some(KeptReason {
                reason: self.reason.clone()?,
                lost: Some(*name),
            })),
            _ => Ok(None),
        }
    }
}

/// A reason by one of these, if it can be kept so. Of reasons without parts none can.
fn by_some(
    alloc: Global,
    those: &[KeptReason],
    lost: &Option<Name>,
    reason: &Reason,
) -> Result<Option<KeptReason>, AllocError>
    ensures { IfOk result (λ kept. MatchOption kept ⊤ (λ kept. kept ≡ reason.now)) }
{
    if vids_of(reason).is_none() {
        return Ok(None);
    }
    for kept in those {
        let own = kept.beside(alloc, lost, reason)?;
        if own.is_some() {
            return Ok(own);
        }
    }
    Ok(None)
}

/// A reason, kept by one of these if it can be.
fn kept_by(
    alloc: Global,
    those: &[KeptReason],
    lost: &Option<Name>,
    reason: Reason,
) -> Result<KeptReason, AllocError>
    ensures { IfOk result (λ kept. kept ≡ reason) }
{
    match by_some(alloc, those, lost, &reason)? {
        Some(kept) => Ok(kept),
        None => KeptReason::whole(alloc, reason),
    }
}

/// The reasons of a line, kept by these.
fn line_kept(
    alloc: Global,
    those: &[KeptReason],
    lost: &Option<Name>,
    reasons: Vec<Reason>,
) -> Result<Vec<KeptReason>, AllocError>
    ensures { IfOk result (λ kept. kept.items ≡ reasons.items) }
{
    let mut kept = Vec::new(alloc);
    for reason in reasons {
        kept.push(kept_by(alloc, those, lost, reason)?)?;
    }
    Ok(kept)
}

/// The bridge that failed, if that is all.
fn lost_at(place: &Option<Cause>) -> Option<Name> {
    match place {
        Some(Cause::One(Failure::Bridge(name))) => Some(*name),
        _ => None,
    }
}

/// The reasons of a line in this list of those of lines.
fn reasons_at(lines: Option<&Vec<Vec<KeptReason>>>, n: usize) -> &[KeptReason] {
    match lines {
        None => &[],
        Some(lines) => match lines.get(n) {
            None => &[],
            Some(reasons) => reasons.as_slice(),
        },
    }
}

/// The reasons of each line in a place, kept by those of another place, if there is one.
pub(crate) fn all_kept(
    alloc: Global,
    those: Option<&Vec<Vec<KeptReason>>>,
    place: &Option<Cause>,
    all: Vec<Vec<Reason>>,
) -> Result<Vec<Vec<KeptReason>>, AllocError>
    ensures { IfOk result (λ kept. map (λ reasons. reasons.items) kept.items ≡ map (λ reasons. reasons.items) all.items) }
{
    let lost = lost_at(place);
    let mut kept = Vec::new(alloc);
    for reasons in all {
        let own = reasons_at(those, kept.len());
        kept.push(line_kept(alloc, own, &lost, reasons)?)?;
    }
    Ok(kept)
}
