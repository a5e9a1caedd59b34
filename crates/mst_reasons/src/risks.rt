ghost use Rattle.std.specs.Prelude.{◌≡◌, ◌++◌, ◌∷◌, [], ℕ, List, IfOk, OnOk, filter, map};
ghost use Rattle.std.specs.Option.{option_map};
ghost use Rattle.mst_reasons.specs.Risks.{fails_by as fails_by_lines, items_have as items_have_of, lines_of as lines_of_name, risks as risks_in};
ghost use Rattle.mst_reasons.specs.SeenRisks.{lines_at, seen_lines, seen_risk, seen_risk_in, seen_whole};
ghost use Rattle.mst_sweep.specs.Failures.{failures as failures_of};
ghost use Rattle.mst_graph.specs.Lists.{each_once};
ghost use Rattle.mst_tables.specs.Tables.{Net, Numbers};
ghost use Rattle.mst_view.specs.Aggregation.{same_name};
ghost use Rattle.mst_view.specs.Viewed.{IsView};

use crate::items::{have_bridges, have_lans};
use indexmap::{IndexMap, IndexSet};
use mst_ids::Name;
use mst_policy::{PolicyLine, RiskItems, RiskLine};
use mst_sweep::{Event, Failure};
use mst_view::View;
use std::alloc::{AllocError, Global};
use std::marker::Model;

/// A risk of a policy in a network: its name, and the failures that come at once, of which there is one at least.
#[derive(Drop)]
pub struct Risk {
    name: Name,
    failures: Vec<Failure>,
}

impl Model for Risk {
    ghost use Rattle.mst_sweep.specs.Failures.{Event as EventOf};
    ghost use Rattle.mst_sweep.specs.declared.event.Cause.TheVariants as cause;

    ghost Value = { EventOf };

    ghost view = { λ r. record { cause = cause.Risk r.name; failures = r.failures.items } };
}

impl Risk {
    /// As an event.
    pub fn event(&self) -> Event<'_>
        ensures { result ≡ self.now }
    {
        Event::of_risk(self.name, self.failures.as_slice())
    }
}

/// Whether a line of a risk says that this fails.
fn items_have(items: &RiskItems, failure: &Failure) -> bool
    ensures { result ≡ items_have_of items.now failure.now }
{
    match (items, failure) {
        (RiskItems::Lans(names), Failure::Lan(lan)) => names.has(lan),
        (RiskItems::Bridges(names), Failure::Bridge(bridge)) => names.has(bridge),
        _ => false,
    }
}

/// Whether the network has some LAN or some bridge of each item of a line of a risk.
pub fn is_whole(view: &View, line: &RiskLine) -> bool
    ensures { result ≡ seen_whole view.now line.now }
{
    match &line.items {
        RiskItems::Lans(names) => have_lans(view.member_lans(), names.as_slice()),
        RiskItems::Bridges(names) => have_bridges(view.bridges(), names.as_slice()),
    }
}

/// What a line says of a risk, if it isn't refused.
fn whole_risk<'a>(view: &View, line: &'a PolicyLine) -> Option<&'a RiskLine>
    ensures { option_map (λ risk. risk.now) result ≡ seen_risk_in view.now line.now }
{
    match line.risk() {
        Some(risk) if is_whole(view, risk) => Some(risk),
        _ => None,
    }
}

/// What lines say of risks, but for those that are refused.
fn whole_lines<'a>(
    alloc: Global,
    view: &View,
    lines: &'a [PolicyLine],
) -> Result<Vec<&'a RiskLine>, AllocError>
    ensures { IfOk result (λ whole. map (λ risk. risk.now) whole.items ≡ seen_lines view.now lines.now) }
{
    let mut whole = Vec::new(alloc);
    for line in lines {
        if let Some(risk) = whole_risk(view, line) {
            whole.push(risk)?;
        }
    }
    Ok(whole)
}

/// Adds a line to those of its name.
fn add_line<'a>(
    alloc: Global,
    line: &'a RiskLine,
    kept: &mut IndexMap<Name, Vec<&'a RiskLine>>,
) -> Result<(), AllocError>
    ensures { OnOk result ((name : List ℕ) → lines_at kept.new name ≡ lines_at kept.old name ++ lines_of_name name (line.now ∷ [])) }
{
    let mut lines = match kept.swap_remove(&line.name) {
        Some(lines) => lines,
        None => Vec::new(alloc),
    };
    lines.push(line)?;
    kept.insert(line.name, lines)?;
    Ok(())
}

/// The lines of each name, in their order. It takes about one step for each line.
fn lines_by_name<'a>(
    alloc: Global,
    lines: &[&'a RiskLine],
) -> Result<IndexMap<Name, Vec<&'a RiskLine>>, AllocError>
    ensures { IfOk result (λ kept. (name : List ℕ) → lines_at kept name ≡ lines_of_name name (map (λ risk. risk.now) lines.now)) }
{
    let mut kept = IndexMap::new(alloc);
    for n in 0..lines.len() {
        add_line(alloc, lines[n], &mut kept)?;
    }
    Ok(kept)
}

/// Whether one of these lines says that this fails.
fn fails_by(lines: &[&RiskLine], failure: &Failure) -> bool
    ensures { result ≡ fails_by_lines (map (λ risk. risk.now) lines.now) failure.now }
{
    for n in 0..lines.len() {
        if items_have(&lines[n].items, failure) {
            return true;
        }
    }
    false
}

/// Those of these failures that one of these lines says.
fn failures_by(
    alloc: Global,
    failures: &[Failure],
    lines: &[&RiskLine],
) -> Result<Vec<Failure>, AllocError>
    ensures { IfOk result (λ own. own.items ≡ filter (fails_by_lines (map (λ risk. risk.now) lines.now)) failures.now) }
{
    let mut own = Vec::new(alloc);
    for failure in failures {
        if fails_by(lines, failure) {
            own.push(*failure)?;
        }
    }
    Ok(own)
}

/// Those of these failures that one of the lines of this name says.
fn named_failures(
    alloc: Global,
    failures: &[Failure],
    kept: &IndexMap<Name, Vec<&RiskLine>>,
    name: &Name,
) -> Result<Vec<Failure>, AllocError>
    ensures { IfOk result (λ own. own.items ≡ filter (fails_by_lines (lines_at kept.now name.now)) failures.now) }
{
    match kept.get(name) {
        Some(lines) => failures_by(alloc, failures, lines.as_slice()),
        None => Ok(Vec::new(alloc)),
    }
}

/// Adds the risk of this name to these, if it has a failure.
fn add_named(
    alloc: Global,
    failures: &[Failure],
    kept: &IndexMap<Name, Vec<&RiskLine>>,
    name: Name,
    risks: &mut Vec<Risk>,
) -> Result<(), AllocError>
    ensures { OnOk result (risks.new.items ≡ risks.old.items ++ seen_risk failures.now (lines_at kept.now name) name) }
{
    let own = named_failures(alloc, failures, kept, &name)?;
    if own.is_empty() {
        drop(own);
    } else {
        risks.push(Risk {
            name,
            failures: own,
        })?;
    }
    Ok(())
}

/// The names of risks, each once, in the order of the first lines that have them.
fn names(alloc: Global, lines: &[&RiskLine]) -> Result<IndexSet<Name>, AllocError>
    ensures { IfOk result (λ names. names.keys ≡ each_once same_name (map (λ risk. risk.now.name) lines.now)) }
{
    let mut names = IndexSet::new(alloc);
    for n in 0..lines.len() {
        names.insert(lines[n].name)?;
    }
    Ok(names)
}

/// The risks of a policy in a network, by its view and its failures: each by its first line that isn't refused, if it has a failure
/// there. `AllocError`: memory was wanted and refused.
pub(crate) fn risks(
    alloc: Global,
    view: &View,
    failures: &[Failure],
    lines: &[PolicyLine],
) -> Result<Vec<Risk>, AllocError>
    ensures { IfOk result (λ risks. (net : Net) (numbers : Numbers) → IsView net numbers view.now → failures.now ≡ failures_of net → risks.items ≡ risks_in net lines.now) }
{
    let whole = whole_lines(alloc, view, lines)?;
    let names = names(alloc, whole.as_slice())?;
    let kept = lines_by_name(alloc, whole.as_slice())?;
    let mut risks = Vec::new(alloc);
    for name in names.as_slice() {
        add_named(alloc, failures, &kept, *name, &mut risks)?;
    }
    Ok(risks)
}
