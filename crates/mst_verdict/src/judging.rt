ghost use Rattle.std.specs.Prelude.{◌≡◌, ◌++◌, ◌∷◌, [], ℕ, None, Some, IfOk, MatchOption, OnOk, filter, length, map, option_map, ⊤};
ghost use Rattle.std.specs.List.{AllByRecursion, AllZip, list_any};
ghost use Rattle.mst_view.specs.Viewed.{IsView};
ghost use Rattle.mst_net.specs.tables.Tables.{Net};
ghost use Rattle.mst_graph.specs.Lists.{has_any};
ghost use Rattle.mst_forest.specs.Outcome.{IsOutcome};
ghost use Rattle.mst_forest.specs.Settled.{outcome_of};
ghost use Rattle.mst_policy.specs.Leaving.{sets_of};
ghost use Rattle.mst_policy.specs.declared.expectation.Expectation.{Expectation as ExpectationOf};
ghost use Rattle.mst_sweeping.specs.plan.Plan.{IsPlan};
ghost use Rattle.mst_verdict.specs.Verifying.{AreLacking, AreReasonsEach, AreReasonsIf, AreReasonsThere, FindsAt, FoundIn, HaveLans, IsCarriage, IsJudging, IsOpened, IsPrior, Judges, OfSittings, expected_by, expected_in, found_of, is_asked_by, lacks_in, plan_outcome};
ghost use Rattle.mst_sweeping.specs.sweep.Failures.{failed};
ghost use Rattle.mst_policy.specs.declared.risk.Said.TheVariants as says;
ghost use Rattle.mst_telling.specs.Judged.{AreLinesJudged, line_found, reasons_in, told_in};
ghost use Rattle.mst_telling.specs.Told.{has_reason, says_due};
ghost use Rattle.mst_verify.specs.tree_judges.judged.Islands.{AreKept, HasIslandsOf, IsBeside, IsKeptOf};
ghost use Rattle.mst_verify.specs.tree_judges.judged.reasons.Judged.{places};
ghost use Rattle.mst_verify.specs.tree_judges.judged.reasons.Risks.{events as events_of, items_lack};
ghost use Rattle.mst_verify.specs.tree_judges.judged.reasons.sweep.vlan.classes.Classes.{AreInSame};
ghost use Rattle.mst_verify.specs.tree_judges.judged.reasons.Named.{Prior as PriorOf};
ghost use Rattle.mst_verify.specs.tree_judges.judged.reasons.Over.{HasItsLan};
ghost use Rattle.mst_verify.specs.tree_judges.judged.Seen.{IsBefore};

use crate::laws::line_where_unkept;
use mst_forest::Settled;
use mst_ids::{Vid, VidSet};
use mst_net::Network;
use mst_policy::{Expectation, Leaving, PolicyLine, Promise, RiskItems, RiskLine, Said};
use mst_sweeping::{Carriage, Cause, Event, Plan, edits_of, trees_failed, view, without_failures};
use mst_telling::{Finding, Hazards, Judgement, is_looked_at, is_whole, missing_in};
use mst_verify::{Before, Beside, Homes, Judged, Missing, Prior, Reason, reasons};
use mst_view::View;
use std::alloc::{AllocError, Global};

/// What the lines of a policy are judged by.
#[derive(Clone, Copy)]
pub(crate) struct Judging<'a> {
    /// The plan of the network, what carries its VIDs, and what is kept of it for all failures.
    pub(crate) plan: &'a Plan,
    pub(crate) carriage: &'a Carriage<'a>,
    pub(crate) before: &'a Before,
    /// What carries the VIDs of the network before, if there is one, and which bridges are meant to leave which VIDs.
    pub(crate) prior: Option<&'a Carriage<'a>>,
    pub(crate) leaving: &'a Leaving<'a>,
    /// The lines, and of each what it names and the network hasn't.
    pub(crate) lines: &'a [PolicyLine],
    pub(crate) missing: &'a [Option<Missing>],
    /// Promises of the last of several networks are judged.
    pub(crate) is_last: bool,
}

/// Whether a promise is judged: one of the last of several networks alone only in that.
fn is_due(promise: &Promise, is_last: bool) -> bool
    ensures { result ≡ says_due is_last (says.Promise promise.now) }
{
    is_last || !promise.is_final
}

/// What a line that is judged names and the network hasn't, or that nothing is judged of it there.
fn lacking(plan: &Settled, events: &[Event], line: &PolicyLine, is_last: bool) -> Option<Missing>
    ensures { result ≡ lacks_in plan.now.net events.now is_last line.now }
{
    match &line.read {
        Ok(Said::Promise(promise)) if is_due(promise, is_last) => missing_in(plan, events, promise),
        Ok(Said::Risk(risk)) => lacking_items(plan, risk),
        _ => None,
    }
}

/// What a line of a risk names and the network hasn't.
pub(crate) fn lacking_items(plan: &Settled, risk: &RiskLine) -> Option<Missing>
    ensures { result ≡ items_lack plan.now.net risk.now.items }
{
    plan.known();
    if is_whole(plan.view(), risk) {
        return None;
    }
    match risk.items {
        RiskItems::Lans(_) => Some(Missing::Lan),
        RiskItems::Bridges(_) => Some(Missing::Bridge),
    }
}

/// The same of each of these lines.
fn all_lacking(
    alloc: Global,
    plan: &Settled,
    events: &[Event],
    lines: &[PolicyLine],
    is_last: bool,
) -> Result<Vec<Option<Missing>>, AllocError>
    requires { events.now ≡ events_of plan.now.net lines.now }
    ensures { IfOk result (λ missing. AreLacking plan.now.net is_last lines.now missing.items) }
{
    lines
        .iter()
        .map(|line| lacking(plan, events, line, is_last))
        .collect(alloc)
}

/// What a line expects in a place, if that is looked at for it.
fn expected<'a>(
    judging: &Judging,
    line: &'a PolicyLine,
    missing: &Option<Missing>,
    place: &Option<Event>,
) -> Option<&'a Expectation>
    ensures { option_map (λ e. e.now) result ≡ expected_by judging.now line.now missing.now place.now }
{
    match line.promise() {
        Some(promise) if is_asked(judging, promise, missing, place) => Some(&promise.expectation),
        _ => None,
    }
}

/// Whether a place is looked at for a promise.
fn is_asked(
    judging: &Judging,
    promise: &Promise,
    missing: &Option<Missing>,
    place: &Option<Event>,
) -> bool
    ensures { result ≡ is_asked_by judging.now missing.now promise.now place.now }
{
    let has_prior = judging.prior.is_some();
    is_due(promise, judging.is_last)
        && (missing.is_none() && is_looked_at(has_prior, promise, place))
}

/// Adds VIDs to a set.
fn add_all(vids: &VidSet, set: &mut VidSet) {
    if *vids == *set {
        return;
    }
    for number in 1..4095u16 {
        if vids.contains(number) {
            set.insert(Vid::new(u64::from(number)).unwrap());
        }
    }
}

/// Adds the VIDs of whose islands an expectation asks.
fn add_asked(expectation: &Expectation, set: &mut VidSet) {
    match expectation {
        Expectation::Reach { vids, .. } => add_all(vids, set),
        Expectation::Apart { vids, .. } => add_all(vids, set),
        Expectation::Leaves { vids, .. } => add_all(vids, set),
        Expectation::Together { vids, .. } => add_all(vids, set),
        _ => {}
    }
}

/// The VIDs of whose islands those lines ask that are judged and lack nothing.
fn every_asked(lines: &[PolicyLine], missing: &[Option<Missing>], is_last: bool) -> VidSet
    requires { length missing.now ≡ length lines.now }
{
    let mut vids = VidSet::none();
    for n in 0..lines.len() {
        match lines[n].promise() {
            Some(promise) if missing[n].is_none() && is_due(promise, is_last) => {
                add_asked(&promise.expectation, &mut vids)
            }
            _ => {}
        }
    }
    vids
}

/// The VIDs of whose islands the lines ask for which a place is looked at, if it is for some line.
fn asked_vids(judging: &Judging, place: &Option<Event>) -> Option<VidSet>
    requires { length judging.now.missing.now ≡ length judging.now.lines.now }
    ensures { result ≡ None → (net : Net) → AreLacking net judging.now.is_last judging.now.lines.now judging.now.missing.now
        → AllByRecursion (λ line. expected_in judging.now net line place.now ≡ None) judging.now.lines.now }
{
    let mut vids = VidSet::none();
    let mut is_any = false;
    for n in 0..judging.lines.len() {
        match expected(judging, &judging.lines[n], &judging.missing[n], place) {
            None => {}
            Some(expectation) => {
                is_any = true;
                add_asked(expectation, &mut vids);
            }
        }
    }
    if is_any { Some(vids) } else { None }
}

/// The VIDs of whose islands the lines ask in the network before.
fn looking_back(judging: &Judging) -> VidSet
    requires { length judging.now.missing.now ≡ length judging.now.lines.now }
{
    let mut vids = VidSet::none();
    for n in 0..judging.lines.len() {
        match expected(judging, &judging.lines[n], &judging.missing[n], &None) {
            Some(Expectation::Together { vids: own, .. }) => add_all(own, &mut vids),
            _ => {}
        }
    }
    vids
}

/// Why a line isn't kept in a place: for no reason, where that isn't looked at for it.
fn line_reasons(
    alloc: Global,
    judging: &Judging,
    judged: &Judged,
    place: &Option<Event>,
    line: &PolicyLine,
    missing: &Option<Missing>,
) -> Result<Vec<Reason>, AllocError>
    requires kept { AreKept judged.now.plan.now judged.now.before.now judged.now.homes.now }
    requires lan { (e : ExpectationOf) → expected_by judging.now line.now missing.now place.now ≡ Some e → HasItsLan judged.now.plan.now.net e }
    requires prior { MatchOption judged.now.prior ⊤ (IsBeside judged.now.plan.now) }
    requires same { MatchOption judged.now.prior ⊤ (λ prior. AreInSame (sets_of judged.now.leaving.now) prior.classes.now) }
    ensures { IfOk result (λ reasons. (before : Net) (prior : PriorOf) → IsBefore before judged.now.before.now → IsKeptOf prior judged.now.prior judged.now.leaving.now
        → AreReasonsIf judged.now.plan.now.net (outcome_of judged.now.plan.now) before judged.now.lost.now prior (expected_by judging.now line.now missing.now place.now) reasons.items) }
{
    match expected(judging, line, missing, place) {
        None => Ok(Vec::new(alloc)),
        Some(expectation) => reasons(alloc, judged, expectation),
    }
}

/// Why each line isn't kept in a place.
fn judge_place(
    alloc: Global,
    judging: &Judging,
    judged: &Judged,
    place: &Option<Event>,
) -> Result<Vec<Vec<Reason>>, AllocError>
    requires kept { AreKept judged.now.plan.now judged.now.before.now judged.now.homes.now }
    requires missing { length judging.now.missing.now ≡ length judging.now.lines.now }
    requires lans { (net : Net) × AreLacking net judging.now.is_last judging.now.lines.now judging.now.missing.now × HaveLans judging.now net judged.now.plan.now.net place.now }
    requires prior { MatchOption judged.now.prior ⊤ (IsBeside judged.now.plan.now) }
    requires same { MatchOption judged.now.prior ⊤ (λ prior. AreInSame (sets_of judged.now.leaving.now) prior.classes.now) }
    ensures { IfOk result (λ all. (net before : Net) (prior : PriorOf) → AreLacking net judging.now.is_last judging.now.lines.now judging.now.missing.now → IsBefore before judged.now.before.now
        → IsKeptOf prior judged.now.prior judged.now.leaving.now → AreReasonsThere judging.now net judged.now.plan.now before judged.now.lost.now prior place.now (reasons_in all)) }
{
    let mut all = Vec::new(alloc);
    for n in 0..judging.lines.len() {
        all.push(line_reasons(
            alloc,
            judging,
            judged,
            place,
            &judging.lines[n],
            &judging.missing[n],
        )?)?;
    }
    Ok(all)
}

/// Whether some line has a reason.
fn has_some(reasons: &[Vec<Reason>]) -> bool
    ensures { result ≡ list_any (λ those. has_any those.items) reasons.now }
{
    reasons.iter().any(|those| !those.is_empty())
}

/// Keeps the reasons of lines in a place behind what was found, if there are some.
fn add_finding(
    alloc: Global,
    place: Option<Cause>,
    reasons: Vec<Vec<Reason>>,
    found: &mut Vec<Finding>,
) -> Result<(), AllocError>
    ensures { OnOk result ((n : ℕ) → line_found n found.new.items ≡ line_found n found.old.items ++ filter has_reason (found_of place (reasons_in reasons) n ∷ [])) }
{
    if has_some(reasons.as_slice()) {
        let finding = Finding::beside(alloc, found.as_slice(), place, reasons)?;
        found.push(finding)?;
    } else {
        drop(reasons);
    }
    Ok(())
}

/// Why each line isn't kept in the network itself, by what is kept of the network before, if there is one.
fn judge_now(
    alloc: Global,
    judging: &Judging,
    plan: &Settled,
    homes: &Homes,
    prior: Option<Prior>,
) -> Result<Vec<Vec<Reason>>, AllocError>
    requires kept { AreKept plan.now judging.now.before.now homes.now }
    requires lacking { AreLacking plan.now.net judging.now.is_last judging.now.lines.now judging.now.missing.now }
    requires before { IsBefore plan.now.net judging.now.before.now }
    requires prior { MatchOption prior ⊤ (IsBeside plan.now) }
    requires same { MatchOption prior ⊤ (λ kept. AreInSame (sets_of judging.now.leaving.now) kept.classes.now) }
    ensures { IfOk result (λ all. (before : PriorOf) → IsKeptOf before prior.entry judging.now.leaving.now → AreReasonsThere judging.now plan.now.net plan.now plan.now.net [] before None (reasons_in all)) }
{
    let judged = Judged {
        plan,
        before: judging.before,
        homes,
        lost: &[],
        prior,
        leaving: judging.leaving,
    };
    judge_place(alloc, judging, &judged, &None)
}

/// Why each line isn't kept in the network itself.
fn reasons_now(
    alloc: Global,
    network: &Network,
    judging: &Judging,
    vids: &VidSet,
) -> Result<Vec<Vec<Reason>>, AllocError>
    requires of { IsPlan network.now.net network.now.numbers judging.now.plan.now }
    requires judging { IsJudging network.now.net network.now.numbers judging.now }
    ensures { IfOk result (λ all. OfSittings network.now.net network.now.numbers judging.now (λ s. AreReasonsEach s judging.now.lines.now None (reasons_in all))) }
{
    let plan = Settled::new(network, &judging.plan.view, &judging.plan.forest);
    let homes = Homes::beside(alloc, judging.carriage, &plan, judging.before, vids)?;
    match judging.prior {
        None => judge_now(alloc, judging, &plan, &homes, None),
        Some(old) => {
            let back = looking_back(judging);
            let beside = Beside::new(alloc, old, judging.carriage, &plan, &back, judging.leaving)?;
            let prior = Prior::beside(old, &plan, &beside);
            judge_now(alloc, judging, &plan, &homes, Some(prior))
        }
    }
}

/// Keeps why lines aren't kept in the network itself, if that is looked at for some line.
fn find_now(
    alloc: Global,
    network: &Network,
    judging: &Judging,
    found: &mut Vec<Finding>,
) -> Result<(), AllocError>
    requires of { IsPlan network.now.net network.now.numbers judging.now.plan.now }
    requires judging { IsJudging network.now.net network.now.numbers judging.now }
    ensures { OnOk result (OfSittings network.now.net network.now.numbers judging.now (λ s. FindsAt s judging.now.lines.now None found.old.items found.new.items)) }
{
    match asked_vids(judging, &None) {
        None => Ok(()),
        Some(vids) => {
            let reasons = reasons_now(alloc, network, judging, &vids)?;
            add_finding(alloc, None, reasons, found)
        }
    }
}

/// Why each line isn't kept in the network with the failures of an event, by one repair of the trees that stand. The network itself is the
/// one before. The view, which is that network's, is the other's then.
fn reasons_failed(
    alloc: Global,
    network: &Network,
    judging: &Judging,
    event: &Event,
    vids: &VidSet,
    seen: &mut View,
) -> Result<Vec<Vec<Reason>>, AllocError>
    requires of { IsPlan network.now.net network.now.numbers judging.now.plan.now }
    requires judging { IsJudging network.now.net network.now.numbers judging.now }
    requires seen { IsView network.now.net network.now.numbers seen.old }
    ensures reasons { IfOk result (λ all. OfSittings network.now.net network.now.numbers judging.now (λ s. AreReasonsEach s judging.now.lines.now (Some event.now) (reasons_in all))) }
    ensures seen { OnOk result (IsView (failed event.now.failures network.now.net) network.now.numbers seen.new) }
{
    let failures = event.failures();
    let trees = trees_failed(alloc, network, judging.plan, failures, seen)?;
    let edits = edits_of(alloc, failures)?;
    let plan = Settled::ahead(network, edits.as_slice(), seen, &trees);
    plan.known();
    let homes = Homes::beside(alloc, judging.carriage, &plan, judging.before, vids)?;
    let prior = Prior::failed(judging.carriage, &plan, judging.before, &homes);
    let judged = Judged {
        plan: &plan,
        before: judging.before,
        homes: &homes,
        lost: failures,
        prior: Some(prior),
        leaving: judging.leaving,
    };
    judge_place(alloc, judging, &judged, &Some(event.copied()))
}

/// Keeps why lines aren't kept in the network with the failures of an event, if that is looked at for some line. The view is that of the
/// network itself, and stays so: it is renewed for the failures, and then back.
fn find_after(
    alloc: Global,
    network: &Network,
    judging: &Judging,
    event: &Event,
    seen: &mut View,
    found: &mut Vec<Finding>,
) -> Result<(), AllocError>
    requires of { IsPlan network.now.net network.now.numbers judging.now.plan.now }
    requires judging { IsJudging network.now.net network.now.numbers judging.now }
    requires seen { IsView network.now.net network.now.numbers seen.old }
    ensures found { OnOk result (OfSittings network.now.net network.now.numbers judging.now (λ s. FindsAt s judging.now.lines.now (Some event.now) found.old.items found.new.items)) }
    ensures seen { OnOk result (IsView network.now.net network.now.numbers seen.new) }
{
    match asked_vids(judging, &Some(event.copied())) {
        None => Ok(()),
        Some(vids) => {
            let reasons = reasons_failed(alloc, network, judging, event, &vids, seen)?;
            without_failures(alloc, network, event.failures(), seen)?;
            add_finding(alloc, Some(*event.cause()), reasons, found)
        }
    }
}

/// Why lines aren't kept, place by place: in the network itself, and then in that of each event, in their order. An event that no
/// line asks for isn't looked at, and each other one is once, for all lines.
fn find_all(
    alloc: Global,
    network: &Network,
    judging: &Judging,
    events: &[Event],
) -> Result<Vec<Finding>, AllocError>
    requires of { IsPlan network.now.net network.now.numbers judging.now.plan.now }
    requires judging { IsJudging network.now.net network.now.numbers judging.now }
    ensures { IfOk result (λ found. OfSittings network.now.net network.now.numbers judging.now (λ s. FoundIn s judging.now.lines.now (places events.now) found.items)) }
{
    let mut found = Vec::new(alloc);
    find_now(alloc, network, judging, &mut found)?;
    let mut seen = view(alloc, network)?;
    for event in events {
        find_after(alloc, network, judging, event, &mut seen, &mut found)?;
    }
    Ok(found)
}

/// What is known of a policy before a line is judged.
#[derive(Drop)]
struct Opened {
    before: Before,
    missing: Vec<Option<Missing>>,
}

/// What lines are judged by that are judged in a network.
fn opening(
    alloc: Global,
    network: &Network,
    plan: &Plan,
    carriage: &Carriage,
    lines: &[PolicyLine],
    asking: &Asking,
) -> Result<Opened, AllocError>
    requires of { IsPlan network.now.net network.now.numbers plan.now }
    requires carriage { IsCarriage plan.now carriage.now }
    requires events { asking.now.events.now ≡ events_of network.now.net lines.now }
    ensures opened { IfOk result (IsOpened network.now.net plan.now asking.now.is_last lines.now) }
    ensures same { IfOk result (λ opened. AreInSame (sets_of asking.now.leaving.now) opened.before.classes) }
    ensures islands { IfOk result (λ opened. HasIslandsOf carriage.now network.now.numbers opened.before) }
{
    let settled = Settled::new(network, &plan.view, &plan.forest);
    let missing = all_lacking(alloc, &settled, asking.events, lines, asking.is_last)?;
    let asked = every_asked(lines, missing.as_slice(), asking.is_last);
    let before = Before::with_islands(alloc, &settled, carriage, &asked, asking.leaving)?;
    Ok(Opened { before, missing })
}

/// How lines are judged in a network.
#[derive(Clone, Copy)]
pub(crate) struct Asking<'a, 'b> {
    /// What carries the VIDs of the network before, if there is one, and which bridges are meant to leave which VIDs.
    pub(crate) prior: Option<&'a Carriage<'a>>,
    pub(crate) leaving: &'a Leaving<'b>,
    /// Promises of the last of several networks are judged.
    pub(crate) is_last: bool,
    /// After what promises can be judged.
    pub(crate) events: &'a [Event<'a>],
}

/// Why lines of a policy aren't kept in a network, by its plan and its events.
pub(crate) fn judge_lines(
    alloc: Global,
    network: &Network,
    plan: &Plan,
    lines: &[PolicyLine],
    asking: &Asking,
) -> Result<Judgement, AllocError>
    requires of { IsPlan network.now.net network.now.numbers plan.now }
    requires events { asking.now.events.now ≡ events_of network.now.net lines.now }
    ensures { IfOk result (λ judgement. (prior : PriorOf) → IsPrior (option_map (λ c. c.now) asking.now.prior) asking.now.leaving.now prior
        → AreLinesJudged network.now.net (plan_outcome network.now.net network.now.numbers plan.now) prior asking.now.is_last lines.now judgement) }
{
    let carriage = Carriage::new(alloc, &plan.view, &plan.forest)?;
    let opened = opening(alloc, network, plan, &carriage, lines, asking)?;
    let judging = Judging {
        plan,
        carriage: &carriage,
        before: &opened.before,
        prior: asking.prior,
        leaving: asking.leaving,
        lines,
        missing: opened.missing.as_slice(),
        is_last: asking.is_last,
    };
    let found = find_all(alloc, network, &judging, asking.events)?;
    Ok(Judgement {
        missing: opened.missing,
        found,
    })
}

/// Judges the lines of a policy in one of several networks, by its plan, by what carries VIDs in the network before, if there is one, and by
/// which bridges are meant to leave which VIDs: of each line what it lacks there, or why it isn't kept in the network itself, and in that of each
/// failure and each risk for which it asks. `AllocError`: memory was wanted and refused.
pub fn judge(
    alloc: Global,
    network: &Network,
    plan: &Plan,
    lines: &[PolicyLine],
    is_last: bool,
    prior: Option<&Carriage>,
    leaving: &Leaving,
) -> Result<Judgement, AllocError>
    requires { IsPlan network.now.net network.now.numbers plan.now }
    ensures { IfOk result (λ judgement. (before : PriorOf) → IsPrior (option_map (λ c. c.now) prior.entry) leaving.now before → Judges network.now.net before is_last lines.now (told_in lines.now judgement)) }
{
    line_where_unkept();
    if lines.is_empty() {
        return Ok(Judgement::none(alloc));
    }
    let hazards = Hazards::new(alloc, &plan.view, lines)?;
    let events = hazards.events(alloc)?;
    let asking = Asking {
        prior,
        leaving,
        is_last,
        events: events.as_slice(),
    };
    judge_lines(alloc, network, plan, lines, &asking)
}
