ghost use Rattle.std.specs.Prelude.{◌≡◌, ◌∷◌, ◌++◌, [], false, List, IfOk, OnOk, count_by, length, map};
ghost use Rattle.mst_rows.specs.Rows.{Row, said};
ghost use Rattle.mst_reasons.specs.Judged.{asks_at, places};
ghost use Rattle.mst_telling.specs.Judged.{count_by_read, network_counts};
ghost use Rattle.mst_telling.specs.Verified.{does_hold, holds_of, judged_count, last_row, promise_of, promises_of, scope_told};

use crate::judgement::Judgement;
use crate::once::is_asked;
use mst_kinds::{Kind, VerifyLine};
use mst_policy::{PolicyLine, Promise, Scope};
use mst_reasons::{Event, asks};
use mst_rows::{PromiseScope, PromiseTold, Rows, Value, put};
use std::alloc::{AllocError, Global};

/// In how many networks a promise is judged: in the network itself, and in those of these events.
fn count_asked(promise: &Promise, events: &[Event]) -> u64
    ensures { result ≡ count_by (asks_at false promise.now) (places events.now) }
{
    let failed = events.iter().filter(|event| asks(promise, event)).count() as u64;
    failed + is_asked(false, promise, &None) as u64
}

/// In how many networks a line is judged.
fn count_networks(line: &PolicyLine, is_whole: bool, events: &[Event]) -> u64
    ensures { result ≡ count_by_read line.now.read is_whole events.now }
{
    match line.promise() {
        Some(promise) if is_whole => count_asked(promise, events),
        _ => 0,
    }
}

/// In how many networks each line is judged.
pub fn networks(
    alloc: Global,
    lines: &[PolicyLine],
    events: &[Event],
    judgement: &Judgement,
) -> Result<Vec<u64>, AllocError>
    ensures { IfOk result (λ counts. counts.items ≡ network_counts lines.now events.now judgement.now) }
{
    let mut counts = Vec::new(alloc);
    for n in 0..lines.len() {
        let is_whole = judgement.lacks(n).is_none();
        counts.push(count_networks(&lines[n], is_whole, events))?;
    }
    Ok(counts)
}

/// After which failures a promise is judged.
fn scope_of(scope: &Scope) -> PromiseScope
    ensures { result ≡ scope_told scope.now }
{
    match scope {
        Scope::Now => PromiseScope::Now,
        Scope::AfterLan(_) => PromiseScope::AfterLan,
        Scope::AfterBridge(_) => PromiseScope::AfterBridge,
        Scope::AfterRisk(_) => PromiseScope::AfterRisk,
        Scope::Always => PromiseScope::Always,
    }
}

/// Of a promise that is judged in some networks whether it holds.
fn holds(networks: u64, is_unkept: bool) -> Option<bool>
    ensures { result ≡ holds_of networks is_unkept }
{
    if networks == 0 {
        None
    } else {
        Some(!is_unkept)
    }
}

/// Adds what is told of the promise of a line to these, if it is one.
fn add_promise<'a>(
    line: &'a PolicyLine,
    networks: u64,
    is_unkept: bool,
    promises: &mut Vec<PromiseTold<'a>>,
) -> Result<(), AllocError>
    ensures { OnOk result (map said promises.new.items ≡ map said promises.old.items ++ promise_of line.now networks is_unkept) }
{
    match line.promise() {
        None => Ok(()),
        Some(promise) => promises.extend_from_slice(&[PromiseTold {
            line: line.number,
            promise: line.words.as_bytes(),
            scope: scope_of(&promise.scope),
            is_final: promise.is_final,
            networks,
            holds: holds(networks, is_unkept),
        }]),
    }
}

/// What is told of the promise of each line that is one.
pub(crate) fn promises<'a>(
    alloc: Global,
    lines: &'a [PolicyLine],
    networks: &[u64],
    flags: &[bool],
) -> Result<Vec<PromiseTold<'a>>, AllocError>
    requires counted { length networks.now ≡ length lines.now }
    requires flagged { length flags.now ≡ length lines.now }
    ensures { IfOk result (λ promises. map said promises.items ≡ promises_of lines.now networks.now flags.now) }
{
    let mut promises = Vec::new(alloc);
    for n in 0..lines.len() {
        add_promise(&lines[n], networks[n], flags[n], &mut promises)?;
    }
    Ok(promises)
}

/// How many lines are judged in some network.
pub(crate) fn count_judged(networks: &[u64]) -> u64
    ensures { result ≡ judged_count networks.now }
{
    networks.iter().filter(|count| **count != 0).count() as u64
}

/// How many hold.
fn count_holding(promises: &[PromiseTold]) -> u64
    ensures { result ≡ count_by does_hold (map said promises.now) }
{
    promises
        .iter()
        .filter(|promise| promise.holds.unwrap_or(false))
        .count() as u64
}

/// Puts the last row: how many promises are judged, how many of them hold, and each of them.
pub fn put_last<R: Rows>(
    judged: u64,
    promises: &[PromiseTold],
    out: &mut R,
) -> Result<(), AllocError>
    ensures { (first : R) (rows : List Row) → R.grew first out.old rows → OnOk result (R.grew first out.new (rows ++ last_row judged (map said promises.now) ∷ [])) }
{
    let values = [
        Value::Number(judged),
        Value::Number(count_holding(promises)),
        Value::Promises(promises),
    ];
    put::<R>(Kind::Verify(VerifyLine::Counts), &values, out)
}
