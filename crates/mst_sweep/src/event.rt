ghost use Rattle.std.specs.Prelude.{◌≡◌, IfOk, map};
ghost use Rattle.mst_rows.specs.Rows.{cell};
ghost use Rattle.mst_sweep.specs.Cuts.{cause_cell, failing};
ghost use Rattle.mst_sweep.specs.Failures.{alone, edit_of};
ghost use Rattle.mst_sweep.specs.SweepText.{cause_name};
ghost use Rattle.mst_sweep.specs.declared.event.Cause.TheVariants.{Risk};

use crate::failure::Failure;
use mst_ids::Name;
use mst_lang::Edit;
use mst_rows::Value;
use std::alloc::{AllocError, Global};
use std::marker::Model;
use std::slice::from_ref;

/// What an event is told by.
#[derive(Clone, Copy)]
pub enum Cause {
    /// A failure alone.
    One(Failure),
    /// The name of a risk, whose failures come at once.
    Risk(Name),
}

impl Cause {
    /// The name of the LAN, of the bridge or of the risk.
    pub fn name(&self) -> &Name
        ensures { result.now ≡ cause_name self.now }
    {
        match self {
            Cause::One(Failure::Lan(lan)) => lan,
            Cause::One(Failure::Bridge(bridge)) => bridge,
            Cause::Risk(name) => name,
        }
    }
}

/// What fails at once: a failure alone, or those of a risk.
#[derive(Drop)]
pub struct Event<'a> {
    cause: Cause,
    failures: &'a [Failure],
}

impl<'a> Model for Event<'a> {
    ghost use Rattle.mst_sweep.specs.Failures.{Event as EventOf};

    ghost Value = { EventOf };

    ghost view = { λ e. record { cause = e.cause; failures = e.failures.now } };
}

impl<'a> Event<'a> {
    /// One of this failure alone.
    pub fn alone(failure: &'a Failure) -> Event<'a>
        ensures { result ≡ alone failure.now }
    {
        Event {
            cause: Cause::One(*failure),
            failures: from_ref(failure),
        }
    }

    /// One of a risk of this name, whose failures these are.
    pub fn of_risk(name: Name, failures: &'a [Failure]) -> Event<'a>
        ensures { result ≡ record { cause = Risk name; failures = failures.now } }
    {
        Event {
            cause: Cause::Risk(name),
            failures,
        }
    }

    /// The same once more.
    pub fn copied(&self) -> Event<'a>
        ensures { result ≡ self.now }
    {
        Event {
            cause: self.cause,
            failures: self.failures,
        }
    }

    /// What it is told by.
    pub fn cause(&self) -> &Cause
        ensures { result.now ≡ self.now.cause }
    {
        &self.cause
    }

    /// What fails.
    pub fn failures(&self) -> &'a [Failure]
        ensures { result.now ≡ self.now.failures }
    {
        self.failures
    }
}

/// A failure, as a value.
pub(crate) fn failure_value(failure: &Failure) -> Value<'_>
    ensures { cell result ≡ failing failure.now }
{
    match failure {
        Failure::Lan(lan) => Value::FailedLan(lan),
        Failure::Bridge(bridge) => Value::FailedBridge(bridge),
    }
}

/// What an event is told by, as a value.
pub fn cause_value(cause: &Cause) -> Value<'_>
    ensures { cell result ≡ cause_cell cause.now }
{
    match cause {
        Cause::One(failure) => failure_value(failure),
        Cause::Risk(name) => Value::FailedRisk(name),
    }
}

/// The edits that make a network with these failures, one after another. `AllocError`: memory was wanted and refused.
pub fn edits_of(alloc: Global, failures: &[Failure]) -> Result<Vec<Edit>, AllocError>
    ensures { IfOk result (λ edits. edits.items ≡ map edit_of failures.now) }
{
    failures.iter().map(|failure| failure.edit()).collect(alloc)
}

/// Each of these failures alone. `AllocError`: memory was wanted and refused.
pub fn events_of(alloc: Global, failures: &[Failure]) -> Result<Vec<Event<'_>>, AllocError>
    ensures { IfOk result (λ events. events.items ≡ map alone failures.now) }
{
    let mut events = Vec::new(alloc);
    for failure in failures {
        events.push(Event::alone(failure))?;
    }
    Ok(events)
}
