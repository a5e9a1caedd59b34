ghost use Rattle.std.specs.Prelude.{◌≡◌, ◌++◌, ◌∷◌, [], OnOk, map};
ghost use Rattle.std.specs.Option.{option_copied};
ghost use Rattle.mst_kinds.specs.declared.kind.Kind.TheVariants as kind;
ghost use Rattle.mst_rows.specs.Rows.{cell, row_of};
ghost use Rattle.mst_advise.specs.Contests.{lost_by as lost_by_port, contest as contest_of_two, contest_by as contest_of_line, contest_in as contest_of_row, contests_in, cost_in as cost_of, excess_in as excess_of, port_in as port_of};

use mst_ids::PortName;
use mst_kinds::{ContestLine, Kind};
use mst_rows::{Rows, Value};
use std::alloc::AllocError;

/// A port that gives its bridge the root priority vector, and another one that doesn't.
#[derive(Clone, Copy)]
pub(crate) struct RootContest {
    pub(crate) winner: PortName,
    pub(crate) loser: PortName,
    /// By how much the cost that decides is greater for the loser, 0 where no cost does.
    pub(crate) excess: u64,
}

/// The contests that the rows tell that are put into it.
#[derive(Drop)]
pub(crate) struct Contests {
    pub(crate) found: Vec<RootContest>,
}

impl Rows for Contests {
    ghost use Rattle.std.specs.Prelude.{◌≡◌, ◌++◌};
    ghost use Rattle.mst_advise.specs.Contests.{contests_in};

    ghost grew = { λ first now rows. now.found.items ≡ first.found.items ++ contests_in rows };

    fn row(&mut self, kind: Kind, values: &[Value<'_>]) -> Result<(), AllocError> {
        match kind {
            Kind::Contest(line) => add_contest(line, values, &mut self.found),
            _ => Ok(()),
        }
    }
}

/// The port that a value is.
fn port_in(value: &Value<'_>) -> Option<PortName>
    ensures { result ≡ port_of (cell value.now) }
{
    match value {
        Value::Port(port) => Some(**port),
        Value::Giver(giver) => **giver,
        _ => None,
    }
}

/// The cost that a value is, or 0.
fn cost_in(value: &Value<'_>) -> u64
    ensures { result ≡ cost_of (cell value.now) }
{
    match value {
        Value::Number(cost) => *cost,
        _ => 0,
    }
}

/// By how much the loser's cost is greater, behind the name of the component.
fn excess_in(values: &[Value<'_>]) -> u64
    ensures { result ≡ excess_of (map cell values.now) }
{
    match values {
        [_, winner, loser] => cost_in(loser).saturating_sub(cost_in(winner)),
        _ => 0,
    }
}

/// What two values say of who won over whom.
fn contest(winner: &Value<'_>, loser: &Value<'_>, excess: u64) -> Option<RootContest>
    ensures { result ≡ contest_of_two (cell winner.now) (cell loser.now) excess }
{
    let winner = port_in(winner)?;
    let loser = port_in(loser)?;
    Some(RootContest {
        winner,
        loser,
        excess,
    })
}

/// What a line says of it.
fn contest_by(
    line: ContestLine,
    winner: &Value<'_>,
    loser: &Value<'_>,
    behind: &[Value<'_>],
) -> Option<RootContest>
    ensures { result ≡ contest_of_line line (cell winner.now) (cell loser.now) (map cell behind.now) }
{
    match line {
        ContestLine::RootOver => contest(winner, loser, 0),
        ContestLine::RootById => contest(winner, loser, 0),
        ContestLine::RootByCost => contest(winner, loser, excess_in(behind)),
        _ => None,
    }
}

/// What the values of a line say of it.
fn contest_in(line: ContestLine, values: &[Value<'_>]) -> Option<RootContest>
    ensures { result ≡ contest_of_row line (map cell values.now) }
{
    match values {
        [_, _, winner, loser, behind @ ..] => contest_by(line, winner, loser, behind),
        _ => None,
    }
}

/// Adds the contest that a line tells, if it tells one.
fn add_contest(
    line: ContestLine,
    values: &[Value<'_>],
    found: &mut Vec<RootContest>,
) -> Result<(), AllocError>
    ensures { OnOk result (found.new.items ≡ found.old.items ++ contests_in (row_of (kind.Contest line) (map cell values.now) ∷ [])) }
{
    match contest_in(line, values) {
        None => Ok(()),
        Some(contest) => Ok(found.push(contest)?),
    }
}

/// The first contest that a port loses.
fn first_lost<'a>(port: &PortName, contests: &'a [RootContest]) -> Option<&'a RootContest>
    ensures { option_copied result ≡ lost_by_port port.now contests.now }
{
    contests.iter().find(|contest| contest.loser == *port)
}

/// The contest that a port loses.
pub(crate) fn lost_by(port: &PortName, contests: &[RootContest]) -> Option<RootContest>
    ensures { result ≡ lost_by_port port.now contests.now }
{
    first_lost(port, contests).copied()
}
