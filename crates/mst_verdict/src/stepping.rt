ghost use Rattle.std.specs.Prelude.{◌≡◌, ◌+◌, ◌-◌, ◌<◌, ◌≤◌, ◌^◌, ◌++◌, ◌∷◌, [], List, IfOk, OnOk, length, unwrap_or};
ghost use Rattle.std.specs.Option.{option_map};
ghost use Rattle.mst_change.specs.Steps.{all_lines};
ghost use Rattle.mst_sweeping.specs.plan.Plan.{IsPlan};
ghost use Rattle.mst_policy.specs.declared.policy.PolicyLine.{PolicyLine as LineOf};
ghost use Rattle.mst_verdict.specs.Setting.{after_lines, after_steps};
ghost use Rattle.mst_verdict.specs.Stepping.{AreRowsIn, AreWatched, IsFew, Steps, Watch, course_of, course_row, front_rows_if, lines_of, numbers_of};
ghost use Rattle.mst_verdict.specs.Taking.{IsWatching, TakesStep, TakesSteps, course_for, course_with};
ghost use Rattle.mst_sweeping.specs.Sweeping.{Puts};
ghost use Rattle.mst_rows.specs.Rows.{Row};
ghost use Rattle.mst_telling.specs.Judged.{told_in};

use crate::judging::judge;
use crate::setting::make_lines;
use mst_change::{ChangeStep, StepLine};
use mst_net::Network;
use mst_policy::{Leaving, Policy, PolicyLine};
use mst_rows::Rows;
use mst_sweeping::{
    Carriage, Deed, Plan, Plugs, PolicyCounts, Step, Stepped, Walked, plan_beside, put_between,
    put_last,
};
use mst_telling::{Judgement, breaks, put_front, put_judged, put_start, unkept_count};
use std::alloc::{AllocError, Global};

/// What is counted of the steps of a change.
#[derive(Clone, Copy, Debug, PartialEq, Eq)]
pub struct Course {
    /// How many lines of the policy can't be read: one, where it has none at all.
    pub unread: u64,
    /// How many lines of the change are refused.
    pub refused: u64,
    /// How many steps it has.
    pub steps: u64,
    /// How many of these move some VID.
    pub moving: u64,
    /// How many cut some.
    pub cutting: u64,
    /// How many break the policy: some line isn't kept after it that was kept before.
    pub failing: u64,
    /// How many lines of the policy the last network doesn't keep.
    pub unkept: u64,
}

/// What is counted of one step.
#[derive(Clone, Copy)]
pub(crate) struct Taken {
    pub(crate) refused: u64,
    pub(crate) does: Stepped,
    pub(crate) breaks: bool,
}

/// By what the networks of a change are judged: what carries VIDs in the first, the number of the last, the lines of the policy, and which
/// bridges these mean to leave which VIDs.
#[derive(Clone, Copy)]
pub(crate) struct Watching<'a, 'b> {
    pub(crate) first: &'a Carriage<'a>,
    pub(crate) last: u64,
    pub(crate) lines: &'a [PolicyLine],
    pub(crate) leaving: &'a Leaving<'b>,
}

/// How things stand behind a step: the plan of the network, what the policy tells of it, and what is counted of the step.
#[derive(Drop)]
struct Behind {
    plan: Plan,
    judgement: Judgement,
    taken: Taken,
}

/// And behind steps: the plan of the network, none where there is no step.
#[derive(Drop)]
struct BehindAll {
    plan: Option<Plan>,
    judgement: Judgement,
    course: Course,
}

impl Course {
    /// Of no steps.
    fn new() -> Course
        ensures { (lines : List LineOf) → result ≡ course_of lines 0 [] [] }
    {
        Course {
            unread: 0,
            refused: 0,
            steps: 0,
            moving: 0,
            cutting: 0,
            failing: 0,
            unkept: 0,
        }
    }

    /// And of one step more.
    fn with(&self, taken: &Taken) -> Course
        requires refused { self.now.refused + taken.now.refused < 2 ^ 64 }
        requires steps { self.now.steps + 1 < 2 ^ 64 }
        requires moving { self.now.moving ≤ self.now.steps }
        requires cutting { self.now.cutting ≤ self.now.steps }
        requires failing { self.now.failing ≤ self.now.steps }
        ensures { result ≡ course_with self.now taken.now }
    {
        Course {
            unread: self.unread,
            refused: self.refused + taken.refused,
            steps: self.steps + 1,
            moving: self.moving + taken.does.moves as u64,
            cutting: self.cutting + taken.does.cuts as u64,
            failing: self.failing + taken.breaks as u64,
            unkept: self.unkept,
        }
    }

    /// And of the lines of the policy.
    fn of_policy(&self, unread: u64, unkept: u64) -> Course
        ensures { result ≡ course_for self.now unread unkept }
    {
        Course {
            unread,
            refused: self.refused,
            steps: self.steps,
            moving: self.moving,
            cutting: self.cutting,
            failing: self.failing,
            unkept,
        }
    }
}

/// A step, by the numbers of its first line and of its last one.
fn step_of_lines(number: u64, lines: &[StepLine]) -> Step
    ensures { result ≡ numbers_of number lines.now }
{
    Step {
        number,
        first: lines.first().map_or(0, |line| line.number()),
        last: lines.last().map_or(0, |line| line.number()),
    }
}

/// What a policy's lines have to tell of a network, by the network's number and its plan.
fn judge_at(
    alloc: Global,
    network: &Network,
    plan: &Plan,
    number: u64,
    watching: &Watching,
) -> Result<Judgement, AllocError>
    requires { IsPlan network.now.net network.now.numbers plan.now }
    ensures { IfOk result (λ judgement. (w : Watch) → IsWatching watching.now w → AreRowsIn w number network.now.net (told_in w.lines judgement)) }
{
    let is_last = number == watching.last;
    if number == 0 {
        judge(
            alloc,
            network,
            plan,
            watching.lines,
            is_last,
            None,
            watching.leaving,
        )
    } else {
        let prior = Some(watching.first);
        judge(
            alloc,
            network,
            plan,
            watching.lines,
            is_last,
            prior,
            watching.leaving,
        )
    }
}

/// Makes the lines of a step together, and puts which of them are refused, what the step does, and what the policy tells of the network
/// after it that it didn't tell of the one before. The plan and the judgement are those of the network before.
fn take_step<R: Rows>(
    alloc: Global,
    network: &mut Network,
    plan: &Plan,
    number: u64,
    lines: &[StepLine],
    watching: &Watching,
    before: &Judgement,
    out: &mut R,
) -> Result<Behind, AllocError>
    requires { IsPlan network.old.net network.old.numbers plan.now }
    ensures told { IfOk result (λ behind. (w : Watch) → IsWatching watching.now w → AreRowsIn w (number - 1) network.old.net (told_in w.lines before.now)
        → TakesStep w number network.old.net lines.now (told_in w.lines before.now) (told_in w.lines behind.judgement) behind.taken (Puts R.grew out.old out.new)) }
    ensures few { IfOk result (λ behind. behind.taken.refused ≤ length lines.now) }
    ensures network { OnOk result (network.new.net ≡ after_lines network.old.net lines.now) }
    ensures plan { IfOk result (λ behind. IsPlan network.new.net network.new.numbers behind.plan) }
{
    let plugs = Plugs::new(alloc, network)?;
    let made = make_lines(network, number, lines, out)?;
    let next = plan_beside(alloc, network, plan, made.regions_stand)?;
    let replugged = plugs.replugged(alloc, network)?;
    let deed = Deed::Step(step_of_lines(number, lines));
    let does = put_between(alloc, &deed, plan, &next, &replugged, watching.leaving, out)?;
    let now = judge_at(alloc, network, &next, number, watching)?;
    put_judged(alloc, number, watching.lines, before, &now, out)?;
    let taken = Taken {
        refused: made.refused,
        does,
        breaks: breaks(watching.lines, before, &now),
    };
    Ok(Behind {
        plan: next,
        judgement: now,
        taken,
    })
}

/// The plan that stands: the first one, where there is no other.
fn standing<'a>(first: &'a Plan, now: &'a Option<Plan>) -> &'a Plan
    ensures { result.now ≡ unwrap_or now.now first.now }
{
    match now {
        None => first,
        Some(plan) => plan,
    }
}

/// Takes steps one after another, and puts what is told of each. The plan and the judgement are those of the network before them.
fn take_steps<R: Rows>(
    alloc: Global,
    network: &mut Network,
    first: &Plan,
    steps: &[ChangeStep],
    watching: &Watching,
    start: Judgement,
    out: &mut R,
) -> Result<BehindAll, AllocError>
    requires plan { IsPlan network.old.net network.old.numbers first.now }
    requires few { length (all_lines steps.now) < 2 ^ 64 }
    ensures told { IfOk result (λ behind. (w : Watch) → IsWatching watching.now w → w.first ≡ network.old.net → AreRowsIn w 0 network.old.net (told_in w.lines start)
        → TakesSteps w steps.now (told_in w.lines behind.judgement) behind.course (Puts R.grew out.old out.new)) }
    ensures few { IfOk result (λ behind. IsFew behind.course steps.now) }
    ensures network { OnOk result (network.new.net ≡ after_steps network.old.net steps.now) }
    ensures plan { IfOk result (λ behind. IsPlan network.new.net network.new.numbers (unwrap_or behind.plan first.now)) }
{
    let mut plan = None;
    let mut judgement = start;
    let mut course = Course::new();
    for step in steps {
        let number = course.steps + 1;
        let behind = take_step(
            alloc,
            network,
            standing(first, &plan),
            number,
            step.lines(),
            watching,
            &judgement,
            out,
        )?;
        course = course.with(&behind.taken);
        plan = Some(behind.plan);
        judgement = behind.judgement;
    }
    Ok(BehindAll {
        plan,
        judgement,
        course,
    })
}

/// The lines of a policy, none where there is no policy.
fn lines_in<'a>(policy: Option<&'a Policy>) -> &'a [PolicyLine]
    ensures { result.now ≡ lines_of (option_map (λ p. p.now) policy.entry) }
{
    match policy {
        None => &[],
        Some(policy) => policy.as_slice(),
    }
}

/// Puts which lines of a policy can't be read, if there is one, or that it has none, and answers how many rows that are.
fn put_unread<R: Rows>(policy: Option<&Policy>, out: &mut R) -> Result<u64, AllocError>
    ensures count { IfOk result (λ count. count ≡ length (front_rows_if (option_map (λ p. p.now) policy.entry))) }
    ensures put { (first : R) (rows : List Row) → R.grew first out.old rows → OnOk result (R.grew first out.new (rows ++ front_rows_if (option_map (λ p. p.now) policy.entry))) }
{
    match policy {
        None => Ok(0),
        Some(policy) => put_front(policy.as_slice(), out),
    }
}

/// Puts what the first network doesn't keep of a policy, and then takes the steps. Answers the plan of the network after them, if there
/// are some, and what is counted of them.
fn watch_steps<R: Rows>(
    alloc: Global,
    network: &mut Network,
    first: &Plan,
    steps: &[ChangeStep],
    lines: &[PolicyLine],
    unread: u64,
    out: &mut R,
) -> Result<(Option<Plan>, Course), AllocError>
    requires plan { IsPlan network.old.net network.old.numbers first.now }
    requires few { length (all_lines steps.now) < 2 ^ 64 }
    ensures told { IfOk result (λ behind. (rows : List Row) × AreWatched network.old.net steps.now lines.now unread behind.1 rows × Puts R.grew out.old out.new rows) }
    ensures few { IfOk result (λ behind. IsFew behind.1 steps.now) }
    ensures network { OnOk result (network.new.net ≡ after_steps network.old.net steps.now) }
    ensures plan { IfOk result (λ behind. IsPlan network.new.net network.new.numbers (unwrap_or behind.0 first.now)) }
{
    let carriage = Carriage::new(alloc, &first.view, &first.forest)?;
    let leaving = Leaving::of(alloc, lines)?;
    let watching = Watching {
        first: &carriage,
        last: steps.len() as u64,
        lines,
        leaving: &leaving,
    };
    let start = judge_at(alloc, network, first, 0, &watching)?;
    put_start(alloc, lines, &start, out)?;
    let behind = take_steps(alloc, network, first, steps, &watching, start, out)?;
    let unkept = unkept_count(lines, &behind.judgement);
    Ok((behind.plan, behind.course.of_policy(unread, unkept)))
}

/// Puts the last row, with how many steps break the policy and how many of its lines aren't kept, if there is a policy.
fn put_course<R: Rows>(
    policy: Option<&Policy>,
    course: &Course,
    out: &mut R,
) -> Result<(), AllocError>
    ensures { (first : R) (rows : List Row) → R.grew first out.old rows → OnOk result (R.grew first out.new (rows ++ course_row (option_map (λ p. p.now) policy.entry) course.now ∷ [])) }
{
    let walked = Walked {
        steps: course.steps,
        moving: course.moving,
        cutting: course.cutting,
    };
    let judged = PolicyCounts {
        failing: course.failing,
        unkept: course.unkept,
    };
    put_last(&walked, policy.map(|_| judged), out)
}

/// Takes the steps of a change in a network, and puts what each does, as soon as it is known, and what is counted of them. With a policy it
/// puts first which of its lines can't be read and what the network itself doesn't keep, and behind each step what the policy tells of
/// the network after it that it didn't tell of the one before. The plan is
/// that of the network, and is then the one after the last step. `AllocError`: memory was wanted and refused; some of the rows may have
/// been put, and the network is one between.
pub fn step_network<R: Rows>(
    alloc: Global,
    network: &mut Network,
    plan: &mut Plan,
    steps: &[ChangeStep],
    policy: Option<&Policy>,
    out: &mut R,
) -> Result<Course, AllocError>
    requires plan { IsPlan network.old.net network.old.numbers plan.old }
    requires few { length (all_lines steps.now) < 2 ^ 64 }
    ensures told { IfOk result (λ course. (rows : List Row) × Steps network.old.net steps.now (option_map (λ p. p.now) policy.entry) course rows × Puts R.grew out.old out.new rows) }
    ensures few { IfOk result (λ course. IsFew course steps.now) }
    ensures network { OnOk result (network.new.net ≡ after_steps network.old.net steps.now) }
    ensures plan { OnOk result (IsPlan network.new.net network.new.numbers plan.new) }
{
    let unread = put_unread(policy, out)?;
    let lines = lines_in(policy);
    let (next, course) = watch_steps(alloc, network, plan, steps, lines, unread, out)?;
    match next {
        None => {}
        Some(next) => *plan = next,
    }
    put_course(policy, &course, out)?;
    Ok(course)
}
