//! A pass over a plan in the order of time.

ghost use Rattle.std.specs.Prelude.{ℕ, ◌≡◌, ◌<◌, ◌≤◌, ◌^◌, false, true, [], IfOk, MatchResult, length};
ghost use Rattle.plan_core.specs.Plan.{link};
ghost use Rattle.plan_costs.specs.State.{AreLinksFrom, Filled, Further, IsCourse, IsPass, MayTake, Opened, Settled, after_count};
ghost use Rattle.plan_costs.specs.State.{awaited_of, links_from, opening, stage_of};
ghost use Rattle.plan_costs.specs.Times.{AreTimes, IsTimed, in_turn, stays};

use crate::events::{Event, Queue};
use crate::numbers::{LogGp, from_rank, spans_of, stays, to_rank};
use crate::state::{Stage, State};
use crate::times::Times;
use plan_core::Plan;
use plan_core::reading::{cell_count, link_at, link_count};
use plan_tables::ByRank;
use ptl_types::NoMemory;
use std::alloc::Global;

/// The links that each cell fires, rising, in one pass.
fn links_from(alloc: Global, plan: &Plan) -> Result<ByRank, NoMemory>
    requires { IsTimed plan.now }
    ensures { IfOk result (AreLinksFrom plan.now) }
{
    let mut table = ByRank::open(alloc, cell_count(plan))?;
    for l in 0..link_count(plan) {
        table.add(link_at(plan, l).source, l)?;
    }
    Ok(table)
}

/// What is to come of a link whose source is reached at this time.
fn opening(plan: &Plan, l: u32, time: u64) -> Event
    requires timed { IsTimed plan.now }
    requires link { l < length plan.now.links }
    ensures { result ≡ opening plan.now time l }
{
    Event {
        time,
        between: !stays(plan, l),
        link: l,
    }
}

/// What is to come of the links of a cell that is reached at this time.
fn release(
    queue: &mut Queue,
    plan: &Plan,
    table: &ByRank,
    c: u32,
    time: u64,
) -> Result<(), NoMemory>
    requires timed { IsTimed plan.now }
    requires table { AreLinksFrom plan.now table.now }
    requires cell { c < length plan.now.cells }
    ensures { IfOk result (λ u. Opened plan.now (links_from plan.now c) time queue.old queue.new) }
{
    let links = table.at(c);
    for l in links {
        queue.push(opening(plan, *l, time))?;
    }
    Ok(())
}

/// Opens the links of a cell, if it is reached.
fn open_links(
    queue: &mut Queue,
    plan: &Plan,
    table: &ByRank,
    state: &State,
    c: u32,
) -> Result<(), NoMemory>
    requires timed { IsTimed plan.now }
    requires table { AreLinksFrom plan.now table.now }
    requires cell { c < length plan.now.cells }
    requires times { length state.now.times.cells ≡ length plan.now.cells }
    requires awaited { length state.now.awaited ≡ length plan.now.cells }
    ensures { IfOk result (λ u. Settled plan.now state.now c queue.old queue.new) }
{
    if state.is_reached(c) {
        return release(queue, plan, table, c, state.cell(c));
    }
    Ok(())
}

/// All that is to come at first.
fn fill(alloc: Global, plan: &Plan, table: &ByRank, state: &State) -> Result<Queue, NoMemory>
    requires timed { IsTimed plan.now }
    requires table { AreLinksFrom plan.now table.now }
    requires times { length state.now.times.cells ≡ length plan.now.cells }
    requires awaited { length state.now.awaited ≡ length plan.now.cells }
    ensures { IfOk result (Filled plan.now state.now (length plan.now.cells)) }
{
    let mut queue = Queue::new(alloc);
    for c in 0..cell_count(plan) {
        open_links(&mut queue, plan, table, state, c)?;
    }
    Ok(queue)
}

/// A plan with its numbers, and the links that each of its cells fires.
#[derive(Debug, Drop)]
struct Course<'a> {
    plan: &'a Plan,
    numbers: LogGp,
    table: ByRank,
}

/// Counts a link at its target, and opens the links of that cell if it is reached.
fn settle(
    course: &Course<'_>,
    state: &mut State,
    queue: &mut Queue,
    c: u32,
    at: u64,
) -> Result<(), NoMemory>
    requires course { IsCourse course.now.numbers course.now.plan.now course.now.table }
    requires cell { c < length course.now.plan.now.cells }
    requires times { length state.old.times.cells ≡ length course.now.plan.now.cells }
    requires awaited { length state.old.awaited ≡ length course.now.plan.now.cells }
    requires some { 1 ≤ awaited_of state.old c }
    ensures state { state.new ≡ after_count state.old c at }
    ensures queue { IfOk result (λ u. Settled course.now.plan.now state.new c queue.old queue.new) }
{
    state.count(c, at);
    open_links(queue, course.plan, &course.table, state, c)
}

/// A link that stays on its rank is counted as soon as its source is reached.
fn take_home(
    course: &Course<'_>,
    state: &mut State,
    queue: &mut Queue,
    event: Event,
) -> Result<(), NoMemory>
    requires course { IsCourse course.now.numbers course.now.plan.now course.now.table }
    requires may { MayTake course.now.numbers course.now.plan.now state.old event queue.old }
    requires home { stays course.now.plan.now event.link ≡ true }
    ensures { IfOk result (λ u. Further course.now.numbers course.now.plan.now state.old state.new queue.new) }
{
    let target = link_at(course.plan, event.link).target;
    state.stay(event.link, event.time);
    settle(course, state, queue, target, event.time)
}

/// A message goes to its sending port; its receipt comes later.
fn take_sending(
    course: &Course<'_>,
    state: &mut State,
    queue: &mut Queue,
    event: Event,
) -> Result<(), NoMemory>
    requires course { IsCourse course.now.numbers course.now.plan.now course.now.table }
    requires may { MayTake course.now.numbers course.now.plan.now state.old event queue.old }
    requires away { stays course.now.plan.now event.link ≡ false }
    requires waiting { stage_of state.old event.link ≡ Stage.Waiting }
    ensures { IfOk result (λ u. Further course.now.numbers course.now.plan.now state.old state.new queue.new) }
{
    let spans = spans_of(&course.numbers, course.plan, event.link);
    let rank = from_rank(course.plan, event.link);
    let at = state.send(event.link, rank, event.time, spans.sending);
    queue.push(Event {
        time: at + spans.travel,
        between: true,
        link: event.link,
    })
}

/// A message that has arrived goes to its receiving port, and is counted.
fn take_receipt(
    course: &Course<'_>,
    state: &mut State,
    queue: &mut Queue,
    event: Event,
) -> Result<(), NoMemory>
    requires course { IsCourse course.now.numbers course.now.plan.now course.now.table }
    requires may { MayTake course.now.numbers course.now.plan.now state.old event queue.old }
    requires away { stays course.now.plan.now event.link ≡ false }
    requires sent { stage_of state.old event.link ≡ Stage.Sent }
    ensures { IfOk result (λ u. Further course.now.numbers course.now.plan.now state.old state.new queue.new) }
{
    let spans = spans_of(&course.numbers, course.plan, event.link);
    let rank = to_rank(course.plan, event.link);
    let target = link_at(course.plan, event.link).target;
    let at = state.receive(event.link, rank, event.time, spans.receiving);
    settle(course, state, queue, target, at + spans.handling)
}

/// One event.
fn take(
    course: &Course<'_>,
    state: &mut State,
    queue: &mut Queue,
    event: Event,
) -> Result<(), NoMemory>
    requires course { IsCourse course.now.numbers course.now.plan.now course.now.table }
    requires may { MayTake course.now.numbers course.now.plan.now state.old event queue.old }
    ensures { IfOk result (λ u. Further course.now.numbers course.now.plan.now state.old state.new queue.new) }
{
    if stays(course.plan, event.link) {
        return take_home(course, state, queue, event);
    }
    match state.stage(event.link) {
        Stage::Waiting => take_sending(course, state, queue, event),
        Stage::Sent => take_receipt(course, state, queue, event),
        // Nothing is due of a link that is counted.
        Stage::Counted => Ok(()),
    }
}

/// All events, one after the other.
fn run(course: &Course<'_>, state: &mut State, queue: &mut Queue) -> Result<(), NoMemory>
    requires course { IsCourse course.now.numbers course.now.plan.now course.now.table }
    requires pass { IsPass course.now.numbers course.now.plan.now state.old queue.old }
    ensures { IfOk result (λ u. IsPass course.now.numbers course.now.plan.now state.new []) }
{
    while let Some(event) = queue.pop() {
        take(course, state, queue, event)?;
    }
    Ok(())
}

/// The times of a plan that takes less than 2^64 picoseconds, in one pass.
///
/// # Errors
///
/// There was no memory for it.
pub(crate) fn pass(alloc: Global, plan: &Plan, numbers: &LogGp) -> Result<Times, NoMemory>
    requires timed { IsTimed plan.now }
    requires some { 1 ≤ numbers.now.overhead }
    requires small { in_turn numbers.now plan.now < 2 ^ 64 }
    ensures { IfOk result (AreTimes numbers.now plan.now) }
{
    let course = Course {
        plan,
        numbers: *numbers,
        table: links_from(alloc, plan)?,
    };
    let mut state = State::open(alloc, plan)?;
    let mut queue = fill(alloc, plan, &course.table, &state)?;
    run(&course, &mut state, &mut queue)?;
    Ok(state.into_times())
}
