//! What a given plan takes in time.

ghost use Rattle.std.specs.Prelude.{ℕ, List, ◌≤◌, ◌≢◌, IfOk, length};
ghost use Rattle.given_verdicts.specs.Answers.{IsFlawless, judged_text};
ghost use Rattle.given_verdicts.specs.declared.answer.Judged.TheVariants.{Flawless};
ghost use Rattle.plan_costs.specs.Path.{IsCosted};
ghost use Rattle.plan_costs.specs.Times.{IsTimed};
ghost use Rattle.plan_words.specs.Costs.{IsCostOf, cost_text, costs_of};
ghost use Rattle.run_text.specs.Ending.{IsTold, Written, done};
ghost use Rattle.plan_top.specs.Explained.{TellsOf};
ghost use Rattle.given_top.specs.Costed.{CostAnswered, Costs};
ghost use Rattle.given_top.specs.Explained.{BesideCost, BesideForm, BesideTimes};
ghost use Rattle.given_top.specs.declared.words.Form.TheVariants.{Cost};

use crate::checking::words_note;
use crate::runs::GivenRun;
use coll_lang::Refusal;
use given_verdicts::{FlawlessText, Judged, LONGEST_GIVEN, judge_text};
use plan_core::Plan;
use plan_costs::{
    CostFault, CriticalPath, LogGp, Times, critical_path, rank_times, sound_plans_are_timed,
    times_of,
};
use plan_top::{Status, write_noted};
use plan_words::{PlanCosts, write_costs};
use port_io::{Sink, Source};
use ptl_types::NoMemory;
use run_text::{Pieces, ReadError, read_text, refuse};
use std::alloc::Global;
use text_notes::notes::Printable;
use verdict_laws::flawless_plans_can_run;

/// What holds of a plan in which no flaw was found.
fn recall_timed(found: &FlawlessText)
    requires { IsFlawless found.now }
    ensures timed { IsTimed found.now.given.plan }
    ensures some { 1 ≤ length found.now.given.plan.cells }
{
    let _ = found;
    flawless_plans_can_run();
    sound_plans_are_timed();
}

/// When each rank of a plan is done, and the critical path, where these are its times.
fn found_costs(
    alloc: Global,
    numbers: &LogGp,
    plan: &Plan,
    times: &Times,
) -> Result<(Vec<u64>, CriticalPath), NoMemory>
    requires costed { IsCosted numbers.now plan.now times.now }
    requires some { 1 ≤ length plan.now.cells }
    ensures { IfOk result (λ found. IsCostOf numbers.now plan.now
        (costs_of times.now found.0.items found.1)) }
{
    let ranks = rank_times(alloc, plan, times)?;
    let path = critical_path(alloc, plan, numbers, times)?;
    Ok((ranks, path))
}

/// Writes what a plan takes.
fn write_found<K: Sink>(alloc: Global, costs: &PlanCosts, sink: &mut K) -> Status
    requires { IsCostOf costs.now.numbers.now costs.now.plan.now
        (costs_of costs.now.times.now costs.now.ranks.now costs.now.path.now) }
    ensures { Written (done (cost_text costs.now.numbers.now costs.now.plan.now
        (costs_of costs.now.times.now costs.now.ranks.now costs.now.path.now)))
        (K.outflow sink.old) (K.outflow sink.new) result }
{
    let Ok(mut out) = Pieces::open(alloc) else {
        return Status::NoMemory;
    };
    match write_costs(&mut out, sink, costs) {
        Ok(()) => Status::Done,
        Err(_) => Status::WriteFault,
    }
}

/// Writes what a plan takes whose times are these.
fn answer_timed<K: Sink>(
    alloc: Global,
    numbers: &LogGp,
    found: &FlawlessText,
    times: &Times,
    sink: &mut K,
) -> Status
    requires costed { IsCosted numbers.now found.now.given.plan times.now }
    requires some { 1 ≤ length found.now.given.plan.cells }
    ensures costs { Costs numbers.now (Flawless found.now) (K.outflow sink.old) (K.outflow sink.new) result }
    ensures answered { result ≢ Status.Refused }
{
    let plan = found.given.plan();
    match found_costs(alloc, numbers, plan, times) {
        Ok((ranks, path)) => {
            let costs = PlanCosts {
                plan,
                numbers,
                times,
                ranks: ranks.as_slice(),
                path: &path,
            };
            write_found(alloc, &costs, sink)
        }
        Err(_) => Status::NoMemory,
    }
}

/// Finds the times of a plan in which no flaw was found, and writes what it takes. Where that isn't found, what a person is told is kept.
fn answer_flawless<K: Sink>(
    alloc: Global,
    numbers: &LogGp,
    found: &FlawlessText,
    sink: &mut K,
    told: &mut Printable,
) -> Status
    requires some { 1 ≤ numbers.now.overhead }
    requires flawless { IsFlawless found.now }
    ensures costs { Costs numbers.now (Flawless found.now) (K.outflow sink.old) (K.outflow sink.new) result }
    ensures told { TellsOf (BesideTimes found.now) result told.new }
{
    recall_timed(found);
    match times_of(alloc, found.given.plan(), numbers) {
        Ok(times) => answer_timed(alloc, numbers, found, &times, sink),
        Err(CostFault::TooLong) => {
            *told = words_note(b"all messages, one after the other, take 2^64 picoseconds or more");
            refuse(alloc, sink, found.line, Refusal::TooLong)
        }
        Err(CostFault::NoMemory) => Status::NoMemory,
    }
}

/// Judges the plan of a text, and writes what it takes if it is sound. What a person is told where that isn't written is kept.
fn answer_cost<K: Sink>(
    alloc: Global,
    numbers: &LogGp,
    text: &[u8],
    sink: &mut K,
    told: &mut Printable,
) -> Status
    requires { 1 ≤ numbers.now.overhead }
    ensures costs { Costs numbers.now (judged_text text.now) (K.outflow sink.old) (K.outflow sink.new) result }
    ensures told { TellsOf (BesideCost text.now (judged_text text.now)) result told.new }
{
    match judge_text(alloc, text) {
        Ok(Judged::Answered(answer)) => write_noted(alloc, text, &answer, sink, told),
        Ok(Judged::Flawless(found)) => answer_flawless(alloc, numbers, &found, sink, told),
        Err(_) => Status::NoMemory,
    }
}

/// Reads a description with a plan after it, and answers what the plan takes in time by these numbers.
pub(crate) fn read_and_cost<S: Source, K: Sink>(
    alloc: Global,
    numbers: &LogGp,
    source: &mut S,
    sink: &mut K,
    told: &mut Printable,
) -> GivenRun
    requires { 1 ≤ numbers.now.overhead }
    ensures { (bytes : List ℕ) × IsTold (S.inflow source.old).left bytes
        × CostAnswered numbers.now bytes (S.inflow source.old) (S.inflow source.new) (K.outflow sink.old) (K.outflow sink.new) result
        × TellsOf (BesideForm (Cost numbers.now) bytes (K.outflow sink.old) (K.outflow sink.new)) result.status told.new }
{
    match read_text(alloc, LONGEST_GIVEN, source) {
        Ok(text) => GivenRun::without(answer_cost(alloc, numbers, text.as_slice(), sink, told)),
        Err(ReadError::Failed) => GivenRun::without(Status::ReadFault),
        Err(ReadError::NoMemory) => GivenRun::without(Status::NoMemory),
    }
}
