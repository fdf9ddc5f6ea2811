//! The whole program.

ghost use Rattle.std.specs.Prelude.{List, ℕ, ◌≤◌, None, Some, map, string_bytes};
ghost use Rattle.given_top.specs.Answered.{AnswersAs, AnswersWords};
ghost use Rattle.given_top.specs.Checked.{CheckAnswered};
ghost use Rattle.given_top.specs.Ran.{RunAnswered};
ghost use Rattle.given_top.specs.Explained.{BesideForm};
ghost use Rattle.given_top.specs.Words.{CanDo, CanServe};
ghost use Rattle.given_top.specs.declared.words.Form.TheVariants.{Check, Cost, Judge, Use};
ghost use Rattle.plan_top.specs.Explained.{TellsOf};
ghost use Rattle.run_text.specs.Ending.{IsTold};

use crate::checking::{LONGEST_PLAN_CHECK, answer_check};
use crate::costing::read_and_cost;
use crate::running::use_text;
use crate::runs::GivenRun;
use crate::words::{Form, Purpose, form_of, usage};
use given_verdicts::LONGEST_GIVEN;
use job_runs::Host;
use plan_costs::LogGp;
use plan_top::{PlanRequest, Status, plan_main, say_beside};
use port_io::{Sink, Source};
use rank_threads::Gate;
use run_text::{ReadError, read_text};
use std::alloc::Global;
use std::sync::Wait;
use std::thread::Threads;
use text_notes::notes::Printable;

/// Reads a description with a plan after it, and does what is asked for with the plan if it is sound.
fn read_and_use<R: Threads + Wait + Sync, G: Gate, S: Source, K: Sink>(
    host: &Host<R, G>,
    purpose: Purpose,
    source: &mut S,
    sink: &mut K,
    told: &mut Printable,
) -> GivenRun
    requires { CanDo purpose }
    ensures { (bytes : List ℕ) × IsTold (S.inflow source.old).left bytes
        × RunAnswered purpose bytes (S.inflow source.old) (S.inflow source.new) (K.outflow sink.old) (K.outflow sink.new) result
        × TellsOf (BesideForm (Use purpose) bytes (K.outflow sink.old) (K.outflow sink.new)) result.status told.new }
{
    match read_text(host.alloc, LONGEST_GIVEN, source) {
        Ok(text) => use_text(host, purpose, text.as_slice(), sink, told),
        Err(ReadError::Failed) => GivenRun::without(Status::ReadFault),
        Err(ReadError::NoMemory) => GivenRun::without(Status::NoMemory),
    }
}

/// Reads a description, a plan after it and order lines after that, and answers the verdict on them.
fn read_and_check<S: Source, K: Sink>(
    alloc: Global,
    source: &mut S,
    sink: &mut K,
    told: &mut Printable,
) -> GivenRun
    ensures { (bytes : List ℕ) × IsTold (S.inflow source.old).left bytes
        × CheckAnswered bytes (S.inflow source.old) (S.inflow source.new) (K.outflow sink.old) (K.outflow sink.new) result
        × TellsOf (BesideForm Check bytes (K.outflow sink.old) (K.outflow sink.new)) result.status told.new }
{
    match read_text(alloc, LONGEST_PLAN_CHECK, source) {
        Ok(text) => GivenRun::without(answer_check(alloc, text.as_slice(), sink, told)),
        Err(ReadError::Failed) => GivenRun::without(Status::ReadFault),
        Err(ReadError::NoMemory) => GivenRun::without(Status::NoMemory),
    }
}

/// Does what is asked for with a plan, and says what a person is to know beside it.
fn use_plan<R: Threads + Wait + Sync, G: Gate, S: Source, K: Sink, N: Sink>(
    host: &Host<R, G>,
    purpose: Purpose,
    source: &mut S,
    sink: &mut K,
    notes: &mut N,
) -> GivenRun
    requires { CanDo purpose }
    ensures { AnswersAs (Some (Use purpose)) (S.inflow source.old) (S.inflow source.new) (K.outflow sink.old) (K.outflow sink.new)
        (N.outflow notes.old) (N.outflow notes.new) result }
{
    let mut told = Printable::new();
    let run = read_and_use(host, purpose, source, sink, &mut told);
    say_beside(notes, run.status, told);
    run
}

/// Judges orders of a plan's ranks, and says what a person is to know beside the answer.
fn check_orders<S: Source, K: Sink, N: Sink>(
    alloc: Global,
    source: &mut S,
    sink: &mut K,
    notes: &mut N,
) -> GivenRun
    ensures { AnswersAs (Some Check) (S.inflow source.old) (S.inflow source.new) (K.outflow sink.old) (K.outflow sink.new)
        (N.outflow notes.old) (N.outflow notes.new) result }
{
    let mut told = Printable::new();
    let run = read_and_check(alloc, source, sink, &mut told);
    say_beside(notes, run.status, told);
    run
}

/// Tells what a plan takes in time, and says what a person is to know beside the answer.
fn tell_costs<S: Source, K: Sink, N: Sink>(
    alloc: Global,
    numbers: &LogGp,
    source: &mut S,
    sink: &mut K,
    notes: &mut N,
) -> GivenRun
    requires { 1 ≤ numbers.now.overhead }
    ensures { AnswersAs (Some (Cost numbers.now)) (S.inflow source.old) (S.inflow source.new) (K.outflow sink.old) (K.outflow sink.new)
        (N.outflow notes.old) (N.outflow notes.new) result }
{
    let mut told = Printable::new();
    let run = read_and_cost(alloc, numbers, source, sink, &mut told);
    say_beside(notes, run.status, told);
    run
}

/// Draws or judges a plan.
fn judge<S: Source, K: Sink, N: Sink>(
    alloc: Global,
    request: PlanRequest,
    source: &mut S,
    sink: &mut K,
    notes: &mut N,
) -> GivenRun
    ensures { AnswersAs (Some (Judge request)) (S.inflow source.old) (S.inflow source.new) (K.outflow sink.old) (K.outflow sink.new)
        (N.outflow notes.old) (N.outflow notes.new) result }
{
    GivenRun::without(plan_main(alloc, request, source, sink, notes))
}

/// Writes the usage line, and beside it a line for each form.
fn say_usage<S: Source, K: Sink, N: Sink>(source: &mut S, sink: &mut K, notes: &mut N) -> GivenRun
    ensures { AnswersAs None (S.inflow source.old) (S.inflow source.new) (K.outflow sink.old) (K.outflow sink.new)
        (N.outflow notes.old) (N.outflow notes.new) result }
{
    let _ = source;
    let status = usage(sink);
    say_beside(notes, status, Printable::new());
    GivenRun::without(status)
}

/// The whole program. All forms read a description, and all but `draw` a plan after it.
///
/// `draw`, `verify` and `verify given` are those of `plan_main`. For all others the plan is judged first: where it isn't sound, or its
/// lines don't name what the description asks for, the answer is that of `verify`, and that is all.
///
/// `once`, `sim X`, `run W`, `trace W` and `steady W` run its ranks, each on an interface of its own, with the inputs of the description,
/// as `portals_run` runs its own plans: on one thread in the program's own order or in one that X chooses, or by W workers on threads;
/// and what the named cells then hold is written, whether or not it is what the description means. `check` reads order lines after the
/// plan, and writes the verdict on them. `limits` writes what each rank takes of an interface; `explain` and `explain RANK`, what each
/// triggered operation is, by its number as order lines name it; `explain --dot`, the plan as a graph; `cost L o g G` and `cost L o g G
/// O`, what it takes in time by these numbers of LogGP. All other words get the usage line, and leave the source unread.
///
/// What a person is to know stands in `notes`: beside a result nothing; beside the usage line a line for each form; beside what is refused
/// or fails one line that says where and why; beside a fault or want of memory which it was. What fails there changes nothing. The world
/// that ran is handed back, at rest; where nothing ran there is none.
pub fn given_main<R: Threads + Wait + Sync, S: Source, K: Sink, N: Sink>(
    rt: &R,
    alloc: Global,
    words: &[String],
    source: &mut S,
    sink: &mut K,
    notes: &mut N,
) -> GivenRun
    ensures { AnswersWords (map string_bytes words.now) (S.inflow source.old) (S.inflow source.new)
        (K.outflow sink.old) (K.outflow sink.new) (N.outflow notes.old) (N.outflow notes.new) result }
{
    match form_of(words) {
        Some(Form::Judge(request)) => judge(alloc, request, source, sink, notes),
        Some(Form::Use(purpose)) => use_plan(&Host::new(rt, alloc), purpose, source, sink, notes),
        Some(Form::Check) => check_orders(alloc, source, sink, notes),
        Some(Form::Cost(numbers)) => tell_costs(alloc, &numbers, source, sink, notes),
        None => say_usage(source, sink, notes),
    }
}
