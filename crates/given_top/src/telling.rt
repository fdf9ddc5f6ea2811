//! What is told of a plan without running it.

ghost use Rattle.std.specs.Prelude.{◌<◌, ◌≡◌};
ghost use Rattle.run_text.specs.Ending.{Written, done};
ghost use Rattle.plan_words.specs.Graph.{graph_text};
ghost use Rattle.plan_words.specs.Limits.{limits_text};
ghost use Rattle.plan_words.specs.Words.{rank_text};
ghost use Rattle.plan_words.specs.Takes.{all_takes};
ghost use Rattle.given_top.specs.Explained.{BesideTelling, no_rank};
ghost use Rattle.given_top.specs.Ran.{owed_telling};
ghost use Rattle.plan_top.specs.Explained.{TellsOf};
ghost use Rattle.given_top.specs.declared.words.Telling.TheVariants.{Explain, ExplainRank};

use crate::words::Telling;
use coll_lang::Refusal;
use plan_core::Plan;
use plan_tables::sound_plans;
use plan_top::Status;
use plan_words::{
    OpTables, takes_of_ranks, write_explained, write_graph, write_limits, write_rank_explained,
};
use port_io::Sink;
use ptl_types::Rank;
use run_text::{Pieces, refuse};
use schedule_compiler::Schedule;
use std::alloc::Global;
use text_notes::notes::Printable;

/// Writes what each rank takes of an interface.
fn tell_limits<K: Sink>(alloc: Global, schedule: &Schedule, sink: &mut K) -> Status
    ensures { Written (done (limits_text (all_takes schedule.now.plan))) (K.outflow sink.old) (K.outflow sink.new) result }
{
    let _ = schedule.ranks();
    let Ok(mut out) = Pieces::open(alloc) else {
        return Status::NoMemory;
    };
    let Ok(takes) = takes_of_ranks(alloc, schedule) else {
        return Status::NoMemory;
    };
    match write_limits(&mut out, sink, takes.as_slice()) {
        Ok(()) => Status::Done,
        Err(_) => Status::WriteFault,
    }
}

/// Writes what each triggered operation is, in a plan whose text begins with this line.
fn tell_all<K: Sink>(alloc: Global, head: u32, schedule: &Schedule, sink: &mut K) -> Status
    ensures { Written (owed_telling Explain head schedule.now.plan) (K.outflow sink.old) (K.outflow sink.new) result }
{
    sound_plans();
    let plan = schedule.plan();
    let Ok(mut out) = Pieces::open(alloc) else {
        return Status::NoMemory;
    };
    let Ok(tables) = OpTables::of(alloc, plan) else {
        return Status::NoMemory;
    };
    match write_explained(&mut out, sink, plan, head, &tables) {
        Ok(()) => Status::Done,
        Err(_) => Status::WriteFault,
    }
}

/// Writes what each triggered operation of a rank is.
fn tell_rank<K: Sink>(
    alloc: Global,
    head: u32,
    schedule: &Schedule,
    r: Rank,
    sink: &mut K,
) -> Status
    requires { r < schedule.now.plan.ranks }
    ensures { Written (done (rank_text head schedule.now.plan r)) (K.outflow sink.old) (K.outflow sink.new) result }
{
    sound_plans();
    let plan = schedule.plan();
    let Ok(mut out) = Pieces::open(alloc) else {
        return Status::NoMemory;
    };
    let Ok(tables) = OpTables::of(alloc, plan) else {
        return Status::NoMemory;
    };
    match write_rank_explained(&mut out, sink, plan, head, &tables, r) {
        Ok(()) => Status::Done,
        Err(_) => Status::WriteFault,
    }
}

/// What a person is told where a plan doesn't have this rank.
fn no_rank(r: Rank, plan: &Plan) -> Printable
    ensures { result ≡ no_rank r plan.now }
{
    let mut text = Printable::new();
    text.show(b"the plan has no rank ");
    text.show_number(u64::from(r));
    text.show(b"; each is below ");
    text.show_number(u64::from(plan.ranks()));
    text
}

/// Writes what each triggered operation of a rank is, if the plan has the rank.
#[tactic(auto, using(plan_top::proofs::Telling::result_tells, crate::proofs::Beside::rank_tells))]
fn tell_known<K: Sink>(
    alloc: Global,
    head: u32,
    schedule: &Schedule,
    r: Rank,
    sink: &mut K,
    told: &mut Printable,
) -> Status
    ensures written { Written (owed_telling (ExplainRank r) head schedule.now.plan) (K.outflow sink.old) (K.outflow sink.new) result }
    ensures told { TellsOf (BesideTelling (ExplainRank r) schedule.now.plan) result told.new }
{
    if r < schedule.ranks() {
        tell_rank(alloc, head, schedule, r, sink)
    } else {
        *told = no_rank(r, schedule.plan());
        refuse(alloc, sink, 0, Refusal::BadNumber)
    }
}

/// Writes a plan as a graph.
fn tell_graph<K: Sink>(alloc: Global, schedule: &Schedule, sink: &mut K) -> Status
    ensures { Written (done (graph_text schedule.now.plan)) (K.outflow sink.old) (K.outflow sink.new) result }
{
    let plan = schedule.plan();
    let Ok(mut out) = Pieces::open(alloc) else {
        return Status::NoMemory;
    };
    match write_graph(&mut out, sink, plan) {
        Ok(()) => Status::Done,
        Err(_) => Status::WriteFault,
    }
}

/// Writes what is asked for of the plan of a schedule, whose text begins with this line, and keeps what a person is told where it is
/// refused.
#[tactic(auto, using(plan_top::proofs::Telling::result_tells, crate::proofs::Beside::rank_tells))]
pub(crate) fn tell<K: Sink>(
    alloc: Global,
    telling: Telling,
    head: u32,
    schedule: &Schedule,
    sink: &mut K,
    told: &mut Printable,
) -> Status
    ensures written { Written (owed_telling telling head schedule.now.plan) (K.outflow sink.old) (K.outflow sink.new) result }
    ensures told { TellsOf (BesideTelling telling schedule.now.plan) result told.new }
{
    match telling {
        Telling::Limits => tell_limits(alloc, schedule, sink),
        Telling::Explain => tell_all(alloc, head, schedule, sink),
        Telling::ExplainRank { rank } => tell_known(alloc, head, schedule, rank, sink, told),
        Telling::Graph => tell_graph(alloc, schedule, sink),
    }
}
