//! Running a job, and writing what the world then holds.

ghost use Rattle.std.specs.Prelude.{◌≡◌, ◌<◌, IfOk, None, Some};
ghost use Rattle.portals_top.specs.Answered.{HandsBack, LeavesRun, LeavesWorld};
ghost use Rattle.portals_top.specs.Begun.{Begins, IsLeft, mode_of};
ghost use Rattle.run_text.specs.Ending.{Written, done};
ghost use Rattle.portals_top.specs.Due.{mode_text};
ghost use Rattle.portals_top.specs.Left.{nothing_ran};
ghost use Rattle.job_runs.specs.Runs.{IsInOrder, IsOfSteady, IsOfWorkers, IsReachedWorld};
ghost use Rattle.portals_top.specs.Runs.{IsRun};
ghost use Rattle.job_runs.specs.Modes.{HasWorkers};

use crate::begun::{Begun, Crew};
use crate::ran::Ran;
use crate::words::Command;
use crate::writing::{Results, status_of, write_run};
use job_runs::{Host, Mode, write_ordered};
use port_io::Sink;
use ptl_types::NoMemory;
use rank_threads::{Gate, SpentWires};
use run_text::{Pieces, Status, write_result};
use schedule_compiler::ShapeJob;
use std::alloc::Global;
use std::sync::Wait;
use std::thread::Threads;
use worlds::World;

/// Runs a job on one thread in the program's own order.
fn run_once(alloc: Global, job: &ShapeJob) -> Result<World, NoMemory>
    ensures { IfOk result (λ w. IsRun job.now.shape job.now.inputs w × IsReachedWorld w) }
{
    let world = job_runs::run_once(alloc, job.job())?;
    Ok(world)
}

/// Runs a job on one thread in the order that the words of a generator choose.
fn run_chosen(alloc: Global, job: &ShapeJob, seed: u64) -> Result<World, NoMemory>
    ensures { IfOk result (λ w. IsRun job.now.shape job.now.inputs w × (IsReachedWorld w × IsInOrder seed w)) }
{
    let world = job_runs::run_chosen(alloc, job.job(), seed)?;
    Ok(world)
}

/// Runs a job by workers on threads; what they leave is made at the end.
pub(crate) fn run_by_workers<R: Threads + Wait + Sync, G: Gate>(
    host: &Host<R, G>,
    workers: u32,
    job: &ShapeJob,
) -> Result<(World, SpentWires), NoMemory>
    requires { 0 < workers }
    ensures { IfOk result (λ left. IsRun job.now.shape job.now.inputs left.0 × IsOfWorkers workers left.0) }
{
    let left = job_runs::run_by_workers(host, workers, job.job())?;
    Ok(left)
}

/// Runs a job by workers on threads that leave nothing.
fn run_steadily<R: Threads + Wait + Sync, G: Gate>(
    host: &Host<R, G>,
    workers: u32,
    job: &ShapeJob,
) -> Result<(World, SpentWires), NoMemory>
    requires { 0 < workers }
    ensures { IfOk result (λ left. IsRun job.now.shape job.now.inputs left.0 × IsOfSteady workers left.0) }
{
    let left = job_runs::run_steadily(host, workers, job.job())?;
    Ok(left)
}

/// Runs a job on one thread in the program's own order, writes its results, and hands back the world.
fn once<K: Sink>(alloc: Global, job: &ShapeJob, sink: &mut K, ran: &mut Ran) -> Status
    requires none { ran.old ≡ nothing_ran }
    ensures written { Written (done (mode_text Mode.Once job.now.shape job.now.inputs ran.new.world)) (K.outflow sink.old)
        (K.outflow sink.new) result }
    ensures world { HandsBack result Status.Done (LeavesWorld (Command.Execute Mode.Once) job.now.shape job.now.inputs) ran.new }
{
    let Ok(mut out) = Pieces::open(alloc) else {
        return Status::NoMemory;
    };
    let Ok(world) = run_once(alloc, job) else {
        return Status::NoMemory;
    };
    let results = Results {
        world: &world,
        shape: job.shape(),
    };
    let written = write_result(&mut out, sink, &results);
    ran.world = Some(world);
    status_of(written)
}

/// Runs a job on one thread in the order that a seed chooses, writes its results and that order, and hands back the world.
fn sim<K: Sink>(alloc: Global, job: &ShapeJob, seed: u64, sink: &mut K, ran: &mut Ran) -> Status
    requires none { ran.old ≡ nothing_ran }
    ensures written { Written (done (mode_text (Mode.Sim seed) job.now.shape job.now.inputs ran.new.world)) (K.outflow sink.old)
        (K.outflow sink.new) result }
    ensures world { HandsBack result Status.Done (LeavesWorld (Command.Execute (Mode.Sim seed)) job.now.shape job.now.inputs) ran.new }
{
    let Ok(mut out) = Pieces::open(alloc) else {
        return Status::NoMemory;
    };
    let Ok(world) = run_chosen(alloc, job, seed) else {
        return Status::NoMemory;
    };
    let results = Results {
        world: &world,
        shape: job.shape(),
    };
    let written = write_ordered(&mut out, sink, &results, &world);
    ran.world = Some(world);
    status_of(written)
}

/// Runs a job in a mode that is for one thread, writes what is due, and hands back the world. In each other mode the run is left to
/// workers.
pub(crate) fn run_alone<K: Sink>(
    alloc: Global,
    mode: Mode,
    job: ShapeJob,
    sink: &mut K,
    ran: &mut Ran,
) -> Begun
    requires workers { HasWorkers mode }
    requires none { ran.old ≡ nothing_ran }
    ensures { Begins (λ after. done (mode_text mode job.shape job.inputs after.world))
        (LeavesWorld (Command.Execute mode) job.shape job.inputs)
        (IsLeft (Command.Execute mode) job.shape job.inputs None) (K.outflow sink.old) (K.outflow sink.new) ran.new result }
{
    match mode {
        Mode::Once => Begun::Answered(once(alloc, &job, sink, ran)),
        Mode::Sim { seed } => Begun::Answered(sim(alloc, &job, seed, sink, ran)),
        Mode::Run { workers } => Begun::Run {
            crew: Crew::Run { workers },
            job,
        },
        Mode::Trace { workers } => Begun::Run {
            crew: Crew::Trace { workers },
            job,
        },
        Mode::Steady { workers } => Begun::Run {
            crew: Crew::Steady { workers },
            job,
        },
    }
}

/// Lets workers run a job. Beside the world it hands over the wires that they used.
fn run_by<R: Threads + Wait + Sync, G: Gate>(
    host: &Host<R, G>,
    crew: Crew,
    job: &ShapeJob,
) -> Result<(World, SpentWires), NoMemory>
    requires { HasWorkers (mode_of crew) }
    ensures { IfOk result (λ left. LeavesRun (mode_of crew) job.now.shape job.now.inputs (Some left.0)) }
{
    match crew {
        Crew::Run { workers } | Crew::Trace { workers } => {
            let (world, spent) = run_by_workers(host, workers, job)?;
            Ok((world, spent))
        }
        Crew::Steady { workers } => {
            let (world, spent) = run_steadily(host, workers, job)?;
            Ok((world, spent))
        }
    }
}

/// Lets workers run a job, writes what is due, and hands back the world.
pub(crate) fn run<R: Threads + Wait + Sync, G: Gate, K: Sink>(
    host: &Host<R, G>,
    crew: Crew,
    job: &ShapeJob,
    sink: &mut K,
    ran: &mut Ran,
) -> Status
    requires workers { HasWorkers (mode_of crew) }
    requires none { ran.old ≡ nothing_ran }
    ensures written { Written (done (mode_text (mode_of crew) job.now.shape job.now.inputs ran.new.world)) (K.outflow sink.old)
        (K.outflow sink.new) result }
    ensures world { HandsBack result Status.Done (LeavesWorld (Command.Execute (mode_of crew)) job.now.shape job.now.inputs) ran.new }
{
    let Ok(mut out) = Pieces::open(host.alloc) else {
        return Status::NoMemory;
    };
    let Ok((world, spent)) = run_by(host, crew, job) else {
        return Status::NoMemory;
    };
    let results = Results {
        world: &world,
        shape: job.shape(),
    };
    let written = write_run(host, &mut out, sink, crew, &results);
    ran.world = Some(world);
    ran.spent = Some(spent);
    status_of(written)
}
