//! Running a job of a given plan, and writing what its results hold.

ghost use Rattle.std.specs.Prelude.{◌≡◌, ◌<◌, IfOk, None, Some, []};
ghost use Rattle.job_runs.specs.Modes.{HasWorkers};
ghost use Rattle.run_text.specs.Ending.{Written, done, status_of};
ghost use Rattle.run_text.specs.Putting.{EndsWith};
ghost use Rattle.verdict_laws.specs.GivenJobs.{FitsShape};
ghost use Rattle.given_top.specs.runs.GivenRuns.{HoldsGiven, IsGivenRun, LeavesGiven, given_text};

use crate::runs::results::GivenResults;
use coll_shape::Shape;
use job_runs::{Host, Mode, run_by_workers, run_chosen, run_once, run_steadily, write_ordered};
use port_io::{Failed, Sink};
use ptl_types::NoMemory;
use rank_threads::{Gate, SpentWires};
use run_text::{Pieces, Status, write_result, write_result_by};
use schedule_compiler::Job;
use std::sync::Wait;
use std::thread::Threads;
use worlds::World;

/// How a run of a given plan ended, and what it leaves for the caller to look at.
pub struct GivenRun {
    /// How it ended.
    pub status: Status,
    /// The world at rest, where the run was made.
    pub world: Option<World>,
    /// What a run by threads leaves beside the world: memory that is given back when this is let go.
    pub(crate) spent: Option<SpentWires>,
}

impl Drop for GivenRun {
    fn drop(self) {
        let GivenRun {
            status: _,
            world: _,
            spent: _,
        } = self;
    }
}

impl GivenRun {
    /// A call that ended so and ran nothing.
    pub fn without(status: Status) -> GivenRun
        ensures { result ≡ record { status = status; world = None; spent = None } }
    {
        GivenRun {
            status,
            world: None,
            spent: None,
        }
    }
}

/// Runs a job as a mode asks for it. Where threads ran it, the wires that they used are handed over beside the world.
fn run_in<R: Threads + Wait + Sync, G: Gate>(
    host: &Host<R, G>,
    mode: Mode,
    job: &Job,
) -> Result<(World, Option<SpentWires>), NoMemory>
    requires { HasWorkers mode }
    ensures { IfOk result (λ left. LeavesGiven mode job.now (Some left.0)) }
{
    match mode {
        Mode::Once => {
            let world = run_once(host.alloc, job)?;
            Ok((world, None))
        }
        Mode::Sim { seed } => {
            let world = run_chosen(host.alloc, job, seed)?;
            Ok((world, None))
        }
        Mode::Run { workers } | Mode::Trace { workers } => {
            let (world, spent) = run_by_workers(host, workers, job)?;
            Ok((world, Some(spent)))
        }
        Mode::Steady { workers } => {
            let (world, spent) = run_steadily(host, workers, job)?;
            Ok((world, Some(spent)))
        }
    }
}

/// Writes what a run in a mode owes.
fn write_in<R: Threads + Sync, G, K: Sink>(
    host: &Host<R, G>,
    mode: Mode,
    out: &mut Pieces,
    sink: &mut K,
    results: &GivenResults,
) -> Result<(), Failed>
    requires empty { out.old ≡ [] }
    requires workers { HasWorkers mode }
    requires holds { HoldsGiven results.now.shape.now results.now.world.now }
    ensures { EndsWith (K.outflow sink.old) (K.outflow sink.new) (given_text mode results.now.shape.now results.now.world.now) result }
{
    match mode {
        Mode::Once => write_result(out, sink, results),
        Mode::Sim { .. } | Mode::Trace { .. } => write_ordered(out, sink, results, results.world),
        Mode::Run { workers } | Mode::Steady { workers } => {
            write_result_by(host.rt, host.alloc, workers, out, sink, results)
        }
    }
}

/// The status of what was written.
fn status_of(written: Result<(), Failed>) -> Status
    ensures { result ≡ status_of written }
{
    match written {
        Ok(()) => Status::Done,
        Err(_) => Status::WriteFault,
    }
}

/// Runs a job of a given plan as a mode asks for it, and writes what its results hold: for each buffer that the shape prints and each
/// rank a line of the named cell's elements, then `rest`; by `sim` and `trace` the steps of each rank after it.
pub fn run_given<R: Threads + Wait + Sync, G: Gate, K: Sink>(
    host: &Host<R, G>,
    mode: Mode,
    shape: &Shape,
    job: &Job,
    sink: &mut K,
) -> GivenRun
    requires workers { HasWorkers mode }
    requires fits { FitsShape shape.now job.now.schedule }
    ensures { IsGivenRun mode shape.now job.now (K.outflow sink.old) (K.outflow sink.new) result }
{
    let Ok(mut out) = Pieces::open(host.alloc) else {
        return GivenRun::without(Status::NoMemory);
    };
    let Ok((world, spent)) = run_in(host, mode, job) else {
        return GivenRun::without(Status::NoMemory);
    };
    let results = GivenResults {
        world: &world,
        shape,
    };
    let written = write_in(host, mode, &mut out, sink, &results);
    GivenRun {
        status: status_of(written),
        world: Some(world),
        spent,
    }
}
