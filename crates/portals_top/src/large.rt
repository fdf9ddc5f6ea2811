//! Running the generated description.

ghost use Rattle.std.specs.Prelude.{◌≡◌, ◌<◌, IfOk};
ghost use Rattle.coll_lang.specs.Generated.{generated};
ghost use Rattle.portals_top.specs.Answered.{HandsBack, LeavesWorld};
ghost use Rattle.run_text.specs.Ending.{Written, done};
ghost use Rattle.portals_top.specs.Large.{summary_text};
ghost use Rattle.portals_top.specs.Left.{nothing_ran};

use crate::ran::Ran;
use crate::running::run_by_workers;
use crate::words::Command;
use crate::writing::{Results, status_of, write_sums};
use coll_lang::generated;
use job_runs::{Host, Mode};
use port_io::Sink;
use ptl_types::NoMemory;
use rank_threads::Gate;
use run_text::{Pieces, Status};
use schedule_compiler::{CompileFault, ShapeJob, compile};
use std::alloc::Global;
use std::sync::Wait;
use std::thread::Threads;

/// The job of the description that a number chooses.
pub(crate) fn generated_job(alloc: Global, number: u32) -> Result<ShapeJob, NoMemory>
    requires { number < 65536 }
    ensures shape { IfOk result (λ job. job.shape ≡ (generated number).shape) }
    ensures inputs { IfOk result (λ job. job.inputs ≡ (generated number).inputs) }
{
    let (shape, inputs) = generated(alloc, number)?.into_parts();
    match compile(alloc, &shape) {
        Ok(schedule) => ShapeJob::new(alloc, shape, schedule, inputs),
        Err(CompileFault::NoMemory) => Err(NoMemory),
        // Its plan is within the limits.
        Err(CompileFault::TooMany { .. }) => unreachable!(),
        Err(CompileFault::TooLarge { .. }) => unreachable!(),
    }
}

/// Runs the job of the description that a number chooses by workers on threads, writes its summary, and hands back the world.
pub(crate) fn large<R: Threads + Wait + Sync, G: Gate, K: Sink>(
    host: &Host<R, G>,
    number: u32,
    workers: u32,
    job: &ShapeJob,
    sink: &mut K,
    ran: &mut Ran,
) -> Status
    requires shape { job.now.shape ≡ (generated number).shape }
    requires inputs { job.now.inputs ≡ (generated number).inputs }
    requires workers { 0 < workers }
    requires none { ran.old ≡ nothing_ran }
    ensures written { Written (done (summary_text number)) (K.outflow sink.old) (K.outflow sink.new) result }
    ensures world { HandsBack result Status.Done
        (LeavesWorld (Command.Execute (Mode.Run workers)) (generated number).shape (generated number).inputs) ran.new }
{
    let Ok(mut out) = Pieces::open(host.alloc) else {
        return Status::NoMemory;
    };
    let Ok((world, spent)) = run_by_workers(host, workers, job) else {
        return Status::NoMemory;
    };
    let results = Results {
        world: &world,
        shape: job.shape(),
    };
    let written = write_sums(&mut out, sink, number, &results);
    ran.world = Some(world);
    ran.spent = Some(spent);
    status_of(written)
}
