//! From the first frame to a rank that can take frames.

ghost use Rattle.std.specs.Prelude.{◌≡◌, ◌<◌, IfOk, IfErr, length};
ghost use Rattle.rank_process.specs.lines.Rank.{Asks, Work};
ghost use Rattle.rank_process.specs.Opening.{IsOpened, IsPlaceOf, work_of};
ghost use Rattle.rank_process.specs.Refused.{FailsToOpen};

use crate::asking::{Asked, asked_by};
use crate::first::First;
use crate::lanes::due_to;
use crate::lines::Prints;
use crate::recalling::recall_job;
use crate::status::Status;
use ptl_types::{NoMemory, Rank};
use rank_frames::Place;
use schedule_compiler::Job;
use std::alloc::Global;
use worlds::tasks::install;

/// A rank that can take frames, and what it prints.
#[derive(Drop)]
pub(crate) struct Opened {
    /// Its node, and what has still to come.
    pub(crate) place: Place,
    /// What it prints.
    pub(crate) prints: Prints,
}

/// The place of a rank of a job, in which nothing was done.
fn placed(alloc: Global, job: &Job, me: Rank) -> Result<Place, NoMemory>
    requires { me < job.now.schedule.plan.ranks }
    ensures { IfOk result (λ p. IsPlaceOf job.now.schedule.plan job.now.inputs me p) }
{
    recall_job(job);
    let due = due_to(alloc, job.schedule(), me)?;
    let node = install(alloc, job, me, 0)?;
    Ok(Place::of(me, node, due))
}

/// A rank of what is to be run. What is there of other ranks is let go.
fn ready_rank(alloc: Global, asked: Asked, me: Rank) -> Result<Opened, NoMemory>
    requires buffers { asked.job.schedule.held.buffers ≡ length asked.shape.buffers }
    requires rank { me < asked.job.schedule.plan.ranks }
    ensures { IfOk result (λ o. IsOpened (work_of asked) me o) }
{
    asked.shape.recall_form();
    let place = placed(alloc, &asked.job, me)?;
    let prints = Prints::of(alloc, asked.shape, asked.job.schedule(), me)?;
    Ok(Opened { place, prints })
}

/// The rank that it is told of what the text asks for.
pub(crate) fn open(alloc: Global, first: First) -> Result<Opened, Status>
    ensures opens { IfOk result (λ o. (w : Work) × Asks first.text.items w × IsOpened w first.rank o) }
    ensures fails { IfErr result (λ e. FailsToOpen first.text.items first.rank e) }
{
    let asked = asked_by(alloc, first.text.as_slice())?;
    if first.rank >= asked.job.schedule().ranks() {
        return Err(Status::WrongRank);
    }
    match ready_rank(alloc, asked, first.rank) {
        Ok(opened) => Ok(opened),
        Err(NoMemory) => Err(Status::NoMemory),
    }
}
