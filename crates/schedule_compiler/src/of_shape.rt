//! A job of a shape, with the shape beside it.

ghost use Rattle.std.specs.Prelude.{◌≡◌, None, IfOk};
ghost use Rattle.coll_shape.specs.Meaning.{AreInputs};
ghost use Rattle.coll_shape.specs.WellFormed.{IsWellFormed};
ghost use Rattle.schedule_compiler.specs.shapes.Footprint.{refusal};
ghost use Rattle.schedule_compiler.specs.Jobs.{IsJobOf, job_of};
ghost use Rattle.schedule_compiler.specs.Schedules.{schedule_of};

use crate::compiling::shape_job;
use crate::job::Job;
use crate::schedule::Schedule;
use coll_shape::{Inputs, Shape};
use ptl_types::NoMemory;
use std::alloc::Global;
use std::marker::Model;

/// A job of a shape, which is a job of its plan, and the shape, by which its results have names.
pub struct ShapeJob {
    shape: Shape,
    job: Job,
}

impl Model for ShapeJob {
    ghost use Rattle.schedule_compiler.specs.Jobs.{IsJobOf, ShapeJobOf};

    ghost Value = { ShapeJobOf };

    ghost view = { λ j. record { shape = j.shape; inputs = j.job.inputs } };

    ghost invariant = { λ j. IsJobOf j.shape j.job };
}

// Written out, so that letting one go is one call: docs/DECISIONS.md, "Large types have a drop of their own".
impl Drop for ShapeJob {
    fn drop(self) {
        let ShapeJob { shape: _, job: _ } = self;
    }
}

impl ShapeJob {
    /// These two.
    fn with(shape: Shape, job: Job) -> ShapeJob
        requires { IsJobOf shape job }
        ensures { result ≡ record { shape = shape; inputs = job.inputs } }
    {
        ShapeJob { shape, job }
    }

    /// The job of a shape that isn't refused, with its schedule and inputs of it.
    ///
    /// # Errors
    ///
    /// There was no memory. The shape, the schedule and the inputs are then gone.
    pub fn new(
        alloc: Global,
        shape: Shape,
        schedule: Schedule,
        inputs: Inputs,
    ) -> Result<ShapeJob, NoMemory>
        requires accepted { refusal shape ≡ None }
        requires schedule { schedule ≡ schedule_of shape }
        requires inputs { AreInputs shape inputs }
        ensures { IfOk result (λ job. job ≡ record { shape = shape; inputs = inputs }) }
    {
        let job = shape_job(alloc, &shape, schedule, inputs)?;
        Ok(ShapeJob::with(shape, job))
    }

    /// The shape.
    pub fn shape(&self) -> &Shape
        ensures value { result.now ≡ self.now.shape }
    {
        &self.shape
    }

    /// The job.
    pub fn job(&self) -> &Job
        ensures value { result.now ≡ job_of self.now.shape self.now.inputs }
        // These hold of every job of a shape, whichever call tells them.
        ensures formed { IsWellFormed self.now.shape }
        ensures accepted { refusal self.now.shape ≡ None }
        ensures inputs { AreInputs self.now.shape self.now.inputs }
    {
        self.shape.recall_form();
        &self.job
    }
}
