//! A schedule with the values of its inputs.

ghost use Rattle.std.specs.Prelude.{◌≡◌, IfOk};
ghost use Rattle.schedule_compiler.specs.Jobs.{AreInputsFor};

use crate::schedule::Schedule;
use coll_shape::Inputs;
use ptl_types::NoMemory;
use std::alloc::Global;
use std::marker::Model;
use std::sync::Arc;

/// What the owners of a job share.
#[derive(Debug, Drop)]
struct Shared {
    schedule: Schedule,
    inputs: Inputs,
}

/// A schedule with inputs that it takes. It is kept once, and shared by all that run it.
pub struct Job {
    shared: Arc<Shared>,
}

impl Model for Job {
    ghost use Rattle.schedule_compiler.specs.Jobs.{AreInputsFor, JobOf};

    ghost Value = { JobOf };

    ghost view = { λ j. record { schedule = j.shared.value.schedule; inputs = j.shared.value.inputs } };

    ghost invariant = { λ j. AreInputsFor j.shared.value.schedule j.shared.value.inputs };
}

// Written out, so that letting one go is one call: docs/DECISIONS.md, "Large types have a drop of their own".
impl Drop for Job {
    fn drop(self) {
        let Job { shared: _ } = self;
    }
}

impl Job {
    /// A schedule with these inputs.
    ///
    /// # Errors
    ///
    /// There was no memory. The schedule and the inputs are then gone.
    pub fn new(alloc: Global, schedule: Schedule, inputs: Inputs) -> Result<Job, NoMemory>
        requires { AreInputsFor schedule inputs }
        ensures { IfOk result (λ job. job ≡ record { schedule = schedule; inputs = inputs }) }
    {
        let shared = Arc::new(alloc, Shared { schedule, inputs })?;
        Ok(Job { shared })
    }

    /// The same job again. Nothing is copied.
    ///
    /// # Errors
    ///
    /// The job has as many owners as can be counted.
    pub fn share(&self) -> Result<Job, NoMemory>
        ensures { IfOk result (λ job. job ≡ self.now) }
    {
        match self.shared.clone() {
            Ok(shared) => Ok(Job { shared }),
            Err(_) => Err(NoMemory),
        }
    }

    /// The schedule.
    pub fn schedule(&self) -> &Schedule
        ensures { result.now ≡ self.now.schedule }
    {
        &self.shared.schedule
    }

    /// The inputs.
    pub fn inputs(&self) -> &Inputs
        ensures value { result.now ≡ self.now.inputs }
        // This holds of every job, whichever call tells it.
        ensures inputs { AreInputsFor self.now.schedule self.now.inputs }
    {
        &self.shared.inputs
    }
}
