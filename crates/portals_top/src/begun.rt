//! How far a call comes by one thread.

use run_text::Status;
use schedule_compiler::ShapeJob;

/// The workers that run a description, how they find the end, and what is written of the run.
#[derive(Clone, Copy, Debug, PartialEq, Eq)]
pub enum Crew {
    /// They leave when they find nothing to do. The results are written.
    Run {
        /// How many workers there are, from 1 to 16.
        workers: u32,
    },
    /// They leave when they find nothing to do. The results and the order of each rank's steps are written.
    Trace {
        /// How many workers there are, from 1 to 16.
        workers: u32,
    },
    /// They go on until a wave of probes has found rest. The results are written.
    Steady {
        /// How many workers there are, from 1 to 16.
        workers: u32,
    },
}

/// How far a call has come.
#[derive(Drop)]
pub enum Begun {
    /// It is answered.
    Answered(Status),
    /// These workers are to run this job, which was read. Nothing was written.
    Run {
        /// Which workers.
        crew: Crew,
        /// What they run.
        job: ShapeJob,
    },
    /// So many workers are to run this job, which is of the description that the number chooses, and its summary is to be written.
    /// Nothing was read or written.
    Large {
        /// What chooses the values of the description, below 65,536.
        number: u32,
        /// How many workers there are, from 1 to 16.
        workers: u32,
        /// What they run.
        job: ShapeJob,
    },
}
