//! What is called before each step.

use ptl_types::{LocalStep, Rank};

/// What a call that starts a rank answers.
#[derive(Clone, Copy, Debug, PartialEq, Eq)]
pub enum StartAnswer {
    /// The rank was started.
    Started,
    /// It had been started before.
    AlreadyStarted,
}

/// Called while the turn of a rank is held: before a start and a firing, and between the pop of a message and its receipt.
pub trait Gate: Sync {
    /// The rank is about to make this step.
    fn pass(&self, rank: Rank, step: LocalStep);
}

/// Does nothing.
#[derive(Clone, Copy)]
pub struct OpenGate;

impl Gate for OpenGate {
    fn pass(&self, _rank: Rank, _step: LocalStep) {}
}

impl<G: Gate> Gate for &G {
    fn pass(&self, rank: Rank, step: LocalStep) {
        (**self).pass(rank, step);
    }
}
