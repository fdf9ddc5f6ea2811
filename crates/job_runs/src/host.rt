//! What a call of the program stands on.

use rank_threads::OpenGate;
use std::alloc::Global;

/// What a call of the program stands on.
pub struct Host<'a, R, G> {
    /// Who starts threads and waits for them.
    pub rt: &'a R,
    /// Where memory is taken.
    pub alloc: Global,
    /// What a worker passes while it has the turn of a rank.
    pub gate: G,
}

impl<'a, R, G: Drop> Drop for Host<'a, R, G> {
    fn drop(self) {
        let Host {
            rt: _,
            alloc: _,
            gate: _,
        } = self;
    }
}

impl<'a, R> Host<'a, R, OpenGate> {
    /// With the gate that does nothing.
    pub fn new(rt: &'a R, alloc: Global) -> Host<'a, R, OpenGate> {
        Host {
            rt,
            alloc,
            gate: OpenGate,
        }
    }
}
