//! Gates that watch what passes.

use ptl_types::{LocalStep, Rank};
use rank_threads::Gate;
use std::sync::atomic::{AtomicU64, Ordering};
use std::thread;

/// Counts the steps.
#[derive(Drop)]
pub(crate) struct Counting {
    passes: AtomicU64,
}

impl Counting {
    pub(crate) fn new() -> Counting {
        Counting {
            passes: AtomicU64::new(0),
        }
    }

    /// How many there were.
    pub(crate) fn passes(&self) -> u64 {
        self.passes.load(Ordering::SeqCst)
    }
}

impl Gate for Counting {
    fn pass(&self, _rank: Rank, _step: LocalStep) {
        self.passes.fetch_add(1, Ordering::SeqCst);
    }
}

/// How often the first step is held back at most.
const PATIENCE: u32 = 1_000_000;

/// Holds the first step that it sees until another rank makes one, and notes a failure where none does.
#[derive(Drop)]
pub(crate) struct Meeting {
    // How many steps of rank 0 were seen, and of the others.
    first: AtomicU64,
    second: AtomicU64,
    failures: AtomicU64,
}

impl Meeting {
    pub(crate) fn new() -> Meeting {
        Meeting {
            first: AtomicU64::new(0),
            second: AtomicU64::new(0),
            failures: AtomicU64::new(0),
        }
    }

    /// Whether both were seen, and none waited in vain.
    pub(crate) fn met(&self) -> bool {
        self.first.load(Ordering::SeqCst) > 0
            && self.second.load(Ordering::SeqCst) > 0
            && self.failures.load(Ordering::SeqCst) == 0
    }

    fn wait_for(&self, other: &AtomicU64) {
        for _ in 0..PATIENCE {
            if other.load(Ordering::SeqCst) > 0 {
                return;
            }
            thread::yield_now();
        }
        self.failures.fetch_add(1, Ordering::SeqCst);
    }
}

impl Gate for Meeting {
    fn pass(&self, rank: Rank, _step: LocalStep) {
        if rank == 0 {
            self.first.fetch_add(1, Ordering::SeqCst);
            self.wait_for(&self.second);
        } else {
            self.second.fetch_add(1, Ordering::SeqCst);
            self.wait_for(&self.first);
        }
    }
}
