//! What lies on the lanes of one kind, from each rank to each.

use ptl_types::Rank;
use std::alloc::{AllocError, Global};

/// The messages of one lane, by the numbers of their links, in the order in which they were sent.
#[derive(Drop)]
struct Queue {
    sent: Vec<u32>,
    /// How many were taken.
    taken: usize,
}

/// The lanes of one kind.
#[derive(Drop)]
pub struct Lanes {
    ranks: u32,
    queues: Vec<Queue>,
}

impl Lanes {
    /// Lanes of so many ranks, with nothing on them.
    pub fn of(alloc: Global, ranks: u32) -> Result<Lanes, AllocError> {
        let mut queues = Vec::new(alloc);
        for _ in 0..u64::from(ranks) * u64::from(ranks) {
            queues.push(Queue {
                sent: Vec::new(alloc),
                taken: 0,
            })?;
        }
        Ok(Lanes { ranks, queues })
    }

    fn index(&self, from: Rank, to: Rank) -> usize {
        (from as usize)
            .saturating_mul(self.ranks as usize)
            .saturating_add(to as usize)
    }

    /// Puts a message at the end of a lane.
    pub fn send(&mut self, from: Rank, to: Rank, link: u32) -> Result<(), AllocError> {
        let at = self.index(from, to);
        match self.queues.get_mut(at) {
            Some(queue) => Ok(queue.sent.push(link)?),
            None => Ok(()),
        }
    }

    /// Takes the first message of a lane.
    pub fn take(&mut self, from: Rank, to: Rank) -> Option<u32> {
        let at = self.index(from, to);
        let queue = self.queues.get_mut(at)?;
        let link = queue.sent.get(queue.taken).copied()?;
        queue.taken = queue.taken.saturating_add(1);
        Some(link)
    }
}
