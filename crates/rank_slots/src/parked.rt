//! Operations that are ready while the lane of their message has no room. These are guesses: each is looked at before it is used, and a
//! wrong one costs time alone.

use crate::mail::{WORD, next_bit};
use ptl_types::{NoMemory, Rank};
use std::alloc::Global;

/// What stands after an operation that isn't parked.
const FREE: u32 = u32::MAX;

/// What stands after the last operation of a queue, and first in one that is empty.
const END: u32 = u32::MAX - 1;

/// The operations of a rank that were found ready while the lane of their message had no room: for each rank that these are for a queue, in
/// the order in which they were found. So each is looked at when it is found and when its lane has room, and not at each step between.
#[derive(Drop)]
pub(crate) struct Parked {
    // For each operation the one after it in its queue.
    next: Vec<u32>,
    first: Vec<u32>,
    last: Vec<u32>,
    // A bit for each rank, which is set where its queue isn't empty.
    queues: Vec<u64>,
    // How many are parked.
    count: u32,
    // Where among those that are ready the search for others goes on.
    from: u32,
    // Whether a lane may have got room since the queues were looked at.
    look: bool,
}

impl Parked {
    /// None of so many operations, whose messages are for so many ranks.
    pub(crate) fn open(alloc: Global, ranks: u32, operations: u32) -> Result<Parked, NoMemory> {
        let next = vec![in alloc; FREE; operations as usize]?;
        let first = vec![in alloc; END; ranks as usize]?;
        let last = vec![in alloc; END; ranks as usize]?;
        let queues = vec![in alloc; 0; ranks as usize / WORD + 1]?;
        Ok(Parked {
            next,
            first,
            last,
            queues,
            count: 0,
            from: 0,
            look: false,
        })
    }

    /// How many are parked.
    pub(crate) fn count(&self) -> u32 {
        self.count
    }

    /// Where the search for others goes on.
    pub(crate) fn from(&self) -> u32 {
        self.from
    }

    /// The search goes on from here.
    pub(crate) fn go_on(&mut self, from: u32) {
        self.from = from;
    }

    /// Whether a lane may have got room since the queues were looked at.
    pub(crate) fn may_have_room(&self) -> bool {
        self.look
    }

    /// Notes whether a lane may have got room.
    pub(crate) fn note_room(&mut self, look: bool) {
        self.look = look;
    }

    /// Whether the operation is parked.
    pub(crate) fn holds(&self, number: u32) -> bool {
        match self.next.get(number as usize) {
            Some(&next) => next != FREE,
            None => false,
        }
    }

    // The queue of a rank has some, or none.
    fn set_queue(&mut self, target: Rank, some: bool) {
        let at = target as usize;
        if let Some(word) = self.queues.get_mut(at / WORD) {
            let bit = 1 << (at % WORD);
            if some {
                *word |= bit;
            } else {
                *word &= !bit;
            }
        }
    }

    // An operation comes after the one that was last.
    fn link(&mut self, before: u32, number: u32) {
        if let Some(next) = self.next.get_mut(before as usize) {
            *next = number;
        }
    }

    /// Parks an operation whose message is for a rank, after those of this rank that are parked.
    pub(crate) fn add(&mut self, target: Rank, number: u32) {
        let (Some(first), Some(last), Some(next)) = (
            self.first.get_mut(target as usize),
            self.last.get_mut(target as usize),
            self.next.get_mut(number as usize),
        ) else {
            return;
        };
        let before = *last;
        let was_empty = *first == END;
        *next = END;
        *last = number;
        if was_empty {
            *first = number;
            self.set_queue(target, true);
        } else {
            self.link(before, number);
        }
        self.count = self.count.wrapping_add(1);
    }

    /// The first rank, of those from this one on, for whose messages operations are parked.
    pub(crate) fn queue(&self, from: Rank) -> Option<Rank> {
        let rank = next_bit(&self.queues, from as usize)?;
        Rank::try_from(rank).ok()
    }

    /// The first operation of the queue of a rank leaves it.
    pub(crate) fn take(&mut self, target: Rank) -> Option<u32> {
        let first = self.first.get_mut(target as usize)?;
        let number = *first;
        let next = self.next.get_mut(number as usize)?;
        *first = *next;
        let is_last = *next == END;
        *next = FREE;
        if is_last {
            self.set_queue(target, false);
        }
        self.count = self.count.wrapping_sub(1);
        Some(number)
    }

    /// An operation was fired by a call that doesn't heed the queues. If it was parked it leaves its queue with those before it, which are
    /// found anew.
    pub(crate) fn forget(&mut self, target: Option<Rank>, number: u32) {
        let Some(target) = target else {
            return;
        };
        for _ in 0..self.count {
            if !self.holds(number) || self.take(target).is_none() {
                return;
            }
        }
    }
}
