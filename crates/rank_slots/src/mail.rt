//! Word that threads leave for one another: to which ranks messages were sent, which ranks wait for room, and how many workers are at
//! work. No clause rests on it. Word that is lost costs time alone, since the last sweep of each worker heeds none; but where the count of
//! those at work doesn't come back to 0, a worker without a word waits for ever.

ghost use Rattle.std.specs.Prelude.{◌<◌, ◌^◌};

use ptl_types::{Lane, NoMemory, Rank};
use std::alloc::Global;
use std::sync::atomic::{AtomicU64, Ordering};

/// How many lanes a word tells of.
pub(crate) const WORD: usize = 64;

/// How many words there are at least from one rank's to the next one's, so that no two ranks have a cache line in common, nor two lines
/// that are fetched together.
const LINE: usize = 16;

/// The number of a lane among those to or from one rank.
pub(crate) fn lane_number(rank: Rank, lane: Lane) -> usize {
    let number = rank as usize * 2;
    match lane {
        Lane::Request => number,
        Lane::Answer => number + 1,
    }
}

/// Whether the lane of this number is one of answers.
pub(crate) fn is_of_answers(number: usize) -> bool {
    number % 2 == 1
}

/// How many words the lanes to a rank need.
pub(crate) fn words(ranks: u32) -> usize
    ensures { result < 2 ^ 32 }
{
    ranks as usize / (WORD / 2) + 1
}

/// The first bit that is set in these words, of those from this number on.
pub(crate) fn next_bit(words: &[u64], from: usize) -> Option<usize> {
    for i in from / WORD..words.len() {
        let before = if i == from / WORD { from % WORD } else { 0 };
        let bits = words[i] >> before << before;
        if bits != 0 {
            return Some(
                i.wrapping_mul(WORD)
                    .wrapping_add(bits.trailing_zeros() as usize),
            );
        }
    }
    None
}

// So many words, none of which is set.
fn zeros(alloc: Global, count: usize) -> Result<Vec<AtomicU64>, NoMemory> {
    let mut words = Vec::with_capacity(alloc, count)?;
    for _ in 0..count {
        words.push(AtomicU64::new(0))?;
    }
    Ok(words)
}

/// For each rank a bit for each lane to it, which is set where a message was sent, and a last word that is set where the rank isn't
/// done; and whether it waits for room.
#[derive(Drop)]
pub struct Mail {
    words: Vec<AtomicU64>,
    // How many words there are from one rank's to the next one's, and how many of them tell something.
    stride: usize,
    used: usize,
    ranks: u32,
    // For each rank a word, in a cache line of its own, which is set while the rank waits for room on a lane from it.
    short: Vec<AtomicU64>,
    // How many workers are at work.
    busy: AtomicU64,
}

impl Mail {
    /// For a job of so many ranks, none of which is done. No worker is at work.
    ///
    /// # Errors
    ///
    /// There was no memory for it.
    pub fn open(alloc: Global, ranks: u32) -> Result<Mail, NoMemory> {
        let used = words(ranks) + 1;
        let stride = used.max(LINE);
        let count = (ranks as usize).wrapping_mul(stride);
        let words = zeros(alloc, count)?;
        let short = zeros(alloc, (ranks as usize).wrapping_mul(LINE))?;
        let busy = AtomicU64::new(0);
        let mail = Mail {
            words,
            stride,
            used,
            ranks,
            short,
            busy,
        };
        for rank in 0..ranks {
            mail.wake(rank);
        }
        Ok(mail)
    }

    // A word of a rank.
    fn word(&self, rank: Rank, i: usize) -> Option<&AtomicU64> {
        let first = (rank as usize).wrapping_mul(self.stride);
        self.words.get(first.wrapping_add(i))
    }

    // Sets a bit, if it isn't set.
    fn set(&self, rank: Rank, i: usize, bit: u64) {
        if let Some(word) = self.word(rank, i) {
            if word.load(Ordering::SeqCst) & bit == 0 {
                word.fetch_or(bit, Ordering::SeqCst);
            }
        }
    }

    /// A message was sent on this lane.
    pub(crate) fn note(&self, source: Rank, target: Rank, lane: Lane) {
        let number = lane_number(source, lane);
        self.set(target, number / WORD, 1 << (number % WORD));
    }

    /// The rank isn't done.
    pub(crate) fn wake(&self, rank: Rank) {
        self.set(rank, self.used.saturating_sub(1), 1);
    }

    // The word that tells whether a rank waits for room.
    fn short_word(&self, rank: Rank) -> Option<&AtomicU64> {
        self.short.get((rank as usize).wrapping_mul(LINE))
    }

    /// The rank waits for room on a lane from it. It has to look for room once more after it said so.
    pub(crate) fn wait_for_credit(&self, rank: Rank) {
        if let Some(word) = self.short_word(rank) {
            word.store(1, Ordering::SeqCst);
        }
    }

    /// There is room on a lane from the rank, which is woken if it waits for some.
    pub(crate) fn made_room(&self, rank: Rank) {
        if let Some(word) = self.short_word(rank)
            && word.load(Ordering::SeqCst) != 0
        {
            word.store(0, Ordering::SeqCst);
            self.wake(rank);
        }
    }

    /// Whether there is word for a rank.
    pub fn any(&self, rank: Rank) -> bool {
        let mut any = 0;
        for i in 0..self.used {
            if let Some(word) = self.word(rank, i) {
                any |= word.load(Ordering::SeqCst);
            }
        }
        any != 0
    }

    /// Whether there is word for some rank.
    pub fn has_word(&self) -> bool {
        for rank in 0..self.ranks {
            if self.any(rank) {
                return true;
            }
        }
        false
    }

    /// Takes the bits of a word of a rank.
    pub(crate) fn take(&self, rank: Rank, i: usize) -> u64 {
        match self.word(rank, i) {
            Some(word) if word.load(Ordering::SeqCst) != 0 => word.swap(0, Ordering::SeqCst),
            _ => 0,
        }
    }

    /// The rank is looked at: it need not be woken for what was there before.
    pub(crate) fn clear_wake(&self, rank: Rank) {
        let _ = self.take(rank, self.used.saturating_sub(1));
    }

    /// A worker is at work.
    pub fn begin(&self) {
        self.busy.fetch_add(1, Ordering::SeqCst);
    }

    /// A worker found nothing to do.
    pub fn end(&self) {
        self.busy.fetch_sub(1, Ordering::SeqCst);
    }

    /// Whether no worker is at work.
    pub fn is_quiet(&self) -> bool {
        self.busy.load(Ordering::SeqCst) == 0
    }
}
