//! Where a rank's ends are likely to stand, and where messages are likely to lie. These are guesses: each is looked at before it is
//! used, and a wrong one costs time alone.

use crate::mail::{Mail, WORD, is_of_answers, lane_number, next_bit, words};
use crate::parked::Parked;
use ptl_types::{Lane, NoMemory, Rank};
use std::alloc::Global;

/// The places where ends are likely to stand in a list, by the other rank and the kind of their lanes.
#[derive(Drop)]
pub(crate) struct LikelyPlaces {
    places: Vec<u32>,
}

impl LikelyPlaces {
    /// For ends of lanes to or from so many ranks.
    fn open(alloc: Global, ranks: u32) -> Result<LikelyPlaces, NoMemory> {
        let places = vec![in alloc; 0; ranks as usize * 2]?;
        Ok(LikelyPlaces { places })
    }

    /// The end of a lane stands at this place.
    pub(crate) fn set(&mut self, rank: Rank, lane: Lane, place: usize) {
        if let (Some(at), Ok(place)) = (
            self.places.get_mut(lane_number(rank, lane)),
            u32::try_from(place),
        ) {
            *at = place;
        }
    }

    /// Where the end of a lane is likely to stand.
    pub(crate) fn of(&self, rank: Rank, lane: Lane) -> usize {
        self.at(lane_number(rank, lane))
    }

    /// Where the end of the lane of this number is likely to stand.
    pub(crate) fn at(&self, number: usize) -> usize {
        match self.places.get(number) {
            Some(&place) => place as usize,
            None => 0,
        }
    }
}

/// What a rank's slot keeps of such guesses: where the end of each lane to or from it is likely to stand among its ends, which lanes to it
/// are likely to have messages, whether one may wait at an out end, and which operations are likely to find no room for theirs.
#[derive(Drop)]
pub struct Hints {
    pub(crate) outs: LikelyPlaces,
    pub(crate) ins: LikelyPlaces,
    // The lanes that were not found empty since there was mail for them, a bit for each.
    pending: Vec<u64>,
    // Whether a message may wait at an out end.
    pub(crate) waits: bool,
    pub(crate) parked: Parked,
}

impl Hints {
    /// For a rank with so many operations, in a job of so many ranks: no lane is likely to have messages, and none waits.
    ///
    /// # Errors
    ///
    /// There was no memory for it.
    pub fn open(alloc: Global, ranks: u32, operations: u32) -> Result<Hints, NoMemory> {
        let outs = LikelyPlaces::open(alloc, ranks)?;
        let ins = LikelyPlaces::open(alloc, ranks)?;
        let pending = vec![in alloc; 0; words(ranks)]?;
        let parked = Parked::open(alloc, ranks, operations)?;
        Ok(Hints {
            outs,
            ins,
            pending,
            waits: false,
            parked,
        })
    }

    /// Takes the mail of the rank.
    pub(crate) fn collect(&mut self, mail: &Mail, rank: Rank) {
        mail.clear_wake(rank);
        for (i, word) in self.pending.iter_mut().enumerate() {
            *word |= mail.take(rank, i);
        }
    }

    /// The first lane that may have messages, of those from this number on.
    pub(crate) fn next(&self, from: usize) -> Option<usize> {
        next_bit(&self.pending, from)
    }

    /// A message of the lane of this number was received, or there was none.
    pub(crate) fn note_look(&mut self, number: usize, received: bool) {
        if !received && let Some(word) = self.pending.get_mut(number / WORD) {
            *word &= !(1 << (number % WORD));
        }
    }

    /// Nothing may be taken of the lane of this number now. Where it is one of answers none is awaited, so none is on its way, and it
    /// isn't looked at before there is mail for it; else a rank at rest would be looked at for ever.
    pub(crate) fn note_held_back(&mut self, number: usize) {
        if is_of_answers(number) {
            self.note_look(number, false);
        }
    }

    /// Notes whether nothing waits at the out ends after all was tried again. Some lanes may have got room.
    pub(crate) fn note_flushed(&mut self, free: bool) {
        self.waits = !free;
        self.parked.note_room(true);
    }

    /// Notes that a message waits at an out end of the rank, if one does. The rank is woken, so that it says that it waits for room.
    pub(crate) fn note_waiting(&mut self, mail: &Mail, rank: Rank, waits: bool) {
        if waits {
            self.waits = true;
            mail.wake(rank);
        }
    }

    /// Wakes the rank, if it may have more to do now. Where it waits for room it is woken once there is some.
    pub(crate) fn leave_word(&self, mail: &Mail, rank: Rank) {
        if !self.waits && self.pending.iter().any(|&word| word != 0) {
            mail.wake(rank);
        }
    }
}
