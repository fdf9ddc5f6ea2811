//! Where the number of a lane is likely to stand at its target. These are guesses: each is looked at before it is used, and a wrong one
//! costs time alone.

use crate::notes::{Counts, RankNote};
use ptl_types::{NoMemory, Rank};
use std::alloc::Global;

/// For each lane from a rank, its place among the lanes to its target.
#[derive(Debug, Drop)]
pub(crate) struct Partners {
    rows: Vec<Vec<u32>>,
}

// The places of the lanes from a rank, where so many lanes to each rank had theirs before.
fn row_of(alloc: Global, sent: &Counts, taken: &mut Vec<u32>) -> Result<Vec<u32>, NoMemory> {
    let mut row = Vec::with_capacity(alloc, sent.len() as usize)?;
    for at in 0..sent.len() {
        let target = sent.at(at).rank as usize;
        let place = match taken.get_mut(target) {
            Some(count) => {
                let place = *count;
                *count = place.wrapping_add(1);
                place
            }
            None => 0,
        };
        row.push(place)?;
    }
    Ok(row)
}

impl Partners {
    /// Of the lanes of these ranks, which stand by source and then by target.
    pub(crate) fn of(alloc: Global, ranks: &[RankNote]) -> Result<Partners, NoMemory> {
        let mut taken = vec![in alloc; 0; ranks.len()]?;
        let mut rows = Vec::with_capacity(alloc, ranks.len())?;
        for rank in ranks {
            rows.push(row_of(alloc, &rank.note.sent, &mut taken)?)?;
        }
        Ok(Partners { rows })
    }

    /// Where the lane at a place among those from a rank is likely to stand.
    pub(crate) fn place(&self, s: Rank, at: u32) -> usize {
        match self.rows.get(s as usize) {
            Some(row) => match row.get(at as usize) {
                Some(&place) => place as usize,
                None => 0,
            },
            None => 0,
        }
    }
}
