//! What is wrong with an order line.

use crate::notes::OrderFlaw;
use crate::places::word;
use coll_text::{Words, is, number_between};
use ptl_types::Rank;

/// Whether the word is a local step of one of so many ranks.
fn is_step(ranks: u32, word: &[u8]) -> bool {
    match word.split_first() {
        Some((b's', others)) => others.is_empty(),
        Some((b'r' | b'a', others)) => {
            number_between(0, ranks.saturating_sub(1), others).is_some()
        }
        Some((b'f', others)) => number_between(0, u32::MAX, others).is_some(),
        _ => false,
    }
}

/// The word of an order line, where that of a rank is due, that makes it malformed, and what is wrong with it.
pub(crate) fn order_flaw(line: &[u8], ranks: u32, rank: Rank) -> (usize, OrderFlaw) {
    if !is(word(line, 0), b"order") {
        return (0, OrderFlaw::NoOrder);
    }
    if number_between(rank, rank, word(line, 1)).is_none() {
        return (1, OrderFlaw::NoRank { rank });
    }
    let mut number = 0usize;
    for word in Words::of(line) {
        if number >= 2 && !is_step(ranks, word) {
            return (number, OrderFlaw::NoStep { ranks });
        }
        number = number.saturating_add(1);
    }
    (2, OrderFlaw::NoStep { ranks })
}
