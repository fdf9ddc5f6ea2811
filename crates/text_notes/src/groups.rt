//! Members of groups.

use crate::notes::GroupFlaw;
use crate::places::word;
use coll_text::{Number, Words, cut, is, number_at};

/// The first word after a group's name that is no number.
pub(crate) fn strange_member(line: &[u8]) -> usize {
    let mut number = 0usize;
    for word in Words::of(line) {
        if number >= 2 && matches!(number_at(word), Number::Malformed) {
            return number;
        }
        number = number.saturating_add(1);
    }
    2
}

/// What is wrong with a member that is to be at least this one.
fn member_flaw(word: &[u8], least: u64, ranks: u32) -> Option<GroupFlaw> {
    match number_at(word) {
        Number::Small(n) if n < least => Some(GroupFlaw::NotRising),
        Number::Small(n) if n < u64::from(ranks) => None,
        _ => Some(GroupFlaw::NoRank { ranks }),
    }
}

/// The first member that is no rank, or doesn't rise.
pub(crate) fn members_flaw(line: &[u8], ranks: u32) -> (usize, GroupFlaw) {
    let mut number = 0usize;
    let mut least = 0u64;
    for word in Words::of(line) {
        if number >= 2 {
            if let Some(flaw) = member_flaw(word, least, ranks) {
                return (number, flaw);
            }
            if let Number::Small(n) = number_at(word) {
                least = n.saturating_add(1);
            }
        }
        number = number.saturating_add(1);
    }
    (2, GroupFlaw::NoRank { ranks })
}

/// How many members the line of a group has.
fn member_count(line: &[u8]) -> u32 {
    let mut count = 0u32;
    for _ in Words::of(line) {
        count = count.saturating_add(1);
    }
    count.saturating_sub(2)
}

/// How many members the group of that name has; 0 where there is none.
pub(crate) fn group_size(bytes: &[u8], name: &[u8]) -> u32 {
    let mut rest = bytes;
    loop {
        let (line, Some(later)) = cut(rest, b'\n') else {
            return 0;
        };
        if is(word(line, 0), b"group") && is(word(line, 1), name) {
            return member_count(line);
        }
        rest = later;
    }
}
