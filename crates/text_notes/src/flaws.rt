//! Which word of a line is to blame for its refusal, and why.

use crate::groups::{group_size, members_flaw, strange_member};
use crate::keys::{Key, after_key, key_of, kind_in};
use crate::notes::{Excess, GroupFlaw, Limit, NumberFlaw};
use crate::places::{last_word, word};
use crate::standing::{Due, Standing};
use crate::steps::need_of;
use coll_shape::{MOST_RANKS, MOST_RANKS_IN_ONE, MOST_STEPS, Need, Version};
use coll_text::{Words, is, number_between, value_of};
use ptl_types::ElemType;

/// The first word that isn't that of line 1.
pub(crate) fn header_word(line: &[u8]) -> usize {
    if !is(word(line, 0), b"coll") {
        0
    } else if !is(word(line, 1), b"1") && !is(word(line, 1), b"2") {
        1
    } else {
        2
    }
}

/// The first word that isn't that of line 2.
pub(crate) fn ranks_word(line: &[u8], most: u32) -> usize {
    if !is(word(line, 0), b"ranks") {
        0
    } else if number_between(1, most, word(line, 1)).is_none() {
        1
    } else {
        2
    }
}

/// The most ranks of a version.
pub(crate) fn most_ranks(version: Version) -> u32 {
    match version {
        Version::One => MOST_RANKS_IN_ONE,
        Version::Two => MOST_RANKS,
    }
}

/// The first word that is no value of the type.
fn strange_value(line: &[u8], ty: ElemType) -> usize {
    let mut number = 0usize;
    for word in Words::of(line) {
        if value_of(ty, word).is_none() {
            return number;
        }
        number = number.saturating_add(1);
    }
    0
}

/// The word that is no number of its kind.
pub(crate) fn number_flaw(line: &[u8], standing: Standing) -> (usize, NumberFlaw) {
    if let Due::Data { ty, .. } = standing.due {
        return (strange_value(line, ty), NumberFlaw::NoValue { ty });
    }
    match key_of(word(line, 0)) {
        Some(Key::Input) => (3, NumberFlaw::NoCount),
        Some(Key::Group) => (strange_member(line), NumberFlaw::NoNumber),
        _ => (after_key(line), NumberFlaw::NoNumber),
    }
}

/// The name that a line makes.
pub(crate) fn new_name(line: &[u8]) -> usize {
    match key_of(word(line, 0)) {
        Some(Key::On | Key::Step(_)) => last_word(line),
        _ => 1,
    }
}

/// The name that a line reads.
pub(crate) fn read_name(line: &[u8]) -> usize {
    match key_of(word(line, 0)) {
        Some(Key::On | Key::Step(_)) => last_word(line).saturating_sub(1),
        _ => 1,
    }
}

/// How many members the group of a step has.
pub(crate) fn members_of(bytes: &[u8], line: &[u8], ranks: u32) -> u32 {
    if is(word(line, 0), b"on") {
        group_size(bytes, word(line, 1))
    } else {
        ranks
    }
}

/// What the step of a line asks of the buffer that it reads.
pub(crate) fn need(line: &[u8]) -> Need {
    match kind_in(line) {
        Some(kind) => need_of(kind),
        None => Need::All,
    }
}

/// Of what a line makes one too many.
pub(crate) fn limit(line: &[u8], steps: usize) -> (usize, Limit) {
    match key_of(word(line, 0)) {
        Some(Key::Group) => (0, Limit::Groups),
        Some(Key::Print) => (0, Limit::Prints),
        Some(Key::Input) => (1, Limit::Buffers),
        _ if steps >= MOST_STEPS => (0, Limit::Steps),
        _ => (last_word(line), Limit::Buffers),
    }
}

/// What a line makes too large.
pub(crate) fn excess(line: &[u8]) -> (usize, Excess) {
    match key_of(word(line, 0)) {
        Some(Key::Print) => (1, Excess::Prints),
        _ => (last_word(line), Excess::Buffer),
    }
}

/// What is wrong with a group or with the name of one.
pub(crate) fn group_flaw(line: &[u8], ranks: u32) -> (usize, GroupFlaw) {
    if is(word(line, 0), b"on") {
        (1, GroupFlaw::NoGroup)
    } else {
        members_flaw(line, ranks)
    }
}
