//! What is wrong with the words of a step.

use crate::lines::extra_word;
use crate::notes::LineFlaw;
use crate::places::word;
use coll_shape::{Need, StepKind};
use coll_text::{is_name, op_named};

/// Of the names of a step, the first of which is this word.
fn names_flaw(line: &[u8], number: usize, kind: StepKind) -> (usize, LineFlaw) {
    if !kind.takes_buffers() {
        return extra_word(line, number);
    }
    let second = number.saturating_add(1);
    if !is_name(word(line, number)) {
        (number, LineFlaw::NoName)
    } else if !is_name(word(line, second)) {
        (second, LineFlaw::NoName)
    } else {
        extra_word(line, second.saturating_add(1))
    }
}

/// Of a step whose words after the first begin with this one.
pub(crate) fn step_flaw(line: &[u8], first: usize, kind: StepKind) -> (usize, LineFlaw) {
    let mut number = first;
    if kind.takes_root() {
        if word(line, number).is_empty() {
            return (number, LineFlaw::NoRoot);
        }
        number = number.saturating_add(1);
    }
    if kind.takes_op() {
        if op_named(word(line, number)).is_none() {
            return (number, LineFlaw::NoOperation);
        }
        number = number.saturating_add(1);
    }
    names_flaw(line, number, kind)
}

/// Of a step on a group.
pub(crate) fn on_flaw(line: &[u8]) -> (usize, LineFlaw) {
    if !is_name(word(line, 1)) {
        return (1, LineFlaw::NoName);
    }
    match StepKind::named(word(line, 2)) {
        Some(kind) => step_flaw(line, 3, kind),
        None => (2, LineFlaw::NoStep),
    }
}

/// What a step asks of the buffer that it reads. One that reads none asks nothing, and is never refused for it.
pub(crate) fn need_of(kind: StepKind) -> Need {
    kind.need().unwrap_or(Need::All)
}
