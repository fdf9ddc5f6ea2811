//! What a line is by its first word.

use crate::places::word;
use coll_shape::StepKind;
use coll_text::is;

/// What a line after the first two begins with.
#[derive(Clone, Copy)]
pub(crate) enum Key {
    Complete,
    Group,
    Input,
    On,
    Choice,
    Print,
    End,
    Step(StepKind),
}

/// What a first word says. None: no line begins so.
pub(crate) fn key_of(word: &[u8]) -> Option<Key> {
    if is(word, b"complete") {
        Some(Key::Complete)
    } else if is(word, b"group") {
        Some(Key::Group)
    } else if is(word, b"input") {
        Some(Key::Input)
    } else if is(word, b"on") {
        Some(Key::On)
    } else if is(word, b"elect") || is(word, b"tickets") {
        Some(Key::Choice)
    } else if is(word, b"print") {
        Some(Key::Print)
    } else if is(word, b"end") {
        Some(Key::End)
    } else {
        Some(Key::Step(StepKind::named(word)?))
    }
}

/// The number of the word after a step's first word: 3 in a step on a group.
pub(crate) fn after_key(line: &[u8]) -> usize {
    if is(word(line, 0), b"on") { 3 } else { 1 }
}

/// What the step of a line does, if it has one.
pub(crate) fn kind_in(line: &[u8]) -> Option<StepKind> {
    if is(word(line, 0), b"on") {
        StepKind::named(word(line, 2))
    } else {
        StepKind::named(word(line, 0))
    }
}
