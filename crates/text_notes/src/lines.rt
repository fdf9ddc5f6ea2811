//! What is wrong with the words of a line.

use crate::keys::{Key, key_of};
use crate::notes::LineFlaw;
use crate::places::word;
use crate::standing::{Due, Standing};
use crate::steps::{on_flaw, step_flaw};
use coll_shape::Version;
use coll_text::{Words, is, is_name, type_named};

/// One word too many, or something else where there is none.
pub(crate) fn extra_word(line: &[u8], number: usize) -> (usize, LineFlaw) {
    match Words::of(line).nth(number) {
        Some(_) => (number, LineFlaw::ExtraWord),
        None => (0, LineFlaw::OddLine),
    }
}

/// Of a data line of so many values.
fn data_flaw(line: &[u8], count: u32) -> (usize, LineFlaw) {
    let mut number = 0usize;
    for word in Words::of(line) {
        if number >= count as usize {
            return (number, LineFlaw::ExtraValue { count });
        }
        if word.is_empty() {
            return (number, LineFlaw::ValueDue { count });
        }
        number += 1;
    }
    (number, LineFlaw::ValueDue { count })
}

/// Which first words may stand here.
fn first_words(due: Due) -> LineFlaw {
    match due {
        Due::First => LineFlaw::FirstWord,
        Due::AfterGroups => LineFlaw::AfterGroups,
        Due::AfterInputs => LineFlaw::AfterInputs,
        Due::AfterSteps => LineFlaw::AfterSteps,
        Due::AfterChoices => LineFlaw::AfterChoices,
        Due::AfterPrints => LineFlaw::AfterPrints,
        Due::Header | Due::Ranks | Due::Data { .. } | Due::Orders => LineFlaw::OddLine,
    }
}

/// Whether such a line may stand here in some version.
fn may_stand(due: Due, key: Key) -> bool {
    match due {
        Due::First => true,
        Due::AfterGroups => !matches!(key, Key::Complete | Key::Choice),
        Due::AfterInputs => !matches!(key, Key::Complete | Key::Group | Key::Choice),
        Due::AfterSteps => matches!(key, Key::On | Key::Step(_) | Key::Print | Key::End),
        Due::AfterChoices => matches!(key, Key::Choice | Key::Print | Key::End),
        Due::AfterPrints => matches!(key, Key::Print | Key::End),
        Due::Header | Due::Ranks | Due::Data { .. } | Due::Orders => false,
    }
}

/// The version from which on there are such lines.
fn key_since(key: Key) -> Version {
    match key {
        Key::Group | Key::On | Key::Choice => Version::Two,
        Key::Step(kind) => kind.since(),
        Key::Complete | Key::Input | Key::Print | Key::End => Version::One,
    }
}

/// Of `complete`.
fn complete_flaw(line: &[u8]) -> (usize, LineFlaw) {
    if is(word(line, 1), b"remote") {
        extra_word(line, 2)
    } else {
        (1, LineFlaw::NoRemote)
    }
}

/// Of `group`.
fn group_flaw(line: &[u8]) -> (usize, LineFlaw) {
    if !is_name(word(line, 1)) {
        return (1, LineFlaw::NoName);
    }
    let mut number = 0usize;
    for word in Words::of(line) {
        if number >= 2 && word.is_empty() {
            return (number, LineFlaw::NoMember);
        }
        number = number.saturating_add(1);
    }
    (2, LineFlaw::NoMember)
}

/// Of `input`.
fn input_flaw(line: &[u8]) -> (usize, LineFlaw) {
    if !is_name(word(line, 1)) {
        (1, LineFlaw::NoName)
    } else if type_named(word(line, 2)).is_none() {
        (2, LineFlaw::NoType)
    } else if word(line, 3).is_empty() {
        (3, LineFlaw::NoCount)
    } else {
        extra_word(line, 4)
    }
}

/// Of a line of a word and a name.
fn name_flaw(line: &[u8]) -> (usize, LineFlaw) {
    if is_name(word(line, 1)) {
        extra_word(line, 2)
    } else {
        (1, LineFlaw::NoName)
    }
}

/// Of a line that begins so.
fn form_flaw(line: &[u8], key: Key) -> (usize, LineFlaw) {
    match key {
        Key::Complete => complete_flaw(line),
        Key::Group => group_flaw(line),
        Key::Input => input_flaw(line),
        Key::On => on_flaw(line),
        Key::Choice | Key::Print => name_flaw(line),
        Key::End => extra_word(line, 1),
        Key::Step(kind) => step_flaw(line, 1, kind),
    }
}

/// Of a line after the first two that is no data line.
fn later_flaw(line: &[u8], version: Version, due: Due) -> (usize, LineFlaw) {
    let Some(key) = key_of(word(line, 0)) else {
        return (0, first_words(due));
    };
    if !may_stand(due, key) {
        return (0, first_words(due));
    }
    if matches!(version, Version::One) && matches!(key_since(key), Version::Two) {
        return (0, LineFlaw::OnlyInTwo);
    }
    form_flaw(line, key)
}

/// The word of a line that makes it malformed, and what is wrong with it.
pub(crate) fn line_flaw(line: &[u8], standing: Standing) -> (usize, LineFlaw) {
    match standing.due {
        Due::Data { count, .. } => data_flaw(line, count),
        due => later_flaw(line, standing.version, due),
    }
}
