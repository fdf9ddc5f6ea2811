//! Values of lists that aren't of the form.

use crate::notes::paths::push_item;
use crate::{is_whole, is_word, is_word_or_whole};
use serde_json::Value;
use text_notes::notes::{FormFlaw, Printable};

/// A place, and what is wrong there.
pub(crate) type Wrong = Option<(Printable, FormFlaw)>;

/// What a value is to be.
#[derive(Clone, Copy)]
pub(crate) enum Rule {
    Word,
    Whole,
    Item,
}

/// Whether the value is so.
fn fits(rule: Rule, value: &Value) -> bool {
    match rule {
        Rule::Word => is_word(value),
        Rule::Whole => is_whole(value),
        Rule::Item => is_word_or_whole(value),
    }
}

/// What is wrong with a value that isn't so.
fn flaw_of(rule: Rule) -> FormFlaw {
    match rule {
        Rule::Word => FormFlaw::NoWord,
        Rule::Whole => FormFlaw::NoWhole,
        Rule::Item => FormFlaw::NoItem,
    }
}

/// What is wrong at this place, where such a value is due.
pub(crate) fn wrong_value(path: Printable, value: &Value, rule: Rule) -> Wrong {
    if fits(rule, value) {
        None
    } else {
        Some((path, flaw_of(rule)))
    }
}

/// What is wrong at this place, where a list is due: of a first value, if there has to be one, and others.
pub(crate) fn wrong_list(
    path: Printable,
    value: &Value,
    first: Option<Rule>,
    others: Rule,
) -> Wrong {
    let mut path = path;
    let Some(values) = value.as_array() else {
        return Some((path, FormFlaw::NoList));
    };
    if values.is_empty() && first.is_some() {
        push_item(&mut path, 0);
        return Some((path, FormFlaw::NoWord));
    }
    for (i, item) in values.iter().enumerate() {
        let rule = if i == 0 {
            first.unwrap_or(others)
        } else {
            others
        };
        if !fits(rule, item) {
            push_item(&mut path, i);
            return Some((path, flaw_of(rule)));
        }
    }
    None
}
